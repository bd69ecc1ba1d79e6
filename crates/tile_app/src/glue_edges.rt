//! The glue edges of a rule's kinds, looked up once.
ghost use Rattle.std.specs.Prelude.{◌≡◌, ◌<◌};
ghost use Rattle.rule_model.specs.Tiling.{tiling_of};
ghost use Rattle.rule_model.specs.Views.{rule_of};
ghost use Rattle.tile_app.specs.GlueEdges.{AreGlueEdges};
ghost use Rattle.tile_app.specs.DrawnTile.{tile_drawn, IsDrawableHalf};
ghost use Rattle.half_glue.specs.Outline.{glue_edge_of};
ghost use Rattle.theory_substitution.specs.RuleParts.{edge_count};

use layer_api::part::Part;
use tile_place::machine::Machine;

/// The number of each kind's glue edge, and 0 for a kind that has none.
#[derive(Clone, Copy, Debug)]
pub struct GlueEdges {
    edges: [u8; 16],
}

impl GlueEdges {
    /// Looks up the glue edge of each kind of a rule.
    pub fn new(machine: &Machine) -> GlueEdges
        ensures { AreGlueEdges (tiling_of machine.now) result }
    {
        let checked = machine.checked();
        let mut edges = [0; 16];
        for kind in 0..checked.rule().kind_count() {
            edges[kind] = checked.glue_edge(kind as u8).unwrap_or(0);
        }
        GlueEdges { edges }
    }

    /// Returns the number of the glue edge of a half.
    pub fn of(&self, machine: &Machine, half: &Part) -> usize
        requires edges { AreGlueEdges (tiling_of machine.now) self.now }
        requires half { IsDrawableHalf (tiling_of machine.now) (tile_drawn half.now) }
        ensures edge { result ≡ glue_edge_of (rule_of machine.now) half.now.kind }
        ensures exists { result < edge_count (rule_of machine.now) half.now.kind }
    {
        let _few_kinds = machine.checked();
        usize::from(self.edges[usize::from(half.kind)])
    }
}
