//! The laws of whole tiles.
ghost use Rattle.rule_model.specs.Tiling.{tiling_of};
ghost use Rattle.half_glue.specs.Outline.{FirstGlueEdgeLaw, WholesCountLaw};
ghost use Rattle.half_glue.specs.Covering.{WholesCoverLaw, PartsOnceLaw};

use crate::glue_laws::glue_laws;
use theory_windows::frame_laws::frame_patch_law;
use theory_windows::patch_laws::gluing_law;
use tile_place::machine::Machine;

/// States the laws of the whole tiles of a machine's tiling.
///
/// - Two halves are glued along the only glue edge of each.
/// - At each test point, the outline of a whole tile has the count of its parts together.
/// - Distinct whole tiles, in order, share no part.
/// - So whole tiles of tiles that cover a window cover it: each test point in the window belongs to exactly
///   one of them.
pub fn whole_tiles_law(machine: &Machine)
    ensures glue_edge { FirstGlueEdgeLaw (tiling_of machine.now) }
    ensures counts { WholesCountLaw (tiling_of machine.now) }
    ensures once { PartsOnceLaw (tiling_of machine.now) }
    ensures covering { WholesCoverLaw (tiling_of machine.now) }
{
    glue_laws(machine);
    let order = machine.checked().order();
    gluing_law(order);
    frame_patch_law(order);
}
