//! The glue edges of a rule's kinds.
ghost use Rattle.std.specs.Prelude.{◌≡◌, ◌<◌, length, IfOk, IfSome};
ghost use Rattle.rule_model.specs.Tiling.{tiling_of};
ghost use Rattle.half_glue.specs.Sides.{HasGlue, IsOtherSide, IsSideOf, AreSides, are_mates};

use crate::glue_laws::glue_laws;
use crate::kind_edge::KindEdge;
use cyclo_points::motion::Motion;
use std::alloc::Global;
use tile_place::machine::Machine;
use tile_shape::no_memory::NoMemory;

/// The other half: its kind, and the motion that takes its glue edge onto the reverse of this half's.
#[derive(Clone, Copy)]
pub(crate) struct OtherSide {
    pub(crate) kind: u8,
    pub(crate) glue: Motion,
}

/// The glue edge of a kind, and the half across it.
#[derive(Clone, Copy)]
pub(crate) struct GlueSide {
    pub(crate) edge: u8,
    pub(crate) other: Option<OtherSide>,
}

/// Returns, for each kind of a rule, its glue edge if it has one.
pub(crate) fn glue_sides(
    alloc: Global,
    machine: &Machine,
) -> Result<Vec<Option<GlueSide>>, NoMemory>
    ensures { IfOk result (λ sides. AreSides (tiling_of machine.now) sides.items) }
{
    glue_laws(machine);
    let count = machine.checked().rule().kind_count();
    let mut sides = Vec::with_capacity(alloc, count)?;
    for kind in 0..count {
        sides.push(glue_side(machine, kind as u8))?;
    }
    Ok(sides)
}

/// Returns the glue edge of a kind, if it has one.
fn glue_side(machine: &Machine, kind: u8) -> Option<GlueSide>
    requires exists { kind < length (tiling_of machine.now).rule.kinds }
    ensures { IsSideOf (tiling_of machine.now) kind result }
{
    match machine.checked().glue_edge(kind) {
        Some(edge) => Some(GlueSide {
            edge,
            other: other_side(machine, KindEdge { kind, edge }),
        }),
        None => None,
    }
}

/// Returns the other half of a kind, across this glue edge.
fn other_side(machine: &Machine, own: KindEdge) -> Option<OtherSide>
    requires { HasGlue (tiling_of machine.now) own.kind own.edge }
    ensures { IfSome result (IsOtherSide (tiling_of machine.now) own.kind own.edge) }
{
    glue_laws(machine);
    for other in 0..machine.checked().rule().kind_count() {
        let other = other as u8;
        if let Some(back) = machine.checked().glue_edge(other) {
            let its = KindEdge {
                kind: other,
                edge: back,
            };
            if are_mates(machine, own, its) && machine.meets(own.kind, own.edge, other, back) {
                return Some(OtherSide {
                    kind: other,
                    glue: machine.glue_motion(own.kind, own.edge, other, back),
                });
            }
        }
    }
    None
}

/// Returns true if the types of two edges are mates.
fn are_mates(machine: &Machine, a: KindEdge, b: KindEdge) -> bool
    requires own { HasGlue (tiling_of machine.now) a.kind a.edge }
    requires other { HasGlue (tiling_of machine.now) b.kind b.edge }
    ensures { result ≡ are_mates (tiling_of machine.now).rule a.kind a.edge b.kind b.edge }
{
    glue_laws(machine);
    let rule = machine.checked().rule();
    let own = rule.edge_type(usize::from(a.kind), usize::from(a.edge));
    let its = rule.edge_type(usize::from(b.kind), usize::from(b.edge));
    its == rule.mate(own)
}
