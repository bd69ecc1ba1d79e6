//! Gluing motions of edges that meet, worked out by hand from the places of neighbours, and edges that do not
//! meet.
use crate::placed::glue_motion;
use crate::wrong::Wrong;
use builtin_rules::name::Name;
use cyclo_points::motion::Motion;
use cyclo_points::order::Order;
use cyclo_points::point::Point;
use std::alloc::Global;
use theory_dissection::laws::{
    crossing_law, dissection_law, multiples_law, no_return_law, touch_law,
};
use tile_shape::no_memory::NoMemory;
use trial_plain_tiles::built_in::machine_of;

/// A rule, a kind and an edge, another kind and edge, and the turn and the shift of a motion.
type Row = (Name, [u8; 4], Option<(u8, [i64; 4])>);

/// A rule, a kind and an edge, another kind and edge, and the turn and the shift of the motion that glues the
/// second onto the first. A kite's half has two sides of length φ, and one of length 1.
static ROWS: [Row; 6] = [
    (Name::Chair, [0, 0, 0, 3], Some((0, [1, 1, 0, 0]))),
    (Name::Chair, [0, 3, 0, 0], Some((0, [-1, -1, 0, 0]))),
    (Name::Chair, [0, 0, 0, 1], Some((1, [3, 1, 0, 0]))),
    (Name::P2, [0, 2, 1, 0], Some((1, [0, 0, 0, 0]))),
    (Name::P2, [0, 0, 0, 1], None),
    (Name::P2, [0, 1, 0, 0], None),
];

/// Returns true if two edges are glued as their row says.
fn is_glued(alloc: Global, row: &Row) -> Result<bool, NoMemory> {
    let (name, [kind, edge, other, other_edge], wanted) = row;
    let machine = machine_of(alloc, *name)?;
    machine.gluing_law();
    let wanted = wanted.map(|(turn, c)| Motion {
        turn,
        shift: Point { c },
    });
    Ok(glue_motion(&machine, *kind, *edge, *other, *other_edge) == wanted)
}

/// Notes the first edges that are glued otherwise.
pub(crate) fn note_glued(alloc: Global, wrong: &mut Wrong) {
    for (number, row) in ROWS.iter().enumerate() {
        wrong.note("glued edges", number, is_glued(alloc, row).unwrap_or(false));
    }
}

#[test]
fn laws(_rt: HostRuntime) {
    dissection_law(Order::Four);
    touch_law(Order::Six);
    crossing_law(Order::Eight);
    no_return_law(Order::Ten);
    multiples_law(Order::Eight);
}
