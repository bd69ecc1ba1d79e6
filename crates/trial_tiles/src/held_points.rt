//! Points of the chair's supertiles, worked out by hand.
use crate::given::tile_text;
use crate::wrong::Wrong;
use cyclo_points::motion::Motion;
use cyclo_points::point::Point;
use std::alloc::{AllocError, Global};
use tile_place::locate_fault::LocateFault;
use tile_place::machine::Machine;
use trial_plain_tiles::located::locate;

/// The depth of a supertile of kind 0 that is not moved, a point, and the result: a tile's kind, turn, shift
/// and address, or a fault.
static ROWS: [(u8, [i64; 4], &str); 6] = [
    (1, [1, 1, 0, 0], "0 0 1,1,0,0 0:1/0"),
    (1, [3, 0, 0, 0], "0 1 4,0,0,0 0:2/0"),
    (1, [4, 0, 0, 0], "NotInside"),
    // a lone tile has its lower and left edges, and not the others
    (0, [0, 0, 0, 0], "0 0 0,0,0,0 0:"),
    (0, [2, 0, 0, 0], "NotInside"),
    // 2^25 is the first power that is refused
    (25, [0, 0, 0, 0], "CoordLimit 33554432,0,0,0"),
];

/// What is located in a supertile of kind 0 that isn't moved, as a text.
fn told(alloc: Global, machine: &Machine, depth: u8, point: &Point) -> Result<String, AllocError> {
    let located = match locate(machine, 0, depth, &Motion::default(), point) {
        Some(located) => located,
        None => return "no supertile".to_string(alloc),
    };
    match located {
        Ok(tile) => tile_text(alloc, &tile),
        Err(LocateFault::NotInside) => "NotInside".to_string(alloc),
        Err(LocateFault::CoordLimit { value }) => format!(in alloc; "CoordLimit {value}"),
    }
}

/// Returns true if this is told of a point.
fn is_told(
    alloc: Global,
    machine: &Machine,
    depth: u8,
    point: &Point,
    wanted: &str,
) -> Result<bool, AllocError> {
    Ok(told(alloc, machine, depth, point)?.as_str() == wanted)
}

/// Notes the first point that is located otherwise.
pub(crate) fn note_located(alloc: Global, wrong: &mut Wrong, chair: &Machine) {
    for (row, (depth, c, wanted)) in ROWS.iter().enumerate() {
        let is_right = is_told(alloc, chair, *depth, &Point { c: *c }, wanted);
        wrong.note("located points", row, is_right.unwrap_or(false));
    }
}
