//! The tile that the engine locates in a supertile, compared with a list of all its tiles.
use crate::counts::Counts;
use crate::drawn_tile::{DrawnTile, drawn_tiles, holders};
use crate::placing::motion;
use crate::points::points;
use crate::small::near;
use crate::supertile::{tile_count, tiles};
use cyclo_points::motion::Motion;
use cyclo_points::point::Point;
use cyclo_points::rotation::turn;
use std::alloc::Global;
use tile_place::locate_fault::LocateFault;
use tile_place::machine::Machine;
use tile_place::placed_tile::PlacedTile;
use tile_shape::no_memory::NoMemory;

/// The greatest depth whose tiles are all listed.
const DEEPEST: u8 = 4;

/// Returns what the engine locates, or None if the call's conditions do not hold.
pub fn locate(
    machine: &Machine,
    kind: u8,
    depth: u8,
    at: &Motion,
    point: &Point,
) -> Option<Result<PlacedTile, LocateFault>> {
    let order = machine.checked().order();
    let exists = kind < machine.checked().uses().kinds();
    if !exists || depth > 64 || at.turn >= order.n() || !near(&at.shift) || !near(point) {
        return None;
    }
    let at = Motion {
        turn: at.turn,
        shift: turn(order, 0, &at.shift),
    };
    if !near(&at.shift) {
        return None;
    }
    Some(machine.locate(kind, depth, &at, point))
}

/// Returns true if the engine located the only tile of the list that holds the point, or none if none does.
fn is_listed(
    machine: &Machine,
    tiles: &[DrawnTile],
    located: Option<Result<PlacedTile, LocateFault>>,
    point: &Point,
) -> bool {
    match holders(machine.checked().order(), tiles, point) {
        (0, _) => located == Some(Err(LocateFault::NotInside)),
        (1, Some(wanted)) => match located {
            Some(Ok(tile)) => tile == *wanted,
            _ => false,
        },
        _ => false,
    }
}

/// Counts the points of the tiles of a supertile for which the engine locates the listed tile, and the
/// others.
pub fn located_in(
    alloc: Global,
    machine: &Machine,
    kind: u8,
    depth: u8,
    at: &Motion,
) -> Result<Counts, NoMemory> {
    let listed = tiles(alloc, machine, kind, depth, at)?;
    let tiles = drawn_tiles(alloc, machine, listed)?;
    let points = points(alloc, machine.checked().order(), tiles.as_slice())?;
    let mut counts = Counts::default();
    for point in points.as_slice() {
        let located = locate(machine, kind, depth, at, point);
        counts.count(is_listed(machine, tiles.as_slice(), located, point));
    }
    Ok(counts)
}

/// Like [`located_in`], for the supertiles of all kinds up to depth 4 with at most `most` tiles. Each
/// supertile is turned by another angle.
pub fn located(alloc: Global, machine: &Machine, most: u64) -> Result<Counts, NoMemory> {
    let shift = Point { c: [3, -2, 0, 0] };
    let mut counts = Counts::default();
    for kind in 0..machine.checked().uses().kinds() {
        for depth in 0..=DEEPEST {
            if tile_count(machine, kind, depth) <= most {
                if let Some(at) = motion(machine, kind.wrapping_add(depth), &shift) {
                    counts.add(located_in(alloc, machine, kind, depth, &at)?);
                }
            }
        }
    }
    Ok(counts)
}
