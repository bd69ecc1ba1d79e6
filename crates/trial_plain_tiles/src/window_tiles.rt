//! The tiles of windows, compared with a list of all tiles of the frame.
ghost use Rattle.std.specs.Prelude.{IsTrue};
ghost use Rattle.cyclo_points.specs.Point.{IsWithin};
ghost use Rattle.window_cover.specs.Windows.{IsWindow};

use crate::counts::Counts;
use crate::drawn_tile::drawn_tiles;
use crate::draws::Draws;
use crate::frame_tiles::{begun, frame_tiles};
use crate::placing::copy;
use crate::small::close;
use crate::supertile::tile_count;
use lazy_walk::frame::Frame;
use plane_geom::window::Window;
use std::alloc::Global;
use tile_place::machine::Machine;
use tile_place::placed_tile::PlacedTile;
use tile_shape::address::Address;
use tile_shape::no_memory::NoMemory;
use window_cover::cover_fault::CoverFault;
use window_cover::tiles_of_window::cover;

/// The seed of all frames.
const START: u64 = 42;

/// Returns true if a window is within the bounds of `cover`.
pub fn is_window(window: &Window) -> bool
    ensures { IsTrue result → IsWindow window.now }
{
    1 <= window.w && 1 <= window.h && window.w <= 4096 && window.h <= 4096 && close(&window.centre)
}

/// Covers a window in the frame of a base. Returns the result and the frame, or None if the call's conditions
/// do not hold.
pub fn covered(
    alloc: Global,
    machine: &Machine,
    base: &Address,
    window: &Window,
) -> Option<(Result<Vec<PlacedTile>, CoverFault>, Frame)> {
    if !is_window(window) {
        return None;
    }
    let mut frame = begun(machine, base, START)?;
    let covered = cover(alloc, machine, &mut frame, window);
    Some((covered, frame))
}

/// The numbers by which tiles are ordered, and a tile's position in its list.
#[derive(Clone, Copy, Debug, PartialEq, Eq, PartialOrd, Ord)]
struct Place {
    shift: [i64; 4],
    turn: u8,
    kind: u8,
    number: usize,
}

/// Returns the tiles in the order of their shifts, turns and kinds.
fn in_order(alloc: Global, tiles: &[&PlacedTile]) -> Result<Vec<PlacedTile>, NoMemory> {
    let mut places = Vec::new(alloc);
    for (number, tile) in tiles.iter().enumerate() {
        places.push(Place {
            shift: tile.motion.shift.c,
            turn: tile.motion.turn,
            kind: tile.kind,
            number,
        })?;
    }
    places.sort_unstable();
    let mut ordered = Vec::new(alloc);
    for place in places.as_slice() {
        if let Some(tile) = tiles.get(place.number) {
            ordered.push(copy(tile))?;
        }
    }
    Ok(ordered)
}

/// Lists the tiles of the frame, at its present depth, that meet a window, in order.
pub fn listed(
    alloc: Global,
    machine: &Machine,
    frame: &Frame,
    window: &Window,
) -> Result<Vec<PlacedTile>, NoMemory> {
    let order = machine.checked().order();
    let tiles = frame_tiles(alloc, machine, frame)?;
    let drawn = drawn_tiles(alloc, machine, tiles)?;
    let mut meeting = Vec::new(alloc);
    for tile in drawn.as_slice() {
        if tile.meets(order, window) {
            meeting.push(&tile.tile)?;
        }
    }
    in_order(alloc, meeting.as_slice())
}

/// Covers a window in the frame of a base. Returns whether the tiles found are the listed ones, and how many
/// are listed. Returns None if the window is refused, or the frame has more than `most` tiles.
pub fn compared(
    alloc: Global,
    machine: &Machine,
    base: &Address,
    window: &Window,
    most: u64,
) -> Result<Option<(bool, usize)>, NoMemory> {
    let (found, frame) = match covered(alloc, machine, base, window) {
        Some(covered) => covered,
        None => return Ok(None),
    };
    let top = frame
        .digits()
        .last()
        .map_or(base.kind, |digit| digit.parent);
    if tile_count(machine, top, frame.depth()) > most {
        return Ok(None);
    }
    match found {
        Ok(found) => {
            let wanted = listed(alloc, machine, &frame, window)?;
            Ok(Some((found == wanted, wanted.len())))
        }
        Err(_) => Ok(None),
    }
}

/// Makes random windows until `number` of them lie in frames of at most `most` tiles. Counts those whose
/// tiles are the listed ones, and the others, and adds up the listed tiles.
pub fn windows(
    alloc: Global,
    machine: &Machine,
    number: u32,
    most: u64,
) -> Result<(Counts, usize), NoMemory> {
    let order = machine.checked().order();
    let mut draws = Draws { state: 7 };
    let mut counts = Counts::default();
    let mut tiles: usize = 0;
    for _ in 0..number.saturating_mul(40) {
        let depth = draws.below(4);
        let any = draws.below(2) == 0;
        let base = draws.address(machine, depth, any);
        let window = draws.window(order, 2);
        if let Some(base) = base {
            if let Some((is_right, more)) = compared(alloc, machine, &base, &window, most)? {
                counts.count(is_right);
                tiles = tiles.saturating_add(more);
                if counts.right.saturating_add(counts.differ) >= number {
                    break;
                }
            }
        }
    }
    Ok((counts, tiles))
}
