//! The tiles around vertices, compared with a list of all tiles of the frame.
ghost use Rattle.std.specs.Prelude.{IfSome};
ghost use Rattle.theory_walks.specs.Frames.{IsFrameOf};
ghost use Rattle.rule_model.specs.Tiling.{tiling_of};

use crate::counts::Counts;
use crate::drawn_tile::{DrawnTile, drawn_tiles};
use crate::frame_tiles::{begun, frame_tiles};
use crate::placing::corners;
use crate::supertile::{addresses, tile_count};
use cyclo_points::point::Point;
use edge_tables::steps::Steps;
use lazy_walk::frame::Frame;
use star_walk::corner::Corner;
use star_walk::star::Star;
use std::alloc::Global;
use std::sync::ledger::Ledger;
use tile_place::machine::Machine;
use tile_shape::address::Address;
use tile_shape::no_memory::NoMemory;

/// The seed of all frames.
const START: u64 = 42;

/// Finds the tiles around a vertex of a base, and returns the frame as it has grown. Returns None if the base
/// has no vertex of this number, or the vertex is refused.
fn found<L: Ledger>(
    machine: &Machine,
    base: &Address,
    vertex: u8,
    star: &mut Star,
    steps: &mut Steps<L>,
) -> Option<Frame>
    ensures { IfSome result (IsFrameOf (tiling_of machine.now)) }
{
    let mut frame = begun(machine, base, START)?;
    if vertex >= machine.checked().tables().edges(frame.base().kind) {
        return None;
    }
    star.find(machine, &mut frame, vertex, steps).ok()?;
    Some(frame)
}

/// Returns the vertex after this one of a tile, in the direction of its edges.
fn behind(tile: &DrawnTile, vertex: usize) -> Option<Point> {
    let outline = tile.corners();
    match outline.get(vertex.wrapping_add(1)) {
        Some(point) => Some(*point),
        None => outline.first().copied(),
    }
}

/// Returns the vertex before this one of a tile.
fn before(tile: &DrawnTile, vertex: usize) -> Option<Point> {
    let outline = tile.corners();
    match vertex.checked_sub(1) {
        Some(vertex) => outline.get(vertex).copied(),
        None => outline.last().copied(),
    }
}

/// Returns the vertices before and after a corner, if its tile is listed and has that vertex at this point.
fn ends(tiles: &[DrawnTile], point: &Point, corner: &Corner) -> Option<(Point, Point)> {
    let drawn = tiles.iter().find(|drawn| drawn.tile == corner.tile)?;
    let vertex = usize::from(corner.vertex);
    if drawn.corners().get(vertex) != Some(point) {
        return None;
    }
    Some((before(drawn, vertex)?, behind(drawn, vertex)?))
}

/// Returns true if the corners are those of all listed tiles that have the point as a vertex, in turning
/// order. Each corner's edge that ends there runs back along the next corner's edge that starts there. After
/// the last corner comes the first.
fn are_round(tiles: &[DrawnTile], point: &Point, round: &[Corner]) -> bool {
    let number = tiles
        .iter()
        .filter(|drawn| drawn.corners().contains(point))
        .count();
    let mut last = match round.last().and_then(|corner| ends(tiles, point, corner)) {
        Some((before, _)) => before,
        None => return false,
    };
    for corner in round {
        match ends(tiles, point, corner) {
            Some((before, behind)) if behind == last => last = before,
            _ => return false,
        }
    }
    number == round.len()
}

/// Returns true if the corners are those of all listed tiles that have this vertex of the base, the base
/// first.
fn is_star(
    machine: &Machine,
    frame: &Frame,
    vertex: u8,
    tiles: &[DrawnTile],
    round: &[Corner],
) -> bool
    requires frame { IsFrameOf (tiling_of machine.now) frame.now }
{
    let base = frame.base_tile(machine);
    let outline = match corners(machine, &base) {
        Some(outline) => outline,
        None => return false,
    };
    match (outline.get(usize::from(vertex)), round.first()) {
        (Some(point), Some(corner)) => {
            corner.tile == base && corner.vertex == vertex && are_round(tiles, point, round)
        }
        _ => false,
    }
}

/// Returns true if the tiles found around a vertex of a base are the listed ones. Returns None if the vertex
/// is refused, or the frame has more than `most` tiles.
fn compared<L: Ledger>(
    alloc: Global,
    machine: &Machine,
    base: &Address,
    vertex: u8,
    most: u64,
    star: &mut Star,
    steps: &mut Steps<L>,
) -> Result<Option<bool>, NoMemory> {
    let frame = match found(machine, base, vertex, star, steps) {
        Some(frame) => frame,
        None => return Ok(None),
    };
    let last = frame.digits().last();
    let top = last.map_or(base.kind, |digit| digit.parent);
    if tile_count(machine, top, frame.depth()) > most {
        return Ok(None);
    }
    let tiles = frame_tiles(alloc, machine, &frame)?;
    let drawn = drawn_tiles(alloc, machine, tiles)?;
    let round = star.corners.as_slice();
    Ok(Some(is_star(machine, &frame, vertex, drawn.as_slice(), round)))
}

/// Tests the vertices of all tiles of the supertiles of all kinds up to a depth, if the frame then has at
/// most `most` tiles. Counts the vertices around which the tiles found are the listed ones, and the others.
pub fn stars<L: Ledger>(
    alloc: Global,
    machine: &Machine,
    deepest: u8,
    most: u64,
    steps: &mut Steps<L>,
) -> Result<Counts, NoMemory> {
    let mut star = Star::new();
    let mut counts = Counts::default();
    for kind in 0..machine.checked().uses().kinds() {
        for depth in 0..=deepest {
            let bases = addresses(alloc, machine, kind, depth)?;
            for base in bases.as_slice() {
                for vertex in 0..12 {
                    let told = compared(alloc, machine, base, vertex, most, &mut star, steps)?;
                    if let Some(is_right) = told {
                        counts.count(is_right);
                    }
                }
            }
        }
    }
    Ok(counts)
}
