//! The least depth at which a frame surrounds a window, found by listing its tiles at each depth.
use crate::drawn_tile::{DrawnTile, drawn_tiles, holders};
use crate::frame_tiles::{begun, frame_tiles};
use crate::small::near;
use crate::supertile::tile_count;
use cyclo_points::order::Order;
use cyclo_points::point::Point;
use lazy_walk::frame::Frame;
use plane_geom::box_edges::edge_meets_box;
use plane_geom::window::Window;
use std::alloc::Global;
use tile_place::machine::Machine;
use tile_shape::address::Address;
use tile_shape::no_memory::NoMemory;

/// Returns true if a tile has an edge from `start` to `end`.
fn has_edge(tile: &DrawnTile, start: &Point, end: &Point) -> bool {
    let corners = tile.corners();
    let mut before = corners.last();
    for corner in corners {
        if corner == end && before == Some(start) {
            return true;
        }
        before = Some(corner);
    }
    false
}

/// Returns true if an edge meets a window, and no tile has an edge from its end to its start.
fn is_open(order: Order, tiles: &[DrawnTile], window: &Window, start: &Point, end: &Point) -> bool {
    if !near(start) || !near(end) || !near(&window.centre) {
        return true;
    }
    edge_meets_box(order, start, end, window)
        && !tiles.iter().any(|tile| has_edge(tile, end, start))
}

/// Returns true if the tiles of a frame surround a window. One of them must hold the centre, and each of
/// their edges that meets the window must have a tile on both sides.
fn reach_round(order: Order, tiles: &[DrawnTile], window: &Window) -> bool {
    if holders(order, tiles, &window.centre).0 == 0 {
        return false;
    }
    for tile in tiles {
        if tile.meets(order, window) {
            let corners = tile.corners();
            let mut before = corners.last();
            for corner in corners {
                if let Some(before) = before {
                    if is_open(order, tiles, window, before, corner) {
                        return false;
                    }
                }
                before = Some(corner);
            }
        }
    }
    true
}

/// Returns the frame of a base with a seed, at the least depth at which it surrounds a window. Returns None
/// if it has more than `most` tiles before.
pub fn least_frame(
    alloc: Global,
    machine: &Machine,
    base: &Address,
    start: u64,
    window: &Window,
    most: u64,
) -> Result<Option<Frame>, NoMemory> {
    let order = machine.checked().order();
    for depth in base.depth()..65 {
        let mut frame = match begun(machine, base, start) {
            Some(frame) => frame,
            None => return Ok(None),
        };
        frame.grow_to(machine, depth);
        let top = frame
            .digits()
            .last()
            .map_or(base.kind, |digit| digit.parent);
        if tile_count(machine, top, depth) > most {
            return Ok(None);
        }
        let tiles = frame_tiles(alloc, machine, &frame)?;
        let drawn = drawn_tiles(alloc, machine, tiles)?;
        if reach_round(order, drawn.as_slice(), window) {
            return Ok(Some(frame));
        }
    }
    Ok(None)
}
