//! The search step by step.
ghost use Rattle.std.specs.Prelude.{IfSome};
ghost use Rattle.rule_model.specs.Tiling.{tiling_of};
ghost use Rattle.theory_walks.specs.Frames.{IsFrameOf};
ghost use Rattle.window_cover.specs.Right.{IsRight};

use crate::given::listed;
use cyclo_points::point::Point;
use lazy_walk::frame::Frame;
use plane_geom::window::Window;
use std::alloc::{AllocError, Global};
use tile_place::machine::Machine;
use tile_place::placed_tile::PlacedTile;
use tile_shape::address::Address;
use trial_plain_tiles::frame_tiles::begun;
use trial_plain_tiles::window_tiles::is_window;
use window_cover::cover::Cover;
use window_cover::open_edge::OpenEdge;

/// How many tiles are found, how many edges are open, and the first of these.
#[derive(Clone, Copy)]
struct Seen {
    tiles: u32,
    open_edges: u32,
    first_open: Option<OpenEdge>,
}

impl Seen {
    /// What is seen of a search.
    fn of(cover: &Cover) -> Seen {
        Seen {
            tiles: cover.tiles(),
            open_edges: cover.open_edges(),
            first_open: cover.first_open(),
        }
    }
}

/// The tiles of a search that is at its end.
fn finished(
    alloc: Global,
    machine: &Machine,
    frame: &Frame,
    cover: Cover,
) -> Option<Vec<PlacedTile>>
    requires right { IsRight (tiling_of machine.now) frame.now cover }
{
    if cover.open_edges() != 0 {
        return None;
    }
    cover.finish(alloc, frame).ok()
}

/// One step of a search, from a tile that has open edges.
fn stepped(machine: &Machine, frame: &mut Frame, cover: Cover) -> Option<Cover>
    requires right { IsRight (tiling_of machine.now) frame.old cover }
    ensures right { IfSome result (IsRight (tiling_of machine.now) frame.new) }
{
    if cover.open_edges() == 0 {
        return None;
    }
    match cover.step(machine, frame) {
        Ok(next) => Some(next),
        Err(_) => None,
    }
}

/// What is seen of the search for a window at its start and after one step, where it is at its end then.
fn searched(
    alloc: Global,
    machine: &Machine,
    frame: &mut Frame,
    window: &Window,
) -> Option<(Seen, Seen, Vec<PlacedTile>)>
    requires frame { IsFrameOf (tiling_of machine.now) frame.old }
{
    if !is_window(window) {
        return None;
    }
    let started = match Cover::start(alloc, machine, frame, window) {
        Ok(started) => started,
        Err(_) => return None,
    };
    let before = Seen::of(&started);
    let next = stepped(machine, frame, started)?;
    let after = Seen::of(&next);
    let tiles = finished(alloc, machine, frame, next)?;
    Some((before, after, tiles))
}

/// Returns the state of a search as a text: the tiles, the open edges, and the tile and number of the first
/// of these.
fn seen_text(alloc: Global, seen: &Seen) -> Result<String, AllocError> {
    match seen.first_open {
        Some(edge) => format!(in alloc;
            "{} {} {} {}\n",
            seen.tiles, seen.open_edges, edge.tile, edge.edge
        ),
        None => format!(in alloc; "{} {}\n", seen.tiles, seen.open_edges),
    }
}

/// Returns the same for a search for a window from the chair's base of no digits, before and after one step,
/// with its tiles and the depth.
fn told(alloc: Global, machine: &Machine, window: &Window) -> Result<String, AllocError> {
    let mut frame = match begun(machine, &Address::new(0), 42) {
        Some(frame) => frame,
        None => return Ok(String::new(alloc)),
    };
    match searched(alloc, machine, &mut frame, window) {
        Some((before, after, tiles)) => {
            let first = seen_text(alloc, &before)?;
            let second = seen_text(alloc, &after)?;
            let tiles = listed(alloc, tiles.as_slice())?;
            format!(in alloc; "{first}{second}{tiles}depth {}", frame.depth())
        }
        None => Ok(String::new(alloc)),
    }
}

/// Returns true if the window of two chairs is found in one step.
pub(crate) fn is_one_step(alloc: Global, chair: &Machine) -> Result<bool, AllocError> {
    let window = Window {
        centre: Point { c: [1, 1, 0, 0] },
        w: 2,
        h: 1,
    };
    let text = told(alloc, chair, &window)?;
    let wanted = "1 2 0 1\n2 0\n0 0 0,0,0,0 0:3/0\n0 1 3,1,0,0 0:1/0\ndepth 1";
    Ok(text.as_str() == wanted)
}
