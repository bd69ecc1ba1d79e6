//! Random walks, followed there and back.
ghost use Rattle.std.specs.Prelude.{◌≡◌, IfOk, IfSome};
ghost use Rattle.theory_addresses.specs.Address.{Address as TheAddress};
ghost use Rattle.rule_model.specs.Tiling.{tiling_of};
ghost use Rattle.theory_walks.specs.Frames.{IsFrameOf};
ghost use Rattle.lazy_walk.specs.Standing.{Stands};

use crate::counts::Counts;
use crate::draws::Draws;
use crate::frame_tiles::begun;
use crate::placing::copy;
use crate::small::near;
use edge_tables::steps::Steps;
use lazy_walk::frame::Frame;
use std::alloc::Global;
use std::sync::ledger::Ledger;
use tile_place::machine::Machine;
use tile_place::placed_tile::PlacedTile;
use tile_shape::address::Address;
use tile_shape::no_memory::NoMemory;

/// An edge that was crossed: the tile that it belongs to, the edge, and the edge that leads back.
#[derive(Debug, Drop)]
struct Crossed {
    tile: PlacedTile,
    edge: u8,
    back: u8,
}

/// Makes a random path of `edges` edges from the base of a frame, which grows as needed, and returns it with
/// the tile that it reaches. The path turns back only if there is no other edge. Returns None if an edge lies
/// on the boundary at depth 64.
fn drawn_path<L: Ledger>(
    alloc: Global,
    machine: &Machine,
    frame: &mut Frame,
    edges: u32,
    draws: &mut Draws,
    steps: &mut Steps<L>,
) -> Result<Option<(Vec<u8>, Address)>, NoMemory>
    requires frame { IsFrameOf (tiling_of machine.now) frame.old }
    ensures frame { IsFrameOf (tiling_of machine.now) frame.new }
{
    let mut path = Vec::new(alloc);
    let mut tile = frame.base_tile(machine).addr;
    let mut came = None;
    for _ in 0..edges {
        let edge = match draws.edge(machine, tile.kind, came) {
            Some(edge) => edge,
            None => return Ok(None),
        };
        if edge >= machine.checked().tables().edges(tile.kind) {
            return Ok(None);
        }
        match frame.cross_grow(machine, &tile, edge, steps) {
            Ok(crossing) => {
                tile = crossing.addr;
                came = Some(crossing.edge);
            }
            Err(_) => return Ok(None),
        }
        path.push(edge)?;
    }
    Ok(Some((path, tile)))
}

/// Crosses an edge, if the tile has one of that number, and returns the edge that leads back.
fn go<L: Ledger>(
    machine: &Machine,
    frame: &Frame,
    tile: &mut PlacedTile,
    edge: u8,
    steps: &mut Steps<L>,
) -> Option<u8>
    requires frame { IsFrameOf (tiling_of machine.now) frame.now }
    requires stands { Stands (tiling_of machine.now) frame.now tile.old }
    ensures stands { Stands (tiling_of machine.now) frame.now tile.new }
{
    if tile.addr.kind >= machine.checked().tables().kinds() || !near(&tile.motion.shift) {
        return None;
    }
    if edge >= machine.checked().tables().edges(tile.addr.kind) {
        return None;
    }
    frame.step(machine, tile, edge, steps).ok()
}

/// Follows a path, and returns the edges that were crossed.
fn there<L: Ledger>(
    alloc: Global,
    machine: &Machine,
    frame: &Frame,
    tile: &mut PlacedTile,
    path: &[u8],
    steps: &mut Steps<L>,
) -> Result<Vec<Crossed>, NoMemory>
    requires frame { IsFrameOf (tiling_of machine.now) frame.now }
    requires stands { Stands (tiling_of machine.now) frame.now tile.old }
    ensures stands { Stands (tiling_of machine.now) frame.now tile.new }
{
    let mut way = Vec::new(alloc);
    for edge in path {
        let from = copy(tile);
        if let Some(back) = go(machine, frame, tile, *edge, steps) {
            way.push(Crossed {
                tile: from,
                edge: *edge,
                back,
            })?;
        }
    }
    Ok(way)
}

/// Follows the edges that lead back. Returns true if each reaches the tile where its edge was crossed, in its
/// place, and that edge of the path leads back in turn.
fn leads_back<L: Ledger>(
    machine: &Machine,
    frame: &Frame,
    tile: &mut PlacedTile,
    way: &[Crossed],
    steps: &mut Steps<L>,
) -> bool
    requires frame { IsFrameOf (tiling_of machine.now) frame.now }
    requires stands { Stands (tiling_of machine.now) frame.now tile.old }
{
    for crossed in way.iter().rev() {
        let edge = go(machine, frame, tile, crossed.back, steps);
        if edge != Some(crossed.edge) || *tile != crossed.tile {
            return false;
        }
    }
    true
}

/// Returns true if the path leads to the same tile in the frame that has grown. The edges that lead back must
/// then reach the base, with the same motions all the way.
fn is_walked<L: Ledger>(
    alloc: Global,
    machine: &Machine,
    frame: &Frame,
    path: &[u8],
    reached: &Address,
    steps: &mut Steps<L>,
) -> Result<bool, NoMemory>
    requires frame { IsFrameOf (tiling_of machine.now) frame.now }
{
    let mut tile = frame.base_tile(machine);
    let base = copy(&tile);
    let way = there(alloc, machine, frame, &mut tile, path, steps)?;
    let is_whole = way.len() == path.len() && tile.addr == *reached;
    let is_back = leads_back(machine, frame, &mut tile, way.as_slice(), steps);
    Ok(is_whole && is_back && tile == base)
}

/// Returns true if a fresh frame of the base grows along the path to the same digits as this frame.
fn grows_alike<L: Ledger>(
    machine: &Machine,
    frame: &Frame,
    start: u64,
    path: &[u8],
    steps: &mut Steps<L>,
) -> bool {
    match begun(machine, frame.base(), start) {
        Some(mut fresh) => {
            let walked = fresh.grow_along(machine, path, steps);
            walked.is_ok() && fresh.digits() == frame.digits()
        }
        None => false,
    }
}

/// Makes a random base of this depth, a seed, and a walk of `edges` edges from the base. Returns the depth to
/// which its frame grows, or None if the walk there and back fails.
pub fn walked<L: Ledger>(
    alloc: Global,
    machine: &Machine,
    depth: u64,
    edges: u32,
    draws: &mut Draws,
    steps: &mut Steps<L>,
) -> Result<Option<u8>, NoMemory> {
    let base = match draws.address(machine, depth, true) {
        Some(base) => base,
        None => return Ok(None),
    };
    let start = draws.below(1 << 31);
    let mut frame = match begun(machine, &base, start) {
        Some(frame) => frame,
        None => return Ok(None),
    };
    let (path, reached) = match drawn_path(alloc, machine, &mut frame, edges, draws, steps)? {
        Some(drawn) => drawn,
        None => return Ok(None),
    };
    let is_alike = grows_alike(machine, &frame, start, path.as_slice(), steps);
    if is_alike && is_walked(alloc, machine, &frame, path.as_slice(), &reached, steps)? {
        Ok(Some(frame.depth()))
    } else {
        Ok(None)
    }
}

/// Makes random walks of 1 to 24 edges, from bases of depth 0 to 3. Counts those that succeed there and back,
/// and the others.
pub fn walks<L: Ledger>(
    alloc: Global,
    machine: &Machine,
    number: u32,
    steps: &mut Steps<L>,
) -> Result<Counts, NoMemory> {
    let mut draws = Draws { state: 42 };
    let mut counts = Counts::default();
    for _ in 0..number {
        let depth = draws.below(4);
        let edges = u32::try_from(draws.below(24)).unwrap_or(0).wrapping_add(1);
        let walked = walked(alloc, machine, depth, edges, &mut draws, steps)?;
        counts.count(walked.is_some());
    }
    Ok(counts)
}
