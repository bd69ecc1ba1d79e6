//! The tiles of a path across edges.
ghost use Rattle.std.specs.Prelude.{◌≡◌, ◌↔◌, ◌+◌, ◌<◌, ◌≤◌, length, IsTrue, IfOk, IfErr, OnOk};
ghost use Rattle.theory_walks.specs.Frames.{whole, IsFrameOf};
ghost use Rattle.theory_walks.specs.Paths.{CanBeWalked};
ghost use Rattle.rule_model.specs.Tiling.{tiling_of};
ghost use Rattle.c_values.specs.Statuses.{ok};
ghost use Rattle.tiling_c.specs.Walk.{AreWalked, AsksForWalk, GrowsAlong, StopsAlong, GivesFrame, RefusesFrame, ShowsWalk, most_edges, code_of_path};

use c_values::plain_address::PlainAddress;
use c_values::plain_frame::PlainFrame;
use c_values::plain_tile::PlainTile;
use c_values::shared_machine::SharedMachine;
use c_values::status::{BAD_ADDRESS, BAD_WORDS, DEPTH_LIMIT, NO_EDGE, OK};
use edge_tables::steps::Steps;
use lazy_walk::frame::Frame;
use lazy_walk::path_fault::PathFault;
use std::marker::Brand;
use std::sync::ledger::{Blank, Ledger};
use tile_place::machine::Machine;

/// The most edges of a path.
const MOST_EDGES: usize = 30_000;

/// Returns true if the numbers of a walk are in their ranges.
fn asks_for_walk(grow: u8, path: &[u8], tiles: &[PlainTile], addrs: &[PlainAddress]) -> bool
    ensures { IsTrue result ↔ AsksForWalk grow path.now tiles.now addrs.now }
{
    grow <= 64
        && path.len() <= MOST_EDGES
        && tiles.len() == path.len() + 1
        && addrs.len() == path.len() + 1
}

/// Returns the status of a fault.
fn status_of(fault: &PathFault) -> u8
    ensures { result ≡ code_of_path fault.now }
{
    match fault {
        PathFault::NoEdge { .. } => NO_EDGE,
        PathFault::DepthLimit(_) => DEPTH_LIMIT,
    }
}

/// Lets a frame grow until a path can be walked from its base. Counts the look-ups on a ledger of this name,
/// which nobody reads. Err has the status of the fault.
fn grow_along<L: Ledger>(
    machine: &Machine,
    frame: &mut Frame,
    path: &[u8],
    blank: Blank,
) -> Result<(), u8>
    requires blank { (blank.name ≡ L.name) × (blank.parts ≡ L.parts) × (0 < blank.parts) }
    requires frame { IsFrameOf (tiling_of machine.now) frame.old }
    ensures grown { OnOk result (GrowsAlong (tiling_of machine.now) frame.old path.now frame.new) }
    ensures stopped { IfErr result (StopsAlong (tiling_of machine.now) frame.old path.now) }
{
    let mut steps = Steps::<L>::new(blank);
    match frame.grow_along(machine, path, &mut steps) {
        Ok(()) => Ok(()),
        Err(fault) => Err(status_of(&fault)),
    }
}

/// Returns the frame of these numbers, grown to at least a depth, in which a path can be walked. Err has the
/// status of the refusal.
fn frame_of_walk(machine: &Machine, frame: &PlainFrame, grow: u8, path: &[u8]) -> Result<Frame, u8>
    requires at_most_64 { grow ≤ 64 }
    ensures given { IfOk result (GivesFrame (tiling_of machine.now) frame.now grow path.now) }
    ensures refused { IfErr result (RefusesFrame (tiling_of machine.now) frame.now path.now) }
{
    let Some(mut grown) = frame.frame(machine) else {
        return Err(BAD_ADDRESS);
    };
    grown.grow_to(machine, grow);
    match grow_along::<Brand>(machine, &mut grown, path, Blank::new(1)) {
        Ok(()) => Ok(grown),
        Err(status) => Err(status),
    }
}

/// Puts the tiles of a path that can be walked in the frame as it is.
fn put_tiles<L: Ledger>(
    machine: &Machine,
    frame: &Frame,
    path: &[u8],
    tiles: &mut [PlainTile],
    addrs: &mut [PlainAddress],
    blank: Blank,
)
    requires blank { (blank.name ≡ L.name) × (blank.parts ≡ L.parts) × (0 < blank.parts) }
    requires frame { IsFrameOf (tiling_of machine.now) frame.now }
    requires walked { CanBeWalked (tiling_of machine.now) (whole frame.now) path.now }
    requires no_longer { length path.now ≤ most_edges }
    requires tiles_room { length tiles.old ≡ length path.now + 1 }
    requires addresses_room { length addrs.old ≡ length path.now + 1 }
    ensures { AreWalked (tiling_of machine.now) frame.now path.now tiles.new addrs.new }
{
    let mut steps = Steps::<L>::new(blank);
    let mut tile = frame.base_tile(machine);
    tiles[0] = PlainTile::placed(tile.kind, &tile.motion, 0);
    addrs[0].write(&tile.addr);
    for i in 0..path.len() {
        let back = frame.step(machine, &mut tile, path[i], &mut steps).unwrap();
        tiles[i + 1] = PlainTile::placed(tile.kind, &tile.motion, back);
        addrs[i + 1].write(&tile.addr);
    }
}

/// Finds the tiles of a path from the base of a frame, the base first. Each edge of the path is crossed from
/// the tile reached. The number of each tile except the base is its edge that leads back.
#[unsafe(no_mangle)]
pub extern "C" fn tiling_walk(
    t: SharedMachine,
    frame: &PlainFrame,
    grow: u8,
    path: &[u8],
    tiles: &mut [PlainTile],
    addrs: &mut [PlainAddress],
) -> u8
    ensures shown { ShowsWalk (tiling_of t.rule) frame.now grow path.now tiles.old tiles.new addrs.old
        addrs.new result }
    ensures unchanged { ¬ result ≡ ok → (tiles.new ≡ tiles.old) × (addrs.new ≡ addrs.old) }
{
    if !asks_for_walk(grow, path, tiles, addrs) {
        return BAD_WORDS;
    }
    let machine = t.get();
    match frame_of_walk(machine, frame, grow, path) {
        Ok(grown) => {
            put_tiles::<Brand>(machine, &grown, path, tiles, addrs, Blank::new(1));
            OK
        }
        Err(status) => status,
    }
}
