//! The tiles of a window.
ghost use Rattle.std.specs.Prelude.{◌≡◌, ◌↔◌, ◌⊎◌, length, IsTrue, IfOk, IfErr};
ghost use Rattle.theory_walks.specs.Frames.{IsFrameOf};
ghost use Rattle.rule_model.specs.Tiling.{tiling_of};
ghost use Rattle.window_cover.specs.Windows.{IsWindow};
ghost use Rattle.c_values.specs.Statuses.{ok};
ghost use Rattle.tiling_c.specs.Cover.{HoldsTiles, HoldsAddresses, FindsTiles, EndsSearch, GivesTiles, RefusesTiles, ShowsCover, status_of};

use crate::framed_window::{FramedWindow, framed_window};
use c_values::plain_address::PlainAddress;
use c_values::plain_frame::PlainFrame;
use c_values::plain_tile::PlainTile;
use c_values::plain_window::PlainWindow;
use c_values::shared_machine::SharedMachine;
use c_values::status::{BAD_WORDS, COORD_LIMIT, DEPTH_LIMIT, NO_MEMORY, OK, TOO_MANY_TILES};
use std::alloc::Global;
use tile_place::machine::Machine;
use window_cover::cover_fault::CoverFault;
use window_cover::covered_tiles::CoveredTiles;
use window_cover::tiles_of_window::covered_tiles;

/// Puts tiles into an array, as far as there is room.
fn put_tiles(covered: &CoveredTiles, tiles: &mut [PlainTile])
    ensures { HoldsTiles covered.now tiles.old tiles.new }
{
    let room = covered.len().min(tiles.len());
    for place in 0..room {
        let tile = covered.tile(place);
        tiles[place] = PlainTile::placed(tile.kind, &tile.motion, 0);
    }
}

/// Puts tiles and their addresses into two arrays of one length, as far as there is room.
fn put_both(covered: &CoveredTiles, tiles: &mut [PlainTile], addrs: &mut [PlainAddress])
    requires same { length addrs.old ≡ length tiles.old }
    ensures tiles { HoldsTiles covered.now tiles.old tiles.new }
    ensures addresses { HoldsAddresses covered.now addrs.old addrs.new }
{
    let room = covered.len().min(tiles.len());
    for place in 0..room {
        let tile = covered.tile(place);
        tiles[place] = PlainTile::placed(tile.kind, &tile.motion, 0);
        addrs[place].write(&tile.addr);
    }
}

/// Puts tiles into an array, and their addresses into another unless it has no room.
fn put_covered(covered: &CoveredTiles, tiles: &mut [PlainTile], addrs: &mut [PlainAddress])
    requires lengths { (length addrs.old ≡ 0) ⊎ (length addrs.old ≡ length tiles.old) }
    ensures tiles { HoldsTiles covered.now tiles.old tiles.new }
    ensures addresses { HoldsAddresses covered.now addrs.old addrs.new }
{
    if addrs.is_empty() {
        put_tiles(covered, tiles);
    } else {
        put_both(covered, tiles, addrs);
    }
}

/// Returns the status of a fault.
fn status_of(fault: &CoverFault) -> u8
    ensures { result ≡ status_of fault.now }
{
    match fault {
        CoverFault::DepthLimit { .. } => DEPTH_LIMIT,
        CoverFault::CoordLimit { .. } => COORD_LIMIT,
        CoverFault::TooManyTiles => TOO_MANY_TILES,
        CoverFault::NoMemory => NO_MEMORY,
    }
}

/// Finds the tiles of a frame that meet a window. The frame grows as far as needed. Err has the status of the
/// fault.
pub(crate) fn find(
    alloc: Global,
    machine: &Machine,
    given: &mut FramedWindow,
) -> Result<CoveredTiles, u8>
    requires frame { IsFrameOf (tiling_of machine.now) given.old.frame }
    requires window_fits { IsWindow given.old.window }
    ensures found { IfOk result (FindsTiles (tiling_of machine.now) given.old.frame given.old.window
        given.new.frame) }
    ensures ended { IfErr result (EndsSearch (tiling_of machine.now) given.old.frame given.old.window) }
{
    match covered_tiles(alloc, machine, &mut given.frame, &given.window) {
        Ok(covered) => Ok(covered),
        Err(fault) => Err(status_of(&fault)),
    }
}

/// Like [`find`], for plain numbers. Err has the status of the refusal.
fn tiles_of(
    alloc: Global,
    machine: &Machine,
    frame: &PlainFrame,
    window: &PlainWindow,
) -> Result<CoveredTiles, u8>
    ensures given { IfOk result (GivesTiles (tiling_of machine.now) frame.now window.now) }
    ensures refused { IfErr result (RefusesTiles (tiling_of machine.now) frame.now window.now) }
{
    let mut given = framed_window(machine, frame, window)?;
    find(alloc, machine, &mut given)
}

/// Returns true if there is room for no addresses, or for as many addresses as tiles.
fn are_rooms(tiles: &[PlainTile], addrs: &[PlainAddress]) -> bool
    ensures { IsTrue result ↔ ((length addrs.now ≡ 0) ⊎ (length addrs.now ≡ length tiles.now)) }
{
    addrs.len() == 0 || addrs.len() == tiles.len()
}

/// Finds the tiles of a frame that meet a window, ordered by shift, then turn, then kind. Returns how many
/// there are, and as many of them as there is room for, with their addresses unless `addrs` has no room.
#[unsafe(no_mangle)]
pub extern "C" fn tiling_cover(
    alloc: Global,
    t: SharedMachine,
    frame: &PlainFrame,
    window: &PlainWindow,
    tiles: &mut [PlainTile],
    addrs: &mut [PlainAddress],
    count: &mut usize,
) -> u8
    ensures shown { ShowsCover (tiling_of t.rule) frame.now window.now tiles.old tiles.new addrs.old addrs.new
        count.new result }
    ensures unchanged { ¬ result ≡ ok → (tiles.new ≡ tiles.old) × (addrs.new ≡ addrs.old)
        × (count.new ≡ count.old) }
{
    if !are_rooms(tiles, addrs) {
        return BAD_WORDS;
    }
    match tiles_of(alloc, t.get(), frame, window) {
        Ok(covered) => {
            put_covered(&covered, tiles, addrs);
            *count = covered.len();
            OK
        }
        Err(status) => status,
    }
}
