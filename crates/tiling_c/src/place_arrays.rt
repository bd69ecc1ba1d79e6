//! Where the tiles of an array lie in their supertiles.
ghost use Rattle.std.specs.Prelude.{◌≡◌, ◌<◌, ℕ, length};
ghost use Rattle.rule_model.specs.Tiling.{tiling_of};
ghost use Rattle.c_values.specs.Statuses.{ok};
ghost use Rattle.tiling_c.specs.Arrays.{plain_address_at, plain_tile_at};
ghost use Rattle.tiling_c.specs.Placing.{ShowsPlaceInArray, ShowsPlaces};

use crate::placing::place_of;
use c_values::plain_address::PlainAddress;
use c_values::plain_tile::PlainTile;
use c_values::shared_machine::SharedMachine;
use c_values::status::{BAD_WORDS, OK};
use tile_place::machine::Machine;

/// Returns where a tile lies, or why it has no place.
fn tile_placed(machine: &Machine, addr: &PlainAddress) -> PlainTile
    ensures { ShowsPlaceInArray (tiling_of machine.now) addr.now result }
{
    match place_of(machine, addr) {
        Ok(motion) => PlainTile::placed(addr.kind, &motion, 0),
        Err(status) => PlainTile::refused(status),
    }
}

/// Puts where each tile lies.
fn put_places(machine: &Machine, addrs: &[PlainAddress], tiles: &mut [PlainTile])
    requires same_length { length addrs.now ≡ length tiles.old }
    ensures { (i : ℕ) → i < length addrs.now → ShowsPlaceInArray (tiling_of machine.now)
        (plain_address_at addrs.now i) (plain_tile_at tiles.new i) }
{
    for i in 0..addrs.len() {
        tiles[i] = tile_placed(machine, &addrs[i]);
    }
}

/// Computes where each tile of an array lies. Each tile of the answer has a status of its own. If that isn't
/// OK, its other numbers are 0.
#[unsafe(no_mangle)]
pub extern "C" fn tiling_place_all(
    t: SharedMachine,
    addrs: &[PlainAddress],
    tiles: &mut [PlainTile],
) -> u8
    ensures shown { ShowsPlaces (tiling_of t.rule) addrs.now tiles.old tiles.new result }
    ensures unchanged { ¬ result ≡ ok → tiles.new ≡ tiles.old }
{
    if addrs.len() != tiles.len() {
        return BAD_WORDS;
    }
    put_places(t.get(), addrs, tiles);
    OK
}
