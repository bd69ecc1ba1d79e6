//! The tile of a supertile that holds a point.
ghost use Rattle.std.specs.Prelude.{◌≡◌, IfOk, IfErr};
ghost use Rattle.rule_model.specs.Tiling.{tiling_of};
ghost use Rattle.c_values.specs.Statuses.{ok};
ghost use Rattle.tiling_c.specs.Locate.{GivesTile, RefusesPoint, ShowsLocate};

use crate::rule_numbers::kinds_of;
use c_values::plain_address::PlainAddress;
use c_values::plain_point::PlainPoint;
use c_values::plain_tile::PlainTile;
use c_values::shared_machine::SharedMachine;
use c_values::status::{BAD_WORDS, COORD_LIMIT, OK, OUTSIDE};
use tile_place::locate_fault::LocateFault;
use tile_place::machine::Machine;
use tile_place::placed_tile::PlacedTile;

/// Finds the tile that holds a point in a supertile of `depth` levels. Err has the status of the refusal.
fn tile_of(
    machine: &Machine,
    top: &PlainTile,
    depth: u8,
    point: &PlainPoint,
) -> Result<PlacedTile, u8>
    ensures given { IfOk result (GivesTile (tiling_of machine.now) top.now depth point.now) }
    ensures refused { IfErr result (RefusesPoint (tiling_of machine.now) top.now depth point.now) }
{
    if top.kind >= kinds_of(machine) {
        return Err(BAD_WORDS);
    }
    if depth > 64 {
        return Err(BAD_WORDS);
    }
    let Some(at) = top.motion(machine.checked().order()) else {
        return Err(BAD_WORDS);
    };
    let Some(point) = point.point(machine.checked().order()) else {
        return Err(BAD_WORDS);
    };
    match machine.locate(top.kind, depth, &at, &point) {
        Ok(found) => Ok(found),
        Err(LocateFault::NotInside) => Err(OUTSIDE),
        Err(LocateFault::CoordLimit { .. }) => Err(COORD_LIMIT),
    }
}

/// Finds the tile that holds a point in a supertile of `depth` levels. `top` has the supertile's kind and
/// motion. `addr` becomes the tile's address in the supertile.
#[unsafe(no_mangle)]
pub extern "C" fn tiling_locate(
    t: SharedMachine,
    top: &PlainTile,
    depth: u8,
    point: &PlainPoint,
    tile: &mut PlainTile,
    addr: &mut PlainAddress,
) -> u8
    ensures shown { ShowsLocate (tiling_of t.rule) top.now depth point.now tile.new addr.new result }
    ensures unchanged { ¬ result ≡ ok → (tile.new ≡ tile.old) × (addr.new ≡ addr.old) }
{
    match tile_of(t.get(), top, depth, point) {
        Ok(found) => {
            *tile = PlainTile::placed(found.kind, &found.motion, 0);
            addr.write(&found.addr);
            OK
        }
        Err(status) => status,
    }
}
