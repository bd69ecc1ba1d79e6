//! The tile of a frame that holds a point.
ghost use Rattle.std.specs.Prelude.{◌≡◌, IfOk, IfErr};
ghost use Rattle.rule_model.specs.Tiling.{tiling_of};
ghost use Rattle.c_values.specs.Statuses.{ok};
ghost use Rattle.tiling_c.specs.At.{GivesHolder, RefusesHolder, ShowsAt};

use c_values::plain_address::PlainAddress;
use c_values::plain_frame::PlainFrame;
use c_values::plain_point::PlainPoint;
use c_values::plain_tile::PlainTile;
use c_values::shared_machine::SharedMachine;
use c_values::status::{BAD_ADDRESS, BAD_WORDS, COORD_LIMIT, OK};
use tile_place::machine::Machine;
use tile_place::placed_tile::PlacedTile;

/// Finds the tile of a frame that holds a point. Err has the status of the refusal.
fn holder(machine: &Machine, frame: &PlainFrame, point: &PlainPoint) -> Result<PlacedTile, u8>
    ensures given { IfOk result (GivesHolder (tiling_of machine.now) frame.now point.now) }
    ensures refused { IfErr result (RefusesHolder (tiling_of machine.now) frame.now point.now) }
{
    let Some(point) = point.point(machine.checked().order()) else {
        return Err(BAD_WORDS);
    };
    let Some(mut frame) = frame.frame(machine) else {
        return Err(BAD_ADDRESS);
    };
    match frame.contain(machine, &point) {
        Ok(found) => Ok(found),
        Err(_) => Err(COORD_LIMIT),
    }
}

/// Finds the tile of a frame that holds a point, with its address in the frame.
#[unsafe(no_mangle)]
pub extern "C" fn tiling_at(
    t: SharedMachine,
    frame: &PlainFrame,
    point: &PlainPoint,
    tile: &mut PlainTile,
    addr: &mut PlainAddress,
) -> u8
    ensures shown { ShowsAt (tiling_of t.rule) frame.now point.now tile.new addr.new result }
    ensures unchanged { ¬ result ≡ ok → (tile.new ≡ tile.old) × (addr.new ≡ addr.old) }
{
    match holder(t.get(), frame, point) {
        Ok(found) => {
            *tile = PlainTile::placed(found.kind, &found.motion, 0);
            addr.write(&found.addr);
            OK
        }
        Err(status) => status,
    }
}
