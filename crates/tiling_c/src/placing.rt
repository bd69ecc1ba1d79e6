//! Where a tile lies in its supertile.
ghost use Rattle.std.specs.Prelude.{◌≡◌, IfOk, IfErr};
ghost use Rattle.rule_model.specs.Tiling.{tiling_of};
ghost use Rattle.c_values.specs.Statuses.{ok};
ghost use Rattle.tiling_c.specs.Placing.{GivesPlace, RefusesPlace, ShowsPlace};

use c_values::plain_address::PlainAddress;
use c_values::plain_tile::PlainTile;
use c_values::shared_machine::SharedMachine;
use c_values::status::{BAD_ADDRESS, COORD_LIMIT, OK};
use cyclo_points::motion::Motion;
use tile_place::machine::Machine;

/// Computes the motion of a tile in its supertile. Err has the status of the refusal.
#[inline(always)]
pub(crate) fn place_of(machine: &Machine, addr: &PlainAddress) -> Result<Motion, u8>
    ensures given { IfOk result (GivesPlace (tiling_of machine.now) addr.now) }
    ensures refused { IfErr result (RefusesPlace (tiling_of machine.now) addr.now) }
{
    if !addr.names_tile(machine) {
        return Err(BAD_ADDRESS);
    }
    match machine.place_digits(addr.kind, addr.digits()) {
        Ok(motion) => Ok(motion),
        Err(_) => Err(COORD_LIMIT),
    }
}

/// Computes where a tile lies in its supertile: its motion.
#[unsafe(no_mangle)]
pub extern "C" fn tiling_place(t: SharedMachine, addr: &PlainAddress, out: &mut PlainTile) -> u8
    ensures shown { ShowsPlace (tiling_of t.rule) addr.now out.new result }
    ensures unchanged { ¬ result ≡ ok → out.new ≡ out.old }
{
    match place_of(t.get(), addr) {
        Ok(motion) => {
            *out = PlainTile::placed(addr.kind, &motion, 0);
            OK
        }
        Err(status) => status,
    }
}
