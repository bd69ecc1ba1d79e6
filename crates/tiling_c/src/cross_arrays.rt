//! The tiles across edges of an array.
ghost use Rattle.std.specs.Prelude.{◌≡◌, ◌<◌, ℕ, length, get_or};
ghost use Rattle.rule_model.specs.Tiling.{tiling_of};
ghost use Rattle.c_values.specs.Statuses.{ok};
ghost use Rattle.tiling_c.specs.Arrays.{crossing_at, plain_address_at};
ghost use Rattle.tiling_c.specs.Crossing.{ShowsCrossingInArray, ShowsCrossings};

use crate::crossing::cross_edge;
use c_values::plain_address::PlainAddress;
use c_values::plain_crossing::PlainCrossing;
use c_values::shared_machine::SharedMachine;
use c_values::status::{BAD_WORDS, OK};
use tile_place::machine::Machine;

/// Crosses an edge of each tile, in place, and puts how.
fn cross_all(
    machine: &Machine,
    addrs: &mut [PlainAddress],
    edges: &[u8],
    crossings: &mut [PlainCrossing],
)
    requires same_length { length addrs.old ≡ length edges.now }
    requires room { length crossings.old ≡ length edges.now }
    ensures { (i : ℕ) → i < length edges.now → ShowsCrossingInArray (tiling_of machine.now)
        (plain_address_at addrs.old i) (get_or edges.now i 0)
        (plain_address_at addrs.new i) (crossing_at crossings.new i) }
{
    for i in 0..edges.len() {
        crossings[i] = cross_edge(machine, &mut addrs[i], edges[i]);
    }
}

/// Finds the tile across an edge of each tile of an array, in place. Each address becomes that of the tile
/// across. Each crossing has a status of its own.
#[unsafe(no_mangle)]
pub extern "C" fn tiling_neighbour_all(
    t: SharedMachine,
    addrs: &mut [PlainAddress],
    edges: &[u8],
    crossings: &mut [PlainCrossing],
) -> u8
    ensures shown { ShowsCrossings (tiling_of t.rule) addrs.old edges.now crossings.old addrs.new
        crossings.new result }
    ensures unchanged { ¬ result ≡ ok → (addrs.new ≡ addrs.old) × (crossings.new ≡ crossings.old) }
{
    if addrs.len() != edges.len() {
        return BAD_WORDS;
    }
    if crossings.len() != edges.len() {
        return BAD_WORDS;
    }
    cross_all(t.get(), addrs, edges, crossings);
    OK
}
