//! The tile across an edge.
ghost use Rattle.std.specs.Prelude.{◌≡◌, ◌↔◌, ◌⊎◌, ◌<◌, ◌≤◌};
ghost use Rattle.rule_model.specs.Tiling.{tiling_of};
ghost use Rattle.tile_place.specs.Crossed.{IsOnlyAcross, IsOutside, LiesAlongNone, edges_of};
ghost use Rattle.c_values.specs.Addresses.{address_in, NamesTile};
ghost use Rattle.c_values.specs.Statuses.{ok, bad_address, outside, no_edge};
ghost use Rattle.tiling_c.specs.Crossing.{ShowsCrossing, ShowsCrossingInArray};

use c_values::plain_address::PlainAddress;
use c_values::plain_crossing::PlainCrossing;
use c_values::shared_machine::SharedMachine;
use c_values::status::{BAD_ADDRESS, NO_EDGE, OK, OUTSIDE};
use edge_tables::steps::Steps;
use std::marker::Brand;
use std::sync::ledger::{Blank, Ledger};
use tile_place::machine::Machine;

/// Returns a crossing with this status and these numbers.
#[inline(always)]
fn crossing(status: u8, back: u8, part: u8) -> PlainCrossing
    ensures { result ≡ record { status = status; back = back; part = part } }
{
    PlainCrossing { status, back, part }
}

/// Crosses an edge in place. Nobody reads the ledger that counts the look-ups.
#[inline(always)]
fn cross<L: Ledger>(
    machine: &Machine,
    addr: &mut PlainAddress,
    edge: u8,
    blank: Blank,
) -> PlainCrossing
    requires blank { (blank.name ≡ L.name) × (blank.parts ≡ L.parts) × (0 < blank.parts) }
    ensures across { result.status ≡ ok
        → (IsOnlyAcross (tiling_of machine.now) (address_in addr.old) edge (address_in addr.new)
        result.back) × (IsOnlyAcross (tiling_of machine.now) (address_in addr.new) result.back
        (address_in addr.old) edge) }
    ensures names { result.status ≡ ok → NamesTile (tiling_of machine.now) addr.new }
    ensures inside { result.status ≡ ok → LiesAlongNone (tiling_of machine.now) (address_in addr.old) edge }
    ensures outside { result.status ≡ outside → IsOutside (tiling_of machine.now) (address_in addr.old) edge
        result.back result.part }
    ensures bad_address { (result.status ≡ bad_address) ↔ (¬ NamesTile (tiling_of machine.now) addr.old) }
    ensures no_edge { (result.status ≡ no_edge) ↔ (NamesTile (tiling_of machine.now) addr.old
        × (edges_of (tiling_of machine.now) addr.old.kind ≤ edge)) }
    ensures zeros { (¬ result.status ≡ ok → ¬ result.status ≡ outside → result.back ≡ 0)
        × (¬ result.status ≡ outside → result.part ≡ 0) }
    ensures unchanged { ¬ result.status ≡ ok → addr.new ≡ addr.old }
    ensures statuses { (result.status ≡ ok) ⊎ (result.status ≡ bad_address) ⊎ (result.status ≡ outside)
        ⊎ (result.status ≡ no_edge) }
{
    let mut steps = Steps::<L>::new(blank);
    if !addr.names_tile(machine) {
        return crossing(BAD_ADDRESS, 0, 0);
    }
    if edge >= machine.checked().tables().edges(addr.kind) {
        return crossing(NO_EDGE, 0, 0);
    }
    let mut kind = addr.kind;
    let digits = &mut addr.digits[..usize::from(addr.depth)];
    match machine.cross_digits(&mut kind, digits, edge, &mut steps) {
        Ok(back) => {
            addr.kind = kind;
            crossing(OK, back, 0)
        }
        Err(outside) => crossing(OUTSIDE, outside.edge, outside.part),
    }
}

/// Crosses an edge in place, and returns how.
#[inline(always)]
pub fn cross_edge(machine: &Machine, addr: &mut PlainAddress, edge: u8) -> PlainCrossing
    ensures { ShowsCrossingInArray (tiling_of machine.now) addr.old edge addr.new result }
{
    cross::<Brand>(machine, addr, edge, Blank::new(1))
}

/// Finds the tile across an edge. `addr` becomes its address, and `back` its edge that leads back. If the
/// edge is on the boundary of the supertile, `back` is the supertile's edge, and `part` the part of it.
#[unsafe(no_mangle)]
pub extern "C" fn tiling_neighbour(
    t: SharedMachine,
    addr: &mut PlainAddress,
    edge: u8,
    back: &mut u8,
    part: &mut u8,
) -> u8
    ensures shown { ShowsCrossing (tiling_of t.rule) addr.old edge addr.new
        (record { status = result; back = back.new; part = part.new }) }
    ensures unchanged { (¬ result ≡ ok → ¬ result ≡ outside → back.new ≡ back.old)
        × (¬ result ≡ outside → part.new ≡ part.old) }
{
    let crossing = cross_edge(t.get(), addr, edge);
    match crossing.status {
        OK => *back = crossing.back,
        OUTSIDE => {
            *back = crossing.back;
            *part = crossing.part;
        }
        _ => {}
    }
    crossing.status
}
