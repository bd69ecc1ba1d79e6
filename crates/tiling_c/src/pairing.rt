//! How one tile lies to another.
ghost use Rattle.std.specs.Prelude.{◌≡◌, ◌↔◌, ◌⊎◌, ◌<◌, ◌≤◌, IsTrue, IsSome, IfSome, IfOk, IfErr};
ghost use Rattle.theory_addresses.specs.Address.{Fits};
ghost use Rattle.rule_model.specs.Tiling.{tiling_of, children};
ghost use Rattle.tile_place.specs.Crossed.{edges_of};
ghost use Rattle.tile_shape.specs.Views.{address_of};
ghost use Rattle.c_values.specs.Addresses.{address_in, NamesTile};
ghost use Rattle.c_values.specs.Statuses.{ok};
ghost use Rattle.tiling_c.specs.Pairing.{no_back, AreBacks, HasBack, ShowsHow, ShowsRelation, ShowsPair};

use c_values::plain_address::PlainAddress;
use c_values::plain_relation::{APART, BESIDE, NO_BACK, PlainRelation, SAME, STRANGERS};
use c_values::shared_machine::SharedMachine;
use c_values::status::{BAD_ADDRESS, OK};
use edge_tables::steps::Steps;
use pair_machine::compare::{are_same, have_common};
use std::marker::Brand;
use std::sync::ledger::{Blank, Ledger};
use theory_dissection::laws::across_law;
use tile_place::machine::Machine;
use tile_shape::address::Address;
use transducer_core::crossing::Crossing;
use transducer_core::outside::Outside;

/// Returns the edge of `other` that lies on the edge that was crossed, or 255 if the tile across is another.
fn back_to(other: &Address, crossed: &Result<Crossing, Outside>) -> u8
    ensures across { IfOk crossed.now (λ x. ((address_of x.addr ≡ address_of other.now) × (result ≡ x.edge))
        ⊎ ((¬ address_of x.addr ≡ address_of other.now) × (result ≡ no_back))) }
    ensures outside { IfErr crossed.now (λ _. result ≡ no_back) }
{
    match crossed {
        Ok(across) => {
            if are_same(&across.addr, other) {
                across.edge
            } else {
                NO_BACK
            }
        }
        Err(_) => NO_BACK,
    }
}

/// Returns how many edges a tile has, at most 12.
fn edges_of(machine: &Machine, tile: &Address) -> u8
    requires fits { Fits (children (tiling_of machine.now)) (address_of tile.now) }
    ensures count { result ≡ edges_of (tiling_of machine.now) tile.now.kind }
    ensures at_most_12 { result ≤ 12 }
{
    machine.checked().tables().edges(tile.kind)
}

/// Returns, for each edge of `one`, the edge of `other` that lies on it, or 255. After them comes 255.
fn backs_of<L: Ledger>(
    machine: &Machine,
    one: &Address,
    other: &Address,
    steps: &mut Steps<L>,
) -> [u8; 12]
    requires one_fits { Fits (children (tiling_of machine.now)) (address_of one.now) }
    requires other_fits { Fits (children (tiling_of machine.now)) (address_of other.now) }
    ensures { AreBacks (tiling_of machine.now) (address_of one.now) (address_of other.now) result }
{
    across_law(machine.checked().order());
    let mut backs = [NO_BACK; 12];
    for edge in 0..edges_of(machine, one) {
        let crossed = machine.cross(one, edge, steps);
        backs[edge as usize] = back_to(other, &crossed);
    }
    backs
}

/// Returns true if some number is that of an edge.
fn is_beside(backs: &[u8; 12]) -> bool
    ensures { IsTrue result ↔ HasBack backs.now }
{
    backs.iter().any(|back| *back < NO_BACK)
}

/// Returns the number of the relation of two tiles.
fn relation_of(one: &Address, other: &Address, backs: &[u8; 12]) -> u8
    ensures { ShowsHow (address_of one.now) (address_of other.now) backs.now result }
{
    if !have_common(one, other) {
        return STRANGERS;
    }
    if are_same(one, other) {
        return SAME;
    }
    if is_beside(backs) { BESIDE } else { APART }
}

/// Returns how one tile lies to another, or None exactly if one of them is no tile of the rule. Counts the
/// look-ups on a ledger of this name, which nobody reads.
fn pair<L: Ledger>(
    machine: &Machine,
    a: &PlainAddress,
    b: &PlainAddress,
    blank: Blank,
) -> Option<PlainRelation>
    requires blank { (blank.name ≡ L.name) × (blank.parts ≡ L.parts) × (0 < blank.parts) }
    ensures relation { IfSome result (ShowsRelation (tiling_of machine.now) (address_in a.now)
        (address_in b.now)) }
    ensures named { IsSome result ↔ (NamesTile (tiling_of machine.now) a.now
        × NamesTile (tiling_of machine.now) b.now) }
{
    let mut steps = Steps::<L>::new(blank);
    let Some(one) = a.tile(machine) else {
        return None;
    };
    let Some(other) = b.tile(machine) else {
        return None;
    };
    let backs = backs_of(machine, &one, &other, &mut steps);
    let relation = relation_of(&one, &other, &backs);
    Some(PlainRelation { relation, backs })
}

/// Finds how one tile lies to another: they have no common supertile, are the same tile, share edges, or
/// share none. For each edge of the first, finds the edge of the second that lies on it.
#[unsafe(no_mangle)]
pub extern "C" fn tiling_pair(
    t: SharedMachine,
    a: &PlainAddress,
    b: &PlainAddress,
    out: &mut PlainRelation,
) -> u8
    ensures shown { ShowsPair (tiling_of t.rule) a.now b.now out.new result }
    ensures unchanged { ¬ result ≡ ok → out.new ≡ out.old }
{
    match pair::<Brand>(t.get(), a, b, Blank::new(1)) {
        Some(relation) => {
            *out = relation;
            OK
        }
        None => BAD_ADDRESS,
    }
}
