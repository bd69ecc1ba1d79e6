//! Crossings by the transducer, fresh and in place, against the plain program; and each entry of flat tables.
ghost use Rattle.std.specs.Prelude.{◌≡◌, ◌<◌, IsSome};
ghost use Rattle.theory_addresses.specs.Tables.{contact_of, part_of};
ghost use Rattle.rule_model.specs.Checked.{rule_contacts};

use crate::crossings::note_crossings;
use crate::described::note_described;
use crate::editions::note_editions;
use crate::nested::cross;
use crate::numbers::reads_the_chair;
use crate::refused::note_refused;
use crate::wrong::Wrong;
use builtin_rules::builtin::builtin;
use builtin_rules::name::Name;
use edge_tables::steps::Steps;
use edge_tables::tables::Tables;
use rule_model::checked::Checked;
use std::alloc::Global;
use std::marker::Brand;
use std::sync::ledger::{Blank, Ledger};
use tile_shape::address::Address;
use tile_shape::no_memory::NoMemory;
use tile_shape::step::Step;
use transducer_core::crossing::Crossing;
use transducer_core::flat_table::FlatTable;
use transducer_core::transducer::Transducer;

/// Numbers drawn one after another, by a linear congruence.
#[derive(Drop)]
struct Draws {
    state: u64,
}

impl Draws {
    /// A number below n, or 0 where there is none.
    fn below(&mut self, n: u64) -> u64 {
        self.state = self
            .state
            .wrapping_mul(6364136223846793005)
            .wrapping_add(1442695040888963407);
        (self.state >> 33).checked_rem(n).unwrap_or(0)
    }
}

/// A digit above this kind, drawn of its uses.
fn drawn_digit(checked: &Checked, kind: u8, draws: &mut Draws) -> Option<Step> {
    let uses = checked.uses();
    if kind >= uses.kinds() {
        return None;
    }
    let count = uses.count(kind);
    let number = u16::try_from(draws.below(u64::from(count))).ok()?;
    if number >= count {
        return None;
    }
    Some(uses.get(kind, number))
}

/// An address of 64 digits.
fn drawn_address(checked: &Checked, draws: &mut Draws) -> Option<Address> {
    let kinds = checked.uses().kinds();
    let mut kind = u8::try_from(draws.below(u64::from(kinds))).ok()?;
    let mut addr = Address::new(kind);
    for _ in 0..64 {
        let digit = drawn_digit(checked, kind, draws)?;
        addr.push_coarse(digit).ok()?;
        kind = digit.parent;
    }
    Some(addr)
}

/// Returns true if all cross an edge alike, within the bound on look-ups; None where there is no such edge.
fn agree<L: Ledger>(
    checked: &Checked,
    transducer: &Transducer,
    addr: &Address,
    edge: u8,
    steps: &mut Steps<L>,
) -> Option<bool>
    requires its_tables { transducer.now ≡ rule_contacts checked.now }
{
    if !checked.uses().fits(addr) || edge >= checked.tables().edges(addr.kind) {
        return None;
    }
    let fresh = transducer.step_across(addr, edge, steps);
    let mut there = addr.copy();
    let in_place = match transducer.step_across_in_place(&mut there, edge, steps) {
        Ok(edge) => Ok(Crossing { addr: there, edge }),
        Err(outside) if there == *addr => Err(outside),
        Err(_) => return Some(false),
    };
    let plain = cross(checked.tables().rows(), addr, edge)?;
    Some(fresh == plain.answer && in_place == plain.answer && plain.looks <= 2 * 64 + 2)
}

/// Of 1,000 addresses drawn, each with an edge, at how many all agree.
fn agreements<L: Ledger>(checked: &Checked, transducer: &Transducer, steps: &mut Steps<L>) -> usize
    requires its_tables { transducer.now ≡ rule_contacts checked.now }
{
    let tables = checked.tables();
    let mut draws = Draws { state: 42 };
    let mut agreed: usize = 0;
    for _ in 0..1000 {
        if let Some(addr) = drawn_address(checked, &mut draws) {
            if addr.kind < tables.kinds() {
                let number = draws.below(u64::from(tables.edges(addr.kind)));
                let edge = u8::try_from(number).unwrap_or(0);
                if agree(checked, transducer, &addr, edge, steps) == Some(true) {
                    agreed = agreed.saturating_add(1);
                }
            }
        }
    }
    agreed
}

/// Returns true if an edge of a child, if there is one, is the same in both.
fn same_contact<L: Ledger>(
    tables: &Tables,
    flat: &FlatTable,
    child: Step,
    edge: u8,
    steps: &mut Steps<L>,
) -> bool
    requires same { flat.now ≡ tables.now }
{
    let Step { child, parent } = child;
    if parent >= tables.kinds() || child >= tables.children(parent) {
        return true;
    }
    let kind = tables.child_kind(parent, child);
    if kind >= tables.kinds() || edge >= tables.edges(kind) {
        return true;
    }
    flat.contact(parent, child, edge, steps) == tables.contact(parent, child, edge, steps)
}

/// Returns true if a part of an edge, if there is one, is the same in both.
fn same_part<L: Ledger>(
    tables: &Tables,
    flat: &FlatTable,
    kind: u8,
    edge: u8,
    part: u8,
    steps: &mut Steps<L>,
) -> bool
    requires same { flat.now ≡ tables.now }
{
    if kind >= tables.kinds() || edge >= tables.edges(kind) || part >= tables.parts(kind, edge) {
        return true;
    }
    flat.part(kind, edge, part, steps) == tables.part(kind, edge, part, steps)
}

/// Returns true if a flat table has the entries of the tables.
fn same_entries<L: Ledger>(tables: &Tables, flat: &FlatTable, steps: &mut Steps<L>) -> bool
    requires same { flat.now ≡ tables.now }
{
    for kind in 0..16u8 {
        for number in 0..16u8 {
            for place in 0..16u8 {
                let child = Step {
                    child: number,
                    parent: kind,
                };
                if !same_contact(tables, flat, child, place, steps)
                    || !same_part(tables, flat, kind, number, place, steps)
                {
                    return false;
                }
            }
        }
    }
    true
}

/// Returns true if all agree at each of 1,000 edges drawn of a rule, and both tables have the same entries.
fn agrees<L: Ledger>(alloc: Global, name: Name, blank: Blank) -> Result<bool, NoMemory>
    requires name { blank.name ≡ L.name }
    requires parts { blank.parts ≡ L.parts }
    requires some { 0 < blank.parts }
{
    let mut steps = Steps::<L>::new(blank);
    let checked = builtin(alloc, name)?;
    let transducer = Transducer::compile(alloc, checked.tables())?;
    Ok(
        agreements(&checked, &transducer, &mut steps) == 1000
            && same_entries(checked.tables(), transducer.flat(), &mut steps),
    )
}

/// The built-in rules.
static NAMES: [Name; 5] = [
    Name::Chair,
    Name::P2,
    Name::P3,
    Name::AmmannBeenker,
    Name::HalfHex,
];

/// Notes the first rule at which the plain program doesn't agree.
fn note_agreements(alloc: Global, wrong: &mut Wrong) {
    for (row, name) in NAMES.iter().enumerate() {
        let agrees = agrees::<Brand>(alloc, *name, Blank::new(1));
        wrong.note("agreement", row, agrees.unwrap_or(false));
    }
}

/// The first row of all tables that comes out otherwise.
fn first_wrong(alloc: Global) -> Wrong {
    let mut wrong = Wrong::default();
    note_agreements(alloc, &mut wrong);
    note_editions(alloc, &mut wrong);
    note_refused(alloc, &mut wrong);
    note_described(alloc, &mut wrong);
    let is_made = note_crossings(alloc, &mut wrong).is_ok();
    wrong.note("memory", 0, is_made);
    wrong.note(
        "reads_the_chair",
        0,
        reads_the_chair(alloc).unwrap_or(false),
    );
    wrong
}

#[test]
fn tables(rt: HostRuntime) {
    first_wrong(rt.alloc()).assert_none(&rt);
}
