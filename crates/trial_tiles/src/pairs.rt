//! The edges by which two tiles meet, compared with rows worked out by hand and with crossing each edge.
//! Tiles have up to 64 digits. The numbers of nodes and rows are known from elsewhere.
ghost use Rattle.std.specs.Prelude.{◌≡◌, ◌<◌};
ghost use Rattle.rule_model.specs.Tiling.{tiling_of, contacts};

use crate::placed::across;
use crate::wrong::{Wrong, assert_of};
use builtin_rules::name::Name;
use edge_tables::steps::Steps;
use pair_machine::edge_pair::EdgePair;
use pair_machine::machine::PairMachine;
use pair_machine::verdict::Verdict;
use std::alloc::{AllocError, Global};
use std::marker::Brand;
use std::sync::ledger::{Blank, Ledger};
use std::test::Fail;
use tile_place::machine::Machine;
use tile_shape::address::Address;
use tile_shape::no_memory::NoMemory;
use tile_shape::reading::read_address;
use transducer_core::crossing::Crossing;
use trial_plain_tiles::built_in::{NAMES, machine_of};
use trial_plain_tiles::counts::Counts;
use trial_plain_tiles::draws::Draws;
use trial_plain_tiles::pairs::{decided, named};

/// The built-in rules, with the numbers of nodes and of distinct rows.
static NODES: [(Name, u32, u32); 5] = [
    (Name::Chair, 22, 22),
    (Name::P2, 18, 12),
    (Name::P3, 18, 14),
    (Name::AmmannBeenker, 26, 26),
    (Name::HalfHex, 9, 9),
];

/// Returns true if a rule has so many nodes and rows.
fn has_nodes(alloc: Global, name: Name, nodes: u32, rows: u32) -> Result<bool, NoMemory> {
    let machine = machine_of(alloc, name)?;
    let pairs = PairMachine::compile(alloc, machine.checked().tables())?;
    Ok(pairs.nodes() == nodes && pairs.rows() == rows)
}

/// Two addresses of the chair, and how their tiles lie to each other.
static VERDICTS: [(&[u8], &[u8], &str); 6] = [
    (b"0:0/0,1/0", b"0:1/0,0/0", "beside 3/0 4/7"),
    (b"0:1/0,0/0", b"0:0/0,1/0", "beside 0/3 7/4"),
    (b"0:0/0", b"0:0/0", "same"),
    (b"0:0/0", b"0:2/0", "beside 6/1"),
    (b"0:0/0", b"0:", "strangers"),
    (b"0:2/0", b"0:3/0", "apart"),
];

/// A verdict as a text.
fn verdict_text(alloc: Global, verdict: &Verdict) -> Result<String, AllocError> {
    let word = match verdict {
        Verdict::Strangers => "strangers",
        Verdict::Same => "same",
        Verdict::Apart => "apart",
        Verdict::Beside { .. } => "beside",
    };
    let mut text = word.to_string(alloc)?;
    for EdgePair { mine, theirs } in named(verdict) {
        write!(text, " {mine}/{theirs}")?;
    }
    Ok(text)
}

/// How the tiles of two texts lie to each other, as a text.
fn told(alloc: Global, machine: &Machine, a: &[u8], b: &[u8]) -> Result<String, NoMemory> {
    let uses = machine.checked().uses();
    let a = read_address(uses, a).unwrap_or(Address::new(255));
    let b = read_address(uses, b).unwrap_or(Address::new(255));
    let pairs = PairMachine::compile(alloc, machine.checked().tables())?;
    match decided(machine, &pairs, &a, &b) {
        Some(verdict) => Ok(verdict_text(alloc, &verdict)?),
        None => Ok("no tiles".to_string(alloc)?),
    }
}

/// Returns true if the tiles of two texts lie to each other like this.
fn is_told(
    alloc: Global,
    machine: &Machine,
    a: &[u8],
    b: &[u8],
    wanted: &str,
) -> Result<bool, NoMemory> {
    Ok(told(alloc, machine, a, b)?.as_str() == wanted)
}

/// Notes the first rule of other numbers, and the first pair of tiles that lie otherwise.
pub(crate) fn note_pairs(alloc: Global, wrong: &mut Wrong, chair: &Machine) {
    for (row, (name, nodes, rows)) in NODES.iter().enumerate() {
        let is_right = has_nodes(alloc, *name, *nodes, *rows);
        wrong.note("nodes and rows", row, is_right.unwrap_or(false));
    }
    for (row, (a, b, wanted)) in VERDICTS.iter().enumerate() {
        let is_right = is_told(alloc, chair, a, b, wanted);
        wrong.note("pairs", row, is_right.unwrap_or(false));
    }
}

/// Returns true if a verdict names exactly the edges across which a tile has the other, in order.
fn is_crossed<L: Ledger>(
    machine: &Machine,
    verdict: &Verdict,
    a: &Address,
    b: &Address,
    steps: &mut Steps<L>,
) -> bool {
    let pairs = named(verdict);
    let mut number: usize = 0;
    for mine in 0..12 {
        if let Some(Ok(Crossing { addr, edge })) = across(machine, a, mine, steps) {
            if addr == *b {
                let wanted = EdgePair { mine, theirs: edge };
                if pairs.get(number).copied() != Some(wanted) {
                    return false;
                }
                number = number.saturating_add(1);
            }
        }
    }
    number == pairs.len() && (*verdict == Verdict::Same) == (*a == *b)
}

/// The tile to which up to three drawn edges lead.
fn near<L: Ledger>(
    machine: &Machine,
    a: &Address,
    draws: &mut Draws,
    steps: &mut Steps<L>,
) -> Address {
    let mut near = a.copy();
    for _ in 0..draws.below(4) {
        let edge = u8::try_from(draws.below(12)).unwrap_or(0);
        if let Some(Ok(Crossing { addr, edge: _ })) = across(machine, &near, edge, steps) {
            near = addr;
        }
    }
    near
}

/// How many pairs of tiles of 64 digits, near each other or drawn apart, come out as crossing says.
fn compared<L: Ledger>(machine: &Machine, pairs: &PairMachine, steps: &mut Steps<L>) -> Counts
    requires its_tables { pairs.now ≡ contacts (tiling_of machine.now) }
{
    let mut draws = Draws { state: 23 };
    let mut counts = Counts::default();
    for number in 0..2000 {
        if let Some(a) = draws.address(machine, 64, true) {
            let near = near(machine, &a, &mut draws, steps);
            let b = if number % 4 == 0 {
                draws.address(machine, 64, true).unwrap_or(near)
            } else {
                near
            };
            let verdict = decided(machine, pairs, &a, &b);
            counts.count(verdict.is_some_and(|found| is_crossed(machine, &found, &a, &b, steps)));
        }
    }
    counts
}

/// The same, by a counter of its own, of a built-in rule.
fn counted<L: Ledger>(alloc: Global, name: Name, blank: Blank) -> Result<Counts, NoMemory>
    requires name { blank.name ≡ L.name }
    requires parts { blank.parts ≡ L.parts }
    requires some { 0 < blank.parts }
{
    let mut steps = Steps::<L>::new(blank);
    let machine = machine_of(alloc, name)?;
    let pairs = PairMachine::compile(alloc, machine.checked().tables())?;
    Ok(compared(&machine, &pairs, &mut steps))
}

#[test]
fn far_up(rt: HostRuntime) -> Result<(), Fail> {
    let wanted = Counts {
        right: 2000,
        differ: 0,
    };
    for name in NAMES {
        let counts = counted::<Brand>(rt.alloc(), name, Blank::new(1))?;
        assert_of(&rt, name, counts == wanted);
    }
    Ok(())
}
