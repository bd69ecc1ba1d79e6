//! The edges by which any two tiles of a supertile meet, by the pair machine, compared with a list of all
//! edges by their two ends.
ghost use Rattle.std.specs.Prelude.{◌≡◌};
ghost use Rattle.rule_model.specs.Tiling.{tiling_of, contacts};

use crate::crossed::{Ends, Side, sides};
use arrayvec::ArrayVec;
use cyclo_points::motion::Motion;
use pair_machine::edge_pair::EdgePair;
use pair_machine::machine::PairMachine;
use pair_machine::verdict::Verdict;
use std::alloc::Global;
use std::collections::BTreeMap;
use tile_place::machine::Machine;
use tile_shape::no_memory::NoMemory;
use trial_plain_tiles::counts::Counts;
use trial_plain_tiles::drawn_tile::{DrawnTile, drawn_tiles};
use trial_plain_tiles::pairs::{decided, named};
use trial_plain_tiles::supertile::{tile_count, tiles};

/// The greatest depth whose pairs are all listed.
const DEEPEST: u8 = 3;

/// Returns the tile across each edge of a tile.
fn across(drawn: &DrawnTile, sides: &BTreeMap<Ends, Side>) -> ArrayVec<Option<Side>, 12> {
    let mut across = ArrayVec::new();
    for edge in 0..12 {
        let side = Ends::of(drawn, edge).and_then(|ends| sides.get(&ends.reversed()).copied());
        let _ = across.try_push(side);
    }
    across
}

/// Returns true if a verdict names exactly the edges across which the other tile lies, in order.
fn names_those(verdict: &Verdict, across: &[Option<Side>], other: usize) -> bool {
    let pairs = named(verdict);
    let mut number: usize = 0;
    for (edge, side) in across.iter().enumerate() {
        if let Some(side) = side {
            if side.tile == other {
                let theirs = side.edge;
                let wanted = u8::try_from(edge).map(|mine| EdgePair { mine, theirs });
                if pairs.get(number).copied() != wanted.ok() {
                    return false;
                }
                number = number.saturating_add(1);
            }
        }
    }
    number == pairs.len()
}

/// Counts the pairs of different tiles of a supertile whose edges are named as listed, and the others.
fn paired_in(
    alloc: Global,
    machine: &Machine,
    pairs: &PairMachine,
    kind: u8,
    depth: u8,
) -> Result<Counts, NoMemory>
    requires its_tables { pairs.now ≡ contacts (tiling_of machine.now) }
{
    let listed = tiles(alloc, machine, kind, depth, &Motion::default())?;
    let tiles = drawn_tiles(alloc, machine, listed)?;
    let (sides, _) = sides(alloc, tiles.as_slice())?;
    let mut counts = Counts::default();
    for (number, drawn) in tiles.as_slice().iter().enumerate() {
        let across = across(drawn, &sides);
        for (place, other) in tiles.as_slice().iter().enumerate() {
            if place != number {
                let verdict = decided(machine, pairs, &drawn.tile.addr, &other.tile.addr);
                counts.count(verdict.is_some_and(|found| names_those(
                    &found,
                    across.as_slice(),
                    place,
                )));
            }
        }
    }
    Ok(counts)
}

/// Like [`paired_in`], for the supertiles of all kinds up to depth 3 with at most `most` tiles.
pub fn paired(alloc: Global, machine: &Machine, most: u64) -> Result<Counts, NoMemory> {
    let pairs = PairMachine::compile(alloc, machine.checked().tables())?;
    let mut counts = Counts::default();
    for kind in 0..machine.checked().uses().kinds() {
        for depth in 0..=DEEPEST {
            if tile_count(machine, kind, depth) <= most {
                counts.add(paired_in(alloc, machine, &pairs, kind, depth)?);
            }
        }
    }
    Ok(counts)
}
