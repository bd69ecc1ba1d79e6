//! The tile across each edge of whole supertiles, compared with a list of all edges by their two ends.
use cyclo_points::motion::Motion;
use edge_tables::steps::Steps;
use std::alloc::Global;
use std::collections::BTreeMap;
use std::sync::ledger::Ledger;
use tile_place::machine::Machine;
use tile_shape::address::Address;
use tile_shape::no_memory::NoMemory;
use trial_plain_tiles::counts::Counts;
use trial_plain_tiles::drawn_tile::{DrawnTile, drawn_tiles};
use trial_plain_tiles::supertile::{tile_count, tiles};

/// The greatest depth whose tiles are all listed.
const DEEPEST: u8 = 4;

/// The two ends of an edge.
#[derive(Clone, Copy, Debug, PartialEq, Eq, PartialOrd, Ord)]
pub(crate) struct Ends {
    start: [i64; 4],
    end: [i64; 4],
}

impl Ends {
    /// Returns the ends of this edge of a tile, or None if there is no such edge.
    pub(crate) fn of(drawn: &DrawnTile, edge: u8) -> Option<Ends> {
        let corners = drawn.corners();
        let start = corners.get(usize::from(edge))?;
        let end = match corners.get(usize::from(edge) + 1) {
            Some(end) => end,
            None => corners.first()?,
        };
        Some(Ends {
            start: start.c,
            end: end.c,
        })
    }

    /// Returns the ends of the same edge, traversed backwards.
    pub(crate) fn reversed(&self) -> Ends {
        Ends {
            start: self.end,
            end: self.start,
        }
    }
}

/// An edge of a tile of a list.
#[derive(Clone, Copy, Debug)]
pub(crate) struct Side {
    pub tile: usize,
    pub edge: u8,
}

/// Returns all edges of all tiles by their ends, and how often two edges have the same ends.
pub(crate) fn sides(
    alloc: Global,
    tiles: &[DrawnTile],
) -> Result<(BTreeMap<Ends, Side>, u32), NoMemory> {
    let mut sides = BTreeMap::new(alloc);
    let mut doubled: u32 = 0;
    for (tile, drawn) in tiles.iter().enumerate() {
        for edge in 0..12 {
            if let Some(ends) = Ends::of(drawn, edge) {
                if sides.insert(ends, Side { tile, edge })?.is_some() {
                    doubled = doubled.saturating_add(1);
                }
            }
        }
    }
    Ok((sides, doubled))
}

/// Returns true if the engine finds the listed tile across an edge, or `Outside` if there is none.
fn is_crossed<L: Ledger>(
    machine: &Machine,
    tiles: &[DrawnTile],
    addr: &Address,
    edge: u8,
    wanted: Option<&Side>,
    steps: &mut Steps<L>,
) -> bool {
    let checked = machine.checked();
    if !checked.uses().fits(addr) || edge >= checked.tables().edges(addr.kind) {
        return false;
    }
    match (machine.cross(addr, edge, steps), wanted) {
        (Ok(there), Some(side)) => match tiles.get(side.tile) {
            Some(other) => other.tile.addr == there.addr && side.edge == there.edge,
            None => false,
        },
        (Err(_), None) => true,
        _ => false,
    }
}

/// Counts the edges of all tiles of a supertile that are crossed as their ends say, and the others.
fn crossed_in<L: Ledger>(
    alloc: Global,
    machine: &Machine,
    kind: u8,
    depth: u8,
    steps: &mut Steps<L>,
) -> Result<Counts, NoMemory> {
    let listed = tiles(alloc, machine, kind, depth, &Motion::default())?;
    let tiles = drawn_tiles(alloc, machine, listed)?;
    let (sides, doubled) = sides(alloc, tiles.as_slice())?;
    let mut counts = Counts {
        right: 0,
        differ: doubled,
    };
    for drawn in tiles.as_slice() {
        for edge in 0..12 {
            if let Some(ends) = Ends::of(drawn, edge) {
                let wanted = sides.get(&ends.reversed());
                counts.count(is_crossed(
                    machine,
                    tiles.as_slice(),
                    &drawn.tile.addr,
                    edge,
                    wanted,
                    steps,
                ));
            }
        }
    }
    Ok(counts)
}

/// Like [`crossed_in`], for the supertiles of all kinds up to depth 4 with at most `most` tiles.
pub fn crossed<L: Ledger>(
    alloc: Global,
    machine: &Machine,
    most: u64,
    steps: &mut Steps<L>,
) -> Result<Counts, NoMemory> {
    let mut counts = Counts::default();
    for kind in 0..machine.checked().uses().kinds() {
        for depth in 0..=DEEPEST {
            if tile_count(machine, kind, depth) <= most {
                counts.add(crossed_in(alloc, machine, kind, depth, steps)?);
            }
        }
    }
    Ok(counts)
}
