//! All tiles of a supertile.
use crate::placing::placed;
use cyclo_points::motion::Motion;
use std::alloc::Global;
use tile_place::machine::Machine;
use tile_place::placed_tile::PlacedTile;
use tile_shape::address::Address;
use tile_shape::no_memory::NoMemory;
use tile_shape::step::Step;

/// Returns how many tiles the supertiles of a depth have, for each kind.
fn tile_counts(machine: &Machine, depth: u8) -> [u64; 16] {
    let uses = machine.checked().uses();
    let mut counts = [1; 16];
    for _ in 0..depth {
        let finer = counts;
        for kind in 0..16u8 {
            let mut count: u64 = 0;
            for child in 0..16 {
                if let Some(below) = uses.child_kind(kind, child) {
                    let more = finer.get(usize::from(below)).map_or(0, |more| *more);
                    count = count.saturating_add(more);
                }
            }
            if let Some(place) = counts.get_mut(usize::from(kind)) {
                *place = count;
            }
        }
    }
    counts
}

/// Returns how many tiles the supertile of a kind and depth has.
pub fn tile_count(machine: &Machine, kind: u8, depth: u8) -> u64 {
    let counts = tile_counts(machine, depth);
    counts.get(usize::from(kind)).map_or(0, |count| *count)
}

/// Returns the addresses of all tiles of the supertile of a kind and depth.
pub fn addresses(
    alloc: Global,
    machine: &Machine,
    top: u8,
    depth: u8,
) -> Result<Vec<Address>, NoMemory> {
    let uses = machine.checked().uses();
    let mut coarse = Vec::new(alloc);
    coarse.push(Address::new(top))?;
    for _ in 0..depth {
        let mut finer = Vec::new(alloc);
        for addr in coarse.as_slice() {
            for child in 0..16 {
                if let Some(kind) = uses.child_kind(addr.kind, child) {
                    let parent = addr.kind;
                    finer.push(below(addr, kind, Step { child, parent }))?;
                }
            }
        }
        coarse = finer;
    }
    Ok(coarse)
}

/// Returns the address one digit finer: that of the child which this digit names.
fn below(addr: &Address, kind: u8, digit: Step) -> Address {
    let mut fine = Address::new(kind);
    let _ = fine.push_coarse(digit);
    for digit in addr.digits.as_slice() {
        let _ = fine.push_coarse(*digit);
    }
    fine
}

/// Returns all tiles of the supertile of a kind and depth, moved by `at`.
pub fn tiles(
    alloc: Global,
    machine: &Machine,
    top: u8,
    depth: u8,
    at: &Motion,
) -> Result<Vec<PlacedTile>, NoMemory> {
    let mut tiles = Vec::new(alloc);
    let addresses = addresses(alloc, machine, top, depth)?;
    for addr in addresses.as_slice() {
        if let Some(tile) = placed(machine, addr, at) {
            tiles.push(tile)?;
        }
    }
    Ok(tiles)
}
