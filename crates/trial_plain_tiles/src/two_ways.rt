//! Windows covered in two ways: by a search from the tile at the centre, and from the top down if the window
//! is large enough for that. Their tiles are also counted as they were found.
use crate::counts::Counts;
use crate::draws::Draws;
use crate::frame_tiles::begun;
use crate::window_tiles::is_window;
use lazy_walk::frame::Frame;
use plane_geom::window::Window;
use std::alloc::Global;
use tile_place::machine::Machine;
use tile_place::placed_tile::PlacedTile;
use tile_shape::address::Address;
use window_cover::cover_fault::CoverFault;
use window_cover::covered_tiles::CoveredTiles;
use window_cover::find_tiles::find_tiles;
use window_cover::found_tiles::FoundTiles;
use window_cover::tiles_of_window::{cover, covered_tiles};

/// Returns true if both ways give the same tiles in the same order, or the same fault.
fn same(
    searched: &Result<Vec<PlacedTile>, CoverFault>,
    found: &Result<CoveredTiles, CoverFault>,
) -> bool {
    match (searched, found) {
        (Ok(searched), Ok(found)) => {
            let tiles = searched.as_slice();
            tiles.len() == found.len()
                && (0..found.len()).all(|place| tiles.get(place) == Some(&found.tile(place)))
        }
        (Err(CoverFault::NoMemory), _) => false,
        (Err(first), Err(second)) => first == second,
        _ => false,
    }
}

/// Returns true if the tiles as they were found are as many of each kind as the list.
fn same_counts(searched: &[PlacedTile], found: &FoundTiles) -> bool {
    let mut counts = found.counts();
    for tile in searched {
        let count = &mut counts[usize::from(tile.kind)];
        if *count == 0 {
            return false;
        }
        *count -= 1;
    }
    searched.len() == found.len()
}

/// Returns true if the tiles as they were found are counted like the list, or there is no list.
fn counted(
    searched: &Result<Vec<PlacedTile>, CoverFault>,
    found: &Result<FoundTiles, CoverFault>,
) -> bool {
    match (searched, found) {
        (Ok(searched), Ok(found)) => same_counts(searched.as_slice(), found),
        (Err(_), Err(_)) => true,
        _ => false,
    }
}

/// Returns true if two frames of one base have the same digits.
fn same_digits(one: &Frame, other: &Frame) -> bool {
    one.digits().as_slice() == other.digits().as_slice()
}

/// Returns true if both ways give the same result for a window of a frame, and leave frames of the same
/// digits. The frame is that of a base with a seed. Returns None if the calls' conditions do not hold.
pub fn alike(
    alloc: Global,
    machine: &Machine,
    base: &Address,
    start: u64,
    window: &Window,
) -> Option<bool> {
    if !is_window(window) {
        return None;
    }
    let mut first = begun(machine, base, start)?;
    let mut second = begun(machine, base, start)?;
    let searched = cover(alloc, machine, &mut first, window);
    let found = covered_tiles(alloc, machine, &mut second, window);
    let mut third = begun(machine, base, start)?;
    let any_order = find_tiles(alloc, machine, &mut third, window);
    let is_alike = same(&searched, &found) && counted(&searched, &any_order);
    Some(is_alike && same_digits(&first, &second) && same_digits(&first, &third))
}

/// Makes `number` random windows with a half-width and half-height of at most `most`, and bases of depth 0 to
/// 15. Counts those for which both ways agree, and the others.
pub fn alike_windows(alloc: Global, machine: &Machine, number: u32, most: u64) -> Counts {
    let order = machine.checked().order();
    let mut draws = Draws { state: 39 };
    let mut counts = Counts::default();
    for _ in 0..number {
        let depth = draws.below(16);
        let any = draws.below(2) == 0;
        let start = draws.below(1 << 31);
        let base = draws.address(machine, depth, any);
        let window = draws.sized_window(order, 40, most);
        if let Some(base) = base {
            if let Some(is_alike) = alike(alloc, machine, &base, start, &window) {
                counts.count(is_alike);
            }
        }
    }
    counts
}
