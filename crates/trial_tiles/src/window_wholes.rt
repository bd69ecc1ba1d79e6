//! The whole tiles of windows, found in two ways: by addresses from the tiles of a search, and by numbers
//! from tiles that may be found from the top down. Both give the same, and leave the same frame.
ghost use Rattle.std.specs.Prelude.{◌≡◌, ◌≤◌, ◌^◌, All, IfSome, length, true};
ghost use Rattle.cyclo_points.specs.Point.{IsWithin};
ghost use Rattle.half_glue.specs.Given.{AreGiven};
ghost use Rattle.theory_walks.specs.Frames.{IsFrameOf};
ghost use Rattle.lazy_walk.specs.Standing.{Stands};
ghost use Rattle.rule_model.specs.Tiling.{tiling_of};
ghost use Rattle.theory_windows.specs.Limits.{most_tiles};
ghost use Rattle.window_cover.specs.InOrder as covered;

use crate::whole_tiles::glued;
use crate::wrong::assert_of;
use builtin_rules::name::Name;
use cyclo_points::arithmetic::refused;
use cyclo_points::motion::Motion;
use half_glue::given_law::given_law;
use half_glue::glue_covered::glue_covered;
use half_glue::glued_tiles::GluedTiles;
use half_glue::whole_tile::WholeTile;
use lazy_walk::frame::Frame;
use plane_geom::window::Window;
use std::alloc::Global;
use std::process::Abort;
use std::test::Fail;
use tile_place::machine::Machine;
use tile_place::placed_tile::PlacedTile;
use tile_shape::address::Address;
use trial_plain_tiles::built_in::machine_of;
use trial_plain_tiles::draws::Draws;
use trial_plain_tiles::frame_tiles::begun;
use trial_plain_tiles::window_tiles::is_window;
use window_cover::covered_tiles::CoveredTiles;
use window_cover::tiles_of_window::{cover, covered_tiles};

/// The built-in rules of halves.
const HALVES: [Name; 3] = [Name::P2, Name::P3, Name::AmmannBeenker];

/// Returns true if no tile of a window has a refused shift.
fn none_of_them_refused(tiles: &CoveredTiles) -> bool
    ensures { result ≡ true → All (λ x. IsWithin (2 ^ 24) x.motion.shift) tiles.now }
{
    for number in 0..tiles.len() {
        if refused(&tiles.tile(number).motion.shift) {
            return false;
        }
    }
    true
}

/// The whole tiles of a window by the addresses of a search's tiles, if there are any.
fn by_addresses(
    alloc: Global,
    machine: &Machine,
    frame: &mut Frame,
    window: &Window,
) -> Option<Vec<WholeTile>>
    requires frame { IsFrameOf (tiling_of machine.now) frame.old }
{
    if !is_window(window) {
        return None;
    }
    let Ok(tiles) = cover(alloc, machine, frame, window) else {
        return None;
    };
    glued(alloc, machine, frame, &tiles)?.ok()
}

/// The whole tiles of a window by the numbers of its tiles, if there are any.
fn by_numbers(
    alloc: Global,
    machine: &Machine,
    frame: &mut Frame,
    window: &Window,
) -> Option<GluedTiles>
    requires frame { IsFrameOf (tiling_of machine.now) frame.old }
{
    if !is_window(window) {
        return None;
    }
    let Ok(tiles) = covered_tiles(alloc, machine, frame, window) else {
        return None;
    };
    given_law();
    if tiles.len() > 200000 || !none_of_them_refused(&tiles) {
        return None;
    }
    glue_covered(alloc, machine, frame, tiles).ok()
}

/// Returns the tile that is put at a place, the first or the second half.
fn put(wholes: &GluedTiles, place: usize, is_second: bool) -> Option<PlacedTile> {
    let mut tile = PlacedTile {
        kind: 0,
        motion: Motion::default(),
        addr: Address::new(0),
    };
    if place >= wholes.len() {
        return None;
    }
    if !is_second {
        wholes.put_first(place, &mut tile.kind, &mut tile.motion, &mut tile.addr);
    } else if wholes.is_pair(place) {
        wholes.put_second(place, &mut tile.kind, &mut tile.motion, &mut tile.addr);
    } else {
        return None;
    }
    Some(tile)
}

/// Returns true if both lists have the same whole tiles.
fn same(searched: &[WholeTile], found: &GluedTiles) -> bool {
    searched.len() == found.len()
        && (0..found.len()).all(|place| match searched.get(place) {
            Some(whole) => {
                put(found, place, false).as_ref() == Some(&whole.first)
                    && put(found, place, true) == whole.second
            }
            None => false,
        })
}

/// Returns the number of whole tiles of a window of a frame, 0 if neither way finds them. Returns None if the
/// two ways differ, or leave frames of other digits.
fn count_if_alike(
    alloc: Global,
    machine: &Machine,
    base: &Address,
    start: u64,
    window: &Window,
) -> Option<usize> {
    let mut first = begun(machine, base, start)?;
    let mut second = begun(machine, base, start)?;
    let searched = by_addresses(alloc, machine, &mut first, window);
    let found = by_numbers(alloc, machine, &mut second, window);
    if first.digits().as_slice() != second.digits().as_slice() {
        return None;
    }
    match (&searched, &found) {
        (Some(searched), Some(found)) if same(searched.as_slice(), found) => Some(found.len()),
        (None, None) => Some(0),
        _ => None,
    }
}

/// 12 windows of each rule, most of them so large that their tiles are found from the top down.
#[test]
fn alike(rt: HostRuntime) -> Result<(), Fail> {
    for name in HALVES {
        let machine = machine_of(rt.alloc(), name)?;
        let mut draws = Draws { state: 821 };
        let mut all = 0u64;
        for _ in 0..12 {
            let depth = draws.below(16);
            let start = draws.below(1 << 31);
            let window = draws.sized_window(machine.checked().order(), 40, 60);
            if let Some(base) = draws.address(&machine, depth, false) {
                let count = count_if_alike(rt.alloc(), &machine, &base, start, &window);
                assert_of(&rt, name, count.is_some());
                all = all.saturating_add(count.unwrap_or(0) as u64);
            }
        }
        assert_of(&rt, name, all > 1000);
    }
    Ok(())
}
