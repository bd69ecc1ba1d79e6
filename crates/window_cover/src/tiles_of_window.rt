//! Finds the tiles of a window.
ghost use Rattle.std.specs.Prelude.{◌≡◌, ◌⊎◌, ◌<◌, ◌≤◌, ℕ, All, length, map, IsOk, Err, IfOk, IfErr, OnOk};
ghost use Rattle.rule_model.specs.Tiling.{tiling_of};
ghost use Rattle.tile_place.specs.Searched.{placed_in};
ghost use Rattle.theory_walks.specs.Frames.{IsFrameOf, GrowsTo};
ghost use Rattle.lazy_walk.specs.Standing.{Stands};
ghost use Rattle.window_cover.specs.declared.cover_fault.CoverFault.TheVariants.{NoMemory};
ghost use Rattle.window_cover.specs.Windows.{IsWindow, AreDrawn, CoverWindow, IsLeastForWindow};
ghost use Rattle.window_cover.specs.Limits.{IsCoverWithinLimits};
ghost use Rattle.window_cover.specs.Causes.{HasCoverCause};
ghost use Rattle.window_cover.specs.InOrder.{AreInOrder};
ghost use Rattle.window_cover.specs.Answered.{IsAnswered};
ghost use Rattle.window_cover.specs.Ends.{CoversTo};
ghost use Rattle.window_cover.specs.Searched.{HasClosed};

use crate::cover::{Cover, no_tile};
use crate::cover_fault::CoverFault;
use crate::covered_tiles::CoveredTiles;
use crate::find_tiles::find_tiles;
use crate::found_tiles::FoundTiles;
use crate::laws::end_laws;
use edge_tables::steps::Steps;
use lazy_walk::frame::Frame;
use plane_geom::window::Window;
use seeded_growth::laws::grown_fits_law;
use std::alloc::Global;
use std::marker::Brand;
use std::sync::ledger::{Blank, Ledger};
use theory_windows::cover_laws::frame_limits_law;
use theory_windows::frame_laws::frame_window_law;
use tile_place::machine::Machine;
use tile_place::placed_tile::PlacedTile;

/// Finds exactly the tiles of the frame that meet the window, ordered by shift, then turn, then kind. A tile
/// that only touches the window does not meet it.
///
/// The frame grows only as far as needed, and never gets shallower. It stops at the least depth at which its
/// supertile holds the window's centre, and no edge on the supertile's boundary meets the window.
///
/// This call always searches from the tile that holds the centre. [`covered_tiles`] is faster for a large
/// window.
///
/// # Errors
///
/// - `DepthLimit`: at depth 64, a tile that meets the window has an edge on the boundary that meets it too.
/// - `CoordLimit`: the shift of a tile that meets the window, or a value on the way to the centre, has a
///   coefficient above 2^24 in absolute value.
/// - `TooManyTiles`: more than 200,000 tiles meet the window.
/// - `NoMemory`: memory ran out.
///
/// A window may pass several limits. Which of them is reported is left open.
pub fn cover(
    alloc: Global,
    machine: &Machine,
    frame: &mut Frame,
    window: &Window,
) -> Result<Vec<PlacedTile>, CoverFault>
    requires frame { IsFrameOf (tiling_of machine.now) frame.old }
    requires window_fits { IsWindow window.now }

    ensures frame { GrowsTo (tiling_of machine.now) frame.old frame.new }

    // Exactly the tiles of the frame that meet the window, each exactly once and in its place. The depth is
    // the least that is enough, and the tiles cover the window.
    ensures drawn { IfOk result (λ tiles. AreDrawn (tiling_of machine.now) frame.new window.now
        (map (placed_in machine.now.order) tiles.items)) }
    ensures stand { IfOk result (λ tiles. All (Stands (tiling_of machine.now) frame.new) tiles.items) }
    ensures in_order { IfOk result (λ tiles. AreInOrder tiles.items) }
    ensures least { OnOk result (IsLeastForWindow (tiling_of machine.now) frame.old window.now
        (length frame.new.digits)) }
    ensures covered { IfOk result (λ tiles. CoverWindow (tiling_of machine.now) frame.new window.now
        (map (placed_in machine.now.order) tiles.items)) }

    // Even on an error the frame is no deeper than is enough for the window.
    ensures not_beyond { (n : ℕ) → IsLeastForWindow (tiling_of machine.now) frame.old window.now n
        → length frame.new.digits ≤ n }

    // The call succeeds if and only if the window is within the limits, unless memory runs out. Each error
    // comes only for its cause.
    ensures within { OnOk result (IsCoverWithinLimits (tiling_of machine.now) frame.old window.now) }
    ensures answered { IsCoverWithinLimits (tiling_of machine.now) frame.old window.now
        → (result ≡ Err NoMemory)
        ⊎ IsOk result }
    ensures cause { IfErr result
        (λ fault. HasCoverCause (tiling_of machine.now) frame.old frame.new window.now
        fault) }
{
    let found = by_search(alloc, machine, frame, window)?;
    let tiles = found.in_order()?;
    Ok(tiles.listed(alloc)?)
}

/// Finds the same tiles as [`cover`], to be read one at a time. Needs less memory. It handles a
/// large window from the top down, and every other window by a search.
pub fn covered_tiles(
    alloc: Global,
    machine: &Machine,
    frame: &mut Frame,
    window: &Window,
) -> Result<CoveredTiles, CoverFault>
    requires frame { IsFrameOf (tiling_of machine.now) frame.old }
    requires window_fits { IsWindow window.now }

    ensures frame { GrowsTo (tiling_of machine.now) frame.old frame.new }

    // Exactly the tiles of the frame that meet the window, each exactly once and in its place. The depth is
    // the least that is enough, and the tiles cover the window.
    ensures drawn { IfOk result (λ tiles. AreDrawn (tiling_of machine.now) frame.new window.now
        (map (placed_in machine.now.order) tiles)) }
    ensures stand { IfOk result (λ tiles. All (Stands (tiling_of machine.now) frame.new) tiles) }
    ensures in_order { IfOk result (λ tiles. AreInOrder tiles) }
    ensures least { OnOk result (IsLeastForWindow (tiling_of machine.now) frame.old window.now
        (length frame.new.digits)) }
    ensures covered { IfOk result (λ tiles. CoverWindow (tiling_of machine.now) frame.new window.now
        (map (placed_in machine.now.order) tiles)) }

    // Even on an error the frame is no deeper than is enough for the window.
    ensures not_beyond { (n : ℕ) → IsLeastForWindow (tiling_of machine.now) frame.old window.now n
        → length frame.new.digits ≤ n }

    // The call succeeds if and only if the window is within the limits, unless memory runs out. Each error
    // comes only for its cause.
    ensures within { OnOk result (IsCoverWithinLimits (tiling_of machine.now) frame.old window.now) }
    ensures answered { IsCoverWithinLimits (tiling_of machine.now) frame.old window.now
        → (result ≡ Err NoMemory)
        ⊎ IsOk result }
    ensures cause { IfErr result
        (λ fault. HasCoverCause (tiling_of machine.now) frame.old frame.new window.now
        fault) }
{
    let found = find_tiles(alloc, machine, frame, window)?;
    Ok(found.in_order()?)
}

/// Like [`find_tiles`], by a search from the tile at the centre. It crosses the open edges by tile, in the
/// order in which tiles were found, and then by number of the edge.
pub(crate) fn by_search(
    alloc: Global,
    machine: &Machine,
    frame: &mut Frame,
    window: &Window,
) -> Result<FoundTiles, CoverFault>
    requires frame { IsFrameOf (tiling_of machine.now) frame.old }
    requires window_fits { IsWindow window.now }

    ensures ends { CoversTo (tiling_of machine.now) frame.old frame.new window.now result }
    ensures found { IfOk result (IsAnswered (tiling_of machine.now) frame.old frame.new window.now) }
{
    end_laws();
    grown_fits_law();
    let checked = machine.checked();
    let order = checked.order();
    frame_limits_law(order);
    frame_window_law(order);
    let _usable = checked.uses().kinds();
    let cover = searched::<Brand>(alloc, machine, frame, window, Blank::new(1))?;
    Ok(cover.arranged(alloc, frame)?)
}

/// Returns the state at the end of the search. Counts the look-ups on a ledger with this name.
fn searched<L: Ledger>(
    alloc: Global,
    machine: &Machine,
    frame: &mut Frame,
    window: &Window,
    blank: Blank,
) -> Result<Cover, CoverFault>
    requires name { blank.name ≡ L.name }
    requires parts { blank.parts ≡ L.parts }
    requires some { 0 < blank.parts }
    requires frame { IsFrameOf (tiling_of machine.now) frame.old }
    requires window_fits { IsWindow window.now }
    ensures ends { CoversTo (tiling_of machine.now) frame.old frame.new window.now result }
    ensures ended { IfOk result (HasClosed (tiling_of machine.now) frame.old frame.new window.now) }
{
    let mut steps = Steps::<L>::new(blank);
    let mut cover = Cover::start(alloc, machine, frame, window)?;
    let mut tile = no_tile();
    while let Some(first) = cover.first_open() {
        cover.advance(machine, frame, first, &mut tile, &mut steps)?;
    }
    Ok(cover)
}
