//! Finds the tiles of a window, and leaves them as they were found.
ghost use Rattle.std.specs.Prelude.{IfOk};
ghost use Rattle.rule_model.specs.Tiling.{tiling_of};
ghost use Rattle.theory_walks.specs.Frames.{IsFrameOf};
ghost use Rattle.window_cover.specs.Answered.{IsAnswered};
ghost use Rattle.window_cover.specs.Ends.{CoversTo};
ghost use Rattle.window_cover.specs.Windows.{IsWindow};

use crate::by_descent::by_descent;
use crate::cover_fault::CoverFault;
use crate::found_tiles::FoundTiles;
use crate::tiles_of_window::by_search;
use lazy_walk::frame::Frame;
use plane_geom::window::Window;
use std::alloc::Global;
use tile_place::machine::Machine;

/// Finds the same tiles as [`covered_tiles`](crate::tiles_of_window::covered_tiles), and does not put them in
/// order. For a caller that only counts them.
pub fn find_tiles(
    alloc: Global,
    machine: &Machine,
    frame: &mut Frame,
    window: &Window,
) -> Result<FoundTiles, CoverFault>
    requires frame { IsFrameOf (tiling_of machine.now) frame.old }
    requires window_fits { IsWindow window.now }

    // The frame grows. Even on an error it is no deeper than is enough for the window. The call succeeds if
    // and only if the window is within the limits, unless memory runs out. Each error comes only for its
    // cause.
    ensures ends { CoversTo (tiling_of machine.now) frame.old frame.new window.now result }

    // Exactly the tiles of the frame that meet the window, each exactly once and in its place. The depth is
    // the least that is enough, and the tiles cover the window.
    ensures found { IfOk result (IsAnswered (tiling_of machine.now) frame.old frame.new window.now) }
{
    let mut grown = frame.copy()?;
    match by_descent(alloc, machine, &mut grown, window)? {
        Some(tiles) => {
            *frame = grown;
            Ok(tiles)
        }
        None => by_search(alloc, machine, frame, window),
    }
}
