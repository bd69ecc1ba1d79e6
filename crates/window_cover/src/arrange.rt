//! Adds the digits of the frame to the tiles found.
ghost use Rattle.std.specs.Prelude.{All};
ghost use Rattle.window_cover.specs.Arranged.{AreArranged};
ghost use Rattle.window_cover.specs.Lifted.{CanBeLifted};
ghost use Rattle.window_cover.specs.Runs.{AreRuns, seen};

use crate::found_tiles::FoundTiles;
use crate::runs::Runs;
use arrayvec::ArrayVec;
use lazy_walk::frame::Frame;
use std::alloc::Global;

impl Runs {
    /// Returns the tiles as they were found. The digits of the frame follow their own.
    pub(crate) fn arranged(self, alloc: Global, frame: &Frame) -> FoundTiles
        requires runs { AreRuns self }
        requires no_deeper { All (CanBeLifted frame.now) (seen self) }
        ensures { AreArranged frame.now (seen self) result }
    {
        let mut above = ArrayVec::new();
        let _ = above.try_extend_from_slice(frame.digits().as_slice());
        FoundTiles {
            tiles: self,
            above,
            alloc,
        }
    }
}
