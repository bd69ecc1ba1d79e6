//! The fields of tiles by their runs and their leaves.
//!
//! A tile's shift is the sum of those of its run and its leaf. So spans of the runs' shifts and spans of the
//! leaves' give spans of the tiles', and not each tile must be looked at.
ghost use Rattle.std.specs.Prelude.{◌≡◌, ◌<◌, length, IfSome};
ghost use Rattle.std.specs.List.{AllByRecursion};
ghost use Rattle.tile_place.specs.Keys.{FitsKey};
ghost use Rattle.window_cover.specs.Reach.{HoldEach, HoldRun, still_run};
ghost use Rattle.window_cover.specs.Words.{AreFields};

use crate::cover::{Cover, is_far};
use crate::fields::Fields;
use crate::run::Run;
use crate::runs::Runs;
use cyclo_points::motion::Motion;
use cyclo_points::point::Point;

/// The greatest coefficient of a shift.
const LIMIT: u32 = 1 << 24;

impl Cover {
    /// Returns fields for all tiles found, or None if there are none.
    pub(crate) fn fields(&self) -> Option<Fields>
        ensures fields { IfSome result AreFields }
        ensures hold { IfSome result (λ fields. HoldEach fields self.now.found) }
    {
        self.tiles_law();
        let count = self.tiles();
        if count == 0 {
            return None;
        }
        let mut fields = self.first_fields();
        for number in 0..count {
            let (motion, kind) = self.place(number as usize);
            fields = fields.widened(&motion, kind);
        }
        Some(fields)
    }

    /// Returns the fields for the first tile alone.
    fn first_fields(&self) -> Fields
        requires some { 0 < length self.now.found }
        ensures { AreFields result }
    {
        self.tiles_law();
        let (motion, kind) = self.place(0);
        Fields::of(&motion, kind)
    }
}

impl Runs {
    /// Returns fields for the motions of all runs. Returns None if there are none, or if one is moved too
    /// far.
    pub(crate) fn shifts(&self) -> Option<Fields>
        ensures fields { IfSome result AreFields }
        ensures hold { IfSome result (λ fields. AllByRecursion (HoldRun fields) self.now.runs.items) }
    {
        let runs = self.runs.as_slice();
        if runs.is_empty() {
            return None;
        }
        let mut fields = Fields::of(&motion_of(&runs[0])?, 0);
        for run in runs {
            fields = fields.widened(&motion_of(run)?, 0);
        }
        Some(fields)
    }
}

/// Returns the motion of a run, or None if a coefficient of its shift is too large.
fn motion_of(run: &Run) -> Option<Motion>
    ensures motion { IfSome result (λ motion. motion ≡ still_run run.now.shift) }
    ensures fits { IfSome result (λ motion. FitsKey motion 0) }
{
    let shift = match run.shift {
        Some(shift) => shift,
        None => Point { c: [0, 0, 0, 0] },
    };
    if is_far(&shift, LIMIT) {
        return None;
    }
    Some(Motion { turn: 0, shift })
}
