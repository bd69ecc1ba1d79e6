//! The totals of `drill`.
ghost use Rattle.std.specs.Prelude.{◌≡◌, ◌+◌, ◌<◌, ◌^◌};
ghost use Rattle.tile_app.specs.Drill.{none_covered, with_window, with_refused};

/// The totals over several windows, each in a frame of its own.
///
/// - `tiles`: how many tiles meet them, in total.
/// - `largest`: the greatest number of tiles that meet one of them.
/// - `depth`: the greatest depth of their frames.
/// - `refused`: how many of them are refused.
#[derive(Clone, Copy, Debug, PartialEq, Eq)]
pub struct Summary {
    pub tiles: u32,
    pub largest: u32,
    pub depth: u8,
    pub refused: u8,
}

impl Summary {
    /// Makes the totals over no window.
    pub fn new() -> Summary
        ensures { result ≡ none_covered }
    {
        Summary {
            tiles: 0,
            largest: 0,
            depth: 0,
            refused: 0,
        }
    }

    /// Adds a window with this number of tiles, in a frame of this depth.
    pub fn add(&mut self, count: u32, depth: u8)
        requires few_tiles { self.old.tiles + count < 2 ^ 32 }
        ensures { self.new ≡ with_window count depth self.old }
    {
        self.tiles += count;
        self.largest = self.largest.max(count);
        self.depth = self.depth.max(depth);
    }

    /// Adds a window that is refused.
    pub fn add_refused(&mut self)
        requires few_refused { self.old.refused < 255 }
        ensures { self.new ≡ with_refused self.old }
    {
        self.refused += 1;
    }
}
