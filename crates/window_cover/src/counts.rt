//! Counts tiles by kind.
ghost use Rattle.std.specs.Prelude.{◌≡◌, ℕ, slice_index};
ghost use Rattle.window_cover.specs.KindCounts.{count_found, count_of_kind};
ghost use Rattle.window_cover.specs.Runs.{AreRuns, seen};

use crate::found_tiles::FoundTiles;
use crate::runs::Runs;

/// The number of kinds that there may be.
const KINDS: usize = 256;

impl FoundTiles {
    /// Returns the number of tiles of each kind.
    pub fn counts(&self) -> [u32; KINDS]
        ensures { (kind : ℕ) → slice_index result kind ≡ count_of_kind kind self.now }
    {
        self.tiles.counts()
    }
}

impl Runs {
    /// Returns the number of tiles of each kind.
    fn counts(&self) -> [u32; KINDS]
        requires runs { AreRuns self.now }
        ensures { (kind : ℕ) → slice_index result kind ≡ count_found kind (seen self.now) }
    {
        let mut counts = [0; KINDS];
        for number in 0..self.len() {
            let (_, kind) = self.place(number);
            counts[usize::from(kind)] += 1;
        }
        counts
    }
}
