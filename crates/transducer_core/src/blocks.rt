//! The blocks of a flat table, as look-ups read them.
ghost use Rattle.std.specs.Prelude.{◌≡◌, ◌+◌, ◌*◌, ℕ};
ghost use Rattle.transducer_core.specs.Merged.{HasEntry};

use edge_tables::steps::Steps;
use std::sync::ledger::Ledger;

/// The starts of blocks, by cells, and their words, one block after another.
#[derive(Clone, Copy)]
pub(crate) struct Blocks<'a> {
    pub(crate) starts: &'a [u16],
    pub(crate) words: &'a [u32],
}

impl<'a> Blocks<'a> {
    /// Returns the word at a place of the block whose start is at this cell, in one step.
    #[inline]
    pub(crate) fn look_up<L: Ledger>(self, at: usize, place: usize, steps: &mut Steps<L>) -> u32
        requires { (word : ℕ) × HasEntry self.starts.now self.words.now at place word }
        ensures value { HasEntry self.entry.starts.now self.entry.words.now at place result }
        ensures one_step { steps.new ≡ steps.old + 1 }
    {
        steps.tick();
        let start = self.starts[at];
        self.words[usize::from(start) + place]
    }
}
