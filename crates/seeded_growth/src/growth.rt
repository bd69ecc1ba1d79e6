//! The stream of words that chooses digits.
ghost use Rattle.std.specs.Prelude.{◌≡◌, ◌+◌, ◌<◌, ◌^◌, Some, IfOk, length};
ghost use Rattle.theory_addresses.specs.Address.{child_kind};
ghost use Rattle.theory_frames.specs.Growth.{chosen};
ghost use Rattle.tile_shape.specs.UsesInOrder.{uses_in_order};
ghost use Rattle.tile_shape.specs.Views.{step_of};
ghost use Rattle.seeded_growth.specs.Words.{word};

use rand_core::utils::NextWord;
use rand_pcg::Pcg32;
use std::marker::Model;
use tile_shape::no_memory::NoMemory;
use tile_shape::step::Step;
use tile_shape::uses::Uses;

/// The generator's stream, the same for every seed.
const STREAM: u64 = 54;

/// A stream of outputs of the generator. Contracts see it as its seed, and how many outputs were taken.
#[derive(Drop)]
pub struct Growth {
    generator: Pcg32,
    start: u64,
    taken: u64,
}

impl Model for Growth {
    ghost use Rattle.std.specs.Prelude.{◌≡◌, ℕ};
    ghost use Rattle.seeded_growth.specs.Stream.{Stream};
    ghost use Rattle.seeded_growth.specs.Words.{after, generator_of};

    ghost Value = { Stream };

    ghost view = { λ g. record { start = g.start; taken = g.taken } };

    ghost invariant = { λ g. g.generator ≡ after g.taken (generator_of g.start) };
}

impl Growth {
    /// Makes the stream of a seed, of which no output is taken.
    pub fn new(start: u64) -> Growth
        ensures start { result.start ≡ start }
        ensures none_taken { result.taken ≡ 0 }
    {
        Growth {
            generator: Pcg32::new(start, STREAM),
            start,
            taken: 0,
        }
    }

    /// Makes an equal stream, of which as many outputs are taken.
    pub fn copy(&self) -> Result<Growth, NoMemory>
        ensures { IfOk result (λ copy. copy ≡ self.now) }
    {
        let generator = self.generator.clone()?;
        Ok(Growth {
            generator,
            start: self.start,
            taken: self.taken,
        })
    }

    /// Returns the next output of the generator.
    pub fn next_word(&mut self) -> u32
        requires few_taken { self.old.taken < 2 ^ 32 }
        ensures next { result ≡ word self.old.start self.old.taken }
        ensures one_word { self.new.taken ≡ self.old.taken + 1 }
        ensures same_start { self.new.start ≡ self.old.start }
    {
        let word = self.generator.next_word();
        self.taken += 1;
        word
    }

    /// Returns the digit that the next output chooses on top of a kind: one of the kind's uses.
    pub fn next_digit(&mut self, uses: &Uses, kind: u8) -> Step
        requires exists { kind < length uses.now }
        requires few_taken { self.old.taken < 2 ^ 32 }
        ensures next { step_of result ≡ chosen (uses_in_order uses.now kind)
            (word self.old.start self.old.taken) }
        ensures its_kind { child_kind uses.now result.parent result.child ≡ Some kind }
        ensures one_word { self.new.taken ≡ self.old.taken + 1 }
        ensures same_start { self.new.start ≡ self.old.start }
    {
        let word = self.next_word();
        let count = u32::from(uses.count(kind));
        uses.get(kind, (word % count) as u16)
    }
}
