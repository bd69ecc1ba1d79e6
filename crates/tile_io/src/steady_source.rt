//! A source in memory that never fails.
ghost use Rattle.std.specs.Prelude.{◌≡◌, Some, Ok, IsOk, min, length};
ghost use Rattle.std.specs.Io.{ReadsAtMost};
ghost use Rattle.tile_io.specs.Causes.{HasCause};
ghost use Rattle.tile_io.specs.Left.{ReadGives, EndsExactly};

use crate::failed::Failed;
use crate::source::Source;
use std::marker::Model;

/// A source in memory that never fails. Contracts see it as the bytes that it has left.
#[derive(Drop)]
pub struct SteadySource {
    bytes: Vec<u8>,
    at: usize,
}

impl Model for SteadySource {
    ghost use Rattle.std.specs.Prelude.{ℕ, List, drop, ◌≤◌, vec_len};

    ghost Value = { List ℕ };

    ghost view = { λ s. drop s.at s.bytes.items };

    ghost invariant = { λ s. s.at ≤ vec_len s.bytes };
}

impl SteadySource {
    /// Makes a source that gives `bytes`.
    pub fn new(bytes: Vec<u8>) -> SteadySource
        ensures bytes { result ≡ bytes.items }
        ensures tells { ⟦<SteadySource as Source>⟧.left result ≡ Some bytes.items }
        ensures no_faults { ⟦<SteadySource as Source>⟧.faults result ≡ 0 }
    {
        SteadySource { bytes, at: 0 }
    }

    fn left(&self) -> &[u8]
        ensures { result.now ≡ self.now }
    {
        &self.bytes[self.at..]
    }
}

impl Source for SteadySource {
    ghost left = { λ source. Some source };

    ghost faults = { λ _. 0 };

    /// Gives as many bytes as there are and as `buf` has room for.
    fn read(&mut self, buf: &mut [u8]) -> Result<usize, Failed>
        ensures within { ReadsAtMost result buf.new }
        ensures gives { let told = ⟦<SteadySource as Source>⟧.left in
            ReadGives (told self.old) (told self.new) result buf.new }
        ensures ends { EndsExactly (⟦<SteadySource as Source>⟧.left self.old) result buf.new }
        ensures cause { let count = ⟦<SteadySource as Source>⟧.faults in
            HasCause (count self.old) (count self.new) result }
        ensures never_fails { IsOk result }
        ensures all_that_fit { result ≡ Ok (min (length buf.new) (length self.old)) }
    {
        let left = self.left();
        let count = buf.len().min(left.len());
        buf[..count].copy_from_slice(&left[..count]);
        self.at += count;
        Ok(count)
    }
}
