//! Sinks of bytes.
ghost use Rattle.std.specs.Prelude.{ℕ, List};
ghost use Rattle.std.specs.declared.option.Option.{Option};
ghost use Rattle.std.specs.Io.{WritesAtMost};
ghost use Rattle.tile_io.specs.Causes.{HasCause};
ghost use Rattle.tile_io.specs.Taken.{WriteTakes, Advances};

use crate::failed::Failed;

/// Takes bytes, call by call.
pub trait Sink {
    // The bytes taken so far, if they are reported.
    ghost taken: { Self → Option (List ℕ) };

    // How many of its calls have failed so far. The count stays at 2 ^ 64 - 1 once it is there.
    ghost faults: { Self → ℕ };

    /// Takes the first bytes of `buf`, and returns how many: at least one if `buf` is not empty. `Failed`
    /// comes only if the count of faults rose, and then nothing was taken.
    fn write(&mut self, buf: &[u8]) -> Result<usize, Failed>
        ensures within { WritesAtMost result buf.now }
        ensures advances { Advances result buf.now }
        ensures takes { WriteTakes (taken self.old) (taken self.new) result buf.now }
        ensures cause { HasCause (faults self.old) (faults self.new) result };
}
