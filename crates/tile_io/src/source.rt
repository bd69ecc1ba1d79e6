//! Sources of bytes.
ghost use Rattle.std.specs.Prelude.{ℕ, List};
ghost use Rattle.std.specs.declared.option.Option.{Option};
ghost use Rattle.std.specs.Io.{ReadsAtMost};
ghost use Rattle.tile_io.specs.Causes.{HasCause};
ghost use Rattle.tile_io.specs.Left.{ReadGives, EndsExactly};

use crate::failed::Failed;

/// Gives bytes, call by call, until its end.
pub trait Source {
    // The bytes that reads will give from here on, if they are reported.
    ghost left: { Self → Option (List ℕ) };

    // How many of its calls have failed so far. The count stays at 2 ^ 64 - 1 once it is there.
    ghost faults: { Self → ℕ };

    /// Puts the next bytes at the front of `buf`, and returns how many. If `buf` has room, it returns none
    /// exactly at the end. The rest of `buf` may hold anything. `Failed` comes only if the count of faults
    /// rose, and then the bytes are as they were.
    fn read(&mut self, buf: &mut [u8]) -> Result<usize, Failed>
        ensures within { ReadsAtMost result buf.new }
        ensures gives { ReadGives (left self.old) (left self.new) result buf.new }
        ensures ends { EndsExactly (left self.old) result buf.new }
        ensures cause { HasCause (faults self.old) (faults self.new) result };
}
