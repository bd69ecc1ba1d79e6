//! A source over a reader of std.
ghost use Rattle.std.specs.Prelude.{◌≡◌, None};
ghost use Rattle.std.specs.Io.{ReadsAtMost};
ghost use Rattle.std.specs.Io.KnownBytes.{ReadConsumes};
ghost use Rattle.tile_io.specs.Causes.{HasCause, count_after};
ghost use Rattle.tile_io.specs.Edge.{reader_of};
ghost use Rattle.tile_io.specs.Left.{ReadGives, EndsExactly};

use crate::failed::Failed;
use crate::source::Source;
use std::io::Read;

/// A source over a reader of std. It reports no bytes, and counts the reader's failures.
#[derive(Drop)]
pub struct StdSource<R: Read + Drop> {
    reader: R,
    faults: u64,
}

impl<R: Read + Drop> StdSource<R> {
    /// Makes a source that reads from `reader`.
    pub fn new(reader: R) -> StdSource<R>
        ensures reader { reader_of result ≡ reader }
        ensures no_faults { ⟦<StdSource<R> as Source>⟧.faults result ≡ 0 }
    {
        StdSource { reader, faults: 0 }
    }
}

impl<R: Read + Drop> Source for StdSource<R> {
    ghost left = { λ _. None };

    ghost faults = { λ source. source.faults };

    /// Makes one read of the reader, and counts its failure.
    fn read(&mut self, buf: &mut [u8]) -> Result<usize, Failed>
        ensures within { ReadsAtMost result buf.new }
        ensures gives { let told = ⟦<StdSource<R> as Source>⟧.left in
            ReadGives (told self.old) (told self.new) result buf.new }
        ensures ends { EndsExactly (⟦<StdSource<R> as Source>⟧.left self.old) result buf.new }
        ensures cause { let count = ⟦<StdSource<R> as Source>⟧.faults in
            HasCause (count self.old) (count self.new) result }
        ensures counts { let count = ⟦<StdSource<R> as Source>⟧.faults in
            count self.new ≡ count_after (count self.old) result }
        ensures reads { ReadConsumes (R.remaining (reader_of self.old))
            (R.remaining (reader_of self.new)) result buf.new }
    {
        match self.reader.read(buf) {
            Ok(count) => Ok(count),
            Err(_) => {
                self.faults = self.faults.saturating_add(1);
                Err(Failed)
            }
        }
    }
}
