//! A sink over a writer of std.
ghost use Rattle.std.specs.Prelude.{◌≡◌, None};
ghost use Rattle.std.specs.Io.{WritesAtMost};
ghost use Rattle.std.specs.Io.KnownBytes.{WriteAppends};
ghost use Rattle.tile_io.specs.Causes.{HasCause, count_after};
ghost use Rattle.tile_io.specs.Edge.{writer_of};
ghost use Rattle.tile_io.specs.Taken.{WriteTakes, Advances};

use crate::failed::Failed;
use crate::sink::Sink;
use std::io::Write;

/// A sink over a writer of std. It reports no bytes, and counts the writer's failures.
#[derive(Drop)]
pub struct StdSink<W: Write + Drop> {
    writer: W,
    faults: u64,
}

impl<W: Write + Drop> StdSink<W> {
    /// Makes a sink that writes to `writer`.
    pub fn new(writer: W) -> StdSink<W>
        ensures writer { writer_of result ≡ writer }
        ensures no_faults { ⟦<StdSink<W> as Sink>⟧.faults result ≡ 0 }
    {
        StdSink { writer, faults: 0 }
    }
}

impl<W: Write + Drop> Sink for StdSink<W> {
    ghost taken = { λ _. None };

    ghost faults = { λ sink. sink.faults };

    /// Makes one write of the writer. Counts its failure, and a write that takes nothing of a piece that is
    /// not empty.
    fn write(&mut self, buf: &[u8]) -> Result<usize, Failed>
        ensures within { WritesAtMost result buf.now }
        ensures advances { Advances result buf.now }
        ensures takes { let told = ⟦<StdSink<W> as Sink>⟧.taken in
            WriteTakes (told self.old) (told self.new) result buf.now }
        ensures cause { let count = ⟦<StdSink<W> as Sink>⟧.faults in
            HasCause (count self.old) (count self.new) result }
        ensures counts { let count = ⟦<StdSink<W> as Sink>⟧.faults in
            count self.new ≡ count_after (count self.old) result }
        ensures writes { WriteAppends (W.contents (writer_of self.old))
            (W.contents (writer_of self.new)) result buf.now }
    {
        match self.writer.write(buf) {
            Ok(count) if count > 0 || buf.is_empty() => Ok(count),
            _ => {
                self.faults = self.faults.saturating_add(1);
                Err(Failed)
            }
        }
    }
}
