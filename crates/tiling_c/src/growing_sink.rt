//! A sink in memory that keeps all that it takes.
ghost use Rattle.std.specs.Prelude.{◌≡◌, [], Some, false};
ghost use Rattle.std.specs.Io.{WritesAtMost};
ghost use Rattle.tile_io.specs.Causes.{HasCause};
ghost use Rattle.tile_io.specs.Taken.{WriteTakes, Advances};

use std::alloc::Global;
use tile_io::failed::Failed;
use tile_io::sink::Sink;

/// A sink in memory that keeps all that it takes. A write fails only if memory runs out.
#[derive(Drop)]
pub struct GrowingSink {
    bytes: Vec<u8>,
    faults: u64,
}

impl GrowingSink {
    /// Makes an empty sink.
    pub fn new(alloc: Global) -> GrowingSink
        ensures empty { ⟦<GrowingSink as Sink>⟧.taken result ≡ Some [] }
        ensures no_faults { ⟦<GrowingSink as Sink>⟧.faults result ≡ 0 }
    {
        GrowingSink {
            bytes: Vec::new(alloc),
            faults: 0,
        }
    }

    /// Returns the bytes that it took.
    pub fn bytes(&self) -> &[u8]
        ensures { ⟦<GrowingSink as Sink>⟧.taken self.now ≡ Some result.now }
    {
        self.bytes.as_slice()
    }

    /// Returns true if a write has failed.
    pub fn has_failed(&self) -> bool
        ensures { (result ≡ false) → ⟦<GrowingSink as Sink>⟧.faults self.now ≡ 0 }
    {
        self.faults > 0
    }
}

impl Sink for GrowingSink {
    ghost taken = { λ sink. Some sink.bytes.items };

    ghost faults = { λ sink. sink.faults };

    /// Takes the whole piece, unless memory runs out.
    fn write(&mut self, buf: &[u8]) -> Result<usize, Failed>
        ensures within { WritesAtMost result buf.now }
        ensures advances { Advances result buf.now }
        ensures takes { let told = ⟦<GrowingSink as Sink>⟧.taken in
            WriteTakes (told self.old) (told self.new) result buf.now }
        ensures cause { let count = ⟦<GrowingSink as Sink>⟧.faults in
            HasCause (count self.old) (count self.new) result }
    {
        match self.bytes.extend_from_slice(buf) {
            Ok(()) => Ok(buf.len()),
            Err(_) => {
                self.faults = self.faults.saturating_add(1);
                Err(Failed)
            }
        }
    }
}
