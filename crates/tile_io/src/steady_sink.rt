//! A sink in memory that never fails.
ghost use Rattle.std.specs.Prelude.{◌≡◌, [], Some, Ok, IsOk, IfOk, IfSome, length};
ghost use Rattle.std.specs.Io.{WritesAtMost};
ghost use Rattle.tile_io.specs.Causes.{HasCause};
ghost use Rattle.tile_io.specs.Held.{told, empty_held, held_after};
ghost use Rattle.tile_io.specs.Taken.{WriteTakes, Advances};

use crate::failed::Failed;
use crate::sink::Sink;
use std::alloc::Global;
use std::marker::Model;
use tile_shape::no_memory::NoMemory;

/// A sink in memory that never fails, and keeps the bytes that fit its room.
///
/// A piece that does not fit is taken and dropped; from then on the sink reports no bytes.
#[derive(Drop)]
pub struct SteadySink {
    bytes: Vec<u8>,
    room: usize,
    whole: bool,
}

impl Model for SteadySink {
    ghost use Rattle.std.specs.Prelude.{◌≤◌, vec_len, vec_capacity};
    ghost use Rattle.tile_io.specs.Held.{Held};

    ghost Value = { Held };

    ghost view = { λ s. record { room = s.room; kept = s.bytes.items; whole = s.whole } };

    ghost invariant = { λ s. (vec_len s.bytes ≤ s.room) × (s.room ≤ vec_capacity s.bytes) };
}

impl SteadySink {
    /// Makes an empty sink with room for `room` bytes. It allocates that memory here, and no write allocates
    /// more.
    pub fn new(alloc: Global, room: usize) -> Result<SteadySink, NoMemory>
        ensures empty { IfOk result (λ sink. sink ≡ empty_held room) }
        ensures tells { IfOk result (λ sink. ⟦<SteadySink as Sink>⟧.taken sink ≡ Some []) }
        ensures no_faults { IfOk result (λ sink. ⟦<SteadySink as Sink>⟧.faults sink ≡ 0) }
        ensures succeeds_at_no_room { room ≡ 0 → IsOk result }
    {
        Ok(SteadySink {
            bytes: Vec::with_capacity(alloc, room)?,
            room,
            whole: true,
        })
    }

    /// Returns the bytes that were kept: all that it took, if the sink reports its bytes.
    pub fn taken(&self) -> &[u8]
        ensures kept { result.now ≡ self.now.kept }
        ensures told { IfSome (⟦<SteadySink as Sink>⟧.taken self.now) (λ bytes. result.now ≡ bytes) }
    {
        self.bytes.as_slice()
    }
}

impl Sink for SteadySink {
    ghost taken = { told };

    ghost faults = { λ _. 0 };

    /// Takes the whole piece, and keeps it if there is room.
    fn write(&mut self, buf: &[u8]) -> Result<usize, Failed>
        ensures within { WritesAtMost result buf.now }
        ensures advances { Advances result buf.now }
        ensures takes { let told = ⟦<SteadySink as Sink>⟧.taken in
            WriteTakes (told self.old) (told self.new) result buf.now }
        ensures cause { let count = ⟦<SteadySink as Sink>⟧.faults in
            HasCause (count self.old) (count self.new) result }
        ensures never_fails { IsOk result }
        ensures whole_piece { result ≡ Ok (length buf.now) }
        ensures keeps { self.new ≡ held_after self.old buf.now }
    {
        if buf.len() <= self.room - self.bytes.len() {
            let _ = self.bytes.extend_from_slice(buf);
        } else {
            self.whole = false;
        }
        Ok(buf.len())
    }
}
