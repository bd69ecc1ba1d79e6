//! A sink in memory that fails by a list.
ghost use Rattle.std.specs.Prelude.{◌≡◌, ◌↔◌, ◌⊎◌, ◌-◌, ◌≤◌, [], Some, IsErr, IsOk, IfOk, min, length};
ghost use Rattle.std.specs.Io.{WritesAtMost};
ghost use Rattle.tile_io.specs.Causes.{HasCause};
ghost use Rattle.tile_io.specs.Mem.{first_taken, MeetsFullRoom};
ghost use Rattle.tile_io.specs.Plan.{plan_after, IsListedNext};
ghost use Rattle.tile_io.specs.Taken.{WriteTakes, Advances};

use crate::failed::Failed;
use crate::fault_plan::FaultPlan;
use crate::sink::Sink;
use std::alloc::Global;
use std::marker::Model;
use tile_shape::no_memory::NoMemory;

/// A sink in memory that takes small pieces. It fails at the calls that are listed, and when its room is
/// full.
#[derive(Drop)]
pub struct MemSink {
    bytes: Vec<u8>,
    room: usize,
    most: usize,
    plan: FaultPlan,
}

impl Model for MemSink {
    ghost use Rattle.std.specs.Prelude.{◌≤◌, vec_len, vec_capacity};
    ghost use Rattle.tile_io.specs.Mem.{MemTaken};

    ghost Value = { MemTaken };

    ghost view = { λ s. record { room = s.room; kept = s.bytes.items; most = s.most; plan = s.plan } };

    ghost invariant = { λ s.
        (vec_len s.bytes ≤ s.room) × (s.room ≤ vec_capacity s.bytes) × (1 ≤ s.most) };
}

impl MemSink {
    /// Makes an empty sink with room for `room` bytes. It allocates that memory here, and no write allocates
    /// more.
    ///
    /// It takes at most `most` bytes a call, and fails at the calls whose numbers are in `fails`. The first
    /// call is number 1. Calls are counted in a u64: none after number 2 ^ 64 - 1 fails by the list.
    pub fn new(
        alloc: Global,
        room: usize,
        most: usize,
        fails: Vec<u64>,
    ) -> Result<MemSink, NoMemory>
        requires takes_some { 1 ≤ most }
        ensures begins { IfOk result (λ sink. sink ≡ first_taken room most fails.items) }
        ensures tells { IfOk result (λ sink. ⟦<MemSink as Sink>⟧.taken sink ≡ Some []) }
        ensures no_faults { IfOk result (λ sink. ⟦<MemSink as Sink>⟧.faults sink ≡ 0) }
        ensures succeeds_at_no_room { room ≡ 0 → IsOk result }
    {
        Ok(MemSink {
            bytes: Vec::with_capacity(alloc, room)?,
            room,
            most,
            plan: FaultPlan::new(fails),
        })
    }

    /// Returns the bytes that were taken.
    pub fn taken(&self) -> &[u8]
        ensures kept { result.now ≡ self.now.kept }
        ensures told { ⟦<MemSink as Sink>⟧.taken self.now ≡ Some result.now }
    {
        self.bytes.as_slice()
    }
}

impl Sink for MemSink {
    ghost taken = { λ sink. Some sink.kept };

    ghost faults = { λ sink. sink.plan.faults };

    /// Takes as many bytes as the piece has, as a call takes, and as there is room for.
    fn write(&mut self, buf: &[u8]) -> Result<usize, Failed>
        ensures within { WritesAtMost result buf.now }
        ensures advances { Advances result buf.now }
        ensures takes { let told = ⟦<MemSink as Sink>⟧.taken in
            WriteTakes (told self.old) (told self.new) result buf.now }
        ensures cause { let count = ⟦<MemSink as Sink>⟧.faults in
            HasCause (count self.old) (count self.new) result }
        ensures fails_exactly { IsErr result ↔
            (IsListedNext self.old.plan ⊎ MeetsFullRoom self.old buf.now) }
        ensures all_that_fit { IfOk result (λ count.
            count ≡ min (min (length buf.now) (self.old.room - length self.old.kept)) self.old.most) }
        ensures counted { self.new.plan ≡ plan_after self.old.plan result }
        ensures same_room { self.new.room ≡ self.old.room }
        ensures same_most { self.new.most ≡ self.old.most }
    {
        self.plan.begin_call()?;
        let room = self.room - self.bytes.len();
        if room == 0 && !buf.is_empty() {
            return Err(self.plan.fail());
        }
        let count = buf.len().min(room).min(self.most);
        let _ = self.bytes.extend_from_slice(&buf[..count]);
        Ok(count)
    }
}
