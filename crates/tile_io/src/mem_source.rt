//! A source in memory that fails by a list.
ghost use Rattle.std.specs.Prelude.{◌≡◌, ◌↔◌, ◌≤◌, Some, IsErr, IfOk, min, length};
ghost use Rattle.std.specs.Io.{ReadsAtMost};
ghost use Rattle.tile_io.specs.Causes.{HasCause};
ghost use Rattle.tile_io.specs.Left.{ReadGives, EndsExactly};
ghost use Rattle.tile_io.specs.Mem.{first_given};
ghost use Rattle.tile_io.specs.Plan.{plan_after, IsListedNext};

use crate::failed::Failed;
use crate::fault_plan::FaultPlan;
use crate::source::Source;
use std::marker::Model;

/// A source in memory that gives its bytes in small pieces, and fails at the calls that are listed.
#[derive(Drop)]
pub struct MemSource {
    bytes: Vec<u8>,
    at: usize,
    most: usize,
    plan: FaultPlan,
}

impl Model for MemSource {
    ghost use Rattle.std.specs.Prelude.{drop, ◌≤◌, vec_len};
    ghost use Rattle.tile_io.specs.Mem.{MemGiven};

    ghost Value = { MemGiven };

    ghost view = { λ s. record { left = drop s.at s.bytes.items; most = s.most; plan = s.plan } };

    ghost invariant = { λ s. (s.at ≤ vec_len s.bytes) × (1 ≤ s.most) };
}

impl MemSource {
    /// Makes a source that gives `bytes`, at most `most` of them a call. It fails at the calls whose numbers
    /// are in `fails`. The first call is number 1. Calls are counted in a u64: none after number 2 ^ 64 - 1
    /// fails.
    pub fn new(bytes: Vec<u8>, most: usize, fails: Vec<u64>) -> MemSource
        requires gives_some { 1 ≤ most }
        ensures begins { result ≡ first_given bytes.items most fails.items }
        ensures tells { ⟦<MemSource as Source>⟧.left result ≡ Some bytes.items }
        ensures no_faults { ⟦<MemSource as Source>⟧.faults result ≡ 0 }
    {
        MemSource {
            bytes,
            at: 0,
            most,
            plan: FaultPlan::new(fails),
        }
    }

    fn left(&self) -> &[u8]
        ensures { result.now ≡ self.now.left }
    {
        &self.bytes[self.at..]
    }
}

impl Source for MemSource {
    ghost left = { λ source. Some source.left };

    ghost faults = { λ source. source.plan.faults };

    /// Gives as many bytes as there are, as a call gives, and as `buf` has room for.
    fn read(&mut self, buf: &mut [u8]) -> Result<usize, Failed>
        ensures within { ReadsAtMost result buf.new }
        ensures gives { let told = ⟦<MemSource as Source>⟧.left in
            ReadGives (told self.old) (told self.new) result buf.new }
        ensures ends { EndsExactly (⟦<MemSource as Source>⟧.left self.old) result buf.new }
        ensures cause { let count = ⟦<MemSource as Source>⟧.faults in
            HasCause (count self.old) (count self.new) result }
        ensures fails_as_listed { IsErr result ↔ IsListedNext self.old.plan }
        ensures all_that_fit { IfOk result (λ count.
            count ≡ min (min (length buf.new) (length self.old.left)) self.old.most) }
        ensures counted { self.new.plan ≡ plan_after self.old.plan result }
        ensures same_most { self.new.most ≡ self.old.most }
    {
        self.plan.begin_call()?;
        let left = self.left();
        let count = buf.len().min(left.len()).min(self.most);
        buf[..count].copy_from_slice(&left[..count]);
        self.at += count;
        Ok(count)
    }
}
