//! Which calls fail by a list of their numbers.
ghost use Rattle.std.specs.Prelude.{◌≡◌, ◌↔◌, ◌≤◌, IsErr};
ghost use Rattle.tile_io.specs.Causes.{HasCause, next_count};
ghost use Rattle.tile_io.specs.Plan.{first_plan, plan_after, IsListedNext};

use crate::failed::Failed;
use std::marker::Model;

/// The numbers of the calls that fail, counted from 1, with the counts of calls and of faults.
///
/// Both counts stay at 2 ^ 64 - 1 once they are there, and no later call fails by the list.
#[derive(Drop)]
pub(crate) struct FaultPlan {
    fails: Vec<u64>,
    calls: u64,
    faults: u64,
}

impl Model for FaultPlan {
    ghost use Rattle.tile_io.specs.Plan.{Plan};

    ghost Value = { Plan };

    ghost view = { λ p. record { fails = p.fails.items; calls = p.calls; faults = p.faults } };
}

impl FaultPlan {
    /// Makes the plan by which the calls of these numbers fail.
    pub(crate) fn new(fails: Vec<u64>) -> FaultPlan
        ensures { result ≡ first_plan fails.items }
    {
        FaultPlan {
            fails,
            calls: 0,
            faults: 0,
        }
    }

    /// Counts a call, which fails if its number is listed.
    pub(crate) fn begin_call(&mut self) -> Result<(), Failed>
        ensures listed { IsErr result ↔ IsListedNext self.old }
        ensures counted { self.new ≡ plan_after self.old result }
        ensures cause { HasCause self.old.faults self.new.faults result }
    {
        let next = self.calls.checked_add(1);
        self.calls = self.calls.saturating_add(1);
        match next {
            Some(number) if self.fails.contains(&number) => Err(self.fail()),
            _ => Ok(()),
        }
    }

    /// Counts a failure of the call that was counted last.
    pub(crate) fn fail(&mut self) -> Failed
        ensures counted { self.new ≡ record self.old { faults = next_count self.old.faults } }
        ensures never_falls { self.old.faults ≤ self.new.faults }
    {
        self.faults = self.faults.saturating_add(1);
        Failed
    }
}
