//! The handle of a machine.
ghost use Rattle.std.specs.Prelude.{◌≡◌};
ghost use Rattle.rule_model.specs.declared.rule.Rule.{Rule};
ghost use Rattle.tile_place.specs.contracts.machine.Machine.{the_row};
ghost use Rattle.c_values.specs.Shared.{shared_at};

use crate::opaque::Opaque;
use std::marker::{Model, Send};
use tile_place::machine::Machine;

/// The handle of a machine that is never freed. Contracts see the rule of the machine. C sees a pointer,
/// which any number of threads may pass to calls.
#[repr(C)]
#[derive(Drop)]
pub struct SharedMachine {
    at: *const Opaque,
    pub ghost rule: { Rule },
}

impl Model for SharedMachine {
    ghost also_owns = { λ h. shared_at the_row h.at h.rule };
}

unsafe impl Send for SharedMachine {}

impl SharedMachine {
    /// Makes the handle of a machine that is never freed.
    pub fn of(machine: &'static Machine) -> SharedMachine
        ensures { result.rule ≡ machine.now }
    {
        SharedMachine {
            at: machine as *const Machine as *const Opaque,
        }
    }

    /// Returns the machine of a handle.
    pub fn get(self) -> &'static Machine
        ensures { result.now ≡ self.rule }
    {
        unsafe { &*(self.at as *const Machine) }
    }
}

/// Returns the same value. Its type must allow values to go to another thread.
pub fn sent<T: Send>(value: T) -> T
    ensures { result ≡ value }
{
    value
}
