//! Room for the handle of a machine.
ghost use Rattle.std.specs.Prelude.{◌≡◌, Some};
ghost use Rattle.std.specs.declared.option.Option.{Option};
ghost use Rattle.rule_model.specs.declared.rule.Rule.{Rule};
ghost use Rattle.tile_place.specs.contracts.machine.Machine.{the_row};
ghost use Rattle.c_values.specs.Shared.{slot_at};

use crate::opaque::Opaque;
use std::marker::Model;
use tile_place::machine::Machine;

/// Room for a handle, in which C may have left any bytes. Contracts see the rule of the machine whose handle
/// a call has put there, or None.
#[repr(C)]
#[derive(Drop)]
pub struct MachineSlot {
    at: *const Opaque,
    pub ghost rule: { Option Rule },
}

impl Model for MachineSlot {
    ghost also_owns = { λ h. slot_at the_row h.at h.rule };
}

impl MachineSlot {
    /// Makes a slot with the handle of a machine that is never freed.
    pub fn of(machine: &'static Machine) -> MachineSlot
        ensures { result.rule ≡ Some machine.now }
    {
        MachineSlot {
            at: machine as *const Machine as *const Opaque,
        }
    }
}
