//! Machines by the names of built-in rules.
ghost use Rattle.std.specs.Prelude.{◌≡◌, Some, IfOk};
ghost use Rattle.call_words.specs.Choices.{name_in};
ghost use Rattle.tile_app.specs.Tilings.{builtin_tiling};
ghost use Rattle.c_values.specs.Statuses.{ok};
ghost use Rattle.tiling_c.specs.Machines.{HasMachine, ShowsOpen};

use builtin_rules::builtin::builtin;
use builtin_rules::name::Name;
use c_values::machine_slot::MachineSlot;
use c_values::shared_machine::SharedMachine;
use c_values::status::{BAD_WORDS, NO_MEMORY, OK};
use rule_model::checked::Checked;
use std::alloc::Global;
use tile_place::machine::Machine;
use tile_shape::no_memory::NoMemory;

/// The number of the header that this library was made for.
const ABI: u32 = 2;

/// Returns the number of the header that this library was made for.
#[unsafe(no_mangle)]
pub extern "C" fn tiling_abi() -> u32
    ensures { result ≡ 2 }
{
    ABI
}

/// Makes the handle of a checked rule's machine, which is never freed. Err if memory runs out.
pub(crate) fn slot_of(alloc: Global, checked: Checked) -> Result<MachineSlot, NoMemory>
    ensures { IfOk result (λ slot. slot.rule ≡ Some checked) }
{
    let machine = Machine::new(alloc, checked)?;
    let kept = Box::new(alloc, machine)?;
    Ok(MachineSlot::of(Box::leak(kept)))
}

/// Returns the built-in rule that these bytes name.
fn name_in(name: &[u8]) -> Option<Name>
    ensures { result ≡ name_in name.now }
{
    if name == b"chair".as_slice() {
        Some(Name::Chair)
    } else if name == b"p2".as_slice() {
        Some(Name::P2)
    } else if name == b"p3".as_slice() {
        Some(Name::P3)
    } else if name == b"ab".as_slice() {
        Some(Name::AmmannBeenker)
    } else if name == b"halfhex".as_slice() {
        Some(Name::HalfHex)
    } else {
        None
    }
}

/// Makes the handle of a built-in rule's machine. Err if memory runs out.
fn opened(alloc: Global, name: Name) -> Result<MachineSlot, NoMemory>
    ensures { IfOk result (λ slot. HasMachine slot (Some (builtin_tiling name))) }
{
    let checked = builtin(alloc, name)?;
    slot_of(alloc, checked)
}

/// Makes the machine of a built-in rule, named "chair", "p2", "p3", "ab" or "halfhex".
#[unsafe(no_mangle)]
pub extern "C" fn tiling_open(alloc: Global, name: &[u8], out: &mut MachineSlot) -> u8
    ensures shown { ShowsOpen name.now out.new result }
    ensures unchanged { ¬ result ≡ ok → out.new ≡ out.old }
{
    let Some(name) = name_in(name) else {
        return BAD_WORDS;
    };
    match opened(alloc, name) {
        Ok(slot) => {
            *out = slot;
            OK
        }
        Err(_) => NO_MEMORY,
    }
}

/// Makes two handles of one machine. This is what C does when it copies a handle.
#[unsafe(no_mangle)]
pub extern "C" fn tiling_share(t: SharedMachine, a: &mut MachineSlot, b: &mut MachineSlot)
    ensures first { a.new.rule ≡ Some t.rule }
    ensures second { b.new.rule ≡ Some t.rule }
{
    let machine = t.get();
    *a = MachineSlot::of(machine);
    *b = MachineSlot::of(machine);
}
