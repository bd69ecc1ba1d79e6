//! The machines of the built-in rules.
use builtin_rules::builtin::builtin;
use builtin_rules::name::Name;
use std::alloc::Global;
use tile_place::machine::Machine;
use tile_shape::no_memory::NoMemory;

/// The built-in rules.
pub const NAMES: [Name; 5] = [
    Name::Chair,
    Name::P2,
    Name::P3,
    Name::AmmannBeenker,
    Name::HalfHex,
];

/// Returns the machine of a built-in rule, in a box. A trial that holds the box drops one value, which is
/// proved much sooner than the drop of all its parts.
pub fn machine_of(alloc: Global, name: Name) -> Result<Box<Machine>, NoMemory> {
    let machine = Machine::new(alloc, builtin(alloc, name)?)?;
    Ok(Box::new(alloc, machine)?)
}
