//! Why a script is refused.
use cyclo_points::point::Point;
use std::alloc::{AllocError, AllocFailed};
use tile_shape::address_fault::AddressFault;
use tile_shape::no_memory::NoMemory;

/// The fault of a line of a script. Lines are counted from 1, with empty ones and comments.
#[derive(Clone, Copy, Debug, PartialEq, Eq)]
pub enum CalcFault {
    /// The line does not have the form of its command. `place` is the position, counted from 0, of the first
    /// field that is malformed or one too many. If a field is missing, it is the number of fields.
    BadLine { line: u32, place: u8 },
    /// A name that the line reads is not bound.
    UnknownName { line: u32 },
    /// The text is not an address.
    Address { line: u32, fault: AddressFault },
    /// The tile does not have that edge.
    NoEdge { line: u32 },
    /// The edge lies on this edge of the supertile, in this part of it.
    Outside { line: u32, edge: u8, part: u8 },
    /// A value on the way to the tile has a coefficient above 2^24 in absolute value; this is the first such
    /// value.
    CoordLimit { line: u32, value: Point },
    /// Memory ran out.
    NoMemory,
}

impl From<AllocError> for CalcFault {
    ghost use Rattle.std.specs.Prelude.{◌≡◌};
    ghost use Rattle.addr_calc.specs.declared.calc_fault.CalcFault.TheVariants.{NoMemory};

    ghost from_gives = { λ _ fault. fault ≡ NoMemory };

    fn from(_error: AllocError) -> CalcFault {
        CalcFault::NoMemory
    }
}

impl<T: Drop> From<AllocFailed<T>> for CalcFault {
    ghost use Rattle.std.specs.Prelude.{◌≡◌};
    ghost use Rattle.addr_calc.specs.declared.calc_fault.CalcFault.TheVariants.{NoMemory};

    ghost from_gives = { λ _ fault. fault ≡ NoMemory };

    fn from(_error: AllocFailed<T>) -> CalcFault {
        CalcFault::NoMemory
    }
}

impl From<NoMemory> for CalcFault {
    ghost use Rattle.std.specs.Prelude.{◌≡◌};
    ghost use Rattle.addr_calc.specs.declared.calc_fault.CalcFault.TheVariants as faults;

    ghost from_gives = { λ _ fault. fault ≡ faults.NoMemory };

    fn from(_error: NoMemory) -> CalcFault {
        CalcFault::NoMemory
    }
}
