//! Why a listing is not read.
use std::alloc::{AllocError, AllocFailed};
use tile_shape::address_fault::AddressFault;

/// The first fault of a list. Lines are counted from 1.
#[derive(Clone, Copy, Debug, PartialEq, Eq)]
pub enum ListingFault {
    /// There are more than 200,000 lines.
    TooLong,
    /// This line has the wrong number of fields, or a malformed one. `place` is the position of the first
    /// wrong field, counted from 0: a malformed one, or the first one too many. If a field is missing, it is
    /// the number of fields.
    BadLine { line: u32, place: u8 },
    /// The fields are well formed, but the fourth is not the text of an address, for this fault.
    Address { line: u32, fault: AddressFault },
    /// The kind of the address is not the first field.
    BadKind { line: u32 },
    /// Memory ran out.
    NoMemory,
}

impl From<AllocError> for ListingFault {
    ghost use Rattle.std.specs.Prelude.{◌≡◌};
    ghost use Rattle.listing_text.specs.declared.listing_fault.ListingFault.TheVariants.{NoMemory};

    ghost from_gives = { λ _ fault. fault ≡ NoMemory };

    fn from(_error: AllocError) -> ListingFault {
        ListingFault::NoMemory
    }
}

impl<T: Drop> From<AllocFailed<T>> for ListingFault {
    ghost use Rattle.std.specs.Prelude.{◌≡◌};
    ghost use Rattle.listing_text.specs.declared.listing_fault.ListingFault.TheVariants.{NoMemory};

    ghost from_gives = { λ _ fault. fault ≡ NoMemory };

    fn from(_error: AllocFailed<T>) -> ListingFault {
        ListingFault::NoMemory
    }
}
