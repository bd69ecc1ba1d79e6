//! Why a listing is not right.
use cyclo_points::motion::Motion;
use cyclo_points::point::Point;
use lazy_walk::depth_limit::DepthLimit;
use listing_text::listing_fault::ListingFault;
use std::alloc::{AllocError, AllocFailed};
use tile_place::coord_limit::CoordLimit;
use tile_shape::address::Address;
use tile_shape::address_fault::AddressFault;

/// Why a list is not the list of a window. Lines are counted from 1. Faults of the text come first, in their
/// order, then those of the addresses. Of the others the walk decides.
#[derive(Debug, Drop, PartialEq, Eq)]
pub enum ListFault {
    /// There are more than 200,000 lines.
    TooLong,
    /// This line has the wrong number of fields, or a malformed one. `place` is the position of the first
    /// wrong field, counted from 0: a malformed one, or the first one too many. If a field is missing, it is
    /// the number of fields.
    BadLine {
        line: u32,
        place: u8,
    },
    /// The fields of this line are well formed, but the fourth is not the text of an address, for this fault.
    Address {
        line: u32,
        fault: AddressFault,
    },
    /// The kind of the address of this line is not the first field.
    BadKind {
        line: u32,
    },
    /// The address of this line is not of the frame.
    NotOfFrame {
        line: u32,
    },
    /// The address of this line, lifted, is that of an earlier line.
    Double {
        line: u32,
    },
    /// The tile of this address meets the window, and no line has it.
    Missing {
        addr: Address,
    },
    /// The tile of this line meets the window, and has this motion, which is not the line's.
    WrongPlace {
        line: u32,
        motion: Motion,
    },
    /// The tile of this line does not meet the window.
    Stray {
        line: u32,
    },
    /// At depth 64, a tile that meets the window has this edge on the boundary, and the edge meets the window
    /// too.
    DepthLimit {
        /// The tile's address, lifted to that depth.
        addr: Address,
        /// The number of its edge.
        edge: u8,
    },
    /// A value has a coefficient above 2^24 in absolute value: a value on the way to the centre, or the shift
    /// of a tile that meets the window.
    CoordLimit {
        /// The value.
        value: Point,
    },
    /// Memory ran out.
    NoMemory,
}

impl From<AllocError> for ListFault {
    ghost use Rattle.std.specs.Prelude.{◌≡◌};
    ghost use Rattle.list_verify.specs.declared.list_fault.ListFault.TheVariants.{NoMemory};

    ghost from_gives = { λ _ fault. fault ≡ NoMemory };

    fn from(_error: AllocError) -> ListFault {
        ListFault::NoMemory
    }
}

impl<T: Drop> From<AllocFailed<T>> for ListFault {
    ghost use Rattle.std.specs.Prelude.{◌≡◌};
    ghost use Rattle.list_verify.specs.declared.list_fault.ListFault.TheVariants.{NoMemory};

    ghost from_gives = { λ _ fault. fault ≡ NoMemory };

    fn from(_error: AllocFailed<T>) -> ListFault {
        ListFault::NoMemory
    }
}

impl From<CoordLimit> for ListFault {
    ghost use Rattle.std.specs.Prelude.{◌≡◌};
    ghost use Rattle.list_verify.specs.declared.list_fault.ListFault.TheVariants.{CoordLimit};

    ghost from_gives = { λ limit fault. fault ≡ CoordLimit limit.value };

    fn from(limit: CoordLimit) -> ListFault {
        ListFault::CoordLimit { value: limit.value }
    }
}

impl From<DepthLimit> for ListFault {
    ghost use Rattle.std.specs.Prelude.{◌≡◌};
    ghost use Rattle.list_verify.specs.declared.list_fault.ListFault.TheVariants.{DepthLimit};

    ghost from_gives = { λ limit fault. fault ≡ DepthLimit limit.addr limit.edge };

    fn from(limit: DepthLimit) -> ListFault {
        ListFault::DepthLimit {
            addr: limit.addr,
            edge: limit.edge,
        }
    }
}

impl From<ListingFault> for ListFault {
    ghost use Rattle.std.specs.Prelude.{◌≡◌};
    ghost use Rattle.list_verify.specs.Verdict.{fault_of_text};

    ghost from_gives = { λ fault own. own ≡ fault_of_text fault };

    fn from(fault: ListingFault) -> ListFault {
        match fault {
            ListingFault::TooLong => ListFault::TooLong,
            ListingFault::BadLine { line, place } => ListFault::BadLine { line, place },
            ListingFault::Address { line, fault } => ListFault::Address { line, fault },
            ListingFault::BadKind { line } => ListFault::BadKind { line },
            ListingFault::NoMemory => ListFault::NoMemory,
        }
    }
}
