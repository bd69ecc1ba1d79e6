//! Why the tiles of a window are not returned.
use cyclo_points::point::Point;
use std::alloc::{AllocError, AllocFailed};
use tile_place::coord_limit::CoordLimit;
use tile_shape::address::Address;
use tile_shape::no_memory::NoMemory;

/// Why the tiles of a window are not returned.
#[derive(Debug, Drop, PartialEq, Eq)]
pub enum CoverFault {
    /// At depth 64, a tile that meets the window has this edge on the boundary, and the edge meets the window
    /// too.
    DepthLimit {
        /// The tile's address, with 64 digits.
        addr: Address,
        /// The number of the edge.
        edge: u8,
    },
    /// A value has a coefficient above 2^24 in absolute value. It is the first such value on the way to the
    /// centre, or the shift of a tile that meets the window.
    CoordLimit {
        /// The value that is refused.
        value: Point,
    },
    /// More than 200,000 tiles meet the window.
    TooManyTiles,
    /// Memory ran out.
    NoMemory,
}

impl From<NoMemory> for CoverFault {
    ghost use Rattle.std.specs.Prelude.{◌≡◌};
    ghost use Rattle.window_cover.specs.declared.cover_fault.CoverFault.TheVariants.{NoMemory};

    ghost from_gives = { λ _ fault. fault ≡ NoMemory };

    fn from(_error: NoMemory) -> CoverFault {
        CoverFault::NoMemory
    }
}

impl From<AllocError> for CoverFault {
    ghost use Rattle.std.specs.Prelude.{◌≡◌};
    ghost use Rattle.window_cover.specs.declared.cover_fault.CoverFault.TheVariants.{NoMemory};

    ghost from_gives = { λ _ fault. fault ≡ NoMemory };

    fn from(_error: AllocError) -> CoverFault {
        CoverFault::NoMemory
    }
}

impl<T: Drop> From<AllocFailed<T>> for CoverFault {
    ghost use Rattle.std.specs.Prelude.{◌≡◌};
    ghost use Rattle.window_cover.specs.declared.cover_fault.CoverFault.TheVariants.{NoMemory};

    ghost from_gives = { λ _ fault. fault ≡ NoMemory };

    fn from(_error: AllocFailed<T>) -> CoverFault {
        CoverFault::NoMemory
    }
}

impl From<CoordLimit> for CoverFault {
    ghost use Rattle.std.specs.Prelude.{◌≡◌};
    ghost use Rattle.window_cover.specs.declared.cover_fault.CoverFault.TheVariants.{CoordLimit};

    ghost from_gives = { λ limit fault. fault ≡ CoordLimit limit.value };

    fn from(limit: CoordLimit) -> CoverFault {
        CoverFault::CoordLimit { value: limit.value }
    }
}
