//! Why tiles are not glued.
use cyclo_points::point::Point;
use lazy_walk::depth_limit::DepthLimit;
use std::alloc::{AllocError, AllocFailed};
use tile_shape::address::Address;
use tile_shape::no_memory::NoMemory;

/// Why no whole tiles are returned.
#[derive(Debug, Drop, PartialEq, Eq)]
pub enum GlueFault {
    /// The glue edge of a given tile is on the boundary at depth 64.
    DepthLimit {
        /// The tile's address, with 64 digits.
        addr: Address,
        /// The number of its glue edge.
        edge: u8,
    },
    /// The tile across the glue edge of a given tile has a shift with a coefficient above 2^24 in absolute
    /// value.
    CoordLimit {
        /// That shift.
        value: Point,
    },
    /// Memory ran out.
    NoMemory,
}

impl From<NoMemory> for GlueFault {
    ghost use Rattle.std.specs.Prelude.{◌≡◌};
    ghost use Rattle.half_glue.specs.declared.glue_fault.GlueFault.TheVariants.{NoMemory};

    ghost from_gives = { λ _ fault. fault ≡ NoMemory };

    fn from(_error: NoMemory) -> GlueFault {
        GlueFault::NoMemory
    }
}

impl From<AllocError> for GlueFault {
    ghost use Rattle.std.specs.Prelude.{◌≡◌};
    ghost use Rattle.half_glue.specs.declared.glue_fault.GlueFault.TheVariants.{NoMemory};

    ghost from_gives = { λ _ fault. fault ≡ NoMemory };

    fn from(_error: AllocError) -> GlueFault {
        GlueFault::NoMemory
    }
}

impl<T: Drop> From<AllocFailed<T>> for GlueFault {
    ghost use Rattle.std.specs.Prelude.{◌≡◌};
    ghost use Rattle.half_glue.specs.declared.glue_fault.GlueFault.TheVariants.{NoMemory};

    ghost from_gives = { λ _ fault. fault ≡ NoMemory };

    fn from(_error: AllocFailed<T>) -> GlueFault {
        GlueFault::NoMemory
    }
}

impl From<DepthLimit> for GlueFault {
    ghost use Rattle.std.specs.Prelude.{◌≡◌};
    ghost use Rattle.half_glue.specs.declared.glue_fault.GlueFault.TheVariants.{DepthLimit};

    ghost from_gives = { λ limit fault. fault ≡ DepthLimit limit.addr limit.edge };

    fn from(limit: DepthLimit) -> GlueFault {
        GlueFault::DepthLimit {
            addr: limit.addr,
            edge: limit.edge,
        }
    }
}
