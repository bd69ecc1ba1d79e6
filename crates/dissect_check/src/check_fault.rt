use crate::what::What;
use std::alloc::{AllocError, AllocFailed};
use tile_shape::no_memory::NoMemory;

/// Why a rule is refused: the first clause that fails, at its first place. Kinds, types, children, edges and
/// parts are counted from 0.
#[derive(Clone, Copy, Debug, PartialEq, Eq)]
pub enum CheckFault {
    /// A count or a number is beyond a limit.
    TooMany { what: What },
    /// The prototile is not star-shaped as seen from its vertex 0.
    NotStar { kind: u8 },
    /// The rule's edition does not take the inflation factor, or its powers grow too slowly.
    WrongFactor,
    /// The mate of the type's mate is another type.
    BadMate { ty: u8 },
    /// The edge is not as long as the first edge of its type or of its mate.
    BadLength { kind: u8, edge: u8 },
    /// The mate's subdivision is not the type's, mirrored.
    BadSubdivision { ty: u8 },
    /// The child edge neither meets exactly one other edge, of the mate type, nor lies on the boundary.
    ChildEdgeLoose { kind: u8, child: u8, edge: u8 },
    /// The boundary child edges of the inflated edge are not its parts, from this part on.
    BoundaryWrong { kind: u8, edge: u8, part: u8 },
    /// No child is of this kind.
    Unused { kind: u8 },
    /// The glue type does not glue two halves.
    GlueWrong { ty: u8 },
    /// Memory ran out.
    NoMemory,
}

impl From<AllocError> for CheckFault {
    ghost use Rattle.std.specs.Prelude.{◌≡◌};
    ghost use Rattle.dissect_check.specs.declared.check_fault.CheckFault.TheVariants.{NoMemory};

    ghost from_gives = { λ _ fault. fault ≡ NoMemory };

    fn from(_error: AllocError) -> CheckFault {
        CheckFault::NoMemory
    }
}

impl From<NoMemory> for CheckFault {
    ghost use Rattle.std.specs.Prelude.{◌≡◌};
    ghost use Rattle.dissect_check.specs.declared.check_fault.CheckFault.TheVariants.{NoMemory};

    ghost from_gives = { λ _ fault. fault ≡ NoMemory };

    fn from(_error: NoMemory) -> CheckFault {
        CheckFault::NoMemory
    }
}

impl<T: Drop> From<AllocFailed<T>> for CheckFault {
    ghost use Rattle.std.specs.Prelude.{◌≡◌};
    ghost use Rattle.dissect_check.specs.declared.check_fault.CheckFault.TheVariants.{NoMemory};

    ghost from_gives = { λ _ fault. fault ≡ NoMemory };

    fn from(_error: AllocFailed<T>) -> CheckFault {
        CheckFault::NoMemory
    }
}
