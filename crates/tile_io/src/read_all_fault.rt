//! Why a reading of all bytes is refused.
use crate::failed::Failed;
use std::alloc::AllocError;

/// Why not all bytes of a source were read.
#[derive(Clone, Copy, Debug, PartialEq, Eq)]
pub enum ReadAllFault {
    /// There are more bytes than were asked for; one more was read.
    TooLong,
    /// A call of the source failed.
    Fault,
    /// Memory ran out.
    NoMemory,
}

impl From<Failed> for ReadAllFault {
    ghost use Rattle.std.specs.Prelude.{◌≡◌};
    ghost use Rattle.tile_io.specs.declared.read_all_fault.ReadAllFault.TheVariants.{Fault};

    ghost from_gives = { λ _ fault. fault ≡ Fault };

    fn from(_failed: Failed) -> ReadAllFault {
        ReadAllFault::Fault
    }
}

impl From<AllocError> for ReadAllFault {
    ghost use Rattle.std.specs.Prelude.{◌≡◌};
    ghost use Rattle.tile_io.specs.declared.read_all_fault.ReadAllFault.TheVariants.{NoMemory};

    ghost from_gives = { λ _ fault. fault ≡ NoMemory };

    fn from(_error: AllocError) -> ReadAllFault {
        ReadAllFault::NoMemory
    }
}
