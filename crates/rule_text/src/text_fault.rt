use crate::key::Key;
use crate::place::Place;
use std::alloc::{AllocError, AllocFailed};
use tile_shape::no_memory::NoMemory;

/// Why a text does not stand for a rule: its first fault, in the order of the format.
#[derive(Clone, Copy, Debug, PartialEq, Eq)]
pub enum TextFault {
    /// The bytes are not a TOML document.
    NotToml,
    /// This key is missing.
    Missing { key: Key },
    /// The value of this key has the wrong form.
    WrongType { key: Key },
    /// A number in the value of this key is out of range.
    OutOfRange { key: Key },
    /// This table has a key that the format does not.
    UnknownKey { place: Place },
    /// Memory ran out during reading.
    NoMemory,
}

impl From<AllocError> for TextFault {
    ghost use Rattle.std.specs.Prelude.{◌≡◌};
    ghost use Rattle.rule_text.specs.declared.text_fault.TextFault.TheVariants.{NoMemory};

    ghost from_gives = { λ _ fault. fault ≡ NoMemory };

    fn from(_error: AllocError) -> TextFault {
        TextFault::NoMemory
    }
}

impl From<NoMemory> for TextFault {
    ghost use Rattle.std.specs.Prelude.{◌≡◌};
    ghost use Rattle.rule_text.specs.declared.text_fault.TextFault.TheVariants.{NoMemory};

    ghost from_gives = { λ _ fault. fault ≡ NoMemory };

    fn from(_error: NoMemory) -> TextFault {
        TextFault::NoMemory
    }
}

impl<T: Drop> From<AllocFailed<T>> for TextFault {
    ghost use Rattle.std.specs.Prelude.{◌≡◌};
    ghost use Rattle.rule_text.specs.declared.text_fault.TextFault.TheVariants.{NoMemory};

    ghost from_gives = { λ _ fault. fault ≡ NoMemory };

    fn from(_error: AllocFailed<T>) -> TextFault {
        TextFault::NoMemory
    }
}
