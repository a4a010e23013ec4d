ghost use Rattle.std.specs.Prelude.{◌≡◌};
ghost use Rattle.kms_names.specs.declared.faults.NameFault.TheVariants.{NoMemory as OutOfMemory};

use std::alloc::{AllocError, AllocFailed};

/// A growth of memory was refused.
#[derive(Clone, Copy, Debug, PartialEq, Eq)]
pub struct NoMemory;

impl From<AllocError> for NoMemory {
    fn from(_e: AllocError) -> NoMemory {
        NoMemory
    }
}

impl<T: Drop> From<AllocFailed<T>> for NoMemory {
    fn from(_e: AllocFailed<T>) -> NoMemory {
        NoMemory
    }
}

/// Why a text isn't taken as a name.
#[derive(Clone, Copy, Debug, PartialEq, Eq)]
pub enum NameFault {
    /// The text isn't an ARN of the form that is wanted.
    BadArn,
    /// The text begins `alias/` and isn't an alias name.
    BadAlias,
    /// The text isn't a hyphenated id.
    BadId,
    /// A growth of memory was refused.
    NoMemory,
}

impl From<NoMemory> for NameFault {
    ghost from_gives = { λ _ e. e ≡ OutOfMemory };

    fn from(_e: NoMemory) -> NameFault {
        NameFault::NoMemory
    }
}
