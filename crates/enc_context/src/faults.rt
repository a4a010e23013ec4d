ghost use Rattle.std.specs.Prelude.{◌≡◌};
ghost use Rattle.enc_context.specs.declared.faults.ContextFault.TheVariants.{NoMemory as OutOfMemory};

use kms_names::NoMemory;
use std::alloc::AllocError;

/// Why pairs aren't taken as a context.
#[derive(Clone, Copy, Debug, PartialEq, Eq)]
pub enum ContextFault {
    /// The encoding would have more than 8,192 bytes.
    TooLong,
    /// A growth of memory was refused.
    NoMemory,
}

impl From<NoMemory> for ContextFault {
    ghost from_gives = { λ _ e. e ≡ OutOfMemory };

    fn from(_e: NoMemory) -> ContextFault {
        ContextFault::NoMemory
    }
}

impl From<AllocError> for ContextFault {
    ghost from_gives = { λ _ e. e ≡ OutOfMemory };

    fn from(_e: AllocError) -> ContextFault {
        ContextFault::NoMemory
    }
}
