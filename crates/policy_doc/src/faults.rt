ghost use Rattle.std.specs.Prelude.{◌≡◌};
ghost use Rattle.policy_doc.specs.declared.faults.PolicyFault.TheVariants.{NoMemory as OutOfMemory};

use kms_names::{NoMemory, Text};
use std::alloc::AllocFailed;

/// Why a policy isn't taken. The text is a JSON pointer (RFC 6901) to the place of the fault.
#[derive(Debug, Drop)]
pub enum PolicyFault {
    /// The document has more than 32,768 bytes.
    TooLong,
    /// The bytes are no JSON.
    NotJson,
    /// The value at this place departs from the grammar, or lacks there.
    BadShape(Text),
    /// The value at this place belongs to a part of the grammar that isn't served.
    Unsupported(Text),
    /// A growth of memory was refused.
    NoMemory,
}

impl From<NoMemory> for PolicyFault {
    ghost from_gives = { λ _ e. e ≡ OutOfMemory };

    fn from(_e: NoMemory) -> PolicyFault {
        PolicyFault::NoMemory
    }
}

impl<T: Drop> From<AllocFailed<T>> for PolicyFault {
    ghost from_gives = { λ _ e. e ≡ OutOfMemory };

    fn from(_e: AllocFailed<T>) -> PolicyFault {
        PolicyFault::NoMemory
    }
}

/// How a value departs from the grammar.
#[derive(Clone, Copy)]
pub enum Departure {
    BadShape,
    Unsupported,
}
