// Why a kept journal isn't read.
ghost use Rattle.std.specs.Prelude.{◌≡◌};
ghost use Rattle.kept_journal.specs.declared.faults.KeptFault.TheVariants.{NoMemory as OutOfMemory};

use kms_names::NoMemory;

/// Why a kept journal isn't read.
#[derive(Clone, Copy, Debug, PartialEq, Eq)]
pub enum KeptFault {
    /// The first line that hasn't its form or its seal, or doesn't fit, counted from 1.
    At(u64),
    /// All lines are right, and the boot number of the facts isn't above the last start.
    OldBoot,
    /// A growth of memory was refused.
    NoMemory,
}

impl From<NoMemory> for KeptFault {
    ghost from_gives = { λ _ e. e ≡ OutOfMemory };

    fn from(_e: NoMemory) -> KeptFault {
        KeptFault::NoMemory
    }
}
