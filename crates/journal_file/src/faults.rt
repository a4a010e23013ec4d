// Why a journal isn't read.
ghost use Rattle.std.specs.Prelude.{◌≡◌};
ghost use Rattle.journal_file.specs.declared.faults.JournalFault.TheVariants.{NoMemory as OutOfMemory};

use kms_names::NoMemory;

/// Why a journal isn't read.
#[derive(Clone, Copy, Debug, PartialEq, Eq)]
pub enum JournalFault {
    /// The first fault is at this line, counted from 1.
    At(u64),
    /// All lines are right, and the boot number of the first line isn't below that of the facts.
    OldBoot,
    /// A growth of memory was refused.
    NoMemory,
}

impl From<NoMemory> for JournalFault {
    ghost from_gives = { λ _ e. e ≡ OutOfMemory };

    fn from(_e: NoMemory) -> JournalFault {
        JournalFault::NoMemory
    }
}
