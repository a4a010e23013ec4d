// The journal as what keeps an account's history.
use crate::journal::KeptJournal;
use account_rows::Entry;
use keepers::{Keeps, Unmade};
use kept_log::{Device, KeepFault};
use std::alloc::Global;

impl<D: Device + Drop> Keeps for KeptJournal<D> {
    ghost use Rattle.std.specs.Prelude.{true};
    ghost use Rattle.kept_journal.specs.Keeping.{TellsEntries, ReadsEntries};

    ghost keeps = { true };

    ghost tells = { λ facts journal history. TellsEntries facts journal history };

    ghost is_open = { λ journal. journal.log.is_open };

    ghost moment = { λ journal. D.moment journal.log.device };

    ghost left_since = { λ journal. D.left_since journal.log.device };

    ghost reads = { λ facts file history. ReadsEntries facts file history };

    /// Where the file would have more than 2^31 bytes with this change, the journal is shut.
    fn keep(&mut self, alloc: Global, entry: &Entry) -> Result<(), Unmade> {
        match self.keep_change(alloc, entry) {
            Ok(()) => Ok(()),
            Err(KeepFault::NoMemory) => Err(Unmade::NoMemory),
            Err(KeepFault::Full) => {
                self.close();
                Err(Unmade::Unkept)
            }
            Err(KeepFault::Failed) => Err(Unmade::Unkept),
            Err(KeepFault::Shut) => Err(Unmade::Unkept),
        }
    }

    fn shut(&mut self) -> Unmade {
        self.close();
        Unmade::Unkept
    }
}
