// Files of the operating system as a store.
ghost use Rattle.std.specs.Prelude.{◌≡◌, ◌∷◌, [], ℕ, Err, IfOk};
ghost use Rattle.kept_file.specs.declared.record.Call.TheVariants.{Held};
ghost use Rattle.keepers.specs.declared.stores.Unopened.TheVariants.{At};

use crate::opening::{begin, facts_of_start, read_file};
use account_core::Account;
use account_steps::RealmFacts;
use keepers::{Store, Unopened};
use kept_file::{FileDevice, OpenError, keep_torn};
use kept_journal::{KeptJournal, torn};
use kept_log::Mixing;
use kms_io::{Clock, SystemClock};
use std::alloc::Global;

/// Files of the operating system, each locked while it is open, whose changes are lines that are on the disk when they are answered.
/// Why a file isn't opened is said on standard error.
#[derive(Drop)]
pub struct FileStore<'a> {
    rt: &'a HostRuntime,
    back: Option<KeptJournal<FileDevice<Mixing>>>,
}

impl<'a> FileStore<'a> {
    /// Files of this machine.
    pub fn new(rt: &'a HostRuntime) -> FileStore<'a> {
        FileStore { rt, back: None }
    }

    // The device of a file, and its bytes.
    fn device(&self, alloc: Global, name: &str) -> Result<(FileDevice<Mixing>, Vec<u8>), Unopened>
        ensures held { IfOk result (λ r. r.0 ≡ record { calls = (Held, r.1.items) ∷ []; faults = 0 }) }
        ensures fault { (line : ℕ) → result ≡ Err (At line) → ⊥ }
    {
        match FileDevice::<Mixing>::open(self.rt, alloc, name) {
            Ok(opened) => Ok(opened),
            Err(OpenError::TooLong) => Err(Unopened::TooLong),
            Err(OpenError::NoMemory) => Err(Unopened::NoMemory),
            Err(error) => {
                let _ = eprintln!(self.rt; "{name}: {error}");
                Err(Unopened::Failed)
            }
        }
    }

    // Puts what stands behind the lines into a file beside it, and says so.
    fn put_aside(&self, alloc: Global, name: &str, bytes: &[u8]) -> Result<(), Unopened>
        ensures fault { (line : ℕ) → result ≡ Err (At line) → ⊥ }
    {
        let behind = torn(bytes);
        if behind.is_empty() {
            return Ok(());
        }
        let size = behind.len();
        match keep_torn(self.rt, alloc, name, behind) {
            Ok(()) => {
                let _ = eprintln!(self.rt;
                    "{name}: {size} bytes behind its last line are in {name}.torn now"
                );
                Ok(())
            }
            Err(error) => {
                let _ = eprintln!(self.rt; "{name}.torn: {error}");
                Err(Unopened::Failed)
            }
        }
    }
}

impl Store for FileStore<'_> {
    ghost use Rattle.std.specs.Prelude.{None, refl};
    ghost use Rattle.kept_store.specs.Files.{HasNoLine, HasFault};

    type Keeper = KeptJournal<FileDevice<Mixing>>;

    ghost files = { λ store name. None };

    ghost is_new = { λ bytes. HasNoLine bytes };

    ghost is_faulty = { λ facts bytes line. HasFault facts bytes line };

    ghost back = { λ store. store.back };

    fn open(
        &mut self,
        alloc: Global,
        name: &str,
        facts: RealmFacts,
    ) -> Result<(Account, KeptJournal<FileDevice<Mixing>>), Unopened> {
        let (device, bytes) = self.device(alloc, name)?;
        let seconds = SystemClock::new(self.rt).now();
        let facts = facts_of_start(facts, &bytes, seconds)?;
        let read = read_file(alloc, facts, &bytes)?;
        self.put_aside(alloc, name, &bytes)?;
        let journal = begin(alloc, device, &bytes, &read)?;
        Ok((read.account, journal))
    }

    fn close(&mut self, keeper: KeptJournal<FileDevice<Mixing>>) {
        self.back = Some(keeper);
    }

    ghost does_keep = { refl };
}
