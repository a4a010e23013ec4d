// A store of one file in memory.
ghost use Rattle.std.specs.Prelude.{◌≡◌, [], IfOk};

use crate::opening::{begin, facts_of_start, read_file};
use account_core::Account;
use account_steps::RealmFacts;
use keepers::{Store, Unopened};
use kept_journal::KeptJournal;
use kept_log::{Memory, Mixing};
use std::alloc::{AllocError, Global};

/// One file in memory. After so many calls its device fails.
#[derive(Drop)]
pub struct MemoryStore<'a> {
    name: &'a str,
    bytes: &'a [u8],
    seconds: u64,
    calls_left: u64,
    back: Option<KeptJournal<Memory<Mixing>>>,
}

// A copy of these bytes.
fn copy_of(alloc: Global, bytes: &[u8]) -> Result<Vec<u8>, AllocError>
    ensures { IfOk result (λ copy. copy.items ≡ bytes.now) }
{
    let mut copy = Vec::with_capacity(alloc, bytes.len())?;
    copy.extend_from_slice(bytes)?;
    Ok(copy)
}

impl<'a> MemoryStore<'a> {
    /// A file of this name with these bytes, opened so many seconds after 1970, on a device that fails after so many calls.
    pub fn new(name: &'a str, bytes: &'a [u8], seconds: u64, calls_left: u64) -> MemoryStore<'a> {
        MemoryStore {
            name,
            bytes,
            seconds,
            calls_left,
            back: None,
        }
    }

    // The device of the file, and its bytes.
    fn device(&self, alloc: Global) -> Result<(Memory<Mixing>, Vec<u8>), AllocError>
        ensures { IfOk result (λ r. (r.0.bytes.items ≡ r.1.items) × (r.0.start.items ≡ r.1.items) × (r.0.steps.items ≡ [])) }
    {
        let device = Memory::<Mixing>::new(alloc, copy_of(alloc, self.bytes)?, self.calls_left)?;
        let bytes = copy_of(alloc, self.bytes)?;
        Ok((device, bytes))
    }
}

impl Store for MemoryStore<'_> {
    ghost use Rattle.std.specs.Prelude.{None, refl};
    ghost use Rattle.kept_store.specs.Files.{HasNoLine, HasFault};

    type Keeper = KeptJournal<Memory<Mixing>>;

    ghost files = { λ store name. None };

    ghost is_new = { λ bytes. HasNoLine bytes };

    ghost is_faulty = { λ facts bytes line. HasFault facts bytes line };

    ghost back = { λ store. store.back };

    fn open(
        &mut self,
        alloc: Global,
        name: &str,
        facts: RealmFacts,
    ) -> Result<(Account, KeptJournal<Memory<Mixing>>), Unopened> {
        if name != self.name {
            return Err(Unopened::Failed);
        }
        let Ok((device, bytes)) = self.device(alloc) else {
            return Err(Unopened::NoMemory);
        };
        let facts = facts_of_start(facts, &bytes, self.seconds)?;
        let read = read_file(alloc, facts, &bytes)?;
        let journal = begin(alloc, device, &bytes, &read)?;
        Ok((read.account, journal))
    }

    fn close(&mut self, keeper: KeptJournal<Memory<Mixing>>) {
        self.back = Some(keeper);
    }

    ghost does_keep = { refl };
}
