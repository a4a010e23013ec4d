// A device whose bytes were read, begun anew.
ghost use Rattle.std.specs.Prelude.{◌≡◌, ◌≤◌, ℕ, List, length, Err, IfOk, IsTrue};
ghost use Rattle.account_core.specs.Fitting.{IsHeld};
ghost use Rattle.kept_log.specs.Device.{Only};
ghost use Rattle.kept_journal.specs.Keeping.{IsKeptJournal};
ghost use Rattle.kept_journal.specs.Lost.{IsFileFault};
ghost use Rattle.kept_journal.specs.Reading.{IsReading};
ghost use Rattle.kept_journal.specs.Starts.{entries_of};
ghost use Rattle.kept_journal.specs.declared.told.Told.{Told};
ghost use Rattle.kept_journal.specs.declared.faults.KeptFault.TheVariants.{At as FaultAt};
ghost use Rattle.keepers.specs.declared.stores.Unopened.TheVariants.{At};

use account_steps::RealmFacts;
use keepers::Unopened;
use kept_journal::{KeptFault, KeptJournal, Read, next_boot, open_kept, read_kept};
use kept_log::{Device, KeepFault};
use std::alloc::Global;

/// The facts under a boot number above each under which the file was opened before, no less than theirs, and no less than the seconds
/// since 1970.
pub fn facts_of_start(facts: RealmFacts, bytes: &[u8], seconds: u64) -> Result<RealmFacts, Unopened>
    ensures later { IfOk result (λ later. (later ≡ record facts { boot = later.boot }) × (facts.boot ≤ later.boot)) }
    ensures fault { (line : ℕ) → result ≡ Err (At line) → ⊥ }
{
    let Some(boot) = next_boot(bytes, facts.boot, seconds) else {
        return Err(Unopened::OldBoot);
    };
    let mut later = facts;
    later.boot = boot;
    Ok(later)
}

/// What is read of the bytes of a file, by an account of these facts.
pub fn read_file(alloc: Global, facts: RealmFacts, bytes: &[u8]) -> Result<Read, Unopened>
    ensures reading { IfOk result (λ read. (told : List Told) × IsReading facts bytes.now told read) }
    ensures held { IfOk result (λ read. IsHeld read.account.facts read.account.entries) }
    ensures fault { (line : ℕ) → result ≡ Err (At line) → IsFileFault facts bytes.now (FaultAt line) }
{
    match read_kept(alloc, facts, bytes) {
        Ok(read) => {
            let _entries = read.account.entries();
            Ok(read)
        }
        Err(KeptFault::At(line)) => Err(Unopened::At(line)),
        Err(KeptFault::OldBoot) => Err(Unopened::OldBoot),
        Err(KeptFault::NoMemory) => Err(Unopened::NoMemory),
    }
}

/// The journal on a device whose bytes were read so, with a start that is kept.
pub fn begin<D: Device + Drop>(
    alloc: Global,
    device: D,
    bytes: &[u8],
    read: &Read,
) -> Result<KeptJournal<D>, Unopened>
    requires bytes { D.seen device ≡ bytes.now }
    requires durable { Only (D.seen device) (D.may_leave device) }
    ensures open { (told : List Told) → IsReading read.now.account.facts bytes.now told read.now → IfOk result (λ journal. IsTrue journal.log.is_open) }
    ensures keeps { (told : List Told) → IsReading read.now.account.facts bytes.now told read.now
        → IfOk result (λ journal. IsKeptJournal read.now.account.facts (D.moment journal.log.device) (length (entries_of told)) journal (entries_of told)) }
    ensures fault { (line : ℕ) → result ≡ Err (At line) → ⊥ }
{
    match open_kept(alloc, device, bytes, read) {
        Ok(journal) => Ok(journal),
        Err((KeepFault::NoMemory, _)) => Err(Unopened::NoMemory),
        Err((KeepFault::Full, _)) => Err(Unopened::TooLong),
        Err((KeepFault::Failed | KeepFault::Shut, _)) => Err(Unopened::Failed),
    }
}
