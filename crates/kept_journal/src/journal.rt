// The journal over its log.
ghost use Rattle.std.specs.Prelude.{◌≡◌, ◌⊎◌, ◌↔◌, ◌+◌, ◌<◌, ◌≤◌, ◌^◌, ◌++◌, ◌∷◌, [], ℕ, List, length, IsTrue, IsFalse, IfOk, IfErr, OnOk, OnErr, IsErrOf, MatchResult, Ok};
ghost use Rattle.kept_log.specs.Device.{Only, LeavesOnly, Rose};
ghost use Rattle.kept_log.specs.Log.{IsPlain, recovered, lines, IsBeforeOrAfter};
ghost use Rattle.kept_log.specs.declared.log.KeepFault.TheVariants.{NoMemory as OutOfMemory, Full, Failed as Broke, Shut};
ghost use Rattle.kept_journal.specs.Lines.{Head, Recovers, text_of, key_of, seal_of, sealed, head_text, records_of, last_seal};
ghost use Rattle.kept_journal.specs.Reading.{IsReading, head_of, opening};
ghost use Rattle.kept_journal.specs.Keeping.{IsKeptJournal};
ghost use Rattle.kept_journal.specs.Starts.{entries_of};
ghost use Rattle.kept_journal.specs.Tells.{Tells, Begins, record_of};
ghost use Rattle.kept_journal.specs.declared.told.Told.{Told as ToldValue};
ghost use Rattle.kept_journal.specs.declared.told.Told.TheVariants.{Start, Change};

use crate::lines::{change_text, head_text, key_of, seal_of, sealed_text, start_text};
use crate::reading::Read;
use account_rows::Entry;
use account_steps::RealmFacts;
use kept_log::{Device, KeepFault, KeptLog};
use kms_names::NoMemory;
use std::alloc::Global;

/// The journal of an account on a device, to which changes are added. Once the device has failed its
/// log is shut, and nothing more is added.
#[derive(Drop)]
pub struct KeptJournal<D: Device> {
    pub log: KeptLog<D>,
    key: [u8; 32],
    seal: [u8; 32],
}

// What was made, or want of memory as the log tells it.
fn or_fault<T: Drop>(made: Result<T, NoMemory>) -> Result<T, KeepFault>
    ensures ok { IfOk result (λ t. made ≡ Ok t) }
    ensures err { IfErr result (λ fault. fault ≡ OutOfMemory) }
{
    match made {
        Ok(made) => Ok(made),
        Err(NoMemory) => Err(KeepFault::NoMemory),
    }
}

// The first record of a journal of these facts, of which this is the seal.
fn first_record(alloc: Global, facts: &RealmFacts, seal: &[u8; 32]) -> Result<Vec<u8>, NoMemory>
    ensures line { IfOk result (λ body. body.items ≡ sealed (head_text facts.now.account facts.now.region) seal.now) }
    ensures plain { IfOk result (λ body. IsPlain body.items) }
{
    let text = head_text(alloc, facts.account.as_str(), facts.region.as_str())?;
    let body = sealed_text(alloc, text.as_slice(), seal)?;
    Ok(body)
}

// The record of a start under this boot number, behind a line of this seal, and its seal.
fn start_record(
    alloc: Global,
    key: &[u8; 32],
    last: &[u8; 32],
    boot: u32,
) -> Result<(Vec<u8>, [u8; 32]), NoMemory>
    ensures line { IfOk result (λ r. r.0.items ≡ sealed (text_of (Start boot)) r.1) }
    ensures seal { IfOk result (λ r. r.1 ≡ seal_of key.now last.now (text_of (Start boot))) }
    ensures plain { IfOk result (λ r. IsPlain r.0.items) }
{
    let text = start_text(alloc, boot)?;
    let seal = seal_of(key, last, text.as_slice());
    let body = sealed_text(alloc, text.as_slice(), &seal)?;
    Ok((body, seal))
}

// The record of a change behind a line of this seal, and its seal.
fn change_record(
    alloc: Global,
    key: &[u8; 32],
    last: &[u8; 32],
    entry: &Entry,
) -> Result<(Vec<u8>, [u8; 32]), NoMemory>
    ensures line { IfOk result (λ r. r.0.items ≡ sealed (text_of (Change entry.now)) r.1) }
    ensures seal { IfOk result (λ r. r.1 ≡ seal_of key.now last.now (text_of (Change entry.now))) }
    ensures plain { IfOk result (λ r. IsPlain r.0.items) }
{
    let text = change_text(alloc, entry)?;
    let seal = seal_of(key, last, text.as_slice());
    let body = sealed_text(alloc, text.as_slice(), &seal)?;
    Ok((body, seal))
}

// Appends the record of a start, behind the first one where the journal has none yet.
fn append_behind<D: Device>(
    alloc: Global,
    log: &mut KeptLog<D>,
    read: &Read,
    start: &[u8],
) -> Result<(), KeepFault>
    requires plain { IsPlain start.now }
    ensures kept { OnOk result (IsTrue log.old.is_open × IsTrue log.new.is_open
        × (recovered (D.seen log.new.device) ≡ recovered (D.seen log.old.device) ++ opening read.now start.now)) }
    ensures durable { OnOk result (Only (D.seen log.new.device) (D.may_leave log.new.device)) }
    ensures any_moment { IsTrue log.old.is_open → LeavesOnly D.moment D.left_since log.old.device log.new.device
        (IsBeforeOrAfter (recovered (D.seen log.old.device)) (opening read.now start.now)) }
    ensures failed { IsErrOf result Broke → IsFalse log.new.is_open × Rose (D.faults log.old.device) (D.faults log.new.device) }
    ensures other { OnErr result (IsErrOf result Broke ⊎ (log.new ≡ log.old)) }
    ensures shut { IsErrOf result Shut → IsFalse log.old.is_open }
{
    if read.is_new {
        let first = or_fault(first_record(alloc, read.account.facts(), &read.seal))?;
        log.append(alloc, &[first.as_slice(), start])
    } else {
        log.append(alloc, &[start])
    }
}

/// Opens a file that a crash may have left, of which these are the bytes and this is what was read of
/// them: repairs its end, and keeps a start under the boot number of the account that was read. So
/// the start is on the disk before anything is served. Where the file has no line yet, its first line
/// is kept with the start, both or none.
///
/// At an error the log is given back. At `Failed` the device has failed, and it is shut; a crash at any
/// moment leaves the lines from before, with the start or without it. At `NoMemory` and `Full` it is
/// open and stands for the lines from before.
pub fn open_kept<D: Device>(
    alloc: Global,
    device: D,
    bytes: &[u8],
    read: &Read,
) -> Result<KeptJournal<D>, (KeepFault, KeptLog<D>)>
    requires bytes { D.seen device ≡ bytes.now }
    // After a restart, what is read is what is on the disk.
    requires durable { Only (D.seen device) (D.may_leave device) }

    ensures started { (told : List ToldValue) → IsReading read.now.account.facts bytes.now told read.now
        → IfOk result (λ journal. IsTrue journal.log.is_open × Tells journal (head_of read.now.account.facts) (told ++ Start read.now.account.facts.boot ∷ [])) }
    ensures durable { IfOk result (λ journal. Only (D.seen journal.log.device) (D.may_leave journal.log.device)) }

    // From now on the entries that were read are kept, and a crash leaves nothing else.
    ensures keeps { (told : List ToldValue) → IsReading read.now.account.facts bytes.now told read.now
        → IfOk result (λ journal. IsKeptJournal read.now.account.facts (D.moment journal.log.device) (length (entries_of told)) journal (entries_of told)) }

    // A crash at any moment leaves the lines from before, with the start or without it.
    ensures any_moment { (told : List ToldValue) → IsReading read.now.account.facts bytes.now told read.now → MatchResult result
        (λ journal. Begins D.moment D.left_since device journal.log.device (recovered bytes.now) (head_of read.now.account.facts) (told ++ Start read.now.account.facts.boot ∷ []))
        (λ fault. Begins D.moment D.left_since device fault.1.device (recovered bytes.now) (head_of read.now.account.facts) (told ++ Start read.now.account.facts.boot ∷ [])) }

    ensures failed { IfErr result (λ fault. fault.0 ≡ Broke → IsFalse fault.1.is_open) }
    ensures other { IfErr result (λ fault. (fault.0 ≡ Broke) ⊎ (IsTrue fault.1.is_open × (recovered (D.seen fault.1.device) ≡ recovered bytes.now))) }
{
    let mut log = KeptLog::open(device, bytes);
    if !log.is_open {
        return Err((KeepFault::Failed, log));
    }
    let facts = read.account.facts();
    let key = key_of(&facts.root);
    let made = match start_record(alloc, &key, &read.seal, facts.boot) {
        Ok(made) => made,
        Err(NoMemory) => return Err((KeepFault::NoMemory, log)),
    };
    let seal = made.1;
    match append_behind(alloc, &mut log, read, made.0.as_slice()) {
        Ok(()) => Ok(KeptJournal { log, key, seal }),
        Err(fault) => Err((fault, log)),
    }
}

impl<D: Device> KeptJournal<D> {
    /// Keeps a change: at `Ok` its line is on the disk, and from then on each crash leaves a file that
    /// is recovered with it. At `Failed` the journal is shut, and a crash leaves the lines from before,
    /// with this one or without it. At each other error the journal is as it was. `Full` comes where the
    /// file would have more than 2^31 bytes.
    pub fn keep_change(&mut self, alloc: Global, entry: &Entry) -> Result<(), KeepFault>
        ensures kept { OnOk result (IsTrue self.old.log.is_open × IsTrue self.new.log.is_open
            × ((head : Head) (told : List ToldValue) → Tells self.old head told → Tells self.new head (told ++ Change entry.now ∷ []))) }
        ensures durable { OnOk result (Only (D.seen self.new.log.device) (D.may_leave self.new.log.device)) }

        // A crash at any moment of the call leaves what was told before, with the change or without it.
        ensures any_moment { (head : Head) (told : List ToldValue) → Tells self.old head told → IsTrue self.old.log.is_open
            → LeavesOnly D.moment D.left_since self.old.log.device self.new.log.device (λ c. Recovers head told c ⊎ Recovers head (told ++ Change entry.now ∷ []) c) }

        ensures failed { IsErrOf result Broke → IsFalse self.new.log.is_open × Rose (D.faults self.old.log.device) (D.faults self.new.log.device) }
        ensures other { OnErr result (IsErrOf result Broke ⊎ (self.new ≡ self.old)) }
        ensures shut { IsErrOf result Shut ↔ IsFalse self.old.log.is_open }
        ensures full { IsErrOf result Full → 2 ^ 31 < length (lines (recovered (D.seen self.old.log.device) ++ record_of self.old entry.now ∷ [])) + 16384 }
    {
        if !self.log.is_open {
            return Err(KeepFault::Shut);
        }
        let (body, seal) = or_fault(change_record(alloc, &self.key, &self.seal, entry))?;
        self.log.append(alloc, &[body.as_slice()])?;
        self.seal = seal;
        Ok(())
    }

    /// Nothing more is kept. The device is as it was.
    pub fn close(&mut self)
        ensures shut { IsFalse self.new.log.is_open }
        ensures device { self.new.log.device ≡ self.old.log.device }
        ensures tells { (head : Head) (told : List ToldValue) → Tells self.old head told → Tells self.new head told }
    {
        self.log.is_open = false;
    }
}
