// The account that a session, or a server, begins with.
ghost use Rattle.std.specs.Prelude.{◌≡◌, ℕ, List, [], Option, Some, IfOk, IfErr, option_map};
ghost use Rattle.kms_io.specs.Shelf.{Shelf};
ghost use Rattle.kms_program.specs.Journals.{IsBegun, AsksJournal, IsRead, IsReadOf, path_at};
ghost use Rattle.kms_program.specs.Statuses.{no_memory};
ghost use Rattle.kms_program.specs.Program.{around, Refuses, NoAccount};
ghost use Rattle.journal_file.specs.declared.faults.JournalFault.TheVariants.{At};

use crate::lines::{say_refused, say_refused_at_line, say_refused_journal};
use crate::settings::RunOption;
use crate::statuses::{NO_MEMORY, REFUSED, UNREAD};
use account_core::Account;
use account_steps::RealmFacts;
use journal_file::{JournalFault, read_journal};
use kms_io::{FileAnswer, Files, Link};
use kms_names::NoMemory;
use std::alloc::Global;

/// What came of a journal's file.
#[derive(Drop)]
pub enum Read {
    /// The account of its journal.
    Account(Account),
    /// Its first fault is at this line, counted from 1.
    At(u64),
    /// All its lines are right, and its boot number isn't below that of the facts.
    OldBoot,
    /// It is too long.
    TooLong,
    /// It can't be read.
    Failed,
    /// A growth of memory was refused.
    NoMemory,
}

// What the bytes of a journal's file come to.
fn read_bytes(alloc: Global, facts: RealmFacts, bytes: &[u8]) -> Read
    ensures { IsReadOf bytes.now facts result }
{
    match read_journal(alloc, facts, bytes) {
        Ok(account) => {
            let _entries = account.entries();
            Read::Account(account)
        }
        Err(JournalFault::At(line)) => Read::At(line),
        Err(JournalFault::OldBoot) => Read::OldBoot,
        Err(JournalFault::NoMemory) => Read::NoMemory,
    }
}

// What came of the journal that the file of a name holds. The file is asked for once.
fn read_file<F: Files>(alloc: Global, facts: RealmFacts, files: &mut F, name: &str) -> Read
    ensures { IsRead (F.shows files.old) name.now facts result (F.shows files.new) }
{
    let mut room = Vec::new(alloc);
    match files.read_long(name, &mut room) {
        FileAnswer::Read => read_bytes(alloc, facts, &room),
        FileAnswer::TooLong => Read::TooLong,
        FileAnswer::Failed => Read::Failed,
        FileAnswer::NoMemory => Read::NoMemory,
    }
}

// Writes that a journal is refused at a line, and gives the status.
fn refuse_line<L: Link>(alloc: Global, line: u64, link: &mut L) -> u8
    ensures { (clock : Option (List ℕ)) (shelf later : Shelf) → Refuses (path_at (At line)) result (around (L.shows link.old) clock shelf) (around (L.shows link.new) clock later) }
{
    match say_refused_at_line(alloc, link, line) {
        Ok(()) => REFUSED,
        Err(NoMemory) => NO_MEMORY,
    }
}

// The account of these facts without entries.
fn empty_account(alloc: Global, facts: RealmFacts) -> Result<Account, u8>
    ensures account { IfOk result (λ account. account ≡ record { facts = facts; entries = [] }) }
    ensures status { IfErr result (λ status. status ≡ no_memory) }
{
    match Account::empty(alloc, facts) {
        Ok(account) => Ok(account),
        Err(NoMemory) => Err(NO_MEMORY),
    }
}

// The account of a journal; else what was to be written is, and this is the status.
fn load_account<F: Files, L: Link>(
    alloc: Global,
    facts: RealmFacts,
    name: &str,
    files: &mut F,
    link: &mut L,
) -> Result<Account, u8>
    ensures account { IfOk result (λ account. IsBegun (F.shows files.old) (Some name.now) facts account × AsksJournal (Some name.now) (F.shows files.old) (F.shows files.new) × (L.shows link.new ≡ L.shows link.old)) }
    ensures status { IfErr result (λ status. (clock : Option (List ℕ)) → NoAccount facts (Some name.now) status (around (L.shows link.old) clock (F.shows files.old)) (around (L.shows link.new) clock (F.shows files.new))) }
{
    match read_file(alloc, facts, files, name) {
        Read::Account(account) => Ok(account),
        Read::At(line) => Err(refuse_line(alloc, line, link)),
        Read::OldBoot => {
            say_refused(link, RunOption::Boot);
            Err(REFUSED)
        }
        Read::TooLong => {
            say_refused_journal(link);
            Err(REFUSED)
        }
        Read::Failed => Err(UNREAD),
        Read::NoMemory => Err(NO_MEMORY),
    }
}

/// The account that is begun with: that of the journal in the file of this name, or one without entries
/// where no file is named; else what was to be written is, and this is the status.
pub fn obtain_account<F: Files, L: Link>(
    alloc: Global,
    facts: RealmFacts,
    load: Option<&str>,
    files: &mut F,
    link: &mut L,
) -> Result<Account, u8>
    ensures account { IfOk result (λ account. IsBegun (F.shows files.old) (option_map (λ load. load.now) load.entry) facts account × AsksJournal (option_map (λ load. load.now) load.entry) (F.shows files.old) (F.shows files.new) × (L.shows link.new ≡ L.shows link.old)) }
    ensures facts { IfOk result (λ account. account.facts ≡ facts) }
    ensures status { IfErr result (λ status. (clock : Option (List ℕ)) → NoAccount facts (option_map (λ load. load.now) load.entry) status (around (L.shows link.old) clock (F.shows files.old)) (around (L.shows link.new) clock (F.shows files.new))) }
{
    match load {
        Some(name) => load_account(alloc, facts, name, files, link),
        None => empty_account(alloc, facts),
    }
}
