// What reading a journal answers, and whether what was read is written again.
use crate::failures::Failure;
use account_core::Account;
use account_steps::RealmFacts;
use journal_file::{JournalFault, read_journal, write_journal};
use journal_lines::head_in;
use kms_names::NoMemory;
use std::alloc::Global;

/// What reading a journal answers.
#[derive(Clone, Copy)]
pub enum Answer {
    /// An account with so many entries, which under the boot number of the text is written as this text again, or isn't.
    Read { entries: u64, same: bool },
    At(u64),
    OldBoot,
}

impl Answer {
    /// The answer in words.
    pub fn text(self, alloc: Global) -> Result<String, NoMemory> {
        match self {
            Answer::Read { entries, same } => {
                let text = if same { "same text" } else { "another text" };
                Ok(format!(in alloc; "Ok {entries}, {text}")?)
            }
            Answer::At(line) => Ok(format!(in alloc; "At {line}")?),
            Answer::OldBoot => Ok(String::from_str(alloc, "OldBoot")?),
        }
    }
}

// An account with the same entries, each appended as it was read, and another boot number.
fn at_boot(alloc: Global, account: &Account, boot: u32) -> Result<Account, Failure> {
    let mut facts = account.facts().copy()?;
    facts.boot = boot;
    let mut again = Account::empty(alloc, facts)?;
    for place in 0..account.entries() {
        let Some(entry) = account.entry(place) else {
            return Err(Failure::Unfit);
        };
        again = again.push_fitting(alloc, entry)?;
    }
    Ok(again)
}

// Whether an account that was read of a text is written as that text.
fn is_written_as(alloc: Global, account: &Account, text: &[u8]) -> Result<bool, Failure> {
    let facts = account.facts();
    let Some((boot, _rest)) = head_in(alloc, &facts.account, facts.region.as_str(), text)? else {
        return Ok(false);
    };
    let again = at_boot(alloc, account, boot)?;
    let written = write_journal(alloc, &again)?;
    Ok(written.as_slice() == text)
}

/// What reading a text as a journal answers to these facts.
pub fn answer_to(alloc: Global, facts: &RealmFacts, text: &[u8]) -> Result<Answer, Failure> {
    match read_journal(alloc, facts.copy()?, text) {
        Ok(account) => Ok(Answer::Read {
            entries: account.entries(),
            same: is_written_as(alloc, &account, text)?,
        }),
        Err(JournalFault::At(line)) => Ok(Answer::At(line)),
        Err(JournalFault::OldBoot) => Ok(Answer::OldBoot),
        Err(JournalFault::NoMemory) => Err(Failure::NoMemory),
    }
}
