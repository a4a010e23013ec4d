// The journal of an account, read.
ghost use Rattle.std.specs.Prelude.{◌≡◌, ◌≢◌, ◌⊎◌, ◌↔◌, ◌++◌, ◌+◌, ◌<◌, ◌^◌, [], length, codes, ℕ, List, All, IsTrue, IfOk, IfErr, MatchOption, MatchResult};
ghost use Rattle.mac_sha.specs.Running.{IsMac};
ghost use Rattle.account_core.specs.Fitting.{Fits};
ghost use Rattle.account_rows.specs.declared.entries.Entry.{Entry as EntryValue};
ghost use Rattle.journal_lines.specs.Forms.{IsEntry};
ghost use Rattle.journal_lines.specs.Lines.{entry_line as line_of};
ghost use Rattle.journal_lines.specs.FrameLines.{head_line};
ghost use Rattle.journal_file.specs.Faults.{IsExpected, IsJournalOf, IsFault, IsFaultBehind, IsReadOf, IsWithLine, IsEndFault, IsReadBack};
ghost use Rattle.journal_file.specs.declared.faults.JournalFault.TheVariants.{NoMemory as OutOfMemory};

use crate::faults::JournalFault;
use account_core::{Account, FitFault};
use account_steps::RealmFacts;
use journal_lines::{End, cut_line, end_in, head_in, read_entry};
use mac_sha::Mac;
use std::alloc::Global;

// Compares two seals, all their bytes in any case.
fn are_equal(left: &[u8; 32], right: &[u8; 32]) -> bool
    ensures { IsTrue result ↔ (right.now ≡ left.now) }
{
    let mut difference = 0;
    for i in 0..32 {
        difference |= left[i] ^ right[i];
    }
    difference == 0
}

// The account with the entry of a line, where the line is that of an entry that fits.
fn with_line(alloc: Global, account: &Account, line: &[u8]) -> Result<Option<Account>, JournalFault>
    ensures more { IfOk result (λ a. MatchOption a ((entry : EntryValue) → IsReadBack entry → Fits account.now.facts account.now.entries entry → line.now ≢ line_of entry) (λ b. IsWithLine account.now line.now b)) }
    ensures memory { IfErr result (λ fault. fault ≡ OutOfMemory) }
{
    let Some(entry) = read_entry(alloc, line)? else {
        return Ok(None);
    };
    match account.push_fitting(alloc, &entry) {
        Ok(account) => Ok(Some(account)),
        Err(FitFault::Unfit) => Ok(None),
        Err(FitFault::NoMemory) => Err(JournalFault::NoMemory),
    }
}

// The account once all lines behind the first were read, of which this is the last.
fn finished(
    account: Account,
    boot: u32,
    seal: &[u8; 32],
    end: &End,
    behind: &[u8],
) -> Result<Account, JournalFault>
    requires { length account.entries + 3 < 2 ^ 64 }
    ensures ok { IfOk result (λ a. (a ≡ account) × (length behind.now ≡ 0) × (end.now.number ≡ length account.entries) × (end.now.seal ≡ seal.now) × (boot < account.facts.boot)) }
    ensures fault { IfErr result (IsEndFault account boot seal.now end.now.number end.now.seal behind.now) }
{
    let number = account.entries();
    if !behind.is_empty() {
        return Err(JournalFault::At(number + 3));
    }
    if end.number != number || !are_equal(&end.seal, seal) {
        return Err(JournalFault::At(number + 2));
    }
    if account.facts().boot <= boot {
        return Err(JournalFault::OldBoot);
    }
    Ok(account)
}

// The account of the lines that follow a first line of this boot number, of which the HMAC in the
// making holds all that comes before them.
fn read_lines(
    alloc: Global,
    mut account: Account,
    mut mac: Mac,
    boot: u32,
    text: &[u8],
) -> Result<Account, JournalFault>
    requires none { account.entries ≡ [] }
    requires mac { IsMac mac account.facts.root (codes "journal" ++ head_line account.facts.account account.facts.region boot) }
    ensures ok { IfOk result (λ a. IsReadOf account.facts boot text.now a) }
    ensures taken { (history : List EntryValue) → IsExpected account.facts boot text.now history → MatchResult result (λ a. a.entries ≡ history) (λ fault. fault ≡ OutOfMemory) }
    ensures fault { IfErr result (λ fault. (fault ≡ OutOfMemory) ⊎ IsFaultBehind account.facts boot text.now fault) }
{
    let mut rest = text;
    while !rest.is_empty() {
        let (line, behind) = cut_line(rest);
        if let Some(end) = end_in(line) {
            return finished(account, boot, &mac.end(), &end, behind);
        }
        let Some(longer) = with_line(alloc, &account, line)? else {
            return Err(JournalFault::At(account.entries() + 2));
        };
        account = longer;
        mac.add(line);
        rest = behind;
    }
    Err(JournalFault::At(account.entries() + 2))
}

/// The account of a journal: of these facts, with the entries of the text.
///
/// It is read where the bytes are what `write_journal` writes of a sound history, under these
/// facts' account, region and root secret and a boot number below theirs. Else the first of these
/// that stands is answered: `At` with the first line, counted from 1, that hasn't its form, names
/// another account or region, doesn't fit, or follows the last line; `At` of the last line where
/// its number or its HMAC is wrong; `At` of the line at which the text ends early; and `OldBoot`.
/// Want of memory may replace each answer. Of each entry that is read, its line is read as that entry.
pub fn read_journal(alloc: Global, facts: RealmFacts, bytes: &[u8]) -> Result<Account, JournalFault>
    ensures ok { IfOk result (λ a. (a.facts ≡ facts) × IsJournalOf facts bytes.now a.entries) }
    ensures read { IfOk result (λ a. All IsReadBack a.entries) }
    ensures taken { (history : List EntryValue) → All IsEntry history → length history < 10 ^ 18 → IsJournalOf facts bytes.now history → MatchResult result (λ a. a.entries ≡ history) (λ fault. fault ≡ OutOfMemory) }
    ensures fault { IfErr result (IsFault facts bytes.now) }
{
    let Some((boot, rest)) = head_in(alloc, &facts.account, facts.region.as_str(), bytes)? else {
        return Err(JournalFault::At(1));
    };
    let mut mac = Mac::new(facts.root.as_slice());
    mac.add(b"journal");
    mac.add(&bytes[..bytes.len() - rest.len()]);
    let account = Account::empty(alloc, facts)?;
    read_lines(alloc, account, mac, boot, rest)
}
