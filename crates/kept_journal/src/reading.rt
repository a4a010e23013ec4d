// A kept journal, read.
ghost use Rattle.std.specs.Prelude.{◌≡◌, ◌≢◌, ◌⊎◌, ◌++◌, ◌<◌, ◌-◌, ◌+◌, ◌^◌, ◌∷◌, [], ℕ, List, length, take, drop, IsTrue, ◌↔◌, IfOk, IfErr, OnOk, MatchOption, option_map};
ghost use Rattle.journal_lines.specs.Cuts.{number_of};
ghost use Rattle.journal_lines.specs.Frames.{behind};
ghost use Rattle.kept_log.specs.Log.{line, lines, recovered};
ghost use Rattle.kept_journal.specs.Lines.{key_of, last_seal, seal_of, text_of, sealed, head_text, first_seal};
ghost use Rattle.kept_journal.specs.Reading.{IsReadBack, IsReading, IsReadOf, IsFault, IsSoFar, IsOddLine, IsOneMore, FitsBehind, head_of, line_of, start_in, text_at, IsRoom, behind_lines};
ghost use Rattle.kept_journal.specs.Lost.{HasLost, IsFileFault};
ghost use Rattle.kept_journal.specs.declared.told.Told.{Told as ToldValue};
ghost use Rattle.kept_journal.specs.declared.told.Told.TheVariants.{Start, Change};
ghost use Rattle.kept_journal.specs.declared.faults.KeptFault.TheVariants.{NoMemory as OutOfMemory};

use crate::faults::KeptFault;
use crate::lines::{head_text, key_of, seal_of, sealed_text};
use crate::lost::{count_lines, has_lost};
use crate::told::Told;
use account_core::{Account, FitFault};
use account_steps::RealmFacts;
use itoa::Buffer;
use journal_lines::{cut_line, read_entry};
use kept_log::whole;
use kms_names::NoMemory;
use std::alloc::Global;

/// What a kept journal tells: the account with its changes, the seal of its last line or of its first
/// one that is to come, its last start, 0 where there is none, and whether it has no line yet.
#[derive(Drop)]
pub struct Read {
    pub account: Account,
    pub seal: [u8; 32],
    pub last_start: u32,
    pub is_new: bool,
}

// What follows a front, where the text begins with it.
pub(crate) fn behind<'a>(front: &[u8], text: &'a [u8]) -> Option<&'a [u8]>
    ensures { option_map (λ rest. rest.now) result ≡ behind front.now text.now }
{
    if text.len() < front.len() {
        return None;
    }
    let (head, rest) = text.split_at(front.len());
    if head == front { Some(rest) } else { None }
}

// The number that these digits are, of 1 to 18, with no zero before others.
fn number_in(digits: &[u8]) -> Option<u64>
    ensures { result ≡ number_of digits.now }
{
    let number = kms_names::decimal(digits, 18)?;
    if Buffer::new().format(number).as_bytes() == digits {
        Some(number)
    } else {
        None
    }
}

// The number of a start, in its one spelling.
pub(crate) fn start_in(digits: &[u8]) -> Option<u32>
    ensures { result ≡ start_in digits.now }
{
    u32::try_from(number_in(digits)?).ok()
}

// What a line of this text tells.
fn told_in(alloc: Global, text: &[u8]) -> Result<Option<Told>, NoMemory>
    ensures { IfOk result (λ told. MatchOption told ((one : ToldValue) → IsReadBack one → text.now ≢ text_of one) (λ one. IsReadBack one × (text.now ≡ text_of one))) }
{
    if let Some(digits) = behind(b"\"start\":", text) {
        return match start_in(digits) {
            Some(number) => Ok(Some(Told::Start(number))),
            None => Ok(None),
        };
    }
    let Some(entry) = behind(b"\"entry\":", text) else {
        return Ok(None);
    };
    let mut line = Vec::from_slice(alloc, entry)?;
    line.push(b'\n')?;
    match read_entry(alloc, line.as_slice())? {
        Some(entry) => Ok(Some(Told::Change(entry))),
        None => Ok(None),
    }
}

// The line of this text with this seal.
fn line_with(alloc: Global, text: &[u8], seal: &[u8; 32]) -> Result<Vec<u8>, NoMemory>
    ensures { IfOk result (λ l. l.items ≡ line (sealed text.now seal.now)) }
{
    let body = sealed_text(alloc, text, seal)?;
    let mut line = Vec::from_slice(alloc, b"{")?;
    line.extend_from_slice(&body)?;
    line.push(b'\n')?;
    Ok(line)
}

// The text of a line that has the right seal behind one of this seal, and that seal.
pub(crate) fn sealed_in<'a>(
    alloc: Global,
    key: &[u8; 32],
    last: &[u8; 32],
    line: &'a [u8],
) -> Result<Option<(&'a [u8], [u8; 32])>, NoMemory>
    ensures { IfOk result (λ found. MatchOption found ((text : List ℕ) → line.now ≢ line_of key.now last.now text)
        (λ r. (line.now ≡ line_of key.now last.now r.0.now) × (r.1 ≡ seal_of key.now last.now r.0.now))) }
{
    if line.len() < 77 {
        return Ok(None);
    }
    let text = &line[1..line.len() - 76];
    let seal = seal_of(key, last, text);
    let right = line_with(alloc, text, &seal)?;
    if right.as_slice() == line {
        Ok(Some((text, seal)))
    } else {
        Ok(None)
    }
}

impl Read {
    // With what one line more tells, where it fits behind the others.
    fn with(self, alloc: Global, told: &Told, seal: [u8; 32]) -> Result<Option<Read>, KeptFault>
        ensures with { (so_far : List ToldValue) → IsSoFar self.account.facts so_far self → IsReadBack told.now → seal ≡ seal_of (key_of self.account.facts.root) (last_seal (head_of self.account.facts) so_far) (text_of told.now)
            → IfOk result (λ read. MatchOption read (¬ (FitsBehind self.account.facts so_far told.now)) (λ longer. IsSoFar self.account.facts (so_far ++ told.now ∷ []) longer × (longer.is_new ≡ self.is_new))) }
        ensures memory { IfErr result (λ fault. fault ≡ OutOfMemory) }
    {
        match told {
            Told::Start(number) => {
                if *number <= self.last_start {
                    return Ok(None);
                }
                Ok(Some(Read {
                    account: self.account,
                    seal,
                    last_start: *number,
                    is_new: self.is_new,
                }))
            }
            Told::Change(entry) => match self.account.push_fitting(alloc, entry) {
                Ok(account) => Ok(Some(Read {
                    account,
                    seal,
                    last_start: self.last_start,
                    is_new: self.is_new,
                })),
                Err(FitFault::Unfit) => Ok(None),
                Err(FitFault::NoMemory) => Err(KeptFault::NoMemory),
            },
        }
    }

    // With what a line tells, where it has the right seal and fits behind the others.
    fn with_line(
        self,
        alloc: Global,
        key: &[u8; 32],
        line: &[u8],
    ) -> Result<Option<Read>, KeptFault>
        ensures with { (so_far : List ToldValue) → IsSoFar self.account.facts so_far self → key.now ≡ key_of self.account.facts.root
            → IfOk result (λ read. MatchOption read (IsOddLine self.account.facts so_far line.now) (IsOneMore self.account.facts so_far line.now self)) }
        ensures memory { IfErr result (λ fault. fault ≡ OutOfMemory) }
    {
        let Some(found) = sealed_in(alloc, key, &self.seal, line)? else {
            return Ok(None);
        };
        let seal = found.1;
        let Some(told) = told_in(alloc, found.0)? else {
            return Ok(None);
        };
        self.with(alloc, &told, seal)
    }

    // With what these lines behind the first one tell.
    fn with_lines(self, alloc: Global, key: &[u8; 32], text: &[u8]) -> Result<Read, KeptFault>
        requires none { IsSoFar self.account.facts [] self }
        requires key { key.now ≡ key_of self.account.facts.root }
        ensures ok { IfOk result (λ read. ((told : List ToldValue) × IsReadOf self.account.facts (text_at self.account.facts [] ++ text.now) told read) × (read.is_new ≡ self.is_new)) }
        ensures fault { IfErr result (IsFault self.account.facts (text_at self.account.facts [] ++ text.now)) }
    {
        let mut read = self;
        let mut rest = text;
        let mut place = 2;
        while !rest.is_empty() {
            let (line, behind) = cut_line(rest);
            let Some(longer) = read.with_line(alloc, key, line)? else {
                return Err(KeptFault::At(place));
            };
            read = longer;
            rest = behind;
            place += 1;
        }
        Ok(read)
    }
}

// What the whole lines of a file of these bytes tell, as a kept journal of these facts.
fn read_lines(alloc: Global, facts: RealmFacts, bytes: &[u8]) -> Result<Read, KeptFault>
    ensures ok { IfOk result (λ read. (told : List ToldValue) × IsReading facts bytes.now told read) }
    ensures fault { IfErr result (IsFault facts (lines (recovered bytes.now))) }
{
    let lines = &bytes[..whole(bytes)];
    let key = key_of(&facts.root);
    let head = head_text(alloc, facts.account.as_str(), facts.region.as_str())?;
    let seal = seal_of(&key, &[0; 32], head.as_slice());
    let first = line_with(alloc, head.as_slice(), &seal)?;
    let boot = facts.boot;
    let none = Read {
        account: Account::empty(alloc, facts)?,
        seal,
        last_start: 0,
        is_new: lines.is_empty(),
    };
    if lines.is_empty() {
        if boot == 0 {
            return Err(KeptFault::OldBoot);
        }
        return Ok(none);
    }
    let Some(rest) = behind(first.as_slice(), lines) else {
        return Err(KeptFault::At(1));
    };
    let read = none.with_lines(alloc, &key, rest)?;
    if boot <= read.last_start {
        return Err(KeptFault::OldBoot);
    }
    Ok(read)
}

/// What the whole lines of a file of these bytes tell, as a kept journal of these facts.
///
/// It is read where the file has no whole line, or its lines are what a journal under these facts'
/// account, region and root secret tells, sealed throughout, whose starts rise and whose changes fit.
/// Else `At` tells the first line, counted from 1, that hasn't its form or its seal, or doesn't fit.
/// `OldBoot` comes where all is right but the boot number of the facts isn't above the last start.
///
/// `At` also tells the line behind the whole ones where it was lost, as one without its brace is, and
/// one with a tab in it: behind it stands a line that has the right seal behind the one before it. What
/// a crash leaves is never refused: of an append it leaves the bytes of its own line, which no line
/// follows, and tabs. Only the first line is written with another behind it; there a third one is
/// looked for. Behind a closed gate, a tab in a brace's place, nothing is looked for.
///
/// Want of memory may replace each answer.
pub fn read_kept(alloc: Global, facts: RealmFacts, bytes: &[u8]) -> Result<Read, KeptFault>
    ensures ok { IfOk result (λ read. (told : List ToldValue) × IsReading facts bytes.now told read) }
    ensures none_lost { OnOk result (¬ (HasLost (key_of facts.root) bytes.now)) }
    ensures fault { IfErr result (IsFileFault facts bytes.now) }
{
    let key = key_of(&facts.root);
    let read = read_lines(alloc, facts, bytes)?;
    if has_lost(alloc, &key, bytes)? {
        return Err(KeptFault::At(count_lines(bytes) + 1));
    }
    Ok(read)
}

// Whether these bytes are room for lines: tabs.
fn is_room(bytes: &[u8]) -> bool
    ensures { IsTrue result ↔ IsRoom bytes.now }
{
    bytes.iter().all(|&byte| byte == b'\t')
}

/// What stands behind the whole lines of a file of these bytes, unless it is room: nothing of it is
/// told, and `open_kept` cuts it off.
pub fn torn(bytes: &[u8]) -> &[u8]
    ensures room { IsRoom (behind_lines bytes.now) → result.now ≡ [] }
    ensures more { ¬ (IsRoom (behind_lines bytes.now)) → result.now ≡ behind_lines bytes.now }
{
    let behind = &bytes[whole(bytes)..];
    if is_room(behind) { &[] } else { behind }
}
