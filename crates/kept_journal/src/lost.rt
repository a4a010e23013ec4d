// Lines that were lost behind the whole lines of a file.
ghost use Rattle.std.specs.Prelude.{◌≡◌, ◌≢◌, ◌++◌, ◌∷◌, [], ℕ, List, length, IsTrue, ◌↔◌, ◌≤◌, IfOk, MatchOption};
ghost use Rattle.hex.specs.Hex.{encode_lower};
ghost use Rattle.kms_names.specs.Identifier.{IsByteList};
ghost use Rattle.kept_log.specs.Log.{recovered};
ghost use Rattle.kept_journal.specs.Lost.{seal_end, IsNext, ShowsNext, is_closed, HasLost};

use crate::lines::append_seal;
use crate::reading::sealed_in;
use hex::FromHex;
use journal_lines::cut_line;
use kept_log::whole;
use kms_names::NoMemory;
use std::alloc::Global;

// The seal whose lower-case hex digits these are.
fn hex_seal(digits: &[u8]) -> Option<[u8; 32]>
    ensures { MatchOption result ((seal : List ℕ) → IsByteList 32 seal → digits.now ≢ encode_lower seal) (λ seal. IsByteList 32 seal × (digits.now ≡ encode_lower seal)) }
{
    let seal = <[u8; 32] as FromHex>::from_hex(digits).ok()?;
    let mut room = [0u8; 64];
    let _ = hex::encode_to_slice(seal.as_slice(), &mut room);
    if room.as_slice() == digits {
        Some(seal)
    } else {
        None
    }
}

// The seal with which a line ends.
fn seal_at_end(alloc: Global, line: &[u8]) -> Result<Option<[u8; 32]>, NoMemory>
    ensures { IfOk result (λ found. MatchOption found ((front last : List ℕ) → IsByteList 32 last → line.now ≢ front ++ seal_end last)
        (λ last. IsByteList 32 last × ((front : List ℕ) × (line.now ≡ front ++ seal_end last)))) }
{
    if line.len() < 76 {
        return Ok(None);
    }
    let end = &line[line.len() - 76..];
    let Some(seal) = hex_seal(&end[9..73]) else {
        return Ok(None);
    };
    let mut right = Vec::new(alloc);
    append_seal(&mut right, &seal)?;
    right.push(b'\n')?;
    if right.as_slice() == end {
        Ok(Some(seal))
    } else {
        Ok(None)
    }
}

// Whether a line has the right seal behind the one before it, by the seal with which that ends.
fn is_next(alloc: Global, key: &[u8; 32], before: &[u8], line: &[u8]) -> Result<bool, NoMemory>
    ensures { IfOk result (λ next. IsTrue next ↔ IsNext key.now before.now line.now) }
{
    let Some(last) = seal_at_end(alloc, before)? else {
        return Ok(false);
    };
    Ok(sealed_in(alloc, key, &last, line)?.is_some())
}

// Whether a line of this text has the right seal behind the one before it.
fn shows_next(alloc: Global, key: &[u8; 32], text: &[u8]) -> Result<bool, NoMemory>
    ensures { IfOk result (λ shown. IsTrue shown ↔ ShowsNext key.now text.now) }
{
    let mut rest = text;
    while !rest.is_empty() {
        let (line, behind) = cut_line(rest);
        if is_next(alloc, key, line, cut_line(behind).0)? {
            return Ok(true);
        }
        rest = behind;
    }
    Ok(false)
}

// Whether a closed gate stands here: a tab, but none that was put before a brace.
fn is_closed(behind: &[u8]) -> bool
    ensures { result ≡ is_closed behind.now }
{
    behind.first() == Some(&b'\t') && behind.get(1) != Some(&b'{')
}

/// Whether the line behind the whole lines of a file of these bytes was lost.
pub(crate) fn has_lost(alloc: Global, key: &[u8; 32], bytes: &[u8]) -> Result<bool, NoMemory>
    ensures { IfOk result (λ lost. IsTrue lost ↔ HasLost key.now bytes.now) }
{
    let end = whole(bytes);
    let behind = &bytes[end..];
    if is_closed(behind) {
        return Ok(false);
    }
    if end == 0 {
        shows_next(alloc, key, cut_line(behind).1)
    } else {
        shows_next(alloc, key, behind)
    }
}

/// How many whole lines a file of these bytes has.
#[tactic(auto, using(crate::proofs::Whole::lines_counted))]
pub(crate) fn count_lines(bytes: &[u8]) -> u64
    ensures number { result ≡ length (recovered bytes.now) }
    ensures within { result ≤ length bytes.now }
{
    let lines = &bytes[..whole(bytes)];
    let mut count = 0;
    for byte in lines {
        if *byte == b'\n' {
            count += 1;
        }
    }
    count
}
