// The first and the last line of a journal.
ghost use Rattle.std.specs.Prelude.{◌≡◌, ◌++◌, IfOk, OnOk, OnErr, option_map};
ghost use Rattle.journal_lines.specs.Frames.{behind, if_boot, boot_behind, head_in, seal_in, seal_alone, seal_behind, end_in};
ghost use Rattle.journal_lines.specs.FrameLines.{head_front, head_line, end_line};

use crate::cuts::{append_number, cut_at, number_before};
use hex::FromHex;
use kms_names::{AccountNumber, NoMemory};
use std::alloc::Global;

// The first line up to its boot number.
fn head_front(alloc: Global, account: &AccountNumber, region: &str) -> Result<Vec<u8>, NoMemory>
    ensures { IfOk result (λ text. text.items ≡ head_front account.now region.now) }
{
    let mut text = Vec::from_slice(alloc, b"kms-journal 1 ")?;
    text.extend_from_slice(account.as_str().as_bytes())?;
    text.push(b' ')?;
    text.extend_from_slice(region.as_bytes())?;
    text.push(b' ')?;
    Ok(text)
}

/// The first line, with its line feed.
pub fn head_line(
    alloc: Global,
    account: &AccountNumber,
    region: &str,
    boot: u32,
) -> Result<Vec<u8>, NoMemory>
    ensures { IfOk result (λ text. text.items ≡ head_line account.now region.now boot) }
{
    let mut text = head_front(alloc, account, region)?;
    append_number(&mut text, u64::from(boot))?;
    text.push(b'\n')?;
    Ok(text)
}

// What follows a front, where the text begins with it.
fn behind<'a>(front: &[u8], text: &'a [u8]) -> Option<&'a [u8]>
    ensures { option_map (λ rest. rest.now) result ≡ behind front.now text.now }
{
    if text.len() < front.len() {
        return None;
    }
    let (head, rest) = text.split_at(front.len());
    if head == front { Some(rest) } else { None }
}

// The boot number behind the front of a first line, and what follows the line.
fn boot_behind<'a>(front: &[u8], text: &'a [u8]) -> Option<(u32, &'a [u8])>
    ensures { option_map (λ cut. (cut.0, cut.1.now)) result ≡ boot_behind front.now text.now }
{
    let (number, rest) = number_before(b'\n', behind(front, text)?)?;
    Some((u32::try_from(number).ok()?, rest))
}

/// The boot number of the first line of this account and region, and what follows the line.
#[tactic(auto, unfolding(crate::specs::Frames::head_in))]
pub fn head_in<'a>(
    alloc: Global,
    account: &AccountNumber,
    region: &str,
    text: &'a [u8],
) -> Result<Option<(u32, &'a [u8])>, NoMemory>
    ensures { IfOk result (λ head. option_map (λ cut. (cut.0, cut.1.now)) head ≡ head_in account.now region.now text.now) }
{
    let front = head_front(alloc, account, region)?;
    Ok(boot_behind(front.as_slice(), text))
}

// A last line, with its line feed.
fn end_line(alloc: Global, number: u64, seal: &[u8; 32]) -> Result<Vec<u8>, NoMemory>
    ensures { IfOk result (λ line. line.items ≡ end_line number seal.now) }
{
    let mut line = Vec::from_slice(alloc, b"end ")?;
    append_number(&mut line, number)?;
    line.push(b' ')?;
    let mut room = [0u8; 64];
    let _ = hex::encode_to_slice(seal.as_slice(), &mut room);
    line.extend_from_slice(room.as_slice())?;
    line.push(b'\n')?;
    Ok(line)
}

/// Writes a last line behind what stands in a buffer. Where memory is refused, that stands there alone.
pub fn append_end(text: &mut Vec<u8>, number: u64, seal: &[u8; 32]) -> Result<(), NoMemory>
    ensures ok { OnOk result (text.new.items ≡ text.old.items ++ end_line number seal.now) }
    ensures refused { OnErr result (text.new.items ≡ text.old.items) }
{
    let line = end_line(*text.allocator(), number, seal)?;
    text.extend_from_slice(line.as_slice())?;
    Ok(())
}

// The 32 bytes whose lower-case hex digits these are.
fn seal_in(text: &[u8]) -> Option<[u8; 32]>
    ensures { result ≡ seal_in text.now }
{
    let seal = <[u8; 32] as FromHex>::from_hex(text).ok()?;
    let mut room = [0u8; 64];
    let _ = hex::encode_to_slice(seal.as_slice(), &mut room);
    if room.as_slice() == text {
        Some(seal)
    } else {
        None
    }
}

/// The number of entries and the seal that a last line holds.
#[derive(Clone, Copy)]
pub struct End {
    pub number: u64,
    pub seal: [u8; 32],
}

// The seal of a last line behind its number.
fn seal_behind(number: u64, rest: &[u8]) -> Option<End>
    ensures { option_map (λ end. (end.number, end.seal)) result ≡ seal_behind (number, rest.now) }
{
    let (text, rest) = cut_at(b'\n', rest)?;
    if !rest.is_empty() {
        return None;
    }
    Some(End {
        number,
        seal: seal_in(text)?,
    })
}

/// What a last line holds, with its line feed and nothing behind it.
#[tactic(auto, unfolding(crate::specs::Frames::end_in))]
pub fn end_in(line: &[u8]) -> Option<End>
    ensures { option_map (λ end. (end.number, end.seal)) result ≡ end_in line.now }
{
    let (number, rest) = number_before(b' ', behind(b"end ", line)?)?;
    seal_behind(number, rest)
}
