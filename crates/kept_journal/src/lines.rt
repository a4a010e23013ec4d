// The lines of a kept journal, without their opening brace and their line feed.
ghost use Rattle.std.specs.Prelude.{◌≡◌, ◌++◌, IfOk, OnOk};
ghost use Rattle.json.specs.Print.{quoted};
ghost use Rattle.kept_journal.specs.Lines.{head_text, text_of, key_of, seal_of, sealed};
ghost use Rattle.kept_journal.specs.declared.told.Told.TheVariants.{Start, Change};

use account_rows::Entry;
use itoa::Buffer;
use journal_lines::entry_line;
use kms_names::NoMemory;
use mac_sha::{Mac, hmac256};
use serde_json::Value;
use std::alloc::Global;

// A text in quotes, as JSON has it.
fn quoted(alloc: Global, text: &str) -> Result<Vec<u8>, NoMemory>
    ensures { IfOk result (λ bytes. bytes.items ≡ quoted text.now) }
{
    Ok(Value::try_from_str(alloc, text)?.to_vec(alloc)?)
}

/// The first line of this account and region, up to its seal.
#[tactic(auto, unfolding(crate::specs::Lines::head_text))]
pub(crate) fn head_text(alloc: Global, account: &str, region: &str) -> Result<Vec<u8>, NoMemory>
    ensures { IfOk result (λ text. text.items ≡ head_text account.now region.now) }
{
    let mut text = Vec::from_slice(alloc, b"\"kept\":1,\"account\":\"")?;
    text.extend_from_slice(account.as_bytes())?;
    text.extend_from_slice(b"\",\"region\":")?;
    let region = quoted(alloc, region)?;
    text.extend_from_slice(&region)?;
    Ok(text)
}

/// The line of a start, up to its seal.
#[tactic(auto, unfolding(crate::specs::Lines::text_of))]
pub(crate) fn start_text(alloc: Global, number: u32) -> Result<Vec<u8>, NoMemory>
    ensures { IfOk result (λ text. text.items ≡ text_of (Start number)) }
{
    let mut text = Vec::from_slice(alloc, b"\"start\":")?;
    text.extend_from_slice(Buffer::new().format(number).as_bytes())?;
    Ok(text)
}

/// The line of a change, up to its seal.
#[tactic(auto, unfolding(crate::specs::Lines::text_of))]
pub(crate) fn change_text(alloc: Global, entry: &Entry) -> Result<Vec<u8>, NoMemory>
    ensures { IfOk result (λ text. text.items ≡ text_of (Change entry.now)) }
{
    let line = entry_line(alloc, entry)?;
    let line = line.as_slice();
    let mut text = Vec::from_slice(alloc, b"\"entry\":")?;
    text.extend_from_slice(&line[..line.len().saturating_sub(1)])?;
    Ok(text)
}

/// The key of the seals under a root secret.
#[tactic(auto, unfolding(crate::specs::Lines::key_of))]
pub(crate) fn key_of(root: &[u8; 32]) -> [u8; 32]
    ensures { result ≡ key_of root.now }
{
    hmac256(root.as_slice(), b"kept")
}

/// The seal of a line behind one with this seal.
#[tactic(auto, unfolding(crate::specs::Lines::seal_of))]
pub(crate) fn seal_of(key: &[u8; 32], last: &[u8; 32], text: &[u8]) -> [u8; 32]
    ensures { result ≡ seal_of key.now last.now text.now }
{
    let mut mac = Mac::new(key.as_slice());
    mac.add(last.as_slice());
    mac.add(b"{");
    mac.add(text);
    mac.end()
}

/// Writes its seal behind a line.
#[tactic(auto, unfolding(crate::specs::Lines::sealed))]
pub(crate) fn append_seal(text: &mut Vec<u8>, seal: &[u8; 32]) -> Result<(), NoMemory>
    ensures { OnOk result (text.new.items ≡ sealed text.old.items seal.now) }
{
    text.extend_from_slice(b",\"seal\":\"")?;
    let mut room = [0u8; 64];
    let _ = hex::encode_to_slice(seal.as_slice(), &mut room);
    text.extend_from_slice(room.as_slice())?;
    text.extend_from_slice(b"\"}")?;
    Ok(())
}

/// A line with its seal, which stands behind one of this seal, without its brace and its line feed.
pub(crate) fn sealed_text(alloc: Global, text: &[u8], seal: &[u8; 32]) -> Result<Vec<u8>, NoMemory>
    ensures { IfOk result (λ body. body.items ≡ sealed text.now seal.now) }
{
    let mut body = Vec::from_slice(alloc, text)?;
    append_seal(&mut body, seal)?;
    Ok(body)
}
