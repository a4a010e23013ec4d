// The journal of an account, written.
ghost use Rattle.std.specs.Prelude.{◌≡◌, ◌++◌, ◌+◌, ◌<◌, drop, length, IfOk, OnOk};
ghost use Rattle.journal_file.specs.Journal.{entries_text, journal_text, seal_of};

use account_core::Account;
use journal_lines::{append_end, entry_line, head_line};
use kms_names::{Bytes, NoMemory};
use mac_sha::Mac;
use std::alloc::Global;

// Writes the line of the entry at a place behind what stands in a buffer.
fn append_entry(
    alloc: Global,
    account: &Account,
    place: u64,
    text: &mut Vec<u8>,
) -> Result<(), NoMemory>
    requires { place < length account.now.entries }
    ensures { OnOk result (text.new.items ++ entries_text (drop (place + 1) account.now.entries) ≡ text.old.items ++ entries_text (drop place account.now.entries)) }
{
    let Some(entry) = account.entry(place) else {
        unreachable!()
    };
    let line = entry_line(alloc, entry)?;
    text.extend_from_slice(line.as_slice())?;
    Ok(())
}

// The HMAC of a journal's text before its last line.
fn seal_of(root: &[u8; 32], before: &[u8]) -> [u8; 32]
    ensures { result ≡ seal_of root.now before.now }
{
    let mut mac = Mac::new(root.as_slice());
    mac.add(b"journal");
    mac.add(before);
    mac.end()
}

/// The journal of an account: a line `kms-journal 1 ACCOUNT REGION BOOT`, a line of each entry, and
/// a line `end N HEX` with the number of the entries in decimal and the HMAC-SHA-256 (FIPS 198-1),
/// under the root secret, of `journal` and all bytes before this line, in lower-case hex. Each line
/// ends with a line feed.
pub fn write_journal(alloc: Global, account: &Account) -> Result<Bytes, NoMemory>
    ensures { IfOk result (λ text. text ≡ journal_text account.now.facts account.now.entries) }
{
    let facts = account.facts();
    let mut text = head_line(alloc, &facts.account, facts.region.as_str(), facts.boot)?;
    for place in 0..account.entries() {
        append_entry(alloc, account, place, &mut text)?;
    }
    let seal = seal_of(&facts.root, text.as_slice());
    append_end(&mut text, account.entries(), &seal)?;
    Ok(Bytes::new(text))
}
