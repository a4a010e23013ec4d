// The lines that the program writes.
ghost use Rattle.std.specs.Prelude.{◌≡◌, ◌++◌, IfOk, OnOk, OnErr, string_bytes, codes, MatchBool};
ghost use Rattle.session_front.specs.Sending.{SendsWhole, SendsShort};
ghost use Rattle.journal_file.specs.declared.faults.JournalFault.TheVariants.{At};
ghost use Rattle.kms_program.specs.Journals.{path_at};
ghost use Rattle.kms_program.specs.Program.{SaysLine, usage_line, path_of, refused_line, checked_line, served_line};

use crate::settings::RunOption;
use kms_io::Link;
use kms_names::NoMemory;
use kms_session::send;
use std::alloc::{AllocError, Global};

const USAGE: &[u8] = b"usage: kms_local run|serve|load|check|explain|export\n";

const REFUSED_WHOLE: &[u8] = b"configuration refused at /\n";

const REFUSED_JOURNAL: &[u8] = b"configuration refused at /load\n";

// The line that names the option whose value is refused.
fn refusal_line(option: RunOption) -> &'static [u8]
    ensures { result.now ≡ refused_line (path_of option) }
{
    match option {
        RunOption::Account => b"configuration refused at /account\n",
        RunOption::Region => b"configuration refused at /region\n",
        RunOption::Root => b"configuration refused at /root\n",
        RunOption::Boot => b"configuration refused at /boot\n",
        RunOption::As => b"configuration refused at /as\n",
    }
}

// The line that names a path of the configuration.
fn path_line(alloc: Global, path: &str) -> Result<String, AllocError>
    ensures { IfOk result (λ line. string_bytes line ≡ refused_line path.now) }
{
    format!(in alloc; "configuration refused at {path}\n")
}

// The line that names a line of a journal.
fn journal_line(alloc: Global, line: u64) -> Result<String, AllocError>
    ensures { IfOk result (λ text. string_bytes text ≡ refused_line (path_at (At line))) }
{
    format!(in alloc; "configuration refused at /load/{line}\n")
}

// The line of a configuration with so many credentials and so many principals with policies.
fn checked_line(alloc: Global, credentials: usize, principals: usize) -> Result<String, AllocError>
    ensures { IfOk result (λ line. string_bytes line ≡ checked_line credentials principals) }
{
    format!(in alloc; "ok credentials {credentials} principals {principals}\n")
}

/// Writes a line, as far as it can be written.
pub fn say<L: Link>(link: &mut L, line: &[u8])
    ensures { SaysLine line.now (L.shows link.old) (L.shows link.new) }
{
    let _ = send(link, line);
}

/// Writes the usage line, as far as it can be written.
pub fn say_usage<L: Link>(link: &mut L)
    ensures { SaysLine usage_line (L.shows link.old) (L.shows link.new) }
{
    say(link, USAGE);
}

/// Writes that the value of an option is refused, as far as it can be written.
pub fn say_refused<L: Link>(link: &mut L, option: RunOption)
    ensures { SaysLine (refused_line (path_of option)) (L.shows link.old) (L.shows link.new) }
{
    say(link, refusal_line(option));
}

/// Writes that the configuration is refused as a whole, as far as it can be written.
pub fn say_refused_whole<L: Link>(link: &mut L)
    ensures { SaysLine (refused_line (codes "/")) (L.shows link.old) (L.shows link.new) }
{
    say(link, REFUSED_WHOLE);
}

/// Writes that the configuration is refused at a path, as far as it can be written. Without memory for
/// the line nothing is written.
pub fn say_refused_at<L: Link>(alloc: Global, link: &mut L, path: &str) -> Result<(), NoMemory>
    ensures said { OnOk result (SaysLine (refused_line path.now) (L.shows link.old) (L.shows link.new)) }
    ensures nothing { OnErr result (L.shows link.new ≡ L.shows link.old) }
{
    let line = path_line(alloc, path)?;
    say(link, line.as_bytes());
    Ok(())
}

/// Writes that a journal is refused as a whole, as far as it can be written.
pub fn say_refused_journal<L: Link>(link: &mut L)
    ensures { SaysLine (refused_line (codes "/load")) (L.shows link.old) (L.shows link.new) }
{
    say(link, REFUSED_JOURNAL);
}

/// Writes that a journal is refused at a line, as far as it can be written. Without memory for the line nothing is written.
pub fn say_refused_at_line<L: Link>(alloc: Global, link: &mut L, line: u64) -> Result<(), NoMemory>
    ensures said { OnOk result (SaysLine (refused_line (path_at (At line))) (L.shows link.old) (L.shows link.new)) }
    ensures nothing { OnErr result (L.shows link.new ≡ L.shows link.old) }
{
    let text = journal_line(alloc, line)?;
    say(link, text.as_bytes());
    Ok(())
}

/// Writes how many credentials and how many principals with policies a configuration has; false where
/// it can't be written whole. Without memory for the line nothing is written.
pub fn tell_checked<L: Link>(
    alloc: Global,
    link: &mut L,
    credentials: usize,
    principals: usize,
) -> Result<bool, NoMemory>
    ensures told { IfOk result (λ whole. MatchBool whole (SendsWhole (L.shows link.old) (L.shows link.new) (checked_line credentials principals)) (SendsShort (L.shows link.old) (L.shows link.new) (checked_line credentials principals))) }
    ensures nothing { OnErr result (L.shows link.new ≡ L.shows link.old) }
{
    let line = checked_line(alloc, credentials, principals)?;
    Ok(send(link, line.as_bytes()))
}

// The line of so many connections, and of the most entries that a pass holds.
fn served_line(alloc: Global, connections: u64, front: u64) -> Result<String, AllocError>
    ensures { IfOk result (λ line. string_bytes line ≡ served_line connections front) }
{
    format!(in alloc; "served {connections} front {front}\n")
}

/// Writes how many connections were taken, and the most entries that a pass holds, and a journal behind it; false
/// where these can't be written whole. Without memory for the line nothing is written.
pub fn tell_served<L: Link>(
    alloc: Global,
    link: &mut L,
    connections: u64,
    front: u64,
    journal: &[u8],
) -> Result<bool, NoMemory>
    ensures told { IfOk result (λ whole. MatchBool whole (SendsWhole (L.shows link.old) (L.shows link.new) (served_line connections front ++ journal.now)) (SendsShort (L.shows link.old) (L.shows link.new) (served_line connections front ++ journal.now))) }
    ensures nothing { OnErr result (L.shows link.new ≡ L.shows link.old) }
{
    let line = served_line(alloc, connections, front)?;
    Ok(send_both(link, line.as_bytes(), journal))
}

// Writes one text and another behind it, or answers false where the link failed.
fn send_both<L: Link>(link: &mut L, first: &[u8], second: &[u8]) -> bool
    ensures { MatchBool result (SendsWhole (L.shows link.old) (L.shows link.new) (first.now ++ second.now)) (SendsShort (L.shows link.old) (L.shows link.new) (first.now ++ second.now)) }
{
    if !send(link, first) {
        return false;
    }
    send(link, second)
}
