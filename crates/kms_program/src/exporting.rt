// `export`.
ghost use Rattle.std.specs.Prelude.{◌≡◌, IfOk};
ghost use Rattle.kms_io.specs.Wire.{Wire};
ghost use Rattle.kms_io.specs.QuietLink.{LiesBeneath};
ghost use Rattle.session_front.specs.Callers.{IsOfAccount};
ghost use Rattle.kms_program.specs.Program.{quiet_over, Holding, IsJournalKept, WritesKept, EndsExport, ExportsOver};

use crate::holding::serve;
use crate::statuses::{CUT_OFF, NO_MEMORY, UNREAD, UNWRITTEN};
use account_core::Account;
use journal_file::write_journal;
use kms_io::{Beneath, Clock, Gate, Link, QuietLink};
use kms_names::{Bytes, NoMemory};
use kms_server::Kept;
use kms_session::{SessionEnd, Trust, send};
use std::alloc::Global;
use std::marker::Brand;
use std::sync::Wait;

/// The journal of what is kept of an account; nothing where it isn't wanted.
pub fn journal_of(alloc: Global, kept: &Kept) -> Result<Bytes, NoMemory>
    ensures { IfOk result (λ journal. IsJournalKept kept.now journal) }
{
    match kept {
        Kept::Nothing => Ok(Bytes::new(Vec::new(alloc))),
        Kept::Whole(account) => write_journal(alloc, account),
        Kept::NoMemory => Err(NoMemory),
    }
}

// Writes the journal of what is kept, and gives the status.
fn write_kept<L: Link>(alloc: Global, kept: &Kept, link: &mut L) -> u8
    ensures { WritesKept kept.now result (L.shows link.old) (L.shows link.new) }
{
    let Kept::Whole(account) = kept else {
        return NO_MEMORY;
    };
    let Ok(journal) = write_journal(alloc, account) else {
        return NO_MEMORY;
    };
    if send(link, journal.as_slice()) {
        0
    } else {
        UNWRITTEN
    }
}

// Serves one session of an account over a connection that keeps what is written to it.
fn serve_quietly<'a, B: Beneath, W: Wait, L: Link, C: Clock, G: Gate>(
    rt: &W,
    alloc: Global,
    account: Account,
    trust: &Trust,
    clock: &mut C,
    link: &'a mut L,
    gate: &G,
) -> (&'a mut L, SessionEnd, Kept)
    requires name { link.ghost_name ≡ B.name }
    requires first { L.shows link.old ≡ B.first }
    requires trust { IsOfAccount account.facts.account trust.now }
    ensures name { result.0.ghost_name ≡ link.entry.ghost_name }
    ensures held { (quiet : Wire) × Holding account trust.now result.1 result.2 (quiet_over B.first) (C.told clock.old) quiet (C.told clock.new) × LiesBeneath B.first quiet (L.shows result.0.now) }
{
    let mut quiet = QuietLink::<'a, B, L>::new(alloc, link);
    let (end, kept) = serve(rt, alloc, account, trust, clock, &mut quiet, gate, true);
    (quiet.into_link(), end, kept)
}

// Does what the end of a session whose replies were kept back asks for, and gives the status.
fn end_export<L: Link>(alloc: Global, end: SessionEnd, kept: &Kept, link: &mut L) -> u8
    ensures { EndsExport end kept.now result (L.shows link.old) (L.shows link.new) }
{
    match end {
        SessionEnd::Ended | SessionEnd::Closed => write_kept(alloc, kept, link),
        SessionEnd::CutOff => CUT_OFF,
        SessionEnd::ReadFault => UNREAD,
        SessionEnd::WriteFault | SessionEnd::NoMemory => NO_MEMORY,
    }
}

// The same as `export`, over a link whose name and beginning are told.
fn export_over<'a, B: Beneath, W: Wait, L: Link, C: Clock, G: Gate>(
    rt: &W,
    alloc: Global,
    account: Account,
    trust: &Trust,
    clock: &mut C,
    link: &'a mut L,
    gate: &G,
) -> (&'a mut L, u8)
    requires name { link.ghost_name ≡ B.name }
    requires first { L.shows link.old ≡ B.first }
    requires trust { IsOfAccount account.facts.account trust.now }
    ensures name { result.0.ghost_name ≡ link.entry.ghost_name }
    ensures exports { ExportsOver account trust.now result.1 B.first (C.told clock.old) (L.shows result.0.now) (C.told clock.new) }
{
    let (link, end, kept) = serve_quietly::<B, W, L, C, G>(
        rt, alloc, account, trust, clock, link, gate,
    );
    let status = end_export(alloc, end, &kept, link);
    (link, status)
}

/// Serves one session of an account, whose replies are kept back, and writes the journal of the account that it
/// leaves; where the session doesn't end well, nothing is written, and the status is that of its end.
pub fn export<W: Wait, L: Link, C: Clock, G: Gate>(
    rt: &W,
    alloc: Global,
    account: Account,
    trust: &Trust,
    clock: &mut C,
    link: &mut L,
    gate: &G,
) -> u8
    requires { IsOfAccount account.facts.account trust.now }
    ensures { ExportsOver account trust.now result (L.shows link.old) (C.told clock.old) (L.shows link.new) (C.told clock.new) }
{
    let exported = export_over::<Brand, W, L, C, G>(rt, alloc, account, trust, clock, link, gate);
    exported.1
}
