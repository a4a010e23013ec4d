// Cases that are served as sessions.
ghost use Rattle.std.specs.Prelude.{◌≡◌, IfOk};
ghost use Rattle.kms_io.specs.Clock.{are_times};
ghost use Rattle.published_account.specs.Rules.{Names};
ghost use Rattle.session_front.specs.Callers.{IsOfAccount};

use crate::callers::trust_of;
use crate::cases::Case;
use crate::failures::Failure;
use crate::identities::{ceiling_of, identities_of};
use crate::lines::{Line, Span};
use crate::replies::{input, is_all, is_front, reply_texts};
use account_steps::RealmFacts;
use kms_io::{MemoryClock, MemoryLink, NoGate};
use kms_names::{AccountNumber, Text};
use kms_session::{SessionEnd, Trust, serve_session};
use publish_pass::{Nothing, Opening, Realm, open_service};
use std::alloc::{AllocError, Global};
use std::marker::Brand;
use std::sync::Wait;

// A case, with the bytes of its requests and of its replies.
#[derive(Clone, Copy)]
struct Session<'a> {
    case: &'a Case<'a>,
    input: &'a [u8],
    replies: &'a [String],
}

// How one session of a case is served: the most bytes that a read gives, and where the input is cut.
#[derive(Clone, Copy)]
struct Manner {
    piece: usize,
    cut: Option<usize>,
}

// The first second of the year 10000.
const LIMIT: u64 = 253_402_300_800;

fn are_times(seconds: &[u64]) -> bool
    ensures { result ≡ are_times seconds.now }
{
    for second in seconds {
        if *second >= LIMIT {
            return false;
        }
    }
    true
}

// The clock of a case.
fn clock_of(alloc: Global, case: &Case<'_>) -> Result<MemoryClock, Failure> {
    let mut seconds = Vec::new(alloc);
    for line in case.lines {
        if let Line::Clock { second, .. } = line {
            seconds.push(*second)?;
        }
    }
    if are_times(&seconds) {
        Ok(MemoryClock::new(seconds))
    } else {
        Err(Failure::Unfit)
    }
}

/// The account of all cases.
pub fn account_number() -> Option<AccountNumber> {
    AccountNumber::read("111122223333")
}

/// The facts of a case: its account, region us-east-1, a root secret of zeros, the principals of the
/// case with their policies, and the ceiling of its account.
pub fn facts_of(
    alloc: Global,
    account: AccountNumber,
    case: &Case<'_>,
) -> Result<RealmFacts, Failure>
    ensures { IfOk result (λ facts. facts.account ≡ account) }
{
    let region = Text::from_str(alloc, "us-east-1")?;
    Ok(RealmFacts {
        account,
        region,
        root: [0; 32],
        boot: case.boot,
        identities: identities_of(alloc, case)?,
        ceiling: ceiling_of(alloc, case)?,
    })
}

// The numbers of the reads and of the writes that fail.
fn failing_calls(alloc: Global, case: &Case<'_>) -> Result<(Vec<u64>, Vec<u64>), AllocError> {
    let mut reads = Vec::new(alloc);
    let mut writes = Vec::new(alloc);
    for line in case.lines {
        match line {
            Line::FailingRead(number) => reads.push(*number)?,
            Line::FailingWrite(number) => writes.push(*number)?,
            _ => {}
        }
    }
    Ok((reads, writes))
}

fn link_of(alloc: Global, session: &Session<'_>, manner: Manner) -> Result<MemoryLink, AllocError> {
    let all = session.input;
    let size = manner.cut.unwrap_or(all.len()).min(all.len());
    let reads = if manner.piece == 0 { 0 } else { size };
    let (failing_reads, failing_writes) = failing_calls(alloc, session.case)?;
    Ok(MemoryLink::new(
        alloc,
        all[..size].to_vec(alloc)?,
        vec![in alloc; manner.piece; reads]?,
        failing_reads,
        failing_writes,
    ))
}

// Serves one session by the one pass of a service.
fn serve_opening<W: Wait, R: Realm>(
    rt: &W,
    alloc: Global,
    opening: Opening,
    trust: &Trust,
    clock: &mut MemoryClock,
    link: &mut MemoryLink,
) -> Result<SessionEnd, Failure>
    requires ledger { (opening.name ≡ R.name) × (opening.parts ≡ R.parts) }
    requires names { Names R.book R.facts R.passes R.loaded opening.shown }
    requires passes { opening.shown.whole.passes ≡ 1 }
    requires trust { IsOfAccount opening.shown.whole.facts.account trust.now }
{
    let (service, mut passes) = open_service::<W, R, Nothing>(rt, alloc, opening, Nothing)?;
    let pass = &mut passes[0];
    let end = serve_session(rt, alloc, &service, pass, trust, clock, link, &NoGate);
    service.shut(rt);
    Ok(end)
}

fn serve<W: Wait>(
    rt: &W,
    alloc: Global,
    case: &Case<'_>,
    link: &mut MemoryLink,
) -> Result<SessionEnd, Failure> {
    let mut clock = clock_of(alloc, case)?;
    let account = account_number().ok_or(Failure::Unfit)?;
    let trust = trust_of(alloc, account, case)?;
    let facts = facts_of(alloc, account, case)?;
    let opening = Opening::new(rt, alloc, facts, 1)?;
    serve_opening::<W, Brand>(rt, alloc, opening, &trust, &mut clock, link)
}

fn end_name(end: SessionEnd) -> &'static str {
    match end {
        SessionEnd::Ended => "Ended",
        SessionEnd::Closed => "Closed",
        SessionEnd::CutOff => "CutOff",
        SessionEnd::ReadFault => "ReadFault",
        SessionEnd::WriteFault => "WriteFault",
        SessionEnd::NoMemory => "NoMemory",
    }
}

// Compares what was written with the replies that are wanted.
fn compare(written: &[u8], replies: &[String], whole: Option<usize>) -> Result<(), Failure> {
    let same = match whole {
        Some(whole) => is_front(written, replies, whole),
        None => is_all(written, replies),
    };
    if same {
        Ok(())
    } else {
        Err(Failure::OtherBytes)
    }
}

// Serves a case in one manner.
fn hold_once<W: Wait>(
    rt: &W,
    alloc: Global,
    session: &Session<'_>,
    manner: Manner,
) -> Result<(), Failure> {
    let Some(Line::End { end, whole }) = session.case.lines.last() else {
        return Err(Failure::NoEnd);
    };
    let mut link = link_of(alloc, session, manner)?;
    if end_name(serve(rt, alloc, session.case, &mut link)?) == *end {
        compare(link.written(), session.replies, *whole)
    } else {
        Err(Failure::OtherEnd)
    }
}

// Serves a case in pieces of each size, its input cut at one place.
fn hold_pieces<W: Wait>(
    rt: &W,
    alloc: Global,
    session: &Session<'_>,
    cut: Option<usize>,
) -> Result<(), Failure> {
    for piece in session.case.pieces.first..=session.case.pieces.last {
        hold_once(rt, alloc, session, Manner { piece, cut })?;
    }
    Ok(())
}

// Serves a case with its input cut at each of these places.
fn hold_cuts<W: Wait>(
    rt: &W,
    alloc: Global,
    session: &Session<'_>,
    cuts: Span,
) -> Result<(), Failure> {
    for cut in cuts.first..=cuts.last {
        hold_pieces(rt, alloc, session, Some(cut))?;
    }
    Ok(())
}

/// Serves a case in each manner that it names: pieces of each size, and the input cut at each place.
pub fn hold_session<W: Wait>(rt: &W, alloc: Global, case: &Case<'_>) -> Result<(), Failure> {
    let input = input(alloc, case)?;
    let replies = reply_texts(alloc, case)?;
    let session = Session {
        case,
        input: input.as_bytes(),
        replies: &replies,
    };
    match case.cut {
        Some(cuts) => hold_cuts(rt, alloc, &session, cuts),
        None => hold_pieces(rt, alloc, &session, None),
    }
}
