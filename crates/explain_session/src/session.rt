// One connection, from its first byte to its end.
ghost use Rattle.std.specs.Prelude.{◌≡◌, ◌+◌, ◌<◌, IfOk, codes, false};
ghost use Rattle.kms_names.specs.Moment.{year_10000};
ghost use Rattle.http_front.specs.Message.{Message, CutsOff};
ghost use Rattle.session_front.specs.Callers.{IsOfAccount};
ghost use Rattle.session_front.specs.Items.{whole};
ghost use Rattle.session_front.specs.Session.{outside};
ghost use Rattle.explain_session.specs.Explaining.{Tells, early_line};
ghost use Rattle.explain_session.specs.Session.{Outside, IsTold, Explains, EndsBy, GoesOn, Explained};

use crate::explainer::Explainer;
use crate::lines::early_line;
use account_core::Account;
use http_front::Cut;
use kms_io::{Clock, Link};
use kms_names::{Bytes, NoMemory};
use session_front::{
    Awaited, Early, Inbox, KeptKey, MESSAGES, SessionEnd, Trust, await_message, closes_after,
    early, send,
};
use std::alloc::Global;

// The line of a message.
fn line_of(
    alloc: Global,
    trust: &Trust,
    kept: &mut KeptKey,
    explainer: &mut Explainer,
    cut: &Cut,
    buffer: &[u8],
    now: u64,
) -> Result<Bytes, NoMemory>
    requires now { now < year_10000 }
    requires trust { IsOfAccount explainer.old.facts.account trust.now }
    requires message { (m : Message) × CutsOff buffer.now cut.now m }
    ensures line { (m : Message) → CutsOff buffer.now cut.now m → IfOk result (λ line. Tells explainer.old trust.now (whole m) now line explainer.new) }
    ensures facts { explainer.new.facts ≡ explainer.old.facts }
{
    match early(alloc, kept, cut, buffer, trust, explainer.region(), now) {
        Ok(ask) => explainer.explain(alloc, &ask),
        Err(Early::Fault(why)) => early_line(alloc, why.exception()),
        Err(Early::NoMemory) => Err(NoMemory),
    }
}

// What became of a line.
#[derive(Clone, Copy)]
enum Told {
    // It was written whole.
    Whole,
    // The link failed.
    Short,
    // There was no memory for it, and nothing of it was written.
    Lacking,
}

// Writes the line of a message.
fn tell_message<L: Link>(
    alloc: Global,
    trust: &Trust,
    kept: &mut KeptKey,
    explainer: &mut Explainer,
    link: &mut L,
    cut: &Cut,
    buffer: &[u8],
    now: u64,
) -> Told
    requires now { now < year_10000 }
    requires trust { IsOfAccount explainer.old.facts.account trust.now }
    requires message { (m : Message) × CutsOff buffer.now cut.now m }
    ensures told { (m : Message) → CutsOff buffer.now cut.now m → IsTold (λ line. Tells explainer.old trust.now (whole m) now line explainer.new) (L.shows link.old) result (L.shows link.new) }
    ensures facts { explainer.new.facts ≡ explainer.old.facts }
{
    let Ok(line) = line_of(alloc, trust, kept, explainer, cut, buffer, now) else {
        return Told::Lacking;
    };
    if send(link, line.as_slice()) {
        Told::Whole
    } else {
        Told::Short
    }
}

// Writes the line of bytes that are refused.
fn tell_fault<L: Link>(alloc: Global, link: &mut L) -> Told
    ensures { IsTold (λ line. line ≡ early_line (codes "HttpFault")) (L.shows link.old) result (L.shows link.new) }
{
    let Ok(line) = early_line(alloc, "HttpFault") else {
        return Told::Lacking;
    };
    if send(link, line.as_slice()) {
        Told::Whole
    } else {
        Told::Short
    }
}

// Awaits one message and writes its line.
fn explain_one<L: Link, C: Clock>(
    alloc: Global,
    trust: &Trust,
    kept: &mut KeptKey,
    explainer: &mut Explainer,
    clock: &mut C,
    link: &mut L,
    inbox: &mut Inbox,
    number: u64,
) -> Option<SessionEnd>
    requires number { number < 100000 }
    requires trust { IsOfAccount explainer.old.facts.account trust.now }
    ensures goes { (start : Outside) → Explains trust.now start (outside (L.shows link.old) (C.told clock.old) explainer.old) false number inbox.old
        → GoesOn trust.now result start (outside (L.shows link.new) (C.told clock.new) explainer.new) (number + 1) inbox.new }
    ensures facts { explainer.new.facts ≡ explainer.old.facts }
{
    match await_message(inbox, link) {
        Awaited::Message(cut) => {
            let closes = closes_after(&cut, number);
            let now = clock.now();
            match tell_message(
                alloc,
                trust,
                kept,
                explainer,
                link,
                &cut,
                inbox.bytes(),
                now,
            ) {
                Told::Whole => {}
                Told::Short => return Some(SessionEnd::WriteFault),
                Told::Lacking => return Some(SessionEnd::NoMemory),
            }
            inbox.drop_front(cut.len());
            if closes {
                Some(SessionEnd::Closed)
            } else {
                None
            }
        }
        Awaited::Bad(_fault) => {
            let _now = clock.now();
            match tell_fault(alloc, link) {
                Told::Whole => Some(SessionEnd::Closed),
                Told::Short => Some(SessionEnd::WriteFault),
                Told::Lacking => Some(SessionEnd::NoMemory),
            }
        }
        Awaited::End if inbox.is_empty() => Some(SessionEnd::Ended),
        Awaited::End => Some(SessionEnd::CutOff),
        Awaited::Failed => Some(SessionEnd::ReadFault),
    }
}

// Writes the line of one message after another, to the end.
fn explain_messages<L: Link, C: Clock>(
    alloc: Global,
    trust: &Trust,
    explainer: &mut Explainer,
    clock: &mut C,
    link: &mut L,
) -> SessionEnd
    requires { IsOfAccount explainer.old.facts.account trust.now }
    ensures { EndsBy trust.now result (outside (L.shows link.old) (C.told clock.old) explainer.old)
        (outside (L.shows link.new) (C.told clock.new) explainer.new) }
{
    let Ok(mut inbox) = Inbox::new(alloc) else {
        return SessionEnd::NoMemory;
    };
    let mut kept = KeptKey::new();
    for number in 0..MESSAGES {
        match explain_one(
            alloc, trust, &mut kept, explainer, clock, link, &mut inbox, number,
        ) {
            Some(end) => return end,
            None => {}
        }
    }
    SessionEnd::Closed
}

/// Reads the messages of a connection to its end, as a session of this account does, and writes one line for each in place of its reply: the certificate of its
/// request, and the exception of its reply or `Ok` (`Explained`).
///
/// A message that changes the account comes after housekeeping, and its entry is appended. One that is
/// refused before the account is asked, and bytes that are refused, have the line of a request without
/// questions, with their exception. The ends are those of a session, with this difference: where memory
/// is wanting for a line, the session ends there with `NoMemory`, and nothing of that line is written.
/// The condition is that whoever may be the caller is of the account.
pub fn explain_session<L: Link, C: Clock>(
    alloc: Global,
    account: Account,
    trust: &Trust,
    clock: &mut C,
    link: &mut L,
) -> SessionEnd
    requires { IsOfAccount account.facts.account trust.now }
    ensures { Explained account trust.now result (L.shows link.old) (C.told clock.old) (L.shows link.new) (C.told clock.new) }
{
    let mut explainer = Explainer::new(account);
    explain_messages(alloc, trust, &mut explainer, clock, link)
}
