// One connection, from its first byte to its end.
ghost use Rattle.std.specs.Prelude.{◌≡◌, ◌+◌, ◌<◌, MatchBool, IfOk, OnErr, Err, true, false};
ghost use Rattle.kms_names.specs.Moment.{year_10000};
ghost use Rattle.kms_json.specs.Asks.{changes_account};
ghost use Rattle.kms_json.specs.declared.replies.Reply.TheVariants.{Refused};
ghost use Rattle.account_core.specs.Decide.{IsProper};
ghost use Rattle.published_account.specs.Answers.{answer_of};
ghost use Rattle.kms_session.specs.Answers.{fault_answer};
ghost use Rattle.session_front.specs.Items.{whole};
ghost use Rattle.kms_session.specs.Run.{asks, answered, plan_of, Wanting, Unkept};
ghost use Rattle.keepers.specs.declared.keeps.Unmade.TheVariants.{Unkept as NotKept};
ghost use Rattle.session_front.specs.Callers.{IsOfAccount};
ghost use Rattle.http_front.specs.Message.{Message, CutsOff};
ghost use Rattle.kms_session.specs.Replying.{Gives};
ghost use Rattle.session_front.specs.Session.{outside};
ghost use Rattle.kms_session.specs.Session.{Outside, Responds, RespondsShort, Serves, EndsBy, GoesOn};
ghost use Rattle.kms_session.specs.Complete.{TellsTaken, IsOneEnd, IsComplete};

use crate::outbox::{ROOM, send_reply};
use http_front::{Cut, HttpFault};
use kms_io::{Clock, Gate, Link, Point};
use kms_json::{Ask, Refusal, Reply};
use kms_names::NoMemory;
use publish_pass::{Answered, Keeps, Pass, Realm, Service, Unmade, Unread, answer_with};
use session_front::{
    Awaited, Early, Inbox, KeptKey, MESSAGES, SessionEnd, Trust, await_message, closes_after,
    early, send,
};
use std::alloc::Global;
use std::sync::Wait;

const FIVE_HUNDRED: &[u8] =
    b"HTTP/1.1 500 Internal Server Error\r\nContent-Type: application/x-amz-json-1.1\r\nContent-Length: 61\r\n\r\n{\"__type\":\"KMSInternalException\",\"message\":\"Want of memory.\"}";

const NOT_KEPT: &[u8] =
    b"HTTP/1.1 500 Internal Server Error\r\nContent-Type: application/x-amz-json-1.1\r\nContent-Length: 68\r\n\r\n{\"__type\":\"KMSInternalException\",\"message\":\"The change isn't kept.\"}";

// What a session is served with.
#[derive(Drop)]
struct Facilities<'a, W: Wait, R: Realm, K: Keeps, G: Gate> {
    rt: &'a W,
    alloc: Global,
    service: &'a Service<R, K>,
    trust: &'a Trust,
    gate: &'a G,
}

// What a session keeps from one message to the next. No answer depends on it.
#[derive(Drop)]
struct Kept {
    key: KeptKey,
    // Where a reply is put together.
    room: [u8; ROOM],
}

// The region of the service whose pass this is.
fn region_of<'a, R: Realm, K: Keeps>(service: &'a Service<R, K>, pass: &Pass<R>) -> &'a str
    ensures { result.now ≡ pass.now.facts.region }
{
    let _seen = pass.seen();
    service.region()
}

fn fault_body(fault: HttpFault) -> &'static [u8]
    ensures { result.now ≡ (fault_answer fault).body }
{
    match fault {
        HttpFault::BadHead => b"{\"__type\":\"HttpFault\",\"message\":\"BadHead\"}",
        HttpFault::NotPost => b"{\"__type\":\"HttpFault\",\"message\":\"NotPost\"}",
        HttpFault::NotRoot => b"{\"__type\":\"HttpFault\",\"message\":\"NotRoot\"}",
        HttpFault::Chunked => b"{\"__type\":\"HttpFault\",\"message\":\"Chunked\"}",
        HttpFault::TwoLengths => b"{\"__type\":\"HttpFault\",\"message\":\"TwoLengths\"}",
        HttpFault::NoLength => b"{\"__type\":\"HttpFault\",\"message\":\"NoLength\"}",
        HttpFault::TooLong => b"{\"__type\":\"HttpFault\",\"message\":\"TooLong\"}",
    }
}

fn fault_status(fault: HttpFault) -> u16
    ensures { result ≡ (fault_answer fault).status }
{
    match fault {
        HttpFault::BadHead => 400,
        HttpFault::NotPost => 405,
        HttpFault::NotRoot => 404,
        HttpFault::Chunked => 501,
        HttpFault::TwoLengths => 400,
        HttpFault::NoLength => 411,
        HttpFault::TooLong => 413,
    }
}

// Answers a request that doesn't change the account. Where the published account can't be entered, it is asked
// again.
#[tactic(auto, using(crate::proofs::ReplyLemmas::misses_none, crate::proofs::ReplyLemmas::misses_more))]
fn answer_read<R: Realm, W: Wait>(
    rt: &W,
    alloc: Global,
    pass: &mut Pass<R>,
    ask: &Ask,
) -> Result<Answered, NoMemory>
    requires proper { IsProper pass.old.facts ask.now }
    requires reads { changes_account ask.now.body ≡ false }
    ensures answer { IfOk result (λ a. Gives pass.old (asks ask.now) a pass.new) }
    ensures wants { OnErr result (Wanting pass.old (asks ask.now) pass.new) }
{
    for _ in rt.forever() {
        match pass.read(alloc, ask) {
            Ok(answered) => return Ok(answered),
            Err(Unread::NoMemory) => return Err(NoMemory),
            Err(Unread::NotEntered) => {}
        }
    }
    unreachable!()
}

// Answers a request of the account.
fn answer_ask<W: Wait, R: Realm, K: Keeps, G: Gate>(
    host: &Facilities<'_, W, R, K, G>,
    pass: &mut Pass<R>,
    ask: &Ask,
) -> Result<Answered, Unmade>
    requires { IsProper pass.old.facts ask.now }
    ensures answer { IfOk result (λ a. Gives pass.old (asks ask.now) a pass.new) }
    ensures wants { OnErr result (Wanting pass.old (asks ask.now) pass.new) }
    ensures unkept { result ≡ Err NotKept → Unkept K.keeps pass.old (asks ask.now) pass.new }
{
    if ask.changes() {
        return pass.change(host.rt, host.alloc, host.service, ask, host.gate);
    }
    Ok(answer_read(host.rt, host.alloc, pass, ask)?)
}

// Answers a request that asks nothing of the account.
fn answer_refusal<R: Realm>(
    alloc: Global,
    pass: &Pass<R>,
    refusal: Refusal,
) -> Result<Answered, NoMemory>
    ensures { IfOk result (λ a. Gives pass.now (answered (answer_of (Refused refusal))) a pass.now) }
{
    answer_with(alloc, pass.seen(), Reply::Refused(refusal))
}

// Answers a message.
fn answer_message<W: Wait, R: Realm, K: Keeps, G: Gate>(
    host: &Facilities<'_, W, R, K, G>,
    kept: &mut KeptKey,
    pass: &mut Pass<R>,
    cut: &Cut,
    buffer: &[u8],
    now: u64,
) -> Result<Answered, Unmade>
    requires now { now < year_10000 }
    requires trust { IsOfAccount pass.old.facts.account host.now.trust.now }
    requires message { (m : Message) × CutsOff buffer.now cut.now m }
    ensures answer { (m : Message) → CutsOff buffer.now cut.now m → IfOk result (λ a. Gives pass.old (plan_of host.now.trust.now pass.old.facts.region (whole m) now) a pass.new) }
    ensures wants { (m : Message) → CutsOff buffer.now cut.now m → OnErr result (Wanting pass.old (plan_of host.now.trust.now pass.old.facts.region (whole m) now) pass.new) }
    ensures unkept { (m : Message) → CutsOff buffer.now cut.now m → result ≡ Err NotKept → Unkept K.keeps pass.old (plan_of host.now.trust.now pass.old.facts.region (whole m) now) pass.new }
{
    let region = region_of(host.service, pass);
    match early(host.alloc, kept, cut, buffer, host.trust, region, now) {
        Ok(ask) => answer_ask(host, pass, &ask),
        Err(Early::Fault(refusal)) => Ok(answer_refusal(host.alloc, pass, refusal)?),
        Err(Early::NoMemory) => Err(Unmade::NoMemory),
    }
}

// Answers a message on the link. It is false where the link failed.
fn respond<W: Wait, R: Realm, K: Keeps, L: Link, G: Gate>(
    host: &Facilities<'_, W, R, K, G>,
    kept: &mut Kept,
    pass: &mut Pass<R>,
    link: &mut L,
    cut: &Cut,
    buffer: &[u8],
    now: u64,
    closes: bool,
) -> bool
    requires now { now < year_10000 }
    requires trust { IsOfAccount pass.old.facts.account host.now.trust.now }
    requires message { (m : Message) × CutsOff buffer.now cut.now m }
    ensures { (m : Message) → CutsOff buffer.now cut.now m → MatchBool result
        (Responds K.keeps pass.old (plan_of host.now.trust.now pass.old.facts.region (whole m) now) now closes (L.shows link.old) (L.shows link.new) pass.new)
        (RespondsShort K.keeps pass.old (plan_of host.now.trust.now pass.old.facts.region (whole m) now) now closes (L.shows link.old) (L.shows link.new) pass.new) }
{
    match answer_message(host, &mut kept.key, pass, cut, buffer, now) {
        Ok(a) => send_reply(
            &mut kept.room,
            link,
            a.status,
            a.body.as_slice(),
            now,
            a.front,
            closes,
        ),
        Err(Unmade::NoMemory) => send(link, FIVE_HUNDRED),
        Err(Unmade::Unkept) => send(link, NOT_KEPT),
    }
}

// Answers bytes that are refused. It is false where the link failed.
fn respond_fault<R: Realm, K: Keeps, L: Link>(
    room: &mut [u8],
    pass: &Pass<R>,
    link: &mut L,
    fault: HttpFault,
    now: u64,
) -> bool
    requires { now < year_10000 }
    ensures { MatchBool result
        (Responds K.keeps pass.now (answered (fault_answer fault)) now true (L.shows link.old) (L.shows link.new) pass.now)
        (RespondsShort K.keeps pass.now (answered (fault_answer fault)) now true (L.shows link.old) (L.shows link.new) pass.now) }
{
    send_reply(
        room,
        link,
        fault_status(fault),
        fault_body(fault),
        now,
        pass.seen(),
        true,
    )
}

// Awaits one message and answers it.
fn serve_one<W: Wait, R: Realm, K: Keeps, L: Link, C: Clock, G: Gate>(
    host: &Facilities<'_, W, R, K, G>,
    kept: &mut Kept,
    pass: &mut Pass<R>,
    clock: &mut C,
    link: &mut L,
    inbox: &mut Inbox,
    number: u64,
) -> Option<SessionEnd>
    requires number { number < 100000 }
    requires trust { IsOfAccount pass.old.facts.account host.now.trust.now }
    ensures goes { (start : Outside) → Serves K.keeps host.now.trust.now start (outside (L.shows link.old) (C.told clock.old) pass.old) false number inbox.old
        → GoesOn K.keeps host.now.trust.now result start (outside (L.shows link.new) (C.told clock.new) pass.new) (number + 1) inbox.new }
    ensures facts { pass.new.facts ≡ pass.old.facts }
{
    match await_message(inbox, link) {
        Awaited::Message(cut) => {
            let closes = closes_after(&cut, number);
            let now = clock.now();
            if !respond(host, kept, pass, link, &cut, inbox.bytes(), now, closes) {
                return Some(SessionEnd::WriteFault);
            }
            host.gate.at(Point::AfterReply);
            inbox.drop_front(cut.len());
            if closes {
                Some(SessionEnd::Closed)
            } else {
                None
            }
        }
        Awaited::Bad(fault) => {
            let now = clock.now();
            if respond_fault::<R, K, L>(&mut kept.room, pass, link, fault, now) {
                host.gate.at(Point::AfterReply);
                Some(SessionEnd::Closed)
            } else {
                Some(SessionEnd::WriteFault)
            }
        }
        Awaited::End if inbox.is_empty() => Some(SessionEnd::Ended),
        Awaited::End => Some(SessionEnd::CutOff),
        Awaited::Failed => Some(SessionEnd::ReadFault),
    }
}

// Answers one message after another, to the end.
fn serve_messages<W: Wait, R: Realm, K: Keeps, L: Link, C: Clock, G: Gate>(
    rt: &W,
    alloc: Global,
    service: &Service<R, K>,
    pass: &mut Pass<R>,
    trust: &Trust,
    clock: &mut C,
    link: &mut L,
    gate: &G,
) -> SessionEnd
    requires { IsOfAccount pass.old.facts.account trust.now }
    ensures { EndsBy K.keeps trust.now result (outside (L.shows link.old) (C.told clock.old) pass.old)
        (outside (L.shows link.new) (C.told clock.new) pass.new) }
{
    let Ok(mut inbox) = Inbox::new(alloc) else {
        return SessionEnd::NoMemory;
    };
    let host = Facilities {
        rt,
        alloc,
        service,
        trust,
        gate,
    };
    let mut kept = Kept {
        key: KeptKey::new(),
        room: [0; ROOM],
    };
    for number in 0..MESSAGES {
        match serve_one(&host, &mut kept, pass, clock, link, &mut inbox, number) {
            Some(end) => return end,
            None => {}
        }
    }
    SessionEnd::Closed
}

/// Serves a connection to its end.
///
/// What is written is the replies of a run of turns over the messages into which the bytes taken are
/// cut, in whatever pieces they come, and each end comes by its cause (`EndsBy`). Who asks by a message
/// is judged before what it asks: under `Trust::Signed` a message that nobody signed for the service's
/// region, by the clock's answer, is refused (`MissingAuthenticationTokenException`,
/// `IncompleteSignatureException`, `UnrecognizedClientException`, `RequestExpired`,
/// `InvalidSignatureException`, in this order), and asks nothing of the account. The condition is that
/// whoever may be the caller is of the service's account. The clock is asked once for each message
/// answered. The buffer of 147,456 bytes is reserved before the first byte is
/// taken, and nothing is read while it holds a whole message. The signing key of the last credential and day
/// is kept for the connection, with that credential's secret (`KeptKey`); no answer depends on it. Where the service has one pass, each change finds
/// the history that the pass held before it, and leaves exactly the pass's own entries. It makes at most 100,000 answers. The gate
/// is called at `AfterReply` once each reply was written whole. Where the service keeps its changes, a change that couldn't be kept is
/// answered by a reply that says so (`isnt_kept` of `Replies`), and isn't made.
///
/// Where the link has only whole messages to give, or some up to one that closes, and its counts of faults don't rise, each is
/// answered once and in order, nothing else is written, and the end is `Ended`, or `Closed` where the last one closes; or it is
/// `NoMemory` with nothing taken (`IsComplete`). Where the bytes taken are told, no two of `Ended`, `Closed` and `CutOff` can hold,
/// but of bytes that no head can come of or that have more than 64 headers (`IsOneEnd`).
pub fn serve_session<W: Wait, R: Realm, K: Keeps, L: Link, C: Clock, G: Gate>(
    rt: &W,
    alloc: Global,
    service: &Service<R, K>,
    pass: &mut Pass<R>,
    trust: &Trust,
    clock: &mut C,
    link: &mut L,
    gate: &G,
) -> SessionEnd
    requires { IsOfAccount pass.old.facts.account trust.now }
    ensures ends { EndsBy K.keeps trust.now result (outside (L.shows link.old) (C.told clock.old) pass.old) (outside (L.shows link.new) (C.told clock.new) pass.new) }
    ensures complete { IsComplete K.keeps trust.now result (outside (L.shows link.old) (C.told clock.old) pass.old) (outside (L.shows link.new) (C.told clock.new) pass.new) }
    ensures one { TellsTaken (outside (L.shows link.old) (C.told clock.old) pass.old) (outside (L.shows link.new) (C.told clock.new) pass.new)
        → IsOneEnd K.keeps trust.now (outside (L.shows link.old) (C.told clock.old) pass.old) (outside (L.shows link.new) (C.told clock.new) pass.new) }
{
    serve_messages(rt, alloc, service, pass, trust, clock, link, gate)
}
