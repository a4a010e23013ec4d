// A workload from its seed to its summary.
ghost use Rattle.std.specs.Prelude.{◌≡◌, ◌≤◌, ◌<◌, ◌-◌, ℕ, [], Some, IfOk, string_bytes};
ghost use Rattle.hex.specs.Hex.{encode_lower};
ghost use Rattle.kms_io.specs.MemoryLink.{wire_of};
ghost use Rattle.kms_workload.specs.Facts.{load_facts, load_trust};
ghost use Rattle.kms_workload.specs.Clock.{seconds_so_far};
ghost use Rattle.kms_workload.specs.Workload.{workload_of};
ghost use Rattle.kms_workload.specs.Session.{Serving, wire_before, is_over};
ghost use Rattle.kms_workload.specs.Summary.{summary_of, Summarizes};
ghost use Rattle.kms_workload.specs.Tally.{Tallies};

use crate::clock::LoadClock;
use crate::messages::messages;
use crate::replies::count_served;
use crate::serve::{Past, serve};
use kms_io::{Gate, MemoryLink};
use kms_names::NoMemory;
use kms_session::SessionEnd;
use sha2::{Digest, Sha256};
use std::alloc::Global;
use std::sync::Wait;

/// What came of a workload.
#[derive(Clone, Copy)]
pub struct Tally {
    pub served: u32,
    pub front: u64,
    pub digest: [u8; 32],
}

// Whether all that the link had to give is answered, or the last reply closed the session.
fn is_over(end: SessionEnd) -> bool
    ensures { result ≡ is_over end }
{
    match end {
        SessionEnd::Ended | SessionEnd::Closed => true,
        SessionEnd::CutOff
        | SessionEnd::ReadFault
        | SessionEnd::WriteFault
        | SessionEnd::NoMemory => false,
    }
}

// What came of a session over a link that has this workload alone to give. A session that ended in any
// other way than by its last message wanted memory.
fn tally_of(
    link: &MemoryLink,
    clock: &LoadClock,
    past: Past,
    requests: u32,
) -> Result<Tally, NoMemory>
    ensures { (seed : ℕ) → Serving load_facts load_trust past (wire_before (workload_of seed requests)) (Some []) (wire_of link.now) (seconds_so_far clock.now)
        → IfOk result (Tallies seed requests) }
{
    if !is_over(past.end) || clock.calls() != u64::from(requests) {
        return Err(NoMemory);
    }
    let Some(served) = count_served(link.written(), requests) else {
        return Err(NoMemory);
    };
    Ok(Tally {
        served,
        front: past.front,
        digest: Sha256::digest(link.written()),
    })
}

// Serves the workload.
fn serve_workload<W: Wait, G: Gate>(
    rt: &W,
    alloc: Global,
    seed: u64,
    requests: u32,
    gate: &G,
) -> Result<Tally, NoMemory>
    ensures { IfOk result (Tallies seed requests) }
{
    let input = messages(alloc, seed, requests)?;
    let mut link = MemoryLink::new(
        alloc,
        input,
        Vec::new(alloc),
        Vec::new(alloc),
        Vec::new(alloc),
    );
    let mut clock = LoadClock::new();
    let past = serve(rt, alloc, &mut clock, &mut link, gate)?;
    tally_of(&link, &clock, past, requests)
}

// The five lines.
fn summary(alloc: Global, requests: u32, tally: &Tally) -> Result<String, NoMemory>
    requires { tally.now.served ≤ requests }
    ensures { IfOk result (λ lines. string_bytes lines ≡ summary_of requests tally.now.served (requests - tally.now.served) tally.now.front (encode_lower tally.now.digest)) }
{
    let served = tally.served;
    let refused = requests - served;
    let front = tally.front;
    let digest = hex::encode(alloc, tally.digest.as_slice())?;
    let digest = digest.as_str();
    Ok(format!(in alloc;
        "requests {requests}\nserved {served}\nrefused {refused}\nfront {front}\nsha256 {digest}\n"
    )?)
}

/// Serves the workload of a seed, of 1 to 100,000 messages, through one session over a link in memory,
/// and gives its summary, five lines that each end with a line feed: `requests` and the number of
/// messages, `served` and the number of replies of status 200, `refused` and that of all others, `front`
/// and the number of entries that the account's history has then, and `sha256` and the digest (FIPS
/// 180-4) of all the replies in lower-case hex.
///
/// The account is 111122223333 in us-east-1, with a root secret of zeros and boot 1; the caller is the
/// account's root; the clock answers 1700000000 first and then adds one second a call. The first eight
/// messages make a key each. What each later one asks, of which of those keys, is chosen by three words
/// of the ChaCha20 key stream (RFC 8439, section 2.4) under the digest of the seed.
///
/// An error comes where there isn't memory enough for the messages, the service, the session's buffer,
/// the replies or the lines. For want of memory in a single answer the session goes on, and its reply of
/// status 500 is counted among the refused. The messages and all their replies are in memory, some 2,000
/// bytes for each message.
pub fn run_workload<W: Wait, G: Gate>(
    rt: &W,
    alloc: Global,
    seed: u64,
    requests: u32,
    gate: &G,
) -> Result<String, NoMemory>
    requires { (0 < requests) × (requests ≤ 100000) }
    ensures { IfOk result (λ lines. Summarizes seed requests (string_bytes lines)) }
{
    let tally = serve_workload(rt, alloc, seed, requests, gate)?;
    summary(alloc, requests, &tally)
}
