// `load`.
ghost use Rattle.kms_program.specs.Program.{Sums};

use crate::statuses::{NO_MEMORY, UNWRITTEN};
use kms_io::{Gate, Link};
use kms_names::NoMemory;
use kms_session::send;
use kms_words::LoadWords;
use kms_workload::run_workload;
use std::alloc::Global;
use std::sync::Wait;

/// `load`: serves the workload of a seed in memory, and writes the lines that sum it up.
pub fn load<W: Wait, L: Link, G: Gate>(
    rt: &W,
    alloc: Global,
    words: LoadWords,
    link: &mut L,
    gate: &G,
) -> u8
    ensures { Sums words.seed words.requests result (L.shows link.old) (L.shows link.new) }
{
    match run_workload(rt, alloc, words.seed, words.requests, gate) {
        Ok(lines) if send(link, lines.as_bytes()) => 0,
        Ok(_) => UNWRITTEN,
        Err(NoMemory) => NO_MEMORY,
    }
}
