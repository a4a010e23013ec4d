//! Measures sealing and opening. Run as `gcm_speed MILLISECONDS`, it seals and opens texts of 16, 64,
//! 1,024 and 4,096 bytes for that time each, and prints a line for each: what was done, the text's
//! bytes, how often, and in how many nanoseconds. Each call makes its key schedule, hash key and table
//! anew, and each opening starts with a copy of the ciphertext. With no argument it says how it is run.
#![tactic(auto)]

ghost use Rattle.std.specs.Prelude.{◌≡◌, ◌≤◌, length};

use gcm_seal::{open, seal};
use std::rt::{Clock, Env};
use std::time::{Duration, Instant};
use std::{env, io};

// The bytes of the longest text.
const LONGEST: usize = 4096;

// The calls between two looks at the clock.
const BATCH: u64 = 64;

// Calls, and the time that they took.
struct Measured {
    calls: u64,
    nanos: u128,
}

fn main(rt: HostRuntime) -> io::Result<()> {
    match time_given(&rt)? {
        Some(time) => measure(&rt, time),
        None => println!(rt; "usage: gcm_speed MILLISECONDS"),
    }
}

// The time that the first argument gives, in milliseconds.
fn time_given(rt: &(impl Env + Alloc)) -> io::Result<Option<Duration>> {
    match env::args(rt)?.nth(1) {
        Some(word) => match word.as_str().parse::<u32>() {
            Ok(millis) => Ok(Some(Duration::from_millis(u64::from(millis)))),
            Err(_) => Ok(None),
        },
        None => Ok(None),
    }
}

fn measure(rt: &(impl Clock + Print), time: Duration) -> io::Result<()> {
    measure_at(rt, 16, time)?;
    measure_at(rt, 64, time)?;
    measure_at(rt, 1024, time)?;
    measure_at(rt, LONGEST, time)
}

fn measure_at(rt: &(impl Clock + Print), size: usize, time: Duration) -> io::Result<()>
    requires { size ≤ 4096 }
{
    let mut text = [0; LONGEST];
    let Measured { calls, nanos } = measured_sealing(rt, &mut text[..size], time)?;
    println!(rt; "seal {size} {calls} {nanos}")?;
    let Measured { calls, nanos } = measured_opening(rt, &mut text[..size], time)?;
    println!(rt; "open {size} {calls} {nanos}")
}

fn measured_sealing(rt: &impl Clock, text: &mut [u8], time: Duration) -> io::Result<Measured>
    requires { length text.old ≤ 4096 }
{
    let start = Instant::now(rt)?;
    let mut calls = 0u64;
    for _ in 0..u32::MAX {
        seal_often(text);
        calls = calls.saturating_add(BATCH);
        if start.elapsed(rt)? >= time {
            break;
        }
    }
    let nanos = start.elapsed(rt)?.as_nanos();
    Ok(Measured { calls, nanos })
}

// Seals a text over and over, each time under another key.
fn seal_often(text: &mut [u8])
    requires { length text.old ≤ 4096 }
{
    let mut key = [0; 32];
    for _ in 0..BATCH {
        let tag = seal(&key, &[0; 12], &[], text);
        key[..16].copy_from_slice(&tag);
    }
}

fn measured_opening(rt: &impl Clock, text: &mut [u8], time: Duration) -> io::Result<Measured>
    requires { length text.old ≤ 4096 }
{
    let mut sealed = [0; LONGEST];
    let size = text.len();
    let tag = seal(&[0; 32], &[0; 12], &[], &mut sealed[..size]);
    let start = Instant::now(rt)?;
    let mut calls = 0u64;
    for _ in 0..u32::MAX {
        calls = calls.saturating_add(open_often(text, &sealed[..size], &tag));
        if start.elapsed(rt)? >= time {
            break;
        }
    }
    let nanos = start.elapsed(rt)?.as_nanos();
    Ok(Measured { calls, nanos })
}

// Opens a ciphertext over and over, and counts how often it was found authentic.
fn open_often(text: &mut [u8], sealed: &[u8], tag: &[u8; 16]) -> u64
    requires short { length text.old ≤ 4096 }
    requires same { length text.old ≡ length sealed.now }
{
    let mut opened = 0u64;
    for _ in 0..BATCH {
        text.copy_from_slice(sealed);
        if open(&[0; 32], &[0; 12], &[], text, tag) {
            opened = opened.saturating_add(1);
        }
    }
    opened
}
