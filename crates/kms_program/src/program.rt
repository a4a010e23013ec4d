// The program, but for its handles.
ghost use Rattle.std.specs.Prelude.{◌≡◌, ℕ, List, Option, Some, map, string_bytes, vec_len};
ghost use Rattle.kms_io.specs.Shelf.{Shelf};
ghost use Rattle.kms_words.specs.Words.{shown, command_of};
ghost use Rattle.kms_program.specs.Program.{around, everything, one_of, Checks, WithFile, Does, Runs};
ghost use Rattle.kms_program.specs.Complete.{Completes};

use crate::configs::obtain_config;
use crate::lines::{say_usage, tell_checked};
use crate::loading::load;
use crate::serving::serve_file;
use crate::sessions::{Task, hold_session};
use crate::statuses::{MISUSED, NO_MEMORY, UNWRITTEN};
use kms_config::Config;
use kms_io::{Clock, Door, Ear, Files, Gate, Link};
use kms_names::NoMemory;
use kms_words::{Asked, read_words};
use std::alloc::Global;
use std::sync::Wait;
use std::thread::Threads;

// `check` with what a file holds.
fn check_config<L: Link>(alloc: Global, config: &Config, link: &mut L) -> u8
    ensures { (clock : Option (List ℕ)) (shelf later : Shelf) → Checks config.now result (around (L.shows link.old) clock shelf) (around (L.shows link.new) clock later) }
{
    let credentials = config.credentials.as_slice().len();
    let principals = config.facts.identities.as_slice().len();
    match tell_checked(alloc, link, credentials, principals) {
        Ok(true) => 0,
        Ok(false) => UNWRITTEN,
        Err(NoMemory) => NO_MEMORY,
    }
}

// `check` with a file.
fn check_file<F: Files, L: Link>(alloc: Global, file: &str, files: &mut F, link: &mut L) -> u8
    ensures { (clock : Option (List ℕ)) → WithFile file.now result (around (L.shows link.old) clock (F.shows files.old)) (around (L.shows link.new) clock (F.shows files.new))
        (λ config. Checks config result (around (L.shows link.old) clock (F.shows files.old)) (around (L.shows link.new) clock (F.shows files.new))) }
{
    match obtain_config(alloc, files, link, file) {
        Ok(config) => check_config(alloc, &config, link),
        Err(status) => status,
    }
}

// Does what a command asks.
fn obey<
    W: Threads + Wait + Sync,
    F: Files,
    L: Link,
    C: Clock + Send + Drop,
    D: Door,
    G: Gate + Sync,
>(
    rt: &W,
    alloc: Global,
    asked: Asked<'_>,
    files: &mut F,
    clocks: &mut Vec<C>,
    link: &mut L,
    door: &mut D,
    gate: &G,
) -> u8
where
    <D::Listener as Ear>::Conn: Send,
    requires { vec_len clocks.old ≡ 64 }
    ensures { Does (Some (shown asked.entry)) result
        (everything (L.shows link.old) (F.shows files.old) (D.shows door.old) (map C.told clocks.old.items))
        (everything (L.shows link.new) (F.shows files.new) (D.shows door.new) (map C.told clocks.new.items)) }
{
    match asked {
        Asked::Run(session) => {
            let clock = &mut clocks[0];
            hold_session(rt, alloc, Task::Serve, session, files, clock, link, gate)
        }
        Asked::Explain(session) => {
            let clock = &mut clocks[0];
            hold_session(rt, alloc, Task::Explain, session, files, clock, link, gate)
        }
        Asked::Export(session) => {
            let clock = &mut clocks[0];
            hold_session(rt, alloc, Task::Export, session, files, clock, link, gate)
        }
        Asked::Check(file) => check_file(alloc, file, files, link),
        Asked::Serve(words) => serve_file(rt, alloc, &words, files, clocks, link, door, gate),
        Asked::Load(words) => load(rt, alloc, words, link, gate),
    }
}

// Does all that the program does, and gives its status.
fn obey_words<
    W: Threads + Wait + Sync,
    F: Files,
    L: Link,
    C: Clock + Send + Drop,
    D: Door,
    G: Gate + Sync,
>(
    rt: &W,
    alloc: Global,
    words: &[String],
    files: &mut F,
    link: &mut L,
    clocks: &mut Vec<C>,
    door: &mut D,
    gate: &G,
) -> u8
where
    <D::Listener as Ear>::Conn: Send,
    requires { vec_len clocks.old ≡ 64 }
    ensures { Runs (map string_bytes words.now) result
        (everything (L.shows link.old) (F.shows files.old) (D.shows door.old) (map C.told clocks.old.items))
        (everything (L.shows link.new) (F.shows files.new) (D.shows door.new) (map C.told clocks.new.items)) }
{
    match read_words(alloc, words) {
        Ok(Some(asked)) => obey(rt, alloc, asked, files, clocks, link, door, gate),
        Ok(None) => {
            say_usage(link);
            MISUSED
        }
        Err(NoMemory) => NO_MEMORY,
    }
}

/// Does all that the program does, and gives its status.
///
/// The words are one of these, with the options in any order, each `--name value` or `--name=value` and
/// at most once. Each begins with no entries, or with those of the journal that `--load FILE` names, which
/// `run`, `explain`, `export` and `serve` take.
///
/// * `run --account A --region R --root HEX --as ARN`, and perhaps `--boot N` (1): one session is served on
///   the link, with the first clock. Whoever sends a message counts as the principal of the ARN.
/// * `run --config FILE`: the same for the file's account. Messages are signed with one of its credentials;
///   with `--as ARN` whoever sends a message counts as that principal of the account.
/// * `explain` with the options of one of these two: the same messages are read and decided on, and each has
///   one line in place of its reply: whether it is allowed, by which ground and with which marks of the statements and
///   the grants that were asked, and the exception of the reply that it would have, or `Ok`.
/// * `export` with the options of `run`: the session is served with its replies kept back, and the journal of
///   the account that it leaves is written in their place.
/// * `check --config FILE`: writes how many credentials and how many principals with policies the file
///   has.
/// * `serve --config FILE --listen ADDRESS`, and perhaps `--workers W` (1 to 64, else 4) and
///   `--connections K` (1 to 1,000,000,000, else as many as come): the door is opened once, at the address, and W
///   workers take K connections each, one after another, with the first W clocks. Messages are signed. In
///   the end a line tells how many connections were taken, and how many entries there are: those that were loaded,
///   and those that the workers' passes made; with `--export` the journal of the account follows it.
/// * `load --seed N --requests M` (M from 1 to 100,000): the workload of the seed is served in memory, and
///   five lines sum it up.
///
/// Status 2 is for other words (a usage line is written); 3 for a configuration that is refused, the
/// first value of `run` that has not its form, or a journal that is refused (a line names the path, `/` and
/// the option, or `/load` and the line); 4 for input that ended inside a message; 5 for a read that failed, of the link or of the file, for a door that
/// couldn't be opened, and where the ear of a worker failed 16 times in a row; 6 for a write that failed, whatever else
/// the status of `serve` would be; 7 for want of memory (of `run` with nothing taken; of `explain` also where it is wanting for a line, after the lines
/// before it); and 0 otherwise. Where the line of status 2 or 3
/// can't be written whole the status stays. The files are asked for the file of `--config` and then for that of
/// `--load` alone, each once, and the door is opened by `serve` alone.
///
/// Where no count of faults rises and the link has only whole messages to give, or some up to one that closes, `run` answers each
/// of them, once and in order, writes nothing else, and ends with status 0; so `explain` writes one line for each, and `export` the journal
/// of the account that the answers leave; `check` and `load` write their lines whole, with status
/// 0. Else the status is 3, for what is refused, or 7, for want of memory (`Completes`).
pub fn kms_main<
    W: Threads + Wait + Sync,
    F: Files,
    L: Link,
    C: Clock + Send + Drop,
    D: Door,
    G: Gate + Sync,
>(
    rt: &W,
    alloc: Global,
    words: &[String],
    files: &mut F,
    link: &mut L,
    clocks: &mut Vec<C>,
    door: &mut D,
    gate: &G,
) -> u8
where
    <D::Listener as Ear>::Conn: Send,
    requires { vec_len clocks.old ≡ 64 }
    ensures runs { Runs (map string_bytes words.now) result
        (everything (L.shows link.old) (F.shows files.old) (D.shows door.old) (map C.told clocks.old.items))
        (everything (L.shows link.new) (F.shows files.new) (D.shows door.new) (map C.told clocks.new.items)) }
    ensures completes { Completes (command_of (map string_bytes words.now)) result
        (one_of (everything (L.shows link.old) (F.shows files.old) (D.shows door.old) (map C.told clocks.old.items)))
        (one_of (everything (L.shows link.new) (F.shows files.new) (D.shows door.new) (map C.told clocks.new.items))) }
{
    obey_words(rt, alloc, words, files, link, clocks, door, gate)
}
