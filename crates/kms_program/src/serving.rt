// `serve`.
ghost use Rattle.std.specs.Prelude.{◌≡◌, ◌++◌, ℕ, List, map, vec_len, IfOk, OnErr};
ghost use Rattle.kms_io.specs.Shelf.{Shelf};
ghost use Rattle.session_front.specs.Callers.{IsOfAccount};
ghost use Rattle.session_front.specs.declared.trust.Trust.TheVariants.{Signed};
ghost use Rattle.kms_words.specs.Words.{serve_values_in};
ghost use Rattle.kms_program.specs.Program.{everything, served_line, Reports, IsJournalKept, ServesAccount, ServesConfig, ServesFile};

use crate::accounts::obtain_account;
use crate::configs::obtain_config;
use crate::exporting::journal_of;
use crate::lines::tell_served;
use crate::statuses::{NO_MEMORY, UNREAD, UNWRITTEN};
use account_core::Account;
use kms_config::Config;
use kms_io::{Clock, Door, Ear, Files, Gate, Link};
use kms_names::NoMemory;
use kms_server::{Kept, Order, Outcome, Served, serve};
use kms_session::Trust;
use kms_words::ServeWords;
use publish_pass::Nothing;
use std::alloc::Global;
use std::sync::Wait;
use std::thread::Threads;

// What came of the workers, as the line and the status, and behind the line the journal of what is kept.
fn report<L: Link>(alloc: Global, link: &mut L, served: Served, kept: &Kept) -> Result<u8, NoMemory>
    ensures said { IfOk result (λ status. (journal : List ℕ) × IsJournalKept kept.now journal × Reports served.is_whole (served_line served.connections served.front ++ journal) status (L.shows link.old) (L.shows link.new)) }
    ensures nothing { OnErr result (L.shows link.new ≡ L.shows link.old) }
{
    let journal = journal_of(alloc, kept)?;
    let is_told = tell_served(
        alloc,
        link,
        served.connections,
        served.front,
        journal.as_slice(),
    )?;
    Ok(match (is_told, served.is_whole) {
        (true, true) => 0,
        (true, false) => UNREAD,
        (false, _) => UNWRITTEN,
    })
}

// `serve` with the account that it begins with.
fn serve_account<
    W: Threads + Wait + Sync,
    L: Link,
    C: Clock + Send + Drop,
    D: Door,
    G: Gate + Sync,
>(
    rt: &W,
    alloc: Global,
    account: Account,
    trust: &Trust,
    words: &ServeWords<'_>,
    clocks: &mut Vec<C>,
    link: &mut L,
    door: &mut D,
    gate: &G,
) -> u8
where
    <D::Listener as Ear>::Conn: Send,
    requires callers { IsOfAccount account.facts.account trust.now }
    requires clocks { vec_len clocks.old ≡ 64 }
    ensures { (shelf later : Shelf) → ServesAccount account trust.now (serve_values_in words.now) result
        (everything (L.shows link.old) shelf (D.shows door.old) (map C.told clocks.old.items))
        (everything (L.shows link.new) later (D.shows door.new) (map C.told clocks.new.items)) }
{
    let order = Order {
        address: words.address,
        workers: words.workers,
        connections: words.connections,
        keeps: words.exports,
    };
    let (outcome, _nothing) = serve(
        rt, alloc, account, Nothing, trust, &order, clocks, door, gate,
    );
    match outcome {
        Outcome::Served(served, kept) => match report(alloc, link, served, &kept) {
            Ok(status) => status,
            Err(NoMemory) => NO_MEMORY,
        },
        Outcome::Shut => UNREAD,
        Outcome::NoMemory => NO_MEMORY,
    }
}

// `serve` with what a file holds.
fn serve_config<
    W: Threads + Wait + Sync,
    F: Files,
    L: Link,
    C: Clock + Send + Drop,
    D: Door,
    G: Gate + Sync,
>(
    rt: &W,
    alloc: Global,
    config: Config,
    words: &ServeWords<'_>,
    files: &mut F,
    clocks: &mut Vec<C>,
    link: &mut L,
    door: &mut D,
    gate: &G,
) -> u8
where
    <D::Listener as Ear>::Conn: Send,
    requires callers { IsOfAccount config.facts.account (Signed config.credentials) }
    requires clocks { vec_len clocks.old ≡ 64 }
    ensures { ServesConfig config (serve_values_in words.now) result
        (everything (L.shows link.old) (F.shows files.old) (D.shows door.old) (map C.told clocks.old.items))
        (everything (L.shows link.new) (F.shows files.new) (D.shows door.new) (map C.told clocks.new.items)) }
{
    let Config { facts, credentials } = config;
    let trust = Trust::Signed(credentials);
    match obtain_account(alloc, facts, words.load, files, link) {
        Ok(account) => serve_account(rt, alloc, account, &trust, words, clocks, link, door, gate),
        Err(status) => status,
    }
}

/// `serve`: the configuration's account, with the entries of the journal where one is named, is served at a door, to
/// whoever signs with one of its credentials, and then the line of what was served is written, and the account's journal
/// where that is asked for.
pub fn serve_file<
    W: Threads + Wait + Sync,
    F: Files,
    L: Link,
    C: Clock + Send + Drop,
    D: Door,
    G: Gate + Sync,
>(
    rt: &W,
    alloc: Global,
    words: &ServeWords<'_>,
    files: &mut F,
    clocks: &mut Vec<C>,
    link: &mut L,
    door: &mut D,
    gate: &G,
) -> u8
where
    <D::Listener as Ear>::Conn: Send,
    requires { vec_len clocks.old ≡ 64 }
    ensures { ServesFile (serve_values_in words.now) result
        (everything (L.shows link.old) (F.shows files.old) (D.shows door.old) (map C.told clocks.old.items))
        (everything (L.shows link.new) (F.shows files.new) (D.shows door.new) (map C.told clocks.new.items)) }
{
    match obtain_config(alloc, files, link, words.file) {
        Ok(config) => serve_config(rt, alloc, config, words, files, clocks, link, door, gate),
        Err(status) => status,
    }
}
