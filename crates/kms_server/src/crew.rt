// The workers of a server, from their passes, ears and clocks to the end of their work.
ghost use Rattle.std.specs.Prelude.{◌≡◌, ◌↔◌, ◌≤◌, ◌<◌, ◌+◌, ◌++◌, ◌∷◌, ◌^◌, ℕ, [], All, IsTrue, length, map, sum, take, drop, slice_index_or, vec_len, vec_capacity, false};
ghost use Rattle.std.specs.Sync.Mutex.{mutex_guard_value};
ghost use mathlib.Core.List.{IsPrefix};
ghost use Rattle.kms_io.specs.Door.{IsNewEar};
ghost use Rattle.session_front.specs.Callers.{IsOfAccount};
ghost use Rattle.kms_server.specs.Work.{Works};
ghost use Rattle.publish_pass.specs.Pass.{Learns};
ghost use Rattle.kms_server.specs.Crew.{Pairwise, Settles, HoldsAll, FirstHolds, FirstIsLongest, KeepsOf, taken_by};
ghost use Rattle.kms_server.specs.States.{state_of, states_of};

use crate::worker::{Worker, Workshop, work};
use account_core::Account;
use kms_io::{Clock, Ear, Gate};
use publish_pass::{Desk, Keeps, Pass, Realm, Service, Tally, Told, Unread};
use std::sync::{MutexGuard, Wait};
use std::thread;
use std::thread::Threads;

/// What is kept of the account.
#[derive(Drop)]
pub enum Kept {
    /// Nothing, since it isn't wanted.
    Nothing,
    /// All of it.
    Whole(Account),
    /// Nothing, for want of memory.
    NoMemory,
}

/// A worker for each pass, with the ears and the first clocks in order.
pub fn gather<R: Realm, E: Ear, C: Clock + Drop>(
    mut passes: Vec<Pass<R>>,
    ears: &mut Vec<E>,
    clocks: &mut Vec<C>,
    crew: &mut Vec<Worker<R, E, C>>,
)
    requires room { vec_len passes ≤ vec_capacity crew.old }
    requires nobody { crew.old.items ≡ [] }
    requires ears { vec_len ears.old ≡ vec_len passes }
    requires clocks { vec_len passes ≤ vec_len clocks.old }
    requires new { All (λ ear. IsNewEar (E.shows ear)) ears.old.items }
    ensures passes { map (λ worker. worker.pass) crew.new.items ≡ passes.items }
    ensures clocks { map (λ worker. worker.clock) crew.new.items ≡ take (vec_len passes) clocks.old.items }
    ensures ears { All (λ worker. IsNewEar (E.shows worker.ear)) crew.new.items }
    ensures taken { All (λ worker. worker.taken ≡ 0) crew.new.items }
    ensures size { vec_len crew.new ≡ vec_len passes }
    ensures rest { clocks.new.items ≡ drop (vec_len passes) clocks.old.items }
    ensures none { ears.new.items ≡ [] }
    ensures ears_room { vec_capacity ears.new ≡ vec_capacity ears.old }
    ensures clocks_room { vec_capacity clocks.new ≡ vec_capacity clocks.old }
{
    while !passes.is_empty() {
        crew.push_reserved(Worker {
            pass: passes.remove(0),
            ear: ears.remove(0),
            clock: clocks.remove(0),
            taken: 0,
        });
    }
}

// Lets each worker work in a thread of its own, where one can be had, until the last is done.
fn work_each<
    W: Threads + Wait + Sync,
    R: Realm + Send + Sync,
    K: Keeps + Send,
    G: Gate + Sync,
    E: Ear + Send,
    C: Clock + Send + Drop,
>(host: &Workshop<'_, W, R, K, G>, crew: &mut [Worker<R, E, C>])
where
    E::Conn: Send,
    requires some { 0 < length crew.old }
    requires trust { IsOfAccount R.facts.account host.now.trust.now }
    requires is_in { All (λ worker. (E.shows worker.ear).is_out ≡ false) crew.old }
    requires new { All (λ worker. worker.taken ≡ 0) crew.old }
    ensures { (i : ℕ) (d : _) → i < length crew.old → Works K.keeps host.now.trust.now host.now.connections (state_of C.told E.shows (slice_index_or crew.old i d)) (state_of C.told E.shows (slice_index_or crew.new i d)) }
{
    let threads = crew.len();
    thread::for_each_mut(host.rt, crew, threads, &|_, worker| work(host, worker));
}

/// Lets all workers work, each in a thread of its own where one can be had, until the last is done.
pub fn work_all<
    W: Threads + Wait + Sync,
    R: Realm + Send + Sync,
    K: Keeps + Send,
    G: Gate + Sync,
    E: Ear + Send,
    C: Clock + Send + Drop,
>(host: &Workshop<'_, W, R, K, G>, crew: &mut [Worker<R, E, C>])
where
    E::Conn: Send,
    requires some { 0 < length crew.old }
    requires trust { IsOfAccount R.facts.account host.now.trust.now }
    requires is_in { All (λ worker. (E.shows worker.ear).is_out ≡ false) crew.old }
    requires new { All (λ worker. worker.taken ≡ 0) crew.old }
    ensures { Pairwise (Works K.keeps host.now.trust.now host.now.connections) (states_of C.told E.shows crew.old) (states_of C.told E.shows crew.new) }
{
    work_each(host, crew);
}

// Lets a worker's pass learn at the desk: its history goes on, and nothing else of the worker changes.
fn settle<W: Wait, R: Realm, K: Keeps, E: Ear, C: Clock + Drop>(
    rt: &W,
    service: &Service<R, K>,
    worker: &mut Worker<R, E, C>,
)
    ensures { Settles (state_of C.told E.shows worker.old) (state_of C.told E.shows worker.new) }
{
    let _ = MutexGuard::unlock(worker.pass.settle(rt, service));
}

/// Lets each worker's pass learn at the desk, one after another: their histories go on, and nothing else changes.
pub fn settle_all<W: Wait, R: Realm, K: Keeps, E: Ear, C: Clock + Drop>(
    rt: &W,
    service: &Service<R, K>,
    crew: &mut [Worker<R, E, C>],
)
    ensures { Pairwise Settles (states_of C.told E.shows crew.old) (states_of C.told E.shows crew.new) }
{
    for worker in crew.iter_mut() {
        settle(rt, service, worker);
    }
}

// Lets a pass learn what each of these workers tells.
fn learn_from<R: Realm, E: Ear, C: Clock + Drop>(pass: &mut Pass<R>, crew: &[Worker<R, E, C>])
    ensures learns { Learns pass.old pass.new }
    ensures begins { All (λ worker. IsPrefix worker.pass.history pass.new.history) crew.now }
{
    for worker in crew {
        pass.learn(&worker.pass.tell());
    }
}

/// The account of the history that a pass then holds, where it is wanted. It waits until the pass has entered the published account.
pub fn keep<W: Wait, R: Realm>(rt: &W, pass: &mut Pass<R>, is_wanted: bool) -> Kept
    ensures { KeepsOf R.facts is_wanted result pass.old pass.new }
{
    if !is_wanted {
        return Kept::Nothing;
    }
    let _seen = pass.seen();
    for _ in rt.forever() {
        match pass.account() {
            Ok(account) => return Kept::Whole(account),
            Err(Unread::NotEntered) => {}
            Err(Unread::NoMemory) => return Kept::NoMemory,
        }
    }
    unreachable!()
}

/// Lets the first worker's pass learn what each other one tells.
pub fn learn_all<R: Realm, E: Ear, C: Clock + Drop>(crew: &mut Vec<Worker<R, E, C>>)
    requires { 0 < vec_len crew.old }
    ensures settles { Pairwise Settles (states_of C.told E.shows crew.old.items) (states_of C.told E.shows crew.new.items) }
    ensures longest { HoldsAll (states_of C.told E.shows crew.new.items) }
    ensures size { vec_len crew.new ≡ vec_len crew.old }
{
    let mut first = crew.remove(0);
    learn_from(&mut first.pass, crew);
    put_first(crew, first);
}

/// Lets the first worker's pass, which holds all that another holds, learn at the desk, which then stays locked. Its history
/// is the desk's.
pub fn settle_first<'a, W: Wait, R: Realm, K: Keeps, E: Ear, C: Clock + Drop>(
    rt: &W,
    service: &'a Service<R, K>,
    crew: &mut Vec<Worker<R, E, C>>,
) -> MutexGuard<'a, Desk<R, K>>
    requires some { 0 < vec_len crew.old }
    requires longest { HoldsAll (states_of C.told E.shows crew.old.items) }
    ensures settles { Pairwise Settles (states_of C.told E.shows crew.old.items) (states_of C.told E.shows crew.new.items) }
    ensures longest { HoldsAll (states_of C.told E.shows crew.new.items) }
    ensures holds { FirstHolds (mutex_guard_value result).pairs (states_of C.told E.shows crew.new.items) }
    ensures size { vec_len crew.new ≡ vec_len crew.old }
{
    let mut first = crew.remove(0);
    let desk = first.pass.settle(rt, service);
    put_first(crew, first);
    desk
}

/// The account of the desk's history, where it is wanted.
pub fn keep_here<R: Realm, K: Keeps>(desk: &Desk<R, K>, is_wanted: bool) -> Kept
    ensures { (pass : _) → pass.history ≡ desk.now.pairs → KeepsOf R.facts is_wanted result pass pass }
{
    if !is_wanted {
        return Kept::Nothing;
    }
    match desk.share() {
        Ok(account) => Kept::Whole(account),
        Err(_) => Kept::NoMemory,
    }
}

/// What the first worker's pass tells.
pub fn told_by_first<R: Realm, E: Ear, C: Clock + Drop>(crew: &[Worker<R, E, C>]) -> Told<R>
    requires { 0 < length crew.now }
    ensures { FirstHolds result (states_of C.told E.shows crew.now) }
{
    crew[0].pass.tell()
}

/// How many entries the first worker's pass holds, which holds all that another holds.
pub fn front_of<R: Realm, E: Ear, C: Clock + Drop>(crew: &[Worker<R, E, C>]) -> u64
    requires some { 0 < length crew.now }
    requires longest { HoldsAll (states_of C.told E.shows crew.now) }
    ensures { FirstIsLongest R.facts R.passes R.loaded result (states_of C.told E.shows crew.now) }
{
    crew[0].pass.seen()
}

/// How many connections the workers took, of so many that each could take.
pub fn taken_by<R: Realm, E: Ear, C: Clock + Drop>(crew: &[Worker<R, E, C>]) -> u64
    requires { taken_by (states_of C.told E.shows crew.now) < 2 ^ 64 }
    ensures { result ≡ taken_by (states_of C.told E.shows crew.now) }
{
    crew.iter().map(|worker| worker.taken).sum()
}

/// Whether each worker took all its connections.
pub fn took_all<R: Realm, E: Ear, C: Clock + Drop>(
    crew: &[Worker<R, E, C>],
    connections: u64,
) -> bool
    ensures { IsTrue result ↔ All (λ worker. worker.taken ≡ connections) crew.now }
{
    crew.iter().all(|worker| worker.taken == connections)
}

/// Puts an item before those that there are.
pub fn put_first<T: Drop>(items: &mut Vec<T>, item: T)
    requires { vec_len items.old < vec_capacity items.old }
    ensures items { items.new.items ≡ item ∷ items.old.items }
    ensures room { vec_capacity items.old ≤ vec_capacity items.new }
{
    match items.insert(0, item) {
        Ok(()) => {}
        Err(_) => unreachable!(),
    }
}

// Puts the workers' ears and clocks, in order, before those that there are, and adds what their passes made.
fn disband_others<R: Realm, E: Ear, C: Clock + Drop>(
    mut crew: Vec<Worker<R, E, C>>,
    ears: &mut Vec<E>,
    clocks: &mut Vec<C>,
    tally: &mut Tally<R>,
)
    requires ears { vec_len ears.old + vec_len crew ≤ vec_capacity ears.old }
    requires clocks { vec_len clocks.old + vec_len crew ≤ vec_capacity clocks.old }
    ensures ears { ears.new.items ≡ map (λ worker. worker.ear) crew.items ++ ears.old.items }
    ensures clocks { clocks.new.items ≡ map (λ worker. worker.clock) crew.items ++ clocks.old.items }
    ensures passes { tally.new.passes ≡ tally.old.passes + vec_len crew }
    ensures made { tally.new.made ≡ tally.old.made + sum (map (λ worker. length worker.pass.own) crew.items) }
{
    while let Some(worker) = crew.pop() {
        put_first(ears, worker.ear);
        put_first(clocks, worker.clock);
        tally.add(worker.pass);
    }
}

/// Puts the workers' ears and clocks, in order, before those that there are, and gives what their passes made together.
pub fn disband<R: Realm, E: Ear, C: Clock + Drop>(
    mut crew: Vec<Worker<R, E, C>>,
    ears: &mut Vec<E>,
    clocks: &mut Vec<C>,
) -> Tally<R>
    requires some { 0 < vec_len crew }
    requires ears { vec_len ears.old + vec_len crew ≤ vec_capacity ears.old }
    requires clocks { vec_len clocks.old + vec_len crew ≤ vec_capacity clocks.old }
    ensures ears { ears.new.items ≡ map (λ worker. worker.ear) crew.items ++ ears.old.items }
    ensures clocks { clocks.new.items ≡ map (λ worker. worker.clock) crew.items ++ clocks.old.items }
    ensures passes { result.passes ≡ vec_len crew }
    ensures made { result.made ≡ sum (map (λ worker. length worker.pass.own) crew.items) }
{
    let Some(last) = crew.pop() else {
        unreachable!()
    };
    put_first(ears, last.ear);
    put_first(clocks, last.clock);
    let mut tally = Tally::of(last.pass);
    disband_others(crew, ears, clocks, &mut tally);
    tally
}
