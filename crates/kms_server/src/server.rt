// A server, from the opening of its door to its closing.
ghost use Rattle.std.specs.Prelude.{◌≡◌, ◌≤◌, ◌<◌, ◌+◌, ◌++◌, ◌^◌, ℕ, List, [], Option, IfOk, IfErr, IsTrue, length, map, vec_len, vec_capacity};
ghost use Rattle.account_steps.specs.History.{Entry};
ghost use Rattle.published_account.specs.Pairs.{account_in, entries_of};
ghost use Rattle.published_account.specs.Rules.{Names};
ghost use Rattle.publish_pass.specs.Pass.{fresh_passes};
ghost use Rattle.session_front.specs.Callers.{IsOfAccount};
ghost use Rattle.kms_server.specs.Crew.{Finishes, taken_by};
ghost use Rattle.kms_server.specs.States.{states_of};
ghost use Rattle.kms_server.specs.Server.{wanted_by, surroundings, ServesDoor, Fulfils, ServesNobody, KeepsServed};
ghost use Rattle.keepers.specs.Keeping.{IsKept};

use crate::crew::{
    Kept, disband, front_of, gather, keep_here, learn_all, settle_all, settle_first, taken_by,
    told_by_first, took_all, work_all,
};
use crate::worker::{Worker, Workshop};
use account_core::Account;
use kms_io::{Clock, Door, Ear, Gate, Opened};
use kms_session::Trust;
use publish_pass::{Keeps, Opening, Pass, Realm, Service, Tally, Told, open_loaded, open_service};
use std::alloc::Global;
use std::marker::Brand;
use std::sync::{MutexGuard, Wait};
use std::thread::Threads;

/// What is to be served.
#[derive(Clone, Copy)]
pub struct Order<'a> {
    /// The address of the door.
    pub address: &'a str,
    /// How many workers there are, from 1 to 64.
    pub workers: u16,
    /// How many connections each worker takes, from 1 to 2^57.
    pub connections: u64,
    /// Whether the account is kept at the end.
    pub keeps: bool,
}

/// What was served.
#[derive(Clone, Copy)]
pub struct Served {
    /// How many connections were taken.
    pub connections: u64,
    /// How many entries the longest history has that a pass holds.
    pub front: u64,
    /// Whether each worker took all its connections.
    pub is_whole: bool,
}

/// What came of an order.
#[derive(Drop)]
pub enum Outcome {
    /// The workers worked, and the ears are back at the door. The account is that of the longest history.
    Served(Served, Kept),
    /// The door couldn't be opened.
    Shut,
    /// A growth of memory was refused before anybody worked.
    NoMemory,
}

// What is left of a crew that has worked: what was served, what is kept of the account, what the passes made together, and their history.
#[derive(Drop)]
struct Ended<R: Realm> {
    served: Served,
    kept: Kept,
    tally: Tally<R>,
    told: Told<R>,
}

// Ends the work of a crew. Its passes learn at the desk, the first one what each other holds, and then the desk's history, which stays locked. There the
// account is shared where that is wanted, and what the passes made is held against the history. The ears and clocks are put before those that there are.
fn finish<W: Wait, R: Realm, K: Keeps, E: Ear, C: Clock + Drop>(
    rt: &W,
    service: &Service<R, K>,
    order: &Order<'_>,
    mut crew: Vec<Worker<R, E, C>>,
    ears: &mut Vec<E>,
    clocks: &mut Vec<C>,
) -> Ended<R>
    requires some { 0 < vec_len crew }
    requires passes { vec_len crew ≡ R.passes }
    requires few { taken_by (states_of C.told E.shows crew.items) < 2 ^ 64 }
    requires nobody { ears.old.items ≡ [] }
    requires ears { vec_len crew ≤ vec_capacity ears.old }
    requires clocks { vec_len clocks.old + vec_len crew ≤ vec_capacity clocks.old }
    ensures finishes { (told : List (Option (List ℕ))) × (map C.told clocks.new.items ≡ told ++ map C.told clocks.old.items) × Finishes R.facts R.passes R.loaded order.now.connections order.now.keeps result.told (states_of C.told E.shows crew.items) result.served result.kept (map E.shows ears.new.items) told }
    ensures all { (result.tally.passes ≡ R.passes) × (result.tally.made + R.loaded ≡ length result.told) }
{
    settle_all(rt, service, crew.as_mut_slice());
    learn_all(&mut crew);
    let mut desk = settle_first(rt, service, &mut crew);
    let kept = keep_here(&*desk, order.keeps);
    let served = Served {
        connections: taken_by(&crew),
        front: front_of(&crew),
        is_whole: took_all(&crew, order.connections),
    };
    let told = told_by_first(&crew);
    let mut tally = disband(crew, ears, clocks);
    desk.audit(&mut tally);
    let _ = MutexGuard::unlock(desk);
    Ended {
        served,
        kept,
        tally,
        told,
    }
}

// Serves at a door with the passes of a service, or says why nobody worked.
fn serve_with<
    W: Threads + Wait + Sync,
    R: Realm + Send + Sync,
    K: Keeps + Send,
    C: Clock + Send + Drop,
    D: Door,
    G: Gate + Sync,
>(
    host: &Workshop<'_, W, R, K, G>,
    passes: Vec<Pass<R>>,
    order: &Order<'_>,
    clocks: &mut Vec<C>,
    door: &mut D,
) -> Result<Ended<R>, Outcome>
where
    <D::Listener as Ear>::Conn: Send,
    requires passes { vec_len passes ≡ R.passes }
    requires trust { IsOfAccount R.facts.account host.now.trust.now }
    requires workers { (R.passes ≡ order.now.workers) × (0 < order.now.workers) × (order.now.workers ≤ 64) }
    requires connections { (host.now.connections ≡ order.now.connections) × (order.now.connections ≤ 144115188075855872) }
    requires clocks { vec_len clocks.old ≡ 64 }
    ensures served { IfOk result (λ ended. (entries : List Entry) → passes.items ≡ fresh_passes R.facts R.passes entries R.passes → length entries ≡ R.loaded
        → ServesDoor K.keeps (record { facts = R.facts; entries = entries }) host.now.trust.now (wanted_by order.now) ended.told ended.served ended.kept (surroundings (D.shows door.old) (map C.told clocks.old.items)) (surroundings (D.shows door.new) (map C.told clocks.new.items))) }
    ensures all { IfOk result (λ ended. (ended.tally.passes ≡ R.passes) × (ended.tally.made + R.loaded ≡ length ended.told)) }
    ensures none { IfErr result (λ outcome. ServesNobody outcome) }
    ensures nobody { IfErr result (λ outcome. (first : _) (history : List (Entry × ℕ)) → Fulfils K.keeps first host.now.trust.now (wanted_by order.now) history outcome (surroundings (D.shows door.old) (map C.told clocks.old.items)) (surroundings (D.shows door.new) (map C.told clocks.new.items))) }
{
    let Ok(mut crew) = Vec::with_capacity(host.alloc, passes.len()) else {
        return Err(Outcome::NoMemory);
    };
    let mut ears = Vec::new(host.alloc);
    match door.open(order.address, order.workers, &mut ears) {
        Opened::Open => {}
        Opened::Failed => return Err(Outcome::Shut),
        Opened::NoMemory => return Err(Outcome::NoMemory),
    }
    gather(passes, &mut ears, clocks, &mut crew);
    work_all(host, crew.as_mut_slice());
    let ended = finish(host.rt, host.service, order, crew, &mut ears, clocks);
    door.close(ears);
    Ok(ended)
}

// Opens the service and serves.
fn serve_realm<
    W: Threads + Wait + Sync,
    R: Realm + Send + Sync,
    K: Keeps + Send,
    C: Clock + Send + Drop,
    D: Door,
    G: Gate + Sync,
>(
    rt: &W,
    alloc: Global,
    opening: Opening,
    keeper: K,
    trust: &Trust,
    order: &Order<'_>,
    clocks: &mut Vec<C>,
    door: &mut D,
    gate: &G,
) -> (Outcome, Option<K>)
where
    <D::Listener as Ear>::Conn: Send,
    requires ledger { (opening.name ≡ R.name) × (opening.parts ≡ R.parts) }
    requires names { Names R.book R.facts R.passes R.loaded opening.shown }
    requires kept { IsTrue K.keeps → IsKept (K.tells R.facts) K.is_open K.moment K.left_since (K.reads R.facts) R.started R.loaded keeper (entries_of opening.shown.whole.pairs) }
    requires workers { (opening.shown.whole.passes ≡ order.now.workers) × (0 < order.now.workers) × (order.now.workers ≤ 64) }
    requires connections { order.now.connections ≤ 144115188075855872 }
    requires trust { IsOfAccount opening.shown.whole.facts.account trust.now }
    requires clocks { vec_len clocks.old ≡ 64 }
    ensures { (history : List (Entry × ℕ))
        × Fulfils K.keeps (account_in opening.shown.whole) trust.now (wanted_by order.now) history result.0 (surroundings (D.shows door.old) (map C.told clocks.old.items)) (surroundings (D.shows door.new) (map C.told clocks.new.items))
        × KeepsServed K.keeps (K.tells R.facts) K.is_open K.moment K.left_since (K.reads R.facts) R.started R.loaded history result.0 result.1 }
{
    let Ok((service, passes)) = open_service::<W, R, K>(rt, alloc, opening, keeper) else {
        return (Outcome::NoMemory, None);
    };
    let host = Workshop {
        rt,
        alloc,
        service: &service,
        trust,
        gate,
        connections: order.connections,
    };
    match serve_with(&host, passes, order, clocks, door) {
        Ok(ended) => {
            let Ended {
                served,
                kept,
                mut tally,
                told,
            } = ended;
            let keeper = service.end(rt, &mut tally, &told);
            (Outcome::Served(served, kept), Some(keeper))
        }
        Err(outcome) => (outcome, Some(service.shut(rt))),
    }
}

/// Serves an account at a door; what it has as entries was loaded, and the keeper has kept it. Each worker has a pass of one service,
/// an ear of the door and one of the clocks, and takes its connections one after another, each in a thread of its own where
/// one can be had. The conditions are 1 to 64 workers, at most 2^57 connections each, 64 clocks, that whoever may be the caller is of
/// the account, and that the keeper, where it keeps anything, has kept these entries.
///
/// A worker whose ear fails 16 times in a row takes no more. After the last worker is done the first pass learns
/// what all others hold, so that its history is the longest; the account at it is kept where that is wanted. It has
/// as many entries behind the loaded ones as the workers' passes made together. Then the ears go back to the door and
/// the clocks to their places. `Shut` comes only where the door failed, and `NoMemory` only before anybody worked.
///
/// Each change is kept before it is published and answered. So whatever crash comes from the start on leaves a beginning of that
/// history with all that was loaded, or, once the keeper is shut, the history and one change more that wasn't made; and of each
/// beginning of the history there is a moment since which each crash leaves it (`KeepsServed`). The keeper is given back, but where
/// memory was wanting before the service stood.
pub fn serve<
    W: Threads + Wait + Sync,
    K: Keeps + Send,
    C: Clock + Send + Drop,
    D: Door,
    G: Gate + Sync,
>(
    rt: &W,
    alloc: Global,
    account: Account,
    keeper: K,
    trust: &Trust,
    order: &Order<'_>,
    clocks: &mut Vec<C>,
    door: &mut D,
    gate: &G,
) -> (Outcome, Option<K>)
where
    <D::Listener as Ear>::Conn: Send,
    requires workers { (0 < order.now.workers) × (order.now.workers ≤ 64) }
    requires connections { order.now.connections ≤ 144115188075855872 }
    requires trust { IsOfAccount account.facts.account trust.now }
    requires kept { IsTrue K.keeps → IsKept (K.tells account.facts) K.is_open K.moment K.left_since (K.reads account.facts) (K.moment keeper) (length account.entries) keeper account.entries }
    requires clocks { vec_len clocks.old ≡ 64 }
    ensures { (history : List (Entry × ℕ))
        × Fulfils K.keeps account trust.now (wanted_by order.now) history result.0 (surroundings (D.shows door.old) (map C.told clocks.old.items)) (surroundings (D.shows door.new) (map C.told clocks.new.items))
        × KeepsServed K.keeps (K.tells account.facts) K.is_open K.moment K.left_since (K.reads account.facts) (K.moment keeper) (length account.entries) history result.0 result.1 }
{
    let Ok(opening) = open_loaded(rt, alloc, account, order.workers) else {
        return (Outcome::NoMemory, Some(keeper));
    };
    serve_realm::<W, Brand, K, C, D, G>(
        rt, alloc, opening, keeper, trust, order, clocks, door, gate,
    )
}
