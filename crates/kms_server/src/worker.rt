// One worker: it takes connections one after another and serves each to its end.
ghost use Rattle.std.specs.Prelude.{◌≡◌, true, false};
ghost use Rattle.session_front.specs.Callers.{IsOfAccount};
ghost use Rattle.kms_server.specs.Work.{Awaits, Attends, Works};
ghost use Rattle.kms_server.specs.States.{state_of};

use kms_io::{Clock, Ear, Gate, Next};
use kms_session::{Trust, serve_session};
use publish_pass::{Keeps, Pass, Realm, Service};
use std::alloc::Global;
use std::sync::Wait;

/// How often in a row an ear may fail before its worker gives up.
const PATIENCE: u64 = 16;

/// What all workers serve with.
#[derive(Drop)]
pub struct Workshop<'a, W: Wait, R: Realm, K: Keeps, G: Gate> {
    pub rt: &'a W,
    pub alloc: Global,
    pub service: &'a Service<R, K>,
    pub trust: &'a Trust,
    pub gate: &'a G,
    /// How many connections each worker takes.
    pub connections: u64,
}

/// A worker, with its pass, its ear and its clock, and how many connections it took.
#[derive(Drop)]
pub struct Worker<R: Realm, E: Ear, C: Clock + Drop> {
    pub pass: Pass<R>,
    pub ear: E,
    pub clock: C,
    pub taken: u64,
}

// The next connection, or none after so many failures in a row that the worker gives up.
fn await_connection<E: Ear>(ear: &mut E) -> Option<E::Conn>
    requires { (E.shows ear.old).is_out ≡ false }
    ensures { Awaits E.Conn.shows (E.shows ear.old) result (E.shows ear.new) }
{
    for _failure in 0..PATIENCE {
        match ear.next() {
            Next::Conn(connection) => return Some(connection),
            Next::Failed => {}
        }
    }
    None
}

// Serves a connection to its end and gives it back. What others posted is learnt before, what was learnt is
// posted after, and housekeeping comes last, at one more answer of the clock.
fn attend<W: Wait, R: Realm, K: Keeps, G: Gate, E: Ear, C: Clock + Drop>(
    host: &Workshop<'_, W, R, K, G>,
    worker: &mut Worker<R, E, C>,
    connection: E::Conn,
)
    requires trust { IsOfAccount R.facts.account host.now.trust.now }
    requires out { (E.shows worker.old.ear).is_out ≡ true }
    ensures { Attends K.keeps host.now.trust.now (state_of C.told E.shows worker.old) (E.Conn.shows connection) (state_of C.told E.shows worker.new) }
{
    let mut link = connection;
    worker.pass.catch_up(host.rt, host.service);
    let _seen = worker.pass.seen();
    let _end = serve_session(
        host.rt,
        host.alloc,
        host.service,
        &mut worker.pass,
        host.trust,
        &mut worker.clock,
        &mut link,
        host.gate,
    );
    worker.pass.post(host.rt, host.service);
    worker.ear.done(link);
    let moment = worker.clock.now();
    let _ = worker
        .pass
        .keep_house(host.rt, host.alloc, host.service, moment);
}

/// Takes as many connections as each worker does, one after another, and serves each; or gives up where the
/// ear fails 16 times in a row.
pub fn work<W: Wait, R: Realm, K: Keeps, G: Gate, E: Ear, C: Clock + Drop>(
    host: &Workshop<'_, W, R, K, G>,
    worker: &mut Worker<R, E, C>,
)
    requires trust { IsOfAccount R.facts.account host.now.trust.now }
    requires is_in { (E.shows worker.old.ear).is_out ≡ false }
    requires new { worker.old.taken ≡ 0 }
    ensures { Works K.keeps host.now.trust.now host.now.connections (state_of C.told E.shows worker.old) (state_of C.told E.shows worker.new) }
{
    let connections = host.connections;
    while worker.taken < connections {
        let Some(connection) = await_connection(&mut worker.ear) else {
            return;
        };
        attend(host, worker, connection);
        worker.taken += 1;
    }
}
