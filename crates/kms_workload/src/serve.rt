// One session of a new service.
ghost use Rattle.std.specs.Prelude.{◌≡◌, [], IfOk};
ghost use Rattle.kms_io.specs.MemoryLink.{wire_of};
ghost use Rattle.published_account.specs.Rules.{Names};
ghost use Rattle.session_front.specs.Callers.{IsOfAccount};
ghost use Rattle.kms_workload.specs.Facts.{load_facts, load_trust};
ghost use Rattle.kms_workload.specs.Clock.{seconds_so_far};
ghost use Rattle.kms_workload.specs.Session.{Serving};

use crate::clock::LoadClock;
use crate::facts::{facts, trust};
use kms_io::{Gate, MemoryLink};
use kms_names::NoMemory;
use kms_session::{SessionEnd, Trust, serve_session};
use publish_pass::{Nothing, Opening, Realm, open_service};
use std::alloc::Global;
use std::marker::Brand;
use std::sync::{MutexGuard, Wait};

/// How a session ended, and how many entries its pass holds then.
#[derive(Clone, Copy)]
pub struct Past {
    pub end: SessionEnd,
    pub front: u64,
}

// Serves one session by the one pass of a service.
fn serve_opening<W: Wait, R: Realm, G: Gate>(
    rt: &W,
    alloc: Global,
    opening: Opening,
    trust: &Trust,
    clock: &mut LoadClock,
    link: &mut MemoryLink,
    gate: &G,
) -> Result<Past, NoMemory>
    requires ledger { (opening.name ≡ R.name) × (opening.parts ≡ R.parts) }
    requires names { Names R.book R.facts R.passes R.loaded opening.shown }
    requires passes { opening.shown.whole.passes ≡ 1 }
    requires empty { (opening.shown.whole.pairs ≡ []) × (opening.shown.whole.loaded ≡ 0) }
    requires trust { IsOfAccount opening.shown.whole.facts.account trust.now }
    ensures { IfOk result (λ past. Serving opening.shown.whole.facts trust.now past (wire_of link.old) (seconds_so_far clock.old) (wire_of link.new) (seconds_so_far clock.new)) }
{
    let (service, mut passes) = open_service::<W, R, Nothing>(rt, alloc, opening, Nothing)?;
    let pass = &mut passes[0];
    let end = serve_session(rt, alloc, &service, pass, trust, clock, link, gate);
    let _ = MutexGuard::unlock(pass.settle(rt, &service));
    let front = pass.seen();
    service.shut(rt);
    Ok(Past { end, front })
}

/// Serves one session of a new service of the workload's account, whose caller is the account's root.
pub fn serve<W: Wait, G: Gate>(
    rt: &W,
    alloc: Global,
    clock: &mut LoadClock,
    link: &mut MemoryLink,
    gate: &G,
) -> Result<Past, NoMemory>
    ensures { IfOk result (λ past. Serving load_facts load_trust past (wire_of link.old) (seconds_so_far clock.old) (wire_of link.new) (seconds_so_far clock.new)) }
{
    let facts = facts(alloc)?;
    let opening = Opening::new(rt, alloc, facts, 1)?;
    serve_opening::<W, Brand, G>(rt, alloc, opening, &trust(), clock, link, gate)
}
