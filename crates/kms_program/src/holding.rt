// One session of an account, by the one pass of a service.
ghost use Rattle.std.specs.Prelude.{◌≡◌};
ghost use Rattle.published_account.specs.Pairs.{account_in};
ghost use Rattle.published_account.specs.Rules.{Names};
ghost use Rattle.session_front.specs.Callers.{IsOfAccount};
ghost use Rattle.kms_program.specs.Program.{Holding};

use account_core::Account;
use kms_io::{Clock, Gate, Link};
use kms_server::{Kept, keep};
use kms_session::{SessionEnd, Trust, serve_session};
use publish_pass::{Nothing, Opening, Realm, open_loaded, open_service};
use std::alloc::Global;
use std::marker::Brand;
use std::sync::{MutexGuard, Wait};

// Serves one session by the one pass of a service, and keeps the account that it leaves where that is wanted.
fn serve_once<W: Wait, R: Realm, L: Link, C: Clock, G: Gate>(
    rt: &W,
    alloc: Global,
    opening: Opening,
    trust: &Trust,
    clock: &mut C,
    link: &mut L,
    gate: &G,
    keeps: bool,
) -> (SessionEnd, Kept)
    requires ledger { (opening.name ≡ R.name) × (opening.parts ≡ R.parts) }
    requires names { Names R.book R.facts R.passes R.loaded opening.shown }
    requires passes { opening.shown.whole.passes ≡ 1 }
    requires trust { IsOfAccount opening.shown.whole.facts.account trust.now }
    ensures { Holding (account_in opening.shown.whole) trust.now result.0 result.1 (L.shows link.old) (C.told clock.old) (L.shows link.new) (C.told clock.new) }
{
    let Ok((service, mut passes)) = open_service::<W, R, Nothing>(rt, alloc, opening, Nothing)
    else {
        return (SessionEnd::NoMemory, Kept::NoMemory);
    };
    let pass = &mut passes[0];
    let end = serve_session(rt, alloc, &service, pass, trust, clock, link, gate);
    let _ = MutexGuard::unlock(pass.settle(rt, &service));
    let _seen = pass.seen();
    let kept = keep(rt, pass, keeps);
    let _ = MutexGuard::unlock(pass.settle(rt, &service));
    service.shut(rt);
    (end, kept)
}

/// Serves one session of a new service that begins with the entries of an account, and keeps the account
/// that it leaves where that is wanted.
pub fn serve<W: Wait, L: Link, C: Clock, G: Gate>(
    rt: &W,
    alloc: Global,
    account: Account,
    trust: &Trust,
    clock: &mut C,
    link: &mut L,
    gate: &G,
    keeps: bool,
) -> (SessionEnd, Kept)
    requires { IsOfAccount account.facts.account trust.now }
    ensures { Holding account trust.now result.0 result.1 (L.shows link.old) (C.told clock.old) (L.shows link.new) (C.told clock.new) }
{
    let Ok(opening) = open_loaded(rt, alloc, account, 1) else {
        return (SessionEnd::NoMemory, Kept::NoMemory);
    };
    serve_once::<W, Brand, L, C, G>(rt, alloc, opening, trust, clock, link, gate, keeps)
}
