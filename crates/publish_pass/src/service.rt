// The service: the desk and the board, each behind its lock.
ghost use Rattle.std.specs.Prelude.{◌≡◌, ◌<◌, ◌+◌, length, true, Err, IfOk, OnOk, OnErr, IfSome, IfNone, IsTrue, IsFalse};
ghost use Rattle.std.specs.Sync.Mutex.{mutex_guard_value};
ghost use mathlib.Core.List.{IsPrefix};
ghost use Rattle.kms_names.specs.Moment.{year_10000};
ghost use Rattle.kms_json.specs.Asks.{changes_account};
ghost use Rattle.account_core.specs.Decide.{IsProper};
ghost use Rattle.published_account.specs.Growing.{IsLongerOf};
ghost use Rattle.publish_pass.specs.Pass.{Learns, LearnsAll, AnswersChange, WantsChange, KeepsHouse, WantsHouse};
ghost use Rattle.publish_pass.specs.Desks.{EndsKept};
ghost use Rattle.published_account.specs.Pairs.{entries_of};
ghost use Rattle.keepers.specs.Keeping.{IsKept};
ghost use Rattle.keepers.specs.declared.keeps.Unmade.TheVariants.{Unkept};

use crate::desk::Desk;
use crate::pass::Pass;
use crate::tally::Tally;
use crate::told::Told;
use keepers::{Keeps, Unmade};
use kms_io::Gate;
use kms_json::Ask;
use kms_names::Text;
use published_account::{Answered, Realm};
use std::alloc::Global;
use std::sync::{Mutex, MutexGuard, Wait};

/// What the passes share: the desk and the board, each behind a lock of its own. It isn't dropped: whoever
/// opened it shuts it.
pub struct Service<R: Realm, K: Keeps> {
    desk: Mutex<Desk<R, K>>,
    board: Mutex<Told<R>>,
    passes: u16,
    region: Text,
    ghost passes_is: { passes ≡ R.passes },
    ghost region_is: { region ≡ R.facts.region },
}

impl<R: Realm, K: Keeps> Service<R, K> {
    pub(crate) fn new(desk: Desk<R, K>, board: Told<R>, passes: u16, region: Text) -> Service<R, K>
        requires passes { passes ≡ R.passes }
        requires region { region ≡ R.facts.region }
    {
        Service {
            desk: Mutex::new(desk),
            board: Mutex::new(board),
            passes,
            region,
        }
    }

    /// Ends the writer of the published account, and gives what kept its history: while that is open it was told exactly that, and
    /// of each beginning of it there is a moment since which each crash leaves it. It takes no memory.
    pub fn shut<W: Wait>(self, rt: &W) -> K
        ensures { EndsKept R.facts R.passes R.loaded K.keeps (K.tells R.facts) K.is_open K.moment K.left_since (K.reads R.facts) R.started result }
    {
        let Service {
            desk,
            board: _,
            passes: _,
            region: _,
        } = self;
        let desk = desk.into_inner();
        let _keeper = desk.keeper();
        desk.close(rt)
    }

    /// The same where passes are done: what was told last, and what some passes made together, are held against the history. Where
    /// these are all passes, and what was told has all that they made, that is the history which is kept.
    pub fn end<W: Wait>(self, rt: &W, tally: &mut Tally<R>, told: &Told<R>) -> K
        ensures { tally.old.passes ≡ R.passes → tally.old.made + R.loaded ≡ length told.now
            → IsTrue K.keeps → IsKept (K.tells R.facts) K.is_open K.moment K.left_since (K.reads R.facts) R.started R.loaded result (entries_of told.now) }
    {
        let Service {
            desk,
            board: _,
            passes: _,
            region: _,
        } = self;
        let mut desk = desk.into_inner();
        desk.audit(tally);
        desk.tell().agrees(told);
        let _keeper = desk.keeper();
        desk.close(rt)
    }

    /// The region of the service. It takes no memory.
    pub fn region(&self) -> &str
        ensures { result.now ≡ R.facts.region }
    {
        self.region.as_str()
    }
}

// Locks the desk, and changes the account where the desk's history is then the pass's. It is None where the pass
// has seen more than the desk.
#[tactic(auto, using(crate::proofs::Meeting::wanted_on))]
fn try_change<R: Realm, K: Keeps, W: Wait, G: Gate>(
    rt: &W,
    alloc: Global,
    service: &Service<R, K>,
    pass: &mut Pass<R>,
    ask: &Ask,
    gate: &G,
) -> Option<Result<Answered, Unmade>>
    requires proper { IsProper pass.old.facts ask.now }
    requires changes { changes_account ask.now.body ≡ true }
    ensures none { IfNone result (pass.new ≡ pass.old) }
    ensures answer { IfSome result (λ r. IfOk r (λ a. AnswersChange pass.old ask.now a pass.new)) }
    ensures wants { IfSome result (λ r. OnErr r (WantsChange pass.old ask.now pass.new)) }
    ensures unkept { IfSome result (λ r. r ≡ Err Unkept → IsTrue K.keeps) }
{
    let mut desk = service.desk.lock(rt);
    if desk.meet(pass) {
        let answered = desk.change(rt, alloc, pass, ask, gate);
        let _ = MutexGuard::unlock(desk);
        return Some(answered);
    }
    let _ = MutexGuard::unlock(desk);
    None
}

// Looks at the published account, without a lock, and is true where the pass then holds a history at which no
// housekeeping is due. A pass that is alone leaves it to the desk, where it is known that there are no entries but its
// own.
#[tactic(auto, using(crate::proofs::Meeting::kept_there))]
fn needs_no_desk<R: Realm, K: Keeps>(
    service: &Service<R, K>,
    pass: &mut Pass<R>,
    moment: u64,
) -> bool
    ensures kept { IsTrue result → KeepsHouse pass.old moment pass.new }
    ensures same { IsFalse result → pass.new ≡ pass.old }
{
    service.passes > 1 && pass.finds_house_kept(moment)
}

// Locks the desk, and does the housekeeping that is due there. It is None where the pass has seen more than the desk.
#[tactic(auto, using(crate::proofs::Meeting::kept_on, crate::proofs::Meeting::left_on))]
fn try_keep_house<R: Realm, K: Keeps, W: Wait>(
    rt: &W,
    alloc: Global,
    service: &Service<R, K>,
    pass: &mut Pass<R>,
    moment: u64,
) -> Option<Result<(), Unmade>>
    requires { moment < year_10000 }
    ensures none { IfNone result (pass.new ≡ pass.old) }
    ensures kept { IfSome result (λ r. OnOk r (KeepsHouse pass.old moment pass.new)) }
    ensures wants { IfSome result (λ r. OnErr r (WantsHouse pass.old moment pass.new)) }
    ensures unkept { IfSome result (λ r. r ≡ Err Unkept → IsTrue K.keeps) }
{
    let mut desk = service.desk.lock(rt);
    if desk.meet(pass) {
        let kept = desk.keep_house(rt, alloc, pass, moment);
        let _ = MutexGuard::unlock(desk);
        return Some(kept);
    }
    let _ = MutexGuard::unlock(desk);
    None
}

// The pass learns the desk's history, and the desk stays locked. It is None where the pass has seen more than the desk.
fn try_settle<'a, R: Realm, K: Keeps, W: Wait>(
    rt: &W,
    service: &'a Service<R, K>,
    pass: &mut Pass<R>,
) -> Option<MutexGuard<'a, Desk<R, K>>>
    ensures all { IfSome result (λ desk. LearnsAll pass.old pass.new) }
    ensures holds { IfSome result (λ desk. pass.new.history ≡ (mutex_guard_value desk).pairs) }
    ensures none { IfNone result (pass.new ≡ pass.old) }
    ensures passes { pass.new.passes ≡ R.passes }
    ensures loaded { pass.new.loaded ≡ R.loaded }
{
    let mut desk = service.desk.lock(rt);
    if desk.meet(pass) {
        return Some(desk);
    }
    let _ = MutexGuard::unlock(desk);
    None
}

impl<R: Realm> Pass<R> {
    ghost use Rattle.std.specs.Prelude.{◌<◌, ◌≡◌, true, Err, IfOk, OnOk, OnErr, IsTrue};
    ghost use Rattle.std.specs.Sync.Mutex.{mutex_guard_value};

    /// Answers a request that changes the account, at a history that holds all that this pass has seen, and
    /// appends its entry, if it has one. Housekeeping comes first. The pass then holds that history, and behind it
    /// these entries alone. Where the service has one pass, it held that history before, and made all of it that
    /// wasn't loaded. For want of memory, and where an entry couldn't
    /// be kept, at most the entry of housekeeping was appended.
    ///
    /// It locks the desk. The next account and the reply's body are made before the entry is kept, and it is kept before it is
    /// published.
    pub fn change<K: Keeps, W: Wait, G: Gate>(
        &mut self,
        rt: &W,
        alloc: Global,
        service: &Service<R, K>,
        ask: &Ask,
        gate: &G,
    ) -> Result<Answered, Unmade>
        requires proper { IsProper self.old.facts ask.now }
        requires changes { changes_account ask.now.body ≡ true }
        ensures answer { IfOk result (λ a. AnswersChange self.old ask.now a self.new) }
        ensures wants { OnErr result (WantsChange self.old ask.now self.new) }
        ensures unkept { result ≡ Err Unkept → IsTrue K.keeps }
    {
        for _ in rt.forever() {
            if let Some(answered) = try_change(rt, alloc, service, self, ask, gate) {
                return answered;
            }
        }
        unreachable!()
    }

    /// Appends the entry of housekeeping at the clock's answer, if one is due at a published history that holds all
    /// that this pass has seen, and that it then holds. For want of memory, and where it couldn't be kept, at most that entry
    /// was appended.
    ///
    /// Where nothing is due it looks at the published account alone, without a lock. Else, or where the service has one
    /// pass, it locks the desk, and goes by the history there.
    pub fn keep_house<K: Keeps, W: Wait>(
        &mut self,
        rt: &W,
        alloc: Global,
        service: &Service<R, K>,
        moment: u64,
    ) -> Result<(), Unmade>
        requires { moment < year_10000 }
        ensures kept { OnOk result (KeepsHouse self.old moment self.new) }
        ensures wants { OnErr result (WantsHouse self.old moment self.new) }
        ensures unkept { result ≡ Err Unkept → IsTrue K.keeps }
    {
        if needs_no_desk(service, self, moment) {
            return Ok(());
        }
        for _ in rt.forever() {
            if let Some(kept) = try_keep_house(rt, alloc, service, self, moment) {
                return kept;
            }
        }
        unreachable!()
    }

    /// Learns all that the desk holds, and keeps the desk locked until what is returned is dropped: so long the pass
    /// holds exactly the published history, and nobody else publishes. Nothing else of the pass changes. Where the
    /// service has one pass, there was nothing to learn, and it made all entries that weren't loaded. It takes no
    /// memory.
    ///
    /// Of what others publish once the lock is left, nothing is said. A pass that wants the desk while it is kept
    /// locked waits, also where it is this one.
    pub fn settle<'a, K: Keeps, W: Wait>(
        &mut self,
        rt: &W,
        service: &'a Service<R, K>,
    ) -> MutexGuard<'a, Desk<R, K>>
        ensures all { LearnsAll self.old self.new }
        ensures holds { self.new.history ≡ (mutex_guard_value result).pairs }
        ensures passes { self.new.passes ≡ R.passes }
        ensures loaded { self.new.loaded ≡ R.loaded }
    {
        for _ in rt.forever() {
            if let Some(desk) = try_settle(rt, service, self) {
                return desk;
            }
        }
        unreachable!()
    }

    /// Leaves what this pass knows on the board, for passes that catch up, and keeps the board locked until what is
    /// returned is dropped: so long it holds all that this pass holds. The pass stays as it is. It takes no memory.
    ///
    /// Nobody takes anything off the board; that is said by no clause, since what lies under a lock has no name
    /// once the lock is left.
    pub fn post<'a, K: Keeps, W: Wait>(
        &self,
        rt: &W,
        service: &'a Service<R, K>,
    ) -> MutexGuard<'a, Told<R>>
        ensures { IsPrefix self.now.history (mutex_guard_value result) }
    {
        let mut board = service.board.lock(rt);
        board.add(&self.tell());
        board
    }

    /// Learns what lies on the board, and keeps the board locked until what is returned is dropped. The pass then
    /// holds the longer of both histories, which the other begins; nothing else of it changes. It takes no memory.
    pub fn catch_up<'a, K: Keeps, W: Wait>(
        &mut self,
        rt: &W,
        service: &'a Service<R, K>,
    ) -> MutexGuard<'a, Told<R>>
        ensures learns { Learns self.old self.new }
        ensures holds { IsLongerOf self.old.history (mutex_guard_value result) self.new.history }
    {
        let board = service.board.lock(rt);
        self.learn(&*board);
        board
    }
}
