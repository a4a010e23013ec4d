// The desk.
ghost use Rattle.std.specs.Prelude.{◌≡◌, ◌<◌, ◌≤◌, ◌+◌, ◌⊎◌, ◌++◌, ◌∷◌, [], length, true, false, IfOk, IfSome, OnOk, OnErr, Err, IsTrue, IsFalse, ◌↔◌};
ghost use Rattle.kms_names.specs.Moment.{year_10000};
ghost use Rattle.std.specs.Arc.{arc_value};
ghost use Rattle.kms_json.specs.Asks.{changes_account};
ghost use Rattle.account_core.specs.Decide.{IsProper, IsNext};
ghost use Rattle.published_account.specs.Answers.{answer_of, answer_in};
ghost use Rattle.published_account.specs.Pairs.{IsHistory, entries_of};
ghost use Rattle.published_account.specs.Growing.{IsLongerOf};
ghost use Rattle.publish_pass.specs.Pass.{Learns, KnewAllIfAlone, MadeAllIfAlone, making, deciding, keeping_house, AnswersHere, AnswersAtDesk, LeavesAtMost};
ghost use Rattle.keepers.specs.Keeping.{LeavesAlso, IsKept, IsBetween};
ghost use Rattle.keepers.specs.declared.keeps.Unmade.TheVariants.{Unkept};
ghost use Rattle.published_account.specs.Rules.{Names};

use crate::pass::Pass;
use crate::tally::Tally;
use crate::told::Told;
use account_core::{Account, Decision};
use account_rows::Entry;
use keepers::{Keeps, Unmade};
use kms_io::{Gate, Point};
use kms_json::{Ask, Reply};
use kms_names::NoMemory;
use published_account::{Answered, Copies, Prefix, Published, Realm, Tip, answer_with, show};
use std::alloc::Global;
use std::marker::{Model, PhantomData};
use std::sync::ledger::Book;
use std::sync::{Arc, Wait};

// How many entries a history may have.
const MOST_ENTRIES: u64 = 1 << 62;

// The published history with one more entry, which is in its log then; none where the log is longer, or full.
fn logged<R: Realm>(
    mut prefix: Prefix<R>,
    head: &Tip<R>,
    entry: Entry,
    number: u16,
) -> Option<Prefix<R>>
    requires next { IsNext R.facts (entries_of prefix) entry × (0 < number) × (number ≤ R.passes) }
    ensures grown { IfSome result (λ longer. longer ≡ prefix ++ (entry, number) ∷ []) }
    ensures history { IfSome result (λ longer. IsHistory R.facts R.passes R.loaded longer) }
{
    if prefix.len() >= MOST_ENTRIES {
        return None;
    }
    if prefix.push(head, &(entry, number)) {
        Some(prefix)
    } else {
        None
    }
}

/// What lies under the service's lock: the writer of the published account, and what keeps its history. Contracts see the
/// published history, each entry with the number of the pass that made it, and the keeper.
pub struct Desk<R: Realm, K: Keeps> {
    writer: Copies,
    head: Tip<R>,
    book: Book<R>,
    keeper: K,
    of: PhantomData<R>,
}

impl<R: Realm, K: Keeps> Model for Desk<R, K> {
    ghost use Rattle.std.specs.Prelude.{◌≡◌, ◌+◌, IsTrue, length};
    ghost use Rattle.published_account.specs.Rules.{Names};
    ghost use Rattle.published_account.specs.Pairs.{entries_of};
    ghost use Rattle.publish_pass.specs.Desks as desks;
    ghost use Rattle.keepers.specs.Keeping.{IsKept};

    ghost Value = { desks.Desk K };

    ghost view = { λ d. record { pairs = d.writer.desk.shown.value.whole.pairs; keeper = d.keeper } };

    ghost invariant = { λ d. record {
      total : d.book.total + R.loaded ≡ length d.writer.desk.shown.value.whole.pairs;
      names : Names R.book R.facts R.passes R.loaded d.writer.desk.shown.value;
      parts : R.parts ≡ R.passes;
      kept : IsTrue K.keeps → IsKept (K.tells R.facts) K.is_open K.moment K.left_since (K.reads R.facts) R.started R.loaded d.keeper (entries_of d.writer.desk.shown.value.whole.pairs);
    } };
}

impl<R: Realm, K: Keeps> Desk<R, K> {
    pub(crate) fn new(writer: Copies, head: Tip<R>, book: Book<R>, keeper: K) -> Desk<R, K>
        requires names { Names R.book R.facts R.passes R.loaded writer.desk.shown.value }
        requires loaded { length writer.desk.shown.value.whole.pairs ≡ R.loaded }
        requires total { book.total ≡ 0 }
        requires parts { R.parts ≡ R.passes }
        requires kept { IsTrue K.keeps → IsKept (K.tells R.facts) K.is_open K.moment K.left_since (K.reads R.facts) R.started R.loaded keeper (entries_of writer.desk.shown.value.whole.pairs) }
        ensures { result ≡ record { pairs = writer.desk.shown.value.whole.pairs; keeper = keeper } }
    {
        Desk {
            writer,
            head,
            book,
            keeper,
            of: PhantomData,
        }
    }

    // Ends the writer, and gives the keeper.
    pub(crate) fn close<W: Wait>(self, rt: &W) -> K
        ensures { result ≡ self.keeper }
    {
        let Desk {
            writer,
            head: _,
            book: _,
            keeper,
            of: _,
        } = self;
        drop(writer.take(rt));
        keeper
    }

    /// What keeps the history. While it is open it was told exactly the published history, and of each beginning of that there is
    /// a moment since which each crash leaves it. Nothing is done.
    pub fn keeper(&self) -> &K
        ensures keeper { result.now ≡ self.now.keeper }
        ensures kept { IsTrue K.keeps → IsKept (K.tells R.facts) K.is_open K.moment K.left_since (K.reads R.facts) R.started R.loaded self.now.keeper (entries_of self.now.pairs) }
        ensures history { IsHistory R.facts R.passes R.loaded self.now.pairs }
    {
        let _ = self.prefix().len();
        &self.keeper
    }

    // What is published.
    fn published(&self) -> &Published
        ensures { result.now ≡ record { book = R.book; whole = record { facts = R.facts; passes = R.passes; loaded = R.loaded; pairs = self.now.pairs } } }
    {
        self.writer.published()
    }

    // The published account.
    fn account(&self) -> &Account
        ensures { result.now ≡ record { facts = R.facts; entries = entries_of self.now.pairs } }
    {
        self.published().account()
    }

    // The published history.
    fn prefix(&self) -> Prefix<R>
        ensures { result ≡ self.now.pairs }
    {
        self.published().history()
    }

    // What is published, as a pass tells it.
    pub(crate) fn tell(&self) -> Told<R>
        ensures { result ≡ self.now.pairs }
    {
        Told::new(self.prefix())
    }

    /// The pass learns the desk's whole history. It is true exactly where the pass has then seen as many
    /// entries as the desk has, and then the two histories are one; else the pass has seen more, and is as it
    /// was. The pass has made no more entries than there are behind the loaded ones, and where it is the only one, it made
    /// all of these and knew of them. It takes no memory.
    pub fn meet(&mut self, pass: &mut Pass<R>) -> bool
        ensures desk { self.new ≡ self.old }
        ensures longer { IsLongerOf pass.old.history self.old.pairs pass.new.history }
        ensures learns { Learns pass.old pass.new }
        ensures met { IsTrue result ↔ (length pass.new.history ≡ length self.old.pairs) }
        ensures same { IsTrue result → pass.new.history ≡ self.old.pairs }
        ensures more { IsFalse result → pass.new ≡ pass.old }
        ensures passes { pass.new.passes ≡ R.passes }
        ensures loaded { pass.new.loaded ≡ R.loaded }
        ensures bound { length pass.new.own + R.loaded ≤ length self.new.pairs }
        ensures whole { R.parts ≡ 1 → length pass.new.own + R.loaded ≡ length self.new.pairs }
        ensures alone { IsTrue result → KnewAllIfAlone pass.old pass.new × MadeAllIfAlone pass.new }
    {
        self.book.audit(&mut pass.share);
        let prefix = self.prefix();
        pass.learn_prefix(&prefix);
        pass.seen() == prefix.len()
    }

    /// The account at the desk's history. Nothing of it is copied.
    pub fn share(&self) -> Result<Account, NoMemory>
        ensures { IfOk result (λ a. a ≡ record { facts = R.facts; entries = entries_of self.now.pairs }) }
    {
        self.account().share()
    }

    /// Holds what some passes made together against the desk's history: that has no fewer entries behind the loaded
    /// ones, and where these are all passes of the service exactly as many. Nothing is done, and no memory taken.
    pub fn audit(&mut self, tally: &mut Tally<R>)
        ensures desk { self.new ≡ self.old }
        ensures tally { tally.new ≡ tally.old }
        ensures bound { tally.old.made + R.loaded ≤ length self.old.pairs }
        ensures whole { tally.old.passes ≡ R.passes → tally.old.made + R.loaded ≡ length self.old.pairs }
    {
        self.book.audit(&mut tally.share);
    }

    // The next account, with the entry as its last.
    fn prepare(&self, alloc: Global, entry: &Entry) -> Result<Arc<Account>, NoMemory>
        requires { IsNext R.facts (entries_of self.now.pairs) entry.now }
        ensures { IfOk result (λ a. arc_value a ≡ record { facts = R.facts; entries = entries_of self.now.pairs ++ entry.now ∷ [] }) }
    {
        self.published().next_account(alloc, entry)
    }

    // Keeps the entry, and publishes the next account, of which it is the last and which the pass makes. Where there is no room for the
    // entry's place it answers want of memory, and nothing is kept or published. So too where the history is full. Where the log is
    // longer, which doesn't come, since the desk alone makes it longer, nothing is published and nothing more is kept.
    #[tactic(auto, using(crate::proofs::OwnPlaces::one_more_place))]
    fn publish<W: Wait>(
        &mut self,
        rt: &W,
        alloc: Global,
        pass: &mut Pass<R>,
        account: Arc<Account>,
        entry: Entry,
    ) -> Result<(), Unmade>
        requires next { IsNext R.facts (entries_of self.old.pairs) entry }
        requires account { arc_value account ≡ record { facts = R.facts; entries = entries_of self.old.pairs ++ entry ∷ [] } }
        requires met { pass.old.history ≡ self.old.pairs }
        ensures ok { OnOk result ((self.new.pairs ≡ pass.new.history) × (pass.new ≡ making pass.old entry)) }
        ensures err { OnErr result ((self.new.pairs ≡ self.old.pairs) × (pass.new ≡ pass.old)) }
        ensures unkept { result ≡ Err Unkept → IsTrue K.keeps × (K.is_open self.new.keeper ≡ false) }
        ensures any_moment { IsTrue K.keeps → LeavesAlso K.moment K.left_since self.old.keeper self.new.keeper (IsBetween (K.reads R.facts) (entries_of self.old.pairs) (entries_of self.old.pairs ++ entry ∷ [])) }
    {
        pass.own.reserve(1)?;
        let place = pass.seen();
        if place >= MOST_ENTRIES {
            return Err(Unmade::NoMemory);
        }
        let before = self.prefix();
        self.keeper.keep(alloc, &entry)?;
        let Some(prefix) = logged(before, &self.head, entry, pass.number()) else {
            return Err(self.keeper.shut());
        };
        let published = self.writer.published().next(account, &prefix);
        show(rt, &mut self.writer, published);
        self.book.add(&mut pass.share, 1);
        pass.own.push_reserved(place);
        pass.prefix = prefix;
        Ok(())
    }

    /// Keeps and publishes the entry of housekeeping at the clock's answer, if one is due. The pass's history is the
    /// desk's. For want of memory, and where the entry couldn't be kept, nothing is published. A crash meanwhile leaves the
    /// history with that entry or without.
    pub fn keep_house<W: Wait>(
        &mut self,
        rt: &W,
        alloc: Global,
        pass: &mut Pass<R>,
        moment: u64,
    ) -> Result<(), Unmade>
        requires met { pass.old.history ≡ self.old.pairs }
        requires moment { moment < year_10000 }
        ensures ok { OnOk result ((pass.new ≡ keeping_house pass.old moment) × (self.new.pairs ≡ pass.new.history)) }
        ensures err { OnErr result ((pass.new ≡ pass.old) × (self.new.pairs ≡ self.old.pairs)) }
        ensures unkept { result ≡ Err Unkept → IsTrue K.keeps × (K.is_open self.new.keeper ≡ false) }
        ensures any_moment { IsTrue K.keeps → LeavesAlso K.moment K.left_since self.old.keeper self.new.keeper (IsBetween (K.reads R.facts) (entries_of self.old.pairs) (entries_of (keeping_house pass.old moment).history)) }
    {
        match self.account().housekeeping(moment) {
            None => Ok(()),
            Some(entry) => {
                let next = self.prepare(alloc, &entry)?;
                self.publish(rt, alloc, pass, next, entry)
            }
        }
    }

    // The next account, and the answer of the request that makes its last entry.
    #[tactic(auto, using(crate::proofs::PassLemmas::counted_on))]
    fn ready(
        &self,
        alloc: Global,
        entry: &Entry,
        reply: Reply,
    ) -> Result<(Arc<Account>, Answered), NoMemory>
        requires { IsNext R.facts (entries_of self.now.pairs) entry.now }
        ensures account { IfOk result (λ both. arc_value both.0 ≡ record { facts = R.facts; entries = entries_of self.now.pairs ++ entry.now ∷ [] }) }
        ensures answer { IfOk result (λ both. (both.1.front ≡ length self.now.pairs + 1) × (answer_in both.1 ≡ answer_of reply)) }
    {
        let next = self.prepare(alloc, entry)?;
        let answered = answer_with(alloc, next.entries(), reply)?;
        Ok((next, answered))
    }

    // Publishes the entry of a request. The answer is made before.
    fn enact<W: Wait, G: Gate>(
        &mut self,
        rt: &W,
        alloc: Global,
        pass: &mut Pass<R>,
        entry: Entry,
        reply: Reply,
        gate: &G,
    ) -> Result<Answered, Unmade>
        requires met { pass.old.history ≡ self.old.pairs }
        requires next { IsNext R.facts (entries_of self.old.pairs) entry }
        ensures made { OnOk result ((self.new.pairs ≡ pass.new.history) × (pass.new ≡ making pass.old entry)) }
        ensures answer { IfOk result (λ a. (a.front ≡ length pass.new.history) × (answer_in a ≡ answer_of reply)) }
        ensures err { OnErr result ((self.new.pairs ≡ self.old.pairs) × (pass.new ≡ pass.old)) }
        ensures unkept { result ≡ Err Unkept → IsTrue K.keeps × (K.is_open self.new.keeper ≡ false) }
        ensures any_moment { IsTrue K.keeps → LeavesAlso K.moment K.left_since self.old.keeper self.new.keeper (IsBetween (K.reads R.facts) (entries_of self.old.pairs) (entries_of self.old.pairs ++ entry ∷ [])) }
    {
        let (next, answered) = self.ready(alloc, &entry, reply)?;
        gate.at(Point::AtDesk);
        self.publish(rt, alloc, pass, next, entry)?;
        Ok(answered)
    }

    // Answers a request that changes the account, and publishes its entry, if it has one.
    fn decide<W: Wait, G: Gate>(
        &mut self,
        rt: &W,
        alloc: Global,
        pass: &mut Pass<R>,
        ask: &Ask,
        gate: &G,
    ) -> Result<Answered, Unmade>
        requires met { pass.old.history ≡ self.old.pairs }
        requires proper { IsProper pass.old.facts ask.now }
        requires changes { changes_account ask.now.body ≡ true }
        ensures ok { IfOk result (λ a. AnswersHere pass.old ask.now a pass.new × (self.new.pairs ≡ pass.new.history)) }
        ensures err { OnErr result ((pass.new ≡ pass.old) × (self.new.pairs ≡ self.old.pairs)) }
        ensures unkept { result ≡ Err Unkept → IsTrue K.keeps × (K.is_open self.new.keeper ≡ false) }
        ensures any_moment { IsTrue K.keeps → LeavesAlso K.moment K.left_since self.old.keeper self.new.keeper (IsBetween (K.reads R.facts) (entries_of self.old.pairs) (entries_of (deciding pass.old ask.now).history)) }
    {
        let front = pass.seen();
        match self.account().decide_change(alloc, ask)? {
            Decision::Refused(reply) | Decision::Served(reply) => {
                Ok(answer_with(alloc, front, reply)?)
            }
            Decision::Change(entry, reply) => self.enact(rt, alloc, pass, entry, reply, gate),
        }
    }

    /// Answers a request that changes the account, after housekeeping, and keeps and publishes the entries of both. The
    /// pass's history is the desk's. For want of memory, and where an entry couldn't be kept, at most the entry of
    /// housekeeping is published. A crash meanwhile leaves the history, with the first of these entries, or with both.
    #[tactic(auto, using(crate::proofs::PassLemmas::proper_kept))]
    pub fn change<W: Wait, G: Gate>(
        &mut self,
        rt: &W,
        alloc: Global,
        pass: &mut Pass<R>,
        ask: &Ask,
        gate: &G,
    ) -> Result<Answered, Unmade>
        requires met { pass.old.history ≡ self.old.pairs }
        requires proper { IsProper pass.old.facts ask.now }
        requires changes { changes_account ask.now.body ≡ true }
        ensures ok { IfOk result (λ a. AnswersAtDesk pass.old ask.now a pass.new × (self.new.pairs ≡ pass.new.history)) }
        ensures err { OnErr result (LeavesAtMost pass.old ask.now.moment pass.new × (self.new.pairs ≡ pass.new.history)) }
        ensures unkept { result ≡ Err Unkept → IsTrue K.keeps × (K.is_open self.new.keeper ≡ false) }
        ensures any_moment { IsTrue K.keeps → LeavesAlso K.moment K.left_since self.old.keeper self.new.keeper (IsBetween (K.reads R.facts) (entries_of self.old.pairs) (entries_of (deciding (keeping_house pass.old ask.now.moment) ask.now).history)) }
    {
        self.keep_house(rt, alloc, pass, ask.moment)?;
        self.decide(rt, alloc, pass, ask, gate)
    }
}
