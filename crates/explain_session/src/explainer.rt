// An account whose answers are explained.
ghost use Rattle.std.specs.Prelude.{◌≡◌, ◌<◌, true, false, IfOk, OnOk, OnErr};
ghost use Rattle.kms_names.specs.Moment.{year_10000};
ghost use Rattle.kms_json.specs.Asks.{changes_account};
ghost use Rattle.account_core.specs.Decide.{IsProper};
ghost use Rattle.explain_session.specs.Explaining.{fresh, keeping_house, met_by, Answers, ExplainsAt, Leaves, LeavesHere};

use crate::lines::exception_in;
use access_explain::{certificate_line, explain};
use account_core::{Account, Decision, DrawLine};
use account_steps::draw_line;
use kms_json::{Ask, Reply};
use kms_names::{Bytes, NoMemory};
use std::alloc::Global;
use std::marker::Model;

/// An account of one thread, with the random stream and the initialization vectors of a first pass, whose
/// answers are explained. Contracts see the facts, the list of the entries, and what was used of both.
#[derive(Drop)]
pub struct Explainer {
    account: Account,
    draws: DrawLine,
}

impl Model for Explainer {
    ghost use Rattle.account_steps.specs.Places.{places_of, IsLineOf};
    ghost use Rattle.explain_session.specs.Explaining as explaining;

    ghost Value = { explaining.Explainer };

    ghost view = { λ e. record { facts = e.account.facts; entries = e.account.entries; places = places_of e.draws } };

    ghost invariant = { λ e. IsLineOf e.account.facts e.draws };
}

impl Explainer {
    /// An account of which nothing was used.
    pub fn new(account: Account) -> Explainer
        ensures { result ≡ fresh account }
    {
        let draws = draw_line(account.facts(), 1);
        Explainer { account, draws }
    }

    /// The region of the account.
    pub fn region(&self) -> &str
        ensures { result.now ≡ self.now.facts.region }
    {
        self.account.facts().region.as_str()
    }

    // Appends the entry of housekeeping at a moment, if one is due.
    fn keep_house(&mut self, moment: u64) -> Result<(), NoMemory>
        requires { moment < year_10000 }
        ensures kept { OnOk result (self.new ≡ keeping_house self.old moment) }
        ensures lacking { OnErr result (self.new ≡ self.old) }
        ensures facts { self.new.facts ≡ self.old.facts }
    {
        if let Some(entry) = self.account.housekeeping(moment) {
            self.account = self.account.apply(&entry)?;
        }
        Ok(())
    }

    // Answers a request that doesn't change the account.
    fn read(&mut self, alloc: Global, ask: &Ask) -> Result<Reply, NoMemory>
        requires proper { IsProper self.old.facts ask.now }
        requires reads { changes_account ask.now.body ≡ false }
        ensures answers { IfOk result (λ reply. Answers self.old ask.now reply self.new) }
        ensures lacking { OnErr result (LeavesHere self.old ask.now self.new) }
        ensures facts { self.new.facts ≡ self.old.facts }
    {
        self.account.decide_read(alloc, ask, &mut self.draws)
    }

    // Answers a request that changes the account, and appends its entry, if it has one.
    fn change(&mut self, alloc: Global, ask: &Ask) -> Result<Reply, NoMemory>
        requires proper { IsProper self.old.facts ask.now }
        requires changes { changes_account ask.now.body ≡ true }
        ensures answers { IfOk result (λ reply. Answers self.old ask.now reply self.new) }
        ensures lacking { OnErr result (LeavesHere self.old ask.now self.new) }
        ensures facts { self.new.facts ≡ self.old.facts }
    {
        match self.account.decide_change(alloc, ask)? {
            Decision::Refused(reply) | Decision::Served(reply) => Ok(reply),
            Decision::Change(entry, reply) => {
                self.account = self.account.apply(&entry)?;
                Ok(reply)
            }
        }
    }

    // Answers a request.
    fn answer(&mut self, alloc: Global, ask: &Ask) -> Result<Reply, NoMemory>
        requires { IsProper self.old.facts ask.now }
        ensures answers { IfOk result (λ reply. Answers self.old ask.now reply self.new) }
        ensures lacking { OnErr result (LeavesHere self.old ask.now self.new) }
        ensures facts { self.new.facts ≡ self.old.facts }
    {
        if ask.changes() {
            self.change(alloc, ask)
        } else {
            self.read(alloc, ask)
        }
    }

    // Explains a request where it is decided, and answers it.
    fn explain_here(&mut self, alloc: Global, ask: &Ask) -> Result<Bytes, NoMemory>
        requires { IsProper self.old.facts ask.now }
        ensures line { IfOk result (λ line. ExplainsAt self.old ask.now line self.new) }
        ensures lacking { OnErr result (LeavesHere self.old ask.now self.new) }
        ensures facts { self.new.facts ≡ self.old.facts }
    {
        let _entries = self.account.entries();
        let certificate = explain(alloc, &self.account, ask)?;
        let reply = self.answer(alloc, ask)?;
        certificate_line(alloc, &certificate, exception_in(&reply))
    }

    /// The line of a request: its certificate, with the exception of its reply or `Ok`. A request that
    /// changes the account comes after housekeeping at its moment, and its entry is appended. Where memory is wanting, the
    /// account is as it was, or after housekeeping, or as the reply leaves it, and no more places are used than the reply uses.
    pub fn explain(&mut self, alloc: Global, ask: &Ask) -> Result<Bytes, NoMemory>
        requires { IsProper self.old.facts ask.now }
        ensures line { IfOk result (λ line. ExplainsAt (met_by self.old ask.now) ask.now line self.new) }
        ensures lacking { OnErr result (Leaves self.old ask.now self.new) }
        ensures facts { self.new.facts ≡ self.old.facts }
    {
        if ask.changes() {
            self.keep_house(ask.moment)?;
        }
        self.explain_here(alloc, ask)
    }
}
