// A pass.
ghost use Rattle.std.specs.Prelude.{◌≡◌, ◌<◌, ◌≤◌, [], length, false, None, IfOk, IfErr, IsTrue, IsFalse};
ghost use Rattle.kms_json.specs.Asks.{changes_account};
ghost use Rattle.account_core.specs.Decide.{IsProper};
ghost use Rattle.account_steps.specs.History.{housekeeping_of};
ghost use Rattle.account_steps.specs.Places.{first_line};
ghost use Rattle.published_account.specs.Growing.{IsLongerOf};
ghost use Rattle.published_account.specs.Pairs.{IsHistory, entries_of, loaded_pairs};
ghost use Rattle.publish_pass.specs.Pass.{fresh_pass, Agree, ArePlaces, Learns, AnswersRead, LacksRead, GivesAccount, LacksAccount};

use crate::told::Told;
use account_core::Account;
use draw_lines::DrawLine;
use kms_json::Ask;
use published_account::{Answered, Entrance, Found, Prefix, Realm, Standing, Unread};
use std::alloc::Global;
use std::marker::Model;
use std::sync::ledger::Share;

/// One connection's hold on the service. Contracts see the facts, the number of passes and of loaded entries of the
/// service, its number, the history that it has seen with the maker of each entry, the places of its own entries, what it
/// has used of its random stream and of its initialization vectors, and how often it missed the published account.
#[derive(Drop)]
pub struct Pass<R: Realm> {
    pub(crate) number: u16,
    entrance: Entrance<R>,
    pub(crate) prefix: Prefix<R>,
    pub(crate) own: Vec<u64>,
    draws: DrawLine,
    pub(crate) share: Share<R>,
}

impl<R: Realm> Model for Pass<R> {
    ghost use Rattle.std.specs.Prelude.{◌≡◌, ◌<◌, ◌≤◌, length};
    ghost use Rattle.account_steps.specs.Places.{places_of, IsLineOf};
    ghost use Rattle.publish_pass.specs.Pass as passes;
    ghost use Rattle.published_account.specs.Pairs.{IsHistory};

    ghost Value = { passes.Pass };

    ghost view = { λ p. record { facts = R.facts; passes = R.passes; loaded = R.loaded; number = p.number; history = p.prefix; own = p.own.items; places = places_of p.draws; missed = p.entrance } };

    ghost invariant = { λ p. record {
      parts : p.share.parts ≡ 1;
      amount : p.share.amount ≡ length p.own.items;
      own : passes.ArePlaces R.loaded (length p.prefix) p.own.items;
      history : IsHistory R.facts R.passes R.loaded p.prefix;
      first : 0 < p.number;
      last : p.number ≤ R.passes;
      draws : IsLineOf R.facts p.draws;
      same : p.draws.pass_number ≡ p.number;
    } };
}

impl<R: Realm> Pass<R> {
    // A pass that has seen what was loaded alone, and made and used nothing.
    #[tactic(auto, using(crate::proofs::OwnPlaces::no_places))]
    pub(crate) fn new(
        number: u16,
        entrance: Entrance<R>,
        prefix: Prefix<R>,
        own: Vec<u64>,
        draws: DrawLine,
        share: Share<R>,
    ) -> Pass<R>
        requires number { (0 < number) × (number ≤ R.passes) }
        requires empty { (entrance ≡ 0) × (prefix ≡ loaded_pairs (entries_of prefix)) × (length prefix ≡ R.loaded) × (own.items ≡ []) }
        requires history { IsHistory R.facts R.passes R.loaded prefix }
        requires draws { draws ≡ first_line R.facts number }
        requires share { (share.parts ≡ 1) × (share.amount ≡ 0) }
        ensures { result ≡ fresh_pass R.facts R.passes (entries_of prefix) number }
    {
        Pass {
            number,
            entrance,
            prefix,
            own,
            draws,
            share,
        }
    }

    /// The number of entries that the pass has seen. The first of them were loaded; each other is one that may come
    /// next after those before it, and was made by one of the passes; those that this pass made are among these. The facts are
    /// those of the service. It takes no memory.
    pub fn seen(&self) -> u64
        ensures number { result ≡ length self.now.history }
        ensures facts { self.now.facts ≡ R.facts }
        ensures passes { self.now.passes ≡ R.passes }
        ensures loaded { self.now.loaded ≡ R.loaded }
        ensures history { IsHistory R.facts R.passes R.loaded self.now.history }
        ensures own { ArePlaces R.loaded (length self.now.history) self.now.own }
    {
        self.prefix.len()
    }

    /// Answers a request that doesn't change the account, at a history that holds all that this pass has
    /// seen. It enters the published account once, takes no lock and waits for nobody.
    ///
    /// The pass then holds the history that the answer stands on, and has used what a request that is served
    /// uses of the random stream and of the initialization vectors; without memory at most so much. At
    /// `NotEntered` it is as it was, but for the count of misses, and the caller asks again.
    #[tactic(auto, using(crate::proofs::OwnPlaces::places_stay))]
    pub fn read(&mut self, alloc: Global, ask: &Ask) -> Result<Answered, Unread>
        requires proper { IsProper self.old.facts ask.now }
        requires reads { changes_account ask.now.body ≡ false }
        ensures answer { IfOk result (λ a. AnswersRead self.old ask.now a self.new) }
        ensures lacks { IfErr result (λ why. LacksRead self.old ask.now why self.new) }
    {
        let Some(found) = self
            .entrance
            .enter(alloc, &self.prefix, ask, &mut self.draws)
        else {
            return Err(Unread::NotEntered);
        };
        let Found { answered, prefix } = found;
        self.prefix = prefix;
        let answered = answered?;
        Ok(answered)
    }

    /// The account at a history that holds all that this pass has seen, which the pass then holds. It enters the published
    /// account once, takes no lock and waits for nobody. Nothing of the account is copied.
    ///
    /// At `NotEntered` the pass is as it was, but for the count of misses, and the caller asks again; for want of memory it
    /// holds that history.
    #[tactic(auto, using(crate::proofs::OwnPlaces::places_stay))]
    pub fn account(&mut self) -> Result<Account, Unread>
        ensures account { IfOk result (λ a. GivesAccount self.old a self.new) }
        ensures lacks { IfErr result (λ why. LacksAccount self.old why self.new) }
    {
        let Some(standing) = self.entrance.stand(&self.prefix) else {
            return Err(Unread::NotEntered);
        };
        let Standing { published, prefix } = standing;
        self.prefix = prefix;
        let account = published.account().share()?;
        Ok(account)
    }

    // Looks at the published account without a lock, and is true where no housekeeping is due there at the clock's
    // answer: the pass then holds that history. Else it is as it was.
    #[tactic(auto, using(crate::proofs::OwnPlaces::places_stay))]
    pub(crate) fn finds_house_kept(&mut self, moment: u64) -> bool
        ensures learns { IsTrue result → Learns self.old self.new }
        ensures kept { IsTrue result → housekeeping_of (entries_of self.new.history) moment ≡ None }
        ensures passes { self.new.passes ≡ R.passes }
        ensures same { IsFalse result → self.new ≡ self.old }
    {
        match self.entrance.kept_house(&self.prefix, moment) {
            None => false,
            Some(prefix) => {
                self.prefix = prefix;
                true
            }
        }
    }

    /// What this pass tells others: all that it has seen. It takes no memory and waits for nobody.
    pub fn tell(&self) -> Told<R>
        ensures { result ≡ self.now.history }
    {
        Told::new(self.prefix.again())
    }

    /// Learns what another pass of the service told: the pass then holds the longer of both histories,
    /// which the other begins. It takes no memory and waits for nobody.
    pub fn learn(&mut self, told: &Told<R>)
        ensures longer { IsLongerOf self.old.history told.now self.new.history }
        ensures learns { Learns self.old self.new }
    {
        self.learn_prefix(told.prefix());
    }

    /// Of what two passes of one service have seen, whenever that is asked, one begins with all of the other: there is one
    /// history. Nothing is done, and no memory taken.
    pub fn agrees(&self, other: &Pass<R>)
        ensures { Agree self.now.history other.now.history }
    {
        self.tell().agrees(&other.tell());
    }

    // Ends it, and gives its part of the ledger.
    pub(crate) fn retire(self) -> Share<R>
        ensures part { result.parts ≡ 1 }
        ensures made { result.amount ≡ length self.own }
    {
        let Pass {
            number: _,
            entrance: _,
            prefix: _,
            own: _,
            draws: _,
            share,
        } = self;
        share
    }

    // Its number, one of those of the passes.
    pub(crate) fn number(&self) -> u16
        ensures number { result ≡ self.now.number }
        ensures pass { (0 < result) × (result ≤ R.passes) }
    {
        self.number
    }

    // Learns a beginning of the history.
    #[tactic(auto, using(crate::proofs::OwnPlaces::places_stay))]
    pub(crate) fn learn_prefix(&mut self, prefix: &Prefix<R>)
        ensures longer { IsLongerOf self.old.history prefix.now self.new.history }
        ensures learns { Learns self.old self.new }
    {
        self.prefix.learn(prefix);
    }
}
