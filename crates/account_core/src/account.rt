// The account.
ghost use Rattle.std.specs.Prelude.{◌≡◌, ◌<◌, ◌++◌, ◌∷◌, [], length, true, false, IfOk};
ghost use Rattle.kms_names.specs.Moment.{year_10000};

use crate::Decision;
use crate::asking::{Asked, asked_about};
use crate::decide::{asked_by, decision_from, lacking_entries};
use crate::entering::{FitFault, is_dated, is_formed, is_there, leaves_room, tags_fit_on};
use crate::held_facts::HeldFacts;
use crate::operations::{change_body, read_body};
use account_rows::{Entry, Rows, What, is_made_here};
use account_steps::{Places, RealmFacts, Stop, View};
use draw_lines::DrawLine;
use grant_table::GrantRow;
use kms_json::{Ask, AskBody, Reply};
use kms_names::{KeyId, NoMemory, Principal, Text};
use resource_tags::TagMap;
use std::alloc::Global;
use std::marker::Model;

// The first second of the year 10000.
const YEAR_10000: u64 = 253_402_300_800;

/// The account of one thread. Contracts see its facts and the list of its entries; the rows that it
/// keeps beside them are the list's replay.
pub struct Account {
    facts: HeldFacts,
    rows: Rows,
}

// Each crate that lets an account go calls this one drop, and doesn't take it apart itself.
impl Drop for Account {
    fn drop(self) {
        let Account { facts: _, rows: _ } = self;
    }
}

impl Model for Account {
    ghost use Rattle.account_core.specs.Account as account;
    ghost use Rattle.account_core.specs.Fitting.{IsHeld};

    ghost Value = { account.Account };

    ghost view = { λ a. record { facts = a.facts; entries = a.rows } };

    ghost invariant = { λ a. IsHeld a.facts a.rows };
}

impl Account {
    ghost use Rattle.std.specs.Prelude.{◌≡◌, ◌<◌, ◌++◌, ◌∷◌, [], length, true, false, IfOk};
    ghost use Rattle.kms_json.specs.Asks.{changes_account};
    ghost use Rattle.account_rows.specs.History.{latest_of, housekeeping_of};
    ghost use Rattle.std.specs.Prelude.{OnOk, OnErr};
    ghost use Rattle.account_steps.specs.Places.{places_of, line_at, IsLineOf, IsWithin};
    ghost use Rattle.account_steps.specs.View.{view_of};
    ghost use Rattle.std.specs.Prelude.{slice_get, option_map};
    ghost use Rattle.account_rows.specs.History.{replay, key_with};
    ghost use Rattle.grant_table.specs.Grants.{grant_of_key};
    ghost use Rattle.account_core.specs.Decide.{decide, decision_of, asked_at, IsProper, IsNext};
    ghost use Rattle.std.specs.Prelude.{IsTrue, ◌↔◌, Err};
    ghost use Rattle.account_rows.specs.History.{tags_fit};
    ghost use Rattle.account_core.specs.declared.entering.FitFault.TheVariants.{Unfit};
    ghost use Rattle.account_core.specs.Fitting.{HasPlace, Fits, IsHeld};

    /// The account of these facts with no entries.
    pub fn empty(alloc: Global, facts: RealmFacts) -> Result<Account, NoMemory>
        ensures { IfOk result (λ a. a ≡ record { facts = facts; entries = [] }) }
    {
        let rows = Rows::new(alloc, &facts.account)?;
        Ok(Account {
            facts: HeldFacts::new(alloc, facts)?,
            rows,
        })
    }

    /// What is constant for the run.
    pub fn facts(&self) -> &RealmFacts
        ensures { result.now ≡ self.now.facts }
    {
        self.facts.facts()
    }

    /// The number of entries. Each of them is one that a proper request, or housekeeping, appends to those before it, or one that fits them.
    pub fn entries(&self) -> u64
        ensures number { result ≡ length self.now.entries }
        ensures held { IsHeld self.now.facts self.now.entries }
    {
        self.rows.entries()
    }

    /// The time of the last entry, in seconds since 1970, and 0 where there is none.
    pub fn latest(&self) -> u64
        ensures { result ≡ latest_of self.now.entries }
    {
        self.rows.latest()
    }

    /// The answer to a request that doesn't change the account, for a pass whose line of draws this is.
    ///
    /// A request that is served takes what it uses of the line: a sealed text one initialization vector,
    /// and a draw the whole words that hold it. Without memory at most so much is taken.
    pub fn decide_read(
        &self,
        alloc: Global,
        ask: &Ask,
        places: &mut DrawLine,
    ) -> Result<Reply, NoMemory>
        requires proper { IsProper self.now.facts ask.now }
        requires reads { changes_account ask.now.body ≡ false }
        requires line { IsLineOf self.now.facts places.old }
        ensures answer { IfOk result (λ reply. reply ≡ (decide self.now.facts self.now.entries ask.now (places_of places.old)).reply) }
        ensures used { OnOk result (places.new ≡ line_at places.old (decide self.now.facts self.now.entries ask.now (places_of places.old)).places) }
        ensures within { OnErr result (IsWithin places.old places.new (decide self.now.facts self.now.entries ask.now (places_of places.old)).places) }
    {
        if let Some(refusal) = lacking_entries(self.rows.entries(), ask.after) {
            return Ok(Reply::Refused(refusal));
        }
        let AskBody::Read(body) = &ask.body else {
            unreachable!()
        };
        let view = self.view(alloc, ask, Places::of(places))?;
        match read_body(alloc, &view, body, places) {
            Ok(reply) => Ok(reply),
            Err(Stop::Refused(refusal)) => Ok(Reply::Refused(refusal)),
            Err(Stop::NoMemory) => Err(NoMemory),
        }
    }

    /// The answer to a request that changes the account, with the entry that it appends, if any.
    pub fn decide_change(&self, alloc: Global, ask: &Ask) -> Result<Decision, NoMemory>
        requires proper { IsProper self.now.facts ask.now }
        requires changes { changes_account ask.now.body ≡ true }
        ensures { IfOk result (λ decision. decision ≡ decision_of self.now.facts self.now.entries ask.now) }
    {
        if let Some(refusal) = lacking_entries(self.rows.entries(), ask.after) {
            return Ok(Decision::Refused(Reply::Refused(refusal)));
        }
        let AskBody::Change(body) = &ask.body else {
            unreachable!()
        };
        let view = self.view(alloc, ask, Places::NONE)?;
        let moment = view.moment();
        match change_body(alloc, &view, body) {
            Ok(made) => Ok(decision_from(moment, made)),
            Err(Stop::Refused(refusal)) => Ok(Decision::Refused(Reply::Refused(refusal))),
            Err(Stop::NoMemory) => Err(NoMemory),
        }
    }

    /// What the step of authority asks about a request: nothing where the request is refused before it, and else its questions
    /// in order, as policies and grants are asked them (IAM User Guide, "Policy evaluation logic"). The time grows with the number
    /// of the aliases of the keys that it is about.
    pub fn questions(&self, alloc: Global, ask: &Ask) -> Result<Asked, NoMemory>
        requires proper { IsProper self.now.facts ask.now }
        ensures { IfOk result (λ asked. asked ≡ asked_at self.now.facts self.now.entries ask.now) }
    {
        if let Some(_refusal) = lacking_entries(self.rows.entries(), ask.after) {
            return Ok(Asked::Early);
        }
        let view = self.view(alloc, ask, Places::NONE)?;
        asked_by(asked_about(alloc, &view, &ask.body))
    }

    /// The text of a key's policy; `None` where no row of the key is there. It takes no memory.
    pub fn policy_text(&self, key: &KeyId) -> Option<&Text>
        ensures { option_map (λ text. text.now) result ≡ option_map (λ row. row.policy) (key_with (replay self.now.entries).keys key.now) }
    {
        match self.rows.key(key) {
            Some(held) => Some(&held.row().policy),
            None => None,
        }
    }

    /// The first grant of a key, in order of making, that was made behind a place, or the first of all. It takes no memory.
    pub fn key_grant(&self, key: &KeyId, after: Option<u64>) -> Option<&GrantRow>
        ensures { option_map (λ grant. grant.now) result ≡ grant_of_key (replay self.now.entries).grants key.now after }
    {
        self.rows.grants().of_key(key, after)
    }

    /// The entry at a place, counted from 0, and `None` past the last one. It takes no memory.
    pub fn entry(&self, place: u64) -> Option<&Entry>
        ensures { option_map (λ entry. entry.now) result ≡ slice_get self.now.entries place }
    {
        self.rows.entry(place)
    }

    /// The same account once more. Nothing of it is copied.
    pub fn share(&self) -> Result<Account, NoMemory>
        ensures { IfOk result (λ a. a ≡ self.now) }
    {
        Ok(Account {
            facts: self.facts.share()?,
            rows: self.rows.share()?,
        })
    }

    // Whether the tags that an entry puts leave few enough on its key.
    fn tags_fit(&self, alloc: Global, what: &What) -> Result<bool, NoMemory>
        ensures { IfOk result (λ b. b ≡ tags_fit (replay self.now.entries).keys what.now) }
    {
        match what {
            What::CreateKey { tags, .. } => tags_fit_on(&TagMap::new(alloc), tags),
            What::Tag { key, tags } => match self.rows.key(key) {
                Some(held) => tags_fit_on(&held.row().tags, tags),
                None => Ok(true),
            },
            _ => Ok(true),
        }
    }

    // Whether there is room for an entry, and what it names is there.
    fn has_place_for(&self, entry: &Entry) -> bool
        requires { entry.now.time < year_10000 }
        ensures { IsTrue result ↔ HasPlace self.now.facts self.now.entries entry.now }
    {
        let facts = self.facts.facts();
        let root = Principal::Root(facts.account);
        let ceiling = self.facts.ceiling();
        let view = View::new(
            facts,
            &self.rows,
            entry.time,
            &root,
            &[],
            ceiling,
            Places::NONE,
        );
        is_there(&view, self.rows.wants_house(entry.time), &entry.what)
            && leaves_room(&view, &entry.what)
    }

    // Whether an entry fits the history.
    fn fits(&self, alloc: Global, entry: &Entry) -> Result<bool, NoMemory>
        ensures { IfOk result (λ b. IsTrue b ↔ Fits self.now.facts self.now.entries entry.now) }
    {
        let what = &entry.what;
        if entry.time < self.rows.latest() || entry.time >= YEAR_10000 {
            return Ok(false);
        }
        Ok(
            is_made_here(self.rows.entries(), what)
                && is_dated(entry.time, what)
                && self.has_place_for(entry)
                && is_formed(alloc, what)?
                && self.tags_fit(alloc, what)?,
        )
    }

    /// The account with one more entry, whoever made it; this one stays as it is. `Unfit` comes exactly where the entry doesn't fit the
    /// history, unless memory lacks before.
    pub fn push_fitting(&self, alloc: Global, entry: &Entry) -> Result<Account, FitFault>
        ensures pushed { IfOk result (λ a. a ≡ record { facts = self.now.facts; entries = self.now.entries ++ entry.now ∷ [] }) }
        ensures fits { OnOk result (Fits self.now.facts self.now.entries entry.now) }
        ensures unfit { result ≡ Err Unfit → ¬ (Fits self.now.facts self.now.entries entry.now) }
    {
        if !self.fits(alloc, entry)? {
            return Err(FitFault::Unfit);
        }
        Ok(Account {
            facts: self.facts.share()?,
            rows: self.rows.apply(entry)?,
        })
    }

    // What the steps of a request's decision go by.
    fn view<'a>(&'a self, alloc: Global, ask: &'a Ask, places: Places) -> Result<View<'a>, NoMemory>
        requires { ask.now.moment < year_10000 }
        ensures { IfOk result (λ view. view ≡ view_of self.now.facts self.now.entries ask.now places) }
    {
        let policies = self.facts.policies_of(alloc, &ask.caller)?;
        Ok(View::new(
            self.facts.facts(),
            &self.rows,
            ask.moment.max(self.rows.latest()),
            &ask.caller,
            policies,
            self.facts.ceiling(),
            places,
        ))
    }

    /// The account with one more entry, which a request or housekeeping appends. This one stays as it is.
    pub fn apply(&self, entry: &Entry) -> Result<Account, NoMemory>
        requires { IsNext self.now.facts self.now.entries entry.now }
        ensures { IfOk result (λ a. a ≡ record { facts = self.now.facts; entries = self.now.entries ++ entry.now ∷ [] }) }
    {
        Ok(Account {
            facts: self.facts.share()?,
            rows: self.rows.apply(entry)?,
        })
    }

    /// The entry that housekeeping appends at the clock's answer, if any: where the date of deletion of some key has come or
    /// an automatic rotation is due, and there is room for it. It takes no memory.
    pub fn housekeeping(&self, moment: u64) -> Option<Entry>
        ensures { result ≡ housekeeping_of self.now.entries moment }
    {
        self.rows.housekeeping(moment)
    }
}
