// The edge to the published account.
ghost use Rattle.std.specs.Prelude.{◌≡◌, length, IfSome, IfNone, None, false};
ghost use mathlib.Core.List.{IsPrefix};
ghost use Rattle.left_right.specs.Sides.{view};
ghost use Rattle.kms_json.specs.Asks.{changes_account};
ghost use Rattle.account_core.specs.Decide.{IsProper};
ghost use Rattle.account_steps.specs.History.{housekeeping_of};
ghost use Rattle.account_steps.specs.Places.{IsLineOf};
ghost use Rattle.published_account.specs.Pairs.{IsHistory, entries_of};
ghost use Rattle.published_account.specs.Reading.{Rose};
ghost use Rattle.published_account.specs.Reading.{Settles};
ghost use Rattle.published_account.specs.Rules.{Knows, Names};

use crate::answered::{Answered, answer_with};
use crate::prefix::Prefix;
use crate::published::Published;
use crate::realm::Realm;
use crate::rule::{Sees, Window};
use account_core::Account;
use draw_lines::DrawLine;
use kms_json::Ask;
use kms_names::NoMemory;
use std::alloc::Global;
use std::marker::{Model, PhantomData};

/// What a look found: the answer, and the history that it stands on.
#[derive(Drop)]
pub struct Found<R: Realm> {
    /// The answer, or that memory lacked for it.
    pub answered: Result<Answered, NoMemory>,
    /// The history that it stands on.
    pub prefix: Prefix<R>,
}

/// What is published, and its history.
#[derive(Drop)]
pub struct Standing<R: Realm> {
    /// What is published.
    pub published: Published,
    /// Its history.
    pub prefix: Prefix<R>,
}

/// The reader of the published account. Contracts see it as the count of missed entries.
#[derive(Drop)]
pub struct Entrance<R: Realm> {
    window: Option<Window>,
    missed: u64,
    of: PhantomData<R>,
}

impl<R: Realm> Model for Entrance<R> {
    ghost use Rattle.std.specs.Prelude.{ℕ, MatchOption};
    ghost use Rattle.left_right.specs.Sides as sides;
    ghost use Rattle.published_account.specs.Rules.{Knows};

    ghost Value = { ℕ };

    ghost view = { λ e. e.missed };

    ghost invariant = { λ e. MatchOption e.window ⊥ (λ w. Knows R.book R.facts R.passes R.loaded (sides.view w.place)) };
}

// The answer at an account, with its body.
fn answer(
    alloc: Global,
    account: &Account,
    ask: &Ask,
    draws: &mut DrawLine,
) -> Result<Answered, NoMemory>
    requires proper { IsProper account.now.facts ask.now }
    requires reads { changes_account ask.now.body ≡ false }
    requires line { IsLineOf account.now.facts draws.old }
    ensures { Settles account.now.facts account.now.entries ask.now draws.old result draws.new }
{
    let reply = account.decide_read(alloc, ask, draws)?;
    let answered = answer_with(alloc, account.entries(), reply)?;
    Ok(answered)
}

// The history of what is published, or None where that is older than what is known.
fn history_at<R: Realm>(shown: &Published, known: &Prefix<R>) -> Option<Prefix<R>>
    requires names { Names R.book R.facts R.passes R.loaded shown.now }
    ensures begins { IfSome result (λ p. IsPrefix known.now p × IsHistory R.facts R.passes R.loaded p) }
    ensures pairs { IfSome result (λ p. shown.now.whole.pairs ≡ p) }
{
    let history = shown.history::<R>();
    if history.len() < known.len() {
        return None;
    }
    Some(known.joined(&history))
}

// The answer at what is published, or None where that is older than what is known.
fn answer_at<R: Realm>(
    shown: &Published,
    alloc: Global,
    known: &Prefix<R>,
    ask: &Ask,
    draws: &mut DrawLine,
) -> Option<Found<R>>
    requires names { Names R.book R.facts R.passes R.loaded shown.now }
    requires proper { IsProper R.facts ask.now }
    requires reads { changes_account ask.now.body ≡ false }
    requires line { IsLineOf R.facts draws.old }
    ensures begins { IfSome result (λ f. IsPrefix known.now f.prefix × IsHistory R.facts R.passes R.loaded f.prefix) }
    ensures found { IfSome result (λ f. Settles R.facts (entries_of f.prefix) ask.now draws.old f.answered draws.new) }
    ensures missed { IfNone result (draws.new ≡ draws.old) }
{
    let prefix = history_at(shown, known)?;
    let answered = answer(alloc, shown.account(), ask, draws);
    Some(Found { answered, prefix })
}

// Enters once, shares what is shown, leaves, and answers at that: a change waits for who is inside, and so for no answer
// that takes long. It is None where the account was not entered or could not be shared, or is older than what is known.
fn look<R: Realm>(
    window: Window,
    alloc: Global,
    known: &Prefix<R>,
    ask: &Ask,
    draws: &mut DrawLine,
) -> (Window, Option<Found<R>>)
    requires window { Knows R.book R.facts R.passes R.loaded (view window.place) }
    requires proper { IsProper R.facts ask.now }
    requires reads { changes_account ask.now.body ≡ false }
    requires line { IsLineOf R.facts draws.old }
    ensures window { Knows R.book R.facts R.passes R.loaded (view result.0.place) }
    ensures begins { IfSome result.1 (λ f. IsPrefix known.now f.prefix × IsHistory R.facts R.passes R.loaded f.prefix) }
    ensures found { IfSome result.1 (λ f. Settles R.facts (entries_of f.prefix) ask.now draws.old f.answered draws.new) }
    ensures missed { IfNone result.1 (draws.new ≡ draws.old) }
{
    match window.enter_as::<Sees>() {
        Err(window) => (window, None),
        Ok(reading) => {
            let shown = reading.get().share();
            let window = reading.leave();
            match shown {
                Ok(shown) => (window, answer_at(&shown, alloc, known, ask, draws)),
                Err(_) => (window, None),
            }
        }
    }
}

// The history of what is published, where no housekeeping is due there at the clock's answer; None where it is, or
// where the history is older than what is known.
fn kept_at<R: Realm>(shown: &Published, known: &Prefix<R>, moment: u64) -> Option<Prefix<R>>
    requires names { Names R.book R.facts R.passes R.loaded shown.now }
    ensures begins { IfSome result (λ p. IsPrefix known.now p × IsHistory R.facts R.passes R.loaded p) }
    ensures kept { IfSome result (λ p. housekeeping_of (entries_of p) moment ≡ None) }
{
    if shown.account().housekeeping(moment).is_some() {
        return None;
    }
    history_at(shown, known)
}

// Enters once, looks whether housekeeping is due, and leaves. It is None where it is, where the account was not
// entered, or where it is older than what is known.
fn look_for_house<R: Realm>(
    window: Window,
    known: &Prefix<R>,
    moment: u64,
) -> (Window, Option<Prefix<R>>)
    requires window { Knows R.book R.facts R.passes R.loaded (view window.place) }
    ensures window { Knows R.book R.facts R.passes R.loaded (view result.0.place) }
    ensures begins { IfSome result.1 (λ p. IsPrefix known.now p × IsHistory R.facts R.passes R.loaded p) }
    ensures kept { IfSome result.1 (λ p. housekeeping_of (entries_of p) moment ≡ None) }
{
    match window.enter_as::<Sees>() {
        Err(window) => (window, None),
        Ok(reading) => {
            let kept = kept_at(reading.get(), known, moment);
            (reading.leave(), kept)
        }
    }
}

// What is published, or None where that is older than what is known.
fn stand_at<R: Realm>(published: Published, known: &Prefix<R>) -> Option<Standing<R>>
    requires names { Names R.book R.facts R.passes R.loaded published }
    ensures names { IfSome result (λ s. Names R.book R.facts R.passes R.loaded s.published) }
    ensures begins { IfSome result (λ s. IsPrefix known.now s.prefix × IsHistory R.facts R.passes R.loaded s.prefix) }
    ensures pairs { IfSome result (λ s. s.published.whole.pairs ≡ s.prefix) }
{
    let prefix = history_at(&published, known)?;
    Some(Standing { published, prefix })
}

// Enters once, shares what is shown, and leaves. It is None where the account was not entered or could not be shared, or
// is older than what is known.
fn look_at_all<R: Realm>(window: Window, known: &Prefix<R>) -> (Window, Option<Standing<R>>)
    requires window { Knows R.book R.facts R.passes R.loaded (view window.place) }
    ensures window { Knows R.book R.facts R.passes R.loaded (view result.0.place) }
    ensures names { IfSome result.1 (λ s. Names R.book R.facts R.passes R.loaded s.published) }
    ensures begins { IfSome result.1 (λ s. IsPrefix known.now s.prefix × IsHistory R.facts R.passes R.loaded s.prefix) }
    ensures pairs { IfSome result.1 (λ s. s.published.whole.pairs ≡ s.prefix) }
{
    match window.enter_as::<Sees>() {
        Err(window) => (window, None),
        Ok(reading) => {
            let shown = reading.get().share();
            let window = reading.leave();
            match shown {
                Ok(shown) => (window, stand_at(shown, known)),
                Err(_) => (window, None),
            }
        }
    }
}

impl<R: Realm> Entrance<R> {
    /// An entrance that has missed nothing.
    pub fn new(window: Window) -> Entrance<R>
        requires { Knows R.book R.facts R.passes R.loaded (view window.place) }
        ensures { result ≡ 0 }
    {
        Entrance {
            window: Some(window),
            missed: 0,
            of: PhantomData,
        }
    }

    /// The count of missed entries.
    pub fn missed(&self) -> u64
        ensures { result ≡ self.now }
    {
        self.missed
    }

    /// Enters the published account once, answers at it and leaves. At `None` the count of missed entries
    /// rose, or stands at its last value: the account was not entered, or is shorter than the known history.
    pub fn enter(
        &mut self,
        alloc: Global,
        known: &Prefix<R>,
        ask: &Ask,
        draws: &mut DrawLine,
    ) -> Option<Found<R>>
        requires proper { IsProper R.facts ask.now }
        requires reads { changes_account ask.now.body ≡ false }
        requires line { IsLineOf R.facts draws.old }
        ensures begins { IfSome result (λ f. IsPrefix known.now f.prefix × IsHistory R.facts R.passes R.loaded f.prefix) }
        ensures entered { IfSome result (λ f. self.new ≡ self.old) }
        ensures found { IfSome result (λ f. Settles R.facts (entries_of f.prefix) ask.now draws.old f.answered draws.new) }
        ensures missed { IfNone result (Rose self.old self.new × (draws.new ≡ draws.old)) }
    {
        let window = self.window.take().unwrap();
        let (window, found) = look(window, alloc, known, ask, draws);
        self.window = Some(window);
        if found.is_none() {
            self.missed = self.missed.saturating_add(1);
        }
        found
    }

    /// Enters the published account once, shares it and leaves: its history begins with the known one. At `None` the
    /// count of missed entries rose, or stands at its last value: the account was not entered or could not be shared,
    /// or is shorter than the known history.
    pub fn stand(&mut self, known: &Prefix<R>) -> Option<Standing<R>>
        ensures names { IfSome result (λ s. Names R.book R.facts R.passes R.loaded s.published) }
        ensures begins { IfSome result (λ s. IsPrefix known.now s.prefix × IsHistory R.facts R.passes R.loaded s.prefix) }
        ensures pairs { IfSome result (λ s. s.published.whole.pairs ≡ s.prefix) }
        ensures entered { IfSome result (λ s. self.new ≡ self.old) }
        ensures missed { IfNone result (Rose self.old self.new) }
    {
        let window = self.window.take().unwrap();
        let (window, standing) = look_at_all(window, known);
        self.window = Some(window);
        if standing.is_none() {
            self.missed = self.missed.saturating_add(1);
        }
        standing
    }

    /// Enters the published account once, without a lock, and looks whether housekeeping is due there at the clock's
    /// answer. Where it isn't, this is the published history, which the known one begins. At `None` it may be due. It
    /// takes no memory, and no miss is counted.
    pub fn kept_house(&mut self, known: &Prefix<R>, moment: u64) -> Option<Prefix<R>>
        ensures begins { IfSome result (λ p. IsPrefix known.now p × IsHistory R.facts R.passes R.loaded p) }
        ensures kept { IfSome result (λ p. housekeeping_of (entries_of p) moment ≡ None) }
        ensures same { self.new ≡ self.old }
    {
        let window = self.window.take().unwrap();
        let (window, kept) = look_for_house(window, known, moment);
        self.window = Some(window);
        kept
    }
}
