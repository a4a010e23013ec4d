// Beginnings of the one history, which threads copy and compare. They take no memory.
ghost use Rattle.std.specs.Prelude.{◌≡◌, ◌+◌, ◌<◌, ◌≤◌, ◌^◌, ◌++◌, ◌∷◌, [], length, MatchBool, IsTrue, IfOk, None};
ghost use mathlib.Core.List.{IsPrefix};
ghost use Rattle.account_core.specs.Decide.{IsNext};
ghost use Rattle.published_account.specs.Pairs.{IsHistory, entries_of, loaded_pairs};
ghost use Rattle.published_account.specs.Growing.{head_of, IsLongerOf};

use crate::realm::Realm;
use account_core::Account;
use account_rows::Entry;
use kms_names::NoMemory;
use logbook::{Gain, Offer, Plain, Play, Rule, Seen, Start, Word};
use std::marker::{Model, PhantomData};

/// The rule of the history: a word has its length.
pub struct Law;

impl Rule<(Entry, u16), u64> for Law {
    ghost use Rattle.std.specs.Prelude.{[]};
    ghost use base.Fml.{ftrue};
    ghost use Rattle.published_account.specs.Growing.{IsKept};

    ghost holds = { λ cells log. IsKept cells log };

    ghost first = { [] };

    ghost hinted = { λ n log. Unit {0} };

    ghost shows = { λ log. [] };

    ghost keeps = { λ names log. ftrue };

    ghost moves = { λ ask before after answer. Unit {0} };
}

/// Callers trade nothing.
pub struct Nothing;

impl Gain<(Entry, u16), u64> for Nothing {
    ghost use base.Fml.{ftrue};

    ghost after = { λ names about answer. ftrue };
}

/// A step that adds a pair.
pub struct Add;

impl Play<(Entry, u16), u64> for Add {
    ghost use Rattle.published_account.specs.Growing.{Adds};

    ghost then = { Adds };
}

/// What the step asks for: the pair.
impl Plain<(Entry, u16), (Entry, u16), u64> for Add {
    ghost use Rattle.std.specs.Prelude.{None};

    ghost ask = { λ pair. pair };

    ghost state = { λ pair. None };
}

/// An entry that was loaded, which no pass made.
#[derive(Clone, Copy)]
pub struct Loaded<'a> {
    entry: &'a Entry,
}

/// What the step asks for: the pair of a loaded entry, whose maker is 0.
impl<'a> Plain<Loaded<'a>, (Entry, u16), u64> for Add {
    ghost use Rattle.std.specs.Prelude.{None};

    ghost ask = { λ loaded. (loaded.entry.now, 0) };

    ghost state = { λ loaded. None };
}

/// What was seen of the history.
pub type Glimpse = Seen<(Entry, u16), u64, Law>;

/// A history of loaded entries, which no realm names yet.
#[derive(Drop)]
pub struct Unnamed {
    head: Word<(Entry, u16), u64, Law>,
    /// What was seen of it: all.
    pub seen: Glimpse,
    pub ghost head_is: { head ≡ head_of seen.book },
}

impl Unnamed {
    /// The history of an account's entries, in order. It takes no memory; `NoMemory` comes where they are more than a history can have.
    pub fn of(account: &Account) -> Result<Unnamed, NoMemory>
        ensures { IfOk result (λ u. u.seen.log ≡ loaded_pairs account.now.entries) }
    {
        let (mut seen, mut first, _second) = Seen::open(Start::alone(), 0, 0);
        let head = Word::tracked(0, &mut first);
        let count = account.entries();
        if count >= 1 << 62 {
            return Err(NoMemory);
        }
        for place in 0..count {
            let loaded = Loaded {
                entry: account.entry(place).unwrap(),
            };
            let offer = seen.plain::<Nothing, Loaded<'_>, Add>(&loaded);
            if !exchange(&head, &mut seen, offer, place) {
                return Err(NoMemory);
            }
        }
        Ok(Unnamed { head, seen })
    }

    /// The word that grows with the history of a realm.
    pub fn named<R: Realm>(self) -> Tip<R>
        requires { self.seen.book ≡ R.book }
    {
        let Unnamed { head, seen: _ } = self;
        Tip {
            head,
            of: PhantomData,
        }
    }
}

/// The word that grows with the history.
#[derive(Drop)]
pub struct Tip<R: Realm> {
    head: Word<(Entry, u16), u64, Law>,
    of: PhantomData<R>,
    ghost head_is: { head ≡ head_of R.book },
}

/// A beginning of the history. Contracts see it as its pairs.
#[derive(Drop)]
pub struct Prefix<R: Realm> {
    count: u64,
    seen: Seen<(Entry, u16), u64, Law>,
    of: PhantomData<R>,
}

impl<R: Realm> Model for Prefix<R> {
    ghost use Rattle.std.specs.Prelude.{◌≡◌, ℕ, List, length};
    ghost use Rattle.account_steps.specs.History.{Entry};
    ghost use Rattle.published_account.specs.Pairs.{IsHistory};

    ghost Value = { List (Entry × ℕ) };

    ghost view = { λ f. f.seen.log };

    ghost invariant = { λ f. (f.count ≡ length f.seen.log) × (f.seen.book ≡ R.book) × IsHistory R.facts R.passes R.loaded f.seen.log };
}

impl<R: Realm> Prefix<R> {
    // What was seen, of which the length is known.
    pub(crate) fn of(glimpse: &Glimpse, count: u64) -> Prefix<R>
        requires { (glimpse.now.book ≡ R.book) × (count ≡ length glimpse.now.log) × IsHistory R.facts R.passes R.loaded glimpse.now.log }
        ensures { result ≡ glimpse.now.log }
    {
        Prefix {
            count,
            seen: glimpse.again(),
            of: PhantomData,
        }
    }

    /// What was seen, once more.
    pub fn glimpse(&self) -> Glimpse
        ensures seen { (result.book ≡ R.book) × (result.log ≡ self.now) }
        ensures history { IsHistory R.facts R.passes R.loaded self.now }
    {
        self.seen.again()
    }

    /// The number of its pairs.
    pub fn len(&self) -> u64
        ensures count { result ≡ length self.now }
        ensures history { IsHistory R.facts R.passes R.loaded self.now }
    {
        self.count
    }

    /// The same beginning, held once more.
    pub fn again(&self) -> Prefix<R>
        ensures { result ≡ self.now }
    {
        Prefix {
            count: self.count,
            seen: self.seen.again(),
            of: PhantomData,
        }
    }

    /// Becomes the longer of both, which the other begins.
    pub fn learn(&mut self, other: &Prefix<R>)
        ensures longer { IsLongerOf self.old other.now self.new }
        ensures history { IsHistory R.facts R.passes R.loaded self.new }
    {
        let mut both = self.seen.again();
        both.learn(&other.seen);
        if self.count < other.count {
            *self = other.again();
        }
    }

    /// What this and an other that is no shorter come to.
    pub fn joined(&self, other: &Prefix<R>) -> Prefix<R>
        requires { length self.now ≤ length other.now }
        ensures begins { IsPrefix self.now result }
        ensures same { result ≡ other.now }
        ensures history { IsHistory R.facts R.passes R.loaded result }
    {
        let mut both = self.again();
        both.learn(other);
        both
    }

    /// Adds a pair to the whole history, and says whether it did. It did not where the history is longer.
    pub fn push(&mut self, head: &Tip<R>, pair: &(Entry, u16)) -> bool
        requires room { length self.old < 2 ^ 62 }
        requires next { IsNext R.facts (entries_of self.old) pair.now.0 × (0 < pair.now.1) × (pair.now.1 ≤ R.passes) }
        ensures { MatchBool result (self.new ≡ self.old ++ pair.now ∷ []) (self.new ≡ self.old) }
    {
        let mut seen = self.seen.again();
        if !append(head, &mut seen, pair, self.count) {
            return false;
        }
        self.seen = seen;
        self.count += 1;
        true
    }
}

fn append<R: Realm>(head: &Tip<R>, seen: &mut Glimpse, pair: &(Entry, u16), count: u64) -> bool
    requires { (seen.old.book ≡ R.book) × (count ≡ length seen.old.log) × (count < 2 ^ 62) }
    ensures book { seen.new.book ≡ seen.old.book }
    ensures log { IsTrue result → seen.new.log ≡ seen.old.log ++ pair.now ∷ [] }
{
    let offer = seen.plain::<Nothing, (Entry, u16), Add>(pair);
    exchange(&head.head, seen, offer, count)
}

// Adds the pair that is offered to the whole history, and says whether it did. It did not where the history is longer.
fn exchange(
    head: &Word<(Entry, u16), u64, Law>,
    seen: &mut Glimpse,
    offer: Offer<(Entry, u16), u64, Law, Nothing>,
    count: u64,
) -> bool
    requires head { head.now ≡ head_of seen.old.book }
    requires offer { (offer.names ≡ seen.old.names) × (offer.state ≡ None) }
    requires count { (count ≡ length seen.old.log) × (count < 2 ^ 62) }
    ensures book { seen.new.book ≡ seen.old.book }
    ensures log { IsTrue result → seen.new.log ≡ seen.old.log ++ offer.ask ∷ [] }
{
    let mut offer = offer;
    let mut pen = seen.no_pen();
    let found = head.compare_exchange::<Add, Nothing>(count, count + 1, seen, &mut offer, &mut pen);
    found == count
}
