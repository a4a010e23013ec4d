// What is published.
ghost use Rattle.std.specs.Prelude.{◌≡◌, ◌++◌, ◌∷◌, [], IfOk};
ghost use Rattle.std.specs.Arc.{arc_value};
ghost use Rattle.account_core.specs.Decide.{IsNext};
ghost use Rattle.published_account.specs.Pairs.{IsHistory, entries_of, loaded_pairs, whole_of};
ghost use Rattle.published_account.specs.Rules.{Names};

use crate::prefix::{Glimpse, Prefix, Unnamed};
use crate::realm::Realm;
use account_core::Account;
use account_rows::Entry;
use kms_names::NoMemory;
use left_right::Absorb;
use std::alloc::{AllocError, Global};
use std::marker::Model;
use std::sync::Arc;

/// What readers take: the account behind one `Arc`, beside what was seen of its history. Contracts see the
/// history's book, the facts, the number of passes, how many entries were loaded, and each entry with its
/// maker, which no other place has.
#[derive(Drop)]
pub struct Published {
    account: Arc<Account>,
    passes: u16,
    loaded: u64,
    glimpse: Glimpse,
}

impl Model for Published {
    ghost use Rattle.std.specs.Prelude.{◌≡◌};
    ghost use Rattle.std.specs.Arc.{arc_value};
    ghost use Rattle.published_account.specs.Pairs.{Shown, IsHistory, entries_of};

    ghost Value = { Shown };

    ghost view = { λ p. record { book = p.glimpse.book; whole = record { facts = (arc_value p.account).facts; passes = p.passes; loaded = p.loaded; pairs = p.glimpse.log } } };

    ghost invariant = { λ p. record {
      entries : (arc_value p.account).entries ≡ entries_of p.glimpse.log;
      history : IsHistory (arc_value p.account).facts p.passes p.loaded p.glimpse.log;
    } };
}

fn behind_arc(alloc: Global, account: Account) -> Result<Arc<Account>, NoMemory>
    ensures { IfOk result (λ a. arc_value a ≡ account) }
{
    match Arc::new(alloc, account) {
        Ok(shared) => Ok(shared),
        Err(_) => Err(NoMemory),
    }
}

impl Published {
    /// An account whose entries were loaded, at the beginning of a history that no realm names yet.
    pub fn first(
        alloc: Global,
        account: Account,
        passes: u16,
        unnamed: &Unnamed,
    ) -> Result<Published, NoMemory>
        requires { unnamed.now.seen.log ≡ loaded_pairs account.entries }
        ensures { IfOk result (λ p. p ≡ record { book = unnamed.now.seen.book; whole = whole_of account passes }) }
    {
        let loaded = account.entries();
        Ok(Published {
            account: behind_arc(alloc, account)?,
            passes,
            loaded,
            glimpse: unnamed.seen.again(),
        })
    }

    /// The account with one more entry; this one stays.
    pub fn next_account(&self, alloc: Global, entry: &Entry) -> Result<Arc<Account>, NoMemory>
        requires { IsNext self.now.whole.facts (entries_of self.now.whole.pairs) entry.now }
        ensures { IfOk result (λ a. arc_value a ≡ record { facts = self.now.whole.facts; entries = entries_of self.now.whole.pairs ++ entry.now ∷ [] }) }
    {
        let next = self.account().apply(entry)?;
        behind_arc(alloc, next)
    }

    /// What is published where this was: the account of a history of the same realm.
    pub fn next<R: Realm>(&self, account: Arc<Account>, history: &Prefix<R>) -> Published
        requires names { Names R.book R.facts R.passes R.loaded self.now }
        requires account { arc_value account ≡ record { facts = R.facts; entries = entries_of history.now } }
        ensures { result ≡ record { book = R.book; whole = record { facts = R.facts; passes = R.passes; loaded = R.loaded; pairs = history.now } } }
    {
        Published {
            account,
            passes: self.passes,
            loaded: self.loaded,
            glimpse: history.glimpse(),
        }
    }

    /// The history that it stands on.
    pub fn history<R: Realm>(&self) -> Prefix<R>
        requires { Names R.book R.facts R.passes R.loaded self.now }
        ensures same { result ≡ self.now.whole.pairs }
        ensures history { IsHistory R.facts R.passes R.loaded self.now.whole.pairs }
    {
        Prefix::of(&self.glimpse, self.account.entries())
    }

    /// The account.
    pub fn account(&self) -> &Account
        ensures { result.now ≡ record { facts = self.now.whole.facts; entries = entries_of self.now.whole.pairs } }
    {
        &*self.account
    }

    /// The same value, held once more.
    pub fn share(&self) -> Result<Published, AllocError>
        ensures { IfOk result (λ p. p ≡ self.now) }
    {
        Ok(Published {
            account: Arc::try_clone(&self.account)?,
            passes: self.passes,
            loaded: self.loaded,
            glimpse: self.glimpse.again(),
        })
    }
}

/// An operation is the next published value, which takes the place of this one.
impl Absorb<Published> for Published {
    type State = Published;

    ghost state = { λ p. p };

    ghost applied = { λ s o. o };

    fn absorb_first(
        &mut self,
        operation: &Published,
        _other: &Published,
    ) -> Result<(), AllocError> {
        *self = operation.share()?;
        Ok(())
    }
}
