// What a pass tells.
ghost use Rattle.std.specs.Prelude.{◌≡◌, length};
ghost use Rattle.published_account.specs.Growing.{IsLongerOf};
ghost use Rattle.published_account.specs.Pairs.{IsHistory};
ghost use Rattle.publish_pass.specs.Pass.{Agree};

use published_account::{Prefix, Realm};
use std::marker::Model;

/// What a pass tells others: the history that it has seen. It takes no memory. Contracts see that history,
/// each entry with the number of the pass that made it.
#[derive(Drop)]
pub struct Told<R: Realm> {
    prefix: Prefix<R>,
}

impl<R: Realm> Model for Told<R> {
    ghost use Rattle.std.specs.Prelude.{ℕ, List};
    ghost use Rattle.account_steps.specs.History.{Entry};

    ghost Value = { List (Entry × ℕ) };

    ghost view = { λ t. t.prefix };
}

impl<R: Realm> Told<R> {
    pub(crate) fn new(prefix: Prefix<R>) -> Told<R>
        ensures { result ≡ prefix }
    {
        Told { prefix }
    }

    pub(crate) fn prefix(&self) -> &Prefix<R>
        ensures { result.now ≡ self.now }
    {
        &self.prefix
    }

    // Becomes the longer of both, which the other begins.
    pub(crate) fn add(&mut self, other: &Told<R>)
        ensures { IsLongerOf self.old other.now self.new }
    {
        self.prefix.learn(&other.prefix);
    }

    /// Of two histories that passes of one service told, at whatever moments, one begins with all of the other: there is one
    /// history. Nothing is done, and no memory taken.
    pub fn agrees(&self, other: &Told<R>)
        ensures { Agree self.now other.now }
    {
        let mut longer = self.prefix.again();
        longer.learn(&other.prefix);
    }

    /// The number of entries that are told. Each of them is one that may come next after those before it.
    pub fn front(&self) -> u64
        ensures count { result ≡ length self.now }
        ensures history { IsHistory R.facts R.passes R.loaded self.now }
    {
        self.prefix.len()
    }
}
