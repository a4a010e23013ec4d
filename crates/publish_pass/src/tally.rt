// What passes made together.
ghost use Rattle.std.specs.Prelude.{◌≡◌, ◌+◌, length};

use crate::pass::Pass;
use published_account::Realm;
use std::marker::Model;
use std::sync::ledger::Share;

/// How many entries some passes made that are done. It takes no memory. Contracts see how many passes these are, and
/// how many entries they made together.
#[derive(Drop)]
pub struct Tally<R: Realm> {
    pub(crate) share: Share<R>,
}

impl<R: Realm> Model for Tally<R> {
    ghost use Rattle.std.specs.Prelude.{ℕ};
    ghost use Rattle.publish_pass.specs.Pass as passes;

    ghost Value = { passes.Tally };

    ghost view = { λ t. record { passes = t.share.parts; made = t.share.amount } };
}

impl<R: Realm> Tally<R> {
    ghost use Rattle.std.specs.Prelude.{◌≡◌, ◌+◌, length};

    /// What one pass made, which is done.
    pub fn of(pass: Pass<R>) -> Tally<R>
        ensures { result ≡ record { passes = 1; made = length pass.own } }
    {
        Tally {
            share: pass.retire(),
        }
    }

    /// Adds what one more pass made, which is done.
    pub fn add(&mut self, pass: Pass<R>)
        ensures { self.new ≡ record { passes = self.old.passes + 1; made = self.old.made + length pass.own } }
    {
        self.share.merge(pass.retire());
    }
}
