// Which service it is.
use std::marker::Brand;
use std::sync::ledger::Ledger;

/// What the values of one opening have in common: the name and the parts of the ledger, the book in which
/// the history stands, the facts of the account, the number of passes, how many entries were loaded, and the moment since which
/// what keeps the history has kept it. It has no call, and contracts alone see its members.
pub trait Realm: Ledger {
    ghost use Rattle.std.specs.Prelude.{ℕ};
    ghost use Rattle.logbook.specs.Pages.{Book};
    ghost use Rattle.account_steps.specs.declared.facts.RealmFacts.{RealmFacts};

    ghost book: { Book };

    ghost facts: { RealmFacts };

    ghost passes: { ℕ };

    ghost loaded: { ℕ };

    ghost started: { ℕ };
}

impl Realm for Brand {
    ghost use Rattle.std.specs.Prelude.{[]};

    ghost book = { record { number = 0; log_name = 0; cells_name = 0 } };

    ghost facts = { record { account = []; region = []; root = []; boot = 0; identities = []; ceiling = [] } };

    ghost passes = { 0 };

    ghost loaded = { 0 };

    ghost started = { 0 };
}
