// Where histories are kept, by name.
ghost use Rattle.std.specs.Prelude.{◌≡◌, ℕ, List, Option, Some, Err, IfOk, IsTrue};
ghost use Rattle.account_steps.specs.declared.facts.RealmFacts.{RealmFacts};
ghost use Rattle.keepers.specs.Stores.{Opens, IsOfNamed, IsFaultyNamed};
ghost use Rattle.keepers.specs.declared.stores.Unopened.TheVariants.{At};

use crate::keeps::Keeps;
use account_core::Account;
use account_steps::RealmFacts;
use std::alloc::Global;

/// Why a file isn't opened.
#[derive(Clone, Copy, Debug, PartialEq, Eq)]
pub enum Unopened {
    /// Its first fault is at this line, counted from 1.
    At(u64),
    /// There is no boot number above those of the starts before, or it would be 2^32 or more.
    OldBoot,
    /// It is too long.
    TooLong,
    /// It can't be opened, read or written, or another process has it.
    Failed,
    /// A growth of memory was refused.
    NoMemory,
}

/// Files of histories, by name.
pub trait Store {
    /// What keeps a history in a file.
    type Keeper: Keeps + Send;

    /// The bytes of the file of a name, where they are told.
    ghost files: { Self → List ℕ → Option (List ℕ) };

    /// The bytes of a file in which nothing was kept yet.
    ghost is_new: { List ℕ → Type 0 };

    /// The bytes of a file whose first fault, of the journal of an account of these facts, is at this line.
    ghost is_faulty: { RealmFacts → List ℕ → ℕ → Type 0 };

    /// What keeps the history that was given back last.
    ghost back: { Self → Option Self.Keeper };

    /// Opens the file of a name for an account of these facts, or makes it: the account has the entries that were kept there. Its boot
    /// number is that of the facts or a higher one, above each under which the file was opened before; that it is used is kept before
    /// the answer.
    fn open(
        &mut self,
        alloc: Global,
        name: &str,
        facts: RealmFacts,
    ) -> Result<(Account, Self::Keeper), Unopened>
        ensures opened { IfOk result (λ opened. Opens Self.Keeper.tells Self.Keeper.is_open Self.Keeper.moment Self.Keeper.left_since Self.Keeper.reads facts opened.0 opened.1) }
        ensures read { IfOk result (λ opened. IsOfNamed (files self.old) Self.Keeper.reads is_new name.now opened.0) }
        ensures refused { (line : ℕ) → result ≡ Err (At line) → IsFaultyNamed (files self.old) is_faulty facts name.now line }
        ensures back { back self.new ≡ back self.old };

    /// Takes back what keeps a history.
    fn close(&mut self, keeper: Self::Keeper)
        ensures { back self.new ≡ Some keeper };

    /// What keeps a history here keeps what it is told.
    ghost does_keep: { IsTrue Self.Keeper.keeps };
}
