// What keeps a history beyond the process.
ghost use Rattle.std.specs.Prelude.{◌≡◌, ◌++◌, ◌∷◌, [], ℕ, List, Bool, true, false, IsTrue, OnOk, OnErr, Err};
ghost use Rattle.account_rows.specs.declared.entries.Entry.{Entry};
ghost use Rattle.account_steps.specs.declared.facts.RealmFacts.{RealmFacts};
ghost use Rattle.keepers.specs.Keeping.{LeavesAlso, IsWithOrWithout};
ghost use Rattle.keepers.specs.declared.keeps.Unmade.TheVariants.{NoMemory as Lacking, Unkept};

use account_rows::Entry;
use kms_names::NoMemory;
use std::alloc::{AllocError, Global};

/// Why an entry isn't made.
#[derive(Clone, Copy, Debug, PartialEq, Eq)]
pub enum Unmade {
    /// A growth of memory was refused. Nothing of the entry is kept.
    NoMemory,
    /// It couldn't be kept, and nothing more is. Whether this entry is kept shows when what was kept is read again.
    Unkept,
}

impl From<NoMemory> for Unmade {
    ghost from_gives = { λ _ e. e ≡ Lacking };

    fn from(_: NoMemory) -> Self {
        Unmade::NoMemory
    }
}

impl From<AllocError> for Unmade {
    ghost from_gives = { λ _ e. e ≡ Lacking };

    fn from(_: AllocError) -> Self {
        Unmade::NoMemory
    }
}

/// Keeps the entries of an account's history in a file beyond the process, or keeps nothing. What contracts say of it holds where
/// `keeps` is true.
pub trait Keeps: Drop {
    /// Whether it keeps anything.
    ghost keeps: { Bool };

    /// It was told these entries, in order, of an account of these facts, while it was open.
    ghost tells: { RealmFacts → Self → List Entry → Type 0 };

    /// Whether it keeps what it is told.
    ghost is_open: { Self → Bool };

    /// The moment, as a number that doesn't fall.
    ghost moment: { Self → ℕ };

    /// The files that a crash at some moment from that one on may leave.
    ghost left_since: { Self → ℕ → List ℕ → Type 0 };

    /// The bytes of a file are read as these entries of an account of these facts.
    ghost reads: { RealmFacts → List ℕ → List Entry → Type 0 };

    /// Keeps one more entry: at `Ok` a crash leaves it. For want of memory nothing was done.
    fn keep(&mut self, alloc: Global, entry: &Entry) -> Result<(), Unmade>
        ensures opened { OnOk result ((is_open self.old ≡ true) × (is_open self.new ≡ true)) }
        ensures kept { IsTrue keeps → OnOk result ((facts : RealmFacts) (history : List Entry) → tells facts self.old history → tells facts self.new (history ++ entry.now ∷ [])) }
        ensures durable { IsTrue keeps → OnOk result ((facts : RealmFacts) (history : List Entry) → tells facts self.new history → (file : List ℕ) → left_since self.new (moment self.new) file → reads facts file history) }
        ensures any_moment { IsTrue keeps → is_open self.old ≡ true → (facts : RealmFacts) (history : List Entry) → tells facts self.old history
            → LeavesAlso moment left_since self.old self.new (IsWithOrWithout (reads facts) history entry.now) }
        ensures lacking { result ≡ Err Lacking → self.new ≡ self.old }
        ensures unkept { result ≡ Err Unkept → IsTrue keeps × (is_open self.new ≡ false) }
        ensures shut { is_open self.old ≡ false → (result ≡ Err Unkept) × (self.new ≡ self.old) };

    /// Keeps nothing more, since the entry that it was told last isn't made after all, and says why that isn't.
    fn shut(&mut self) -> Unmade
        ensures unkept { result ≡ Unkept → IsTrue keeps × (is_open self.new ≡ false) }
        ensures shut { IsTrue keeps → is_open self.new ≡ false }
        ensures moment { IsTrue keeps → moment self.new ≡ moment self.old }
        ensures left { IsTrue keeps → (t : ℕ) (file : List ℕ) → left_since self.new t file → left_since self.old t file };
}

/// Keeps nothing, and so an entry is never made for want of that.
#[derive(Clone, Copy, Debug, PartialEq, Eq, Drop)]
pub struct Nothing;

impl Keeps for Nothing {
    ghost use Rattle.std.specs.Prelude.{true, false};

    ghost keeps = { false };

    ghost tells = { λ facts keeper history. ⊥ };

    ghost is_open = { λ keeper. true };

    ghost moment = { λ keeper. 0 };

    ghost left_since = { λ keeper t file. ⊥ };

    ghost reads = { λ facts file history. ⊥ };

    fn keep(&mut self, _alloc: Global, _entry: &Entry) -> Result<(), Unmade> {
        Ok(())
    }

    fn shut(&mut self) -> Unmade {
        Unmade::NoMemory
    }
}
