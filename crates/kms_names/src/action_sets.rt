//! Sets of actions, and the globs of actions.

ghost use Rattle.std.specs.Prelude.{◌≡◌, ◌≢◌, ◌↔◌, ◌<◌, ℕ, not, ◌||◌, true, false, Any, IfOk, IsTrue};
ghost use Rattle.kms_names.specs.ActionSet.{IsActionLike, has_action, with_action};
ghost use Rattle.kms_names.specs.declared.actions.Action.{Action as ActionValue};

use crate::actions::Action;
use crate::counter::Steps;
use crate::faults::NoMemory;
use crate::globs::glob_nocase;
use crate::texts::{Text, TextList};
use std::marker::{Brand, Model};
use std::sync::ledger::{Blank, Ledger};

/// An action and a glob.
#[derive(Clone, Copy)]
struct Question<'a> {
    action: Action,
    pattern: &'a str,
}

fn is_like_from<L: Ledger>(question: &Question, blank: Blank) -> bool
    requires name { blank.name ≡ L.name }
    requires parts { blank.parts ≡ L.parts }
    requires some { 0 < blank.parts }
    ensures { IsTrue result ↔ IsActionLike question.now.pattern.now question.now.action }
{
    let (book, share) = blank.open::<L>();
    glob_nocase(
        question.pattern,
        question.action.text(),
        &mut Steps::new(book, share),
    )
}

impl Action {
    /// Whether a glob of a policy matches the action: it is matched with `kms:` and the name, without ASCII case
    /// (IAM User Guide, "IAM JSON policy elements: Action"). No memory is taken.
    pub fn is_like(self, pattern: &str) -> bool
        ensures { IsTrue result ↔ IsActionLike pattern.now self }
    {
        let question = Question {
            action: self,
            pattern,
        };
        is_like_from::<Brand>(&question, Blank::new(1))
    }

    /// Whether some of these globs matches the action.
    fn is_like_some(self, patterns: &[Text]) -> bool
        ensures { IsTrue result ↔ Any (λ pattern. IsActionLike pattern self) patterns.now }
    {
        patterns
            .iter()
            .any(|pattern| self.is_like(pattern.as_str()))
    }
}

/// A set of actions, in 8 bytes. Contracts see it as a number whose bit at the number of an action is set where the
/// action is in the set.
#[derive(Clone, Copy)]
pub struct ActionSet {
    bits: u64,
}

impl Model for ActionSet {
    ghost Value = { ℕ };

    ghost view = { λ s. s.bits };

    ghost inverse = { λ n. record { bits = n } };
}

impl ActionSet {
    /// The empty set.
    pub fn new() -> ActionSet
        ensures zero { result ≡ 0 }
        ensures empty { (action : ActionValue) → has_action result action ≡ false }
    {
        ActionSet { bits: 0 }
    }

    /// A copy that equals its source; no memory is taken.
    pub fn copy(&self) -> Result<ActionSet, NoMemory>
        ensures { IfOk result (λ s. s ≡ self.now) }
    {
        Ok(*self)
    }

    /// Whether an action is in the set.
    pub fn contains(self, action: Action) -> bool
        ensures { result ≡ has_action self action }
    {
        (self.bits >> action.number()) & 1 == 1
    }

    /// Adds an action.
    pub fn insert(&mut self, action: Action)
        ensures sum { self.new ≡ with_action action self.old }
        ensures added { has_action self.new action ≡ true }
        ensures others { (other : ActionValue) → other ≢ action → has_action self.new other ≡ has_action self.old other }
    {
        self.bits |= 1 << action.number();
    }

    /// The actions that are not in the set.
    pub fn complement(self) -> ActionSet
        ensures { (action : ActionValue) → has_action result action ≡ not (has_action self action) }
    {
        ActionSet { bits: !self.bits }
    }

    /// The actions that are in one of two sets.
    pub fn union(self, other: ActionSet) -> ActionSet
        ensures { (action : ActionValue) → has_action result action ≡ has_action self action || has_action other action }
    {
        ActionSet {
            bits: self.bits | other.bits,
        }
    }

    /// The actions that some of these globs matches. No memory is taken.
    pub fn like(patterns: &TextList) -> ActionSet
        ensures { (action : ActionValue) → IsTrue (has_action result action) ↔ Any (λ pattern. IsActionLike pattern action) patterns.now }
    {
        let mut set = ActionSet::new();
        for action in Action::ALL {
            if action.is_like_some(patterns.as_slice()) {
                set.insert(action);
            }
        }
        set
    }
}
