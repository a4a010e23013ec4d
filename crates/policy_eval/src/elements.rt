//! The elements of a statement.

ghost use Rattle.std.specs.Prelude.{◌≡◌, ◌↔◌, ◌<◌, IsTrue, Any};
ghost use Rattle.kms_names.specs.ActionSet.{has_action};
ghost use Rattle.kms_names.specs.declared.actions.Action.{Action as ActionValue};
ghost use Rattle.glob_patterns.specs.Letters.{AreLettersOf};
ghost use Rattle.cond_ops.specs.Relation.{IsLike};
ghost use Rattle.policy_eval.specs.Matching.{ActionMatches};

use glob_patterns::{Letters, matches_read};
use kms_names::{ActionSet, Steps};
use packed_texts::TextSlice;
use policy_doc::Statement;
use std::alloc::Global;
use std::marker::Brand;
use std::sync::ledger::{Blank, Ledger};

/// The actions that a statement's Action or NotAction matches.
pub fn matched_actions(statement: &Statement) -> ActionSet
    ensures { (action : ActionValue) → IsTrue (has_action result action) ↔ ActionMatches statement.now action }
{
    if statement.not_actions.as_slice().is_empty() {
        ActionSet::like(&statement.actions)
    } else {
        ActionSet::like(&statement.not_actions).complement()
    }
}

// Whether some of these patterns matches a resource whose characters were read.
fn some_matches_read<L: Ledger>(
    patterns: TextSlice<'_>,
    resource: &str,
    read: &Letters,
    steps: &mut Steps<L>,
) -> bool
    requires { AreLettersOf resource.now read.now }
    ensures { IsTrue result ↔ Any (IsLike resource.now) patterns.entry }
{
    let mut left = patterns;
    while let Some((pattern, others)) = left.split_first() {
        if matches_read(pattern, resource, read, steps) {
            return true;
        }
        left = others;
    }
    false
}

// A resource whose characters were read.
#[derive(Clone, Copy)]
struct ReadResource<'a> {
    text: &'a str,
    letters: &'a Letters,
}

// Whether some of these patterns matches a resource. The steps are counted from 0.
fn some_matches_from<L: Ledger>(
    patterns: TextSlice<'_>,
    resource: &ReadResource<'_>,
    blank: Blank,
) -> bool
    requires name { blank.name ≡ L.name }
    requires parts { blank.parts ≡ L.parts }
    requires some { 0 < blank.parts }
    requires letters { AreLettersOf resource.now.text.now resource.now.letters.now }
    ensures { IsTrue result ↔ Any (IsLike resource.now.text.now) patterns.entry }
{
    let (book, share) = blank.open::<L>();
    let mut steps = Steps::new(book, share);
    some_matches_read(patterns, resource.text, resource.letters, &mut steps)
}

/// Whether some of these patterns matches a resource. The characters of the resource are read once for all of them.
pub fn some_matches(patterns: TextSlice<'_>, alloc: Global, resource: &str) -> bool
    ensures { IsTrue result ↔ Any (IsLike resource.now) patterns.entry }
{
    let letters = Letters::of(alloc, resource);
    let read = ReadResource {
        text: resource,
        letters: &letters,
    };
    some_matches_from::<Brand>(patterns, &read, Blank::new(1))
}
