// The writer of the two copies.
ghost use Rattle.std.specs.Prelude.{◌≡◌, ◌++◌, ◌∷◌, [], drop, fold, Some, IsTrue, IsFalse, IsOk, MatchBool};
ghost use Rattle.left_right.specs.Sides.{view};
ghost use Rattle.published_account.specs.Rules.{GoesOn};

use crate::published::Published;
use crate::rule::{Copies, Sees};
use core::mem::replace_with;
use kms_names::NoMemory;
use std::sync::Wait;

// It waits for memory.
fn append_last<W: Wait>(rt: &W, writer: &mut Copies, next: Published)
    ensures shown { writer.new.desk.shown.value ≡ writer.old.desk.shown.value }
    ensures pending { drop writer.new.behind writer.new.log.items ≡ drop writer.old.behind writer.old.log.items ++ next ∷ [] }
{
    let mut next = next;
    for _ in rt.forever() {
        match writer.append(next) {
            Ok(()) => return,
            Err(back) => next = back,
        }
    }
    unreachable!()
}

fn publish_once<W: Wait>(rt: &W, writer: &mut Copies) -> bool
    requires { GoesOn writer.old.desk.shown.value (fold (λ s o. o) writer.old.desk.shown.value (drop writer.old.behind writer.old.log.items)) }
    ensures { MatchBool result (writer.new.desk.shown.value ≡ fold (λ s o. o) writer.old.desk.shown.value (drop writer.old.behind writer.old.log.items)) ((writer.new.desk.shown.value ≡ writer.old.desk.shown.value) × (drop writer.new.behind writer.new.log.items ≡ drop writer.old.behind writer.old.log.items)) }
{
    replace_with(
        writer,
        rt,
        |writer, rt| -> (Copies, bool)
            requires { GoesOn writer.desk.shown.value (fold (λ s o. o) writer.desk.shown.value (drop writer.behind writer.log.items)) }
            ensures { MatchBool result.1 (result.0.desk.shown.value ≡ fold (λ s o. o) writer.desk.shown.value (drop writer.behind writer.log.items)) ((result.0.desk.shown.value ≡ writer.desk.shown.value) × (drop result.0.behind result.0.log.items ≡ drop writer.behind writer.log.items)) }
        {
            let (writer, published) = writer.publish_as::<Sees, W>(rt);
            (writer, published.is_ok())
        },
    )
}

/// Shows readers the next value. It waits for those that still read the other copy, and for memory.
#[tactic(auto, using(crate::proofs::Lists::fold_last))]
pub fn show<W: Wait>(rt: &W, writer: &mut Copies, next: Published)
    requires { GoesOn writer.old.desk.shown.value next }
    ensures { writer.new.desk.shown.value ≡ next }
{
    append_last(rt, writer, next);
    for _ in rt.forever() {
        if publish_once(rt, writer) {
            return;
        }
    }
    unreachable!()
}

fn greet_once<W: Wait>(rt: &W, writer: &mut Copies) -> bool
    requires { fold (λ s o. o) writer.old.desk.shown.value (drop writer.old.behind writer.old.log.items) ≡ writer.old.desk.shown.value }
    ensures shown { writer.new.desk.shown.value ≡ writer.old.desk.shown.value }
    ensures pending { IsFalse result → drop writer.new.behind writer.new.log.items ≡ drop writer.old.behind writer.old.log.items }
    ensures seen { IsTrue result → view writer.new.desk.place ≡ Some writer.old.desk.shown.value }
{
    replace_with(
        writer,
        rt,
        |writer, rt| -> (Copies, bool)
            requires { fold (λ s o. o) writer.desk.shown.value (drop writer.behind writer.log.items) ≡ writer.desk.shown.value }
            ensures { (result.0.desk.shown.value ≡ writer.desk.shown.value) × (IsFalse result.1 → drop result.0.behind result.0.log.items ≡ drop writer.behind writer.log.items) × (IsTrue result.1 → view result.0.desk.place ≡ Some writer.desk.shown.value) }
        {
            let (writer, published) = writer.publish_as::<Sees, W>(rt);
            (writer, published.is_ok())
        },
    )
}

fn greet<W: Wait>(rt: &W, writer: &mut Copies)
    requires { fold (λ s o. o) writer.old.desk.shown.value (drop writer.old.behind writer.old.log.items) ≡ writer.old.desk.shown.value }
    ensures shown { writer.new.desk.shown.value ≡ writer.old.desk.shown.value }
    ensures seen { view writer.new.desk.place ≡ Some writer.old.desk.shown.value }
{
    for _ in rt.forever() {
        if greet_once(rt, writer) {
            return;
        }
    }
    unreachable!()
}

/// The writer publishes what it shows, and then sees it. That also makes room for the operations to come.
#[tactic(auto, using(crate::proofs::Lists::fold_last))]
pub fn warm<W: Wait>(rt: &W, writer: &mut Copies, like: Published) -> Result<(), NoMemory>
    requires { like ≡ writer.old.desk.shown.value }
    ensures shown { writer.new.desk.shown.value ≡ writer.old.desk.shown.value }
    ensures seen { IsOk result → view writer.new.desk.place ≡ Some writer.old.desk.shown.value }
{
    if writer.append(like).is_err() {
        return Err(NoMemory);
    }
    greet(rt, writer);
    Ok(())
}
