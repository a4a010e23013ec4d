// What passes held at earlier moments.
ghost use Rattle.publish_pass.specs.Pass.{Agree};
ghost use Rattle.pass_laws.specs.Calls.{Calls};

use publish_pass::{Pass, Realm, Told};

/// Of what two passes of one service held at any two moments, each of them now or before, one begins with all of the
/// other: a moment of a pass is any state from which calls led to what it holds now. Nothing is done, and no memory taken.
pub fn moments_agree<R: Realm>(one: &Pass<R>, other: &Pass<R>)
    ensures { (before earlier : _) → Calls before one.now → Calls earlier other.now → Agree before.history earlier.history }
{
    one.agrees(other);
}

/// So too of what one pass held at any moment, and what another told at whatever moment: also where that is in use since,
/// as by a session that hasn't ended.
pub fn moments_agree_with_told<R: Realm>(one: &Pass<R>, told: &Told<R>)
    ensures { (before : _) → Calls before one.now → Agree before.history told.now }
{
    let mine = one.tell();
    mine.agrees(told);
}
