//! What holds of every run of events, of which each call of a pass is one or more.

ghost use Rattle.pass_laws.specs.Calls.{FrontsNeverFall, CallsKeepLawful, CallsKeepOpened, DroppedStaysAwayFromPasses, NoVectorOfOnePassTwice, NoVectorOfTwoPasses, NoVectorOfTwoBoots};
ghost use Rattle.pass_laws.specs.Events.{CallsAreEvents, PassesAreTheMachine};
ghost use Rattle.pass_laws.specs.House.{OwesNothingMore};
ghost use Rattle.pass_laws.specs.Orders.{CallsHaveOneOrder};
ghost use Rattle.pass_laws.specs.Machine.{HoldsAlways, SealedStaysReadable, DroppedStaysAway, NoVectorTwice, NoVectorShared, NoVectorOverBoots};

use account_laws::{
    boots_share_no_iv, dropped_grants_stay_away, house_is_kept_once, one_pass_repeats_no_iv,
    passes_share_no_iv, sealed_is_decrypted_again, times_never_fall,
};

/// For every number of passes, every list of entries that were loaded at the start (or none) and every list
/// of events: housekeeping, changes, reads, reads for which memory lacks, and learning.
///
/// The history only grows. What was loaded begins it; each entry behind is one that may come next after
/// those before it, its maker is one of the passes, and times never fall. What a pass has seen never falls,
/// the places of its own entries are exactly those of its number behind what was loaded, and what it has
/// used only goes on. What a request sealed, Decrypt answers at every history that goes on from there, while
/// its key is enabled. A grant that a pass has seen retired or revoked is at no history that the pass is
/// answered at from then on. Two texts that passes sealed, one pass or two, have different initialization
/// vectors; and so have two texts of two services whose boots differ.
pub fn machine_law()
    ensures holds { HoldsAlways }
    ensures readable { SealedStaysReadable }
    ensures dropped { DroppedStaysAway }
    ensures vectors { NoVectorTwice }
    ensures shared { NoVectorShared }
    ensures boots { NoVectorOverBoots }
{
    times_never_fall();
    sealed_is_decrypted_again();
    dropped_grants_stay_away();
    one_pass_repeats_no_iv();
    passes_share_no_iv();
    boots_share_no_iv();
}

/// Each call of a pass, as its contract has it, is a list of events of that pass: a request that was read or
/// changed the account, one for which memory lacked, a published account that was missed, housekeeping, learning,
/// and what is done at the desk. The events lead to what the pass then holds, and leave what the machine has of
/// every other pass. And in whatever order the passes of a service make their calls, they are one run of the
/// machine, of which all holds that [`machine_law`] says.
pub fn calls_are_events()
    ensures events { CallsAreEvents }
    ensures run { PassesAreTheMachine }
{
    times_never_fall();
}

/// Whatever calls the passes of a service made, each from its beginning on: if one history begins with what each of
/// them holds, and each entry behind the loaded ones is that pass's own whose number it bears, then the passes made all
/// these calls together in one order. In it each call that publishes met all that was published, each other one a
/// beginning of that, and what is published at last is this history.
pub fn calls_have_one_order()
    ensures { CallsHaveOneOrder }
{}

/// Of passes, whatever calls they make: the number of entries that a pass holds never falls, and its history
/// stays lawful, or stays one that an opened account holds. A pass that holds the drop of a grant is answered at no history where a grant has its id. Two
/// texts that passes of one service sealed, one pass or two, have different initialization vectors; and so have
/// two texts of two services whose boots differ.
pub fn passes_law()
    ensures fronts { FrontsNeverFall }
    ensures lawful { CallsKeepLawful }
    ensures opened { CallsKeepOpened }
    ensures dropped { DroppedStaysAwayFromPasses }
    ensures vectors { NoVectorOfOnePassTwice }
    ensures shared { NoVectorOfTwoPasses }
    ensures boots { NoVectorOfTwoBoots }
{
    dropped_grants_stay_away();
    one_pass_repeats_no_iv();
    passes_share_no_iv();
    boots_share_no_iv();
}

/// After housekeeping at a clock's answer, whether it was owed or not, nothing more is owed at it. So a request that
/// changes the account is answered at a history that owes no housekeeping at the clock's answer.
pub fn house_owes_nothing_more()
    ensures { OwesNothingMore }
{
    house_is_kept_once();
}
