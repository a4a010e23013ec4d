//! Key states.
ghost use Rattle.std.specs.Prelude.{◌≢◌};
ghost use Rattle.key_states.specs.declared.states.State.{State};

use crate::cases::Case;
use crate::names::read_action;
use hmac_keys::KeyKind;
use key_states::{KeyRow, State, StateFault, Stored, Version, VersionList, permits};
use kms_names::KeyId;
use resource_tags::TagMap;

/// The state of a key at a moment, whether its rotation is due, and what its state permits.
pub fn keys(case: &mut Case<'_>) {
    match case.word() {
        "state_at" => state_at(case),
        "due" => due(case),
        "permits" => permitted(case),
        _ => case.lose(),
    }
}

// The state that the next column stores.
fn read_stored(case: &mut Case<'_>) -> Stored {
    match case.word() {
        "enabled" => Stored::Enabled,
        "disabled" => Stored::Disabled,
        word => {
            let times = case.found(word.strip_prefix("pending ")).unwrap_or("");
            let (date, days) = case.found(times.split_once(' ')).unwrap_or(("", ""));
            Stored::Pending {
                date: case.number_of(date),
                days: case.number_of(days),
            }
        }
    }
}

// A copy of a row with these; nothing is asked of what else it holds.
fn row(case: &mut Case<'_>, stored: Stored, period: Option<u32>, next: u64) -> KeyRow {
    let version = Version {
        time: 1_700_000_000,
        on_demand: false,
    };
    let mut versions = Vec::new(case.alloc);
    let copied = case.kept_or(version.copy(), version);
    case.require(versions.push(copied).is_ok());
    let row = KeyRow {
        key: KeyId::new([7; 16]),
        born: 3,
        made: 1_700_000_000,
        kind: KeyKind::Symmetric,
        description: case.owned("d"),
        policy: case.owned("p"),
        stored: case.kept_or(stored.copy(), stored),
        versions: VersionList::new(versions),
        period,
        next,
        on_demand: 1,
        tags: TagMap::new(case.alloc),
    };
    case.kept_or(row.copy(), row)
}

fn state_at(case: &mut Case<'_>) {
    let stored = read_stored(case);
    let moment = case.number();
    let row = row(case, stored, None, 0);
    case.put(match row.state_at(moment) {
        State::Enabled => "Enabled",
        State::Disabled => "Disabled",
        State::PendingDeletion => "PendingDeletion",
        State::Gone => "Gone",
    });
}

fn due(case: &mut Case<'_>) {
    let stored = read_stored(case);
    let period = match case.word() {
        "-" => None,
        word => Some(case.number_of(word)),
    };
    let next = case.number();
    let moment = case.number();
    let row = row(case, stored, period, next);
    case.put_truth(row.due(moment));
}

// The state of a key that is there.
fn read_state(case: &mut Case<'_>) -> State
    ensures { result ≢ State.Gone }
{
    match case.word() {
        "Enabled" => State::Enabled,
        "Disabled" => State::Disabled,
        "PendingDeletion" => State::PendingDeletion,
        _ => {
            case.lose();
            State::Enabled
        }
    }
}

fn permitted(case: &mut Case<'_>) {
    let action = read_action(case);
    let state = read_state(case);
    case.put(match permits(action, state) {
        None => "none",
        Some(StateFault::Disabled) => "Disabled",
        Some(StateFault::InvalidState) => "InvalidState",
    });
}
