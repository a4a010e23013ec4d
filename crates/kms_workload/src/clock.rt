// The clock of a workload.
ghost use Rattle.std.specs.Prelude.{◌≡◌};
ghost use Rattle.kms_names.specs.Moment.{year_10000};
ghost use Rattle.kms_io.specs.StepClock.{next_step};
ghost use Rattle.kms_workload.specs.Seconds.{second_of};

use kms_io::{Clock, StepClock};

// 2023-11-14T22:13:20Z, in seconds since 1970.
const START: u64 = 1_700_000_000;

/// A clock that answers 2023-11-14T22:13:20Z first and then adds one second a call. It counts its calls
/// up to 2^64 - 1, and tells its answers for one call fewer.
#[derive(Drop)]
pub struct LoadClock {
    steps: StepClock,
    calls: u64,
    ghost answer: { next_step steps ≡ second_of calls },
}

impl LoadClock {
    ghost use Rattle.std.specs.Prelude.{◌≡◌, [], Some};
    ghost use Rattle.kms_workload.specs.Clock.{seconds_so_far, calls_of};

    /// The clock before its first call.
    pub fn new() -> LoadClock
        ensures { seconds_so_far result ≡ Some [] }
    {
        LoadClock {
            steps: StepClock::new(START),
            calls: 0,
        }
    }

    /// How often it was asked.
    pub fn calls(&self) -> u64
        ensures { result ≡ calls_of self.now }
    {
        self.calls
    }
}

impl Clock for LoadClock {
    ghost use Rattle.std.specs.Prelude.{◌<◌, ◌∷◌, []};
    ghost use Rattle.kms_io.specs.Wire.{TellsMore};
    ghost use Rattle.kms_workload.specs.Clock.{seconds_so_far};

    ghost told = { seconds_so_far };

    fn now(&mut self) -> u64
        ensures bound { result < year_10000 }
        ensures told { TellsMore (seconds_so_far self.old) (result ∷ []) (seconds_so_far self.new) }
    {
        self.calls = self.calls.saturating_add(1);
        self.steps.now()
    }
}
