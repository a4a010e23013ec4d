// Clocks that answer from memory.
ghost use Rattle.std.specs.Prelude.{IsTrue, ◌≡◌, ◌+◌, ◌<◌, ◌^◌, Some, None, nat_lt, if◌then◌else◌};
ghost use Rattle.kms_names.specs.Moment.{year_10000};
ghost use Rattle.kms_io.specs.Wire.{TellsMore};
ghost use Rattle.kms_io.specs.Clock.{listed, stepped, first_of, are_times};

use crate::Clock;

// The last second before the year 10000.
const LAST: u64 = 253_402_300_799;

/// A clock that gives the answers of a list, and then the last one again and again. With an empty
/// list it answers 0. It tells its answers for 2^64 - 2 calls.
#[derive(Drop)]
pub struct MemoryClock {
    answers: Vec<u64>,
    calls: u64,
    ghost times: { IsTrue (are_times answers.items) },
}

impl MemoryClock {
    ghost use Rattle.std.specs.Prelude.{IsTrue, ◌≡◌, [], Some, ℕ};
    ghost use Rattle.kms_io.specs.Clock.{are_times, listed};
    ghost use Rattle.kms_io.specs.MemoryClock.{answers_so_far, answer_after};

    /// The clock of these answers, each before the year 10000. It takes no memory.
    pub fn new(answers: Vec<u64>) -> MemoryClock
        requires { IsTrue (are_times answers.items) }
        ensures told { answers_so_far result ≡ Some [] }
        ensures answers { (k : ℕ) → answer_after result k ≡ listed answers.items k }
    {
        MemoryClock { answers, calls: 0 }
    }
}

impl Clock for MemoryClock {
    ghost use Rattle.std.specs.Prelude.{ℕ, ◌∷◌, []};
    ghost use Rattle.kms_io.specs.MemoryClock.{answers_so_far, answer_after};

    ghost told = { answers_so_far };

    fn now(&mut self) -> u64
        ensures bound { result < year_10000 }
        ensures told { TellsMore (answers_so_far self.old) (result ∷ []) (answers_so_far self.new) }
        ensures value { result ≡ answer_after self.old 0 }
        ensures next { (k : ℕ) → answer_after self.new k ≡ answer_after self.old (k + 1) }
    {
        let call = self.calls;
        self.calls = call.saturating_add(1);
        answer_at(&self.answers, call)
    }
}

// The answer to this call.
fn answer_at(answers: &[u64], call: u64) -> u64
    requires { IsTrue (are_times answers.now) }
    ensures bound { result < year_10000 }
    ensures value { result ≡ listed answers.now call }
{
    let Some(last) = answers.len().checked_sub(1) else {
        return 0;
    };
    answers[last.min(call as usize)]
}

/// A clock that adds one second a call, from a first answer on, and stays at the last second of
/// the year 9999. It tells its answers for 2^64 - 2 calls.
#[derive(Drop)]
pub struct StepClock {
    first: u64,
    calls: u64,
    ghost time: { first < year_10000 },
}

impl StepClock {
    ghost use Rattle.std.specs.Prelude.{◌≡◌, ◌<◌, [], Some};
    ghost use Rattle.kms_io.specs.StepClock.{steps_so_far, next_step};

    /// The clock that answers `first` at its first call.
    pub fn new(first: u64) -> StepClock
        requires { first < year_10000 }
        ensures told { steps_so_far result ≡ Some [] }
        ensures next { next_step result ≡ first }
    {
        StepClock { first, calls: 0 }
    }
}

impl Clock for StepClock {
    ghost use Rattle.std.specs.Prelude.{◌∷◌, [], min};
    ghost use Rattle.kms_io.specs.StepClock.{steps_so_far, next_step};

    ghost told = { steps_so_far };

    fn now(&mut self) -> u64
        ensures bound { result < year_10000 }
        ensures told { TellsMore (steps_so_far self.old) (result ∷ []) (steps_so_far self.new) }
        ensures value { result ≡ next_step self.old }
        ensures next { next_step self.new ≡ min (next_step self.old + 1) 253402300799 }
    {
        let call = self.calls;
        self.calls = call.saturating_add(1);
        step_at(self.first, call)
    }
}

fn step_at(first: u64, call: u64) -> u64
    ensures bound { result < year_10000 }
    ensures value { result ≡ stepped first call }
{
    first.saturating_add(call).min(LAST)
}
