// Why a step of a decision goes no further.
use kms_json::Refusal;
use kms_names::NoMemory;

/// Why a step goes no further.
#[derive(Drop)]
pub enum Stop {
    /// The request is refused.
    Refused(Refusal),
    /// A growth of memory was refused.
    NoMemory,
}

impl From<NoMemory> for Stop {
    ghost use Rattle.std.specs.Prelude.{◌≡◌};
    ghost use Rattle.account_steps.specs.declared.stops.Stop.TheVariants.{NoMemory as OutOfMemory};

    ghost from_gives = { λ _ e. e ≡ OutOfMemory };

    fn from(_e: NoMemory) -> Stop {
        Stop::NoMemory
    }
}
