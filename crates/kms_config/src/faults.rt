ghost use Rattle.std.specs.Prelude.{◌≡◌};
ghost use Rattle.kms_config.specs.declared.faults.ConfigFault.TheVariants.{NoMemory as OutOfMemory};

use kms_names::{NoMemory, Text};

/// Why a configuration isn't taken.
#[derive(Debug, Drop)]
pub enum ConfigFault {
    /// The first fault, by its JSON pointer (RFC 6901); `/` where the file is no JSON object or too long.
    At(Text),
    /// A growth of memory was refused.
    NoMemory,
}

impl From<NoMemory> for ConfigFault {
    ghost from_gives = { λ _ e. e ≡ OutOfMemory };

    fn from(_e: NoMemory) -> ConfigFault {
        ConfigFault::NoMemory
    }
}
