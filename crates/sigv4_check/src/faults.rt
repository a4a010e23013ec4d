ghost use Rattle.std.specs.Prelude.{◌≡◌};
ghost use Rattle.sigv4_check.specs.declared.faults.AuthFault.TheVariants.{NoMemory as OutOfMemory};

use kms_names::NoMemory;

/// Why a message has no signer. The reasons stand in the order in which they are looked for.
#[derive(Clone, Copy, Debug, PartialEq, Eq)]
pub enum AuthFault {
    /// There is no header Authorization.
    NoAuth,
    /// The header Authorization or what it claims isn't complete.
    Incomplete,
    /// No credential has the id.
    UnknownKey,
    /// The date of the request and the clock differ by more than 300 seconds.
    Expired,
    /// The signature is another one.
    BadSignature,
    /// A growth of memory was refused.
    NoMemory,
}

impl From<NoMemory> for AuthFault {
    ghost from_gives = { λ _ e. e ≡ OutOfMemory };

    fn from(_e: NoMemory) -> AuthFault {
        AuthFault::NoMemory
    }
}
