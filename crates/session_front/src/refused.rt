// Why a message is refused before the account is asked.
ghost use Rattle.std.specs.Prelude.{◌≡◌};
ghost use Rattle.session_front.specs.Early.{unsigned, unread};
ghost use Rattle.session_front.specs.declared.refused.Early.TheVariants.{NoMemory as OutOfMemory};

use kms_json::{JsonFault, Refusal};
use kms_names::NoMemory;
use sigv4_check::AuthFault;

/// Why a message asks nothing of the account.
#[derive(Drop)]
pub enum Early {
    /// It is refused, whatever the account holds: nobody signed it, or it names no operation with its
    /// fields, or its header x-kms-after is malformed.
    Fault(Refusal),
    /// A growth of memory was refused.
    NoMemory,
}

impl From<NoMemory> for Early {
    ghost from_gives = { λ _ early. early ≡ OutOfMemory };

    fn from(_e: NoMemory) -> Early {
        Early::NoMemory
    }
}

impl From<AuthFault> for Early {
    ghost from_gives = { λ why early. early ≡ unsigned why };

    fn from(fault: AuthFault) -> Early {
        match fault {
            AuthFault::NoAuth => Early::Fault(Refusal::MissingAuthentication),
            AuthFault::Incomplete => Early::Fault(Refusal::IncompleteSignature),
            AuthFault::UnknownKey => Early::Fault(Refusal::UnrecognizedClient),
            AuthFault::Expired => Early::Fault(Refusal::RequestExpired),
            AuthFault::BadSignature => Early::Fault(Refusal::InvalidSignature),
            AuthFault::NoMemory => Early::NoMemory,
        }
    }
}

impl From<JsonFault> for Early {
    ghost from_gives = { λ why early. early ≡ unread why };

    fn from(fault: JsonFault) -> Early {
        match fault {
            JsonFault::UnknownOperation => Early::Fault(Refusal::UnknownOperation),
            JsonFault::Serialization => Early::Fault(Refusal::Serialization),
            JsonFault::Validation(field) => Early::Fault(Refusal::Validation(field)),
            JsonFault::AliasName => Early::Fault(Refusal::InvalidAliasName),
            JsonFault::NoMemory => Early::NoMemory,
        }
    }
}
