// Why cases don't hold.
use kms_json::JsonFault;
use kms_names::{NameFault, NoMemory};
use policy_doc::PolicyFault;
use std::alloc::{AllocError, AllocFailed};

/// Why a case doesn't hold, as its `words` say.
#[derive(Clone, Copy)]
pub enum Failure {
    NoMemory,
    /// A text is no name or no policy where it should be one, or something that is set can't be so.
    Unfit,
    NoEnd,
    OtherEnd,
    OtherBytes,
    NothingLeft,
    NoReply,
    AsksNothing,
    OtherAnswer,
    OtherPlaces,
}

impl Failure {
    /// What the case's line says of it.
    pub fn words(self) -> &'static str {
        match self {
            Failure::NoMemory => "wants memory",
            Failure::Unfit => "can't be served",
            Failure::NoEnd => "has no end of a session",
            Failure::OtherEnd => "ends otherwise",
            Failure::OtherBytes => "writes other bytes",
            Failure::NothingLeft => "doesn't say what is left",
            Failure::NoReply => "lacks a reply",
            Failure::AsksNothing => "asks nothing of the account",
            Failure::OtherAnswer => "answers otherwise",
            Failure::OtherPlaces => "gives otherwise",
        }
    }
}

impl From<NoMemory> for Failure {
    fn from(_e: NoMemory) -> Failure {
        Failure::NoMemory
    }
}

impl From<AllocError> for Failure {
    fn from(_e: AllocError) -> Failure {
        Failure::NoMemory
    }
}

impl<T: Drop> From<AllocFailed<T>> for Failure {
    fn from(_e: AllocFailed<T>) -> Failure {
        Failure::NoMemory
    }
}

impl From<NameFault> for Failure {
    fn from(e: NameFault) -> Failure {
        match e {
            NameFault::NoMemory => Failure::NoMemory,
            _ => Failure::Unfit,
        }
    }
}

impl From<PolicyFault> for Failure {
    fn from(e: PolicyFault) -> Failure {
        match e {
            PolicyFault::NoMemory => Failure::NoMemory,
            _ => Failure::Unfit,
        }
    }
}

impl From<JsonFault> for Failure {
    fn from(e: JsonFault) -> Failure {
        match e {
            JsonFault::NoMemory => Failure::NoMemory,
            _ => Failure::AsksNothing,
        }
    }
}
