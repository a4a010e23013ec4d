// Why a case can't be tried.
use kms_names::NoMemory;
use std::alloc::{AllocError, AllocFailed};
use std::io;

/// Why a case can't be tried.
#[derive(Clone, Copy)]
pub enum Failure {
    NoMemory,
    /// A column has not its form.
    Unfit,
    /// A file couldn't be read, or a line couldn't be written.
    Workshop(io::ErrorKind),
}

impl From<NoMemory> for Failure {
    fn from(_e: NoMemory) -> Failure {
        Failure::NoMemory
    }
}

impl From<AllocError> for Failure {
    fn from(_e: AllocError) -> Failure {
        Failure::NoMemory
    }
}

impl<T: Drop> From<AllocFailed<T>> for Failure {
    fn from(_e: AllocFailed<T>) -> Failure {
        Failure::NoMemory
    }
}

impl From<io::Error> for Failure {
    fn from(e: io::Error) -> Failure {
        Failure::Workshop(e.kind())
    }
}
