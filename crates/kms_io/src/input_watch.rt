// Standard input, which may be watched for its end.
use mio::unix::SourceFd;
use mio::{Interest, Registry, Token};
use std::io::{ErrorKind, Input, Read};
use std::os::fd::RawFd;

// Its descriptor.
const STANDARD_INPUT: RawFd = 0;

// How much is read of it at a look.
const ROOM: usize = 4096;

/// What is known of standard input.
#[derive(Clone, Copy)]
pub enum InputWatch {
    /// It isn't watched.
    Off,
    /// It is watched, and hasn't ended.
    On,
    /// It has ended.
    Ended,
}

impl InputWatch {
    /// Watches it under this token. A regular file, the null device and a descriptor that is closed can't be
    /// watched, and are left alone.
    pub fn begin(registry: &Registry, token: Token) -> InputWatch {
        let begun = registry.register(&mut SourceFd(&STANDARD_INPUT), token, Interest::READABLE);
        match begun {
            Ok(()) => InputWatch::On,
            Err(_) => InputWatch::Off,
        }
    }

    /// Whether it has ended.
    pub fn has_ended(&self) -> bool {
        matches!(self, InputWatch::Ended)
    }

    /// It has bytes, of which some are read and thrown away, or has ended. One that can't be read counts as ended.
    pub fn look<R: Input>(&mut self, rt: &R, registry: &Registry, token: Token) {
        if !goes_on(rt) {
            *self = InputWatch::Ended;
            return;
        }
        // What is left is told again.
        let again = registry.reregister(&mut SourceFd(&STANDARD_INPUT), token, Interest::READABLE);
        if again.is_err() {
            *self = InputWatch::Off;
        }
    }
}

// Reads some bytes, and tells whether more may come.
fn goes_on<R: Input>(rt: &R) -> bool {
    match rt.reader().read(&mut [0; ROOM]) {
        Ok(count) => count > 0,
        Err(fault) => matches!(fault.kind(), ErrorKind::WouldBlock | ErrorKind::Interrupted),
    }
}
