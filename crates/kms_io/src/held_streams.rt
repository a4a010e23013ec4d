// Standard input, output and error where they are closed.
use std::fs::{Files, OpenOptions};
use std::os::fd::{AsRawFd, RawFd};

// The file that is opened in their place.
const NOTHING: &str = "/dev/null";

const STANDARD_INPUT: RawFd = 0;

const STANDARD_OUTPUT: RawFd = 1;

const STANDARD_ERROR: RawFd = 2;

/// What stands in the place of standard input, output and error where they were closed, so that no file and no
/// connection comes there, which would get what is written to them. A read or a write of it fails, as of one that is closed.
#[derive(Drop)]
pub struct HeldStreams<F: Drop> {
    input: Option<F>,
    output: Option<F>,
    error: Option<F>,
}

impl<F: AsRawFd + Drop> HeldStreams<F> {
    /// Holds those that are closed, as long as it is there. It is to be called before anything is opened.
    pub fn new<R: Files<File = F>>(rt: &R) -> HeldStreams<F> {
        let mut to_write = OpenOptions::new();
        to_write.write(true);
        let mut to_read = OpenOptions::new();
        to_read.read(true);
        HeldStreams {
            input: held(rt, &to_write, STANDARD_INPUT, STANDARD_INPUT),
            output: held(rt, &to_read, STANDARD_OUTPUT, STANDARD_ERROR),
            error: held(rt, &to_read, STANDARD_OUTPUT, STANDARD_ERROR),
        }
    }
}

// Nothing, opened so, where the descriptor that is free is one of these.
fn held<R: Files>(rt: &R, how: &OpenOptions, first: RawFd, last: RawFd) -> Option<R::File>
where
    R::File: AsRawFd,
{
    let file = how.open(rt, NOTHING).ok()?;
    let at = file.as_raw_fd();
    if first <= at && at <= last {
        Some(file)
    } else {
        None
    }
}
