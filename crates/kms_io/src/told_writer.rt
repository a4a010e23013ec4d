// A writer that tells why it fails.
use std::io;
use std::io::{ErrorKind, Write};

/// A writer over another, which says on standard error, once, why a write or a flush of that failed. One that a signal cut
/// short is no failure.
#[derive(Drop)]
pub struct ToldWriter<'a, R: Eprint, W: Write> {
    rt: &'a R,
    writer: W,
    is_told: bool,
}

impl<'a, R: Eprint, W: Write> ToldWriter<'a, R, W> {
    /// The writer over this one.
    pub fn new(rt: &'a R, writer: W) -> ToldWriter<'a, R, W> {
        ToldWriter {
            rt,
            writer,
            is_told: false,
        }
    }

    // Tells why a call failed, where none was told before.
    fn tell(&mut self, fault: &io::Error) {
        if self.is_told || fault.kind() == ErrorKind::Interrupted {
            return;
        }
        self.is_told = true;
        let _ = eprintln!(self.rt; "can't write standard output: {fault}");
    }
}

impl<R: Eprint, W: Write> Write for ToldWriter<'_, R, W> {
    fn write(&mut self, piece: &[u8]) -> io::Result<usize> {
        let answer = self.writer.write(piece);
        if let Err(fault) = &answer {
            self.tell(fault);
        }
        answer
    }

    fn flush(&mut self) -> io::Result<()> {
        let answer = self.writer.flush();
        if let Err(fault) = &answer {
            self.tell(fault);
        }
        answer
    }
}
