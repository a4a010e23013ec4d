// The machine's files. They tell nothing of their content.
use crate::files::{LONG_LIMIT, WHOLE_LIMIT};
use crate::{FileAnswer, Files};
use std::alloc::Global;
use std::io::{ErrorKind, Read};
use std::{fs, io};

/// The machine's files, by their paths. It counts the reads that fail, a file that can't be opened
/// among them, says on standard error why one did, and tells nothing of their content.
#[derive(Drop)]
pub struct RealFiles<'a, R> {
    rt: &'a R,
    faults: u64,
}

impl<'a, R> RealFiles<'a, R> {
    ghost use Rattle.std.specs.Prelude.{◌≡◌, None};
    ghost use Rattle.kms_io.specs.RealFiles.{counts_of};

    /// The files that this runtime reaches.
    pub fn new(rt: &'a R) -> RealFiles<'a, R>
        ensures { counts_of result ≡ record {
          faults = 0;
          asked = None;
          content = λ _. None;
        } }
    {
        RealFiles { rt, faults: 0 }
    }
}

impl<R: fs::Files + Eprint> RealFiles<'_, R> {
    ghost use Rattle.kms_io.specs.Files.{ReadsFile};
    ghost use Rattle.kms_io.specs.RealFiles.{counts_of};

    // Reads a file of at most so many bytes.
    fn read(&mut self, most: usize, name: &str, room: &mut Vec<u8>) -> FileAnswer
        ensures { ReadsFile most (counts_of self.old) name.now room.old.items result (counts_of self.new) room.new.items }
    {
        match read_front(self.rt, *room.allocator(), most, name) {
            Ok(all) if all.len() > most => FileAnswer::TooLong,
            Ok(all) => {
                *room = all;
                FileAnswer::Read
            }
            Err(fault) if fault.kind() == ErrorKind::OutOfMemory => FileAnswer::NoMemory,
            Err(fault) => {
                let _ = eprintln!(self.rt; "can't read {name}: {fault}");
                self.faults = self.faults.saturating_add(1);
                FileAnswer::Failed
            }
        }
    }
}

impl<R: fs::Files + Eprint> Files for RealFiles<'_, R> {
    ghost use Rattle.kms_io.specs.RealFiles.{counts_of};

    ghost shows = { counts_of };

    fn read_whole(&mut self, name: &str, room: &mut Vec<u8>) -> FileAnswer {
        self.read(WHOLE_LIMIT, name, room)
    }

    fn read_long(&mut self, name: &str, room: &mut Vec<u8>) -> FileAnswer {
        self.read(LONG_LIMIT, name, room)
    }
}

// The first bytes of the file: one more than the most, where it has more.
fn read_front<R: fs::Files>(rt: &R, alloc: Global, most: usize, name: &str) -> io::Result<Vec<u8>> {
    let file = fs::File::open(rt, name)?;
    let mut all = Vec::new(alloc);
    let front = (most as u64).saturating_add(1);
    file.take(front).read_to_end(&mut all)?;
    Ok(all)
}
