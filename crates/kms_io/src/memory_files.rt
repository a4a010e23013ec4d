// Files in memory, which can be made to fail.
ghost use Rattle.std.specs.Prelude.{◌≡◌, ◌++◌, ◌∷◌, [], map, string_bytes, option_map, OnOk, OnErr};
ghost use Rattle.kms_io.specs.FileList.{content_among};

use crate::files::{LONG_LIMIT, WHOLE_LIMIT};
use crate::{FileAnswer, Files};
use std::alloc::{AllocError, Global};

/// Files in memory. A read fails at a name that isn't there, and where the number of the call,
/// counted from 0, stands in a list. It keeps the names asked for, but at `NoMemory`.
#[derive(Drop)]
pub struct MemoryFiles {
    alloc: Global,
    files: Vec<(String, Vec<u8>)>,
    failing: Vec<u64>,
    calls: u64,
    asked: Vec<String>,
    faults: u64,
}

impl MemoryFiles {
    ghost use Rattle.std.specs.Prelude.{◌≡◌, [], Some};
    ghost use Rattle.kms_io.specs.FileList.{content_among};
    ghost use Rattle.kms_io.specs.MemoryFiles.{shelf_of, calls_of};

    /// The files of these names and contents, of which the first of a name counts, with the numbers
    /// of the calls that fail. It takes no memory.
    pub fn new(alloc: Global, files: Vec<(String, Vec<u8>)>, failing: Vec<u64>) -> MemoryFiles
        ensures shelf { shelf_of result ≡ record {
          faults = 0;
          asked = Some [];
          content = content_among files.items;
        } }
        ensures calls { calls_of result ≡ record { made = 0; failing = failing.items } }
    {
        MemoryFiles {
            alloc,
            files,
            failing,
            calls: 0,
            asked: Vec::new(alloc),
            faults: 0,
        }
    }
}

impl MemoryFiles {
    ghost use Rattle.std.specs.Prelude.{List, ℕ, ◌⊎◌, true};
    ghost use Rattle.kms_io.specs.Calls.{Calls, is_failing, one_more};
    ghost use Rattle.kms_io.specs.Files.{ReadsFile};
    ghost use Rattle.kms_io.specs.MemoryFiles.{shelf_of, calls_of, FailsAsTold};

    // A call for the name that fails.
    fn fail(&mut self, name: &str) -> FileAnswer
        ensures reads { (most : ℕ) (room : List ℕ) → ReadsFile most (shelf_of self.old) name.now room result (shelf_of self.new) room }
        ensures fails { (calls : Calls) → (is_failing calls ≡ true) ⊎ ((shelf_of self.old).content name.now ≡ None) → FailsAsTold calls (shelf_of self.old) name.now result (shelf_of self.new) }
        ensures calls { calls_of self.new ≡ calls_of self.old }
    {
        if note(self.alloc, &mut self.asked, name).is_err() {
            return FileAnswer::NoMemory;
        }
        self.faults = self.faults.saturating_add(1);
        FileAnswer::Failed
    }

    // Reads a file of at most so many bytes.
    fn read(&mut self, most: usize, name: &str, room: &mut Vec<u8>) -> FileAnswer
        ensures reads { ReadsFile most (shelf_of self.old) name.now room.old.items result (shelf_of self.new) room.new.items }
        ensures fails { FailsAsTold (calls_of self.old) (shelf_of self.old) name.now result (shelf_of self.new) }
        ensures calls { calls_of self.new ≡ one_more (calls_of self.old) }
    {
        let call = self.calls;
        self.calls = call.saturating_add(1);
        if self.failing.contains(&call) {
            return self.fail(name);
        }
        let Some(content) = content_of(&self.files, name) else {
            return self.fail(name);
        };
        if content.len() > most {
            return match note(self.alloc, &mut self.asked, name) {
                Ok(()) => FileAnswer::TooLong,
                Err(_) => FileAnswer::NoMemory,
            };
        }
        let Ok(all) = content.to_vec(*room.allocator()) else {
            return FileAnswer::NoMemory;
        };
        match note(self.alloc, &mut self.asked, name) {
            Ok(()) => {
                *room = all;
                FileAnswer::Read
            }
            Err(_) => FileAnswer::NoMemory,
        }
    }
}

impl Files for MemoryFiles {
    ghost use Rattle.kms_io.specs.Calls.{one_more};
    ghost use Rattle.kms_io.specs.Files.{ReadsFile, whole_limit, long_limit};
    ghost use Rattle.kms_io.specs.MemoryFiles.{shelf_of, calls_of, FailsAsTold};

    ghost shows = { shelf_of };

    fn read_whole(&mut self, name: &str, room: &mut Vec<u8>) -> FileAnswer
        ensures reads { ReadsFile whole_limit (shelf_of self.old) name.now room.old.items result (shelf_of self.new) room.new.items }
        ensures fails { FailsAsTold (calls_of self.old) (shelf_of self.old) name.now result (shelf_of self.new) }
        ensures calls { calls_of self.new ≡ one_more (calls_of self.old) }
    {
        self.read(WHOLE_LIMIT, name, room)
    }

    fn read_long(&mut self, name: &str, room: &mut Vec<u8>) -> FileAnswer
        ensures reads { ReadsFile long_limit (shelf_of self.old) name.now room.old.items result (shelf_of self.new) room.new.items }
        ensures fails { FailsAsTold (calls_of self.old) (shelf_of self.old) name.now result (shelf_of self.new) }
        ensures calls { calls_of self.new ≡ one_more (calls_of self.old) }
    {
        self.read(LONG_LIMIT, name, room)
    }
}

// Keeps the name that was asked for.
fn note(alloc: Global, asked: &mut Vec<String>, name: &str) -> Result<(), AllocError>
    ensures ok { OnOk result (map string_bytes asked.new.items ≡ map string_bytes asked.old.items ++ name.now ∷ []) }
    ensures err { OnErr result (asked.new.items ≡ asked.old.items) }
{
    let copy = String::from_str(alloc, name)?;
    asked.push(copy)?;
    Ok(())
}

// The content of the first file of the name.
fn content_of<'a>(files: &'a [(String, Vec<u8>)], name: &str) -> Option<&'a [u8]>
    ensures { option_map (λ content. content.now) result ≡ content_among files.now name.now }
{
    let file = files.iter().find(|file| file.0.as_str() == name)?;
    Some(file.1.as_slice())
}
