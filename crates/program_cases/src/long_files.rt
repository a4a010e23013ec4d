// Files that are too long.
use kms_io::{FileAnswer, Files};

/// Files of which each has more bytes than any call reads. They tell nothing of their content.
#[derive(Drop)]
pub struct LongFiles;

impl Files for LongFiles {
    ghost use Rattle.program_cases.specs.LongFiles.{untold};

    ghost shows = { untold };

    fn read_whole(&mut self, _name: &str, _room: &mut Vec<u8>) -> FileAnswer {
        FileAnswer::TooLong
    }

    fn read_long(&mut self, _name: &str, _room: &mut Vec<u8>) -> FileAnswer {
        FileAnswer::TooLong
    }
}
