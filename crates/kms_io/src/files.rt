// Files by name.
ghost use Rattle.kms_io.specs.Shelf.{Shelf};

/// The most bytes of a file that is read whole, and of a long one.
pub(crate) const WHOLE_LIMIT: usize = 4_194_304;

pub(crate) const LONG_LIMIT: usize = 2_147_483_648;

/// What a read of a file did.
#[derive(Clone, Copy)]
pub enum FileAnswer {
    /// The room holds the whole content, of no more bytes than the limit of the call, and nothing else.
    Read,
    /// The file has more bytes than the limit of the call.
    TooLong,
    /// The file can't be read, and the count of faults rose.
    Failed,
    /// There wasn't memory enough.
    NoMemory,
}

/// Files by name, with a count of faults. The count never falls, and one that stands at the last
/// value of a u64 stays there.
pub trait Files {
    ghost use Rattle.kms_io.specs.Files.{ReadsFile, whole_limit, long_limit};

    /// The count of faults, the names asked for where that is told, and the content of the file of
    /// each name where it is told.
    ghost shows: { Self → Shelf };

    /// Reads the whole file of the name, of at most 4,194,304 bytes, into the room, in place of what it
    /// held. At every answer but `Read` the room is as before. Each call adds its name to those asked
    /// for; one that answers `NoMemory` may leave them as they were.
    fn read_whole(&mut self, name: &str, room: &mut Vec<u8>) -> FileAnswer
        ensures { ReadsFile whole_limit (shows self.old) name.now room.old.items result (shows self.new) room.new.items };

    /// The same for a long file, of at most 2,147,483,648 bytes.
    fn read_long(&mut self, name: &str, room: &mut Vec<u8>) -> FileAnswer
        ensures { ReadsFile long_limit (shows self.old) name.now room.old.items result (shows self.new) room.new.items };
}
