// A connection: a stream of bytes in two directions.
ghost use Rattle.std.specs.Prelude.{◌<◌, length};
ghost use Rattle.kms_io.specs.Wire.{Wire};

/// What a read did.
#[derive(Clone, Copy)]
pub enum Took {
    /// So many bytes stand at the front of the room: at least 1, at most the room's length.
    Got(usize),
    /// Nothing is left to come.
    End,
    /// Nothing was taken, and the count of read faults rose.
    Failed,
}

/// What a write did.
#[derive(Clone, Copy)]
pub enum Put {
    /// So many bytes at the front of the piece were written: at least 1, at most the piece's length.
    Wrote(usize),
    /// Nothing was written, and the count of write faults rose.
    Failed,
}

/// A call of a connection that moved bytes.
#[derive(Clone, Copy)]
pub enum Move {
    /// A read took so many bytes.
    In(usize),
    /// A write wrote so many bytes.
    Out(usize),
}

/// A stream of bytes in two directions, with a count of faults for each. A count never falls, and
/// one that stands at the last value of a u64 stays there.
pub trait Link {
    ghost use Rattle.kms_io.specs.Link.{Reads, Writes};

    /// The bytes taken, written and still to come and the calls that moved them, each where it is told,
    /// and both counts of faults.
    ghost shows: { Self → Wire };

    /// Takes some bytes to the front of the room, which isn't empty.
    fn read_some(&mut self, room: &mut [u8]) -> Took
        requires { 0 < length room.old }
        ensures { Reads (shows self.old) room.new result (shows self.new) };

    /// Writes a front of the piece, which isn't empty.
    fn write_some(&mut self, piece: &[u8]) -> Put
        requires { 0 < length piece.now }
        ensures { Writes (shows self.old) piece.now result (shows self.new) };
}
