// Where connections come in.
ghost use Rattle.std.specs.Prelude.{◌≡◌, true, false};
ghost use Rattle.kms_io.specs.Listening.{Listening};

use crate::Link;

/// What came next at an ear.
pub enum Next<L> {
    /// A connection, of which nothing is taken or written yet and whose counts of faults are 0. What came before, of an
    /// ear that gives one again, isn't counted.
    Conn(L),
    /// No connection, and the count of faults rose.
    Failed,
}

/// Where connections come in, one at a time. It has a count of faults, which never falls; one that
/// stands at the last value of a u64 stays there.
pub trait Ear: Drop {
    ghost use Rattle.kms_io.specs.Ear.{Hears, TakesBack};

    /// What comes in.
    type Conn: Link;

    /// The count of faults, whether a connection of it is out, and what the connections given back
    /// show, where that is told.
    ghost shows: { Self → Listening };

    /// Waits for the next connection, where none is out. After `Conn` one is out.
    fn next(&mut self) -> Next<Self::Conn>
        requires { (shows self.old).is_out ≡ false }
        ensures { Hears Self.Conn.shows (shows self.old) result (shows self.new) };

    /// Takes back the connection that is out. It takes no memory.
    fn done(&mut self, conn: Self::Conn)
        requires { (shows self.old).is_out ≡ true }
        ensures { TakesBack (shows self.old) (Self.Conn.shows conn) (shows self.new) };
}
