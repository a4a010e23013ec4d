// Where ears are opened.
ghost use Rattle.std.specs.Prelude.{map};
ghost use Rattle.kms_io.specs.Doorway.{Doorway};

use crate::Ear;

/// What an opening did.
#[derive(Clone, Copy)]
pub enum Opened {
    /// The ears asked for stand at the end of the list, each new.
    Open,
    /// No ear was opened, and the count of faults rose.
    Failed,
    /// No ear was opened: there wasn't memory enough.
    NoMemory,
}

/// Where ears are opened, at an address. It has a count of faults, which never falls; one that
/// stands at the last value of a u64 stays there.
pub trait Door {
    ghost use Rattle.kms_io.specs.Door.{Opens, Closes};

    /// What it opens.
    type Listener: Ear + Send;

    /// The count of faults, and where these are told: the addresses with the numbers of ears that it
    /// was asked for, whether it is open, and what the ears of the last `close` show. It is open from
    /// an opening on that answered `Open` to the next `close`.
    ghost shows: { Self → Doorway };

    /// Opens so many ears at the address, to the end of the list, which is left as it was at every
    /// answer but `Open`. A new ear has a count of 0, no connection out and none given back. Each
    /// call adds its address and number to those asked for; one that answers `NoMemory` may leave
    /// them as they were.
    fn open(&mut self, address: &str, n: u16, ears: &mut Vec<Self::Listener>) -> Opened
        ensures { Opens Self.Listener.shows (shows self.old) address.now n ears.old.items result (shows self.new) ears.new.items };

    /// Takes the ears back. It takes no memory.
    fn close(&mut self, ears: Vec<Self::Listener>)
        ensures { Closes (shows self.old) (map Self.Listener.shows ears.items) (shows self.new) };
}
