//! A file as the log sees it: its bytes, and what a crash may leave of it.
ghost use Rattle.std.specs.Prelude.{◌≡◌, ◌≤◌, Bool, List, ℕ, length, take, OnOk};
ghost use Rattle.kept_log.specs.Device.{Only, Follows, Torn, Cut, overlaid, Elapses, HasCause};

/// The device has failed.
#[derive(Clone, Copy, Debug, PartialEq, Eq)]
pub struct Failed;

/// A file that is written, cut and synced. It isn't read: whoever opens it has its bytes. At an
/// error nothing is known of the bytes that a read would return, but what a crash may leave is as
/// after a call that was done in part.
pub trait Device {
    /// The bytes that a read would return.
    ghost seen: { Self → List ℕ };

    /// What a crash at this moment may leave.
    ghost may_leave: { Self → List ℕ → Type 0 };

    /// The moment, as a number that doesn't fall.
    ghost moment: { Self → ℕ };

    /// What a crash at some moment from that one on might have left, in a call or between two.
    ghost left_since: { Self → ℕ → List ℕ → Type 0 };

    /// How often the device has failed. It doesn't fall, and stays at the last value of a u64.
    ghost faults: { Self → ℕ };

    /// The hypothesis that a crash leaves each byte of a torn write old or new, below the old end.
    ghost is_mixing: { Bool };

    /// Whether that hypothesis is made of this device.
    fn mixes() -> bool
        ensures { result ≡ is_mixing };

    /// Writes from an offset on, over what is there and past the end. Until the next sync a crash may
    /// leave any bytes in the range, or of each byte the old one or the new where that is the
    /// hypothesis.
    fn write_at(&mut self, at: usize, bytes: &[u8]) -> Result<(), Failed>
        requires { at ≤ length (seen self.old) }
        ensures written { OnOk result (seen self.new ≡ overlaid (seen self.old) at bytes.now) }
        ensures crash { Follows (Torn is_mixing at bytes.now) (may_leave self.old) (may_leave self.new) }
        ensures time { Elapses (moment self.old) (moment self.new) (left_since self.old) (left_since self.new) (may_leave self.new) }
        ensures cause { HasCause (faults self.old) (faults self.new) result };

    /// Cuts the file to a length. Until the next sync a crash may leave any length between.
    fn cut(&mut self, len: usize) -> Result<(), Failed>
        requires { len ≤ length (seen self.old) }
        ensures cut { OnOk result (seen self.new ≡ take len (seen self.old)) }
        ensures crash { Follows (Cut len) (may_leave self.old) (may_leave self.new) }
        ensures time { Elapses (moment self.old) (moment self.new) (left_since self.old) (left_since self.new) (may_leave self.new) }
        ensures cause { HasCause (faults self.old) (faults self.new) result };

    /// Puts all on the disk: after it a crash leaves the bytes that a read would return.
    fn sync(&mut self) -> Result<(), Failed>
        ensures durable { OnOk result (Only (seen self.old) (may_leave self.new)) }
        ensures seen { seen self.new ≡ seen self.old }
        ensures crash { (c : List ℕ) → may_leave self.new c → may_leave self.old c }
        ensures time { Elapses (moment self.old) (moment self.new) (left_since self.old) (left_since self.new) (may_leave self.new) }
        ensures cause { HasCause (faults self.old) (faults self.new) result };

    /// This moment is one of those since an earlier one.
    ghost counts_now: { (file : Self) (t : ℕ) (c : List ℕ) → t ≤ moment file → may_leave file c → left_since file t c };

    /// Since this moment there is no other.
    ghost only_now: { (file : Self) (c : List ℕ) → left_since file (moment file) c → may_leave file c };
}
