ghost use Rattle.std.specs.Prelude.{◌≡◌, ◌+◌, ◌<◌, ℕ};

use std::marker::Model;
use std::sync::ledger::{Book, Ledger, Share};

/// How many comparisons were made. It takes no bytes, and only `tick` changes it. Contracts see it as
/// its count.
#[derive(Drop)]
pub struct Steps<L: Ledger> {
    book: Book<L>,
    share: Share<L>,
}

impl<L: Ledger> Model for Steps<L> {
    ghost Value = { ℕ };

    ghost view = { λ s. s.book.total };

    ghost invariant = { λ s. 0 < s.share.parts };
}

impl<L: Ledger> Steps<L> {
    /// A counter of the book and the whole share that `Blank::open` gives, whose count is the book's
    /// total: 0 of a new one.
    pub fn new(book: Book<L>, share: Share<L>) -> Steps<L>
        requires { 0 < share.parts }
        ensures { result ≡ book.total }
    {
        Steps { book, share }
    }

    /// Counts one comparison.
    pub fn tick(&mut self)
        ensures { self.new ≡ self.old + 1 }
    {
        self.book.add(&mut self.share, 1);
    }
}
