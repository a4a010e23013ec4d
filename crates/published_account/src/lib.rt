//! The account as it is published: the history's log, the account with the makers of its entries in two copies, of
//! which readers enter one without a lock, and what a read is answered there.
//!
//! Contracts see a published account as the book of its history, its facts, the number of passes, how many entries were
//! loaded, and each entry with the number of the pass that made it, which is 0 where it was loaded.
#![tactic(auto)]

mod answered;
mod entrance;
mod prefix;
mod published;
mod realm;
mod rule;
mod showing;
mod threads;

pub use answered::{Answered, Unread, answer_with};
pub use entrance::{Entrance, Found, Standing};
pub use prefix::{Glimpse, Prefix, Tip, Unnamed};
pub use published::Published;
pub use realm::Realm;
pub use rule::{Copies, Notes, Window};
pub use showing::{show, warm};
pub use threads::published_crosses_threads;
