//! What an account keeps: the entries of its history, and the rows that their replay makes.
//!
//! Contracts see the rows as the list of their entries. Everything else is the replay of that list.
#![tactic(auto)]

mod aliases;
mod counted;
mod entries;
mod grants;
mod held;
mod keys;
mod laws;
mod replay;
mod rows;
mod threads;

pub use entries::{Entry, What};
pub use held::{HeldKey, Lent};
pub use laws::tags_are_the_last_given;
pub use replay::{days_after, is_gone, is_made_here, same_key};
pub use rows::{BYTES, ENTRIES, Rows};
pub use threads::rows_cross_threads;
