//! Patterns with `*` and `?` that are matched in few steps, whatever is matched with what.
#![tactic(auto)]

mod cases;
mod fitting;
mod letters;
mod matching;
mod patterns;
mod plain;
mod texts;
mod threads;
mod units;

pub use letters::Letters;
pub use patterns::Pattern;
pub use texts::{matches, matches_nocase, matches_read};
pub use threads::patterns_cross_threads;
