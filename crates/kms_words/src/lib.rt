//! The command line of `kms_local`: its words, as `clap` reads them, and what they ask.
#![tactic(auto)]

mod asked;
mod line;
mod numbers;
mod words;

pub use asked::{Asked, LoadWords, RunWords, ServeWords, SessionAsked, SessionWords};
pub use numbers::{number_or, number_within};
pub use words::read_words;
