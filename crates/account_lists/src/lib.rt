//! The operations that list: what each says of the steps of a decision, and the parts in which a list is shown.
//!
//! Each is a `Request` of `account_steps`, whose `Parts` are a function of plain values.
#![tactic(auto)]

mod laws;
mod listings;
mod lists;
mod pages;

pub use laws::markers_read_back;
pub use lists::{AccountList, KeyList, ListingAccount, ListingKey};
