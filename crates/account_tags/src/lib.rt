//! The operations on the tags of keys: what TagResource, UntagResource and ListResourceTags say of the steps of a decision.
//!
//! Each is a `Request` of `account_steps`, whose `Parts` are a function of plain values.
#![tactic(auto)]

mod laws;
mod listing;
mod pages;
mod tagging;

pub use laws::parts_of_tags_make_the_whole;
pub use listing::ListingTags;
pub use tagging::{TaggingKey, UntaggingKey};
