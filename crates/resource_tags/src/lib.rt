//! The tags of a resource, in the order of their keys (AWS KMS API Reference, "Tag").
#![tactic(auto)]

mod laws;
mod maps;
mod proper;
mod tags;

pub use laws::{dropped_tags_are_gone, put_tags_are_there};
pub use maps::{MOST_TAGS, TagFault, TagMap};
pub use proper::are_proper;
pub use tags::{Tag, TagList};
