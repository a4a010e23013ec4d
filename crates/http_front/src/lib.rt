//! HTTP messages (RFC 9110 and RFC 9112): the cut of a stream into messages, and the heads of replies. No call takes memory.
#![tactic(auto)]

mod closing;
mod fields;
mod head;
mod judge;
mod laws;
mod message;
mod parsed;

pub use head::{Head, write_head};
pub use judge::HttpFault;
pub use laws::{
    crowded_has_many_lines, one_answer, one_fault, one_head, one_message, still_awaited,
};
pub use message::{Cut, Step, next_message};
