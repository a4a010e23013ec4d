//! The lines of a journal of entries: written of entries, and read back as the entries whose lines
//! they are; and the first and the last line of the text.
#![tactic(auto)]

mod contexts;
mod cuts;
mod entries;
mod frames;
mod line_reading;
mod lines;
mod readings;
mod values;

pub use cuts::cut_line;
pub use frames::{End, append_end, end_in, head_in, head_line};
pub use line_reading::read_entry;
pub use lines::entry_line;
