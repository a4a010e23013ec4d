//! What the server reads, writes and asks the time of: traits of the outside, the forms of them in
//! memory that tests use, and the real ones.
#![tactic(auto)]

mod again;
mod arrivals;
mod clock;
mod crowd;
mod door;
mod ear;
mod files;
mod gate;
mod guest;
mod hall;
mod held_streams;
mod input_watch;
mod link;
mod lobby;
mod memory_clock;
mod memory_door;
mod memory_ear;
mod memory_files;
mod memory_link;
mod moment;
mod moves;
mod pace;
mod quiet_link;
mod real_files;
mod seats;
mod standard;
mod system;
mod tcp_door;
mod tcp_ear;
mod tcp_link;
mod timed;
mod told_writer;

pub use clock::Clock;
pub use door::{Door, Opened};
pub use ear::{Ear, Next};
pub use files::{FileAnswer, Files};
pub use gate::{Gate, NoGate, Point};
pub use held_streams::HeldStreams;
pub use link::{Link, Move, Put, Took};
pub use memory_clock::{MemoryClock, StepClock};
pub use memory_door::MemoryDoor;
pub use memory_ear::MemoryEar;
pub use memory_files::MemoryFiles;
pub use memory_link::MemoryLink;
pub use quiet_link::{Beneath, QuietLink};
pub use real_files::RealFiles;
pub use standard::StdLink;
pub use system::SystemClock;
pub use tcp_door::TcpDoor;
pub use tcp_ear::TcpEar;
pub use tcp_link::TcpLink;
pub use told_writer::ToldWriter;
