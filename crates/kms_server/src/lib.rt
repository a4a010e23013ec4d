//! A server: workers that take the connections of a door, each with a pass of one service.
#![tactic(auto)]

mod crew;
mod server;
mod worker;

pub use crew::{Kept, keep};
pub use server::{Order, Outcome, Served, serve};
