//! A workload that a seed determines, served through one session over a link in memory, and the five
//! lines that say what came of it.
#![tactic(auto)]

mod bodies;
mod clock;
mod facts;
mod messages;
mod replies;
mod requests;
mod run;
mod serve;
mod words;

pub use run::run_workload;
