//! A service and its passes: one published history, which passes read without a lock, and a desk at which
//! they change it.
//!
//! Contracts see a pass as what it has seen and made, a desk as the published history, and each entry
//! with the number of the pass that made it.
#![tactic(auto)]

mod desk;
mod opening;
mod pass;
mod service;
mod tally;
mod threads;
mod told;

pub use account_steps::RealmFacts;
pub use desk::Desk;
pub use keepers::{Keeps, Nothing, Unmade};
pub use kms_io::{Gate, Point};
pub use kms_json::Ask;
pub use opening::{Opening, open_loaded, open_service};
pub use pass::Pass;
pub use published_account::{Answered, Realm, Unread, answer_with};
pub use service::Service;
pub use tally::Tally;
pub use threads::service_and_pass_cross_threads;
pub use told::Told;
