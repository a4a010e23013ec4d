//! One connection whose messages are explained: each has one line, which says how the account would decide on it and why.
#![tactic(auto)]

mod explainer;
mod lines;
mod session;

pub use explainer::Explainer;
pub use session::explain_session;
