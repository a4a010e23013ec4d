//! Policies that are asked about requests (IAM User Guide, "Policy evaluation logic"; AWS KMS Developer Guide, "Key
//! policies").
#![tactic(auto)]

mod allowed;
mod asking;
mod ceilings;
mod compiled;
mod element_texts;
mod elements;
mod groups;
mod kept_conditions;
mod laws;
mod masks;
mod names;
mod naming;
mod statements;
mod threads;
mod verdicts;

pub use ceilings::{CeilingVerdict, ceiling, ceiling_asks_aliases, ceiling_asks_facts};
pub use compiled::Compiled;
pub use laws::{ceiling_of_is_under, verdict_of_is_the_verdict, verdicts_are_one};
pub use masks::action_mask;
pub use threads::compiled_crosses_threads;
pub use verdicts::Verdict;
