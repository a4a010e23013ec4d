//! The reader of key policies and identity policies (IAM User Guide, "Grammar of the IAM JSON policy
//! language"; AWS KMS Developer Guide, "Key policies").
//!
//! A policy is stated as a JSON value (`serde_json`'s), and never as bytes.
#![tactic(auto)]

mod byte_order;
mod callers;
mod conditions;
mod documents;
mod faults;
mod forms;
mod laws;
mod lists;
mod members;
mod names;
mod operators;
mod paths;
mod policies;
mod statements;
mod texts;
mod threads;

pub use byte_order::members_in_byte_order;
pub use documents::{read_policy, read_policy_value};
pub use faults::PolicyFault;
pub use laws::{
    first_fault_has_place, first_fault_in_byte_order, first_fault_is_at_the_first_place,
    places_stand_in_the_value, policy_of_reads,
};
pub use members::{first_unknown, is_known, member};
pub use paths::{Path, pointer};
pub use policies::{Named, NamedList, Policy, PolicyKind, Statement, StatementList};
pub use threads::policies_cross_threads;
