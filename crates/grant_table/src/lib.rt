//! The grants of an account (AWS KMS Developer Guide, "Grants in AWS KMS").
#![tactic(auto)]

mod constraints;
mod counted;
mod grantees;
mod principals;
mod rows;
mod tables;
mod threads;

pub use constraints::Constraint;
pub use principals::{copy_of_principal, same_principal};
pub use rows::{GrantRow, copy_of_name};
pub use tables::GrantTable;
pub use threads::grant_table_crosses_threads;
