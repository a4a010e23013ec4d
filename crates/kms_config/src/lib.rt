//! The configuration of a service: its account, its secrets, its callers and their policies, as a JSON file.
#![tactic(auto)]

mod config;
mod credentials;
mod faults;
mod forms;
mod identities;
mod laws;
mod members;
mod places;

pub use config::{Config, read_config};
pub use faults::ConfigFault;
pub use forms::if_of_account;
pub use laws::{
    configurations_are_read, configured_policies_are_of_identities, other_members_in_byte_order,
    values_are_judged_once,
};
