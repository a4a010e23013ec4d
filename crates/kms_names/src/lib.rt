//! The names of a key management service: accounts, principals, keys, grants and aliases.
#![tactic(auto)]

mod accounts;
mod action_sets;
mod actions;
mod aliases;
mod counter;
mod digits;
mod faults;
mod globs;
mod grants;
mod keys;
mod laws;
mod operations;
mod parts;
mod patterns;
mod places;
mod principals;
mod references;
mod regions;
mod texts;
mod threads;

pub use accounts::AccountNumber;
pub use action_sets::ActionSet;
pub use actions::Action;
pub use aliases::{AliasName, is_alias_name, read_alias};
pub use counter::Steps;
pub use digits::decimal;
pub use faults::{NameFault, NoMemory};
pub use globs::{glob, glob_nocase};
pub use grants::{GrantId, grant_text, grant_text_into, read_grant_id};
pub use keys::{KeyId, key_text, key_text_into, read_key_id};
pub use laws::{
    alias_of_reads, grant_texts_differ, key_ref_of_reads, principal_of_reads,
    principal_texts_differ, printed_alias_refers, printed_key_reads_back, printed_key_refers,
    read_key_prints_back, refers_to_one,
};
pub use operations::{GrantOp, GrantOps};
pub use parts::after;
pub use patterns::Pattern;
pub use places::is_behind;
pub use principals::{Principal, principal_len, read_principal, write_principal};
pub use references::{KeyRef, alias_arn, key_arn, read_key_ref};
pub use regions::is_region;
pub use texts::{Bytes, Text, TextList};
pub use threads::names_cross_threads;
