//! Whether a request may be served: what the policies of keys and of callers come to, and what a request says to their
//! conditions (IAM User Guide, "Policy evaluation logic"; AWS KMS Developer Guide, "Key policies").
#![tactic(auto)]

mod callers;
mod facts;
mod grants;
mod identities;
mod laws;
mod puts;
mod questions;
mod settings;
mod standings;
mod tags;
mod threads;
mod times;

pub use callers::Callers;
pub use identities::{Identity, IdentityList, PolicyList};
pub use laws::{allowed_by_statements, without_a_ceiling};
pub use settings::{GrantSaid, KeyAliases, KindSaid, Particulars, Setting};
pub use standings::Standing;
pub use threads::callers_cross_threads;
