//! The operations on keys, policies, aliases and grants: what each says of the steps of a decision.
//!
//! Each is a `Request` of `account_steps`, whose `Parts` are a function of plain values.
#![tactic(auto)]

mod alias_changes;
mod grants;
mod key_changes;
mod keys;
mod policies;

pub use alias_changes::{AliasChange, ChangingAlias};
pub use grants::{CreatingGrant, RetiringGrant, RevokingGrant, creating_grant};
pub use key_changes::{ChangingKey, GettingRotationStatus, KeyChange};
pub use keys::{CreatingKey, DescribingKey};
pub use policies::{GettingPolicy, PuttingPolicy};
