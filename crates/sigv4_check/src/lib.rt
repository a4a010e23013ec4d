//! Requests signed by AWS Signature Version 4: who signed a message, or why nobody did.
#![tactic(auto)]

mod authorization;
mod canonical;
mod credentials;
mod dates;
mod faults;
mod fields;
mod kept;
mod laws;
mod parts;
mod signed_names;
mod signers;
mod signing;
mod threads;

pub use credentials::{Credential, CredentialList, are_distinct};
pub use faults::AuthFault;
pub use kept::KeptKey;
pub use laws::authorization_of_reads;
pub use signers::{check, check_with};
pub use signing::signing_key;
pub use threads::credentials_cross_threads;
