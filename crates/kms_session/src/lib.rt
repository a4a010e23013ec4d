//! One connection: messages are read, answered in their order, and the replies are written.
#![tactic(auto)]

mod outbox;
mod session;

pub use kms_io::{Clock, Gate, Link};
pub use publish_pass::{Pass, Realm, Service};
pub use session::serve_session;
pub use session_front::{
    Credential, CredentialList, Early, KeptKey, SessionEnd, Trust, early, send,
    trust_crosses_threads,
};
