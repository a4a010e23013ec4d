//! Why a request was served or denied: each statement, grant and document that was asked has its
//! mark, and the marks say the ground (IAM User Guide, "Policy evaluation logic"; AWS KMS Developer
//! Guide, "Troubleshooting key access").
#![tactic(auto)]

mod certificates;
mod documents;
mod equality;
mod findings;
mod grants;
mod grounds;
mod laws;
mod lines;
mod marks;
mod runs;
mod statements;
mod subjects;

pub use certificates::{Certificate, check_certificate, explain};
pub use findings::{Finding, FindingList};
pub use grounds::Ground;
pub use laws::{
    allowed_where_none_is_denied, certificates_are_one, certificates_explain_replies,
    early_where_nothing_is_asked,
};
pub use lines::certificate_line;
pub use marks::{Mark, MarkList};
