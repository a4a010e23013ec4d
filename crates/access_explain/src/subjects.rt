// What questions are about.
ghost use Rattle.std.specs.Prelude.{◌≡◌};
ghost use Rattle.access_explain.specs.Findings.{subject_of};

use account_steps::{OfGrants, Question};
use kms_names::{GrantId, KeyId};

/// What a question is about.
#[derive(Clone, Copy)]
pub enum Subject {
    /// A key.
    Key(KeyId),
    /// A resource that is no key.
    Other,
    /// A grant of a key, which is to be retired.
    Retiring(KeyId, GrantId),
}

/// What a question is about.
pub fn subject_of(question: &Question) -> Subject
    ensures { result ≡ subject_of question.now }
{
    let Some(key) = question.key else {
        return Subject::Other;
    };
    match &question.grants {
        OfGrants::Retire(grant) => Subject::Retiring(key, *grant),
        OfGrants::Nothing | OfGrants::Permit(_) | OfGrants::Child { .. } => Subject::Key(key),
    }
}
