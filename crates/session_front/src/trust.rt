// Who is trusted to ask.
use kms_names::Principal;
use sigv4_check::CredentialList;

/// Who the caller of a message is.
#[derive(Drop)]
pub enum Trust {
    /// Whoever sends a message counts as this principal.
    Word(Principal),
    /// Whoever signs a message with one of these credentials (AWS Signature Version 4) counts as the
    /// credential's principal. A message that nobody signs is refused.
    Signed(CredentialList),
}
