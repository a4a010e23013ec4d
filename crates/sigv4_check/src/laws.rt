//! What follows from the definitions alone.
ghost use Rattle.sigv4_check.specs.Header.{AuthorizationOfReads};

/// A value of the header Authorization is read as claims exactly where it makes them: the algorithm, a space, and in any order
/// the credential, the names of the signed headers and the signature, with a comma between two of them and any spaces before
/// each. Then it makes no other claims.
pub fn authorization_of_reads()
    ensures { AuthorizationOfReads }
{}
