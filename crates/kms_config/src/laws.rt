// What follows from the definitions alone.
ghost use Rattle.kms_config.specs.Laws.{ConfiguredPoliciesAreOfIdentities, ConfigurationsAreRead, ValuesAreJudgedOnce, OthersInByteOrder};

/// The policies that a configuration gives a caller are all of the kind `Identity`, which the laws of
/// authority presume, and so are the documents of the account's ceiling.
pub fn configured_policies_are_of_identities()
    ensures { ConfiguredPoliciesAreOfIdentities }
{}

/// Bytes are read as a configuration exactly where they are one by the grammar, and refused at a place exactly where it
/// is the first, in the order of places, that has not its form.
pub fn configurations_are_read()
    ensures { ConfigurationsAreRead }
{}

/// A JSON value configures one thing at most. Either all its places have their forms, and it configures something, or it
/// has exactly one first fault.
pub fn values_are_judged_once()
    ensures { ValuesAreJudgedOnce }
{}

/// Where the members of an object stand in byte order of their names, so do those of other names than the known ones, which
/// are judged last.
pub fn other_members_in_byte_order()
    ensures { OthersInByteOrder }
{}
