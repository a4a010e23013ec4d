// The principals and grants that texts of a request name.
ghost use Rattle.account_steps.specs.Steps.{Gives};
ghost use Rattle.account_steps.specs.Given.{principal_in, principal_if_given, grant_id_in};

use crate::Stop;
use crate::parts::grant_id_of;
use kms_json::Refusal;
use kms_names::{GrantId, NameFault, Principal, Text, read_principal};
use std::alloc::Global;

/// The principal whose ARN a text is.
pub fn principal_in(alloc: Global, text: &Text) -> Result<Principal, Stop>
    ensures { Gives (principal_in text.now) result }
{
    match read_principal(alloc, text.as_str()) {
        Ok(principal) => Ok(principal),
        Err(NameFault::BadArn) => Err(Stop::Refused(Refusal::InvalidArn)),
        Err(NameFault::BadAlias | NameFault::BadId) => Err(Stop::Refused(Refusal::InvalidArn)),
        Err(NameFault::NoMemory) => Err(Stop::NoMemory),
    }
}

/// The principal whose ARN a text is, where one is given.
pub fn principal_if_given(alloc: Global, text: &Option<Text>) -> Result<Option<Principal>, Stop>
    ensures { Gives (principal_if_given text.now) result }
{
    match text {
        Some(text) => Ok(Some(principal_in(alloc, text)?)),
        None => Ok(None),
    }
}

/// The id of a grant that a text is.
pub fn grant_id_in(text: &Text) -> Result<GrantId, Stop>
    ensures { Gives (grant_id_in text.now) result }
{
    match grant_id_of(text.as_str()) {
        Some(id) => Ok(id),
        None => Err(Stop::Refused(Refusal::InvalidGrantId)),
    }
}
