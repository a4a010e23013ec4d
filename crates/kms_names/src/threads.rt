//! What threads may share.

use crate::accounts::AccountNumber;
use crate::action_sets::ActionSet;
use crate::actions::Action;
use crate::aliases::AliasName;
use crate::grants::GrantId;
use crate::keys::KeyId;
use crate::operations::GrantOps;
use crate::patterns::Pattern;
use crate::principals::Principal;
use crate::references::KeyRef;
use crate::texts::{Bytes, TextList};

fn crosses_threads<T: Send + Sync>() {}

/// Names of all kinds, and lists of texts, may be sent to threads and shared by them. Nothing is done.
pub fn names_cross_threads() {
    crosses_threads::<AccountNumber>();
    crosses_threads::<ActionSet>();
    crosses_threads::<Action>();
    crosses_threads::<AliasName>();
    crosses_threads::<GrantId>();
    crosses_threads::<KeyId>();
    crosses_threads::<GrantOps>();
    crosses_threads::<Pattern>();
    crosses_threads::<Principal>();
    crosses_threads::<KeyRef>();
    crosses_threads::<Bytes>();
    crosses_threads::<TextList>()
}
