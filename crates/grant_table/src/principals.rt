//! Principals compared.

ghost use Rattle.std.specs.Prelude.{◌≡◌, IfOk};
ghost use Rattle.grant_table.specs.Grants.{same_retiring};
ghost use Rattle.grant_table.specs.Principals.{same_principal};

use kms_names::{NoMemory, Principal};

/// Whether two principals are the same. No memory is taken.
pub fn same_principal(one: &Principal, other: &Principal) -> bool
    ensures { result ≡ same_principal one.now other.now }
{
    one == other
}

/// Whether both are there and are the same, or neither is there.
pub fn same_retiring(one: &Option<Principal>, other: &Option<Principal>) -> bool
    ensures { result ≡ same_retiring one.now other.now }
{
    match (one, other) {
        (Some(principal), Some(other)) => same_principal(principal, other),
        (None, None) => true,
        _ => false,
    }
}

/// A copy of a principal, where there is one, that equals its source.
pub fn copy_of_principal(principal: &Option<Principal>) -> Result<Option<Principal>, NoMemory>
    ensures { IfOk result (λ copy. copy ≡ principal.now) }
{
    match principal {
        Some(principal) => Ok(Some(principal.copy()?)),
        None => Ok(None),
    }
}
