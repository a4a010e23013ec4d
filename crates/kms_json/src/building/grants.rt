// What the operations on grants are asked.
ghost use Rattle.std.specs.Prelude.{◌≡◌};
ghost use Rattle.kms_json.specs.Building.{held};
ghost use Rattle.kms_json.specs.GrantAsks as asked;

use super::{next, page};
use crate::asks::{Changing, CreateGrant, ListGrants, Reading, RetiredGrant};
use crate::given::{Given, constraint_in, flag_in, operations_in, text_if, text_in, texts_in};
use std::alloc::Global;
use std::collections::VecDeque;

/// CreateGrant.
pub fn create_grant(alloc: Global, values: &mut VecDeque<Given>) -> Changing
    ensures { result ≡ asked.create_grant (held asked.create_grant_fields values.old.items) }
{
    Changing::CreateGrant(CreateGrant {
        key_id: text_in(alloc, next(values)),
        grantee: text_in(alloc, next(values)),
        retiring: text_if(next(values)),
        operations: operations_in(next(values)),
        constraint: constraint_in(next(values)),
        grant_tokens: texts_in(alloc, next(values)),
        name: text_if(next(values)),
        dry_run: flag_in(next(values)),
    })
}

// The grant of a token, where that is given, or of an id.
fn retired(alloc: Global, token: Given, key_id: Given, grant_id: Given) -> RetiredGrant
    ensures { result ≡ asked.retired token key_id grant_id }
{
    if token.is_absent() {
        RetiredGrant::OfKey {
            key_id: text_in(alloc, key_id),
            grant_id: text_in(alloc, grant_id),
        }
    } else {
        RetiredGrant::OfToken(text_in(alloc, token))
    }
}

/// RetireGrant.
pub fn retire_grant(alloc: Global, values: &mut VecDeque<Given>) -> Changing
    ensures { result ≡ asked.retire_grant (held asked.retire_grant_fields values.old.items) }
{
    let grant = retired(alloc, next(values), next(values), next(values));
    let dry_run = flag_in(next(values));
    Changing::RetireGrant { grant, dry_run }
}

/// RevokeGrant.
pub fn revoke_grant(alloc: Global, values: &mut VecDeque<Given>) -> Changing
    ensures { result ≡ asked.revoke_grant (held asked.revoke_grant_fields values.old.items) }
{
    Changing::RevokeGrant {
        key_id: text_in(alloc, next(values)),
        grant_id: text_in(alloc, next(values)),
        dry_run: flag_in(next(values)),
    }
}

/// ListGrants.
pub fn list_grants(alloc: Global, values: &mut VecDeque<Given>) -> Reading
    ensures { result ≡ asked.list_grants (held asked.list_grants_fields values.old.items) }
{
    Reading::ListGrants(ListGrants {
        key_id: text_in(alloc, next(values)),
        page: page(values, 50),
        grant_id: text_if(next(values)),
        grantee: text_if(next(values)),
    })
}

/// ListRetirableGrants.
pub fn list_retirable_grants(alloc: Global, values: &mut VecDeque<Given>) -> Reading
    ensures { result ≡ asked.list_retirable_grants (held asked.list_retirable_grants_fields values.old.items) }
{
    let retiring = text_in(alloc, next(values));
    let page = page(values, 50);
    Reading::ListRetirableGrants { retiring, page }
}
