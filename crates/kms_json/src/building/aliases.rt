// What the operations on aliases are asked.
ghost use Rattle.std.specs.Prelude.{◌≡◌};
ghost use Rattle.kms_json.specs.Building.{held};
ghost use Rattle.kms_json.specs.AliasAsks as asked;

use super::{next, page};
use crate::asks::{Changing, Reading};
use crate::given::{Given, text_if, text_in};
use std::alloc::Global;
use std::collections::VecDeque;

/// CreateAlias.
pub fn create_alias(alloc: Global, values: &mut VecDeque<Given>) -> Changing
    ensures { result ≡ asked.create_alias (held asked.put_alias_fields values.old.items) }
{
    let alias = text_in(alloc, next(values));
    let key_id = text_in(alloc, next(values));
    Changing::CreateAlias { alias, key_id }
}

/// UpdateAlias.
pub fn update_alias(alloc: Global, values: &mut VecDeque<Given>) -> Changing
    ensures { result ≡ asked.update_alias (held asked.put_alias_fields values.old.items) }
{
    let alias = text_in(alloc, next(values));
    let key_id = text_in(alloc, next(values));
    Changing::UpdateAlias { alias, key_id }
}

/// DeleteAlias.
pub fn delete_alias(alloc: Global, values: &mut VecDeque<Given>) -> Changing
    ensures { result ≡ asked.delete_alias (held asked.delete_alias_fields values.old.items) }
{
    Changing::DeleteAlias {
        alias: text_in(alloc, next(values)),
    }
}

/// ListAliases.
pub fn list_aliases(values: &mut VecDeque<Given>) -> Reading
    ensures { result ≡ asked.list_aliases (held asked.list_aliases_fields values.old.items) }
{
    let key_id = text_if(next(values));
    let page = page(values, 50);
    Reading::ListAliases { key_id, page }
}
