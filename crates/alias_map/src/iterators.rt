//! The aliases of a key, one after another.

ghost use Rattle.std.specs.Iterator.{YieldsFirstBy, item_count};

use crate::rows::AliasRow;
use persist_map::{PFrom, Shared};
use std::marker::Model;

/// The aliases of a key, in order of making. Contracts see it as the list of those that are left. It takes no memory.
#[derive(Drop)]
pub struct RowsOfKey<'a> {
    pub(crate) rows: PFrom<'a, u64, Shared<AliasRow>>,
}

impl<'a> Model for RowsOfKey<'a> {
    ghost use Rattle.std.specs.Prelude.{List};
    ghost use Rattle.alias_map.specs.declared.rows.AliasRow.{AliasRow};

    ghost Value = { List AliasRow };

    ghost use Rattle.alias_map.specs.Kept.{rows_in};

    ghost view = { λ rest. rows_in rest.rows };
}

impl<'a> Iterator for RowsOfKey<'a> {
    type Item = &'a AliasRow;

    ghost next_gives = { YieldsFirstBy (λ row. row.now) (λ rest. rest) };

    ghost remaining = { item_count (λ rest. rest) };

    fn next(&mut self) -> Option<&'a AliasRow> {
        let (_, row) = self.rows.next()?;
        Some(row.value())
    }
}
