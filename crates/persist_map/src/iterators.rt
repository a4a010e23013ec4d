//! The pairs of a map, one after another.

ghost use Rattle.std.specs.Prelude.{◌≡◌, []};
ghost use Rattle.std.specs.Iterator.{YieldsFirstBy, item_count};

use crate::parts::Part;
use std::marker::Model;
use std::sync::Arc;

/// The pairs of a map from a place on, in ascending order of their keys. Contracts see it as the list of those that
/// are left. It takes no memory.
#[derive(Drop)]
pub struct PFrom<'a, K, V> {
    pub(crate) pairs: &'a [Arc<(K, V)>],
    pub(crate) parts: &'a [Arc<Part<K, V>>],
}

impl<'a, K, V> Model for PFrom<'a, K, V> {
    ghost use Rattle.std.specs.Prelude.{List, map, ◌++◌};
    ghost use Rattle.std.specs.Arc.{arc_value};
    ghost use Rattle.persist_map.specs.Parts.{joined};

    ghost Value = { List (K × V) };

    ghost view = { λ rest. map arc_value rest.pairs.now ++ joined (map arc_value rest.parts.now) };
}

impl<'a, K, V> PFrom<'a, K, V> {
    // No pairs.
    pub(crate) fn none() -> PFrom<'a, K, V>
        ensures { result ≡ [] }
    {
        PFrom {
            pairs: &[],
            parts: &[],
        }
    }
}

impl<'a, K, V> Iterator for PFrom<'a, K, V> {
    type Item = (&'a K, &'a V);

    ghost next_gives = { YieldsFirstBy (λ item. (item.0.now, item.1.now)) (λ rest. rest) };

    ghost remaining = { item_count (λ rest. rest) };

    fn next(&mut self) -> Option<(&'a K, &'a V)> {
        loop {
            if let Some((pair, pairs)) = self.pairs.split_first() {
                self.pairs = pairs;
                return Some((&pair.0, &pair.1));
            }
            let (part, parts) = self.parts.split_first()?;
            self.pairs = part.pairs.as_slice();
            self.parts = parts;
        }
    }
}
