//! Values of keys, sought with a count of the comparisons.

ghost use Rattle.std.specs.Prelude.{◌≡◌, ◌<◌};
ghost use Rattle.std.specs.Option.{option_map};
ghost use Rattle.persist_map.specs.Pairs.{value_at};

use kms_names::Steps;
use persist_map::PMap;
use std::marker::Brand;
use std::sync::ledger::{Blank, Ledger};

// The value of a key, whose comparisons are counted from 0.
fn value_from<'a, K: Ord + Drop, V: Drop, L: Ledger>(
    map: &'a PMap<K, V>,
    key: &K,
    blank: Blank,
) -> Option<&'a V>
    requires name { blank.name ≡ L.name }
    requires parts { blank.parts ≡ L.parts }
    requires some { 0 < blank.parts }
    ensures { option_map (λ value. value.now) result ≡ value_at K.cmp map.now key.now }
{
    let (book, share) = blank.open::<L>();
    map.get(key, &mut Steps::new(book, share))
}

// The value of a key. No memory is taken.
pub(crate) fn value_in<'a, K: Ord + Drop, V: Drop>(map: &'a PMap<K, V>, key: &K) -> Option<&'a V>
    ensures { option_map (λ value. value.now) result ≡ value_at K.cmp map.now key.now }
{
    value_from::<K, V, Brand>(map, key, Blank::new(1))
}
