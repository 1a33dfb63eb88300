//! Maps in the order of insertion, of the crate `indexmap`.
ghost use Rattle.std.specs.Prelude.{◌≡◌, IfOk, OnErr, OnOk, None, Some};
ghost use Rattle.indexmap.specs.IndexMap.{IsUnchanged, Updates, get, insert_entry};

use crate::NoMemory;
use indexmap::IndexMap;
use std::hash::Hash;

/// Puts a value under a key: a new key comes last. Where memory lacks both are let go. It can't fail where the key is there.
pub fn insert<K: Eq + Hash + Drop, V: Drop>(
    map: &mut IndexMap<K, V>,
    key: K,
    value: V,
) -> Result<Option<V>, NoMemory>
    ensures old { IfOk result (λ old. old ≡ get K.eq map.old key) }
    ensures updates { OnOk result (Updates K.eq map.old map.new key (Some value)) }
    ensures entries { OnOk result (map.new.entries ≡ insert_entry K.eq map.old.entries key value) }
    ensures absent { OnErr result (get K.eq map.old key ≡ None) }
    ensures err { OnErr result (IsUnchanged map.old map.new) }
{
    match map.insert(key, value) {
        Ok(old) => Ok(old),
        Err(_) => Err(NoMemory(())),
    }
}
