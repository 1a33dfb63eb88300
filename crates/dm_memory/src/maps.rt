//! Ordered maps.
ghost use Rattle.std.specs.Prelude.{◌≡◌, IfErr, IfOk, OnErr, OnOk, None, Some};
ghost use Rattle.std.specs.BTreeMap.{IsUnchanged, Updates, get, insert_entry};

use crate::NoMemory;
use std::collections::BTreeMap;

/// Puts a value under a key, or hands both back where memory lacks. It can't fail where the key is there.
pub fn insert_or_return<K: Ord + Drop, V>(
    map: &mut BTreeMap<K, V>,
    key: K,
    value: V,
) -> Result<Option<V>, ((K, V), NoMemory)>
    ensures old { IfOk result (λ old. old ≡ get K.cmp map.old key) }
    ensures updates { OnOk result (Updates K.cmp map.old map.new key (Some value)) }
    ensures returned { IfErr result (λ back. back.0 ≡ (key, value)) }
    ensures absent { OnErr result (get K.cmp map.old key ≡ None) }
    ensures err { OnErr result (IsUnchanged map.old map.new) }
{
    match map.insert(key, value) {
        Ok(old) => Ok(old),
        Err(failed) => Err((failed.value, NoMemory(()))),
    }
}

/// Puts a value under a key. Where memory lacks both are let go. It can't fail where the key is there.
pub fn insert<K: Ord + Drop, V: Drop>(
    map: &mut BTreeMap<K, V>,
    key: K,
    value: V,
) -> Result<Option<V>, NoMemory>
    ensures old { IfOk result (λ old. old ≡ get K.cmp map.old key) }
    ensures updates { OnOk result (Updates K.cmp map.old map.new key (Some value)) }
    ensures entries { OnOk result (map.new.entries ≡ insert_entry K.cmp map.old.entries key value) }
    ensures absent { OnErr result (get K.cmp map.old key ≡ None) }
    ensures err { OnErr result (IsUnchanged map.old map.new) }
{
    match map.insert(key, value) {
        Ok(old) => Ok(old),
        Err(_) => Err(NoMemory(())),
    }
}
