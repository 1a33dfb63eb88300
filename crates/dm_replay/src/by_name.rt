//! Values by the names of messages.
ghost use Rattle.std.specs.Prelude.{◌≡◌, None, OnOk, Some, if◌then◌else◌};
ghost use Rattle.std.specs.Option.{option_copied};
ghost use Rattle.dm_message.specs.declared.MsgId.{MsgId};
ghost use Rattle.dm_message.specs.Ids.{id_eq};
ghost use Rattle.dm_replay.specs.Named.{held, key_of};

use dm_link::Pid;
use dm_memory::{NoMemory, insert};
use dm_message::MsgId;
use std::alloc::Global;
use std::collections::BTreeMap;

/// A message's name, in an order.
#[derive(Clone, Copy, PartialEq, Eq, PartialOrd, Ord)]
pub struct Key {
    from: Pid,
    n: u32,
    answer: bool,
}

/// The name in its order.
fn key_of(id: MsgId) -> Key
    ensures { result ≡ key_of id }
{
    let MsgId { from, n, answer } = id;
    Key { from, n, answer }
}

/// At most one value for the name of each message.
#[derive(Drop)]
pub struct ByName<V> {
    values: BTreeMap<Key, V>,
}

#[tactic(auto, unfolding(crate::specs::Named::held), using(crate::proofs::Keys::same_key))]
impl<V> ByName<V> {
    /// No values. It takes no memory.
    pub fn new(alloc: Global) -> Self
        ensures { (i : MsgId) → held result i ≡ None }
    {
        ByName {
            values: BTreeMap::new(alloc),
        }
    }

    /// The value of a name.
    pub fn get(&self, id: MsgId) -> Option<&V>
        ensures { option_copied result ≡ held self.now id }
    {
        self.values.get(&key_of(id))
    }

    /// Takes the value of a name out.
    pub fn take(&mut self, id: MsgId) -> Option<V>
        ensures value { result ≡ held self.old id }
        ensures after { (i : MsgId) → held self.new i ≡ (if id_eq id i then None else held self.old i) }
    {
        self.values.remove(&key_of(id))
    }

    /// Sets the value of a name.
    pub fn set(&mut self, id: MsgId, value: V) -> Result<(), NoMemory>
    where
        V: Drop,
        ensures { OnOk result ((i : MsgId) → held self.new i ≡ (if id_eq id i then Some value else held self.old i)) }
    {
        insert(&mut self.values, key_of(id), value)?;
        Ok(())
    }
}
