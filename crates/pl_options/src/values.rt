//! Values of options by their keys.
ghost use Rattle.std.specs.Prelude.{◌≡◌, ◌↔◌, Some, IfOk, IfSome, OnOk, OnErr, IsOk, IsSome, IsTrue};
ghost use Rattle.std.specs.Option.{option_copied};
ghost use Rattle.std.specs.FinMap as map;
ghost use Rattle.pl_keys.specs.declared.key.Key.{Key};
ghost use Rattle.pl_options.specs.KeyMap.{key_cmp};

use indexmap::IndexMap;
use pl_keys::{Key, Value, all_keys};
use pl_units::NoMemory;
use std::alloc::Global;
use std::marker::Model;

/// Values by their keys, in no order that is seen.
#[derive(Drop)]
pub(crate) struct Values {
    entries: IndexMap<Key, Value>,
}

impl Model for Values {
    ghost use Rattle.std.specs.FinMap as map;
    ghost use Rattle.pl_options.specs.KeyMap.{KeyMap, key_map_code};

    ghost Value = { KeyMap };

    ghost coded = { key_map_code };

    ghost view = { λ v. map.from_entries v.entries.entries };
}

impl Values {
    /// No values.
    pub(crate) fn new(alloc: Global) -> Values
        ensures { result ≡ map.empty }
    {
        Values {
            entries: IndexMap::new(alloc),
        }
    }

    /// The value of a key.
    pub(crate) fn get(&self, key: Key) -> Option<&Value>
        ensures { option_copied result ≡ map.get self.now key }
    {
        self.entries.get(&key)
    }

    /// Gives a key a value. It cannot fail at a key that has one already; after want of memory nothing is changed.
    pub(crate) fn put(&mut self, key: Key, value: Value) -> Result<(), NoMemory>
        ensures ok { OnOk result (self.new ≡ map.insert self.old key value) }
        ensures err { OnErr result (self.new ≡ self.old) }
        ensures there { IsSome (map.get self.old key) → IsOk result }
    {
        self.entries.insert(key, value)?;
        Ok(())
    }

    /// Takes the value of a key out, if it has one.
    pub(crate) fn take(&mut self, key: Key) -> Option<Value>
        ensures value { result ≡ map.get self.old key }
        ensures rest { self.new ≡ map.remove self.old key }
    {
        self.entries.shift_remove(&key)
    }

    /// Equal values.
    pub(crate) fn copied(&self) -> Result<Values, NoMemory>
        ensures { IfOk result (λ copy. copy ≡ self.now) }
    {
        let alloc = *self.entries.allocator();
        let mut copy = Values::new(alloc);
        for key in all_keys() {
            if let Some(value) = self.get(*key) {
                copy.put(*key, value.copied(alloc)?)?;
            }
        }
        Ok(copy)
    }

    /// Whether both have the same values.
    pub(crate) fn same(&self, other: &Values) -> bool
        ensures { IsTrue result ↔ (self.now ≡ other.now) }
    {
        all_keys().iter().all(|key| self.same_at(other, *key))
    }

    // Whether both have the same value of a key, or none.
    fn same_at(&self, other: &Values, key: Key) -> bool
        ensures { IsTrue result ↔ (map.get self.now key ≡ map.get other.now key) }
    {
        match (self.get(key), other.get(key)) {
            (Some(one), Some(another)) => one.same(another),
            (None, None) => true,
            _ => false,
        }
    }
}
