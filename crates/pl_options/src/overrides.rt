//! What an object overrides of the configuration.
ghost use Rattle.std.specs.Prelude.{◌≡◌, ◌≢◌, ◌↔◌, Some, None, IfOk, IfSome, IsSome, OnOk, OnErr, IsTrue};
ghost use Rattle.std.specs.Option.{option_copied};
ghost use Rattle.std.specs.FinMap as map;
ghost use Rattle.pl_keys.specs.declared.key.Key.{Key};
ghost use Rattle.pl_keys.specs.Keys.{is_object_key};
ghost use Rattle.pl_keys.specs.Values.{IsValueOf};
ghost use Rattle.pl_options.specs.KeyMap.{IsOverrides};

use crate::values::Values;
use pl_keys::{Key, Value};
use pl_units::NoMemory;
use std::alloc::Global;
use std::marker::Model;

/// Values of some object keys, each of the right kind and in its range: seen as a finite map. In which order they were put
/// is not seen.
#[derive(Drop)]
pub struct Overrides {
    values: Values,
}

impl Model for Overrides {
    ghost use Rattle.pl_options.specs.KeyMap.{KeyMap, key_map_code, IsOverrides};

    ghost Value = { KeyMap };

    ghost coded = { key_map_code };

    ghost view = { λ o. o.values };

    ghost invariant = { λ o. IsOverrides o.values };
}

impl Overrides {
    /// No override.
    pub fn new(alloc: Global) -> Overrides
        ensures { result ≡ map.empty }
    {
        Overrides {
            values: Values::new(alloc),
        }
    }

    /// The value of an option, if it is overridden. Only object keys are.
    pub fn get(&self, key: Key) -> Option<&Value>
        ensures value { option_copied result ≡ map.get self.now key }
        ensures fits { IfSome result (λ value. IsValueOf key value.now) }
        ensures object { IsSome result → IsTrue (is_object_key key) }
        ensures kept { IsOverrides self.now }
    {
        self.values.get(key)
    }

    /// Overrides an object key by a value, of the right kind and in its range. The others stay; after want of memory nothing
    /// is changed.
    pub fn put(&mut self, key: Key, value: Value) -> Result<(), NoMemory>
        requires object { IsTrue (is_object_key key) }
        requires fits { IsValueOf key value }
        ensures ok { OnOk result (self.new ≡ map.insert self.old key value) }
        ensures value { OnOk result (map.get self.new key ≡ Some value) }
        ensures others { (other : Key) → other ≢ key → map.get self.new other ≡ map.get self.old other }
        ensures err { OnErr result (self.new ≡ self.old) }
    {
        self.values.put(key, value)
    }

    /// Takes an override away. The others stay; where there is none, nothing is changed.
    pub fn remove(&mut self, key: Key)
        ensures removed { self.new ≡ map.remove self.old key }
        ensures gone { map.get self.new key ≡ None }
        ensures others { (other : Key) → other ≢ key → map.get self.new other ≡ map.get self.old other }
        ensures absent { map.get self.old key ≡ None → self.new ≡ self.old }
    {
        self.values.take(key);
    }

    /// Equal overrides.
    pub fn copied(&self) -> Result<Overrides, NoMemory>
        ensures { IfOk result (λ copy. copy ≡ self.now) }
    {
        Ok(Overrides {
            values: self.values.copied()?,
        })
    }

    /// Whether two are equal: whether both give the same for each option.
    pub fn same(&self, other: &Overrides) -> bool
        ensures equal { IsTrue result ↔ (self.now ≡ other.now) }
        ensures alike { IsTrue result ↔ ((key : Key) → map.get self.now key ≡ map.get other.now key) }
    {
        self.values.same(&other.values)
    }
}
