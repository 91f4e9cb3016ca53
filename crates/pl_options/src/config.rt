//! The configuration of a plate.
ghost use Rattle.std.specs.Prelude.{◌≡◌, ◌≢◌, ◌↔◌, Some, IfOk, IsTrue};
ghost use Rattle.std.specs.Option.{option_or};
ghost use Rattle.std.specs.FinMap as map;
ghost use Rattle.pl_keys.specs.declared.key.Key.{Key};
ghost use Rattle.pl_keys.specs.Values.{IsValueOf};
ghost use Rattle.pl_options.specs.KeyMap.{IsConfig, IsDefaults};

use crate::settings::IniSet;
use crate::values::Values;
use pl_keys::{Key, Value, all_keys, default_value};
use pl_units::NoMemory;
use std::alloc::Global;
use std::marker::Model;

/// A value of each of the thirty options, of the right kind and in its range: seen as a finite map.
#[derive(Drop)]
pub struct Config {
    values: Values,
}

impl Model for Config {
    ghost use Rattle.pl_options.specs.KeyMap.{KeyMap, key_map_code, IsConfig};

    ghost Value = { KeyMap };

    ghost coded = { key_map_code };

    ghost view = { λ c. c.values };

    ghost invariant = { λ c. IsConfig c.values };
}

impl Config {
    /// The configuration that gives each option the table's default.
    pub fn defaults(alloc: Global) -> Result<Config, NoMemory>
        ensures { IfOk result IsDefaults }
    {
        let mut values = Values::new(alloc);
        for key in all_keys() {
            values.put(*key, default_value(alloc, *key)?)?;
        }
        Ok(Config { values })
    }

    /// An equal configuration.
    pub fn copied(&self) -> Result<Config, NoMemory>
        ensures { IfOk result (λ copy. copy ≡ self.now) }
    {
        Ok(Config {
            values: self.values.copied()?,
        })
    }

    /// The value of an option.
    pub fn get(&self, key: Key) -> &Value
        ensures value { map.get self.now key ≡ Some result.now }
        ensures fits { IsValueOf key result.now }
        ensures kept { IsConfig self.now }
    {
        self.values.get(key).unwrap()
    }

    /// Gives an option a value, of the right kind and in its range. The other options keep theirs; it cannot fail.
    pub fn put(&mut self, key: Key, value: Value)
        requires { IsValueOf key value }
        ensures put { self.new ≡ map.insert self.old key value }
        ensures value { map.get self.new key ≡ Some value }
        ensures others { (other : Key) → other ≢ key → map.get self.new other ≡ map.get self.old other }
    {
        self.values.put(key, value).unwrap()
    }

    /// Puts all values of a settings text. The other options keep theirs; it cannot fail.
    pub fn put_all(&mut self, set: IniSet)
        ensures { (key : Key) → map.get self.new key ≡ option_or (map.get set.values key) (map.get self.old key) }
    {
        let mut rest = set.into_values();
        for key in all_keys() {
            if let Some(value) = rest.take(*key) {
                self.put(*key, value);
            }
        }
    }

    /// Whether two configurations are equal: whether each option has the same value in both.
    pub fn same(&self, other: &Config) -> bool
        ensures equal { IsTrue result ↔ (self.now ≡ other.now) }
        ensures alike { IsTrue result ↔ ((key : Key) → map.get self.now key ≡ map.get other.now key) }
    {
        self.values.same(&other.values)
    }
}
