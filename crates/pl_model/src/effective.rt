//! The value of an option that holds for an object.
ghost use Rattle.std.specs.Prelude.{◌≡◌, Some};
ghost use Rattle.pl_keys.specs.Values.{IsValueOf};
ghost use Rattle.pl_model.specs.Effective.{value_for};

use crate::object::Object;
use pl_options::{Config, Key, Value};

/// The object's own value, else the configuration's.
pub(crate) fn value_for<'a>(config: &'a Config, object: &'a Object, key: Key) -> &'a Value
    ensures value { value_for config.now object.now key ≡ Some result.now }
    ensures fits { IsValueOf key result.now }
{
    match object.overrides.get(key) {
        Some(value) => value,
        None => config.get(key),
    }
}
