//! The options that hold for an object or for the plate.
ghost use Rattle.std.specs.Prelude.{◌≡◌, ◌≤◌, ◌*◌, ◌≤ℤ◌, pos, true, Some};
ghost use Rattle.std.specs.FinMap as map;
ghost use Rattle.pl_keys.specs.declared.key.Kind.TheVariants as kinds;
ghost use Rattle.pl_keys.specs.declared.key.Key.TheVariants as keys;
ghost use Rattle.pl_keys.specs.Table.{row};
ghost use Rattle.pl_keys.specs.Values.{IsValueOf, is_whole};
ghost use Rattle.pl_layers.specs.Heights.{AreHeights};
ghost use Rattle.pl_gcode.specs.SettingsOf.{whole_in};
ghost use Rattle.pl_model.specs.Effective.{value_for};
ghost use Rattle.pl_model.specs.Problem.{length_in, heights_for};
ghost use Rattle.pl_values.specs.Options.{whole_for, flag_in, cells_in};
ghost use Rattle.pl_values.specs.ObjectValues.{tool_for};
ghost use Rattle.pl_prints.specs.Rounds.{length_option};

use pl_layers::Heights;
use pl_model::Object;
use pl_options::{Config, Key, Value};
use pl_units::Nm;

// The object's own value, else the configuration's.
fn value_for<'a>(config: &'a Config, object: &'a Object, key: Key) -> &'a Value
    ensures value { value_for config.now object.now key ≡ Some result.now }
    ensures fits { IsValueOf key result.now }
{
    match object.overrides.get(key) {
        Some(value) => value,
        None => config.get(key),
    }
}

// The length that a value is.
fn length_in(value: &Value) -> Nm
    ensures { result ≡ length_in (Some value.now) }
{
    match value {
        Value::Length(length) => *length,
        _ => Nm(0),
    }
}

/// The heights of an object's layers.
pub(crate) fn heights_for(config: &Config, object: &Object) -> Heights
    ensures heights { result ≡ heights_for config.now object.now }
    ensures fit { AreHeights result }
{
    Heights {
        first: length_in(value_for(config, object, Key::FirstLayerHeight)),
        height: length_in(value_for(config, object, Key::LayerHeight)),
    }
}

// The number of an object's tool as the option has it: from 1 on, or 0 for the first one too.
fn extruder_for(config: &Config, object: &Object) -> u8
    ensures value { result ≡ whole_for config.now object.now keys.Extruder }
    ensures few { result ≤ 4 }
{
    match value_for(config, object, Key::Extruder) {
        Value::Whole(number) => *number as u8,
        _ => 0,
    }
}

/// The tool of an object, from 0 to 3.
pub(crate) fn tool_for(config: &Config, object: &Object) -> u8
    ensures value { result ≡ tool_for config.now object.now }
    ensures few { result ≤ 3 }
{
    extruder_for(config, object).saturating_sub(1)
}

/// The whole number that an option of the configuration has.
pub(crate) fn whole_option(config: &Config, key: Key) -> u32
    requires kind { is_whole (row key).kind ≡ true }
    requires small { (row key).greatest ≤ 1000 }
    ensures value { result ≡ whole_in (map.get config.now key) }
    ensures high { result ≤ (row key).greatest }
{
    match config.get(key) {
        Value::Whole(number) => *number as u32,
        _ => 0,
    }
}

/// Whether an option of the configuration is a yes.
pub(crate) fn flag_option(config: &Config, key: Key) -> bool
    ensures { result ≡ flag_in (map.get config.now key) }
{
    match config.get(key) {
        Value::Flag(flag) => *flag,
        _ => false,
    }
}

/// The length that an option of the configuration has.
pub(crate) fn length_option(config: &Config, key: Key) -> Nm
    requires kind { (row key).kind ≡ kinds.Length }
    ensures value { result ≡ length_option config.now key }
    ensures low { pos (row key).least ≤ℤ result.0 }
    ensures high { result.0 ≤ℤ pos (row key).greatest }
{
    match config.get(key) {
        Value::Length(length) => *length,
        _ => Nm(0),
    }
}

/// How many whole cells of 400,000 nm a length has that is not below 0, and at most 1,000,000,000 nm.
pub(crate) fn cells_in(length: &Nm) -> u32
    requires low { pos 0 ≤ℤ length.now.0 }
    requires high { length.now.0 ≤ℤ pos 1000000000 }
    ensures value { result ≡ cells_in length.now }
    ensures high { pos (result * 400000) ≤ℤ length.now.0 }
{
    (length.0 as u64 / 400_000) as u32
}
