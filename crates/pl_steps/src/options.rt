//! The options that hold for an object, as numbers and truth values.
ghost use Rattle.std.specs.Prelude.{◌≡◌, ◌≤◌, ◌<◌, ◌≤ℤ◌, pos, true, Some};
ghost use Rattle.pl_keys.specs.declared.key.Kind.TheVariants as kinds;
ghost use Rattle.pl_keys.specs.Table.{row};
ghost use Rattle.pl_keys.specs.Values.{is_whole, IsValueOf};
ghost use Rattle.pl_layers.specs.Heights.{AreHeights};
ghost use Rattle.pl_model.specs.Effective.{value_for};
ghost use Rattle.pl_model.specs.Problem.{length_in, heights_for};
ghost use Rattle.pl_values.specs.Options.{whole_for, flag_for};
ghost use Rattle.pl_values.specs.ObjectValues.{tool_for};
ghost use Rattle.pl_steps.specs.Options.{options_for, InRange};

use pl_layers::Heights;
use pl_model::Object;
use pl_options::{Config, Key, Value};
use pl_units::Nm;

/// What the steps need of the options that hold for an object.
#[derive(Clone, Copy, Debug, PartialEq, Eq)]
pub struct ObjectOptions {
    /// How many perimeters each layer has, at most 32.
    pub perimeters: u8,
    /// Below how many slices cells are solid, at most 100.
    pub top: u8,
    /// Above how many slices cells are solid, at most 100.
    pub bottom: u8,
    /// How dense the other cells are filled, as a percentage, 0 to 100.
    pub density: u8,
    /// Top cells are ironed.
    pub ironing: bool,
    /// Overhangs are supported.
    pub support: bool,
    /// Only those are that have none of the object below them.
    pub plate_only: bool,
    /// The tool, from 0 to 3.
    pub tool: u8,
    /// The heights of the layers, each from 20,000 to 1,000,000 nm.
    pub heights: Heights,
}

impl ObjectOptions {
    /// The options of an object: its own, else the configuration's. The tool is the extruder less one, and the first
    /// one where the extruder is 0.
    pub fn of(config: &Config, object: &Object) -> ObjectOptions
        ensures options { result ≡ options_for config.now object.now }
        ensures ranges { InRange result }
    {
        ObjectOptions {
            perimeters: whole_for(config, object, Key::Perimeters),
            top: whole_for(config, object, Key::TopSolidLayers),
            bottom: whole_for(config, object, Key::BottomSolidLayers),
            density: whole_for(config, object, Key::FillDensity),
            ironing: flag_for(config, object, Key::Ironing),
            support: flag_for(config, object, Key::SupportMaterial),
            plate_only: flag_for(config, object, Key::SupportMaterialBuildplateOnly),
            tool: tool_for(config, object),
            heights: heights_for(config, object),
        }
    }
}

/// The object's own value, else the configuration's.
fn value_for<'a>(config: &'a Config, object: &'a Object, key: Key) -> &'a Value
    ensures value { value_for config.now object.now key ≡ Some result.now }
    ensures fits { IsValueOf key result.now }
{
    match object.overrides.get(key) {
        Some(value) => value,
        None => config.get(key),
    }
}

/// The number that holds for an object.
fn whole_for(config: &Config, object: &Object, key: Key) -> u8
    requires kind { is_whole (row key).kind ≡ true }
    requires small { (row key).greatest ≤ 100 }
    ensures value { result ≡ whole_for config.now object.now key }
    ensures high { result ≤ (row key).greatest }
{
    match value_for(config, object, key) {
        Value::Whole(number) => *number as u8,
        _ => 0,
    }
}

/// The yes or no that holds for an object.
fn flag_for(config: &Config, object: &Object, key: Key) -> bool
    ensures { result ≡ flag_for config.now object.now key }
{
    match value_for(config, object, key) {
        Value::Flag(flag) => *flag,
        _ => false,
    }
}

/// The length that holds for an object.
fn length_for(config: &Config, object: &Object, key: Key) -> Nm
    requires kind { (row key).kind ≡ kinds.Length }
    ensures value { result ≡ length_in (value_for config.now object.now key) }
    ensures low { pos (row key).least ≤ℤ result.0 }
    ensures high { result.0 ≤ℤ pos (row key).greatest }
{
    match value_for(config, object, key) {
        Value::Length(length) => *length,
        _ => Nm(0),
    }
}

/// The heights of an object's layers.
fn heights_for(config: &Config, object: &Object) -> Heights
    ensures heights { result ≡ heights_for config.now object.now }
    ensures fit { AreHeights result }
{
    Heights {
        first: length_for(config, object, Key::FirstLayerHeight),
        height: length_for(config, object, Key::LayerHeight),
    }
}

/// The tool of an object, from 0 on.
fn tool_for(config: &Config, object: &Object) -> u8
    ensures tool { result ≡ tool_for config.now object.now }
    ensures few { result < 4 }
{
    let extruder = whole_for(config, object, Key::Extruder);
    extruder.saturating_sub(1)
}
