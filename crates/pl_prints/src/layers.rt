//! The layers of an object, by their tops.
ghost use Rattle.std.specs.Prelude.{◌≡◌, ◌≢◌, ℕ, ◌<◌, ◌≤◌, ◌+◌, ◌*◌, ◌++◌, IfOk, IfSome, MatchOption, length};
ghost use Rattle.pl_layers.specs.Heights.{AreHeights, z_of};
ghost use Rattle.pl_values.specs.PrintValues.{layer_with_top};
ghost use Rattle.pl_prints.specs.Layers.{layers_in, tops_in, layer_in};

use crate::options::{heights_for, tool_for};
use pl_layers::{Heights, layer_count, z_of};
use pl_model::Object;
use pl_options::Config;
use pl_units::{Nm, NoMemory};
use std::marker::Model;

/// The tool of an object, from 0 to 3, the heights of its layers, and how many there are.
#[derive(Debug, Drop)]
pub struct ObjectLayers {
    tool: u8,
    heights: Heights,
    count: u32,
}

impl Model for ObjectLayers {
    ghost use Rattle.pl_prints.specs.Layers.{Layers, AreLayers};

    ghost Value = { Layers };

    ghost view = { λ l. record { tool = l.tool; heights = l.heights; count = l.count } };

    ghost invariant = { λ l. AreLayers (record { tool = l.tool; heights = l.heights; count = l.count }) };
}

// How many whole steps of a height there are below a distance, if it is a multiple of the height.
fn steps_in(distance: u64, height: u64) -> Option<u64>
    requires { 1 ≤ height }
    ensures { MatchOption result ((k : ℕ) → distance ≢ k * height) (λ k. distance ≡ k * height) }
{
    if distance % height == 0 {
        Some(distance / height)
    } else {
        None
    }
}

// The number of the layer that would have this top, however many layers there are.
fn number_with_top(heights: &Heights, top: &Nm) -> Option<u64>
    requires { AreHeights heights.now }
    ensures { MatchOption result ((k : ℕ) → top.now.0 ≢ z_of heights.now k) (λ k. top.now.0 ≡ z_of heights.now k) }
{
    if top.0 < heights.first.0 {
        return None;
    }
    steps_in((top.0 - heights.first.0) as u64, heights.height.0 as u64)
}

impl ObjectLayers {
    /// Those of an object under a configuration. It looks at each facet once.
    pub fn of(config: &Config, object: &Object) -> ObjectLayers
        ensures { result ≡ layers_in config.now object.now }
    {
        let heights = heights_for(config, object);
        ObjectLayers {
            tool: tool_for(config, object),
            heights,
            count: layer_count(object.mesh.get(), heights),
        }
    }

    /// The tool, from 0 to 3.
    pub fn tool(&self) -> u8
        ensures tool { result ≡ self.now.tool }
        ensures few { result < 4 }
    {
        self.tool
    }

    /// The heights of the layers.
    pub fn heights(&self) -> Heights
        ensures heights { result ≡ self.now.heights }
        ensures fit { AreHeights result }
    {
        self.heights
    }

    /// How many layers there are, at most 100,000.
    pub fn count(&self) -> u32
        ensures count { result ≡ self.now.count }
        ensures few { result ≤ 100000 }
    {
        self.count
    }

    // Puts the tops of the layers behind others.
    pub(crate) fn put_tops(&self, tops: &mut Vec<i64>) -> Result<(), NoMemory>
        ensures few { IfOk result (λ _. length tops.new.items ≤ length tops.old.items + 100000) }
        ensures tops { IfOk result (λ _. tops.new.items ≡ tops.old.items ++ tops_in self.now) }
    {
        for layer in 0..self.count {
            tops.push(z_of(self.heights, layer).0)?;
        }
        Ok(())
    }

    /// The number of the layer with this top, in nanometres above the plate, in constant time.
    pub fn layer_with_top(&self, top: &Nm) -> Option<u32>
        ensures layer { result ≡ layer_in self.now top.now.0 }
        ensures below { IfSome result (λ layer. layer < self.now.count) }
    {
        match number_with_top(&self.heights, top) {
            Some(number) if number < u64::from(self.count) => Some(number as u32),
            _ => None,
        }
    }
}

/// The number of an object's layer with this top, in nanometres above the plate. It looks at each facet once: for many tops
/// of one object take `ObjectLayers`.
pub fn layer_with_top(config: &Config, object: &Object, top: Nm) -> Option<u32>
    ensures { result ≡ layer_with_top config.now object.now top.0 }
{
    ObjectLayers::of(config, object).layer_with_top(&top)
}
