//! The tools of each height of a print.
ghost use Rattle.std.specs.Prelude.{◌≡◌, ◌≤◌, ◌+◌, ◌||◌, ℕ, [], ◌∷◌, ◌++◌, IfOk, length, map};
ghost use Rattle.pl_tower.specs.Tools.{has, IsToolSet};
ghost use Rattle.pl_values.specs.PrintValues.{objects_of, heights_of, tools_of, tool_set_of};
ghost use Rattle.pl_prints.specs.Layers.{layers_in, is_printed, has_printed};
ghost use Rattle.pl_prints.specs.Heights.{of_object};

use crate::layers::ObjectLayers;
use pl_model::{Object, Plate};
use pl_options::Config;
use pl_tower::{ToolSet, Tools, tools_of_heights};
use pl_units::{Nm, NoMemory};
use std::alloc::Global;

/// The layers of each object of a plate, in the order of their places. It looks at each facet once. Refused only for want
/// of memory.
pub fn all_layers(alloc: Global, plate: &Plate) -> Result<Vec<ObjectLayers>, NoMemory>
    ensures few { IfOk result (λ layers. length layers.items ≤ 16) }
    ensures layers { IfOk result (λ layers. layers.items ≡ map (layers_in plate.now.config) (objects_of plate.now)) }
{
    let mut layers = Vec::new(alloc);
    for place in plate.places() {
        put_layers(plate.config(), place, &mut layers)?;
    }
    Ok(layers)
}

// Puts the layers of what stands at a place behind others.
fn put_layers(
    config: &Config,
    place: &Option<Object>,
    layers: &mut Vec<ObjectLayers>,
) -> Result<(), NoMemory>
    ensures few { IfOk result (λ _. length layers.new.items ≤ length layers.old.items + 1) }
    ensures layers { IfOk result (λ _. layers.new.items ≡ layers.old.items ++ of_object (λ object. layers_in config.now object ∷ []) place.now) }
{
    if let Some(object) = place {
        layers.push(ObjectLayers::of(config, object))?;
    }
    Ok(())
}

// The set, and the tool of an object that has a layer with this top.
fn with_object(set: ToolSet, object: &ObjectLayers, top: &Nm) -> ToolSet
    requires { IsToolSet set }
    ensures set { IsToolSet result }
    ensures value { (tool : ℕ) → has result tool ≡ (is_printed top.now.0 tool object.now || has set tool) }
{
    match object.layer_with_top(top) {
        Some(_) => set.with(object.tool()),
        None => set,
    }
}

/// The tools that are used at a height: those of the objects of which a layer has this top, in nanometres above the plate.
pub fn used_at(objects: &[ObjectLayers], top: &Nm) -> ToolSet
    ensures { result ≡ tool_set_of (has_printed objects.now top.now.0) }
{
    let mut set = ToolSet::empty();
    for object in objects {
        set = with_object(set, object, top);
    }
    set
}

// The tools that are used at each height.
fn used_along(
    alloc: Global,
    objects: &[ObjectLayers],
    tops: &[Nm],
) -> Result<Vec<ToolSet>, NoMemory>
    ensures { IfOk result (λ used. used.items ≡ map (λ top. tool_set_of (has_printed objects.now top.0)) tops.now) }
{
    let mut used = Vec::with_capacity(alloc, tops.len())?;
    for top in tops {
        used.push(used_at(objects, top))?;
    }
    Ok(used)
}

/// The tools of each height of a print in order, where `tops` are its heights. Refused only for want of memory.
pub fn tools(alloc: Global, plate: &Plate, tops: &[Nm]) -> Result<Vec<Tools>, NoMemory>
    requires { tops.now ≡ heights_of plate.now }
    ensures { IfOk result (λ tools. tools.items ≡ tools_of plate.now) }
{
    let layers = all_layers(alloc, plate)?;
    let used = used_along(alloc, &layers, tops)?;
    tools_of_heights(alloc, &used)
}
