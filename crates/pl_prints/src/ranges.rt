//! The options of a plate, and how many layers and heights it has at most.
ghost use Rattle.std.specs.Prelude.{◌≤◌, length};
ghost use Rattle.std.specs.Option.{IfSome};
ghost use Rattle.pl_options.specs.KeyMap.{IsOverrides};
ghost use Rattle.pl_values.specs.ObjectValues.{layers_for};
ghost use Rattle.pl_values.specs.PrintValues.{tops_for, heights_of};
ghost use Rattle.pl_values.specs.Ranges.{IsInRange};
ghost use Rattle.pl_prints.specs.Heights.{of_object};

use crate::options::heights_for;
use pl_model::{Object, Plate};
use pl_options::{Config, Key};

// What the object of a place has of its own is in its ranges.
fn place_in_range(place: &Option<Object>)
    ensures { IfSome place.now (λ object. IsOverrides object.overrides) }
{
    if let Some(object) = place {
        let _own = object.overrides.get(Key::LayerHeight);
    }
}

/// The options of a plate are in their ranges, and so is what its objects have of their own. It changes and answers
/// nothing.
pub fn in_range(plate: &Plate)
    ensures { IsInRange plate.now }
{
    let _value = plate.config().get(Key::LayerHeight);
    for place in plate.places() {
        place_in_range(place);
    }
}

/// An object has at most 100,000 layers. It changes and answers nothing.
pub fn few_layers(config: &Config, object: &Object)
    ensures { layers_for config.now object.now ≤ 100000 }
{
    let _heights = heights_for(config, object);
    let _facets = object.mesh.get().facets();
}

// So has what stands at a place.
fn few_at_place(config: &Config, place: &Option<Object>)
    ensures { length (of_object (tops_for config.now) place.now) ≤ 100000 }
{
    if let Some(object) = place {
        few_layers(config, object);
    }
}

/// A plate has at most 1,600,000 heights. It changes and answers nothing.
pub fn few_heights(plate: &Plate)
    ensures { length (heights_of plate.now) ≤ 1600000 }
{
    for place in plate.places() {
        few_at_place(plate.config(), place);
    }
}
