//! Why a plate can't be printed.
ghost use Rattle.std.specs.Prelude.{◌≡◌, ◌≤◌, ◌<◌, ◌*◌, ◌^◌, length, pos, Some, IfSome};
ghost use Rattle.std.specs.Int.{int_div_euclid};
ghost use Rattle.std.specs.Option.{is_none};
ghost use Rattle.std.specs.List.{list_all, All};
ghost use Rattle.pl_keys.specs.Values.{IsValueOf};
ghost use Rattle.pl_layers.specs.Heights.{AreHeights};
ghost use Rattle.pl_units.specs.Within.{Within};
ghost use Rattle.pl_model.specs.Places.{IsTurned, ArePlaces};
ghost use Rattle.pl_model.specs.Problem.{cell_of, is_among, is_in_bed, outside, length_in, heights_for, has_few_cells, problem_by, object_problem, place_problem, first_problem};

use crate::effective::value_for;
use crate::instances::Shift;
use crate::object::Object;
use pl_grid::Box2;
use pl_layers::{Heights, cells, layer_count};
use pl_options::{Config, Key, Value};
use pl_tech::Problem;
use pl_units::Nm;

/// Whether no place is filled.
pub(crate) fn is_empty(places: &[Option<Object>]) -> bool
    ensures { result ≡ list_all is_none places.now }
{
    places.iter().all(|place| place.is_none())
}

// The column or row of cells that a length falls into.
fn cell_of(length: &Nm) -> i64
    ensures { result ≡ cell_of length.now }
{
    length.0.div_euclid(400_000)
}

// Whether so many columns or rows from one on lie among the first `most`.
fn is_among(most: u32, first: i64, count: u32) -> bool
    ensures { result ≡ is_among most first count }
{
    first >= 0 && first <= i64::from(most) - i64::from(count)
}

// Whether a box that is shifted lies in the bed.
fn is_in_bed(bounds: &Box2, shift: &Shift) -> bool
    ensures { result ≡ is_in_bed bounds.now shift.now }
{
    is_among(625, cell_of(&shift.x), bounds.cols) && is_among(525, cell_of(&shift.y), bounds.rows)
}

// The first instance that leaves the bed.
fn outside(bounds: &Box2, instances: &[Shift]) -> Option<usize>
    ensures first { result ≡ outside bounds.now instances.now }
    ensures below { IfSome result (λ instance. instance < length instances.now) }
{
    instances.iter().position(|shift| !is_in_bed(bounds, shift))
}

// The length that a value is.
fn length_in(value: &Value) -> Nm
    ensures { result ≡ length_in (Some value.now) }
{
    match value {
        Value::Length(length) => *length,
        _ => Nm(0),
    }
}

// The heights of an object's layers.
fn heights_for(config: &Config, object: &Object) -> Heights
    ensures heights { result ≡ heights_for config.now object.now }
    ensures fit { AreHeights result }
{
    Heights {
        first: length_in(value_for(config, object, Key::FirstLayerHeight)),
        height: length_in(value_for(config, object, Key::LayerHeight)),
    }
}

// How many cells an object of this box and so many layers has.
fn cell_count(bounds: &Box2, layers: u32) -> u64
    requires { layers ≤ 100000 }
    ensures { result ≡ bounds.now.cols * bounds.now.rows * layers }
{
    u64::from(bounds.cols) * u64::from(bounds.rows) * u64::from(layers)
}

// Whether an object of this box and so many layers has at most 2^24 cells.
fn has_few_cells(bounds: &Box2, layers: u32) -> bool
    requires { layers ≤ 100000 }
    ensures { result ≡ has_few_cells bounds.now layers }
{
    cell_count(bounds, layers) <= 1 << 24
}

// The problem of an object at a place, by the first of its instances that leaves the bed, and whether it has few cells.
fn problem_by(place: u8, outside: Option<usize>, few: bool) -> Option<Problem>
    requires { IfSome outside (λ instance. instance < 16) }
    ensures { result ≡ problem_by place outside few }
{
    match outside {
        Some(instance) => Some(Problem::OutOfBed(place, instance as u8)),
        None if few => None,
        None => Some(Problem::TooManyCells(place)),
    }
}

// The problem of an object at a place.
fn object_problem(config: &Config, place: u8, object: &Object) -> Option<Problem>
    requires { object.now.quarter < 4 }
    ensures { result ≡ object_problem config.now place object.now }
{
    let mesh = object.mesh.get();
    let bounds = cells(mesh, object.quarter);
    let heights = heights_for(config, object);
    let layers = layer_count(mesh, heights);
    let few = has_few_cells(&bounds, layers);
    let instances = object.instances.shifts();
    let first = outside(&bounds, instances);
    problem_by(place, first, few)
}

// The problem of what stands at a place.
fn place_problem(config: &Config, place: u8, object: &Option<Object>) -> Option<Problem>
    requires { IsTurned object.now }
    ensures { result ≡ place_problem config.now place object.now }
{
    match object {
        Some(object) => object_problem(config, place, object),
        None => None,
    }
}

/// The first problem of the objects in sixteen places.
pub(crate) fn first_problem(config: &Config, places: &[Option<Object>]) -> Option<Problem>
    requires { ArePlaces places.now }
    ensures { result ≡ first_problem config.now 0 places.now }
{
    for place in 0..16u8 {
        let found = place_problem(config, place, &places[usize::from(place)]);
        if found.is_some() {
            return found;
        }
    }
    None
}
