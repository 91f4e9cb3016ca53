//! The objects of a plate, each with all that it is printed as.
ghost use Rattle.std.specs.Prelude.{◌≡◌, ◌<◌, IfOk, length, map};
ghost use Rattle.std.specs.List.{filter_map};
ghost use Rattle.std.specs.Option.{IfSome, option_copied, option_map};
ghost use Rattle.pl_fill.specs.Surfaces.{layer_at};
ghost use Rattle.pl_model.specs.Places.{IsTurned};
ghost use Rattle.pl_model.specs.Printable.{AreInBed, CanBePrinted};
ghost use Rattle.pl_whole.specs.Printed.{printed_for, objects_for, plane_in, footprint_of, data_in};

use pl_grid::Plane;
use pl_model::{Object, Plate, Shift};
use pl_options::Config;
use pl_parts::PlaceParts;
use pl_prints::{Footprint, ObjectLayers};
use pl_steps::{ObjectParts, object_parts};
use pl_units::NoMemory;
use std::alloc::Global;
use std::marker::Model;

/// An object with all that it is printed as.
#[derive(Drop)]
pub(crate) struct PrintedObject<'a> {
    instances: &'a [Shift],
    layers: ObjectLayers,
    parts: ObjectParts,
}

impl<'a> Model for PrintedObject<'a> {
    ghost use Rattle.pl_whole.specs.Printed.{Printed};

    ghost Value = { Printed };

    ghost view = { λ p. record { instances = p.instances.now; layers = p.layers; parts = p.parts } };
}

// A plane as a list of one, and no plane as one of none.
fn planes(plane: Option<&Plane>) -> &[Plane]
    ensures { layer_at result.now 0 ≡ plane_in (option_copied plane.entry) }
{
    match plane {
        Some(plane) => std::slice::from_ref(plane),
        None => &[],
    }
}

impl<'a> PrintedObject<'a> {
    // What it puts on the bed.
    fn footprint(&self) -> Footprint<'_>
        ensures { result ≡ footprint_of self.now }
    {
        Footprint::of(
            planes(self.parts.first_slice()),
            planes(self.parts.first_support()),
            self.instances,
        )
    }

    // What the G-code takes of it.
    fn place_parts(&self) -> PlaceParts<'_>
        ensures { result ≡ data_in self.now }
    {
        PlaceParts {
            corners: self.parts.corners(),
            layers: &self.layers,
            loops: self.parts.loops(),
            infill: self.parts.infill(),
            ironing: self.parts.ironing(),
            support: self.parts.support(),
        }
    }
}

// An object with all that it is printed as, where each instance is on the bed with all its cells.
fn printed_object<'a>(
    alloc: Global,
    config: &Config,
    object: &'a Object,
) -> Result<PrintedObject<'a>, NoMemory>
    requires turned { object.now.quarter < 4 }
    requires inside { AreInBed object.now (length object.now.instances) }
    ensures { IfOk result (λ printed. printed ≡ printed_for config.now object.now) }
{
    let parts = object_parts(alloc, config, object)?;
    Ok(PrintedObject {
        instances: object.instances.shifts(),
        layers: ObjectLayers::of(config, object),
        parts,
    })
}

// The object of a place, where there is one.
fn printed_place<'a>(
    alloc: Global,
    config: &Config,
    place: &'a Option<Object>,
) -> Result<Option<PrintedObject<'a>>, NoMemory>
    requires turned { IsTurned place.now }
    requires inside { IfSome place.now (λ object. AreInBed object (length object.instances)) }
    ensures { IfOk result (λ printed. printed ≡ option_map (printed_for config.now) place.now) }
{
    match place {
        Some(object) => Ok(Some(printed_object(alloc, config, object)?)),
        None => Ok(None),
    }
}

/// The object of each of the sixteen places of a plate without a problem, where there is one, with all that it is printed as.
/// Refused only for want of memory.
pub(crate) fn printed_objects(
    alloc: Global,
    plate: &Plate,
) -> Result<Vec<Option<PrintedObject<'_>>>, NoMemory>
    requires { CanBePrinted plate.now }
    ensures objects { IfOk result (λ objects. objects.items ≡ objects_for plate.now) }
    ensures sixteen { IfOk result (λ _. length plate.now.places ≡ 16) }
{
    let mut objects = Vec::new(alloc);
    for place in plate.places() {
        objects.push(printed_place(alloc, plate.config(), place)?)?;
    }
    Ok(objects)
}

/// What each object puts on the bed. Refused only for want of memory.
pub(crate) fn footprints<'a, 'b>(
    alloc: Global,
    objects: &'b [Option<PrintedObject<'a>>],
) -> Result<Vec<Footprint<'b>>, NoMemory>
    ensures { IfOk result (λ footprints. footprints.items ≡ filter_map (option_map footprint_of) objects.now) }
{
    let mut footprints = Vec::new(alloc);
    for place in objects {
        let Some(object) = place else {
            continue;
        };
        footprints.push(object.footprint())?;
    }
    Ok(footprints)
}

// What the G-code takes of the object of a place, where there is one.
fn parts_at<'a, 'b>(place: &'b Option<PrintedObject<'a>>) -> Option<PlaceParts<'b>>
    ensures { result ≡ option_map data_in place.now }
{
    match place {
        Some(object) => Some(object.place_parts()),
        None => None,
    }
}

/// What the G-code takes of the object of each place. Refused only for want of memory.
pub(crate) fn all_parts<'a, 'b>(
    alloc: Global,
    objects: &'b [Option<PrintedObject<'a>>],
) -> Result<Vec<Option<PlaceParts<'b>>>, NoMemory>
    ensures { IfOk result (λ parts. parts.items ≡ map (option_map data_in) objects.now) }
{
    let mut parts = Vec::new(alloc);
    for place in objects {
        parts.push(parts_at(place))?;
    }
    Ok(parts)
}
