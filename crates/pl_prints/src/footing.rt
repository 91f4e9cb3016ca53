//! The cells of the bed on which the objects stand.
ghost use Rattle.std.specs.Prelude.{◌≡◌, ◌||◌, ◌≤ℤ◌, pos, IfOk, map};
ghost use Rattle.std.specs.List.{All};
ghost use Rattle.pl_grid.specs.Planes.{filled, plane_of};
ghost use Rattle.pl_fill.specs.Surfaces.{layer_at};
ghost use Rattle.pl_adhesion.specs.Bed.{IsRoomFor, bed_with};
ghost use Rattle.pl_model.specs.Problem.{cell_of};
ghost use Rattle.pl_model.specs.Printable.{CanBePrinted};
ghost use Rattle.pl_values.specs.PrintValues.{bed, objects_of, ground_of};
ghost use Rattle.pl_prints.specs.Footprints.{footprint_in, stands_at, covers, footing_of, IsPlaced, IsBed};

use pl_adhesion::put_on_bed;
use pl_grid::{Box2, Plane};
use pl_model::{Plate, Shift};
use pl_units::{Nm, NoMemory};
use std::alloc::Global;
use std::marker::Model;

/// What an object puts on the bed: its slices and its support cells, of which the first layer's alone are seen, and where
/// its instances stand.
#[derive(Drop)]
pub struct Footprint<'a> {
    slices: &'a [Plane],
    supports: &'a [Plane],
    instances: &'a [Shift],
}

impl<'a> Model for Footprint<'a> {
    ghost use Rattle.pl_fill.specs.Surfaces.{layer_at};
    ghost use Rattle.pl_prints.specs.Footprints.{Footprint};

    ghost Value = { Footprint };

    ghost view = { λ f. record { slice = layer_at f.slices.now 0; support = layer_at f.supports.now 0; instances = f.instances.now } };
}

impl<'a> Footprint<'a> {
    /// That of these slices and support cells, from the lowest layer on, at these instances.
    pub fn of(slices: &'a [Plane], supports: &'a [Plane], instances: &'a [Shift]) -> Footprint<'a>
        ensures { result ≡ record { slice = layer_at slices.now 0; support = layer_at supports.now 0; instances = instances.now } }
    {
        Footprint {
            slices,
            supports,
            instances,
        }
    }

    // Puts one instance on the bed.
    fn put_instance(&self, floor: &mut Plane, shift: &Shift)
        requires floor { IsBed floor.old }
        requires placed { IsPlaced self.now shift.now }
        ensures { floor.new ≡ plane_of bed (λ x y. filled floor.old x y || stands_at self.now shift.now x y) }
    {
        let x = bed_cell(&shift.x);
        let y = bed_cell(&shift.y);
        put_first(floor, self.slices, x, y);
        put_first(floor, self.supports, x, y);
    }

    // Puts each instance on the bed.
    fn put(&self, floor: &mut Plane)
        requires floor { IsBed floor.old }
        requires placed { All (IsPlaced self.now) self.now.instances }
        ensures { floor.new ≡ plane_of bed (λ x y. filled floor.old x y || covers self.now x y) }
    {
        for shift in self.instances {
            self.put_instance(floor, shift);
        }
    }
}

// The column or row of the bed that a length falls into.
fn bed_cell(length: &Nm) -> i32
    requires low { pos 0 ≤ℤ cell_of length.now }
    requires high { cell_of length.now ≤ℤ pos 625 }
    ensures { result ≡ cell_of length.now }
{
    length.0.div_euclid(400_000) as i32
}

// Puts the plane of the first layer on the bed, moved to a column and a row.
fn put_first(floor: &mut Plane, layers: &[Plane], x: i32, y: i32)
    requires floor { IsBed floor.old }
    requires room { IsRoomFor (layer_at layers.now 0) x y bed }
    ensures { floor.new ≡ bed_with floor.old (layer_at layers.now 0) x y }
{
    if let Some(plane) = layers.first() {
        put_on_bed(floor, plane, x, y);
    }
}

/// The cells of the bed, 625 columns and 525 rows, on which footprints stand. Each of their instances must lie in the bed.
/// Refused only for want of memory.
pub fn footing_plane(alloc: Global, footprints: &[Footprint]) -> Result<Plane, NoMemory>
    requires { All (λ f. All (IsPlaced f) f.instances) footprints.now }
    ensures { IfOk result (λ p. p ≡ footing_of footprints.now) }
{
    let bounds = Box2 {
        x0: 0,
        y0: 0,
        cols: 625,
        rows: 525,
    };
    let mut plane = Plane::empty(alloc, bounds)?;
    for footprint in footprints {
        footprint.put(&mut plane);
    }
    Ok(plane)
}

/// The cells of the bed, 625 columns and 525 rows, on which some instance of an object of the plate stands by its first
/// layer or the support in it; `footprints` are those of its objects in order. The plate must have no problem.
/// Refused only for want of memory.
pub fn ground_plane(
    alloc: Global,
    plate: &Plate,
    footprints: &[Footprint],
) -> Result<Plane, NoMemory>
    requires printable { CanBePrinted plate.now }
    requires footprints { footprints.now ≡ map (footprint_in plate.now.config) (objects_of plate.now) }
    ensures { IfOk result (λ p. p ≡ ground_of plate.now) }
{
    let _config = plate.config();
    footing_plane(alloc, footprints)
}
