//! Where the instances of an object stand.
ghost use Rattle.std.specs.Prelude.{◌≡◌, ◌≤ℤ◌, length, pos, IfOk};
ghost use Rattle.pl_model.specs.Problem.{cell_of};
ghost use Rattle.pl_model.specs.Printable.{AreInBed};
ghost use Rattle.pl_values.specs.ObjectValues.{corner_for, corners_for};
ghost use Rattle.pl_steps.specs.Corners.{IsOnBed};

use pl_grid::Corner;
use pl_model::{Object, Shift};
use pl_units::{Nm, NoMemory};
use std::alloc::Global;

/// The column or row of cells that a length falls into, one of the first 625 or the next.
fn cell_of(length: &Nm) -> i32
    requires low { pos 0 ≤ℤ cell_of length.now }
    requires high { cell_of length.now ≤ℤ pos 625 }
    ensures { result ≡ cell_of length.now }
{
    length.0.div_euclid(400_000) as i32
}

/// The bed cell of an instance.
fn corner_of(shift: &Shift) -> Corner
    requires { IsOnBed shift.now }
    ensures { result ≡ corner_for shift.now }
{
    Corner {
        x: cell_of(&shift.x),
        y: cell_of(&shift.y),
    }
}

/// The bed cell of each instance of an object, in order. Each instance must be on the bed with all its cells. Refused only
/// for want of memory.
pub fn corners(alloc: Global, object: &Object) -> Result<Vec<Corner>, NoMemory>
    requires { AreInBed object.now (length object.now.instances) }
    ensures { IfOk result (λ corners. corners.items ≡ corners_for object.now) }
{
    let mut corners = Vec::new(alloc);
    for shift in object.instances.shifts() {
        corners.push(corner_of(shift))?;
    }
    Ok(corners)
}
