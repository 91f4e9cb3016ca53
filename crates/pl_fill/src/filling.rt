//! The strokes along the lines of a plane.
ghost use Rattle.std.specs.Prelude.{◌≡◌, ◌≤◌, IfOk};
ghost use Rattle.std.specs.List.{All};
ghost use Rattle.pl_grid.specs.NearStrokes.{IsNearStroke};
ghost use Rattle.pl_grid.specs.Strokes.{strokes_of};
ghost use Rattle.pl_fill.specs.Turns.{AreRowsOf};

use crate::lines::{put_line, runs_used};
use pl_grid::{Axis, Plane, Stroke};
use pl_units::NoMemory;
use std::alloc::Global;

/// The strokes that cover a plane's runs along an axis, in half cells, on each line whose number is a
/// multiple of the step, from the least line on. Each second line that has a run comes back: its strokes
/// stand in reverse order and are turned. With the step 1 every run has its stroke.
/// Refused only for want of memory.
pub fn strokes(
    alloc: Global,
    plane: &Plane,
    along: Axis,
    step: u32,
) -> Result<Vec<Stroke>, NoMemory>
    requires { 1 ≤ step }
    ensures strokes { IfOk result (λ v. v.items ≡ strokes_of along step plane.now) }
    ensures near { IfOk result (λ v. All IsNearStroke v.items) }
{
    match along {
        Axis::Rows => strokes_by_rows(alloc, plane, plane, along, step),
        Axis::Columns => {
            let turned = plane.transposed(alloc)?;
            strokes_by_rows(alloc, plane, &turned, along, step)
        }
    }
}

/// The strokes of a plane along an axis, where its lines are the rows of another plane.
fn strokes_by_rows(
    alloc: Global,
    plane: &Plane,
    rows: &Plane,
    along: Axis,
    step: u32,
) -> Result<Vec<Stroke>, NoMemory>
    requires step { 1 ≤ step }
    requires rows { AreRowsOf along plane.now rows.now }
    ensures strokes { IfOk result (λ v. v.items ≡ strokes_of along step plane.now) }
    ensures near { IfOk result (λ v. All IsNearStroke v.items) }
{
    let mut strokes = Vec::new(alloc);
    let mut back = false;
    for number in 0..plane.bounds().line_count(along) {
        let runs = runs_used(alloc, plane, rows, along, number, step)?;
        if runs.is_empty() {
            continue;
        }
        put_line(along, back, runs.as_slice(), &mut strokes)?;
        back = !back;
    }
    Ok(strokes)
}
