//! The loops of a plane, found from their starts.
ghost use Rattle.std.specs.Prelude.{◌≡◌, ◌<◌, ◌≤◌, ◌+◌, ◌*◌, false, replicate, IfOk};
ghost use Rattle.pl_rings.specs.Sides.{loops_of};
ghost use Rattle.pl_rings.specs.Starts.{HasNoStarts};
ghost use Rattle.pl_rings.specs.Traces.{LoopsBefore};

use crate::around::start_heading;
use crate::loop_trace::trace;
use crate::numbers::{column_x, point_count, row_y};
use crate::side::Side;
use pl_grid::{Loop, Plane};
use pl_units::NoMemory;
use std::alloc::Global;

/// The loops that bound a plane's filled cells, in cells. A boundary edge is a side of a filled cell towards
/// an empty one, with the filled cell on its left; x goes to the right and y up. It is followed by the edge
/// that starts where it ends, and where two start there, by the one that turns right. Each loop is a cycle of
/// edges from its least edge on, by the y and then the x of its start, then east, north, west, south; it has
/// the starts of those edges alone at which the direction changes, and that of its first. Loops are in the
/// order of their least edges. Refused only for want of memory.
pub fn loops(alloc: Global, plane: &Plane) -> Result<Vec<Loop>, NoMemory>
    ensures { IfOk result (λ v. v.items ≡ loops_of plane.now) }
{
    let bounds = plane.bounds();
    let mut marks = no_marks(alloc, point_count(bounds))?;
    let mut found = Vec::new(alloc);
    for row in 0..bounds.rows + 1 {
        add_row(alloc, plane, row, &mut marks, &mut found)?;
    }
    Ok(found)
}

/// Adds the loops whose least side starts in a row of points, counted from the bottom.
fn add_row(
    alloc: Global,
    plane: &Plane,
    row: u32,
    marks: &mut Vec<bool>,
    found: &mut Vec<Loop>,
) -> Result<(), NoMemory>
    requires row { row < plane.now.bounds.rows + 1 }
    requires before { LoopsBefore plane.now (row * (plane.now.bounds.cols + 1)) found.old.items marks.old.items }
    ensures { IfOk result (λ _. LoopsBefore plane.now ((row + 1) * (plane.now.bounds.cols + 1)) found.new.items marks.new.items) }
{
    let points = plane.bounds().cols + 1;
    let mut column = 0;
    while column < points {
        add_point(alloc, plane, row, column, marks, found)?;
        column = next_column(plane, row, column);
    }
    Ok(())
}

/// The next column after one in which a row of points may have a start: at the points between, the two cells above
/// are alike.
fn next_column(plane: &Plane, row: u32, column: u32) -> u32
    requires row { row < plane.now.bounds.rows + 1 }
    requires column { column < plane.now.bounds.cols + 1 }
    ensures later { column < result }
    ensures within { result ≤ plane.now.bounds.cols + 1 }
    ensures none { HasNoStarts plane.now row (column + 1) result }
{
    let bounds = plane.bounds();
    if column == bounds.cols {
        return column + 1;
    }
    column + plane.alike_in_row(column, row_y(bounds, row))
}

/// Adds the loop whose least side starts in a point, where there is one.
fn add_point(
    alloc: Global,
    plane: &Plane,
    row: u32,
    column: u32,
    marks: &mut Vec<bool>,
    found: &mut Vec<Loop>,
) -> Result<(), NoMemory>
    requires row { row < plane.now.bounds.rows + 1 }
    requires column { column < plane.now.bounds.cols + 1 }
    requires before { LoopsBefore plane.now (row * (plane.now.bounds.cols + 1) + column) found.old.items marks.old.items }
    ensures { IfOk result (λ _. LoopsBefore plane.now (row * (plane.now.bounds.cols + 1) + (column + 1)) found.new.items marks.new.items) }
{
    let bounds = plane.bounds();
    let x = column_x(bounds, column);
    let y = row_y(bounds, row);
    let heading = match start_heading(plane, x, y) {
        Some(heading) => heading,
        None => return Ok(()),
    };
    let place = row as usize * (bounds.cols as usize + 1) + column as usize;
    if marks[place] {
        return Ok(());
    }
    let start = Side { x, y, heading };
    let corners = trace(alloc, plane, &start, marks)?;
    found.push(Loop::of(corners))?;
    Ok(())
}

/// A list without marks.
fn no_marks(alloc: Global, size: usize) -> Result<Vec<bool>, NoMemory>
    ensures { IfOk result (λ v. v.items ≡ replicate size false) }
{
    let marks = vec![in alloc; false; size]?;
    Ok(marks)
}
