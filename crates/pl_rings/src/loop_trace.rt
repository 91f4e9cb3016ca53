//! A loop traced from corner to corner.
ghost use Rattle.std.specs.Prelude.{◌≡◌, ◌<◌, ◌*◌, ◌&&◌, not, true, length, IfOk};
ghost use Rattle.pl_grid.specs.Extent.{IsExtent};
ghost use Rattle.pl_rings.specs.Headings.{rises};
ghost use Rattle.pl_rings.specs.Sides.{around, is_side, number_of, side_count};
ghost use Rattle.pl_rings.specs.Starts.{is_start};
ghost use Rattle.pl_rings.specs.Search.{passed};
ghost use Rattle.pl_rings.specs.Traces.{RunsTo, LoopTraced};

use crate::around::{leaves, turn};
use crate::numbers::number_of;
use crate::side::{Heading, Side, end_x, end_y};
use pl_grid::{Corner, Plane};
use pl_units::NoMemory;
use std::alloc::Global;

/// The corners of the loop of a start, from it on; the starts on it get their marks, one for a point.
pub(crate) fn trace(
    alloc: Global,
    plane: &Plane,
    start: &Side,
    marks: &mut Vec<bool>,
) -> Result<Vec<Corner>, NoMemory>
    requires size { length marks.old.items * 4 ≡ side_count plane.now.bounds }
    requires start { is_start (around plane.now start.now.x start.now.y) start.now.heading ≡ true }
    ensures size { IfOk result (λ _. length marks.new.items ≡ length marks.old.items) }
    ensures traced { IfOk result (λ r. LoopTraced plane.now (number_of plane.now.bounds start.now) marks.old.items marks.new.items r.items) }
{
    let bounds = plane.bounds();
    let first = number_of(bounds, start);
    let mut corners = Vec::new(alloc);
    let mut side = *start;
    let mut number = first;
    let mut is_start = true;
    loop {
        pass(number, is_start, marks);
        corners.push(corner_of(&side))?;
        let next = run_end(plane, &side);
        is_start = turns_up(side.heading, next.heading);
        number = number_of(bounds, &next);
        side = next;
        if number == first {
            return Ok(corners);
        }
    }
}

/// Whether the side after a corner is a start: the side before it does not rise, and it does.
fn turns_up(before: Heading, after: Heading) -> bool
    ensures { result ≡ rises after && not (rises before) }
{
    after.rises() && !before.rises()
}

/// Marks the point of the side with this number, where it is a start.
fn pass(number: usize, is_start: bool, marks: &mut Vec<bool>)
    requires { number < length marks.old.items * 4 }
    ensures { marks.new.items ≡ passed number is_start marks.old.items }
{
    if is_start {
        marks[number / 4] = true;
    }
}

/// The point where a side starts.
fn corner_of(side: &Side) -> Corner
    ensures x { result.x ≡ side.now.x }
    ensures y { result.y ≡ side.now.y }
{
    Corner {
        x: side.x,
        y: side.y,
    }
}

/// The side at the corner that comes after a side.
fn run_end(plane: &Plane, side: &Side) -> Side
    requires extent { IsExtent plane.now.bounds }
    requires one { is_side plane.now side.now ≡ true }
    ensures { RunsTo plane.now side.now result }
{
    let heading = side.heading;
    let mut x = end_x(side.x, heading);
    let mut y = end_y(side.y, heading);
    while leaves(plane, x, y, heading) {
        x = end_x(x, heading);
        y = end_y(y, heading);
    }
    let turned = turn(plane, x, y, heading);
    Side {
        x,
        y,
        heading: turned,
    }
}
