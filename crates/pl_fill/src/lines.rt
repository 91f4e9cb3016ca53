//! The strokes along one line.
ghost use Rattle.std.specs.Prelude.{◌≡◌, ◌≤◌, ◌<◌, ◌++◌, ◌+ℤ◌, ◌*ℤ◌, pos, map, reverse, IfOk, List};
ghost use Rattle.std.specs.List.{All};
ghost use Rattle.std.specs.Int.{int_rem_euclid};
ghost use Rattle.pl_grid.specs.Extent.{IsExtent};
ghost use Rattle.pl_grid.specs.Lines.{line_count, line_runs, first_line};
ghost use Rattle.pl_grid.specs.Strokes.{is_zero, stroke_of, turned_back};
ghost use Rattle.pl_fill.specs.Turns.{used_runs, line_strokes, AreRowsOf, IsNearRun};

use pl_grid::{Axis, Plane, Run, Stroke};
use pl_units::NoMemory;
use std::alloc::Global;

/// The runs of the line with a number, where the line is a multiple of the step, and else none. The lines are the
/// rows of another plane.
pub(crate) fn runs_used(
    alloc: Global,
    plane: &Plane,
    rows: &Plane,
    along: Axis,
    number: u32,
    step: u32,
) -> Result<Vec<Run>, NoMemory>
    requires step { 1 ≤ step }
    requires number { number < line_count along plane.now.bounds }
    requires rows { AreRowsOf along plane.now rows.now }
    ensures runs { IfOk result (λ v. v.items ≡ used_runs step (line_runs along plane.now (first_line along plane.now.bounds +ℤ pos number))) }
    ensures near { IfOk result (λ v. All IsNearRun v.items) }
{
    let bounds = plane.bounds();
    let line = bounds.line(along, number);
    if !is_multiple(line, step) {
        return Ok(Vec::new(alloc));
    }
    rows.runs_in(alloc, Axis::Rows, line)
}

/// The line is a multiple of the step.
fn is_multiple(line: i32, step: u32) -> bool
    requires { 1 ≤ step }
    ensures { result ≡ is_zero (int_rem_euclid line (pos step)) }
{
    i64::from(line).rem_euclid(i64::from(step)) == 0
}

/// Appends the strokes of a line's runs, there or back.
pub(crate) fn put_line(
    along: Axis,
    back: bool,
    runs: &[Run],
    strokes: &mut Vec<Stroke>,
) -> Result<(), NoMemory>
    requires { All IsNearRun runs.now }
    ensures { IfOk result (λ _. strokes.new.items ≡ strokes.old.items ++ line_strokes along back runs.now) }
{
    if back {
        return put_back(along, runs, strokes);
    }
    put_there(along, runs, strokes)
}

/// Appends the strokes of runs in their order.
fn put_there(along: Axis, runs: &[Run], strokes: &mut Vec<Stroke>) -> Result<(), NoMemory>
    requires { All IsNearRun runs.now }
    ensures { IfOk result (λ _. strokes.new.items ≡ strokes.old.items ++ map (stroke_of along) runs.now) }
{
    for run in runs {
        strokes.push(stroke(along, run))?;
    }
    Ok(())
}

/// Appends the strokes of runs from the last to the first, each turned back.
fn put_back(along: Axis, runs: &[Run], strokes: &mut Vec<Stroke>) -> Result<(), NoMemory>
    requires { All IsNearRun runs.now }
    ensures { IfOk result (λ _. strokes.new.items ≡ strokes.old.items ++ map turned_back (reverse (map (stroke_of along) runs.now))) }
{
    for run in runs.iter().rev() {
        strokes.push(turned(&stroke(along, run)))?;
    }
    Ok(())
}

/// The stroke along a run, from the outer side of its first cell to that of its last.
fn stroke(along: Axis, run: &Run) -> Stroke
    requires { IsNearRun run.now }
    ensures { result ≡ stroke_of along run.now }
{
    let middle = middle(run);
    match along {
        Axis::Rows => Stroke {
            x0: start(run),
            y0: middle,
            x1: end(run),
            y1: middle,
        },
        Axis::Columns => Stroke {
            x0: middle,
            y0: start(run),
            x1: middle,
            y1: end(run),
        },
    }
}

/// The outer side of a run's first cell.
fn start(run: &Run) -> i32
    requires { IsNearRun run.now }
    ensures { result ≡ pos 2 *ℤ run.now.first }
{
    2 * run.first
}

/// The outer side of a run's last cell.
fn end(run: &Run) -> i32
    requires { IsNearRun run.now }
    ensures { result ≡ pos 2 *ℤ run.now.last +ℤ pos 2 }
{
    2 * run.last + 2
}

/// The middle of a run's line.
fn middle(run: &Run) -> i32
    requires { IsNearRun run.now }
    ensures { result ≡ pos 2 *ℤ run.now.line +ℤ pos 1 }
{
    2 * run.line + 1
}

/// The same stroke the other way.
fn turned(stroke: &Stroke) -> Stroke
    ensures { result ≡ turned_back stroke.now }
{
    Stroke {
        x0: stroke.x1,
        y0: stroke.y1,
        x1: stroke.x0,
        y1: stroke.y0,
    }
}
