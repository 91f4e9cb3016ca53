//! Paths: strokes and loops.
ghost use Rattle.std.specs.Prelude.{◌≡◌, ◌++◌, ◌∷◌, [], map};
ghost use Rattle.std.specs.List.{flat_map};
ghost use Rattle.pl_units.specs.Writes.{Writes};
ghost use Rattle.pl_gcode.specs.Paths.{start_lines, extrude, extrude_along, stroke_path, loop_path, shifted_corner};

use crate::pace::Pace;
use crate::settings::Settings;
use crate::spot::Spot;
use pl_grid::{Corner, Loop, Stroke};
use pl_units::{Line, NoMemory, Text};

// Appends the move to a path's first point, and its feed.
fn put_start(out: &mut Text, settings: &Settings, pace: &Pace, at: &Spot) -> Result<(), NoMemory>
    ensures { Writes out.old out.new result (start_lines settings.now pace.now at.now) }
{
    let mut line = Line::empty();
    line.put(b"\n");
    pace.put_feed(&mut line);
    line.put(b"\nG1 F");
    settings.put_travel_feed(&mut line);
    line.put(b" F");
    at.put(&mut line);
    out.append(line.bytes())
}

// Appends a move with extrusion.
fn put_extrude(
    out: &mut Text,
    settings: &Settings,
    pace: &Pace,
    from: &Spot,
    to: &Spot,
) -> Result<(), NoMemory>
    ensures { Writes out.old out.new result (extrude settings.now pace.now from.now to.now) }
{
    let mut line = Line::empty();
    line.put(b"\n");
    line.put_fixed(pace.amount(settings, from, to), 5);
    line.put(b" E");
    to.put(&mut line);
    out.append(line.bytes())
}

// Appends the path of a stroke, moved by whole cells.
fn put_stroke(
    out: &mut Text,
    settings: &Settings,
    pace: &Pace,
    by: &Corner,
    stroke: &Stroke,
) -> Result<(), NoMemory>
    ensures { Writes out.old out.new result (stroke_path settings.now pace.now by.now stroke.now) }
{
    let start = Spot::start(stroke, by);
    put_start(out, settings, pace, &start)?;
    put_extrude(out, settings, pace, &start, &Spot::end(stroke, by))
}

/// Appends the paths of strokes, moved by whole cells.
pub(crate) fn put_strokes(
    out: &mut Text,
    settings: &Settings,
    pace: &Pace,
    by: &Corner,
    strokes: &[Stroke],
) -> Result<(), NoMemory>
    ensures { Writes out.old out.new result (flat_map (stroke_path settings.now pace.now by.now) strokes.now) }
{
    for stroke in strokes {
        put_stroke(out, settings, pace, by, stroke)?;
    }
    Ok(())
}

// Appends the moves from a loop's first corner along the others and back to it.
fn put_round(
    out: &mut Text,
    settings: &Settings,
    pace: &Pace,
    by: &Corner,
    first: &Corner,
    others: &[Corner],
) -> Result<(), NoMemory>
    ensures { Writes out.old out.new result (extrude_along settings.now pace.now (shifted_corner by.now first.now) (map (shifted_corner by.now) (others.now ++ first.now ∷ []))) }
{
    let mut from = Spot::of_corner(first, by);
    for corner in others {
        let to = Spot::of_corner(corner, by);
        put_extrude(out, settings, pace, &from, &to)?;
        from = to;
    }
    put_extrude(out, settings, pace, &from, &Spot::of_corner(first, by))
}

// Appends the path of a loop, moved by whole cells.
fn put_loop(
    out: &mut Text,
    settings: &Settings,
    pace: &Pace,
    by: &Corner,
    corners: &[Corner],
) -> Result<(), NoMemory>
    ensures { Writes out.old out.new result (loop_path settings.now pace.now by.now corners.now) }
{
    match corners {
        [] => Ok(()),
        [first, others @ ..] => {
            put_start(out, settings, pace, &Spot::of_corner(first, by))?;
            put_round(out, settings, pace, by, first, others)
        }
    }
}

/// Appends the paths of loops, moved by whole cells.
pub(crate) fn put_loops(
    out: &mut Text,
    settings: &Settings,
    pace: &Pace,
    by: &Corner,
    loops: &[Loop],
) -> Result<(), NoMemory>
    ensures { Writes out.old out.new result (flat_map (loop_path settings.now pace.now by.now) loops.now) }
{
    for path in loops {
        put_loop(out, settings, pace, by, path.corners())?;
    }
    Ok(())
}
