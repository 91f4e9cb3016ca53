//! Reading what the results of slots hold: nothing where a result is that of another step.
ghost use Rattle.std.specs.Prelude.{◌≡◌, []};
ghost use Rattle.pl_fff.specs.Held.{planes_in, loops_in, inner_in, surfaces_in, strokes_in, support_cells_in, support_strokes_in, heights_in, tools_in, blocks_in, rounds_in};

use pl_grid::{Loop, Plane, Planes};
use pl_slots::FffOutput;
use pl_steps::{Loops, Strokes, Surfaces};
use pl_tower::Tools;
use pl_units::Nm;

/// The slices of the layers of an object, or `none`.
pub(crate) fn slices_or<'a>(output: &'a FffOutput, none: &'a Planes) -> &'a Planes
    requires { none.now ≡ [] }
    ensures { result.now ≡ planes_in output.now }
{
    match output {
        FffOutput::Slices(sliced) => &sliced.planes,
        _ => none,
    }
}

/// What the perimeters of an object leave of its layers, or `none`.
pub(crate) fn inner_or<'a>(output: &'a FffOutput, none: &'a Planes) -> &'a Planes
    requires { none.now ≡ [] }
    ensures { result.now ≡ inner_in output.now }
{
    match output {
        FffOutput::Perimeters(set) => &set.inner,
        _ => none,
    }
}

/// The surfaces of the layers of an object, or `none`.
pub(crate) fn surfaces_or<'a>(output: &'a FffOutput, none: &'a Surfaces) -> &'a Surfaces
    requires { none.now ≡ [] }
    ensures { result.now ≡ surfaces_in output.now }
{
    match output {
        FffOutput::Surfaces(sets) => sets,
        _ => none,
    }
}

/// The slices of the layers of an object.
pub(crate) fn planes_in(output: &FffOutput) -> &[Plane]
    ensures { result.now ≡ planes_in output.now }
{
    match output {
        FffOutput::Slices(sliced) => sliced.planes.planes(),
        _ => &[],
    }
}

/// The support cells of the layers of an object.
pub(crate) fn support_cells_in(output: &FffOutput) -> &[Plane]
    ensures { result.now ≡ support_cells_in output.now }
{
    match output {
        FffOutput::Support(set) => set.cells.planes(),
        _ => &[],
    }
}

/// The strokes along the support cells of an object.
pub(crate) fn support_strokes_in(output: &FffOutput) -> &[Strokes]
    ensures { result.now ≡ support_strokes_in output.now }
{
    match output {
        FffOutput::Support(set) => set.strokes.lists(),
        _ => &[],
    }
}

/// The loops of the perimeters of an object.
pub(crate) fn loops_in(output: &FffOutput) -> &[Loops]
    ensures { result.now ≡ loops_in output.now }
{
    match output {
        FffOutput::Perimeters(set) => set.loops.lists(),
        _ => &[],
    }
}

/// The strokes of the infill or the ironing of an object.
pub(crate) fn strokes_in(output: &FffOutput) -> &[Strokes]
    ensures { result.now ≡ strokes_in output.now }
{
    match output {
        FffOutput::Strokes(lists) => lists.lists(),
        _ => &[],
    }
}

/// The heights of a print.
pub(crate) fn heights_in(output: &FffOutput) -> &[Nm]
    ensures { result.now ≡ heights_in output.now }
{
    match output {
        FffOutput::Tower(set) => set.heights.lengths(),
        _ => &[],
    }
}

/// The tools of the heights of a print.
pub(crate) fn tools_in(output: &FffOutput) -> &[Tools]
    ensures { result.now ≡ tools_in output.now }
{
    match output {
        FffOutput::Tower(set) => set.tools.lists(),
        _ => &[],
    }
}

/// The strokes of the wipe tower of a print.
pub(crate) fn blocks_in(output: &FffOutput) -> &[Strokes]
    ensures { result.now ≡ blocks_in output.now }
{
    match output {
        FffOutput::Tower(set) => set.blocks.lists(),
        _ => &[],
    }
}

/// The loops of the skirt or the brim of a print.
pub(crate) fn rounds_in(output: &FffOutput) -> &[Loop]
    ensures { result.now ≡ rounds_in output.now }
{
    match output {
        FffOutput::Loops(loops) => loops.loops(),
        _ => &[],
    }
}
