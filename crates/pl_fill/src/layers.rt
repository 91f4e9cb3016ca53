//! The strokes of a layer.
ghost use Rattle.std.specs.Prelude.{◌≡◌, ◌≤◌, ◌<◌, IfOk};
ghost use Rattle.std.specs.Int.{div_ceil};
ghost use Rattle.std.specs.List.{All};
ghost use Rattle.pl_grid.specs.NearStrokes.{IsNearStroke};
ghost use Rattle.pl_grid.specs.Strokes.{strokes_of};
ghost use Rattle.pl_fill.specs.Layers.{layer_axis, sparse_strokes, infill_of};

use crate::filling::strokes;
use crate::surface::SurfaceSet;
use pl_grid::{Axis, Plane, Stroke};
use pl_units::NoMemory;
use std::alloc::Global;

/// The strokes that fill the layer `k`, in half cells: those of its solid cells, line by line, then those of its
/// sparse cells on each line whose number is a multiple of 100 / `density`, rounded up; none of these at the
/// density 0. The density is a percentage, 0 to 100. Even layers go along rows, odd ones along columns.
/// Refused only for want of memory.
pub fn infill_lines(
    alloc: Global,
    surfaces: &SurfaceSet,
    k: u32,
    density: u8,
) -> Result<Vec<Stroke>, NoMemory>
    requires { density ≤ 100 }
    ensures strokes { IfOk result (λ v. v.items ≡ infill_of surfaces.now.solid surfaces.now.sparse k density) }
    ensures near { IfOk result (λ v. All IsNearStroke v.items) }
{
    let mut lines = strokes(alloc, &surfaces.solid, axis(k), 1)?;
    let sparse = sparse_lines(alloc, &surfaces.sparse, k, density)?;
    lines.extend_from_slice(sparse.as_slice())?;
    Ok(lines)
}

/// The strokes that iron the layer `k`: those of its top cells, line by line, in half cells. Even layers go along
/// rows, odd ones along columns. Refused only for want of memory.
pub fn ironing_lines(alloc: Global, top: &Plane, k: u32) -> Result<Vec<Stroke>, NoMemory>
    ensures strokes { IfOk result (λ v. v.items ≡ strokes_of (layer_axis k) 1 top.now) }
    ensures near { IfOk result (λ v. All IsNearStroke v.items) }
{
    strokes(alloc, top, axis(k), 1)
}

/// The strokes of the layer `k`'s support cells on each second line, those with even numbers, in half cells. Even
/// layers go along rows, odd ones along columns. Refused only for want of memory.
pub fn support_lines(alloc: Global, cells: &Plane, k: u32) -> Result<Vec<Stroke>, NoMemory>
    ensures strokes { IfOk result (λ v. v.items ≡ strokes_of (layer_axis k) 2 cells.now) }
    ensures near { IfOk result (λ v. All IsNearStroke v.items) }
{
    strokes(alloc, cells, axis(k), 2)
}

/// The strokes of a layer's sparse cells; none at the density 0.
fn sparse_lines(alloc: Global, sparse: &Plane, k: u32, density: u8) -> Result<Vec<Stroke>, NoMemory>
    requires { density ≤ 100 }
    ensures strokes { IfOk result (λ v. v.items ≡ sparse_strokes sparse.now k density) }
    ensures near { IfOk result (λ v. All IsNearStroke v.items) }
{
    if density == 0 {
        return Ok(Vec::new(alloc));
    }
    strokes(alloc, sparse, axis(k), step_of(density))
}

/// On how many lines one is used: 100 over the density, rounded up.
fn step_of(density: u8) -> u32
    requires above { 0 < density }
    requires below { density ≤ 100 }
    ensures step { result ≡ div_ceil 100 density }
    ensures some { 1 ≤ result }
{
    100u32.div_ceil(u32::from(density))
}

/// Along which lines a layer goes.
fn axis(k: u32) -> Axis
    ensures { result ≡ layer_axis k }
{
    if k % 2 == 0 {
        Axis::Rows
    } else {
        Axis::Columns
    }
}
