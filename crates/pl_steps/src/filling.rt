//! The strokes of layers.
ghost use Rattle.std.specs.Prelude.{◌≡◌, ◌<◌, ◌≤◌, length, IfOk};
ghost use Rattle.pl_grid.specs.Strokes.{strokes_of};
ghost use Rattle.pl_fill.specs.Layers.{layer_axis};
ghost use Rattle.pl_steps.specs.Layers.{each, infill_in, infill_at, ironing_in, ironing_at, support_in};

use crate::lists::{StrokeLists, Strokes, Surfaces};
use pl_fill::{SurfaceSet, infill_lines, ironing_lines, support_lines};
use pl_grid::{Plane, Planes};
use pl_units::NoMemory;
use std::alloc::Global;

/// The support of all layers, from the lowest on: the cells of each, and the strokes along them, in half cells.
#[derive(Debug, Drop)]
pub struct SupportSet {
    pub cells: Planes,
    pub strokes: StrokeLists,
}

/// The strokes that fill the layer `k`, in half cells: those of its solid cells, then those of its sparse cells, as dense
/// as the percentage says, 0 to 100. Refused only for want of memory.
pub fn layer_infill(
    alloc: Global,
    set: &SurfaceSet,
    k: u32,
    density: u8,
) -> Result<Strokes, NoMemory>
    requires { density ≤ 100 }
    ensures { IfOk result (λ strokes. strokes ≡ infill_in density set.now k) }
{
    let strokes = infill_lines(alloc, set, k, density)?;
    Ok(Strokes::of(strokes))
}

/// The strokes that fill each layer, at most 100,000, by their surfaces. Refused only for want of memory.
pub fn infill(alloc: Global, sets: &Surfaces, density: u8) -> Result<StrokeLists, NoMemory>
    requires few { length sets.now ≤ 100000 }
    requires density { density ≤ 100 }
    ensures { IfOk result (λ lists. lists ≡ each (length sets.now) (infill_at sets.now density)) }
{
    let mut lists = Vec::new(alloc);
    for (k, set) in sets.sets().iter().enumerate() {
        lists.push(layer_infill(alloc, set, k as u32, density)?)?;
    }
    Ok(StrokeLists::of(lists))
}

/// The strokes that iron the layer `k` by its top cells, in half cells, where it is to be ironed. Refused only for want
/// of memory.
pub fn layer_ironing(alloc: Global, top: &Plane, k: u32, on: bool) -> Result<Strokes, NoMemory>
    ensures { IfOk result (λ strokes. strokes ≡ ironing_in on top.now k) }
{
    if !on {
        return Ok(Strokes::of(Vec::new(alloc)));
    }
    let strokes = ironing_lines(alloc, top, k)?;
    Ok(Strokes::of(strokes))
}

/// The strokes that iron each layer, at most 100,000, by their surfaces. Refused only for want of memory.
pub fn ironing(alloc: Global, sets: &Surfaces, on: bool) -> Result<StrokeLists, NoMemory>
    requires { length sets.now ≤ 100000 }
    ensures { IfOk result (λ lists. lists ≡ each (length sets.now) (ironing_at on sets.now)) }
{
    let mut lists = Vec::new(alloc);
    for (k, set) in sets.sets().iter().enumerate() {
        lists.push(layer_ironing(alloc, &set.top, k as u32, on)?)?;
    }
    Ok(StrokeLists::of(lists))
}

/// The strokes that support the layer `k` by its support cells, along each second line, in half cells. Refused only for
/// want of memory.
pub fn layer_support(alloc: Global, cells: &Plane, k: u32) -> Result<Strokes, NoMemory>
    ensures { IfOk result (λ strokes. strokes ≡ strokes_of (layer_axis k) 2 cells.now) }
{
    let strokes = support_lines(alloc, cells, k)?;
    Ok(Strokes::of(strokes))
}

/// The strokes that support each layer, at most 100,000, by the support cells. Refused only for want of memory.
pub fn support_strokes(alloc: Global, cells: &Planes) -> Result<StrokeLists, NoMemory>
    requires { length cells.now ≤ 100000 }
    ensures { IfOk result (λ lists. lists ≡ each (length cells.now) (support_in cells.now)) }
{
    let mut lists = Vec::new(alloc);
    for (k, plane) in cells.planes().iter().enumerate() {
        lists.push(layer_support(alloc, plane, k as u32)?)?;
    }
    Ok(StrokeLists::of(lists))
}
