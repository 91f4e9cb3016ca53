//! The perimeters of layers, and the cells inside them.
ghost use Rattle.std.specs.Prelude.{◌≡◌, IfOk, map};
ghost use Rattle.std.specs.List.{flat_map};
ghost use Rattle.pl_rings.specs.Rings.{eroded_times};
ghost use Rattle.pl_rings.specs.Sides.{loops_of};
ghost use Rattle.pl_steps.specs.Layers.{loops_in, inner_of};

use crate::lists::{LoopLists, Loops};
use pl_grid::{Plane, Planes};
use pl_rings::{RingSet, loops, rings};
use pl_units::NoMemory;
use std::alloc::Global;

/// The perimeters of a layer: their loops, and the plane that they leave.
#[derive(Debug, Drop)]
pub struct LayerPerimeters {
    pub loops: Loops,
    pub inner: Plane,
}

/// The perimeters of all layers, from the lowest on: the loops of each, and the planes that they leave.
#[derive(Debug, Drop)]
pub struct PerimeterSet {
    pub loops: LoopLists,
    pub inner: Planes,
}

/// The perimeters of a slice: the loops that bound it, then those of what is left after each erosion but the last, for
/// `count` perimeters in all; and what is left after as many erosions. Refused only for want of memory.
pub fn layer_perimeters(
    alloc: Global,
    slice: &Plane,
    count: u8,
) -> Result<LayerPerimeters, NoMemory>
    ensures loops { IfOk result (λ layer. layer.loops ≡ loops_in count slice.now) }
    ensures inner { IfOk result (λ layer. layer.inner ≡ eroded_times count slice.now) }
{
    let RingSet { planes, inner } = rings(alloc, slice, count)?;
    let loops = loops_around(alloc, planes.planes())?;
    Ok(LayerPerimeters { loops, inner })
}

/// The loops of each plane, in order.
fn loops_around(alloc: Global, planes: &[Plane]) -> Result<Loops, NoMemory>
    ensures { IfOk result (λ loops. loops ≡ flat_map loops_of planes.now) }
{
    let mut found = Vec::new(alloc);
    for plane in planes {
        let mut more = loops(alloc, plane)?;
        found.append(&mut more)?;
    }
    Ok(Loops::of(found))
}

/// The perimeters of all layers, `count` of each, from their slices. Refused only for want of memory.
pub fn perimeters(alloc: Global, slices: &Planes, count: u8) -> Result<PerimeterSet, NoMemory>
    ensures loops { IfOk result (λ all. all.loops ≡ map (loops_in count) slices.now) }
    ensures inner { IfOk result (λ all. all.inner ≡ inner_of count slices.now) }
{
    let mut loops = Vec::new(alloc);
    let mut inner = Vec::new(alloc);
    for slice in slices.planes() {
        let layer = layer_perimeters(alloc, slice, count)?;
        loops.push(layer.loops)?;
        inner.push(layer.inner)?;
    }
    Ok(PerimeterSet {
        loops: LoopLists::of(loops),
        inner: Planes::of(inner),
    })
}
