//! The surfaces of layers.
ghost use Rattle.std.specs.Prelude.{◌≡◌, ◌<◌, ◌≤◌, length, IfOk};
ghost use Rattle.pl_fill.specs.Surfaces.{HaveEqualBoxes};
ghost use Rattle.pl_steps.specs.Layers.{each, surfaces_at};

use crate::lists::Surfaces;
use pl_fill::{SurfaceSet, surfaces};
use pl_grid::Planes;
use pl_units::NoMemory;
use std::alloc::Global;

/// The surfaces of the layer `k`, which must exist, from the slices and the inner planes of all layers, which must be as
/// many and have one box: cells are solid where one of the `bottom` slices below or the `top` slices above lacks them.
/// Refused only for want of memory.
pub fn layer_surfaces(
    alloc: Global,
    slices: &Planes,
    inner: &Planes,
    k: u32,
    top: u8,
    bottom: u8,
) -> Result<SurfaceSet, NoMemory>
    requires boxes { HaveEqualBoxes slices.now inner.now }
    requires lengths { length slices.now ≡ length inner.now }
    requires layer { k < length inner.now }
    ensures { IfOk result (λ set. set ≡ surfaces_at slices.now inner.now top bottom k) }
{
    surfaces(alloc, slices, inner, k, top, bottom)
}

/// The surfaces of all layers, at most 100,000, from their slices and their inner planes, which must be as many and have
/// one box. Refused only for want of memory.
pub fn prepare(
    alloc: Global,
    slices: &Planes,
    inner: &Planes,
    top: u8,
    bottom: u8,
) -> Result<Surfaces, NoMemory>
    requires boxes { HaveEqualBoxes slices.now inner.now }
    requires lengths { length slices.now ≡ length inner.now }
    requires few { length inner.now ≤ 100000 }
    ensures { IfOk result (λ sets. sets ≡ each (length inner.now) (surfaces_at slices.now inner.now top bottom)) }
{
    let mut sets = Vec::new(alloc);
    for k in 0..inner.planes().len() as u32 {
        sets.push(layer_surfaces(alloc, slices, inner, k, top, bottom)?)?;
    }
    Ok(Surfaces::of(sets))
}
