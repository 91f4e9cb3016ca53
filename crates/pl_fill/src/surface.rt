//! The solid, sparse and top cells of a layer.
ghost use Rattle.std.specs.Prelude.{◌≡◌, ◌<◌, ◌&&◌, not, length, IfOk};
ghost use Rattle.std.specs.List.{All, list_any};
ghost use Rattle.pl_grid.specs.Planes.{filled, plane_of};
ghost use Rattle.pl_fill.specs.Surfaces.{layer_at, solid_of, sparse_of, top_of, HaveEqualBoxes};

use pl_grid::{Plane, Planes};
use pl_units::NoMemory;
use std::alloc::Global;

/// The cells of a layer's inner plane by how they are filled. Each is solid or sparse, and none is both; some
/// of either kind are on top.
#[derive(Debug, Drop)]
pub struct SurfaceSet {
    pub solid: Plane,
    pub sparse: Plane,
    pub top: Plane,
}

/// The surfaces of the layer `k`, which must exist, from the slices and the inner planes of all layers, which
/// must be as many and have one box. A cell of the inner plane is solid where one of the `bottom` slices below
/// or the `top` slices above lacks it, and else sparse; it is on top where the next slice lacks it. A slice
/// that does not exist lacks every cell. Refused only for want of memory.
pub fn surfaces(
    alloc: Global,
    slices: &Planes,
    inner: &Planes,
    k: u32,
    top: u8,
    bottom: u8,
) -> Result<SurfaceSet, NoMemory>
    requires boxes { HaveEqualBoxes slices.now inner.now }
    requires lengths { length slices.now ≡ length inner.now }
    requires layer { k < length inner.now }
    ensures solid { IfOk result (λ s. s.solid ≡ solid_of slices.now (layer_at inner.now k) k top bottom) }
    ensures sparse { IfOk result (λ s. s.sparse ≡ sparse_of slices.now (layer_at inner.now k) k top bottom) }
    ensures top { IfOk result (λ s. s.top ≡ top_of slices.now (layer_at inner.now k) k) }
{
    let k = k as usize;
    let slices = slices.planes();
    let inner = &inner.planes()[k];
    let sparse = sparse_cells(
        alloc,
        inner,
        slices,
        k,
        usize::from(top),
        usize::from(bottom),
    )?;
    let solid = inner.minus(alloc, &sparse)?;
    let top = top_cells(alloc, inner, slices, k)?;
    Ok(SurfaceSet { solid, sparse, top })
}

/// The cells of a layer's inner plane that each of the slices next to it has: of `bottom` below and `top` above.
fn sparse_cells(
    alloc: Global,
    inner: &Plane,
    slices: &[Plane],
    k: usize,
    top: usize,
    bottom: usize,
) -> Result<Plane, NoMemory>
    requires boxes { All (λ p. p.bounds ≡ inner.now.bounds) slices.now }
    requires layer { k < length slices.now }
    requires counts { top < 256 }
    ensures { IfOk result (λ p. p ≡ sparse_of slices.now inner.now k top bottom) }
{
    if k < bottom || slices.len() <= k + top {
        return Plane::empty(alloc, inner.bounds());
    }
    let cells = inner.copied(alloc)?;
    let below = common(alloc, cells, &slices[k - bottom..k])?;
    common(alloc, below, &slices[k + 1..k + 1 + top])
}

/// The cells of a layer's inner plane that the next slice lacks.
fn top_cells(alloc: Global, inner: &Plane, slices: &[Plane], k: usize) -> Result<Plane, NoMemory>
    requires boxes { All (λ p. p.bounds ≡ inner.now.bounds) slices.now }
    requires layer { k < length slices.now }
    ensures { IfOk result (λ p. p ≡ top_of slices.now inner.now k) }
{
    let above = k + 1;
    if slices.len() <= above {
        return whole(alloc, inner);
    }
    inner.minus(alloc, &slices[above])
}

/// The cells of a plane that each of the layers has.
fn common(alloc: Global, plane: Plane, layers: &[Plane]) -> Result<Plane, NoMemory>
    requires { All (λ p. p.bounds ≡ plane.bounds) layers.now }
    ensures { IfOk result (λ p. p ≡ plane_of plane.bounds (λ x y. filled plane x y && not (list_any (λ q. not (filled q x y)) layers.now))) }
{
    let mut kept = plane;
    let _bounds = kept.bounds();
    for layer in layers {
        let lost = kept.minus(alloc, layer)?;
        kept = kept.minus(alloc, &lost)?;
    }
    Ok(kept)
}

/// All cells of a plane.
fn whole(alloc: Global, plane: &Plane) -> Result<Plane, NoMemory>
    ensures { IfOk result (λ p. p ≡ plane_of plane.now.bounds (filled plane.now)) }
{
    let _bounds = plane.bounds();
    plane.copied(alloc)
}
