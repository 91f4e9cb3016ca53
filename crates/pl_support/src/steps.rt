//! The support cells of a layer, from those of the layer above and the slices below.
ghost use Rattle.std.specs.Prelude.{◌≡◌, ◌+◌, ◌-◌, ◌<◌, length, IfOk, AllPairs, false, true};
ghost use Rattle.pl_grid.specs.Planes.{dilated, difference, union_of};
ghost use Rattle.pl_support.specs.Support.{covered_below, support_at};

use pl_grid::Plane;
use pl_units::NoMemory;
use std::alloc::Global;

/// The support cells of the highest layer: none. There must be a slice. Refused only for want of memory.
pub fn highest_cells(alloc: Global, slices: &[Plane]) -> Result<Plane, NoMemory>
    requires { 0 < length slices.now }
    ensures { IfOk result (λ p. p ≡ support_at true false slices.now (length slices.now - 1)) }
{
    Plane::empty(alloc, slices[slices.len() - 1].bounds())
}

/// The support cells of the layer `k`, from those of the layer above, which must exist. The slices have one box. Refused
/// only for want of memory.
pub fn cells_below(
    alloc: Global,
    slices: &[Plane],
    above: &Plane,
    k: usize,
) -> Result<Plane, NoMemory>
    requires boxes { AllPairs (λ p q. p.bounds ≡ q.bounds) slices.now }
    requires layer { k + 1 < length slices.now }
    requires above { above.now ≡ support_at true false slices.now (k + 1) }
    ensures { IfOk result (λ p. p ≡ support_at true false slices.now k) }
{
    carried_down(alloc, above, &slices[k + 1], &slices[k])
}

/// The cells that are carried past a slice: those that were carried to the slice above it and those where that
/// one overhangs, without its own.
fn carried_down(
    alloc: Global,
    carried: &Plane,
    upper: &Plane,
    lower: &Plane,
) -> Result<Plane, NoMemory>
    requires carried { carried.now.bounds ≡ upper.now.bounds }
    requires lower { lower.now.bounds ≡ upper.now.bounds }
    ensures { IfOk result (λ p. p ≡ difference (union_of carried.now (difference upper.now (dilated lower.now))) lower.now) }
{
    let near = lower.dilate(alloc)?;
    let overhang = upper.minus(alloc, &near)?;
    let all = carried.union(alloc, &overhang)?;
    all.minus(alloc, lower)
}

/// The cells that the slices below the lowest layer have: none. There must be a slice. Refused only for want of memory.
pub fn nothing_covered(alloc: Global, slices: &[Plane]) -> Result<Plane, NoMemory>
    requires { 0 < length slices.now }
    ensures { IfOk result (λ p. p ≡ covered_below slices.now 0) }
{
    Plane::empty(alloc, slices[0].bounds())
}

/// The cells that the slices of the layers up to `k` have, from those that the slices below the layer `k` have. The slices
/// have one box. Refused only for want of memory.
pub fn covered_with(
    alloc: Global,
    slices: &[Plane],
    covered: &Plane,
    k: usize,
) -> Result<Plane, NoMemory>
    requires boxes { AllPairs (λ p q. p.bounds ≡ q.bounds) slices.now }
    requires layer { k < length slices.now }
    requires covered { covered.now ≡ covered_below slices.now k }
    ensures { IfOk result (λ p. p ≡ covered_below slices.now (k + 1)) }
{
    covered.union(alloc, &slices[k])
}

/// The support cells of the layer `k` below which no slice has them, from all its support cells and from the cells that the
/// slices below have. The slices have one box. Refused only for want of memory.
pub fn cells_over_plate(
    alloc: Global,
    slices: &[Plane],
    cells: &Plane,
    covered: &Plane,
    k: usize,
) -> Result<Plane, NoMemory>
    requires boxes { AllPairs (λ p q. p.bounds ≡ q.bounds) slices.now }
    requires layer { k < length slices.now }
    requires cells { cells.now ≡ support_at true false slices.now k }
    requires covered { covered.now ≡ covered_below slices.now k }
    ensures { IfOk result (λ p. p ≡ support_at true true slices.now k) }
{
    cells.minus(alloc, covered)
}

/// The support cells of the layer `k` where there is no support: none. Refused only for want of memory.
pub fn no_cells(alloc: Global, slices: &[Plane], k: usize) -> Result<Plane, NoMemory>
    requires { k < length slices.now }
    ensures { IfOk result (λ p. p ≡ support_at false false slices.now k) }
{
    Plane::empty(alloc, slices[k].bounds())
}
