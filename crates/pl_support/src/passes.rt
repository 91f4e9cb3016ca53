//! The passes over all layers: from the top down, and from the bottom up.
ghost use Rattle.std.specs.Prelude.{◌≡◌, IfOk, AllPairs, false, true};
ghost use Rattle.pl_support.specs.Support.{support_of};

use crate::steps::{
    cells_below, cells_over_plate, covered_with, highest_cells, no_cells, nothing_covered,
};
use pl_grid::Plane;
use pl_units::NoMemory;
use std::alloc::Global;

/// The support cells of each layer. One plane is carried down: a cell is in it where the layer just below is to
/// have it, unless that layer's slice has it.
pub(crate) fn below_overhangs(alloc: Global, slices: &[Plane]) -> Result<Vec<Plane>, NoMemory>
    requires { AllPairs (λ p q. p.bounds ≡ q.bounds) slices.now }
    ensures { IfOk result (λ v. v.items ≡ support_of true false slices.now) }
{
    let mut found = Vec::new(alloc);
    if slices.is_empty() {
        return Ok(found);
    }
    let mut k = slices.len() - 1;
    let mut carried = highest_cells(alloc, slices)?;
    while k > 0 {
        let next = cells_below(alloc, slices, &carried, k - 1)?;
        found.push(carried)?;
        carried = next;
        k -= 1;
    }
    found.push(carried)?;
    found.reverse();
    Ok(found)
}

/// The support cells of each layer that no slice below has, from all support cells.
pub(crate) fn over_plate(
    alloc: Global,
    slices: &[Plane],
    cells: &[Plane],
) -> Result<Vec<Plane>, NoMemory>
    requires boxes { AllPairs (λ p q. p.bounds ≡ q.bounds) slices.now }
    requires cells { cells.now ≡ support_of true false slices.now }
    ensures { IfOk result (λ v. v.items ≡ support_of true true slices.now) }
{
    let mut kept = Vec::new(alloc);
    if slices.is_empty() {
        return Ok(kept);
    }
    let mut covered = nothing_covered(alloc, slices)?;
    for k in 0..slices.len() {
        kept.push(cells_over_plate(alloc, slices, &cells[k], &covered, k)?)?;
        covered = covered_with(alloc, slices, &covered, k)?;
    }
    Ok(kept)
}

/// A plane without cells for each layer.
pub(crate) fn nowhere(alloc: Global, slices: &[Plane]) -> Result<Vec<Plane>, NoMemory>
    ensures { IfOk result (λ v. v.items ≡ support_of false false slices.now) }
{
    let mut planes = Vec::new(alloc);
    for k in 0..slices.len() {
        planes.push(no_cells(alloc, slices, k)?)?;
    }
    Ok(planes)
}
