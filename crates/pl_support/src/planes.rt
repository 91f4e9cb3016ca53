//! The support planes of all layers.
ghost use Rattle.std.specs.Prelude.{◌≡◌, IfOk, AllPairs, false, true};
ghost use Rattle.pl_support.specs.Support.{support_of};

use crate::passes::{below_overhangs, nowhere, over_plate};
use pl_grid::{Plane, Planes};
use pl_units::NoMemory;
use std::alloc::Global;

/// The support cells of each layer, from the slices of all layers, which must have one box. A cell is support
/// where `on`, the layer's slice lacks it, and some layer above overhangs there: that one has the cell, the
/// dilation of the slice under it lacks it, and no slice between has it. With `plate_only` no slice below the
/// overhanging one has it either. Refused only for want of memory.
pub fn support(
    alloc: Global,
    slices: &Planes,
    on: bool,
    plate_only: bool,
) -> Result<Planes, NoMemory>
    requires { AllPairs (λ p q. p.bounds ≡ q.bounds) slices.now }
    ensures { IfOk result (λ s. s ≡ support_of on plate_only slices.now) }
{
    let slices = slices.planes();
    if !on {
        return Ok(Planes::of(nowhere(alloc, slices)?));
    }
    let cells = below_overhangs(alloc, slices)?;
    if !plate_only {
        return Ok(Planes::of(cells));
    }
    Ok(Planes::of(over_plate(alloc, slices, cells.as_slice())?))
}
