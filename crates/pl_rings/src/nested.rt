//! The rings of a slice.
ghost use Rattle.std.specs.Prelude.{◌≡◌, IfOk};
ghost use Rattle.pl_rings.specs.Rings.{eroded_times, rings_of};

use pl_grid::{Plane, Planes};
use pl_units::NoMemory;
use std::alloc::Global;

/// The planes whose loops are the perimeters of a slice, from the outer one on, and the plane inside them.
#[derive(Debug, Drop)]
pub struct RingSet {
    pub planes: Planes,
    pub inner: Plane,
}

/// The slice and what is left of it after 1, 2 and so on erosions: `n` planes, the slice first, and as the
/// inner plane what is left after `n`. Refused only for want of memory.
pub fn rings(alloc: Global, slice: &Plane, n: u8) -> Result<RingSet, NoMemory>
    ensures planes { IfOk result (λ r. r.planes ≡ rings_of n slice.now) }
    ensures inner { IfOk result (λ r. r.inner ≡ eroded_times n slice.now) }
{
    let mut planes = Vec::with_capacity(alloc, usize::from(n))?;
    let mut inner = slice.copied(alloc)?;
    for _ in 0..n {
        let next = inner.erode(alloc)?;
        planes.push(inner)?;
        inner = next;
    }
    let planes = Planes::of(planes);
    Ok(RingSet { planes, inner })
}
