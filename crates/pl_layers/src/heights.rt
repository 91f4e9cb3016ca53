//! The heights of an object's layers, and how many there are.
ghost use Rattle.std.specs.Prelude.{◌≡◌, ◌≤◌, ◌<◌, ◌↔◌, ◌^◌, ◌+ℤ◌, ◌≤ℤ◌, ℕ, pos, IsTrue};
ghost use Rattle.std.specs.Int.{int_div_euclid};
ghost use Rattle.pl_units.specs.Within.{Within};
ghost use Rattle.pl_layers.specs.Heights.{AreHeights, z_of, sample, exists_at, layer_count_of, layer_height_of};
ghost use Rattle.pl_layers.specs.Samples.{sample_of};
ghost use Rattle.pl_layers.specs.Turned.{reach};
ghost use Rattle.pl_stl.specs.Coordinates.{part_z};

use crate::turned::reach;
use pl_stl::{Mesh, Part};
use pl_units::Nm;

/// The height of the first layer and that of each other layer, each from 20,000 to 1,000,000 nm.
#[derive(Clone, Copy, Debug, PartialEq, Eq)]
pub struct Heights {
    pub first: Nm,
    pub height: Nm,
}

/// The top of layer `k`, in nanometres above the plate. The heights are in their ranges, and `k` is at most 2,000,000.
pub fn z_of(heights: Heights, k: u32) -> Nm
    requires heights { AreHeights heights }
    requires k { k ≤ 2000000 }
    ensures { result.0 ≡ z_of heights k }
{
    Nm(heights.first.0 + i64::from(k) * heights.height.0)
}

/// The height of layer `k` itself, in nanometres.
pub fn layer_height(heights: Heights, k: u32) -> Nm
    ensures { result ≡ layer_height_of heights k }
{
    if k == 0 {
        heights.first
    } else {
        heights.height
    }
}

/// The middle between two heights, rounded down.
fn middle(below: &Nm, above: &Nm) -> Nm
    requires below { Within (2 ^ 42) below.now.0 }
    requires above { Within (2 ^ 42) above.now.0 }
    ensures { result.0 ≡ int_div_euclid (below.now.0 +ℤ above.now.0) (pos 2) }
{
    Nm((below.0 + above.0).div_euclid(2))
}

/// The height at which layer `k` is sampled, in nanometres above the plate.
pub(crate) fn sample(heights: Heights, k: u32) -> Nm
    requires heights { AreHeights heights }
    requires k { k ≤ 2000000 }
    ensures { result.0 ≡ sample heights k }
{
    if k == 0 {
        return middle(&Nm(0), &z_of(heights, 0));
    }
    middle(&z_of(heights, k - 1), &z_of(heights, k))
}

/// How many layers are sampled below this height.
pub(crate) fn layers_below(first: u64, height: u64, tall: u64) -> u32
    requires first_low { 20000 ≤ first }
    requires first_high { first ≤ 1000000 }
    requires low { 20000 ≤ height }
    requires high { height ≤ 1000000 }
    requires tall { tall ≤ 2000000000 }
    ensures exact { (k : ℕ) → k < result ↔ sample_of first height k < tall }
    ensures few { result ≤ 100000 }
{
    if tall <= first / 2 {
        return 0;
    }
    let room = tall.saturating_sub(first + height / 2);
    1 + ((room + (height - 1)) / height) as u32
}

/// A length that is not negative.
pub(crate) fn size_of(length: &Nm) -> u64
    requires { pos 0 ≤ℤ length.now.0 }
    ensures { length.now.0 ≡ pos result }
{
    length.0 as u64
}

/// How many layers an object has: those that are sampled below its top, at most 100,000. The heights are in their ranges.
pub fn layer_count(mesh: &Mesh, heights: Heights) -> u32
    requires { AreHeights heights }
    ensures count { result ≡ layer_count_of heights mesh.now }
    ensures exact { (k : ℕ) → k < result ↔ IsTrue (exists_at heights (reach part_z mesh.now) k) }
    ensures few { result ≤ 100000 }
{
    let tall = reach(&mesh.span(Part::Z));
    layers_below(size_of(&heights.first), size_of(&heights.height), tall)
}
