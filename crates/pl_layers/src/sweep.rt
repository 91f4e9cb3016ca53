//! The layers of a mesh, one after another from the lowest on.
ghost use Rattle.std.specs.Prelude.{◌≡◌, ◌≤◌, ◌<◌, ◌≤ℤ◌, pos, if◌then◌else◌, ◌++◌, ◌∷◌, [], ◌^◌, ◌+ℤ◌, ◌+◌, ℕ, Bool, true, false, IsTrue, not, int_lt, IfOk, OnOk, OnErr, length, slice_index_or};
ghost use Rattle.std.specs.List.{filter, count_by, All};
ghost use Rattle.std.specs.List.Sorted.{IsNonDecreasingBy};
ghost use Rattle.pl_units.specs.Within.{Within};
ghost use Rattle.pl_stl.specs.Mesh.{IsMesh, IsNearFacet};
ghost use Rattle.pl_stl.specs.declared.mesh.Facet.{Facet};
ghost use Rattle.pl_layers.specs.declared.sweep.Start.{Start};
ghost use Rattle.pl_layers.specs.Turned.{turned_mesh, box_of};
ghost use Rattle.pl_layers.specs.Heights.{AreHeights, sample, layer_count_of};
ghost use Rattle.pl_layers.specs.Near.{AllClose};
ghost use Rattle.pl_layers.specs.Slices.{slice_of};
ghost use Rattle.pl_layers.specs.Sweeps.{begins_by, ends_by, facet_of, IsStart, AreLeft, base_of};

use crate::heights::{Heights, layers_below, sample, size_of};
use crate::slices::{slice_facets, stays_down, sum};
use crate::turned::{box_over, lowest, span_x, span_y, turned_facet};
use pl_grid::{Box2, Plane};
use pl_stl::{Facet, Mesh, Part, Point3};
use pl_units::{Nm, NoMemory};
use std::alloc::Global;
use std::marker::Model;

/// A facet by its place in the mesh, and the first layer that may reach it.
#[derive(Clone, Copy, Debug)]
pub(crate) struct Start {
    pub first: u32,
    pub facet: u32,
}

/// How far a height lies above another.
fn height_over(floor: &Nm, low: &Nm) -> u64
    requires floor { Within (10 ^ 9) floor.now.0 }
    requires low { Within (10 ^ 9) low.now.0 }
    requires above { floor.now.0 ≤ℤ low.now.0 }
    ensures value { low.now.0 ≡ floor.now.0 +ℤ pos result }
    ensures near { result ≤ 2000000000 }
{
    (low.0 - floor.0) as u64
}

/// How many layers are sampled below a height, where the mesh begins at `floor`.
fn layers_to(heights: Heights, floor: &Nm, low: &Nm) -> u32
    requires heights { AreHeights heights }
    requires floor { Within (10 ^ 9) floor.now.0 }
    requires low { Within (10 ^ 9) low.now.0 }
    ensures { (k : ℕ) → k < result → IsTrue (int_lt (floor.now.0 +ℤ sample heights k) low.now.0) }
{
    if low.0 < floor.0 {
        return 0;
    }
    layers_below(
        size_of(&heights.first),
        size_of(&heights.height),
        height_over(floor, low),
    )
}

/// The first layer that may reach a facet.
fn first_layer(heights: Heights, floor: &Nm, facet: &Facet) -> u32
    requires heights { AreHeights heights }
    requires floor { Within (10 ^ 9) floor.now.0 }
    requires facet { IsNearFacet facet.now }
    ensures { (k : ℕ) → k < result → begins_by (floor.now.0 +ℤ sample heights k) facet.now ≡ false }
{
    layers_to(heights, floor, &lowest(facet))
}

/// An entry for each facet, in the order of the mesh.
fn starts_of(
    alloc: Global,
    facets: &[Facet],
    quarter: u8,
    heights: Heights,
    floor: &Nm,
) -> Result<Vec<Start>, NoMemory>
    requires quarter { quarter < 4 }
    requires facets { IsMesh facets.now }
    requires heights { AreHeights heights }
    requires floor { Within (10 ^ 9) floor.now.0 }
    ensures starts { IfOk result (λ v. All (IsStart quarter facets.now heights floor.now.0) v.items) }
    ensures counted { IfOk result (λ v. (p : Facet → Bool) → count_by (λ s. p (facet_of quarter facets.now s)) v.items ≡ count_by p (turned_mesh quarter facets.now)) }
{
    let mut starts = Vec::new(alloc);
    for i in 0..facets.len() {
        let first = first_layer(heights, floor, &turned_facet(&facets[i], quarter));
        starts.push(Start {
            first,
            facet: i as u32,
        })?;
    }
    Ok(starts)
}

/// An entry for each facet, by their first layers.
fn order_of(
    alloc: Global,
    facets: &[Facet],
    quarter: u8,
    heights: Heights,
    floor: &Nm,
) -> Result<Vec<Start>, NoMemory>
    requires quarter { quarter < 4 }
    requires facets { IsMesh facets.now }
    requires heights { AreHeights heights }
    requires floor { Within (10 ^ 9) floor.now.0 }
    ensures starts { IfOk result (λ v. All (IsStart quarter facets.now heights floor.now.0) v.items) }
    ensures counted { IfOk result (λ v. (p : Facet → Bool) → count_by (λ s. p (facet_of quarter facets.now s)) v.items ≡ count_by p (turned_mesh quarter facets.now)) }
    ensures rising { IfOk result (λ v. IsNonDecreasingBy (λ (s : Start). s.first) v.items) }
{
    let mut order = starts_of(alloc, facets, quarter, heights, floor)?;
    order.sort_unstable_by_key(|s| s.first);
    Ok(order)
}

/// Lets the facets go that end by this height.
fn drop_ended(active: &mut Vec<Facet>, z: &Nm)
    ensures { active.new.items ≡ filter (λ f. not (ends_by z.now.0 f)) active.old.items }
{
    active.retain(|f| !stays_down(z, f));
}

/// Puts a facet at the end unless it ends by this height.
fn put_unended(active: &mut Vec<Facet>, z: &Nm, facet: Facet) -> Result<(), NoMemory>
    ensures items { OnOk result (active.new.items ≡ (if ends_by z.now.0 facet then active.old.items else active.old.items ++ facet ∷ [])) }
    ensures same { OnErr result (active.new.items ≡ active.old.items) }
{
    if !stays_down(z, &facet) {
        active.push(facet)?;
    }
    Ok(())
}

/// Takes in the facets whose first layer is this one or one before, but for those that end by its height.
fn take_in(
    facets: &[Facet],
    quarter: u8,
    order: &[Start],
    layer: u32,
    z: &Nm,
    next: &mut usize,
    active: &mut Vec<Facet>,
) -> Result<(), NoMemory>
    requires quarter { quarter < 4 }
    requires facets { IsMesh facets.now }
    requires order { All (λ (s : Start). s.facet < length facets.now) order.now }
    requires next { next.old ≤ length order.now }
    requires close { AllClose active.old.items }
    requires left { AreLeft quarter facets.now z.now.0 order.now next.old active.old.items }
    ensures next { next.new ≤ length order.now }
    ensures close { AllClose active.new.items }
    ensures left { AreLeft quarter facets.now z.now.0 order.now next.new active.new.items }
    ensures done { OnOk result ((d : Start) → next.new < length order.now → layer < (slice_index_or order.now next.new d).first) }
{
    while *next < order.len() {
        let start = order[*next];
        if layer < start.first {
            return Ok(());
        }
        let facet = turned_facet(&facets[start.facet as usize], quarter);
        put_unended(active, z, facet)?;
        *next += 1;
    }
    Ok(())
}

/// The layers of a mesh after a turn, one after another from the lowest on.
#[derive(Drop)]
pub struct Sweep<'a> {
    facets: &'a [Facet],
    quarter: u8,
    heights: Heights,
    bounds: Box2,
    base: Point3,
    order: Vec<Start>,
    next: usize,
    active: Vec<Facet>,
    layer: u32,
}

impl<'a> Model for Sweep<'a> {
    ghost use Rattle.pl_layers.specs.Sweeps.{IsSweep, Swept};

    ghost Value = { Swept };

    ghost view = { λ s. record { mesh = s.facets.now; quarter = s.quarter; heights = s.heights; layer = s.layer } };

    ghost invariant = { λ s. IsSweep s.facets.now s.quarter s.heights s.bounds s.base s.order.items s.next s.active.items s.layer };
}

impl<'a> Sweep<'a> {
    /// A sweep of an object after `quarter` quarter turns counterclockwise, at its layer 0. `quarter` is below 4, and
    /// the heights are in their ranges.
    pub fn of(
        alloc: Global,
        mesh: &'a Mesh,
        quarter: u8,
        heights: Heights,
    ) -> Result<Sweep<'a>, NoMemory>
        requires quarter { quarter < 4 }
        requires heights { AreHeights heights }
        ensures { IfOk result (λ s. s ≡ record { mesh = mesh.now; quarter = quarter; heights = heights; layer = 0 }) }
    {
        let facets = mesh.facets();
        let half = Nm(200_000);
        let x = span_x(mesh, quarter);
        let y = span_y(mesh, quarter);
        let z = mesh.span(Part::Z);
        let base = Point3 {
            x: sum(&x.least, &half),
            y: sum(&y.least, &half),
            z: z.least,
        };
        let order = order_of(alloc, facets, quarter, heights, &base.z)?;
        Ok(Sweep {
            facets,
            quarter,
            heights,
            bounds: box_over(&x, &y),
            base,
            order,
            next: 0,
            active: Vec::new(alloc),
            layer: 0,
        })
    }

    /// The cells of the next layer. For want of memory the sweep stays at that layer.
    pub fn next_layer(&mut self, alloc: Global) -> Result<Plane, NoMemory>
        requires { self.old.layer < layer_count_of self.old.heights self.old.mesh }
        ensures layer { IfOk result (λ p. p ≡ slice_of self.old.mesh self.old.quarter self.old.heights self.old.layer) }
        ensures next { OnOk result (self.new ≡ record { mesh = self.old.mesh; quarter = self.old.quarter; heights = self.old.heights; layer = self.old.layer + 1 }) }
        ensures same { OnErr result (self.new ≡ self.old) }
    {
        let corner = Point3 {
            x: self.base.x,
            y: self.base.y,
            z: sum(&self.base.z, &sample(self.heights, self.layer)),
        };
        drop_ended(&mut self.active, &corner.z);
        take_in(
            self.facets,
            self.quarter,
            &self.order,
            self.layer,
            &corner.z,
            &mut self.next,
            &mut self.active,
        )?;
        let plane = slice_facets(alloc, self.bounds, &self.active, &corner)?;
        self.layer += 1;
        Ok(plane)
    }
}
