//! The cells of a layer.
ghost use Rattle.std.specs.Prelude.{◌≡◌, ◌<◌, ◌^◌, ◌+◌, ◌+ℤ◌, ◌*ℤ◌, ◌&&◌, ◌||◌, int_le, ℕ, pos, IfOk, length};
ghost use Rattle.std.specs.List.{filter};
ghost use Rattle.pl_units.specs.Within.{Within};
ghost use Rattle.pl_stl.specs.Mesh.{IsMesh};
ghost use Rattle.pl_layers.specs.Turned.{turned_mesh, box_of};
ghost use Rattle.pl_layers.specs.Heights.{AreHeights, layer_count_of};
ghost use Rattle.pl_layers.specs.Near.{IsClose, AllClose};
ghost use Rattle.pl_layers.specs.Slices.{corner_of, cell_point, inside_of, slice_of};
ghost use Rattle.pl_layers.specs.Filling.{spans};

use crate::heights::{Heights, sample};
use crate::rows::flip_facet;
use crate::turned::{box_over, span_x, span_y, turned_facet};
use pl_grid::{Box2, Plane};
use pl_stl::{Facet, Mesh, Part, Point3};
use pl_units::{Nm, NoMemory};
use std::alloc::Global;

/// The sum of two lengths.
pub(crate) fn sum(a: &Nm, b: &Nm) -> Nm
    requires a { Within (2 ^ 40) a.now.0 }
    requires b { Within (2 ^ 40) b.now.0 }
    ensures { result.0 ≡ a.now.0 +ℤ b.now.0 }
{
    Nm(a.0 + b.0)
}

/// The box of the cells after a turn, and the middle of the cell 0 0 at the height at which layer `k` is sampled.
fn place(mesh: &Mesh, quarter: u8, heights: Heights, k: u32) -> (Box2, Point3)
    requires quarter { quarter < 4 }
    requires mesh { IsMesh mesh.now }
    requires heights { AreHeights heights }
    requires k { k < layer_count_of heights mesh.now }
    ensures bounds { result.0 ≡ box_of quarter mesh.now }
    ensures corner { result.1 ≡ corner_of (turned_mesh quarter mesh.now) heights k }
{
    let half = Nm(200_000);
    let x = span_x(mesh, quarter);
    let y = span_y(mesh, quarter);
    let z = mesh.span(Part::Z);
    let corner = Point3 {
        x: sum(&x.least, &half),
        y: sum(&y.least, &half),
        z: sum(&z.least, &sample(heights, k)),
    };
    (box_over(&x, &y), corner)
}

/// Whether some corner of the facet is at this height or below.
fn reaches_down(z: &Nm, facet: &Facet) -> bool
    ensures { result ≡ (int_le facet.now.a.z.0 z.now.0 || int_le facet.now.b.z.0 z.now.0 || int_le facet.now.c.z.0 z.now.0) }
{
    facet.a.z.0 <= z.0 || facet.b.z.0 <= z.0 || facet.c.z.0 <= z.0
}

/// Whether each corner of the facet is at this height or below.
pub(crate) fn stays_down(z: &Nm, facet: &Facet) -> bool
    ensures { result ≡ (int_le facet.now.a.z.0 z.now.0 && int_le facet.now.b.z.0 z.now.0 && int_le facet.now.c.z.0 z.now.0) }
{
    (facet.a.z.0 <= z.0) & (facet.b.z.0 <= z.0) & (facet.c.z.0 <= z.0)
}

/// Whether the facet has corners at this height or below, and corners above it.
fn spans(z: &Nm, facet: &Facet) -> bool
    ensures { result ≡ spans z.now.0 facet.now }
{
    reaches_down(z, facet) && !stays_down(z, facet)
}

/// The facets of a turned mesh that span a height: no other is hit from there.
fn facets_at(alloc: Global, facets: &[Facet], quarter: u8, z: &Nm) -> Result<Vec<Facet>, NoMemory>
    requires quarter { quarter < 4 }
    requires facets { IsMesh facets.now }
    ensures { IfOk result (λ v. v.items ≡ filter (spans z.now.0) (turned_mesh quarter facets.now)) }
{
    let mut spanning = Vec::new(alloc);
    for facet in facets {
        let turned = turned_facet(facet, quarter);
        if spans(z, &turned) {
            spanning.push(turned)?;
        }
    }
    Ok(spanning)
}

/// The cells of a box at 0 0 whose middles lie in the mesh, where `corner` is the middle of the cell 0 0.
pub(crate) fn slice_facets(
    alloc: Global,
    bounds: Box2,
    facets: &[Facet],
    corner: &Point3,
) -> Result<Plane, NoMemory>
    requires origin_x { bounds.x0 ≡ pos 0 }
    requires origin_y { bounds.y0 ≡ pos 0 }
    requires corner { IsClose corner.now }
    requires points { (i j : ℕ) → i < bounds.cols → j < bounds.rows → IsClose (cell_point corner.now (pos i) (pos j)) }
    requires facets { AllClose facets.now }
    ensures { IfOk result (λ p. p ≡ inside_of bounds facets.now corner.now) }
{
    let mut plane = Plane::empty(alloc, bounds)?;
    if bounds.cols == 0 {
        return Ok(plane);
    }
    for facet in facets {
        flip_facet(&mut plane, bounds, corner, facet);
    }
    Ok(plane)
}

/// The cells of layer `k` of an object after `quarter` quarter turns counterclockwise: those whose middles lie in
/// the mesh at the height at which the layer is sampled. `quarter` is below 4, the heights are in their ranges, and
/// `k` is below the object's number of layers. The one refusal is for want of memory.
pub fn slice_layer(
    alloc: Global,
    mesh: &Mesh,
    quarter: u8,
    heights: Heights,
    k: u32,
) -> Result<Plane, NoMemory>
    requires quarter { quarter < 4 }
    requires heights { AreHeights heights }
    requires k { k < layer_count_of heights mesh.now }
    ensures { IfOk result (λ p. p ≡ slice_of mesh.now quarter heights k) }
{
    let facets = mesh.facets();
    let (bounds, corner) = place(mesh, quarter, heights, k);
    let spanning = facets_at(alloc, facets, quarter, &corner.z)?;
    slice_facets(alloc, bounds, &spanning, &corner)
}
