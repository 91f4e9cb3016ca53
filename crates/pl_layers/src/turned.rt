//! A mesh turned by quarters about z, and how far it reaches.
ghost use Rattle.std.specs.Prelude.{◌≡◌, ◌≤◌, ◌<◌, ◌^◌, neg_ℤ};
ghost use Rattle.std.specs.Int.{int_min};
ghost use Rattle.pl_units.specs.Within.{Within};
ghost use Rattle.pl_stl.specs.Mesh.{IsNear, IsNearFacet};
ghost use Rattle.pl_layers.specs.Turned.{turned, turned_facet, turned_mesh, cells_across, box_of};
ghost use Rattle.pl_stl.specs.Coordinates.{part_x, part_y};
ghost use Rattle.pl_stl.specs.Spans.{IsNearSpan, IsSpan};
ghost use Rattle.pl_layers.specs.Spans.{reach_of, box_over};

use pl_grid::Box2;
use pl_stl::{Facet, Mesh, Part, Point3, Span};
use pl_units::Nm;

fn opposite(length: &Nm) -> Nm
    requires { Within (10 ^ 9) length.now.0 }
    ensures value { result.0 ≡ neg_ℤ length.now.0 }
    ensures near { Within (10 ^ 9) result.0 }
{
    Nm(-length.0)
}

/// The point after so many quarter turns counterclockwise.
fn turned(p: &Point3, quarter: u8) -> Point3
    requires quarter { quarter < 4 }
    requires p { IsNear p.now }
    ensures value { result ≡ turned quarter p.now }
    ensures near { IsNear result }
{
    match quarter {
        0 => *p,
        1 => Point3 {
            x: opposite(&p.y),
            y: p.x,
            z: p.z,
        },
        2 => Point3 {
            x: opposite(&p.x),
            y: opposite(&p.y),
            z: p.z,
        },
        _ => Point3 {
            x: p.y,
            y: opposite(&p.x),
            z: p.z,
        },
    }
}

/// The facet after so many quarter turns counterclockwise.
pub(crate) fn turned_facet(facet: &Facet, quarter: u8) -> Facet
    requires quarter { quarter < 4 }
    requires facet { IsNearFacet facet.now }
    ensures value { result ≡ turned_facet quarter facet.now }
    ensures near { IsNearFacet result }
{
    Facet {
        a: turned(&facet.a, quarter),
        b: turned(&facet.b, quarter),
        c: turned(&facet.c, quarter),
    }
}

fn lesser(a: &Nm, b: &Nm) -> Nm
    requires a { Within (10 ^ 9) a.now.0 }
    requires b { Within (10 ^ 9) b.now.0 }
    ensures value { result.0 ≡ int_min a.now.0 b.now.0 }
    ensures near { Within (10 ^ 9) result.0 }
{
    if b.0 < a.0 { *b } else { *a }
}

/// The least height of a facet's corners.
pub(crate) fn lowest(facet: &Facet) -> Nm
    requires { IsNearFacet facet.now }
    ensures value { result.0 ≡ int_min (int_min facet.now.a.z.0 facet.now.b.z.0) facet.now.c.z.0 }
    ensures near { Within (10 ^ 9) result.0 }
{
    lesser(&lesser(&facet.a.z, &facet.b.z), &facet.c.z)
}

// The span of the opposites of the numbers of a span.
fn opposite_span(span: &Span) -> Span
    requires { IsNearSpan span.now }
    ensures least { result.least.0 ≡ neg_ℤ span.now.greatest.0 }
    ensures greatest { result.greatest.0 ≡ neg_ℤ span.now.least.0 }
    ensures near { IsNearSpan result }
{
    Span {
        least: opposite(&span.greatest),
        greatest: opposite(&span.least),
    }
}

/// How far a mesh reaches along x after so many quarter turns.
pub(crate) fn span_x(mesh: &Mesh, quarter: u8) -> Span
    requires { quarter < 4 }
    ensures { IsSpan part_x (turned_mesh quarter mesh.now) result }
{
    match quarter {
        0 => mesh.span(Part::X),
        1 => opposite_span(&mesh.span(Part::Y)),
        2 => opposite_span(&mesh.span(Part::X)),
        _ => mesh.span(Part::Y),
    }
}

/// How far a mesh reaches along y after so many quarter turns.
pub(crate) fn span_y(mesh: &Mesh, quarter: u8) -> Span
    requires { quarter < 4 }
    ensures { IsSpan part_y (turned_mesh quarter mesh.now) result }
{
    match quarter {
        0 => mesh.span(Part::Y),
        1 => mesh.span(Part::X),
        2 => opposite_span(&mesh.span(Part::Y)),
        _ => opposite_span(&mesh.span(Part::X)),
    }
}

/// How far a span reaches, in nanometres.
pub(crate) fn reach(span: &Span) -> u64
    requires { IsNearSpan span.now }
    ensures value { result ≡ reach_of span.now }
    ensures near { result ≤ 2000000000 }
{
    (span.greatest.0 - span.least.0).unsigned_abs()
}

/// How many cells of 400,000 nm a length takes.
fn cells_across(length: u64) -> u32
    requires { length ≤ 2000000000 }
    ensures value { result ≡ cells_across length }
    ensures few { result ≤ 8192 }
{
    ((length + 399_999) / 400_000) as u32
}

/// The box at 0 0 of the cells of two spans.
pub(crate) fn box_over(x: &Span, y: &Span) -> Box2
    requires x { IsNearSpan x.now }
    requires y { IsNearSpan y.now }
    ensures { result ≡ box_over x.now y.now }
{
    Box2 {
        x0: 0,
        y0: 0,
        cols: cells_across(reach(x)),
        rows: cells_across(reach(y)),
    }
}

/// The box of an object's cells after `quarter` quarter turns counterclockwise, at 0 0. `quarter` is below 4.
pub fn cells(mesh: &Mesh, quarter: u8) -> Box2
    requires { quarter < 4 }
    ensures { result ≡ box_of quarter mesh.now }
{
    box_over(&span_x(mesh, quarter), &span_y(mesh, quarter))
}
