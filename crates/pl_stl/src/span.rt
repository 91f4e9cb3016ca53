//! How far a mesh reaches along each coordinate.
ghost use Rattle.std.specs.Prelude.{◌≡◌, ◌≤◌, ◌^◌};
ghost use Rattle.std.specs.Int.{int_min, int_max};
ghost use Rattle.pl_units.specs.Within.{Within};
ghost use Rattle.pl_stl.specs.Mesh.{IsNear, IsNearFacet, IsMesh};
ghost use Rattle.pl_stl.specs.Spans.{part_of, with_corners, IsNearSpan, IsSpan};

use crate::{Facet, Point3};
use pl_units::Nm;

/// One of the three coordinates of a point.
#[derive(Clone, Copy, Debug, PartialEq, Eq)]
pub enum Part {
    X,
    Y,
    Z,
}

/// The least and the greatest of one coordinate, in nanometres.
#[derive(Clone, Copy, Debug, PartialEq, Eq)]
pub struct Span {
    pub least: Nm,
    pub greatest: Nm,
}

/// One coordinate of a point.
fn part_of(p: &Point3, which: Part) -> Nm
    requires { IsNear p.now }
    ensures value { result.0 ≡ part_of which p.now }
    ensures near { Within (10 ^ 9) result.0 }
{
    match which {
        Part::X => p.x,
        Part::Y => p.y,
        Part::Z => p.z,
    }
}

fn lesser(a: &Nm, b: &Nm) -> Nm
    requires a { Within (10 ^ 9) a.now.0 }
    requires b { Within (10 ^ 9) b.now.0 }
    ensures value { result.0 ≡ int_min a.now.0 b.now.0 }
    ensures near { Within (10 ^ 9) result.0 }
{
    if b.0 < a.0 { *b } else { *a }
}

fn larger(a: &Nm, b: &Nm) -> Nm
    requires a { Within (10 ^ 9) a.now.0 }
    requires b { Within (10 ^ 9) b.now.0 }
    ensures value { result.0 ≡ int_max a.now.0 b.now.0 }
    ensures near { Within (10 ^ 9) result.0 }
{
    if a.0 < b.0 { *b } else { *a }
}

/// The least of a number and one coordinate of each corner.
fn lower(low: &Nm, facet: &Facet, which: Part) -> Nm
    requires low { Within (10 ^ 9) low.now.0 }
    requires facet { IsNearFacet facet.now }
    ensures value { result.0 ≡ with_corners int_min (part_of which) facet.now low.now.0 }
    ensures near { Within (10 ^ 9) result.0 }
{
    let first = lesser(low, &part_of(&facet.a, which));
    let second = lesser(&first, &part_of(&facet.b, which));
    lesser(&second, &part_of(&facet.c, which))
}

/// The greatest of a number and one coordinate of each corner.
fn upper(high: &Nm, facet: &Facet, which: Part) -> Nm
    requires high { Within (10 ^ 9) high.now.0 }
    requires facet { IsNearFacet facet.now }
    ensures value { result.0 ≡ with_corners int_max (part_of which) facet.now high.now.0 }
    ensures near { Within (10 ^ 9) result.0 }
{
    let first = larger(high, &part_of(&facet.a, which));
    let second = larger(&first, &part_of(&facet.b, which));
    larger(&second, &part_of(&facet.c, which))
}

/// The span of a mesh with one facet more.
fn widened(span: &Span, facet: &Facet, which: Part) -> Span
    requires span { IsNearSpan span.now }
    requires facet { IsNearFacet facet.now }
    ensures least { result.least.0 ≡ with_corners int_min (part_of which) facet.now span.now.least.0 }
    ensures greatest { result.greatest.0 ≡ with_corners int_max (part_of which) facet.now span.now.greatest.0 }
    ensures near { IsNearSpan result }
{
    Span {
        least: lower(&span.least, facet, which),
        greatest: upper(&span.greatest, facet, which),
    }
}

/// The span of one coordinate of all corners.
pub(crate) fn span_of(facets: &[Facet], which: Part) -> Span
    requires { IsMesh facets.now }
    ensures { IsSpan (part_of which) facets.now result }
{
    let first = part_of(&facets[0].a, which);
    let mut span = Span {
        least: first,
        greatest: first,
    };
    for facet in facets {
        span = widened(&span, facet, which);
    }
    span
}
