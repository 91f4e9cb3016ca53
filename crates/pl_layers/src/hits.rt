//! Whether a point's ray hits a facet.
ghost use Rattle.std.specs.Prelude.{◌≤◌, ◌*◌, min, unsigned_abs, int_lt, if◌then◌else◌, ◌≡◌, ◌*ℤ◌, ◌-ℤ◌, ◌+ℤ◌, ◌^◌, pos, ◌≤ℤ◌, neg_ℤ, IsTrue, Bool};
ghost use Rattle.pl_units.specs.Within.{Within};
ghost use Rattle.pl_layers.specs.Hits.{cross, cross_x, cross_y, cross_z, dot, either_or, crosses, side_of_edge, crosses_oddly, same_sign, is_ahead, hits, is_in_mesh, determinant, arrow};
ghost use Rattle.pl_layers.specs.Near.{IsClose, IsCloseFacet, AllClose, IsShort};

use crate::arrow::Arrow;
use pl_stl::{Facet, Point3};
use pl_units::Nm;

fn difference(from: &Nm, to: &Nm) -> i64
    requires from { Within 1001000000 from.now.0 }
    requires to { Within 1001000000 to.now.0 }
    ensures value { result ≡ to.now.0 -ℤ from.now.0 }
    ensures small { Within 2002000000 result }
{
    to.0 - from.0
}

pub(crate) fn arrow(p: &Point3, q: &Point3) -> Arrow
    requires p { IsClose p.now }
    requires q { IsClose q.now }
    ensures value { result ≡ arrow p.now q.now }
    ensures short { IsShort 2002000000 result }
{
    Arrow {
        x: difference(&p.x, &q.x),
        y: difference(&p.y, &q.y),
        z: difference(&p.z, &q.z),
    }
}

/// A product of two differences.
fn product(a: &i64, b: &i64) -> i64
    requires a { Within 2002000000 a.now }
    requires b { Within 2002000000 b.now }
    ensures value { result ≡ a.now *ℤ b.now }
    ensures small { Within 4008004000000000000 result }
{
    *a * *b
}

fn cross_x(a: &Arrow, b: &Arrow) -> i64
    requires a { IsShort 2002000000 a.now }
    requires b { IsShort 2002000000 b.now }
    ensures value { result ≡ cross_x a.now b.now }
    ensures small { Within 8016008000000000000 result }
{
    let first = product(&a.y, &b.z);
    let second = product(&a.z, &b.y);
    first - second
}

fn cross_y(a: &Arrow, b: &Arrow) -> i64
    requires a { IsShort 2002000000 a.now }
    requires b { IsShort 2002000000 b.now }
    ensures value { result ≡ cross_y a.now b.now }
    ensures small { Within 8016008000000000000 result }
{
    let first = product(&a.z, &b.x);
    let second = product(&a.x, &b.z);
    first - second
}

fn cross_z(a: &Arrow, b: &Arrow) -> i64
    requires a { IsShort 2002000000 a.now }
    requires b { IsShort 2002000000 b.now }
    ensures value { result ≡ cross_z a.now b.now }
    ensures small { Within 8016008000000000000 result }
{
    let first = product(&a.x, &b.y);
    let second = product(&a.y, &b.x);
    first - second
}

pub(crate) fn cross(a: &Arrow, b: &Arrow) -> Arrow
    requires a { IsShort 2002000000 a.now }
    requires b { IsShort 2002000000 b.now }
    ensures value { result ≡ cross a.now b.now }
    ensures short { IsShort 8016008000000000000 result }
{
    Arrow {
        x: cross_x(a, b),
        y: cross_y(a, b),
        z: cross_z(a, b),
    }
}

/// Whether the edge crosses the height of the point on the right side.
fn crosses(p: &Point3, u: &Point3, v: &Point3) -> bool
    requires p { IsClose p.now }
    requires u { IsClose u.now }
    requires v { IsClose v.now }
    ensures { result ≡ crosses p.now u.now v.now }
{
    let starts_below = u.z.0 <= p.z.0;
    let ends_below = v.z.0 <= p.z.0;
    let right = is_right(u.z.0 < v.z.0, side_of_edge(p, u, v));
    (starts_below ^ ends_below) & right
}

/// Whether a point is on the right side of an edge that rises or falls.
fn is_right(rises: bool, side: i64) -> bool
    ensures { result ≡ (if rises then int_lt (pos 0) side else int_lt side (pos 0)) }
{
    if rises { 0 < side } else { side < 0 }
}

pub(crate) fn crosses_oddly(p: &Point3, facet: &Facet) -> bool
    requires p { IsClose p.now }
    requires facet { IsCloseFacet facet.now }
    ensures { result ≡ crosses_oddly p.now facet.now }
{
    crosses(p, &facet.a, &facet.b) ^ crosses(p, &facet.b, &facet.c) ^ crosses(p, &facet.c, &facet.a)
}

/// The side of the edge from `u` to `v` that the point is on.
fn side_of_edge(p: &Point3, u: &Point3, v: &Point3) -> i64
    requires p { IsClose p.now }
    requires u { IsClose u.now }
    requires v { IsClose v.now }
    ensures { result ≡ side_of_edge p.now u.now v.now }
{
    edge_side(&arrow(p, u), &arrow(u, v), &arrow(u, p))
}

fn edge_side(up: &Arrow, along: &Arrow, back: &Arrow) -> i64
    requires up { IsShort 2002000000 up.now }
    requires along { IsShort 2002000000 along.now }
    requires back { IsShort 2002000000 back.now }
    ensures { result ≡ up.now.y *ℤ along.now.z +ℤ along.now.y *ℤ back.now.z }
{
    let first = product(&up.y, &along.z);
    let second = product(&along.y, &back.z);
    first + second
}
