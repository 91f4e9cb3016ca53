//! The cells of a row that a facet is hit from: those before one place.
ghost use Rattle.std.specs.Prelude.{◌≤◌, ◌<◌, ◌<ℤ◌, ◌+ℤ◌, ◌*ℤ◌, min, unsigned_abs, int_lt, if◌then◌else◌, ◌≡◌, ◌^◌, pos, neg_ℤ};
ghost use Rattle.std.specs.Int.{int_div_euclid};
ghost use Rattle.pl_units.specs.Within.{Within};
ghost use Rattle.pl_layers.specs.Hits.{arrow};
ghost use Rattle.pl_layers.specs.Rows.{columns_behind, columns_hit, normal_of, steps_below};
ghost use Rattle.pl_layers.specs.Near.{IsClose, IsCloseFacet, IsShort};

use crate::arrow::Arrow;
use crate::hits::{arrow, cross, crosses_oddly};
use pl_stl::{Facet, Point3};

/// The facet's normal.
pub(crate) fn normal(facet: &Facet) -> Arrow
    requires { IsCloseFacet facet.now }
    ensures value { result ≡ normal_of facet.now }
    ensures short { IsShort 8016008000000000000 result }
{
    cross(&arrow(&facet.a, &facet.b), &arrow(&facet.a, &facet.c))
}

/// How many of the points that lie a cell apart along the ray, the first of them `p`, the facet is hit from, at most `most`.
pub(crate) fn columns_hit(p: &Point3, facet: &Facet, normal: &Arrow, most: usize) -> usize
    requires p { IsClose p.now }
    requires facet { IsCloseFacet facet.now }
    requires normal { normal.now ≡ normal_of facet.now }
    requires short { IsShort 8016008000000000000 normal.now }
    requires most { most ≤ 8192 }
    ensures { result ≡ min most (columns_hit 400000 p.now facet.now) }
{
    if normal.x == 0 {
        return 0;
    }
    if !crosses_oddly(p, facet) {
        return 0;
    }
    columns_behind(p, facet, normal, most)
}

/// How many of the points are behind the plane of the facet, at most `most`.
fn columns_behind(p: &Point3, facet: &Facet, normal: &Arrow, most: usize) -> usize
    requires p { IsClose p.now }
    requires facet { IsCloseFacet facet.now }
    requires normal { normal.now ≡ normal_of facet.now }
    requires short { IsShort 8016008000000000000 normal.now }
    requires steep { 0 < unsigned_abs normal.now.x }
    requires most { most ≤ 8192 }
    ensures { result ≡ min most (columns_behind 400000 p.now facet.now) }
{
    let to = arrow(p, &facet.a);
    let across = across(normal, &to);
    let place = quotient_up(&across, size(&normal.x));
    steps_below(&further(&to.x, &place), most)
}

/// A product of a difference and a part of a normal.
fn volume(a: &i64, b: &i64) -> i128
    requires a { Within 2002000000 a.now }
    requires b { Within 8016008000000000000 b.now }
    ensures value { result ≡ a.now *ℤ b.now }
    ensures small { Within (2 ^ 94) result }
{
    let first = i128::from(*a);
    let second = i128::from(*b);
    first * second
}

/// How far the facet is ahead of its first corner at a row and a height, by the x part of its normal.
fn across(normal: &Arrow, to: &Arrow) -> i128
    requires normal { IsShort 8016008000000000000 normal.now }
    requires to { IsShort 2002000000 to.now }
    ensures value { result ≡ (if int_lt normal.now.x (pos 0) then neg_ℤ (to.now.y *ℤ normal.now.y +ℤ to.now.z *ℤ normal.now.z) else to.now.y *ℤ normal.now.y +ℤ to.now.z *ℤ normal.now.z) }
    ensures small { Within (2 ^ 95) result }
{
    let y = volume(&to.y, &normal.y);
    let z = volume(&to.z, &normal.z);
    let both = both(&y, &z);
    if normal.x < 0 { opposite(&both) } else { both }
}

fn both(a: &i128, b: &i128) -> i128
    requires a { Within (2 ^ 94) a.now }
    requires b { Within (2 ^ 94) b.now }
    ensures value { result ≡ a.now +ℤ b.now }
    ensures small { Within (2 ^ 95) result }
{
    *a + *b
}

fn opposite(z: &i128) -> i128
    requires { Within (2 ^ 95) z.now }
    ensures value { result ≡ neg_ℤ z.now }
    ensures small { Within (2 ^ 95) result }
{
    -*z
}

/// The size of a part of a normal that is not 0.
fn size(part: &i64) -> i64
    requires { Within 8016008000000000000 part.now }
    ensures { result ≡ pos (unsigned_abs part.now) }
{
    if *part < 0 { -*part } else { *part }
}

/// The quotient rounded up.
fn quotient_up(e: &i128, n: i64) -> i128
    requires e { Within (2 ^ 95) e.now }
    requires n { pos 0 <ℤ n }
    ensures value { result ≡ neg_ℤ (int_div_euclid (neg_ℤ e.now) n) }
    ensures small { Within (2 ^ 95) result }
{
    let far = e.unsigned_abs();
    if far <= LIMIT {
        return i128::from(quotient_up_small(*e as i64, n));
    }
    quotient_up_large(e, i128::from(n))
}

/// The quotient of numbers of 128 bits, rounded up.
fn quotient_up_large(e: &i128, n: i128) -> i128
    requires e { Within (2 ^ 95) e.now }
    requires n { pos 0 <ℤ n }
    ensures value { result ≡ neg_ℤ (int_div_euclid (neg_ℤ e.now) n) }
    ensures small { Within (2 ^ 95) result }
{
    -(-*e).div_euclid(n)
}

/// The quotient of numbers of 64 bits, rounded up.
fn quotient_up_small(e: i64, n: i64) -> i64
    requires e { Within (2 ^ 62) e }
    requires n { pos 0 <ℤ n }
    ensures value { result ≡ neg_ℤ (int_div_euclid (neg_ℤ e) n) }
    ensures small { Within (2 ^ 62) result }
{
    -(-e).div_euclid(n)
}

// 2^62
const LIMIT: u128 = 4_611_686_018_427_387_904;

fn further(start: &i64, place: &i128) -> i128
    requires start { Within 2002000000 start.now }
    requires place { Within (2 ^ 95) place.now }
    ensures { result ≡ start.now +ℤ place.now }
{
    i128::from(*start) + *place
}

/// How many cells begin before a place on the row, at most `most`.
fn steps_below(ahead: &i128, most: usize) -> usize
    requires most { most ≤ 8192 }
    ensures { result ≡ min most (steps_below ahead.now 400000) }
{
    if *ahead <= 0 {
        return 0;
    }
    if *ahead >= 400_000 * most as i128 {
        return most;
    }
    ((*ahead as u64 + 399_999) / 400_000) as usize
}
