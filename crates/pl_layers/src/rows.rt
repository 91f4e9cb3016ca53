//! The rows that a facet spans, and the cells of each that it is hit from.
ghost use Rattle.std.specs.Prelude.{◌≡◌, ◌≤◌, ◌<◌, ◌+ℤ◌, ◌-ℤ◌, ◌*ℤ◌, ◌^◌, min, ℕ, pos, true};
ghost use Rattle.std.specs.Int.{int_min, int_max};
ghost use Rattle.pl_units.specs.Within.{Within};
ghost use Rattle.pl_grid.specs.Planes.{IsFull};
ghost use Rattle.pl_layers.specs.Near.{IsClose, IsCloseFacet, IsShort};
ghost use Rattle.pl_layers.specs.Rows.{misses_row, normal_of, steps_below};
ghost use Rattle.pl_layers.specs.Slices.{cell_point};
ghost use Rattle.pl_layers.specs.Flips.{with_facet_row, with_facet};

use crate::arrow::Arrow;
use crate::columns::{columns_hit, normal};
use pl_grid::{Box2, Plane};
use pl_stl::{Facet, Point3};
use pl_units::Nm;

/// Some rows one after another: the first of them, and the first after them.
#[derive(Clone, Copy)]
struct Rows {
    from: u32,
    to: u32,
}

/// The middle of the cell that lies `count` cells after the one with its middle at `first`.
fn middle_after(first: &Nm, count: u32) -> Nm
    requires first { Within 1001000000 first.now.0 }
    requires count { count < 8192 }
    ensures { result.0 ≡ first.now.0 +ℤ pos 400000 *ℤ pos count }
{
    Nm(first.0 + 400_000 * i64::from(count))
}

/// The middle of the first cell of a row.
fn first_point(corner: &Point3, row: u32) -> Point3
    requires corner { IsClose corner.now }
    requires row { row < 8192 }
    ensures { result ≡ cell_point corner.now (pos 0) (pos row) }
{
    Point3 {
        x: corner.x,
        y: middle_after(&corner.y, row),
        z: corner.z,
    }
}

/// The least y of the facet's corners.
fn least_y(facet: &Facet) -> Nm
    requires { IsCloseFacet facet.now }
    ensures { result.0 ≡ int_min (int_min facet.now.a.y.0 facet.now.b.y.0) facet.now.c.y.0 }
{
    Nm(facet.a.y.0.min(facet.b.y.0).min(facet.c.y.0))
}

/// The greatest y of the facet's corners.
fn greatest_y(facet: &Facet) -> Nm
    requires { IsCloseFacet facet.now }
    ensures { result.0 ≡ int_max (int_max facet.now.a.y.0 facet.now.b.y.0) facet.now.c.y.0 }
{
    Nm(facet.a.y.0.max(facet.b.y.0).max(facet.c.y.0))
}

/// How many rows have their middles below `y`, at most `most`, where that of row 0 is at `first`.
fn rows_below(first: &Nm, y: &Nm, most: u32) -> u32
    requires first { Within 1001000000 first.now.0 }
    requires y { Within 1001000000 y.now.0 }
    ensures { result ≡ min most (steps_below (y.now.0 -ℤ first.now.0) 400000) }
{
    let ahead = y.0 - first.0;
    if ahead <= 0 {
        return 0;
    }
    let rows = (ahead as u64 + 399_999) / 400_000;
    if rows < u64::from(most) {
        return rows as u32;
    }
    most
}

/// The rows whose middles lie from the least y of the facet's corners to before the greatest: from no other of the
/// first `most` rows is it hit.
fn rows_across(corner: &Point3, facet: &Facet, most: u32) -> Rows
    requires corner { IsClose corner.now }
    requires facet { IsCloseFacet facet.now }
    ensures few { result.to ≤ most }
    ensures before { (j : ℕ) → j < most → j < result.from → misses_row (cell_point corner.now (pos 0) (pos j)) facet.now ≡ true }
    ensures after { (j : ℕ) → j < most → result.to ≤ j → misses_row (cell_point corner.now (pos 0) (pos j)) facet.now ≡ true }
{
    Rows {
        from: rows_below(&corner.y, &least_y(facet), most),
        to: rows_below(&corner.y, &greatest_y(facet), most),
    }
}

/// Turns over the cells of a row from which the facet is hit.
fn flip_row(
    plane: &mut Plane,
    bounds: Box2,
    corner: &Point3,
    facet: &Facet,
    normal: &Arrow,
    row: u32,
)
    requires bounds { plane.old.bounds ≡ bounds }
    requires origin_x { bounds.x0 ≡ pos 0 }
    requires origin_y { bounds.y0 ≡ pos 0 }
    requires row { row < bounds.rows }
    requires corner { IsClose corner.now }
    requires point { IsClose (cell_point corner.now (pos 0) (pos row)) }
    requires facet { IsCloseFacet facet.now }
    requires normal { normal.now ≡ normal_of facet.now }
    requires short { IsShort 8016008000000000000 normal.now }
    ensures { plane.new ≡ with_facet_row corner.now facet.now plane.old (pos row) }
{
    let first = first_point(corner, row);
    let count = columns_hit(&first, facet, normal, bounds.cols as usize);
    plane.toggle_row(count as i32, row as i32);
}

/// Turns over the cells from which the facet is hit.
pub(crate) fn flip_facet(plane: &mut Plane, bounds: Box2, corner: &Point3, facet: &Facet)
    requires full { IsFull plane.old }
    requires bounds { plane.old.bounds ≡ bounds }
    requires origin_x { bounds.x0 ≡ pos 0 }
    requires origin_y { bounds.y0 ≡ pos 0 }
    requires corner { IsClose corner.now }
    requires points { (j : ℕ) → j < bounds.rows → IsClose (cell_point corner.now (pos 0) (pos j)) }
    requires facet { IsCloseFacet facet.now }
    ensures { plane.new ≡ with_facet corner.now facet.now plane.old }
{
    let rows = rows_across(corner, facet, bounds.rows);
    let normal = normal(facet);
    for row in rows.from..rows.to {
        flip_row(plane, bounds, corner, facet, &normal, row);
    }
}
