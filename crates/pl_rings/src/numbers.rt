//! The numbers of sides and points.
ghost use Rattle.std.specs.Prelude.{◌≡◌, ◌<◌, ◌+◌, ◌*◌, ◌+ℤ◌, ◌≤ℤ◌, neg_ℤ, pos};
ghost use Rattle.pl_rings.specs.Sides.{number_of, side_count, IsPoint};

use crate::side::Side;
use pl_grid::Box2;

/// How many points the box's cells have.
pub(crate) fn point_count(bounds: Box2) -> usize
    ensures { result * 4 ≡ side_count bounds }
{
    (bounds.cols as usize + 1) * (bounds.rows as usize + 1)
}

/// The x of the points of a column, counted from the left.
pub(crate) fn column_x(bounds: Box2, column: u32) -> i32
    requires { column < bounds.cols + 1 }
    ensures value { result ≡ bounds.x0 +ℤ pos column }
    ensures low { neg_ℤ (pos 100000) ≤ℤ result }
    ensures high { result ≤ℤ pos 100000 }
{
    bounds.x0 + column as i32
}

/// The y of the points of a row, counted from the bottom.
pub(crate) fn row_y(bounds: Box2, row: u32) -> i32
    requires { row < bounds.rows + 1 }
    ensures value { result ≡ bounds.y0 +ℤ pos row }
    ensures low { neg_ℤ (pos 100000) ≤ℤ result }
    ensures high { result ≤ℤ pos 100000 }
{
    bounds.y0 + row as i32
}

/// The number of a side that starts in a point of the box: four for each point.
pub(crate) fn number_of(bounds: Box2, side: &Side) -> usize
    requires { IsPoint bounds side.now.x side.now.y }
    ensures { result ≡ number_of bounds side.now }
{
    let column = (side.x - bounds.x0) as usize;
    let row = (side.y - bounds.y0) as usize;
    (row * (bounds.cols as usize + 1) + column) * 4 + side.heading.rank()
}
