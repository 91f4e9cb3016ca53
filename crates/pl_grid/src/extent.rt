//! The box of a plane's cells.
ghost use Rattle.std.specs.Prelude.{◌≡◌, ◌-ℤ◌, ◌<◌, IfSome};
ghost use Rattle.pl_grid.specs.Extent.{offset_in, column_of, row_of, IsExtent, grown};

use std::marker::Model;

/// A box of cells: its least column and row, each from -65,536 to 65,536, and how many columns and rows it
/// has, each at most 8,192. A cell is a square of the grid, and one column or row is one cell.
#[derive(Clone, Copy, Debug, PartialEq, Eq)]
pub struct Box2 {
    pub x0: i32,
    pub y0: i32,
    pub cols: u32,
    pub rows: u32,
}

impl Model for Box2 {
    ghost use Rattle.pl_grid.specs.Extent.{Extent, IsExtent};

    ghost Value = { Extent };

    ghost view = { λ b. record { x0 = b.x0; y0 = b.y0; cols = b.cols; rows = b.rows } };

    ghost invariant = { λ b. IsExtent (record { x0 = b.x0; y0 = b.y0; cols = b.cols; rows = b.rows }) };

    ghost inverse = { λ e. record { x0 = e.x0; y0 = e.y0; cols = e.cols; rows = e.rows } };
}

impl Box2 {
    /// The box that has `by` columns and rows more on each side. That must be a box: at most 8,192 columns and
    /// rows, its corner from -65,536 to 65,536.
    pub fn grown(self, by: u32) -> Box2
        requires { IsExtent (grown by self) }
        ensures { result ≡ grown by self }
    {
        Box2 {
            x0: self.x0 - by as i32,
            y0: self.y0 - by as i32,
            cols: self.cols + 2 * by,
            rows: self.rows + 2 * by,
        }
    }

    /// The number of the column `x`, counted from 0 at the left, where the box has it.
    pub fn column(self, x: i32) -> Option<usize>
        ensures value { result ≡ column_of self x }
        ensures below { IfSome result (λ i. i < self.cols) }
    {
        offset(x, self.x0, self.cols)
    }

    /// The number of the row `y`, counted from 0 at the bottom, where the box has it.
    pub fn row(self, y: i32) -> Option<usize>
        ensures value { result ≡ row_of self y }
        ensures below { IfSome result (λ j. j < self.rows) }
    {
        offset(y, self.y0, self.rows)
    }
}

/// How far `at` is above `low`, where that is below `count`.
fn offset(at: i32, low: i32, count: u32) -> Option<usize>
    ensures value { result ≡ offset_in count (at -ℤ low) }
    ensures below { IfSome result (λ k. k < count) }
{
    let distance = i64::from(at) - i64::from(low);
    if distance < 0 || distance >= i64::from(count) {
        return None;
    }
    Some(distance as usize)
}
