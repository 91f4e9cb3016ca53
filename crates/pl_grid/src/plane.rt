//! A plane of cells.
ghost use Rattle.std.specs.Prelude.{◌≡◌, ◌+ℤ◌, ◌≤ℤ◌, pos, ◌+◌, ◌<◌, ◌≤◌, ℕ, IfOk, IsTrue, is_some};
ghost use Rattle.pl_grid.specs.Planes.{IsFull, filled, is_inside, cell_at, with_cell, toggled};
ghost use Rattle.pl_grid.specs.Extent.{IsExtent, row_of};

use crate::extent::Box2;
use crate::words::{alike_from, bit, set_bit, toggle_at};
use pl_units::NoMemory;
use std::alloc::Global;
use std::marker::Model;

/// The cells of a box, each filled or empty. A cell outside the box is not filled.
#[derive(Debug, Drop)]
pub struct Plane {
    pub(crate) bounds: Box2,
    pub(crate) words: Vec<u64>,
}

impl Model for Plane {
    ghost use Rattle.pl_grid.specs.Planes.{Cells};
    ghost use Rattle.pl_grid.specs.Packed.{packed, IsPacked};

    ghost Value = { Cells };

    ghost view = { λ p. packed p.bounds p.words.items };

    ghost invariant = { λ p. IsPacked p.bounds p.words.items };
}

impl Plane {
    /// The box of the plane's cells, which has a value for each of them.
    pub fn bounds(&self) -> Box2
        ensures value { result ≡ self.now.bounds }
        ensures full { IsFull self.now }
        ensures extent { IsExtent self.now.bounds }
    {
        let bounds = self.bounds;
        let _cols = bounds.cols;
        bounds
    }

    /// The same cells in a plane of its own. Refused only for want of memory.
    pub fn copied(&self, alloc: Global) -> Result<Plane, NoMemory>
        ensures { IfOk result (λ p. p ≡ self.now) }
    {
        let bounds = self.bounds;
        let words = self.words.as_slice().to_vec(alloc)?;
        Ok(Plane { bounds, words })
    }

    /// The cell at a column and a row of the box, counted from its corner, is filled.
    fn cell(&self, column: usize, row: usize) -> bool
        requires column { column < self.now.bounds.cols }
        requires row { row < self.now.bounds.rows }
        ensures { result ≡ cell_at self.now column row }
    {
        bit(&self.words, self.bounds.bit_place(column, row))
    }

    /// The cell in column `x` and row `y` is filled; false for each cell outside the box.
    pub fn get(&self, x: i32, y: i32) -> bool
        ensures { result ≡ filled self.now x y }
    {
        match self.bounds.column(x) {
            Some(column) => match self.bounds.row(y) {
                Some(row) => self.cell(column, row),
                None => false,
            },
            None => false,
        }
    }

    /// How many cells of row `y` from a column on, counted from the box's corner, are known to be like it, the first
    /// among them: at least 1, and none past the last column. In a row outside the box no cell is filled, so all are.
    pub fn alike_in_row(&self, column: u32, y: i32) -> u32
        requires { column < self.now.bounds.cols }
        ensures some { 0 < result }
        ensures within { column + result ≤ self.now.bounds.cols }
        ensures alike { (k : ℕ) → k < result → filled self.now (self.now.bounds.x0 +ℤ pos (column + k)) y ≡ filled self.now (self.now.bounds.x0 +ℤ pos column) y }
    {
        let bounds = self.bounds;
        let left = bounds.cols - column;
        match bounds.row(y) {
            Some(row) => {
                let place = bounds.bit_place(column as usize, row);
                alike_from(&self.words, place, place + left as usize) as u32
            }
            None => left,
        }
    }

    /// Fills or empties the cell in column `x` and row `y`, which the box must have. No other cell changes.
    pub fn set(&mut self, x: i32, y: i32, value: bool)
        requires { IsTrue (is_inside self.old.bounds x y) }
        ensures { self.new ≡ with_cell self.old x y value }
    {
        let bounds = self.bounds;
        if let Some(column) = bounds.column(x) {
            if let Some(row) = bounds.row(y) {
                set_bit(&mut self.words, bounds.bit_place(column, row), value);
            }
        }
    }

    /// Flips each cell of row `y` whose column is below `x`: filled cells become empty, and empty ones filled. The box
    /// must have the row, and `x` is from its least column to the one after its last. No other cell changes.
    pub fn toggle_row(&mut self, x: i32, y: i32)
        requires row { IsTrue (is_some (row_of self.old.bounds y)) }
        requires left { self.old.bounds.x0 ≤ℤ x }
        requires right { x ≤ℤ (self.old.bounds.x0 +ℤ pos self.old.bounds.cols) }
        ensures { self.new ≡ toggled self.old x y }
    {
        let bounds = self.bounds;
        if let Some(row) = bounds.row(y) {
            let start = bounds.first_word(row);
            let below = columns_to(&bounds, x);
            toggle_at(&mut self.words, start, bounds.row_words(), below);
        }
    }
}

/// How many columns of the box are before `x`.
fn columns_to(bounds: &Box2, x: i32) -> usize
    requires left { bounds.now.x0 ≤ℤ x }
    requires right { x ≤ℤ (bounds.now.x0 +ℤ pos bounds.now.cols) }
    ensures value { bounds.now.x0 +ℤ pos result ≡ x }
    ensures within { result ≤ bounds.now.cols }
{
    let _cols = bounds.cols;
    (i64::from(x) - i64::from(bounds.x0)) as usize
}
