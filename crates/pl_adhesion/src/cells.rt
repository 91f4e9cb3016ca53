//! The cells of a plane, one after another.
ghost use Rattle.std.specs.Prelude.{◌≡◌, ◌<◌, ◌≤◌, ◌+◌, ◌*◌, ◌/◌, ◌%◌, ◌+ℤ◌, ℕ, pos, true};
ghost use Rattle.pl_grid.specs.Extent.{IsNear};
ghost use Rattle.pl_grid.specs.Planes.{filled, is_inside, with_cell};

use pl_grid::{Box2, Plane};

/// A cell, by its column and its row.
#[derive(Clone, Copy)]
pub(crate) struct Cell {
    pub x: i32,
    pub y: i32,
}

/// How many cells a box has.
pub(crate) fn cell_count(bounds: Box2) -> usize
    ensures { result ≡ bounds.cols * bounds.rows }
{
    bounds.cols as usize * bounds.rows as usize
}

/// The cell with this number in row order.
pub(crate) fn cell_at(bounds: Box2, place: usize) -> Cell
    requires { place < bounds.cols * bounds.rows }
    ensures column { result.x ≡ bounds.x0 +ℤ pos (place % bounds.cols) }
    ensures row { result.y ≡ bounds.y0 +ℤ pos (place / bounds.cols) }
    ensures near { IsNear result.x result.y }
{
    let cols = bounds.cols as usize;
    let column = (place % cols) as i32;
    let row = (place / cols) as i32;
    Cell {
        x: bounds.x0 + column,
        y: bounds.y0 + row,
    }
}

/// The cell is filled.
pub(crate) fn has(plane: &Plane, cell: &Cell) -> bool
    ensures { result ≡ filled plane.now cell.now.x cell.now.y }
{
    plane.get(cell.x, cell.y)
}

/// How many cells from the one with this number on are known to be like it, the first among them; all in its row.
pub(crate) fn alike_from(plane: &Plane, place: usize) -> usize
    requires { place < plane.now.bounds.cols * plane.now.bounds.rows }
    ensures some { 0 < result }
    ensures within { place + result ≤ plane.now.bounds.cols * plane.now.bounds.rows }
    ensures alike { (k : ℕ) → k < result → filled plane.now (plane.now.bounds.x0 +ℤ pos ((place + k) % plane.now.bounds.cols)) (plane.now.bounds.y0 +ℤ pos ((place + k) / plane.now.bounds.cols)) ≡ filled plane.now (plane.now.bounds.x0 +ℤ pos (place % plane.now.bounds.cols)) (plane.now.bounds.y0 +ℤ pos (place / plane.now.bounds.cols)) }
{
    let bounds = plane.bounds();
    let column = place % bounds.cols as usize;
    let cell = cell_at(bounds, place);
    plane.alike_in_row(column as u32, cell.y) as usize
}

/// Fills the cell, which the box must have.
pub(crate) fn fill(plane: &mut Plane, cell: &Cell)
    requires { is_inside plane.old.bounds cell.now.x cell.now.y ≡ true }
    ensures { plane.new ≡ with_cell plane.old cell.now.x cell.now.y true }
{
    plane.set(cell.x, cell.y, true);
}
