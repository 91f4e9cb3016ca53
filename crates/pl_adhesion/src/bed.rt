//! What stands on the bed.
ghost use Rattle.std.specs.Prelude.{◌≡◌, ◌+ℤ◌, true};
ghost use Rattle.pl_grid.specs.Planes.{is_inside};
ghost use Rattle.pl_adhesion.specs.Bed.{IsRoomFor, bed_with};

use crate::cells::{Cell, alike_from, cell_at, cell_count, fill, has};
use pl_grid::{Box2, Plane};

/// Fills each cell of the bed on which a filled cell of `cells` comes to lie that is moved by `shift_x` columns
/// and `shift_y` rows; each must be one of the bed's box. All other cells of the bed stay. It takes no memory.
pub fn put_on_bed(bed: &mut Plane, cells: &Plane, shift_x: i32, shift_y: i32)
    requires { IsRoomFor cells.now shift_x shift_y bed.old.bounds }
    ensures { bed.new ≡ bed_with bed.old cells.now shift_x shift_y }
{
    let shift = Cell {
        x: shift_x,
        y: shift_y,
    };
    let room = bed.bounds();
    let bounds = cells.bounds();
    let count = cell_count(bounds);
    let mut place = 0;
    while place < count {
        let cell = cell_at(bounds, place);
        if !has(cells, &cell) {
            place += alike_from(cells, place);
            continue;
        }
        let moved = moved(room, &cell, &shift);
        fill(bed, &moved);
        place += 1;
    }
}

/// The cell moved to where the box has it.
fn moved(room: Box2, cell: &Cell, shift: &Cell) -> Cell
    requires { is_inside room (cell.now.x +ℤ shift.now.x) (cell.now.y +ℤ shift.now.y) ≡ true }
    ensures x { result.x ≡ cell.now.x +ℤ shift.now.x }
    ensures y { result.y ≡ cell.now.y +ℤ shift.now.y }
{
    let _cols = room.cols;
    Cell {
        x: cell.x + shift.x,
        y: cell.y + shift.y,
    }
}
