//! The wipe tower.
ghost use Rattle.std.specs.Prelude.{◌≡◌, ℕ, ◌<◌, ◌≤◌, ◌+ℤ◌, ◌*ℤ◌, ◌≤ℤ◌, pos, IfOk};
ghost use Rattle.std.specs.List.{All};
ghost use Rattle.pl_grid.specs.NearStrokes.{IsNearStroke};
ghost use Rattle.pl_grid.specs.Strokes.{turned_back};
ghost use Rattle.pl_tower.specs.Tower.{block_of, row_of, row_stroke};

use pl_grid::Stroke;
use pl_units::NoMemory;
use std::alloc::Global;

/// The strokes of a change of tools on the wipe tower, in half cells. The changes of a height are numbered from 0, and
/// `change` is from 0 to 3. Its strokes go along four rows of cells, from the row y + 4 * change on, each over the
/// columns from x to x + width; the second and the fourth go backwards. In cells, x and y are from 0 to 2,500, and the
/// width is at most 2,500. Refused only for want of memory.
pub fn tower_block(
    alloc: Global,
    x: i32,
    y: i32,
    width: u32,
    change: u8,
) -> Result<Vec<Stroke>, NoMemory>
    requires column_low { pos 0 ≤ℤ x }
    requires column_high { x ≤ℤ pos 2500 }
    requires row_low { pos 0 ≤ℤ y }
    requires row_high { y ≤ℤ pos 2500 }
    requires width { width ≤ 2500 }
    requires change { change < 4 }
    ensures strokes { IfOk result (λ v. v.items ≡ block_of x y width change) }
    ensures near { IfOk result (λ v. All IsNearStroke v.items) }
{
    let block = Block {
        x,
        y,
        width,
        change,
    };
    let strokes = [
        there(&block, 0),
        back(&block, 1),
        there(&block, 2),
        back(&block, 3),
    ];
    Ok(Vec::from_slice(alloc, &strokes)?)
}

/// Where a change wipes, in cells.
#[derive(Drop)]
struct Block {
    x: i32,
    y: i32,
    width: u32,
    change: u8,
    ghost column_low: { pos 0 ≤ℤ x },
    ghost column_high: { x ≤ℤ pos 2500 },
    ghost row_low: { pos 0 ≤ℤ y },
    ghost row_high: { y ≤ℤ pos 2500 },
    ghost narrow: { width ≤ 2500 },
    ghost few: { change < 4 },
}

/// The stroke along the k-th row.
fn there(block: &Block, k: u8) -> Stroke
    requires { k < 4 }
    ensures { result ≡ row_stroke block.now.x block.now.width (row_of block.now.y block.now.change k) }
{
    let middle = middle(block, k);
    Stroke {
        x0: left(block),
        y0: middle,
        x1: right(block),
        y1: middle,
    }
}

/// The stroke along the k-th row, backwards.
fn back(block: &Block, k: u8) -> Stroke
    requires { k < 4 }
    ensures { result ≡ turned_back (row_stroke block.now.x block.now.width (row_of block.now.y block.now.change k)) }
{
    turned(&there(block, k))
}

/// The same stroke the other way.
fn turned(stroke: &Stroke) -> Stroke
    ensures { result ≡ turned_back stroke.now }
{
    Stroke {
        x0: stroke.x1,
        y0: stroke.y1,
        x1: stroke.x0,
        y1: stroke.y0,
    }
}

/// The left side of each row, in half cells.
fn left(block: &Block) -> i32
    ensures { result ≡ pos 2 *ℤ block.now.x }
{
    2 * block.x
}

/// The right side of each row, in half cells.
fn right(block: &Block) -> i32
    ensures { result ≡ pos 2 *ℤ (block.now.x +ℤ pos block.now.width) }
{
    2 * (block.x + block.width as i32)
}

/// The middle of the k-th row, in half cells.
fn middle(block: &Block, k: u8) -> i32
    requires { k < 4 }
    ensures { result ≡ pos 2 *ℤ row_of block.now.y block.now.change k +ℤ pos 1 }
{
    2 * (block.y + i32::from(4 * block.change + k)) + 1
}
