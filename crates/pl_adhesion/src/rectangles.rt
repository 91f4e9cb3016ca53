//! The skirt.
ghost use Rattle.std.specs.Prelude.{◌≡◌, ◌≤◌, ◌+◌, ◌-ℤ◌, ◌+ℤ◌, ◌↔◌, ◌⊎◌, pos, [], IfOk};
ghost use Rattle.std.specs.List.{All};
ghost use Rattle.pl_units.specs.Within.{Within};
ghost use Rattle.pl_adhesion.specs.Bed.{IsOnBed, IsBare};
ghost use Rattle.pl_adhesion.specs.NearLoops.{IsNearLoop};
ghost use Rattle.pl_adhesion.specs.Reach.{IsNearReach};
ghost use Rattle.pl_adhesion.specs.Skirt.{skirt_of, rectangle_round};

use crate::reach::{Reach, filled_reach};
use pl_grid::{Corner, Loop, Plane};
use pl_units::NoMemory;
use std::alloc::Global;

/// `count` rectangles, at most 32, round the filled cells of the bed, in cells; none where no cell is filled.
/// Each is a loop from its lower left corner first to the right. The innermost is `distance` + 1 cells away from
/// the least box of the filled cells, each further one a cell more, and the outermost comes first. The bed's box
/// must lie inside the 625 columns and 525 rows from the cell 0 0 on, and `distance` is at most 250.
/// Refused only for want of memory.
pub fn skirt(alloc: Global, bed: &Plane, distance: u32, count: u8) -> Result<Vec<Loop>, NoMemory>
    requires bed { IsOnBed bed.now.bounds }
    requires distance { distance ≤ 250 }
    requires count { count ≤ 32 }
    ensures value { IfOk result (λ loops. loops.items ≡ skirt_of bed.now distance count) }
    ensures near { IfOk result (λ loops. All IsNearLoop loops.items) }
    ensures none { IfOk result (λ loops. (loops.items ≡ []) ↔ ((count ≡ 0) ⊎ IsBare bed.now)) }
{
    let mut loops = Vec::new(alloc);
    let Some(reach) = filled_reach(bed) else {
        return Ok(loops);
    };
    for index in 0..count {
        let by = distance + u32::from(count - index);
        loops.push(rectangle(alloc, &reach, by)?)?;
    }
    Ok(loops)
}

/// The rectangle of a reach, grown by so many cells on each side.
fn rectangle(alloc: Global, reach: &Reach, by: u32) -> Result<Loop, NoMemory>
    requires near { IsNearReach reach.now }
    requires by { by ≤ 300 }
    ensures { IfOk result (λ l. l ≡ rectangle_round by reach.now) }
{
    let x0 = below(&reach.columns.least, by);
    let y0 = below(&reach.rows.least, by);
    let x1 = above(&reach.columns.greatest, by + 1);
    let y1 = above(&reach.rows.greatest, by + 1);
    let first = Corner { x: x0, y: y0 };
    let right = Corner { x: x1, y: y0 };
    let across = Corner { x: x1, y: y1 };
    let left = Corner { x: x0, y: y1 };
    let corners = [first, right, across, left];
    Ok(Loop::of(corners.as_slice().to_vec(alloc)?))
}

/// The place so many cells before.
fn below(place: &i32, by: u32) -> i32
    requires place { Within 1000 place.now }
    requires by { by ≤ 301 }
    ensures { result ≡ place.now -ℤ pos by }
{
    *place - by as i32
}

/// The place so many cells after.
fn above(place: &i32, by: u32) -> i32
    requires place { Within 1000 place.now }
    requires by { by ≤ 301 }
    ensures { result ≡ place.now +ℤ pos by }
{
    *place + by as i32
}
