//! The brim.
ghost use Rattle.std.specs.Prelude.{◌≡◌, ◌≤◌, ◌↔◌, ◌⊎◌, ◌++◌, [], reverse, IfOk};
ghost use Rattle.std.specs.List.{All};
ghost use Rattle.pl_adhesion.specs.Bed.{IsOnBed, IsBare};
ghost use Rattle.pl_adhesion.specs.Brim.{brim_of};
ghost use Rattle.pl_adhesion.specs.NearLoops.{IsNearLoop};

use pl_grid::{Loop, Plane};
use pl_rings::loops;
use pl_units::NoMemory;
use std::alloc::Global;

/// The loops round the cells of the bed that are filled or come to be by dilations: those after `width`, at most
/// 100, then those after one less, down to those after one. The bed's box must lie inside the 625 columns and
/// 525 rows from the cell 0 0 on. Refused only for want of memory.
pub fn brim(alloc: Global, bed: &Plane, width: u8) -> Result<Vec<Loop>, NoMemory>
    requires bed { IsOnBed bed.now.bounds }
    requires width { width ≤ 100 }
    ensures value { IfOk result (λ loops. loops.items ≡ brim_of bed.now width) }
    ensures near { IfOk result (λ loops. All IsNearLoop loops.items) }
    ensures none { IfOk result (λ loops. (loops.items ≡ []) ↔ ((width ≡ 0) ⊎ IsBare bed.now)) }
{
    let mut plane = bed.widened(alloc, u32::from(width))?;
    let mut found = Vec::new(alloc);
    for _ in 0..width {
        plane = plane.dilate(alloc)?;
        put_reversed(loops(alloc, &plane)?, &mut found)?;
    }
    found.reverse();
    Ok(found)
}

/// Appends the loops, the last one first.
fn put_reversed(loops: Vec<Loop>, found: &mut Vec<Loop>) -> Result<(), NoMemory>
    ensures { IfOk result (λ _. found.new.items ≡ found.old.items ++ reverse loops.items) }
{
    let mut loops = loops;
    while let Some(last) = loops.pop() {
        found.push(last)?;
    }
    Ok(())
}
