ghost use Rattle.std.specs.Prelude.{◌≡◌, pos, IfOk};

use crate::{brim, put_on_bed, skirt};
use pl_grid::{Box2, Corner, Plane};
use pl_units::NoMemory;
use std::alloc::Global;
use std::test::Fail;

fn at(x: i32, y: i32) -> Corner {
    Corner { x, y }
}

/// A bed of 8 by 6 cells on which nothing stands.
fn small_bed(alloc: Global) -> Result<Plane, NoMemory>
    ensures { IfOk result (λ p. p.bounds ≡ record { x0 = pos 0; y0 = pos 0; cols = 8; rows = 6 }) }
{
    let bounds = Box2 {
        x0: 0,
        y0: 0,
        cols: 8,
        rows: 6,
    };
    Plane::empty(alloc, bounds)
}

/// Two cells in a row, of which the second is filled.
fn pair(alloc: Global) -> Result<Plane, NoMemory>
    ensures { IfOk result (λ p. p.bounds ≡ record { x0 = pos 0; y0 = pos 0; cols = 2; rows = 1 }) }
{
    let bounds = Box2 {
        x0: 0,
        y0: 0,
        cols: 2,
        rows: 1,
    };
    let mut plane = Plane::empty(alloc, bounds)?;
    plane.set(1, 0, true);
    Ok(plane)
}

#[test]
fn a_plane_is_put_on_the_bed_twice(rt: HostRuntime) -> Result<(), Fail> {
    let alloc = rt.alloc();
    let mut bed = small_bed(alloc)?;
    let cells = pair(alloc)?;
    put_on_bed(&mut bed, &cells, 1, 3);
    put_on_bed(&mut bed, &cells, 4, 5);
    for y in 0..6 {
        for x in 0..8 {
            let stands = (x == 2 && y == 3) || (x == 5 && y == 5);
            assert_eq!(rt; bed.get(x, y), stands, "the cell {x} {y}");
        }
    }
    Ok(())
}

#[test]
fn a_skirt_of_two_rectangles_goes_round_four_cells(rt: HostRuntime) -> Result<(), Fail> {
    let alloc = rt.alloc();
    let mut bed = small_bed(alloc)?;
    bed.set(0, 0, true);
    bed.set(1, 0, true);
    bed.set(0, 1, true);
    bed.set(1, 1, true);
    let found = skirt(alloc, &bed, 15, 2)?;
    assert_eq!(rt; found.len(), 2, "two rectangles");
    let outer = [at(-17, -17), at(19, -17), at(19, 19), at(-17, 19)];
    assert_eq!(rt; found[0].corners(), outer.as_slice(), "the outer one");
    let inner = [at(-16, -16), at(18, -16), at(18, 18), at(-16, 18)];
    assert_eq!(rt; found[1].corners(), inner.as_slice(), "the inner one");
    Ok(())
}

#[test]
fn a_brim_goes_round_one_cell(rt: HostRuntime) -> Result<(), Fail> {
    let alloc = rt.alloc();
    let mut bed = small_bed(alloc)?;
    bed.set(0, 0, true);
    let found = brim(alloc, &bed, 1)?;
    assert_eq!(rt; found.len(), 1, "one loop");
    let ring = [
        at(0, -1),
        at(1, -1),
        at(1, 0),
        at(2, 0),
        at(2, 1),
        at(1, 1),
        at(1, 2),
        at(0, 2),
        at(0, 1),
        at(-1, 1),
        at(-1, 0),
        at(0, 0),
    ];
    assert_eq!(rt; found[0].corners(), ring.as_slice(), "its corners");
    let wider = brim(alloc, &bed, 2)?;
    assert_eq!(rt; wider.len(), 2, "two loops");
    assert!(rt; wider[0].corners()[0] == at(0, -2), "the outer one first");
    assert_eq!(rt; wider[1].corners(), ring.as_slice(), "then the inner one");
    Ok(())
}

#[test]
fn nothing_goes_round_an_empty_bed(rt: HostRuntime) -> Result<(), Fail> {
    let alloc = rt.alloc();
    let mut bed = small_bed(alloc)?;
    assert!(rt; skirt(alloc, &bed, 15, 2)?.is_empty(), "no skirt");
    assert!(rt; brim(alloc, &bed, 3)?.is_empty(), "no brim");
    bed.set(3, 2, true);
    assert!(rt;
        skirt(alloc, &bed, 15, 0)?.is_empty(),
        "a skirt of no rectangle"
    );
    assert!(rt; brim(alloc, &bed, 0)?.is_empty(), "a brim of no width");
    Ok(())
}
