use crate::{RingSet, loops, rings};
use pl_grid::{Box2, Corner, Plane};
use std::test::Fail;

fn at(x: i32, y: i32) -> Corner {
    Corner { x, y }
}

#[test]
fn two_cells_on_a_diagonal_are_in_one_loop(rt: HostRuntime) -> Result<(), Fail> {
    let alloc = rt.alloc();
    let bounds = Box2 {
        x0: 0,
        y0: 0,
        cols: 2,
        rows: 2,
    };
    let mut plane = Plane::empty(alloc, bounds)?;
    plane.set(0, 0, true);
    plane.set(1, 1, true);
    let found = loops(alloc, &plane)?;
    assert_eq!(rt; found.len(), 1, "one loop");
    let crossing = [
        at(0, 0),
        at(1, 0),
        at(1, 1),
        at(2, 1),
        at(2, 2),
        at(1, 2),
        at(1, 1),
        at(0, 1),
    ];
    assert_eq!(rt; found[0].corners(), crossing.as_slice(), "its corners");
    Ok(())
}

#[test]
fn two_rings_of_nine_cells_have_two_loops(rt: HostRuntime) -> Result<(), Fail> {
    let alloc = rt.alloc();
    let bounds = Box2 {
        x0: 0,
        y0: 0,
        cols: 3,
        rows: 3,
    };
    let mut dot = Plane::empty(alloc, bounds)?;
    dot.set(1, 1, true);
    let slice = dot.dilate(alloc)?.dilate(alloc)?;
    let RingSet { planes, inner } = rings(alloc, &slice, 2)?;
    let planes = planes.planes();
    assert_eq!(rt; planes.len(), 2, "two rings");
    for x in 0..3 {
        for y in 0..3 {
            assert!(rt; planes[0].get(x, y), "all nine cells");
            assert_eq!(rt; planes[1].get(x, y), x == 1 && y == 1, "the middle cell");
            assert!(rt; !inner.get(x, y), "nothing inside");
        }
    }
    let outer = loops(alloc, &planes[0])?;
    assert_eq!(rt; outer.len(), 1, "one outer loop");
    let around_all = [at(0, 0), at(3, 0), at(3, 3), at(0, 3)];
    assert_eq!(rt; outer[0].corners(), around_all.as_slice(), "round all");
    let middle = loops(alloc, &planes[1])?;
    assert_eq!(rt; middle.len(), 1, "one inner loop");
    let around_one = [at(1, 1), at(2, 1), at(2, 2), at(1, 2)];
    assert_eq!(rt; middle[0].corners(), around_one.as_slice(), "round one");
    assert!(rt; loops(alloc, &inner)?.is_empty(), "none inside");
    Ok(())
}

#[test]
fn a_hole_has_a_loop_of_its_own(rt: HostRuntime) -> Result<(), Fail> {
    let alloc = rt.alloc();
    let bounds = Box2 {
        x0: -2,
        y0: 5,
        cols: 3,
        rows: 3,
    };
    let mut dot = Plane::empty(alloc, bounds)?;
    dot.set(-1, 6, true);
    let mut plane = dot.dilate(alloc)?.dilate(alloc)?;
    plane.set(-1, 6, false);
    let found = loops(alloc, &plane)?;
    assert_eq!(rt; found.len(), 2, "two loops");
    let outside = [at(-2, 5), at(1, 5), at(1, 8), at(-2, 8)];
    assert_eq!(rt; found[0].corners(), outside.as_slice(), "round all");
    let hole = [at(-1, 6), at(-1, 7), at(0, 7), at(0, 6)];
    assert_eq!(rt; found[1].corners(), hole.as_slice(), "round the hole");
    Ok(())
}
