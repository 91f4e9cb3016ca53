ghost use Rattle.std.specs.Prelude.{◌≡◌, pos, IfOk, AllPairs};

use crate::support;
use pl_grid::{Box2, Plane, Planes};
use pl_units::NoMemory;
use std::alloc::Global;
use std::test::Fail;

/// A plane of five cells in a row.
fn row(alloc: Global, cells: &[bool; 5]) -> Result<Plane, NoMemory>
    ensures { IfOk result (λ p. p.bounds ≡ record { x0 = pos 0; y0 = pos 0; cols = 5; rows = 1 }) }
{
    let bounds = Box2 {
        x0: 0,
        y0: 0,
        cols: 5,
        rows: 1,
    };
    let mut plane = Plane::empty(alloc, bounds)?;
    plane.set(0, 0, cells[0]);
    plane.set(1, 0, cells[1]);
    plane.set(2, 0, cells[2]);
    plane.set(3, 0, cells[3]);
    plane.set(4, 0, cells[4]);
    Ok(plane)
}

fn rows(alloc: Global, layers: &[[bool; 5]; 4]) -> Result<Planes, NoMemory>
    ensures { IfOk result (λ ps. AllPairs (λ p q. p.bounds ≡ q.bounds) ps) }
{
    let mut planes = Vec::new(alloc);
    for cells in layers {
        planes.push(row(alloc, cells)?)?;
    }
    Ok(Planes::of(planes))
}

fn are_cells(plane: &Plane, filled: &[i32]) -> bool {
    (0..5).all(|x| plane.get(x, 0) == filled.contains(&x))
}

#[test]
fn support_stands_below_overhangs(rt: HostRuntime) -> Result<(), Fail> {
    let alloc = rt.alloc();
    let first = [
        [false, false, true, true, true],
        [false, false, true, false, false],
        [false, false, true, false, false],
        [true; 5],
    ];
    let further = [
        [false, false, true, true, false],
        [false, false, true, false, true],
        [false, false, true, false, false],
        [true; 5],
    ];
    let cases: [(&str, &[[bool; 5]; 4], bool, bool, [&[i32]; 4]); 4] = [
        ("on", &first, true, false, [&[0], &[0, 4], &[0, 4], &[]]),
        ("plate only", &first, true, true, [&[0], &[0], &[0], &[]]),
        ("off", &first, false, true, [&[], &[], &[], &[]]),
        ("further", &further, true, false, [&[0], &[0], &[0, 4], &[]]),
    ];
    for (name, layers, on, plate_only, wanted) in &cases {
        let slices = rows(alloc, layers)?;
        let found = support(alloc, &slices, *on, *plate_only)?;
        assert_eq!(rt; found.planes().len(), 4, "{name}: layers");
        for (k, filled) in wanted.iter().enumerate() {
            assert!(rt; are_cells(&found.planes()[k], filled), "{name}: layer {k}");
        }
    }
    Ok(())
}
