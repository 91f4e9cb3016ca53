ghost use Rattle.std.specs.Prelude.{◌≡◌, ◌<◌, length, pos, IfOk};
ghost use Rattle.std.specs.List.{All};

use crate::{SurfaceSet, infill_lines, ironing_lines, strokes, support_lines, surfaces};
use pl_grid::{Axis, Box2, Plane, Planes, Stroke};
use pl_units::NoMemory;
use std::alloc::Global;
use std::test::Fail;

fn stroke(x0: i32, y0: i32, x1: i32, y1: i32) -> Stroke {
    Stroke { x0, y0, x1, y1 }
}

#[test]
fn a_square_is_filled_there_and_back(rt: HostRuntime) -> Result<(), Fail> {
    let alloc = rt.alloc();
    let bounds = Box2 {
        x0: 0,
        y0: 0,
        cols: 2,
        rows: 2,
    };
    let mut plane = Plane::empty(alloc, bounds)?;
    plane.set(0, 0, true);
    plane.set(1, 0, true);
    plane.set(0, 1, true);
    plane.set(1, 1, true);
    let rows = strokes(alloc, &plane, Axis::Rows, 1)?;
    let along_rows = [stroke(0, 1, 4, 1), stroke(4, 3, 0, 3)];
    assert_eq!(rt; rows.as_slice(), along_rows.as_slice(), "along rows");
    let columns = strokes(alloc, &plane, Axis::Columns, 1)?;
    let along_columns = [stroke(1, 0, 1, 4), stroke(3, 4, 3, 0)];
    assert_eq!(rt;
        columns.as_slice(),
        along_columns.as_slice(),
        "along columns"
    );
    Ok(())
}

/// The plane of five columns and rows that is all filled: it grows from its middle.
fn full_square(alloc: Global) -> Result<Plane, NoMemory>
    ensures { IfOk result (λ p. p.bounds ≡ record { x0 = pos 0; y0 = pos 0; cols = 5; rows = 5 }) }
{
    let bounds = Box2 {
        x0: 0,
        y0: 0,
        cols: 5,
        rows: 5,
    };
    let mut middle = Plane::empty(alloc, bounds)?;
    middle.set(2, 2, true);
    let grown = middle.dilate(alloc)?.dilate(alloc)?;
    grown.dilate(alloc)?.dilate(alloc)
}

fn ten_full_layers(alloc: Global) -> Result<Planes, NoMemory>
    ensures count { IfOk result (λ ps. length ps ≡ 10) }
    ensures boxes { IfOk result (λ ps. All (λ p. p.bounds ≡ record { x0 = pos 0; y0 = pos 0; cols = 5; rows = 5 }) ps) }
{
    let mut planes = Vec::new(alloc);
    for _layer in 0..10usize {
        planes.push(full_square(alloc)?)?;
    }
    Ok(Planes::of(planes))
}

fn surfaces_of_layer(alloc: Global, k: u32) -> Result<SurfaceSet, NoMemory>
    requires { k < 10 }
{
    let slices = ten_full_layers(alloc)?;
    let inner = ten_full_layers(alloc)?;
    surfaces(alloc, &slices, &inner, k, 2, 3)
}

/// The 25 cells of the square are all filled, or all empty, as told.
fn is_all(plane: &Plane, filled: bool) -> bool {
    let mut alike = true;
    for y in 0..5 {
        for x in 0..5 {
            alike = alike && plane.get(x, y) == filled;
        }
    }
    alike
}

#[test]
fn layers_near_the_bottom_and_the_top_are_solid(rt: HostRuntime) -> Result<(), Fail> {
    let alloc = rt.alloc();
    let solid = [
        true, true, true, false, false, false, false, false, true, true,
    ];
    for (k, solid) in solid.iter().enumerate() {
        let found = surfaces_of_layer(alloc, k as u32)?;
        assert!(rt; is_all(&found.solid, *solid), "solid cells of layer {k}");
        assert!(rt; is_all(&found.sparse, !*solid), "sparse cells of layer {k}");
        assert!(rt; is_all(&found.top, k == 9), "top cells of layer {k}");
    }
    Ok(())
}

#[test]
fn infill_takes_the_lines_of_its_density(rt: HostRuntime) -> Result<(), Fail> {
    let alloc = rt.alloc();
    let fourth = surfaces_of_layer(alloc, 4)?;
    let sparse = infill_lines(alloc, &fourth, 4, 30)?;
    let wanted = [stroke(0, 1, 10, 1), stroke(10, 9, 0, 9)];
    assert_eq!(rt; sparse.as_slice(), wanted.as_slice(), "rows 0 and 4");
    let none = infill_lines(alloc, &fourth, 4, 0)?;
    assert!(rt; none.is_empty(), "density 0");
    let ninth = surfaces_of_layer(alloc, 9)?;
    let solid = infill_lines(alloc, &ninth, 9, 0)?;
    assert_eq!(rt; solid.len(), 5, "solid cells at density 0");
    Ok(())
}

#[test]
fn ironing_goes_over_each_column_of_an_odd_top(rt: HostRuntime) -> Result<(), Fail> {
    let alloc = rt.alloc();
    let ninth = surfaces_of_layer(alloc, 9)?;
    let lines = ironing_lines(alloc, &ninth.top, 9)?;
    let wanted = [
        stroke(1, 0, 1, 10),
        stroke(3, 10, 3, 0),
        stroke(5, 0, 5, 10),
        stroke(7, 10, 7, 0),
        stroke(9, 0, 9, 10),
    ];
    assert_eq!(rt; lines.as_slice(), wanted.as_slice(), "five columns");
    Ok(())
}

#[test]
fn support_takes_each_second_column_of_an_odd_layer(rt: HostRuntime) -> Result<(), Fail> {
    let alloc = rt.alloc();
    let bounds = Box2 {
        x0: 0,
        y0: 0,
        cols: 5,
        rows: 1,
    };
    let mut cells = Plane::empty(alloc, bounds)?;
    cells.set(0, 0, true);
    cells.set(4, 0, true);
    let lines = support_lines(alloc, &cells, 1)?;
    let wanted = [stroke(1, 0, 1, 2), stroke(9, 2, 9, 0)];
    assert_eq!(rt; lines.as_slice(), wanted.as_slice(), "columns 0 and 4");
    Ok(())
}
