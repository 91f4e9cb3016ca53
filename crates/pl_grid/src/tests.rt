use crate::{Axis, Box2, Plane, Run};
use std::test::Fail;

fn run(line: i32, first: i32, last: i32) -> Run {
    Run { line, first, last }
}

#[test]
fn runs_are_listed_by_line_and_then_by_first_cell(rt: HostRuntime) -> Result<(), Fail> {
    let alloc = rt.alloc();
    let bounds = Box2 {
        x0: 0,
        y0: 0,
        cols: 5,
        rows: 2,
    };
    let mut plane = Plane::empty(alloc, bounds)?;
    plane.set(0, 0, true);
    plane.set(1, 0, true);
    plane.set(3, 0, true);
    let rows = plane.runs(alloc, Axis::Rows)?;
    let along_rows = [run(0, 0, 1), run(0, 3, 3)];
    assert_eq!(rt; rows.as_slice(), along_rows.as_slice(), "along rows");
    let columns = plane.runs(alloc, Axis::Columns)?;
    let along_columns = [run(0, 0, 0), run(1, 0, 0), run(3, 0, 0)];
    assert_eq!(rt;
        columns.as_slice(),
        along_columns.as_slice(),
        "along columns"
    );
    let one = plane.runs_in(alloc, Axis::Rows, 0)?;
    assert_eq!(rt; one.as_slice(), along_rows.as_slice(), "of row 0");
    let none = plane.runs_in(alloc, Axis::Rows, 7)?;
    assert!(rt; none.is_empty(), "of a row that is not there");
    Ok(())
}

#[test]
fn planes_are_made_of_whole_planes(rt: HostRuntime) -> Result<(), Fail> {
    let alloc = rt.alloc();
    let bounds = Box2 {
        x0: 0,
        y0: 0,
        cols: 3,
        rows: 3,
    };
    let mut dot = Plane::empty(alloc, bounds)?;
    dot.set(1, 1, true);
    let cross = dot.dilate(alloc)?;
    assert!(rt; cross.get(0, 1) && !cross.get(0, 0), "dilate");
    let kept = cross.erode(alloc)?;
    assert!(rt; kept.get(1, 1) && !kept.get(0, 1), "erode");
    let ring = cross.minus(alloc, &dot)?;
    assert!(rt; ring.get(0, 1) && !ring.get(1, 1), "minus");
    let both = ring.union(alloc, &dot)?;
    assert!(rt; both.get(0, 1) && both.get(1, 1), "union");
    let copy = dot.copied(alloc)?;
    assert!(rt; copy.get(1, 1) && !copy.get(0, 1), "copied");
    let wide = dot.widened(alloc, 1)?;
    assert!(rt; wide.get(1, 1) && wide.bounds().cols == 5, "widened");
    Ok(())
}

#[test]
fn dilate_keeps_to_the_box(rt: HostRuntime) -> Result<(), Fail> {
    let alloc = rt.alloc();
    let bounds = Box2 {
        x0: 0,
        y0: 0,
        cols: 70,
        rows: 1,
    };
    let mut full = Plane::empty(alloc, bounds)?;
    full.toggle_row(70, 0);
    let dilated = full.dilate(alloc)?;
    let runs = dilated.runs(alloc, Axis::Rows)?;
    assert_eq!(rt; runs.as_slice(), [run(0, 0, 69)].as_slice(), "the 70 cells");
    assert!(rt; !dilated.get(70, 0), "none after the last");
    Ok(())
}

#[test]
fn erode_leaves_the_middle_row(rt: HostRuntime) -> Result<(), Fail> {
    let alloc = rt.alloc();
    let bounds = Box2 {
        x0: 0,
        y0: 0,
        cols: 70,
        rows: 3,
    };
    let mut middle = Plane::empty(alloc, bounds)?;
    middle.toggle_row(70, 1);
    let full = middle.dilate(alloc)?;
    let eroded = full.erode(alloc)?;
    let runs = eroded.runs(alloc, Axis::Rows)?;
    assert_eq!(rt;
        runs.as_slice(),
        [run(1, 1, 68)].as_slice(),
        "cells 1 to 68"
    );
    Ok(())
}

#[test]
fn rows_are_flipped_and_moved_over_a_word_end(rt: HostRuntime) -> Result<(), Fail> {
    let alloc = rt.alloc();
    let bounds = Box2 {
        x0: 0,
        y0: 0,
        cols: 70,
        rows: 1,
    };
    let mut plane = Plane::empty(alloc, bounds)?;
    plane.toggle_row(65, 0);
    let runs = plane.runs(alloc, Axis::Rows)?;
    assert_eq!(rt; runs.as_slice(), [run(0, 0, 64)].as_slice(), "flipped");
    let wide = plane.widened(alloc, 61)?;
    let runs = wide.runs(alloc, Axis::Rows)?;
    assert_eq!(rt; runs.as_slice(), [run(0, 0, 64)].as_slice(), "moved");
    Ok(())
}
