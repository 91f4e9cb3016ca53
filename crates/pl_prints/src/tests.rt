//! The heights and tools of two objects, and what goes round one cell.
ghost use Rattle.std.specs.Prelude.{◌≡◌, IfOk};
ghost use Rattle.pl_values.specs.PrintValues.{bed};

use crate::{brim, layer_with_top, places, skirt, tools, tops, tower};
use pl_edit::{Block, Edit, ValueText};
use pl_grid::{Box2, Corner, Plane, Stroke};
use pl_model::Plate;
use pl_units::{Nm, NoMemory, Shared, Text};
use std::alloc::Global;
use std::sync::Arc;
use std::test::Fail;

// A facet of 0.8 by 0.8 by 0.4 mm.
const SMALL: &[u8] =
    b"solid a\nfacet normal 0 0 0\nouter loop\nvertex 0 0 0\nvertex 0.8 0 0\nvertex 0 0.8 0.4\nendloop\nendfacet\nendsolid a\n";

fn load(plate: &mut Plate, alloc: Global) -> Result<(), NoMemory> {
    let bytes = Text::copy_of(alloc, SMALL)?;
    let name = Text::copy_of(alloc, b"a")?;
    if bytes.bytes().len() > 1 << 28 {
        return Err(NoMemory);
    }
    let block = Shared::of(Arc::new(alloc, Block::of(Text::copy_of(alloc, b"b")?, bytes))?);
    plate.edit(alloc, &Edit::Load { name, block })?;
    Ok(())
}

fn value(alloc: Global, bytes: &[u8]) -> Result<ValueText, NoMemory> {
    if bytes.len() > 1 << 28 {
        return Err(NoMemory);
    }
    Ok(ValueText::of(Text::copy_of(alloc, bytes)?))
}

fn set(plate: &mut Plate, alloc: Global, key: &[u8], text: &[u8]) -> Result<(), NoMemory> {
    let value = value(alloc, text)?;
    let key = Text::copy_of(alloc, key)?;
    plate.edit(alloc, &Edit::Set { key, value })?;
    Ok(())
}

fn set_second(plate: &mut Plate, alloc: Global, key: &[u8], text: &[u8]) -> Result<(), NoMemory> {
    let value = value(alloc, text)?;
    let key = Text::copy_of(alloc, key)?;
    plate.edit(
        alloc,
        &Edit::Override {
            place: 1,
            key,
            value,
        },
    )?;
    Ok(())
}

// Two objects, the second with layers of 0.3 mm and the second tool.
fn pair(alloc: Global) -> Result<Plate, NoMemory> {
    let mut plate = Plate::blank(alloc)?;
    load(&mut plate, alloc)?;
    load(&mut plate, alloc)?;
    set_second(&mut plate, alloc, b"layer_height", b"0.3")?;
    set_second(&mut plate, alloc, b"extruder", b"2")?;
    Ok(plate)
}

#[test]
fn two_objects_share_their_heights(rt: HostRuntime) -> Result<(), Fail> {
    let plate = pair(rt.alloc())?;
    let found = places(rt.alloc(), &plate)?;
    assert_eq!(rt; found.as_slice(), [0, 1].as_slice());
    let heights = tops(rt.alloc(), &plate)?;
    let wanted = [Nm(200_000), Nm(400_000), Nm(500_000)];
    assert_eq!(rt; heights.as_slice(), wanted.as_slice());
    Ok(())
}

#[test]
fn each_height_has_its_tools(rt: HostRuntime) -> Result<(), Fail> {
    let plate = pair(rt.alloc())?;
    let heights = tops(rt.alloc(), &plate)?;
    let found = tools(rt.alloc(), &plate, &heights)?;
    let wanted: [&[u8]; 3] = [&[0, 1], &[0], &[1]];
    assert_eq!(rt; found.len(), 3);
    for (height, row) in found.iter().zip(wanted.iter()) {
        assert!(rt; height.tools() == *row);
    }
    Ok(())
}

#[test]
fn a_layer_is_found_by_its_top(rt: HostRuntime) -> Result<(), Fail> {
    let plate = pair(rt.alloc())?;
    let rows = [
        (100_000, None),
        (200_000, Some(0)),
        (400_000, None),
        (500_000, Some(1)),
        (800_000, None),
    ];
    let Some(object) = plate.object(1) else {
        return Err(NoMemory.into());
    };
    for (top, layer) in &rows {
        let found = layer_with_top(plate.config(), object, Nm(*top));
        assert_eq!(rt; found, *layer, "{top}");
    }
    Ok(())
}

// The bed, on which one cell stands.
fn one_cell(alloc: Global) -> Result<Plane, NoMemory>
    ensures { IfOk result (λ p. p.bounds ≡ bed) }
{
    let bounds = Box2 {
        x0: 0,
        y0: 0,
        cols: 625,
        rows: 525,
    };
    let mut plane = Plane::empty(alloc, bounds)?;
    plane.set(3, 2, true);
    Ok(plane)
}

#[test]
fn the_skirt_goes_round_the_brim(rt: HostRuntime) -> Result<(), Fail> {
    let footing = one_cell(rt.alloc())?;
    let mut plate = Plate::blank(rt.alloc())?;
    let near = skirt(rt.alloc(), plate.config(), &footing)?;
    assert_eq!(rt; near.len(), 1);
    assert!(rt; near[0].corners()[0] == Corner { x: -13, y: -14 });
    set(&mut plate, rt.alloc(), b"brim_width", b"8")?;
    let far = skirt(rt.alloc(), plate.config(), &footing)?;
    assert_eq!(rt; far.len(), 1);
    assert!(rt; far[0].corners()[0] == Corner { x: -18, y: -19 });
    Ok(())
}

#[test]
fn a_brim_goes_round_one_cell(rt: HostRuntime) -> Result<(), Fail> {
    let footing = one_cell(rt.alloc())?;
    let mut plate = Plate::blank(rt.alloc())?;
    assert!(rt; brim(rt.alloc(), plate.config(), &footing)?.is_empty());
    set(&mut plate, rt.alloc(), b"brim_width", b"0.4")?;
    let loops = brim(rt.alloc(), plate.config(), &footing)?;
    assert_eq!(rt; loops.len(), 1);
    assert_eq!(rt; loops[0].corners().len(), 12);
    Ok(())
}

#[test]
fn a_tower_stands_where_it_is_wanted(rt: HostRuntime) -> Result<(), Fail> {
    let mut plate = Plate::blank(rt.alloc())?;
    assert!(rt; tower(rt.alloc(), plate.config(), 0)?.is_empty());
    set(&mut plate, rt.alloc(), b"wipe_tower", b"1")?;
    let strokes = tower(rt.alloc(), plate.config(), 0)?;
    let first = Stroke {
        x0: 900,
        y0: 701,
        x1: 1200,
        y1: 701,
    };
    assert_eq!(rt; strokes.len(), 4);
    assert_eq!(rt; strokes[0], first);
    Ok(())
}
