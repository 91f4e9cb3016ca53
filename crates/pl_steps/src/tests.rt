//! A box of 0.8 by 0.8 by 0.4 mm, by its options.
use crate::{ObjectParts, Strokes, object_parts};
use pl_grid::{Corner, Stroke};
use pl_model::{Block, Edit, EditReply, Plate, ValueText};
use pl_units::{NoMemory, Shared, Text};
use std::alloc::Global;
use std::sync::Arc;
use std::test::Fail;

// The facets of the box by its corners: bit 0 of a corner's number is set at the far side in x, bit 1 in y, bit 2 in z.
const FACETS: [[u8; 3]; 12] = [
    [0, 2, 1],
    [1, 2, 3],
    [4, 5, 6],
    [5, 7, 6],
    [0, 1, 4],
    [1, 5, 4],
    [2, 6, 3],
    [3, 6, 7],
    [0, 4, 2],
    [2, 4, 6],
    [1, 3, 5],
    [3, 7, 5],
];

fn vertex(number: u8) -> &'static [u8] {
    match number {
        0 => b"vertex 0 0 0\n",
        1 => b"vertex 0.8 0 0\n",
        2 => b"vertex 0 0.8 0\n",
        3 => b"vertex 0.8 0.8 0\n",
        4 => b"vertex 0 0 0.4\n",
        5 => b"vertex 0.8 0 0.4\n",
        6 => b"vertex 0 0.8 0.4\n",
        _ => b"vertex 0.8 0.8 0.4\n",
    }
}

fn put_facet(text: &mut Vec<u8>, corners: &[u8; 3]) -> Result<(), NoMemory> {
    text.extend_from_slice(b"facet normal 0 0 0\nouter loop\n")?;
    text.extend_from_slice(vertex(corners[0]))?;
    text.extend_from_slice(vertex(corners[1]))?;
    text.extend_from_slice(vertex(corners[2]))?;
    text.extend_from_slice(b"endloop\nendfacet\n")?;
    Ok(())
}

fn box_text(alloc: Global) -> Result<Vec<u8>, NoMemory> {
    let mut text = Vec::new(alloc);
    text.extend_from_slice(b"solid box\n")?;
    for corners in &FACETS {
        put_facet(&mut text, corners)?;
    }
    text.extend_from_slice(b"endsolid box\n")?;
    Ok(text)
}

fn load(alloc: Global) -> Result<Edit, NoMemory> {
    let text = box_text(alloc)?;
    if text.len() > 1 << 28 {
        return Err(NoMemory);
    }
    let bytes = Text::copy_of(alloc, text.as_slice())?;
    let block = Block::of(Text::copy_of(alloc, b"box")?, bytes);
    let block = Shared::of(Arc::new(alloc, block)?);
    let name = Text::copy_of(alloc, b"box")?;
    Ok(Edit::Load { name, block })
}

fn set(alloc: Global, key: &[u8], bytes: &[u8]) -> Result<Edit, NoMemory> {
    if bytes.len() > 1 << 28 {
        return Err(NoMemory);
    }
    let value = ValueText::of(Text::copy_of(alloc, bytes)?);
    let key = Text::copy_of(alloc, key)?;
    Ok(Edit::Set { key, value })
}

// The parts of the object at place 0, where the plate can be printed.
fn parts_of(alloc: Global, plate: &Plate) -> Result<Option<ObjectParts>, NoMemory> {
    if plate.problem().is_some() {
        return Ok(None);
    }
    match plate.object(0) {
        Some(object) => Ok(Some(object_parts(alloc, plate.config(), object)?)),
        None => Ok(None),
    }
}

// The parts of the box with so many perimeters, all of it filled, and ironed or not.
fn box_parts(
    alloc: Global,
    perimeters: &[u8],
    ironing: &[u8],
) -> Result<Option<ObjectParts>, NoMemory> {
    let mut plate = Plate::blank(alloc)?;
    let loaded = plate.edit(alloc, &load(alloc)?)?;
    if loaded != EditReply::Object(0) {
        return Ok(None);
    }
    let _ = plate.edit(alloc, &set(alloc, b"perimeters", perimeters)?)?;
    let _ = plate.edit(alloc, &set(alloc, b"fill_density", b"100")?)?;
    let _ = plate.edit(alloc, &set(alloc, b"ironing", ironing)?)?;
    parts_of(alloc, &plate)
}

fn are_strokes(layers: &[Strokes], k: usize, wanted: &[Stroke]) -> bool {
    match layers.get(k) {
        Some(strokes) => strokes.strokes() == wanted,
        None => false,
    }
}

fn are_loops(parts: &ObjectParts, k: usize, wanted: &[Corner]) -> bool {
    match parts.loops().get(k) {
        Some(loops) => loops.loops().iter().all(|l| l.corners() == wanted)
            && loops.loops().len() == 1,
        None => false,
    }
}

fn stroke(x0: i32, y0: i32, x1: i32, y1: i32) -> Stroke {
    Stroke { x0, y0, x1, y1 }
}

#[test]
fn the_box_is_filled_along_rows_and_columns(rt: HostRuntime) -> Result<(), Fail> {
    let rows = [stroke(0, 1, 4, 1), stroke(4, 3, 0, 3)];
    let columns = [stroke(1, 0, 1, 4), stroke(3, 4, 3, 0)];
    let made = box_parts(rt.alloc(), b"0", b"0")?;
    assert!(rt; made.is_some(), "the plate can be printed");
    if let Some(parts) = &made {
        assert_eq!(rt; parts.layers(), 2, "layers");
        assert_eq!(rt; parts.tool(), 0, "tool");
        assert_eq!(rt;
            parts.corners(),
            [Corner { x: 0, y: 0 }].as_slice(),
            "corners"
        );
        assert!(rt; are_strokes(parts.infill(), 0, &rows), "infill of layer 0");
        assert!(rt;
            are_strokes(parts.infill(), 1, &columns),
            "infill of layer 1"
        );
        assert!(rt; are_strokes(parts.ironing(), 1, &[]), "ironing of layer 1");
        assert!(rt; are_strokes(parts.support(), 0, &[]), "support of layer 0");
        assert!(rt; parts.first_slice().is_some(), "first slice");
        assert!(rt; parts.first_support().is_some(), "first support");
    }
    Ok(())
}

#[test]
fn one_perimeter_is_all_of_the_box(rt: HostRuntime) -> Result<(), Fail> {
    let round = [
        Corner { x: 0, y: 0 },
        Corner { x: 2, y: 0 },
        Corner { x: 2, y: 2 },
        Corner { x: 0, y: 2 },
    ];
    let made = box_parts(rt.alloc(), b"1", b"0")?;
    assert!(rt; made.is_some(), "the plate can be printed");
    if let Some(parts) = &made {
        assert!(rt; are_loops(parts, 0, &round), "loops of layer 0");
        assert!(rt; are_loops(parts, 1, &round), "loops of layer 1");
        assert!(rt; are_strokes(parts.infill(), 0, &[]), "infill of layer 0");
    }
    Ok(())
}

#[test]
fn the_top_layer_is_ironed(rt: HostRuntime) -> Result<(), Fail> {
    let columns = [stroke(1, 0, 1, 4), stroke(3, 4, 3, 0)];
    let made = box_parts(rt.alloc(), b"0", b"1")?;
    assert!(rt; made.is_some(), "the plate can be printed");
    if let Some(parts) = &made {
        assert!(rt; are_strokes(parts.ironing(), 0, &[]), "ironing of layer 0");
        assert!(rt;
            are_strokes(parts.ironing(), 1, &columns),
            "ironing of layer 1"
        );
    }
    Ok(())
}
