//! A box of 0.8 by 0.8 by 0.4 mm: what its plates give.
use crate::around::ground;
use crate::objects::printed_objects;
use crate::{WholeFault, slice_whole};
use pl_grid::Plane;
use pl_model::{Block, Edit, Plate, ValueText};
use pl_tech::Problem;
use pl_units::{Nm, NoMemory, Shared, Text};
use std::alloc::Global;
use std::sync::Arc;
use std::test::Fail;

// The facets of the box by its corners: bit 0 of a corner's number is set at the far side in x, bit 1 in y, bit 2 in z.
const FACETS: [[u8; 3]; 12] = [
    [0, 2, 1],
    [1, 2, 3],
    [4, 5, 6],
    [5, 7, 6],
    [0, 1, 4],
    [1, 5, 4],
    [2, 6, 3],
    [3, 6, 7],
    [0, 4, 2],
    [2, 4, 6],
    [1, 3, 5],
    [3, 7, 5],
];

static BOX_TEXT: &[u8] =
    b"; headless plater\nG21\nG90\nM83\nM140 S60\nM104 S215\nM190 S60\nM109 S215\n;Z 0.200\nG1 Z0.200 F7800\n;OBJECT 0 0\nG1 X0.000 Y0.200 F7800\nG1 F4800\nG1 X0.800 Y0.200 E0.02660\nG1 X0.800 Y0.600 F7800\nG1 F4800\nG1 X0.000 Y0.600 E0.02660\n;Z 0.400\nG1 Z0.400 F7800\nM140 S60\nM104 S210\n;OBJECT 0 0\nG1 X0.200 Y0.000 F7800\nG1 F4800\nG1 X0.200 Y0.800 E0.02660\nG1 X0.600 Y0.800 F7800\nG1 F4800\nG1 X0.600 Y0.000 E0.02660\nM104 S0\nM140 S0\n";

fn vertex(number: u8) -> &'static [u8] {
    match number {
        0 => b"vertex 0 0 0\n",
        1 => b"vertex 0.8 0 0\n",
        2 => b"vertex 0 0.8 0\n",
        3 => b"vertex 0.8 0.8 0\n",
        4 => b"vertex 0 0 0.4\n",
        5 => b"vertex 0.8 0 0.4\n",
        6 => b"vertex 0 0.8 0.4\n",
        _ => b"vertex 0.8 0.8 0.4\n",
    }
}

fn put_facet(text: &mut Vec<u8>, corners: &[u8; 3]) -> Result<(), NoMemory> {
    text.extend_from_slice(b"facet normal 0 0 0\nouter loop\n")?;
    text.extend_from_slice(vertex(corners[0]))?;
    text.extend_from_slice(vertex(corners[1]))?;
    text.extend_from_slice(vertex(corners[2]))?;
    text.extend_from_slice(b"endloop\nendfacet\n")?;
    Ok(())
}

fn box_text(alloc: Global) -> Result<Vec<u8>, NoMemory> {
    let mut text = Vec::new(alloc);
    text.extend_from_slice(b"solid box\n")?;
    for corners in &FACETS {
        put_facet(&mut text, corners)?;
    }
    text.extend_from_slice(b"endsolid box\n")?;
    Ok(text)
}

fn load(plate: &mut Plate, alloc: Global) -> Result<(), NoMemory> {
    let text = box_text(alloc)?;
    if text.len() > 1 << 28 {
        return Err(NoMemory);
    }
    let bytes = Text::copy_of(alloc, text.as_slice())?;
    let block = Block::of(Text::copy_of(alloc, b"box")?, bytes);
    let block = Shared::of(Arc::new(alloc, block)?);
    let name = Text::copy_of(alloc, b"box")?;
    plate.edit(alloc, &Edit::Load { name, block })?;
    Ok(())
}

fn value(alloc: Global, bytes: &[u8]) -> Result<ValueText, NoMemory> {
    if bytes.len() > 1 << 28 {
        return Err(NoMemory);
    }
    Ok(ValueText::of(Text::copy_of(alloc, bytes)?))
}

fn set(plate: &mut Plate, alloc: Global, key: &[u8], text: &[u8]) -> Result<(), NoMemory> {
    let value = value(alloc, text)?;
    let key = Text::copy_of(alloc, key)?;
    plate.edit(alloc, &Edit::Set { key, value })?;
    Ok(())
}

fn move_to(plate: &mut Plate, alloc: Global, place: u8, x: Nm) -> Result<(), NoMemory> {
    let edit = Edit::Move {
        place,
        instance: 0,
        x,
        y: Nm(0),
    };
    plate.edit(alloc, &edit)?;
    Ok(())
}

// A plate of so many boxes, without perimeters and skirt, filled wholly.
fn boxes(alloc: Global, count: u8) -> Result<Plate, NoMemory> {
    let mut plate = Plate::blank(alloc)?;
    set(&mut plate, alloc, b"perimeters", b"0")?;
    set(&mut plate, alloc, b"fill_density", b"100")?;
    set(&mut plate, alloc, b"skirts", b"0")?;
    for _ in 0..count {
        load(&mut plate, alloc)?;
    }
    Ok(plate)
}

// Two boxes, the second 10 mm to the right and of the second tool, with a brim of one cell and a tower.
fn two_tools(alloc: Global) -> Result<Plate, NoMemory> {
    let mut plate = boxes(alloc, 2)?;
    move_to(&mut plate, alloc, 1, Nm(10_000_000))?;
    let value = value(alloc, b"2")?;
    let key = Text::copy_of(alloc, b"extruder")?;
    let edit = Edit::Override {
        place: 1,
        key,
        value,
    };
    plate.edit(alloc, &edit)?;
    set(&mut plate, alloc, b"brim_width", b"0.4")?;
    set(&mut plate, alloc, b"wipe_tower", b"1")?;
    Ok(plate)
}

// The cells of the bed on which the objects stand, where the plate can be printed.
fn ground_under(alloc: Global, plate: &Plate) -> Result<Option<Plane>, NoMemory> {
    if plate.problem().is_some() {
        return Ok(None);
    }
    let objects = printed_objects(alloc, plate)?;
    Ok(Some(ground(alloc, plate, &objects)?))
}

// How often a text stands in another.
fn count_of(text: &[u8], part: &[u8]) -> usize {
    if part.is_empty() {
        return 0;
    }
    text.windows(part.len())
        .filter(|window| *window == part)
        .count()
}

#[test]
fn the_box_has_its_text(rt: HostRuntime) -> Result<(), Fail> {
    let plate = boxes(rt.alloc(), 1)?;
    let text = slice_whole(rt.alloc(), &plate)?;
    assert_eq!(rt; text.bytes().len(), 409);
    assert_eq!(rt; text.bytes(), BOX_TEXT);
    Ok(())
}

#[test]
fn a_plate_with_a_problem_has_no_text(rt: HostRuntime) -> Result<(), Fail> {
    let blank = Plate::blank(rt.alloc())?;
    let fault = slice_whole(rt.alloc(), &blank).err();
    assert_eq!(rt; fault, Some(WholeFault::Problem(Problem::Empty)));
    let mut plate = boxes(rt.alloc(), 2)?;
    move_to(&mut plate, rt.alloc(), 1, Nm(-400_000))?;
    let fault = slice_whole(rt.alloc(), &plate).err();
    assert_eq!(rt; fault, Some(WholeFault::Problem(Problem::OutOfBed(1, 0))));
    Ok(())
}

#[test]
fn two_tools_change_at_each_height(rt: HostRuntime) -> Result<(), Fail> {
    let plate = two_tools(rt.alloc())?;
    let text = slice_whole(rt.alloc(), &plate)?;
    let rows: [(&[u8], usize); 8] = [
        (b"\n;Z ", 2),
        (b"\nT1\n", 1),
        (b"\nT0\n", 1),
        (b"\n;OBJECT 0 0\n", 2),
        (b"\n;OBJECT 1 0\n", 2),
        (b"\nG1 X180.000 Y140.200 F7800\n", 2),
        (b"\nG1 F2700\n", 2),
        (b"\nG1 X10.000 Y0.200 F7800\n", 1),
    ];
    for (part, count) in &rows {
        assert_eq!(rt; count_of(text.bytes(), part), *count);
    }
    Ok(())
}

#[test]
fn a_box_stands_on_its_cells(rt: HostRuntime) -> Result<(), Fail> {
    let mut plate = boxes(rt.alloc(), 1)?;
    move_to(&mut plate, rt.alloc(), 0, Nm(1_200_000))?;
    let found = ground_under(rt.alloc(), &plate)?;
    let plane = found.ok_or("the plate can be printed")?;
    let rows = [
        (2, 0, false),
        (3, 0, true),
        (4, 1, true),
        (5, 1, false),
        (3, 2, false),
    ];
    for (x, y, filled) in &rows {
        assert_eq!(rt; plane.get(*x, *y), *filled, "{x} {y}");
    }
    Ok(())
}

#[test]
fn faults_have_their_words(rt: HostRuntime) -> Result<(), Fail> {
    let problem = format!(in rt.alloc(); "{}", WholeFault::Problem(Problem::OutOfBed(3, 1)))?;
    assert_eq!(rt; problem.as_str(), "OutOfBed 3 1");
    let memory = format!(in rt.alloc(); "{}", WholeFault::NoMemory)?;
    assert_eq!(rt; memory.as_str(), "out of memory");
    Ok(())
}
