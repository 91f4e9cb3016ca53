//! What edits answer, problems, and copies.
use crate::{Block, Edit, EditRefusal, EditReply, Plate, ValueText};
use pl_options::{IniFault, Key, Value};
use pl_stl::StlFault;
use pl_tech::Problem;
use pl_units::{Nm, NoMemory, Shared, Text};
use std::alloc::Global;
use std::sync::Arc;
use std::test::Fail;

// A facet of 0.8 by 0.8 by 0.4 mm: two columns and two rows of cells.
const SMALL: &[u8] =
    b"solid a\nfacet normal 0 0 0\nouter loop\nvertex 0 0 0\nvertex 0.8 0 0\nvertex 0 0.8 0.4\nendloop\nendfacet\nendsolid a\n";

// A facet that fills the bed, 12 mm high: 60 layers of 625 by 525 cells.
const LARGE: &[u8] =
    b"solid a\nfacet normal 0 0 0\nouter loop\nvertex 0 0 0\nvertex 250 0 0\nvertex 0 210 12\nendloop\nendfacet\nendsolid a\n";

// A text that is none of a mesh, by the word of its second line.
const NO_MESH: &[u8] = b"solid a\nfacets\n";

// An edit of a row: a place, an instance, a shift to the right in nanometres, the bytes of a key, of a value or of a block.
#[derive(Clone, Copy)]
enum Step {
    Load(&'static [u8]),
    Reload(u8, &'static [u8]),
    Delete(u8),
    Copy(u8),
    Move(u8, u8, i64),
    Drop(u8, u8),
    Turn(u8, u8),
    Set(&'static [u8], &'static [u8]),
    Override(u8, &'static [u8], &'static [u8]),
    Unset(u8, &'static [u8]),
    Ini(&'static [u8]),
}

fn block(alloc: Global, bytes: &[u8]) -> Result<Shared<Block>, NoMemory> {
    if bytes.len() > 1 << 28 {
        return Err(NoMemory);
    }
    let name = Text::copy_of(alloc, b"block")?;
    let bytes = Text::copy_of(alloc, bytes)?;
    Ok(Shared::of(Arc::new(alloc, Block::of(name, bytes))?))
}

fn value(alloc: Global, bytes: &[u8]) -> Result<ValueText, NoMemory> {
    if bytes.len() > 1 << 28 {
        return Err(NoMemory);
    }
    Ok(ValueText::of(Text::copy_of(alloc, bytes)?))
}

fn load(alloc: Global, bytes: &[u8]) -> Result<Edit, NoMemory> {
    let block = block(alloc, bytes)?;
    let name = Text::copy_of(alloc, b"a")?;
    Ok(Edit::Load { name, block })
}

fn reload(alloc: Global, place: u8, bytes: &[u8]) -> Result<Edit, NoMemory> {
    let block = block(alloc, bytes)?;
    Ok(Edit::Reload { place, block })
}

fn copy(place: u8) -> Edit {
    Edit::Copy {
        place,
        x: Nm(10_000_000),
        y: Nm(0),
    }
}

fn shift(place: u8, instance: u8, x: i64) -> Edit {
    Edit::Move {
        place,
        instance,
        x: Nm(x),
        y: Nm(0),
    }
}

fn set(alloc: Global, key: &[u8], text: &[u8]) -> Result<Edit, NoMemory> {
    let value = value(alloc, text)?;
    let key = Text::copy_of(alloc, key)?;
    Ok(Edit::Set { key, value })
}

fn override_value(alloc: Global, place: u8, key: &[u8], text: &[u8]) -> Result<Edit, NoMemory> {
    let value = value(alloc, text)?;
    let key = Text::copy_of(alloc, key)?;
    Ok(Edit::Override { place, key, value })
}

fn unset(alloc: Global, place: u8, key: &[u8]) -> Result<Edit, NoMemory> {
    let key = Text::copy_of(alloc, key)?;
    Ok(Edit::Unset { place, key })
}

fn ini(alloc: Global, bytes: &[u8]) -> Result<Edit, NoMemory> {
    let block = block(alloc, bytes)?;
    Ok(Edit::Ini { block })
}

// The edit of a row.
fn edit_of(alloc: Global, step: Step) -> Result<Edit, NoMemory> {
    match step {
        Step::Load(bytes) => load(alloc, bytes),
        Step::Reload(place, bytes) => reload(alloc, place, bytes),
        Step::Delete(place) => Ok(Edit::Delete { place }),
        Step::Copy(place) => Ok(copy(place)),
        Step::Move(place, instance, x) => Ok(shift(place, instance, x)),
        Step::Drop(place, instance) => Ok(Edit::Drop { place, instance }),
        Step::Turn(place, quarter) => Ok(Edit::Turn { place, quarter }),
        Step::Set(key, text) => set(alloc, key, text),
        Step::Override(place, key, text) => override_value(alloc, place, key, text),
        Step::Unset(place, key) => unset(alloc, place, key),
        Step::Ini(bytes) => ini(alloc, bytes),
    }
}

// Makes the edit of a row.
fn answer(plate: &mut Plate, alloc: Global, step: Step) -> Result<EditReply, NoMemory> {
    let edit = edit_of(alloc, step)?;
    plate.edit(alloc, &edit)
}

// Makes the edits of rows up to the first one with another answer than the row says, whose number it gives.
fn first_other(
    plate: &mut Plate,
    alloc: Global,
    rows: &[(Step, EditReply)],
) -> Result<Option<usize>, NoMemory> {
    for number in 0..rows.len() {
        let (step, reply) = rows[number];
        if answer(plate, alloc, step)? != reply {
            return Ok(Some(number));
        }
    }
    Ok(None)
}

// Whether the value that holds at place 0 is this whole number.
fn is_whole(plate: &Plate, key: Key, number: i64) -> bool {
    if plate.object(0).is_none() {
        return false;
    }
    plate.effective(0, key).same(&Value::Whole(number))
}

#[test]
fn places_are_filled_from_the_least_free_one(rt: HostRuntime) -> Result<(), Fail> {
    let rows = [
        // no place is filled, and a missing object comes before a bad block
        (Step::Copy(0), EditReply::Refused(EditRefusal::NoObject)),
        (
            Step::Reload(0, NO_MESH),
            EditReply::Refused(EditRefusal::NoObject),
        ),
        (
            Step::Load(NO_MESH),
            EditReply::Refused(EditRefusal::BadStl(2, StlFault::BadToken)),
        ),
        (Step::Load(SMALL), EditReply::Object(0)),
        (Step::Load(SMALL), EditReply::Object(1)),
        (Step::Load(SMALL), EditReply::Object(2)),
        (Step::Delete(1), EditReply::Done),
        (Step::Delete(1), EditReply::Refused(EditRefusal::NoObject)),
        (Step::Load(LARGE), EditReply::Object(1)),
        (
            Step::Reload(1, NO_MESH),
            EditReply::Refused(EditRefusal::BadStl(2, StlFault::BadToken)),
        ),
        (Step::Reload(1, SMALL), EditReply::Done),
    ];
    let mut plate = Plate::blank(rt.alloc())?;
    let other = first_other(&mut plate, rt.alloc(), &rows)?;
    assert_eq!(rt; other, None);
    Ok(())
}

#[test]
fn instances_are_copied_moved_and_dropped(rt: HostRuntime) -> Result<(), Fail> {
    let rows = [
        (Step::Load(SMALL), EditReply::Object(0)),
        (Step::Copy(0), EditReply::Instance(1)),
        (Step::Move(0, 1, 400_000), EditReply::Done),
        (
            Step::Move(0, 2, 0),
            EditReply::Refused(EditRefusal::NoInstance),
        ),
        (Step::Drop(0, 0), EditReply::Done),
        // one instance is left: a missing one is named before the last one
        (
            Step::Drop(0, 1),
            EditReply::Refused(EditRefusal::NoInstance),
        ),
        (
            Step::Drop(0, 0),
            EditReply::Refused(EditRefusal::LastInstance),
        ),
        (Step::Turn(0, 3), EditReply::Done),
        (Step::Turn(1, 3), EditReply::Refused(EditRefusal::NoObject)),
    ];
    let mut plate = Plate::blank(rt.alloc())?;
    let other = first_other(&mut plate, rt.alloc(), &rows)?;
    assert_eq!(rt; other, None);
    Ok(())
}

#[test]
fn options_are_set_for_all(rt: HostRuntime) -> Result<(), Fail> {
    let rows = [
        (
            Step::Set(b"colour", b"1"),
            EditReply::Refused(EditRefusal::UnknownKey),
        ),
        (
            Step::Set(b"perimeters", b"x"),
            EditReply::Refused(EditRefusal::BadValue),
        ),
        (
            Step::Set(b"perimeters", b"33"),
            EditReply::Refused(EditRefusal::OutOfRange),
        ),
        (Step::Set(b"perimeters", b"3"), EditReply::Done),
        (
            Step::Ini(b"\nperimeters 5\n"),
            EditReply::Refused(EditRefusal::BadIni(2, IniFault::NoEquals)),
        ),
        (
            Step::Ini(b"perimeters = 5\ncolour = 1\n"),
            EditReply::Set {
                taken: 1,
                passed: 1,
            },
        ),
    ];
    let mut plate = Plate::blank(rt.alloc())?;
    let other = first_other(&mut plate, rt.alloc(), &rows)?;
    assert_eq!(rt; other, None);
    Ok(())
}

#[test]
fn an_object_has_values_of_its_own(rt: HostRuntime) -> Result<(), Fail> {
    let rows = [
        (Step::Load(SMALL), EditReply::Object(0)),
        (Step::Set(b"perimeters", b"5"), EditReply::Done),
        // the object before the key, the key before the objects that have it, these before the value
        (
            Step::Override(16, b"colour", b"x"),
            EditReply::Refused(EditRefusal::NoObject),
        ),
        (
            Step::Override(0, b"colour", b"x"),
            EditReply::Refused(EditRefusal::UnknownKey),
        ),
        (
            Step::Override(0, b"skirts", b"x"),
            EditReply::Refused(EditRefusal::NotObjectKey),
        ),
        (Step::Override(0, b"perimeters", b"4"), EditReply::Done),
        (Step::Unset(0, b"fill_density"), EditReply::Done),
    ];
    let mut plate = Plate::blank(rt.alloc())?;
    let other = first_other(&mut plate, rt.alloc(), &rows)?;
    assert_eq!(rt; other, None);
    assert!(rt; is_whole(&plate, Key::Perimeters, 4));
    let _ = answer(&mut plate, rt.alloc(), Step::Unset(0, b"perimeters"))?;
    assert!(rt; is_whole(&plate, Key::Perimeters, 5));
    Ok(())
}

// Sixteen loads, then sixteen instances at place 15.
fn filled(alloc: Global) -> Result<Plate, NoMemory> {
    let mut plate = Plate::blank(alloc)?;
    for _place in 0..16u8 {
        let _ = answer(&mut plate, alloc, Step::Load(SMALL))?;
    }
    for _instance in 1..16u8 {
        let _ = answer(&mut plate, alloc, Step::Copy(15))?;
    }
    Ok(plate)
}

#[test]
fn places_and_instances_are_sixteen(rt: HostRuntime) -> Result<(), Fail> {
    let rows = [
        (
            Step::Load(SMALL),
            EditReply::Refused(EditRefusal::FullObjects),
        ),
        // a bad block comes before full places
        (
            Step::Load(NO_MESH),
            EditReply::Refused(EditRefusal::BadStl(2, StlFault::BadToken)),
        ),
        (
            Step::Copy(15),
            EditReply::Refused(EditRefusal::FullInstances),
        ),
        (Step::Drop(15, 15), EditReply::Done),
        (Step::Copy(15), EditReply::Instance(15)),
        (Step::Delete(15), EditReply::Done),
        (Step::Load(SMALL), EditReply::Object(15)),
    ];
    let mut plate = filled(rt.alloc())?;
    let other = first_other(&mut plate, rt.alloc(), &rows)?;
    assert_eq!(rt; other, None);
    Ok(())
}

// Makes the edits of rows up to the first one that leaves another problem than the row says, whose number it gives.
fn first_other_problem(
    plate: &mut Plate,
    alloc: Global,
    rows: &[(Step, Option<Problem>)],
) -> Result<Option<usize>, NoMemory> {
    for number in 0..rows.len() {
        let (step, problem) = rows[number];
        let _ = answer(plate, alloc, step)?;
        if plate.problem() != problem {
            return Ok(Some(number));
        }
    }
    Ok(None)
}

#[test]
fn the_first_problem_is_named(rt: HostRuntime) -> Result<(), Fail> {
    let rows = [
        (Step::Delete(0), Some(Problem::Empty)),
        (Step::Load(SMALL), None),
        (Step::Copy(0), None),
        // the last column, and one further
        (Step::Move(0, 1, 249_599_999), None),
        (Step::Move(0, 1, 249_600_000), Some(Problem::OutOfBed(0, 1))),
        (Step::Move(0, 0, -1), Some(Problem::OutOfBed(0, 0))),
        (Step::Move(0, 0, 0), Some(Problem::OutOfBed(0, 1))),
        // too many cells at a later place, and then alone
        (Step::Load(LARGE), Some(Problem::OutOfBed(0, 1))),
        (Step::Delete(0), Some(Problem::TooManyCells(1))),
        (Step::Set(b"layer_height", b"0.3"), None),
    ];
    let mut plate = Plate::blank(rt.alloc())?;
    let other = first_other_problem(&mut plate, rt.alloc(), &rows)?;
    assert_eq!(rt; other, None);
    Ok(())
}

#[test]
fn a_copy_is_equal_until_it_is_edited(rt: HostRuntime) -> Result<(), Fail> {
    let mut plate = Plate::blank(rt.alloc())?;
    let _ = answer(&mut plate, rt.alloc(), Step::Load(SMALL))?;
    let before = plate.copied(rt.alloc())?;
    assert!(rt; plate.same(&before));
    let _ = answer(&mut plate, rt.alloc(), Step::Move(0, 0, 1))?;
    assert!(rt; !plate.same(&before));
    Ok(())
}
