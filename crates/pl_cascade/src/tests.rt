//! What edits touch, and what slots need.
use crate::{closure, needs, present, touched};
use pl_model::{Block, Edit, Plate, ValueText};
use pl_tech::{Slot, SlotSet};
use pl_units::{Nm, NoMemory, Shared, Text};
use std::alloc::Global;
use std::sync::Arc;
use std::test::Fail;

// A facet of 0.8 by 0.8 by 0.4 mm.
const SMALL: &[u8] =
    b"solid a\nfacet normal 0 0 0\nouter loop\nvertex 0 0 0\nvertex 0.8 0 0\nvertex 0 0.8 0.4\nendloop\nendfacet\nendsolid a\n";

// An edit of a row: a place, a shift to the right in nanometres, the bytes of a key and of a value.
#[derive(Clone, Copy)]
enum Step {
    Load,
    Delete(u8),
    Move(u8, i64),
    Turn(u8, u8),
    Set(&'static [u8], &'static [u8]),
    Override(u8, &'static [u8], &'static [u8]),
}

fn value(alloc: Global, bytes: &[u8]) -> Result<ValueText, NoMemory> {
    if bytes.len() > 1 << 28 {
        return Err(NoMemory);
    }
    Ok(ValueText::of(Text::copy_of(alloc, bytes)?))
}

fn load(alloc: Global) -> Result<Edit, NoMemory> {
    let name = Text::copy_of(alloc, b"a")?;
    let bytes = Text::copy_of(alloc, SMALL)?;
    let block = Shared::of(Arc::new(alloc, Block::of(Text::copy_of(alloc, b"block")?, bytes))?);
    Ok(Edit::Load { name, block })
}

fn set(alloc: Global, key: &[u8], text: &[u8]) -> Result<Edit, NoMemory> {
    let value = value(alloc, text)?;
    let key = Text::copy_of(alloc, key)?;
    Ok(Edit::Set { key, value })
}

fn override_value(alloc: Global, place: u8, key: &[u8], text: &[u8]) -> Result<Edit, NoMemory> {
    let value = value(alloc, text)?;
    let key = Text::copy_of(alloc, key)?;
    Ok(Edit::Override { place, key, value })
}

// The edit of a row.
fn edit_of(alloc: Global, step: Step) -> Result<Edit, NoMemory> {
    match step {
        Step::Load => load(alloc),
        Step::Delete(place) => Ok(Edit::Delete { place }),
        Step::Move(place, x) => Ok(Edit::Move {
            place,
            instance: 0,
            x: Nm(x),
            y: Nm(0),
        }),
        Step::Turn(place, quarter) => Ok(Edit::Turn { place, quarter }),
        Step::Set(key, text) => set(alloc, key, text),
        Step::Override(place, key, text) => override_value(alloc, place, key, text),
    }
}

// What the edit of a row touches.
fn touches(plate: &mut Plate, alloc: Global, step: Step) -> Result<SlotSet, NoMemory> {
    let old = plate.copied(alloc)?;
    let edit = edit_of(alloc, step)?;
    let _ = plate.edit(alloc, &edit)?;
    Ok(touched(&old, plate))
}

// The set of these numbers.
fn slots(numbers: &[u8]) -> SlotSet {
    let mut slots = SlotSet::empty();
    for number in numbers {
        if *number < 100 {
            slots = slots.with(Slot::of(*number));
        }
    }
    slots
}

// Makes the edits of rows up to the first one that touches other slots than the row says, whose number it gives.
fn first_other(
    plate: &mut Plate,
    alloc: Global,
    rows: &[(Step, &[u8])],
) -> Result<Option<usize>, NoMemory> {
    for number in 0..rows.len() {
        let (step, numbers) = rows[number];
        if touches(plate, alloc, step)? != slots(numbers) {
            return Ok(Some(number));
        }
    }
    Ok(None)
}

#[test]
fn an_edit_touches_what_is_made_from_it(rt: HostRuntime) -> Result<(), Fail> {
    let rows: [(Step, &[u8]); 16] = [
        (Step::Load, &[0, 1, 2, 3, 4, 5, 96, 97, 98, 99]),
        (Step::Load, &[6, 7, 8, 9, 10, 11, 96, 97, 98, 99]),
        (Step::Set(b"notes", b"two"), &[]),
        (Step::Set(b"ironing", b"1"), &[4, 10, 96, 99]),
        // the same value once more
        (Step::Set(b"ironing", b"1"), &[]),
        (
            Step::Override(0, b"fill_density", b"30"),
            &[3, 4, 96, 97, 98, 99],
        ),
        (
            Step::Override(1, b"perimeters", b"4"),
            &[7, 8, 9, 10, 96, 97, 98, 99],
        ),
        // what holds for the object at place 1 stays
        (
            Step::Set(b"perimeters", b"3"),
            &[1, 2, 3, 4, 96, 97, 98, 99],
        ),
        (
            Step::Override(1, b"support_material", b"1"),
            &[11, 96, 97, 98, 99],
        ),
        (Step::Override(0, b"extruder", b"2"), &[96, 99]),
        (Step::Set(b"brim_width", b"3"), &[97, 98, 99]),
        (Step::Set(b"travel_speed", b"100"), &[99]),
        // a shift below one cell
        (Step::Move(0, 1), &[96, 97, 98, 99]),
        (Step::Turn(1, 1), &[6, 7, 8, 9, 10, 11, 96, 97, 98, 99]),
        // no turn
        (Step::Turn(0, 4), &[]),
        (Step::Delete(1), &[6, 7, 8, 9, 10, 11, 96, 97, 98, 99]),
    ];
    let mut plate = Plate::blank(rt.alloc())?;
    let other = first_other(&mut plate, rt.alloc(), &rows)?;
    assert_eq!(rt; other, None);
    Ok(())
}

#[test]
fn slots_need_what_they_are_made_from(rt: HostRuntime) -> Result<(), Fail> {
    let mut plate = Plate::blank(rt.alloc())?;
    let _ = touches(&mut plate, rt.alloc(), Step::Load)?;
    assert!(rt; present(&plate) == slots(&[0, 1, 2, 3, 4, 5, 96, 97, 98, 99]));
    let rows: [(u8, &[u8]); 10] = [
        (0, &[]),
        (1, &[0]),
        (2, &[0, 1]),
        (3, &[2]),
        (4, &[0, 2]),
        (5, &[0]),
        (96, &[0, 1, 2, 3, 4, 5]),
        (97, &[0, 5]),
        (98, &[0, 5]),
        (99, &[0, 1, 2, 3, 4, 5, 96, 97, 98]),
    ];
    for (number, numbers) in rows {
        if number < 100 {
            assert!(rt;
                needs(&plate, Slot::of(number)) == slots(numbers),
                "slot {number}"
            );
        }
    }
    Ok(())
}

#[test]
fn prepare_reaches_skirt_and_brim_through_infill(rt: HostRuntime) {
    assert!(rt; closure(slots(&[2])) == slots(&[2, 3, 4, 96, 97, 98, 99]));
    assert!(rt; closure(slots(&[4, 97])) == slots(&[4, 96, 97, 98, 99]));
}
