//! The filled places of a plate, and the heights of its print.
ghost use Rattle.std.specs.Prelude.{◌≡◌, ◌<◌, ◌≤◌, ◌++◌, IfOk, length, map};
ghost use Rattle.std.specs.List.{flat_map};
ghost use Rattle.pl_values.specs.PrintValues.{places_of, heights_of};
ghost use Rattle.pl_values.specs.Ascending.{ascending};
ghost use Rattle.pl_prints.specs.Layers.{tops_in};
ghost use Rattle.pl_prints.specs.Heights.{nm_of, if_filled, heights_in};

use crate::layers::ObjectLayers;
use crate::used::all_layers;
use pl_model::{Object, Plate};
use pl_units::{Nm, NoMemory};
use std::alloc::Global;

/// The filled places of a plate, from 0 to 15, ascending. Refused only for want of memory.
pub fn places(alloc: Global, plate: &Plate) -> Result<Vec<u8>, NoMemory>
    ensures { IfOk result (λ places. places.items ≡ places_of plate.now) }
{
    let filled = plate.places();
    let mut places = Vec::new(alloc);
    for place in 0..16u8 {
        put_place(filled, place, &mut places)?;
    }
    Ok(places)
}

// Puts a place behind others, where it is filled.
fn put_place(filled: &[Option<Object>], place: u8, places: &mut Vec<u8>) -> Result<(), NoMemory>
    requires sixteen { length filled.now ≡ 16 }
    requires place { place < 16 }
    ensures { IfOk result (λ _. places.new.items ≡ places.old.items ++ if_filled filled.now place) }
{
    if filled[usize::from(place)].is_some() {
        places.push(place)?;
    }
    Ok(())
}

// The tops of all layers, object by object.
fn all_tops(alloc: Global, objects: &[ObjectLayers]) -> Result<Vec<i64>, NoMemory>
    requires { length objects.now ≤ 16 }
    ensures few { IfOk result (λ tops. length tops.items ≤ 1600000) }
    ensures tops { IfOk result (λ tops. tops.items ≡ flat_map tops_in objects.now) }
{
    let mut tops = Vec::new(alloc);
    for object in objects {
        object.put_tops(&mut tops)?;
    }
    Ok(tops)
}

// Puts numbers in order, and each but once.
fn put_in_order(numbers: &mut Vec<i64>)
    ensures { numbers.new.items ≡ ascending numbers.old.items }
{
    numbers.sort_unstable();
    numbers.dedup();
}

// Numbers of nanometres as lengths.
fn lengths(alloc: Global, numbers: &[i64]) -> Result<Vec<Nm>, NoMemory>
    ensures { IfOk result (λ lengths. lengths.items ≡ map nm_of numbers.now) }
{
    let mut lengths = Vec::with_capacity(alloc, numbers.len())?;
    for number in numbers {
        lengths.push(Nm(*number))?;
    }
    Ok(lengths)
}

/// The heights of a print by the layers of its objects, at most sixteen: the tops of all layers, in nanometres above the
/// plate, ascending and each once. There are at most 1,600,000. Refused only for want of memory.
pub fn heights_of_layers(alloc: Global, objects: &[ObjectLayers]) -> Result<Vec<Nm>, NoMemory>
    requires { length objects.now ≤ 16 }
    ensures few { IfOk result (λ tops. length tops.items ≤ 1600000) }
    ensures tops { IfOk result (λ tops. tops.items ≡ heights_in objects.now) }
{
    let mut numbers = all_tops(alloc, objects)?;
    put_in_order(&mut numbers);
    lengths(alloc, &numbers)
}

/// The heights of a print: the tops of all layers of all objects, in nanometres above the plate, ascending and each once.
/// There are at most 1,600,000. Refused only for want of memory.
pub fn tops(alloc: Global, plate: &Plate) -> Result<Vec<Nm>, NoMemory>
    ensures few { IfOk result (λ tops. length tops.items ≤ 1600000) }
    ensures tops { IfOk result (λ tops. tops.items ≡ heights_of plate.now) }
{
    let objects = all_layers(alloc, plate)?;
    heights_of_layers(alloc, &objects)
}
