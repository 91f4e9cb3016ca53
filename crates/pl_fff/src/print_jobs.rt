//! The jobs of the slots of a print.
ghost use Rattle.std.specs.Prelude.{◌≡◌, ◌≤◌, ◌<◌, ◌∷◌, ◌++◌, [], ℕ, Some, length, map, IfOk, IsSome};
ghost use Rattle.std.specs.Option.{IfSome, option_map};
ghost use Rattle.pl_keys.specs.Steps as steps;
ghost use Rattle.pl_tech.specs.Kept.{kept_at};
ghost use Rattle.pl_model.specs.Printable.{AreInBed, CanBePrinted};
ghost use Rattle.pl_cascade.specs.Slots.{print_slot};
ghost use Rattle.pl_values.specs.PrintValues.{blocks_of, objects_of};
ghost use Rattle.pl_prints.specs.Footprints.{footprint_in};
ghost use Rattle.pl_prints.specs.Heights.{of_object};
ghost use Rattle.pl_parts.specs.Parts.{object_data};
ghost use Rattle.pl_slots.specs.Values.{print_value};
ghost use Rattle.pl_slots.specs.Batches.{print_batches};
ghost use Rattle.pl_fff.specs.Kept.{IsKept, AreKept};
ghost use Rattle.pl_fff.specs.Jobs.{job_value, job_polls, HoldsMesh};

use crate::job::{BrimJob, ExportJob, FffJob, SkirtJob, TowerJob};
use crate::kept_object::{INFILL, IRONING, KeptObject, PERIMETERS, SUPPORT};
use crate::parts::{ExportPlace, Foot};
use pl_model::{Object, Plate};
use pl_options::Config;
use pl_prints::{
    ObjectLayers, all_layers, brim_width, few_heights, in_range, places, skirt_count,
    skirt_distance, tower,
};
use pl_slots::FffOutput;
use pl_steps::{StrokeLists, Strokes, corners};
use pl_tech::{Kept, Slot};
use pl_units::{NoMemory, Shared};
use std::alloc::Global;
use std::sync::Arc;

const TOWER: u8 = 6;

const SKIRT: u8 = 7;

const BRIM: u8 = 8;

// The tower's strokes of each of the four changes of tools that a height may have.
fn blocks(alloc: Global, plate: &Plate) -> Result<StrokeLists, NoMemory>
    ensures { IfOk result (λ lists. lists ≡ blocks_of plate.now) }
{
    let mut lists = Vec::new(alloc);
    for change in 0..4u8 {
        lists.push(Strokes::of(tower(alloc, plate.config(), change)?))?;
    }
    Ok(StrokeLists::of(lists))
}

/// The job that finds the heights of a print and their tools.
pub(crate) fn tower_job(alloc: Global, plate: &Plate) -> Result<FffJob, NoMemory>
    ensures value { IfOk result (λ j. job_value j ≡ print_value plate.now steps.tower) }
    ensures polls { IfOk result (λ j. job_polls j ≡ print_batches plate.now steps.tower) }
    ensures mesh { IfOk result (λ j. HoldsMesh j → ⊥) }
{
    let objects = all_layers(alloc, plate)?;
    let blocks = blocks(alloc, plate)?;
    Ok(FffJob::Tower(TowerJob { objects, blocks }))
}

// Puts what stands at a place behind others.
fn put_foot(
    alloc: Global,
    config: &Config,
    place: &Option<Object>,
    number: u8,
    kept: &Kept<FffOutput>,
    feet: &mut Vec<Foot>,
) -> Result<(), NoMemory>
    requires low { number < 16 }
    requires slices { IfSome place.now (λ object. IsKept kept.now config.now object number steps.slice) }
    requires support { IfSome place.now (λ object. IsKept kept.now config.now object number steps.support) }
    ensures { IfOk result (λ _. feet.new.items ≡ feet.old.items ++ of_object (λ object. footprint_in config.now object ∷ []) place.now) }
{
    if let Some(object) = place {
        let one = KeptObject {
            config,
            object,
            place: number,
            kept,
        };
        feet.push(Foot {
            slices: one.slices()?,
            support: one.result(SUPPORT)?,
            instances: object.instances.copied(alloc)?,
        })?;
    }
    Ok(())
}

// What stands on the bed: the slices and supports of all objects are kept.
fn all_feet(alloc: Global, plate: &Plate, kept: &Kept<FffOutput>) -> Result<Vec<Foot>, NoMemory>
    requires slices { AreKept kept.now plate.now steps.slice }
    requires support { AreKept kept.now plate.now steps.support }
    ensures { IfOk result (λ feet. feet.items ≡ map (footprint_in plate.now.config) (objects_of plate.now)) }
{
    let mut feet = Vec::new(alloc);
    for (number, place) in plate.places().iter().enumerate() {
        put_foot(alloc, plate.config(), place, number as u8, kept, &mut feet)?;
    }
    Ok(feet)
}

/// The job that finds the skirt. The plate has no problem, and the slices and supports of all objects are kept.
pub(crate) fn skirt_job(
    alloc: Global,
    plate: &Plate,
    kept: &Kept<FffOutput>,
) -> Result<FffJob, NoMemory>
    requires printable { CanBePrinted plate.now }
    requires slices { AreKept kept.now plate.now steps.slice }
    requires support { AreKept kept.now plate.now steps.support }
    ensures value { IfOk result (λ j. job_value j ≡ print_value plate.now steps.skirt) }
    ensures polls { IfOk result (λ j. job_polls j ≡ print_batches plate.now steps.skirt) }
    ensures mesh { IfOk result (λ j. HoldsMesh j → ⊥) }
{
    let feet = all_feet(alloc, plate, kept)?;
    let config = plate.config();
    Ok(FffJob::Skirt(SkirtJob {
        feet,
        distance: skirt_distance(config),
        count: skirt_count(config),
    }))
}

/// The job that finds the brim. The plate has no problem, and the slices and supports of all objects are kept.
pub(crate) fn brim_job(
    alloc: Global,
    plate: &Plate,
    kept: &Kept<FffOutput>,
) -> Result<FffJob, NoMemory>
    requires printable { CanBePrinted plate.now }
    requires slices { AreKept kept.now plate.now steps.slice }
    requires support { AreKept kept.now plate.now steps.support }
    ensures value { IfOk result (λ j. job_value j ≡ print_value plate.now steps.brim) }
    ensures polls { IfOk result (λ j. job_polls j ≡ print_batches plate.now steps.brim) }
    ensures mesh { IfOk result (λ j. HoldsMesh j → ⊥) }
{
    let feet = all_feet(alloc, plate, kept)?;
    let width = brim_width(plate.config());
    Ok(FffJob::Brim(BrimJob { feet, width }))
}

// What an object is printed as. Its perimeters, infill, ironing and support are kept.
fn export_object(alloc: Global, one: &KeptObject) -> Result<ExportPlace, NoMemory>
    requires inside { AreInBed one.now.object.now (length one.now.object.now.instances) }
    requires perimeters { IsKept one.now.kept.now one.now.config.now one.now.object.now one.now.place steps.perimeters }
    requires infill { IsKept one.now.kept.now one.now.config.now one.now.object.now one.now.place steps.infill }
    requires ironing { IsKept one.now.kept.now one.now.config.now one.now.object.now one.now.place steps.ironing }
    requires support { IsKept one.now.kept.now one.now.config.now one.now.object.now one.now.place steps.support }
    ensures { IfOk result (λ place. place ≡ object_data one.now.config.now one.now.object.now) }
{
    let corners = corners(alloc, one.object)?;
    let perimeters = one.result(PERIMETERS)?;
    let infill = one.result(INFILL)?;
    let ironing = one.result(IRONING)?;
    let support = one.result(SUPPORT)?;
    Ok(ExportPlace {
        corners,
        layers: ObjectLayers::of(one.config, one.object),
        perimeters,
        infill,
        ironing,
        support,
    })
}

// What a place is printed as.
fn export_place(
    alloc: Global,
    config: &Config,
    place: &Option<Object>,
    number: u8,
    kept: &Kept<FffOutput>,
) -> Result<Option<ExportPlace>, NoMemory>
    requires low { number < 16 }
    requires inside { IfSome place.now (λ object. AreInBed object (length object.instances)) }
    requires perimeters { IfSome place.now (λ object. IsKept kept.now config.now object number steps.perimeters) }
    requires infill { IfSome place.now (λ object. IsKept kept.now config.now object number steps.infill) }
    requires ironing { IfSome place.now (λ object. IsKept kept.now config.now object number steps.ironing) }
    requires support { IfSome place.now (λ object. IsKept kept.now config.now object number steps.support) }
    ensures { IfOk result (λ part. part ≡ option_map (object_data config.now) place.now) }
{
    match place {
        Some(object) => {
            let one = KeptObject {
                config,
                object,
                place: number,
                kept,
            };
            Ok(Some(export_object(alloc, &one)?))
        }
        None => Ok(None),
    }
}

// What each place is printed as. The plate has no problem.
fn export_places(
    alloc: Global,
    plate: &Plate,
    kept: &Kept<FffOutput>,
) -> Result<Vec<Option<ExportPlace>>, NoMemory>
    requires printable { CanBePrinted plate.now }
    requires perimeters { AreKept kept.now plate.now steps.perimeters }
    requires infill { AreKept kept.now plate.now steps.infill }
    requires ironing { AreKept kept.now plate.now steps.ironing }
    requires support { AreKept kept.now plate.now steps.support }
    ensures { IfOk result (λ parts. parts.items ≡ map (option_map (object_data plate.now.config)) plate.now.places) }
{
    let mut parts = Vec::new(alloc);
    for (number, place) in plate.places().iter().enumerate() {
        parts.push(export_place(alloc, plate.config(), place, number as u8, kept)?)?;
    }
    Ok(parts)
}

// One more owner of the result that is kept of a step of the print, from 6 to 9.
fn print_result(kept: &Kept<FffOutput>, step: u8) -> Result<Shared<FffOutput>, NoMemory>
    requires low { 6 ≤ step }
    requires high { step < 10 }
    requires kept { IsSome (kept_at kept.now (print_slot step)) }
    ensures { IfOk result (λ output. kept_at kept.now (print_slot step) ≡ Some output) }
{
    match kept.get(Slot::of(90 + step)) {
        Some(output) => Ok(Shared::of(Arc::try_clone(output)?)),
        None => unreachable!(),
    }
}

/// The job that writes the G-code. The plate has no problem, and the results of all other slots are kept.
pub(crate) fn export_job(
    alloc: Global,
    plate: &Plate,
    kept: &Kept<FffOutput>,
) -> Result<FffJob, NoMemory>
    requires sixteen { length plate.now.places ≤ 16 }
    requires printable { CanBePrinted plate.now }
    requires perimeters { AreKept kept.now plate.now steps.perimeters }
    requires infill { AreKept kept.now plate.now steps.infill }
    requires ironing { AreKept kept.now plate.now steps.ironing }
    requires support { AreKept kept.now plate.now steps.support }
    requires tower { kept_at kept.now (print_slot steps.tower) ≡ Some (print_value plate.now steps.tower) }
    requires skirt { kept_at kept.now (print_slot steps.skirt) ≡ Some (print_value plate.now steps.skirt) }
    requires brim { kept_at kept.now (print_slot steps.brim) ≡ Some (print_value plate.now steps.brim) }
    ensures value { IfOk result (λ j. job_value j ≡ print_value plate.now steps.export) }
    ensures polls { IfOk result (λ j. job_polls j ≡ print_batches plate.now steps.export) }
    ensures mesh { IfOk result (λ j. HoldsMesh j → ⊥) }
{
    in_range(plate);
    few_heights(plate);
    let config = plate.config().copied()?;
    let tower = print_result(kept, TOWER)?;
    let skirt = print_result(kept, SKIRT)?;
    let brim = print_result(kept, BRIM)?;
    let objects = export_places(alloc, plate, kept)?;
    let places = places(alloc, plate)?;
    Ok(FffJob::Export(ExportJob {
        config,
        tower,
        skirt,
        brim,
        objects,
        places,
    }))
}
