//! What differs between two plates, before the cascade.
ghost use Rattle.std.specs.Prelude.{◌≡◌, ℕ, ◌<◌, ◌==◌, ◌&&◌, ◌||◌, true, false, nat_lt};
ghost use Rattle.std.specs.Coded.{coded_list};
ghost use Rattle.pl_stl.specs.contracts.mesh.Facet.{the_row as facet_row};
ghost use Rattle.pl_keys.specs.Steps as steps;
ghost use Rattle.pl_tech.specs.Slots.{has};
ghost use Rattle.pl_model.specs.Places.{place_in};
ghost use Rattle.pl_model.specs.Meshes.{mesh_at, ShareMeshes};
ghost use Rattle.pl_cascade.specs.Slots.{is_object_slot, place_of, step_of};
ghost use Rattle.pl_cascade.specs.Direct.{differ, shape_differs, instances_differ, object_touched, print_touched, is_direct};

use crate::options::{options_steps, settings_steps};
use crate::slots::{object_slots, print_slots};
use crate::steps::{SLICE, all_steps};
use pl_keys::StepMask;
use pl_model::{Object, Plate};
use pl_tech::{Slot, SlotSet};

// Whether the meshes differ. They don't, unless they may be apart.
fn meshes_differ(object: &Object, changed: &Object, apart: bool) -> bool
    requires { apart ≡ false → object.now.mesh ≡ changed.now.mesh }
    ensures { result ≡ differ (coded_list facet_row.coded) object.now.mesh changed.now.mesh }
{
    let same = object.same_mesh(changed, apart);
    !same
}

// Whether the meshes or their turns differ.
fn shape_differs(object: &Object, changed: &Object, apart: bool) -> bool
    requires { apart ≡ false → object.now.mesh ≡ changed.now.mesh }
    ensures { result ≡ shape_differs object.now changed.now }
{
    meshes_differ(object, changed, apart) || object.quarter != changed.quarter
}

// Whether the instances differ.
fn instances_differ(object: &Object, changed: &Object) -> bool
    ensures { result ≡ instances_differ object.now changed.now }
{
    let same = object.instances.shifts() == changed.instances.shifts();
    !same
}

// The steps of an object that its options and its mesh touch.
fn object_steps(options: StepMask, object: &Object, changed: &Object, apart: bool) -> StepMask
    requires { apart ≡ false → object.now.mesh ≡ changed.now.mesh }
    ensures { (step : ℕ) → steps.has result step ≡ (steps.has options step || ((step == steps.slice) && shape_differs object.now changed.now)) }
{
    if shape_differs(object, changed, apart) {
        options.with(SLICE)
    } else {
        options
    }
}

// The steps of the print that the options and the instances of an object touch.
fn print_steps(options: StepMask, object: &Object, changed: &Object) -> StepMask
    ensures { (step : ℕ) → step < 10 → steps.has result step ≡ (steps.has options step || instances_differ object.now changed.now) }
{
    if instances_differ(object, changed) {
        all_steps()
    } else {
        options
    }
}

/// The slots of an object, and of the print, that are directly touched at a place, from 0 to 15.
pub(crate) fn touched_at(old: &Plate, new: &Plate, place: u8, apart: bool) -> SlotSet
    requires place { place < 16 }
    requires alike { apart ≡ false → mesh_at old.now.places place ≡ mesh_at new.now.places place }
    ensures object { (k : ℕ) → is_object_slot k ≡ true → has result k ≡ ((place == place_of k) && object_touched old.now.config (place_in old.now.places place) new.now.config (place_in new.now.places place) (step_of k)) }
    ensures print { (k : ℕ) → is_object_slot k ≡ false → has result k ≡ (nat_lt k 100 && print_touched old.now.config (place_in old.now.places place) new.now.config (place_in new.now.places place) (step_of k)) }
{
    match (old.object(place), new.object(place)) {
        (Some(object), Some(changed)) => {
            let options = options_steps(old, new, place);
            let here = object_slots(place, object_steps(options, object, changed, apart));
            here.union(print_slots(print_steps(options, object, changed)))
        }
        (None, None) => SlotSet::empty(),
        _ => object_slots(place, all_steps()).union(print_slots(all_steps())),
    }
}

/// The slots that are directly touched, where the meshes at all places but these are equal.
pub(crate) fn direct(old: &Plate, new: &Plate, apart: SlotSet) -> SlotSet
    requires { ShareMeshes apart old.now new.now }
    ensures { (k : ℕ) → has result k ≡ (nat_lt k 100 && is_direct old.now new.now k) }
{
    let mut slots = print_slots(settings_steps(old.config(), new.config()));
    for place in 0..16u8 {
        slots = slots.union(touched_at(old, new, place, apart.has(Slot::of(place))));
    }
    slots
}
