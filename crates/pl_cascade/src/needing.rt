//! The slots that a plate has, and what each needs.
ghost use Rattle.std.specs.Prelude.{◌≡◌, ℕ, ◌&&◌};
ghost use Rattle.pl_tech.specs.Slots.{has};
ghost use Rattle.pl_cascade.specs.Slots.{is_present, needs_slot, print_needs};

use crate::slots::{object_slots, print_slots};
use crate::steps::{BRIM, EXPORT, SKIRT, SLICE, SUPPORT, TOWER, all_steps, needs_here};
use pl_model::Plate;
use pl_tech::{Slot, SlotSet};

/// The slots that a plate has: the six of each filled place, 6p to 6p + 5 for the place p, and the four of the print, 96 to 99.
pub fn present(plate: &Plate) -> SlotSet
    ensures { (k : ℕ) → has result k ≡ is_present plate.now k }
{
    let mut slots = print_slots(all_steps());
    for place in 0..16u8 {
        if plate.object(place).is_some() {
            slots = slots.union(object_slots(place, all_steps()));
        }
    }
    slots
}

// Whether a step of the print needs a slot, if that is present.
fn print_needs(step: u8, need: u8) -> bool
    ensures { result ≡ print_needs step need }
{
    let object = need < 96;
    match step {
        TOWER => object,
        SKIRT | BRIM => object && (need % 6 == SLICE || need % 6 == SUPPORT),
        EXPORT => need < 99,
        _ => false,
    }
}

// Whether a step of the print needs a slot, of those that are there.
fn is_needed(there: SlotSet, step: u8, need: Slot) -> bool
    ensures { result ≡ (has there need && print_needs step need) }
{
    there.has(need) && print_needs(step, need.number())
}

// The slots that a step of the print needs.
fn needs_of_print(plate: &Plate, step: u8) -> SlotSet
    ensures { (k : ℕ) → has result k ≡ (is_present plate.now k && print_needs step k) }
{
    let there = present(plate);
    let mut slots = SlotSet::empty();
    for number in 0..100u8 {
        let need = Slot::of(number);
        if is_needed(there, step, need) {
            slots = slots.with(need);
        }
    }
    slots
}

/// The slots whose results a slot needs: of an object those of its earlier steps that it works on; the tower all slots of
/// objects, skirt and brim all slices and supports, the export all others that are present.
pub fn needs(plate: &Plate, slot: Slot) -> SlotSet
    ensures { (k : ℕ) → has result k ≡ needs_slot plate.now slot k }
{
    let number = slot.number();
    if number >= 96 {
        return needs_of_print(plate, number - 90);
    }
    object_slots(number / 6, needs_here(number % 6))
}
