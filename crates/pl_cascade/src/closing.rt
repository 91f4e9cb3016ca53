//! What invalid steps take with them.
ghost use Rattle.std.specs.Prelude.{◌≡◌, ℕ};
ghost use Rattle.pl_tech.specs.Slots.{has};
ghost use Rattle.pl_cascade.specs.Cascade.{takes, with_taken, closure_of, IsClosure};

use crate::slots::{object_slots, print_slots};
use crate::steps::{takes_here, takes_in_print};
use pl_tech::{Slot, SlotSet};

// The slots that a slot takes.
fn taken_by(slot: Slot) -> SlotSet
    ensures { (k : ℕ) → has result k ≡ takes slot k }
{
    let number = slot.number();
    if number >= 96 {
        return print_slots(takes_in_print(number - 90));
    }
    let step = number % 6;
    object_slots(number / 6, takes_here(step)).union(print_slots(takes_in_print(step)))
}

// The slots of a set, and those that they take.
fn with_taken(set: SlotSet) -> SlotSet
    ensures { (k : ℕ) → has result k ≡ with_taken (has set) k }
{
    let mut all = set;
    for number in 0..100u8 {
        let slot = Slot::of(number);
        if set.has(slot) {
            all = all.union(taken_by(slot));
        }
    }
    all
}

/// The least set that has all slots of a set and all that its members take: an invalid step takes the later steps of its object
/// that work on its result, and the steps of the print that read it. Two rounds are enough: prepare takes infill, and infill
/// takes skirt and brim; all other slots are taken in one.
pub fn closure(set: SlotSet) -> SlotSet
    ensures exact { (k : ℕ) → has result k ≡ closure_of (has set) k }
    ensures least { IsClosure (has set) (has result) }
{
    with_taken(with_taken(set))
}
