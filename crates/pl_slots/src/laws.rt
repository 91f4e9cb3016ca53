//! Laws of the slots of plates.
ghost use Rattle.std.specs.Prelude.{◌≡◌, ℕ, ◌<◌, ◌≤◌, Some, length};
ghost use Rattle.pl_model.specs.declared.object.Object.{Object};
ghost use Rattle.pl_model.specs.Contents.{Contents};
ghost use Rattle.pl_model.specs.Places.{place_in};
ghost use Rattle.pl_options.specs.KeyMap.{KeyMap};
ghost use Rattle.pl_cascade.specs.Slots.{object_slot, print_slot};
ghost use Rattle.pl_tech.specs.Technology.{IsLawful};
ghost use Rattle.pl_values.specs.ObjectValues.{layers_for, loop_lists_for, infill_lists_for, ironing_lists_for, support_lists_for, supports_for};
ghost use Rattle.pl_values.specs.Whole.{plate_gcode};
ghost use Rattle.pl_batches.specs.Batches.{batches_of};
ghost use Rattle.pl_slots.specs.declared.output.FffOutput.TheVariants.{Gcode};
ghost use Rattle.pl_slots.specs.ObjectSteps.{object_value, perimeters_for, infill_strokes_for, ironing_strokes_for, support_set_for};
ghost use Rattle.pl_slots.specs.Batches.{print_batches, batches};
ghost use Rattle.pl_slots.specs.Values.{print_value, slot_value};
ghost use Rattle.pl_slots.specs.Fff.{fff_meaning};

/// A law: the slot of a step of an object has the result of that step, a slot of the print that of the plate, and the last
/// slot has the G-code of the plate. A plate has sixteen places.
pub fn slots_have_the_results_of_their_steps()
    ensures object { (plate : Contents) (place step : ℕ) (object : Object) → place < 16 → step < 6 → place_in plate.places place ≡ Some object → slot_value plate (object_slot place step) ≡ object_value plate.config object step }
    ensures print { (plate : Contents) (step : ℕ) → length plate.places ≤ 16 → 6 ≤ step → slot_value plate (print_slot step) ≡ print_value plate step }
    ensures export { (plate : Contents) → length plate.places ≤ 16 → slot_value plate 99 ≡ Gcode (plate_gcode plate) }
{}

/// A law: a step of an object is computed in batches of eight layers, and a step of the print in the batches of that plate.
pub fn slots_have_the_batches_of_their_steps()
    ensures object { (plate : Contents) (place step : ℕ) (object : Object) → place < 16 → step < 6 → place_in plate.places place ≡ Some object → batches plate (object_slot place step) ≡ batches_of (layers_for plate.config object) }
    ensures print { (plate : Contents) (step : ℕ) → length plate.places ≤ 16 → 6 ≤ step → batches plate (print_slot step) ≡ print_batches plate step }
{}

/// A law: what the slots of an object hold is what the print of its plate has of it.
pub fn results_of_objects_are_printed()
    ensures loops { (config : KeyMap) (object : Object) → (perimeters_for config object).loops ≡ loop_lists_for config object }
    ensures infill { (config : KeyMap) (object : Object) → infill_strokes_for config object ≡ infill_lists_for config object }
    ensures ironing { (config : KeyMap) (object : Object) → ironing_strokes_for config object ≡ ironing_lists_for config object }
    ensures cells { (config : KeyMap) (object : Object) → (support_set_for config object).cells ≡ supports_for config object }
    ensures support { (config : KeyMap) (object : Object) → (support_set_for config object).strokes ≡ support_lists_for config object }
{}

/// A law: slots, their results and names are those of a technology. Above all, a slot that is present in two plates and not
/// touched between them has the same result in both.
pub fn slots_are_lawful()
    ensures { IsLawful fff_meaning }
{}
