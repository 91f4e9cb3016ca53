//! Laws of the prints of plates.
ghost use Rattle.std.specs.Prelude.{◌≡◌, ◌↔◌, ℤ, ℕ, ◌<◌, List, [], Some, Contains, length, pos, slice_index_or};
ghost use Rattle.std.specs.List.Sorted.{IsStrictlyIncreasing};
ghost use Rattle.pl_fill.specs.Surfaces.{layer_at};
ghost use Rattle.pl_gcode.specs.IsPrint.{IsPrint};
ghost use Rattle.pl_layers.specs.Heights.{AreHeights, z_of};
ghost use Rattle.pl_layers.specs.Slices.{slice_of};
ghost use Rattle.pl_model.specs.declared.object.Object.{Object};
ghost use Rattle.pl_model.specs.Contents.{Contents};
ghost use Rattle.pl_model.specs.Editing.{IsAt};
ghost use Rattle.pl_model.specs.Problem.{heights_for};
ghost use Rattle.pl_options.specs.KeyMap.{KeyMap, IsConfig, IsOverrides};
ghost use Rattle.pl_values.specs.Ascending.{Ascend};
ghost use Rattle.pl_values.specs.ObjectValues.{layers_for, slices_for};
ghost use Rattle.pl_values.specs.PrintValues.{layer_with_top, places_of, tools_of, tops_of};
ghost use Rattle.pl_values.specs.Ranges.{IsInRange, IsToolAt, IsTop};
ghost use Rattle.pl_values.specs.Whole.{print_of};

/// A law: the places of a print ascend, and are exactly the filled ones.
pub fn places_are_the_filled_ones()
    ensures ascend { (plate : Contents) → IsStrictlyIncreasing (places_of plate) }
    ensures exact { (plate : Contents) (place : ℕ) → Contains (places_of plate) place ↔ ((object : Object) × IsAt plate.places place object) }
{}

/// A law: an object has a slice for each of its layers, the plane of that layer.
pub fn layers_have_their_slices()
    ensures count { (config : KeyMap) (object : Object) → length (slices_for config object) ≡ layers_for config object }
    ensures slice { (config : KeyMap) (object : Object) (k : ℕ) → k < layers_for config object → layer_at (slices_for config object) k ≡ slice_of object.mesh object.quarter (heights_for config object) k }
{}

/// A law: the heights of an object's layers are in the ranges of their options, and the layer with a top is found exactly
/// where the object has a layer whose top this is.
pub fn the_layer_with_a_top_is_found()
    ensures heights { (config : KeyMap) (object : Object) → IsConfig config → IsOverrides object.overrides → AreHeights (heights_for config object) }
    ensures layer { (config : KeyMap) (object : Object) (z : ℤ) (k : ℕ) → IsConfig config → IsOverrides object.overrides → (layer_with_top config object z ≡ Some k) ↔ ((k < layers_for config object) × (z_of (heights_for config object) k ≡ z)) }
{}

/// A law: the heights of a print ascend, so that each stands once; they are exactly the tops of the layers of its objects;
/// and no other list is so.
pub fn heights_are_the_tops()
    ensures ascend { (plate : Contents) → Ascend (tops_of plate) }
    ensures exact { (plate : Contents) (z : ℤ) → Contains (tops_of plate) z ↔ IsTop plate z }
    ensures alone { (plate : Contents) (heights : List ℤ) → Ascend heights → ((z : ℤ) → Contains heights z ↔ IsTop plate z) → heights ≡ tops_of plate }
{}

/// A law: each height has its list of tools, which are exactly those of the objects that have a layer there.
pub fn tools_are_those_of_the_layers()
    ensures count { (plate : Contents) → length (tools_of plate) ≡ length (tops_of plate) }
    ensures exact { (plate : Contents) (i tool : ℕ) → IsInRange plate → i < length (tops_of plate) → Contains (slice_index_or (tools_of plate) i []) tool ↔ IsToolAt plate (slice_index_or (tops_of plate) i (pos 0)) tool }
{}

/// A law: the print of a plate whose options are in their ranges is one that G-code is written of. Each height has one to
/// four tools and lies 1 to 1,000,000 nm above the one before, and what an object has there is one of its layers, each of
/// 1 to 1,000,000 nm.
pub fn a_plate_is_a_print()
    ensures { (plate : Contents) → IsInRange plate → IsPrint (print_of plate) }
{}
