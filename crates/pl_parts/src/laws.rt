//! A law of the lists of a plate.
ghost use Rattle.std.specs.Prelude.{◌≡◌, ◌<◌, ◌≤◌, ◌^◌, length};
ghost use Rattle.pl_model.specs.Contents.{Contents};
ghost use Rattle.pl_values.specs.PrintValues.{heights_of};
ghost use Rattle.pl_values.specs.Ranges.{IsInRange};
ghost use Rattle.pl_values.specs.Whole.{print_of};
ghost use Rattle.pl_parts.specs.Parts.{IsPrintData, print_from, data_of};

/// A law: the print of the lists of a plate is the print of the plate. It is one that G-code is written of, where the
/// plate's options are in their ranges and its heights fewer than 2^32.
pub fn lists_are_the_print()
    ensures print { (plate : Contents) → print_from (data_of plate) ≡ print_of plate }
    ensures written { (plate : Contents) → IsInRange plate → length (heights_of plate) < 2 ^ 32 → length plate.places ≤ 16 → IsPrintData (data_of plate) }
{}
