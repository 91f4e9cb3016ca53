//! A law of what goes round.
ghost use Rattle.std.specs.Prelude.{◌≡◌, ℕ};
ghost use Rattle.pl_model.specs.Contents.{Contents};
ghost use Rattle.pl_values.specs.PrintValues.{ground_of, skirt_for, brim_for, block_for};
ghost use Rattle.pl_prints.specs.Rounds.{skirt_round, brim_round, block_in};

/// A law: skirt, brim and tower by the configuration of a plate, round the cells on which its instances stand, are those of
/// the plate.
pub fn rounds_are_those_of_the_plate()
    ensures skirt { (plate : Contents) → skirt_round plate.config (ground_of plate) ≡ skirt_for plate }
    ensures brim { (plate : Contents) → brim_round plate.config (ground_of plate) ≡ brim_for plate }
    ensures tower { (plate : Contents) (change : ℕ) → block_in plate.config change ≡ block_for plate change }
{}
