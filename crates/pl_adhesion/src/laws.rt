//! What holds of the cells that a brim goes round.
ghost use Rattle.std.specs.Prelude.{◌≡◌, ◌≤◌, ◌↔◌, ℤ, ℕ, true};
ghost use Rattle.pl_grid.specs.Planes.{Cells, filled};
ghost use Rattle.pl_adhesion.specs.Brim.{spread, IsWithinSteps};

/// A law: the `j`-th loops of a brim go round the cells that are at most `j` steps away from a filled cell of the
/// bed, and the box in which they are found has room for all of them.
pub fn brim_cells_are_within_steps()
    ensures { (bed : Cells) (width j : ℕ) (x y : ℤ) → j ≤ width → (filled (spread width bed j) x y ≡ true) ↔ IsWithinSteps bed j x y }
{}
