//! What an apply touches.
ghost use Rattle.std.specs.Prelude.{◌≡◌, ℕ};
ghost use Rattle.pl_model.specs.Meshes.{ShareMeshes};
ghost use Rattle.pl_tech.specs.Slots.{has};
ghost use Rattle.pl_cascade.specs.Touched.{is_touched};

use crate::closing::closure;
use crate::direct::direct;
use pl_model::{Plate, all_places};
use pl_tech::SlotSet;

/// The slots whose results an apply makes invalid, where the first plate was applied before and the second is applied now. An
/// option whose value differs touches the steps of its row in the table: of its object, and of the print; mesh and turn touch
/// the slice, the instances the four slots of the print; a place that is filled in one plate alone touches its six slots and
/// the four of the print. All of these take others with them. Names touch nothing. Meshes are compared facet by facet.
pub fn touched(old: &Plate, new: &Plate) -> SlotSet
    ensures { (k : ℕ) → has result k ≡ is_touched old.now new.now k }
{
    touched_but(old, new, all_places())
}

/// The slots that `touched` names, where the meshes at all places but these are equal.
pub fn touched_but(old: &Plate, new: &Plate, apart: SlotSet) -> SlotSet
    requires { ShareMeshes apart old.now new.now }
    ensures { (k : ℕ) → has result k ≡ is_touched old.now new.now k }
{
    closure(direct(old, new, apart))
}
