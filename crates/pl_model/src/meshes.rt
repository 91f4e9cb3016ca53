//! The places of a plate as a set, and those whose meshes an edit may have changed.
ghost use Rattle.std.specs.Prelude.{◌≡◌, ◌==◌, ◌<◌, ◌≤◌, ℕ, true, false};
ghost use Rattle.pl_tech.specs.Slots.{has};
ghost use Rattle.pl_model.specs.Contents.{Contents};
ghost use Rattle.pl_model.specs.Meshes.{ShareMeshes, may_change};
ghost use Rattle.pl_model.specs.Outcomes.{edited, edit_reply};

use pl_edit::{Edit, EditReply};
use pl_tech::{Slot, SlotSet};

/// The places 0 to 15, as the slots of these numbers.
pub fn all_places() -> SlotSet
    ensures places { (place : ℕ) → place < 16 → has result place ≡ true }
    ensures no_others { (place : ℕ) → 16 ≤ place → has result place ≡ false }
{
    let mut places = SlotSet::empty();
    for place in 0..16u8 {
        places = places.with(Slot::of(place));
    }
    places
}

// The set of one place, where it is below 16.
fn only(place: u8) -> SlotSet
    ensures place { (p : ℕ) → p < 16 → has result p ≡ (place == p) }
    ensures no_others { (p : ℕ) → 16 ≤ p → has result p ≡ false }
{
    if place < 16 {
        SlotSet::empty().with(Slot::of(place))
    } else {
        SlotSet::empty()
    }
}

// The places of these, as the definition says.
fn places_changed(edit: &Edit, reply: &EditReply) -> SlotSet
    ensures places { (place : ℕ) → place < 16 → has result place ≡ may_change edit.now reply.now place }
    ensures no_others { (place : ℕ) → 16 ≤ place → has result place ≡ false }
{
    match (edit, reply) {
        (Edit::Load { .. }, EditReply::Object(place)) => only(*place),
        (Edit::Reload { place, .. }, EditReply::Done) => only(*place),
        (Edit::Delete { place }, EditReply::Done) => only(*place),
        _ => SlotSet::empty(),
    }
}

/// The places, from 0 to 15, whose mesh an edit with this reply may have changed: the place that a load answers, and the place of a
/// reload or a delete that is done. Whatever else an edit changes, and where it is refused, each place keeps its mesh.
pub fn changed_meshes(edit: &Edit, reply: &EditReply) -> SlotSet
    ensures places { (place : ℕ) → place < 16 → has result place ≡ may_change edit.now reply.now place }
    ensures no_others { (place : ℕ) → 16 ≤ place → has result place ≡ false }
    ensures keeps { (plate : Contents) → reply.now ≡ edit_reply plate edit.now → ShareMeshes result plate (edited plate edit.now) }
{
    places_changed(edit, reply)
}
