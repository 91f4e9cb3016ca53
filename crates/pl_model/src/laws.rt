//! Laws of plates, of edits and of settings texts.
ghost use Rattle.std.specs.Prelude.{◌≡◌, ◌↔◌, ℕ, ◌+◌, ◌<◌, ◌≤◌, false, List, Option, Some, None, Ok, Err, remove, slice_get};
ghost use Rattle.std.specs.Option.{option_or};
ghost use Rattle.std.specs.FinMap.{get};
ghost use Rattle.pl_keys.specs.declared.key.Key.{Key};
ghost use Rattle.pl_options.specs.declared.fault.IniFault.{IniFault};
ghost use Rattle.pl_options.specs.KeyMap.{KeyMap};
ghost use Rattle.pl_options.specs.Settings.{Settings, IsSettingsText, IsFirstBreach};
ghost use Rattle.pl_edit.specs.declared.edit.Edit.{Edit};
ghost use Rattle.pl_edit.specs.declared.reply.EditReply.{EditReply};
ghost use Rattle.pl_tech.specs.declared.problem.Problem.{Problem};
ghost use Rattle.pl_model.specs.declared.instances.Shift.{Shift};
ghost use Rattle.pl_model.specs.Contents.{Contents};
ghost use Rattle.pl_model.specs.Editing.{IsEdited};
ghost use Rattle.pl_model.specs.Meshes.{HaveOneMesh, may_change};
ghost use Rattle.pl_model.specs.Outcomes.{edited, edit_reply};
ghost use Rattle.pl_model.specs.Places.{ArePlaces};
ghost use Rattle.pl_model.specs.Printable.{HasProblem, CanBePrinted};
ghost use Rattle.pl_model.specs.Problem.{problem_of};
ghost use Rattle.pl_model.specs.Settings.{ini_of, breach, put_over};

/// A law: reading gives settings exactly where the text is a settings text and these are its settings, and a breach exactly
/// where it is the text's first one.
pub fn settings_texts_have_one_reading()
    ensures settings { (text : List ℕ) (settings : Settings) → (ini_of text ≡ Ok settings) ↔ IsSettingsText text settings }
    ensures breaches { (text : List ℕ) (line : ℕ) (fault : IniFault) → (ini_of text ≡ Err (breach line fault)) ↔ IsFirstBreach text line fault }
{}

/// A law: the answer to an edit of a plate of sixteen places, and the plate after it, are those that the relation of edits
/// tells, and no others.
pub fn edits_are_what_they_say()
    ensures { (old : Contents) (edit : Edit) (reply : EditReply) (new : Contents) → ArePlaces old.places → IsEdited old edit reply new ↔ ((reply ≡ edit_reply old edit) × (new ≡ edited old edit)) }
{}

/// A law: an edit keeps the mesh of each place, or that none is there, but of those whose mesh it may change.
pub fn edits_keep_other_meshes()
    ensures { (plate : Contents) (edit : Edit) (place : ℕ) → may_change edit (edit_reply plate edit) place ≡ false → HaveOneMesh plate (edited plate edit) place }
{}

/// A law: after a drop the earlier instances have their numbers, and each later one has the number before its own.
pub fn a_drop_moves_the_later_ones_down()
    ensures earlier { (shifts : List Shift) (dropped number : ℕ) → number < dropped → slice_get (remove shifts dropped) number ≡ slice_get shifts number }
    ensures later { (shifts : List Shift) (dropped number : ℕ) → dropped ≤ number → slice_get (remove shifts dropped) number ≡ slice_get shifts (number + 1) }
{}

/// A law: with the values of a settings text over those of a configuration, each option has the text's value, else the
/// configuration's.
pub fn settings_go_over_the_configuration()
    ensures { (new old : KeyMap) (key : Key) → get (put_over new old) key ≡ option_or (get new key) (get old key) }
{}

/// A law: the problem of a plate is the one that it has, and there is none exactly where the plate can be printed.
pub fn the_least_place_has_the_problem()
    ensures problem { (plate : Contents) (problem : Problem) → (problem_of plate ≡ Some problem) ↔ HasProblem plate problem }
    ensures none { (plate : Contents) → (problem_of plate ≡ None) ↔ CanBePrinted plate }
{}
