ghost use Rattle.std.specs.Prelude.{ℕ, ◌+◌, ◌*◌, ◌≡◌, ◌≤◌, List, length};
ghost use Rattle.pl_machine.specs.declared.entry.Command.{Command};
ghost use Rattle.pl_machine.specs.declared.entry.Entry.{Entry};
ghost use Rattle.pl_machine.specs.Machine.{epoch_of};
ghost use Rattle.pl_machine.specs.History.{IsLegal, replay};
ghost use Rattle.pl_session.specs.Complete.{EachEntry, IsComplete};
ghost use Rattle.pl_bounds.specs.Counts.{RisesByChange, calls_in, changes_in, commands_to, starts_at};
ghost use Rattle.pl_script.specs.Script.{Script};
ghost use Rattle.pl_scripted.specs.Commands.{session_commands};
ghost use Rattle.pl_bounds.specs.Stopping.{LateWasInvalidated};

use pl_edit::Edit;
use pl_tech::Technology;

/// A law: a slot is started at an epoch at most once.
pub fn slots_start_once_an_epoch<T: Technology>()
    ensures { (history : List (Entry T T.Plate T.Edit T.Reply T.Output T.Job T.Bench)) → IsLegal T.meaning history → (slot epoch : ℕ) → starts_at slot epoch history ≤ 1 }
{}

/// A law: a slot's epoch is at most the number of calls of apply and cancel; it rises only at such a call, and by one.
pub fn epochs_count_applies_and_cancels<T: Technology>()
    ensures most { (history : List (Entry T T.Plate T.Edit T.Reply T.Output T.Job T.Bench)) (slot : ℕ) → IsLegal T.meaning history → epoch_of (replay T.meaning history) slot ≤ changes_in history }
    ensures steps { (history : List (Entry T T.Plate T.Edit T.Reply T.Output T.Job T.Bench)) (slot : ℕ) → IsLegal T.meaning history → EachEntry history (RisesByChange T.meaning slot) }
{}

/// A law: beside its calls a history has at most 16 byes and, for each call of apply or cancel and once more, at most 100 starts and as
/// many ends.
pub fn histories_are_short<T: Technology>()
    ensures { (history : List (Entry T T.Plate T.Edit T.Reply T.Output T.Job T.Bench)) → IsLegal T.meaning history → length history ≤ calls_in history + 16 + 200 * (changes_in history + 1) }
{}

/// A law: a complete history has as many calls as sessions 1 to 16 have commands.
pub fn calls_are_the_commands<T: Technology>()
    ensures { (commands : ℕ → List (Command T.Edit)) (workers : ℕ) (history : List (Entry T T.Plate T.Edit T.Reply T.Output T.Job T.Bench)) → IsComplete T.meaning commands workers history → calls_in history ≡ commands_to commands 16 }
{}

/// A law: a history of a script, which has at most 10,000 commands, has at most 2,010,216 entries, and no slot's epoch gets above 10,000.
pub fn histories_of_scripts_are_short<T: Technology<Edit = Edit>>()
    ensures entries { (script : Script) (history : List (Entry T T.Plate Edit T.Reply T.Output T.Job T.Bench)) → length script.lines ≤ 10000 → IsComplete T.meaning (session_commands script.lines) script.workers history → length history ≤ 2010216 }
    ensures epochs { (script : Script) (history : List (Entry T T.Plate Edit T.Reply T.Output T.Job T.Bench)) (slot : ℕ) → length script.lines ≤ 10000 → IsComplete T.meaning (session_commands script.lines) script.workers history → epoch_of (replay T.meaning history) slot ≤ 10000 }
{}

/// A law: what is late was invalidated, by an apply or by a cancel, while its actor worked at it.
pub fn late_results_were_invalidated<T: Technology>()
    ensures { (history : List (Entry T T.Plate T.Edit T.Reply T.Output T.Job T.Bench)) → IsLegal T.meaning history → EachEntry history (LateWasInvalidated T.meaning) }
{}
