ghost use Rattle.std.specs.Prelude.{◌≡◌, ℕ, ◌≤◌, List, [], ◌∷◌, ◌++◌};
ghost use Rattle.pl_ports.specs.declared.gate.Actor.{Actor};
ghost use Rattle.pl_machine.specs.declared.entry.Command.{Command};
ghost use Rattle.pl_machine.specs.declared.entry.Reply.{Reply};
ghost use Rattle.pl_machine.specs.declared.entry.Entry.{Entry};
ghost use Rattle.pl_machine.specs.History.{IsLegal};
ghost use Rattle.pl_session.specs.Complete.{IsComplete};
ghost use Rattle.pl_relay.specs.Relay.{IsRelay, calls_made, relay_calls};
ghost use Rattle.pl_relay.specs.Exports.{EndsInExport, applied_after, export_entry, export_reply, exports_of};

use pl_tech::Technology;

/// A law: whatever turns the actors of a relay take, its calls are those of session 1, then those of session 2, and so on.
pub fn a_relay_has_one_order<T: Technology>()
    ensures { (commands : ℕ → List (Command T.Edit)) (count workers : ℕ) (history : List (Entry T T.Plate T.Edit T.Reply T.Output T.Job T.Bench)) → IsRelay commands count → IsComplete T.meaning commands workers history → calls_made history ≡ relay_calls commands count }
{}

/// A law: an export answers for the plate that was applied last by the calls before it.
pub fn exports_answer_for_their_plate<T: Technology>()
    ensures { (before after : List (Entry T T.Plate T.Edit T.Reply T.Output T.Job T.Bench)) (actor : Actor) (reply : Reply T T.Plate T.Edit T.Reply T.Output T.Job T.Bench) → IsLegal T.meaning (before ++ export_entry actor reply ∷ after) → reply ≡ export_reply T.meaning (applied_after T.meaning (calls_made before)) }
{}

/// A law: a session of a relay whose only export is its last command is answered for the plate that its calls, and those of the
/// sessions before it, have applied last.
pub fn a_relay_exports_in_turn<T: Technology>()
    ensures { (commands : ℕ → List (Command T.Edit)) (count workers session : ℕ) (history : List (Entry T T.Plate T.Edit T.Reply T.Output T.Job T.Bench)) → IsRelay commands count → IsComplete T.meaning commands workers history → 1 ≤ session → session ≤ count → EndsInExport (commands session) → exports_of session history ≡ export_reply T.meaning (applied_after T.meaning (relay_calls commands session)) ∷ [] }
{}
