ghost use Rattle.std.specs.Prelude.{◌≡◌, ℕ, true, Option, None, Some, List, [], ◌∷◌, ◌++◌};
ghost use mathlib.Core.List.{IsPrefix};
ghost use Rattle.pl_ports.specs.declared.gate.Actor.{Actor};
ghost use Rattle.pl_ports.specs.declared.gate.Actor.TheVariants as actor;
ghost use Rattle.pl_machine.specs.declared.entry.Command.{Command};
ghost use Rattle.pl_machine.specs.declared.entry.Reply.{Reply};
ghost use Rattle.pl_machine.specs.declared.entry.What.{What};
ghost use Rattle.pl_machine.specs.declared.entry.What.TheVariants as what;
ghost use Rattle.pl_machine.specs.declared.entry.Entry.{Entry};
ghost use Rattle.pl_machine.specs.Machine.{IsActor};
ghost use Rattle.pl_machine.specs.History.{IsLegal, replay};
ghost use Rattle.pl_machine.specs.Startable.{IsLeast};
ghost use Rattle.pl_machine.specs.Tickets.{closes, start_of};
ghost use Rattle.pl_order.specs.Order.{Work, IsInOrder, IsExportNext, HasSaidBye, bye_of, entries_of, next_command};

use pl_tech::Technology;

/// A law: a runner stays in order, with its work, while others go on. It is told twice: of entries that are added, and of a history
/// that is found, which has what was seen as a beginning and no further entry of the runner's actor.
pub fn others_keep_order<T: Technology>()
    ensures found { (commands : List (Command T.Edit)) (actor : Actor) (seen history : List (Entry T T.Plate T.Edit T.Reply T.Output T.Job T.Bench)) (work : Option (Work T.Output)) → IsInOrder T.meaning commands actor seen work → IsPrefix seen history → entries_of actor history ≡ entries_of actor seen → IsLegal T.meaning history → IsInOrder T.meaning commands actor history work }
    ensures more { (commands : List (Command T.Edit)) (actor : Actor) (seen more : List (Entry T T.Plate T.Edit T.Reply T.Output T.Job T.Bench)) (work : Option (Work T.Output)) → IsInOrder T.meaning commands actor seen work → entries_of actor more ≡ [] → IsLegal T.meaning (seen ++ more) → IsInOrder T.meaning commands actor (seen ++ more) work }
{}

/// A law: who has made no entry is in order, without work, whatever its commands.
pub fn newcomers_are_in_order<T: Technology>()
    ensures { (commands : List (Command T.Edit)) (actor : Actor) (seen : List (Entry T T.Plate T.Edit T.Reply T.Output T.Job T.Bench)) → IsLegal T.meaning seen → IsActor actor → entries_of actor seen ≡ [] → IsInOrder T.meaning commands actor seen None }
{}

/// A law: a session stays in order, without work, when it calls its next command.
pub fn a_call_keeps_order<T: Technology>()
    ensures { (commands : List (Command T.Edit)) (i : ℕ) (seen : List (Entry T T.Plate T.Edit T.Reply T.Output T.Job T.Bench)) (work : Option (Work T.Output)) (command : Command T.Edit) (reply : Reply T T.Plate T.Edit T.Reply T.Output T.Job T.Bench) → IsInOrder T.meaning commands (actor.Session i) seen work → next_command commands (actor.Session i) seen ≡ Some command → IsLegal T.meaning (seen ++ record { actor = actor.Session i; what = what.Call command reply } ∷ []) → IsInOrder T.meaning commands (actor.Session i) (seen ++ record { actor = actor.Session i; what = what.Call command reply } ∷ []) None }
{}

/// A law: a runner that starts the least slot that may be started, a session where its next command is an export, is in order with
/// that slot as its work. The work's value is the slot's for the plate applied there.
pub fn a_start_keeps_order<T: Technology>()
    ensures { (commands : List (Command T.Edit)) (actor : Actor) (seen : List (Entry T T.Plate T.Edit T.Reply T.Output T.Job T.Bench)) (work : Option (Work T.Output)) (slot epoch : ℕ) (value : T.Output) → IsInOrder T.meaning commands actor seen work → IsLeast T.meaning (replay T.meaning seen) slot → IsExportNext commands actor seen → IsLegal T.meaning (seen ++ start_of actor slot epoch ∷ []) → value ≡ T.meaning.value (replay T.meaning seen).applied slot → IsInOrder T.meaning commands actor (seen ++ start_of actor slot epoch ∷ []) (Some (record { slot = slot; epoch = epoch; value = value })) }
{}

/// A law: a runner that closes its work, as done or as late, is in order without work.
pub fn a_closing_keeps_order<T: Technology>()
    ensures { (commands : List (Command T.Edit)) (actor : Actor) (seen : List (Entry T T.Plate T.Edit T.Reply T.Output T.Job T.Bench)) (work : Option (Work T.Output)) (what : What T T.Plate T.Edit T.Reply T.Output T.Job T.Bench) → IsInOrder T.meaning commands actor seen work → closes what ≡ true → IsLegal T.meaning (seen ++ record { actor = actor; what = what } ∷ []) → IsInOrder T.meaning commands actor (seen ++ record { actor = actor; what = what } ∷ []) None }
{}

/// A law: a session that has no next command stays in order, without work, when it says bye, and has then said it.
pub fn a_bye_keeps_order<T: Technology>()
    ensures order { (commands : List (Command T.Edit)) (i : ℕ) (seen : List (Entry T T.Plate T.Edit T.Reply T.Output T.Job T.Bench)) (work : Option (Work T.Output)) → IsInOrder T.meaning commands (actor.Session i) seen work → next_command commands (actor.Session i) seen ≡ None → IsLegal T.meaning (seen ++ bye_of (actor.Session i) ∷ []) → IsInOrder T.meaning commands (actor.Session i) (seen ++ bye_of (actor.Session i) ∷ []) None }
    ensures said { (i : ℕ) (seen : List (Entry T T.Plate T.Edit T.Reply T.Output T.Job T.Bench)) → HasSaidBye (actor.Session i) (seen ++ bye_of (actor.Session i) ∷ []) }
{}
