ghost use Rattle.std.specs.Prelude.{◌≡◌, ℕ, ◌≤◌, None, Some, List, length};
ghost use Rattle.pl_ports.specs.declared.gate.Actor.TheVariants as actor;
ghost use Rattle.pl_machine.specs.declared.entry.Command.{Command};
ghost use Rattle.pl_machine.specs.declared.entry.Entry.{Entry};
ghost use Rattle.pl_machine.specs.Machine.{MayCall, calls_of};
ghost use Rattle.pl_machine.specs.History.{IsLegal, replay};
ghost use Rattle.pl_order.specs.Order.{HasSaidBye, IsInOrder, calls_in, entries_of, next_command};

use pl_tech::Technology;

/// A law: a session in order, without work, may call or leave, where it has not said bye; it has not where it has a next command.
/// The machine counts the calls that a session has made.
pub fn sessions_may_call<T: Technology>()
    ensures may { (commands : List (Command T.Edit)) (i : ℕ) (seen : List (Entry T T.Plate T.Edit T.Reply T.Output T.Job T.Bench)) → IsInOrder T.meaning commands (actor.Session i) seen None → ¬ HasSaidBye (actor.Session i) seen → MayCall (replay T.meaning seen) i }
    ensures goes_on { (commands : List (Command T.Edit)) (i : ℕ) (seen : List (Entry T T.Plate T.Edit T.Reply T.Output T.Job T.Bench)) (command : Command T.Edit) → IsInOrder T.meaning commands (actor.Session i) seen None → next_command commands (actor.Session i) seen ≡ Some command → ¬ HasSaidBye (actor.Session i) seen }
    ensures calls { (i : ℕ) (seen : List (Entry T T.Plate T.Edit T.Reply T.Output T.Job T.Bench)) → 1 ≤ i → i ≤ 16 → IsLegal T.meaning seen → calls_of (replay T.meaning seen) i ≡ length (calls_in (entries_of (actor.Session i) seen)) }
{}
