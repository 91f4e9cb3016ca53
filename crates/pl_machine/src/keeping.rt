ghost use Rattle.std.specs.Prelude.{List, ◌∷◌, ◌++◌};
ghost use Rattle.pl_ports.specs.declared.gate.Actor.{Actor};
ghost use Rattle.pl_machine.specs.declared.entry.Entry.{Entry};
ghost use Rattle.pl_machine.specs.declared.entry.What.TheVariants as what;
ghost use Rattle.pl_machine.specs.Machine.{LeftAreIdle, StartedArePending};
ghost use Rattle.pl_machine.specs.History.{IsLegal, replay};
ghost use Rattle.pl_machine.specs.Tickets.{HasNoneBy};

use pl_tech::Technology;

/// A law: after each legal history who has left has nothing pending, and a slot that is started is pending at its actor, with the
/// slot's epoch. A bye is the last entry of its actor.
pub fn histories_keep_pending<T: Technology>()
    ensures left_idle { (history : List (Entry T T.Plate T.Edit T.Reply T.Output T.Job T.Bench)) → IsLegal T.meaning history → LeftAreIdle (replay T.meaning history) }
    ensures started_pending { (history : List (Entry T T.Plate T.Edit T.Reply T.Output T.Job T.Bench)) → IsLegal T.meaning history → StartedArePending (replay T.meaning history) }
    ensures bye_is_last { (actor : Actor) (before after : List (Entry T T.Plate T.Edit T.Reply T.Output T.Job T.Bench)) → IsLegal T.meaning (before ++ record { actor = actor; what = what.Bye } ∷ after) → HasNoneBy actor after }
{}
