ghost use Rattle.std.specs.Prelude.{◌≡◌, ℕ, List, map, sum};
ghost use Rattle.pl_machine.specs.declared.entry.Command.{Command};
ghost use Rattle.pl_machine.specs.declared.entry.Entry.{Entry};
ghost use Rattle.pl_session.specs.Complete.{IsComplete, runs_of};
ghost use Rattle.pl_order.specs.Ended.{Ended, IsMadeBy};

use pl_tech::Technology;

/// A law: a history that was made by runners that have all ended in order is complete, and their runs add up to its starts.
pub fn ended_runners_complete_a_history<T: Technology>()
    ensures complete { (commands : ℕ → List (Command T.Edit)) (workers : ℕ) (runners : List (Ended T T.Plate T.Edit T.Reply T.Output T.Job T.Bench)) (history : List (Entry T T.Plate T.Edit T.Reply T.Output T.Job T.Bench)) → IsMadeBy T.meaning commands workers runners history → IsComplete T.meaning commands workers history }
    ensures runs { (commands : ℕ → List (Command T.Edit)) (workers : ℕ) (runners : List (Ended T T.Plate T.Edit T.Reply T.Output T.Job T.Bench)) (history : List (Entry T T.Plate T.Edit T.Reply T.Output T.Job T.Bench)) → IsMadeBy T.meaning commands workers runners history → sum (map (λ r. r.runs) runners) ≡ runs_of history }
{}
