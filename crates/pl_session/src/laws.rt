ghost use Rattle.std.specs.Prelude.{◌≡◌, List};
ghost use Rattle.pl_machine.specs.declared.entry.Command.{Command};
ghost use Rattle.pl_machine.specs.declared.entry.Entry.{Entry};
ghost use Rattle.pl_session.specs.Alone.{first_alone};
ghost use Rattle.pl_session.specs.Complete.{IsComplete};

use pl_tech::Technology;

/// A law: a session that is alone, without workers, has at most one complete history.
pub fn one_complete_history<T: Technology>()
    ensures { (commands : List (Command T.Edit)) (one other : List (Entry T T.Plate T.Edit T.Reply T.Output T.Job T.Bench)) → IsComplete T.meaning (first_alone commands) 0 one → IsComplete T.meaning (first_alone commands) 0 other → one ≡ other }
{}
