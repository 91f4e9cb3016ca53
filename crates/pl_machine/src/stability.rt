ghost use Rattle.std.specs.Prelude.{List};
ghost use Rattle.pl_machine.specs.declared.entry.Entry.{Entry};
ghost use Rattle.pl_machine.specs.Stability.{IsStable};

use pl_tech::Technology;

/// A slot that is started or done keeps its value as long as its epoch stays.
pub fn results_last<T: Technology>()
    ensures { (history more : List (Entry T T.Plate T.Edit T.Reply T.Output T.Job T.Bench)) → IsStable T.meaning history more }
{}
