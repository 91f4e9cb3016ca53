ghost use Rattle.std.specs.Prelude.{◌≡◌, ◌<◌, ◌++◌, ◌∷◌, [], vec_len, vec_capacity};
ghost use Rattle.std.specs.Option.{option_map};
ghost use Rattle.std.specs.Arc.{arc_value};
ghost use Rattle.pl_plant.specs.Keeping.{IsHandedOut};

use pl_machine::{Entry, Reply};
use pl_tech::Technology;
use pl_units::Shared;
use std::sync::Arc;

// Adds an entry that fits without memory.
pub(crate) fn add<T: Technology>(journal: &mut Vec<Entry<T>>, entry: Entry<T>)
    requires { vec_len journal.old < vec_capacity journal.old }
    ensures { journal.new.items ≡ journal.old.items ++ entry ∷ [] }
{
    match journal.push(entry) {
        Ok(()) => (),
        Err(_) => unreachable!(),
    }
}

// The same reply once more. Where it hands out a result, this is given.
pub(crate) fn repeat<T: Technology>(reply: &Reply<T>, output: Option<Arc<T::Output>>) -> Reply<T>
    requires { IsHandedOut reply.now (option_map arc_value output) }
    ensures { result ≡ reply.now }
{
    match reply {
        Reply::Edited(said) => Reply::Edited(*said),
        Reply::Unchanged => Reply::Unchanged,
        Reply::Changed => Reply::Changed,
        Reply::Invalidated(set) => Reply::Invalidated(*set),
        Reply::Cancelled(count) => Reply::Cancelled(*count),
        Reply::Modes {
            present,
            started,
            finished,
        } => Reply::Modes {
            present: *present,
            started: *started,
            finished: *finished,
        },
        Reply::Gcode(_) => match output {
            Some(output) => Reply::Gcode(Shared::of(output)),
            None => unreachable!(),
        },
        Reply::Refused(problem) => Reply::Refused(*problem),
        Reply::Passed => Reply::Passed,
    }
}
