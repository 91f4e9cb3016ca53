//! A plant under a lock whose threads take turns.
use crate::Plant;
use pl_epochs::TableName;
use pl_machine::Entry;
use pl_tech::Technology;
use pl_turn::Turned;

/// A plant's history is its journal, an entry's number is that of its actor, i for session i and 16 + k for worker k, and its home
/// is the table whose words its epochs are.
impl<T: Technology> Turned for Plant<T> {
    ghost use Rattle.pl_machine.specs.Tickets.{number_of};

    type Entry = Entry<T>;

    type Home = TableName;

    ghost history = { λ p. p.journal };

    ghost caller = { λ e. number_of e.actor };

    ghost home = { λ p. p.home };
}
