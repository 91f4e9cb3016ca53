//! What a runner whose job has ended does to the plant in one turn.
ghost use Rattle.std.specs.Prelude.{◌≡◌, ◌<◌, false, true};
ghost use Rattle.std.specs.Arc.{arc_value};
ghost use Rattle.pl_epochs.specs.Words.{has_read, numbers, reads_at, table_of};
ghost use Rattle.pl_plant.specs.Planted.{Stands};
ghost use Rattle.pl_plant.specs.Tickets.{TicketStands};
ghost use Rattle.pl_runner.specs.Closing.{GrewByClosing, GrewByStopping, IfLate, MatchClosed};

use crate::Closed;
use crate::standing::{told, told_closed_down};
use pl_epochs::{EpochTable, ReaderSeat};
use pl_machine::Closing;
use pl_plant::{Plant, Ticket};
use pl_tech::Technology;
use std::sync::Arc;

/// What a runner does in a turn when its job has made its result. The ticket stands in the journal, and the output is its job's.
/// Where the plant is closed down, nothing; else the result is published, or dropped where the slot's epoch is above the ticket's.
/// For want of memory it closes the plant down, and adds no entry.
pub(crate) fn publish<T: Technology>(
    plant: &mut Plant<T>,
    ticket: Ticket<T>,
    output: Arc<T::Output>,
) -> Closed
    requires ticket { TicketStands T.meaning T.job_value plant.old.journal ticket }
    requires output { arc_value output ≡ T.job_value ticket.job.value }
    ensures stood { Stands T.meaning plant.old }
    ensures stands { Stands T.meaning plant.new }
    ensures journal { GrewByClosing result ticket plant.old.journal plant.new.journal }
    ensures late { IfLate result (λ since now. (since ≡ ticket.epoch) × (since < now)) }
    ensures home { plant.new.home ≡ plant.old.home }
    ensures open { MatchClosed result (plant.old.closed_down ≡ false) (λ _ _. plant.old.closed_down ≡ false) (Unit {0}) }
    ensures closed_down { MatchClosed result (plant.new.closed_down ≡ false) (λ _ _. plant.new.closed_down ≡ false) (plant.new.closed_down ≡ true) }
{
    if plant.closed_down() {
        return Closed::NoMemory;
    }
    if plant.reserve().is_err() {
        return told_closed_down(plant, Closed::NoMemory);
    }
    match plant.publish(ticket, output) {
        Closing::Published => told(plant, Closed::Done),
        Closing::Late { then, now } => told(plant, Closed::Late { since: then, now }),
    }
}

/// What a runner does in a turn when its job was stopped. The ticket stands in the journal, the table is the plant's and the
/// reader's, and the reader has read a word of the slot that is above the ticket's epoch. Where the plant is closed down, nothing;
/// else the job is noted as late. For want of memory it closes the plant down, and adds no entry. The reader is as before.
pub(crate) fn retire<T: Technology>(
    plant: &mut Plant<T>,
    epochs: &EpochTable,
    reader: &mut ReaderSeat,
    ticket: Ticket<T>,
) -> Closed
    requires ticket { TicketStands T.meaning T.job_value plant.old.journal ticket }
    requires home { plant.old.home ≡ table_of epochs.now }
    requires reader { reads_at reader.old ≡ table_of epochs.now }
    requires read { ticket.epoch < has_read reader.old ticket.slot }
    ensures stood { Stands T.meaning plant.old }
    ensures stands { Stands T.meaning plant.new }
    ensures journal { GrewByStopping result ticket plant.old.journal plant.new.journal }
    ensures late { IfLate result (λ since now. (since ≡ ticket.epoch) × (since < now)) }
    ensures home { plant.new.home ≡ plant.old.home }
    ensures open { MatchClosed result ⊥ (λ _ _. plant.old.closed_down ≡ false) (Unit {0}) }
    ensures closed_down { MatchClosed result ⊥ (λ _ _. plant.new.closed_down ≡ false) (plant.new.closed_down ≡ true) }
    ensures reader { (reads_at reader.new ≡ reads_at reader.old) × (numbers reader.new ≡ numbers reader.old) }
{
    if plant.closed_down() {
        return Closed::NoMemory;
    }
    if plant.reserve().is_err() {
        return told_closed_down(plant, Closed::NoMemory);
    }
    let (since, now) = plant.retire(epochs, reader, ticket);
    told(plant, Closed::Late { since, now })
}
