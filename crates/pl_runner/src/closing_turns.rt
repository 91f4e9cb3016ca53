//! The turns of a runner whose job has ended, at the lock of the plant. What a turn tells holds for every schedule.
ghost use Rattle.std.specs.Prelude.{◌≡◌, ◌<◌};
ghost use Rattle.std.specs.Arc.{arc_value};
ghost use mathlib.Core.List.{IsPrefix};
ghost use Rattle.pl_epochs.specs.Words.{has_read, numbers, reads_at, table_of};
ghost use Rattle.pl_machine.specs.Tickets.{number_of};
ghost use Rattle.pl_turn.specs.Passes.{AreOfOne, Fits, IsOf, joined, number, own, seen, splits};
ghost use Rattle.pl_plant.specs.Tickets.{TicketStands};
ghost use Rattle.pl_runner.specs.Closing.{ClosesInOrder, GrewByClosing, GrewByStopping, IfLate, epochs_of};

use crate::Closed;
use crate::closing::{publish, retire};
use pl_epochs::{EpochTable, ReaderSeat};
use pl_machine::Command;
use pl_plant::{Plant, Ticket};
use pl_tech::Technology;
use pl_turn::{Pass, TurnLock};
use std::sync::{Arc, Wait};

/// A turn of a runner whose job has made its result: the ticket stands in what the pass has seen, and the output is its job's. A
/// runner that was in order with its work stays so, whatever its commands: without work once it is closed. It waits for the turn.
pub(crate) fn publish_turn<T: Technology, R: Wait>(
    rt: &R,
    lock: &TurnLock<Plant<T>>,
    pass: Pass<Plant<T>>,
    ticket: Ticket<T>,
    output: Arc<T::Output>,
) -> (Closed, Pass<Plant<T>>)
    requires lock { IsOf lock.now pass }
    requires number { number pass ≡ number_of ticket.actor }
    requires stands { TicketStands T.meaning T.job_value (seen pass) ticket }
    requires output { arc_value output ≡ T.job_value ticket.job.value }
    ensures lock { AreOfOne pass result.1 }
    ensures number { number result.1 ≡ number pass }
    ensures joined { joined result.1 ≡ joined pass }
    ensures splits { splits result.1 ≡ splits pass }
    ensures seen { IsPrefix (seen pass) (seen result.1) }
    ensures fits { Fits result.1 (seen result.1) }
    ensures own { GrewByClosing result.0 ticket (own pass) (own result.1) }
    ensures late { IfLate result.0 (λ since now. (since ≡ ticket.epoch) × (since < now)) }
    ensures order { ClosesInOrder T.meaning T.job_value ticket (seen pass) (seen result.1) result.0 }
{
    let mut turn = lock.take(rt, pass);
    match publish(turn.value(), ticket, output) {
        Closed::Done => (Closed::Done, turn.end_with()),
        Closed::Late { since, now } => (Closed::Late { since, now }, turn.end_with()),
        Closed::NoMemory => {
            let pass = turn.end();
            lock.tell_change();
            (Closed::NoMemory, pass)
        }
    }
}

/// A turn of a runner whose job was stopped: the ticket stands in what the pass has seen, the table is the reader's, its words are
/// the epochs of the plant under the lock, and the reader has read a word of the slot that is above the ticket's epoch. The reader
/// comes back as it was. A runner that was in order with its work stays so, as in `publish_turn`. It waits for the turn.
pub(crate) fn retire_turn<T: Technology, R: Wait>(
    rt: &R,
    lock: &TurnLock<Plant<T>>,
    epochs: &EpochTable,
    pass: Pass<Plant<T>>,
    reader: ReaderSeat,
    ticket: Ticket<T>,
) -> (Closed, Pass<Plant<T>>, ReaderSeat)
    requires lock { IsOf lock.now pass }
    requires number { number pass ≡ number_of ticket.actor }
    requires stands { TicketStands T.meaning T.job_value (seen pass) ticket }
    requires home { epochs_of lock.now ≡ table_of epochs.now }
    requires reader { reads_at reader ≡ table_of epochs.now }
    requires read { ticket.epoch < has_read reader ticket.slot }
    ensures lock { AreOfOne pass result.1 }
    ensures number { number result.1 ≡ number pass }
    ensures joined { joined result.1 ≡ joined pass }
    ensures splits { splits result.1 ≡ splits pass }
    ensures seen { IsPrefix (seen pass) (seen result.1) }
    ensures fits { Fits result.1 (seen result.1) }
    ensures own { GrewByStopping result.0 ticket (own pass) (own result.1) }
    ensures late { IfLate result.0 (λ since now. (since ≡ ticket.epoch) × (since < now)) }
    ensures order { ClosesInOrder T.meaning T.job_value ticket (seen pass) (seen result.1) result.0 }
    ensures reader { (reads_at result.2 ≡ reads_at reader) × (numbers result.2 ≡ numbers reader) }
{
    let mut reader = reader;
    let mut turn = lock.take(rt, pass);
    match retire(turn.value(), epochs, &mut reader, ticket) {
        Closed::Done => unreachable!(),
        Closed::Late { since, now } => (Closed::Late { since, now }, turn.end_with(), reader),
        Closed::NoMemory => {
            let pass = turn.end();
            lock.tell_change();
            (Closed::NoMemory, pass, reader)
        }
    }
}

/// A turn that closes the plant down, and tells it to who sleeps. It waits for the turn.
pub(crate) fn closing_down_turn<T: Technology, R: Wait>(
    rt: &R,
    lock: &TurnLock<Plant<T>>,
    pass: Pass<Plant<T>>,
) -> Pass<Plant<T>>
    requires { IsOf lock.now pass }
    ensures lock { AreOfOne pass result }
    ensures number { number result ≡ number pass }
    ensures own { own result ≡ own pass }
    ensures joined { joined result ≡ joined pass }
    ensures splits { splits result ≡ splits pass }
    ensures seen { IsPrefix (seen pass) (seen result) }
    ensures fits { Fits result (seen result) }
{
    let mut turn = lock.take(rt, pass);
    turn.value().close_down();
    let pass = turn.end();
    lock.tell_change();
    pass
}
