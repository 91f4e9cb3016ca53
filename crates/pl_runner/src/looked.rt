use pl_plant::Ticket;
use pl_tech::Technology;

/// What a turn of a runner without work came to.
#[derive(Drop)]
pub(crate) enum Looked<T: Technology> {
    /// A session has made its call.
    Called,
    /// A slot is started: the ticket, and the job to run.
    Begun(Ticket<T>, T::Job),
    /// A session has said bye, or a worker has found that all sessions have left.
    Ended,
    /// There was nothing to do.
    Waits,
    /// Memory was wanting: in this turn, or in an earlier one, which closed the plant down.
    NoMemory,
}
