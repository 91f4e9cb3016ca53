/// What became of a job that has ended.
#[derive(Clone, Copy, PartialEq, Eq, Debug)]
pub(crate) enum Closed {
    /// Its result was published.
    Done,
    /// It was too late: the slot's epoch is `now`, above `since`, the one at its start.
    Late { since: u64, now: u64 },
    /// Memory was wanting, here or where the plant was closed down. It is still under way.
    NoMemory,
}
