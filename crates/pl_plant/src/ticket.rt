use pl_machine::Actor;
use pl_tech::{Slot, Technology};
use std::snapshot::Snapshot;

/// The right to close what was started: who started which slot, at which epoch, and the job that was made for it.
#[derive(Drop)]
pub struct Ticket<T: Technology> {
    /// Who started the slot.
    pub actor: Actor,
    /// The slot.
    pub slot: Slot,
    /// The slot's epoch at the start.
    pub epoch: u64,
    /// The job as it was made. It has no bytes, and serves proofs alone.
    pub job: Snapshot<T::Job>,
}

/// What a wish to start a slot came to.
#[derive(Drop)]
pub enum Begun<T: Technology> {
    /// The slot is started: the ticket, and the job to run.
    Go(Ticket<T>, T::Job),
    /// The machine has no such start.
    NotReady,
}
