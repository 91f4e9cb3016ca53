use pl_ports::Actor;
use pl_tech::{Problem, Slot, SlotSet, Technology};
use pl_units::Shared;

/// How a slot stands.
#[derive(Clone, Copy, PartialEq, Eq, Debug)]
pub enum Mode {
    /// Nobody works at it, and it has no result.
    Invalid,
    /// This actor works at it.
    Started(Actor),
    /// It has its result.
    Done,
}

/// What a session asks for.
#[derive(Drop, Debug)]
pub enum Command<E> {
    /// To change the plate that is edited.
    Edit(E),
    /// To make the edited plate the applied one.
    Apply,
    /// To have the result of slot 99.
    Export,
    /// To have the modes of all slots.
    Status,
    /// To stop all that is started.
    Cancel,
    /// To wait until a session, from 1 to 16, has made this many calls.
    After(u8, u32),
}

/// What a session is told.
#[derive(Drop)]
pub enum Reply<T: Technology> {
    /// What the technology says of an edit.
    Edited(T::Reply),
    /// Both plates were equal before the apply.
    Unchanged,
    /// The plates differed, and no slot fell.
    Changed,
    /// The slots that fell to Invalid at an apply, at least one.
    Invalidated(SlotSet),
    /// How many slots a cancel stopped.
    Cancelled(u8),
    /// The slots of the applied plate, and which of them are started and done.
    Modes {
        present: SlotSet,
        started: SlotSet,
        finished: SlotSet,
    },
    /// The result of slot 99 for the applied plate.
    Gcode(Shared<T::Output>),
    /// The applied plate has this problem.
    Refused(Problem),
    /// The session that was waited for has made its calls.
    Passed,
}

/// What a call came to.
#[derive(Drop)]
pub enum Answer<T: Technology> {
    /// The call was made, with this reply.
    Now(Reply<T>),
    /// It was not made: an export waits for this slot, the least present one that is not done.
    NotYet(Slot),
    /// It was not made: the session that it waits for has made only this many calls.
    Behind(u32),
}

/// What happened.
#[derive(Drop)]
pub enum What<T: Technology> {
    /// A session's command and its reply.
    Call(Shared<Command<T::Edit>>, Reply<T>),
    /// A slot was started at this epoch.
    Start(Slot, u64),
    /// A slot that was started at this epoch is done.
    Finish(Slot, u64),
    /// What was started at the first epoch was dropped, since the slot's epoch is the second, above it.
    Late(Slot, u64, u64),
    /// A session left.
    Bye,
}

/// One entry of a journal.
#[derive(Drop)]
pub struct Entry<T: Technology> {
    /// Who made the step.
    pub actor: Actor,
    /// The step.
    pub what: What<T>,
}

/// What an actor has under way: a slot, and the slot's epoch at its start.
#[derive(Clone, Copy, PartialEq, Eq, Debug)]
pub struct Pending {
    pub slot: Slot,
    pub epoch: u64,
}
