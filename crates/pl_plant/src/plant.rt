ghost use Rattle.std.specs.Prelude.{◌≡◌, ◌⊎◌, ◌<◌, ◌≤◌, ◌-◌, ◌^◌, ◌↔◌, false, true, None, Some, [], ◌∷◌, ◌++◌, replicate, slice_set, IfOk, OnOk, OnErr, IsTrue, MatchOption};
ghost use Rattle.std.specs.Arc.{arc_value};
ghost use Rattle.pl_machine.specs.Machine.{MayCall, Replies, Starts, after_command, blank, called, calls_of, epoch_of, finished, freed, mode_of, started, without};
ghost use Rattle.pl_machine.specs.Startable.{AllLeft, HasNone, IsLeast};
ghost use Rattle.pl_machine.specs.Calls.{Excludes, MatchAnswer, NamesSession, TakesMemory, WaitsForCalls, WaitsForSlot};
ghost use Rattle.pl_machine.specs.Outcome.{MatchClosing};
ghost use Rattle.pl_machine.specs.Tickets.{start_of};
ghost use Rattle.pl_epochs.specs.Words.{counts, has_read, numbers, reads_at, table_of, writes_at};
ghost use Rattle.pl_plant.specs.Keeping.{KeepsAfter};

use crate::entries::{add, repeat};
use crate::keeping::{forget, given};
use crate::raising::{bump_all, fallen};
use crate::{Begun, Ticket};
use pl_epochs::{EpochTable, ReaderSeat, WriterSeat};
use pl_machine::{Actor, Answer, Closing, Command, Entry, Mode, State, What};
use pl_tech::{Kept, Slot, Technology};
use pl_units::{NoMemory, Shared};
use std::alloc::Global;
use std::marker::Model;
use std::snapshot::Snapshot;
use std::sync::Arc;

/// The machine with its journal, the results that are kept, and the right to write its epochs into the words of a table. Its
/// type keeps that it stands for its journal: the journal is a legal history, the state is the one after it, each slot that is
/// done keeps its value for the applied plate, no other slot keeps anything, and the word of each slot is its epoch. Each entry
/// needs room, which `reserve` makes.
#[derive(Drop)]
pub struct Plant<T: Technology> {
    state: State<T>,
    journal: Vec<Entry<T>>,
    kept: Kept<T::Output>,
    writer: WriterSeat,
    closed: bool,
}

impl<T: Technology> Model for Plant<T> {
    ghost use Rattle.std.specs.Prelude.{◌-◌, vec_len, vec_capacity};
    ghost use Rattle.pl_epochs.specs.Words.{counts, writes_at};
    ghost use Rattle.pl_plant.specs.Planted.{Planted, StandsFor};

    ghost Value = { Planted T T.Plate T.Edit T.Reply T.Output T.Job T.Bench };

    ghost view = { λ p. record { state = p.state; journal = p.journal.items; kept = p.kept; spare = vec_capacity p.journal - vec_len p.journal; home = writes_at p.writer; closed_down = p.closed } };

    ghost invariant = { λ p. StandsFor T.meaning p.state p.journal.items p.kept (counts p.writer) };
}

impl<T: Technology> Plant<T> {
    ghost use Rattle.pl_machine.specs.History.{IsLegal};
    ghost use Rattle.pl_plant.specs.Planted.{Stands};
    ghost use Rattle.pl_plant.specs.Tickets.{TicketStands};
    ghost use Rattle.pl_plant.specs.Outcome.{MatchBegun};

    /// The plant at the start: a blank state, no entries, nothing kept. It writes its epochs into the words of the writer's
    /// table, which are all 0.
    pub fn new(alloc: Global, writer: WriterSeat) -> Result<Plant<T>, NoMemory>
        requires fresh { counts writer ≡ replicate 100 0 }
        ensures state { IfOk result (λ p. p.state ≡ blank T.meaning) }
        ensures journal { IfOk result (λ p. p.journal ≡ []) }
        ensures kept { IfOk result (λ p. p.kept ≡ replicate 100 None) }
        ensures home { IfOk result (λ p. p.home ≡ writes_at writer) }
        ensures closed_down { IfOk result (λ p. p.closed_down ≡ false) }
    {
        let state = State::blank(alloc)?;
        let kept = Kept::new(alloc)?;
        Ok(Plant {
            state,
            journal: Vec::new(alloc),
            kept,
            writer,
            closed: false,
        })
    }

    /// Makes room for one more entry. Nothing else changes, whether there is memory or not.
    pub fn reserve(&mut self) -> Result<(), NoMemory>
        ensures room { OnOk result (1 ≤ self.new.spare) }
        ensures state { self.new.state ≡ self.old.state }
        ensures journal { self.new.journal ≡ self.old.journal }
        ensures kept { self.new.kept ≡ self.old.kept }
        ensures home { self.new.home ≡ self.old.home }
        ensures closed_down { self.new.closed_down ≡ self.old.closed_down }
    {
        match self.journal.try_reserve(1) {
            Ok(()) => Ok(()),
            Err(_) => Err(NoMemory),
        }
    }

    /// A session makes a call, and where it is a step the journal has it with its reply. There is room for an entry; the
    /// session, and one that is waited for, are from 1 to 16; it has nothing pending, has not left, and has made fewer than
    /// 2^32 - 1 calls. An export hands out what is kept for slot 99. `NotYet` is the answer exactly for an export of a plate
    /// without problem that lacks a result, `Behind` exactly for a wait for a session that has made too few calls; both change
    /// nothing, and so does want of memory, of which a status, a cancel and a wait have none. The table is the plant's. Once all
    /// memory of the call was had, the word of each slot whose epoch rose is raised.
    pub fn call(
        &mut self,
        alloc: Global,
        epochs: &EpochTable,
        session: u8,
        command: Arc<Command<T::Edit>>,
    ) -> Result<Answer<T>, NoMemory>
        requires room { 1 ≤ self.old.spare }
        requires may { MayCall self.old.state session }
        requires calls { calls_of self.old.state session < 2 ^ 32 - 1 }
        requires names { NamesSession (arc_value command) }
        requires home { self.old.home ≡ table_of epochs.now }
        ensures step { IfOk result (λ a. MatchAnswer a (λ r. Replies T.meaning self.old.state (arc_value command) r) (λ s. WaitsForSlot T.meaning self.old.state (arc_value command) s) (λ n. WaitsForCalls self.old.state (arc_value command) n)) }
        ensures exact { IfOk result (λ a. Excludes T.meaning self.old.state (arc_value command) a) }
        ensures state { IfOk result (λ a. MatchAnswer a (λ _. self.new.state ≡ called (after_command T.meaning self.old.state (arc_value command)) session) (λ _. self.new.state ≡ self.old.state) (λ _. self.new.state ≡ self.old.state)) }
        ensures journal { IfOk result (λ a. MatchAnswer a (λ r. self.new.journal ≡ self.old.journal ++ record { actor = Actor.Session session; what = What.Call (arc_value command) r } ∷ []) (λ _. self.new.journal ≡ self.old.journal) (λ _. self.new.journal ≡ self.old.journal)) }
        ensures kept { IfOk result (λ a. MatchAnswer a (λ _. KeepsAfter T.meaning self.old.state (arc_value command) self.old.kept self.new.kept) (λ _. self.new.kept ≡ self.old.kept) (λ _. self.new.kept ≡ self.old.kept)) }
        ensures waits { IfOk result (λ a. MatchAnswer a (λ _. Unit {0}) (λ _. self.new ≡ self.old) (λ _. self.new ≡ self.old)) }
        ensures home { self.new.home ≡ self.old.home }
        ensures closed_down { self.new.closed_down ≡ self.old.closed_down }
        ensures err { OnErr result (self.new ≡ self.old) }
        ensures memory { OnErr result (TakesMemory (arc_value command)) }
    {
        let output = given::<T>(&self.kept, &command)?;
        let stopped = self.state.stoppable();
        let answer = self.state.call(alloc, session, &command, output.as_ref())?;
        match answer {
            Answer::Now(reply) => {
                let entry = Entry {
                    actor: Actor::Session(session),
                    what: What::Call(Shared::of(command), repeat(&reply, output)),
                };
                forget(&mut self.kept, &reply);
                bump_all(epochs, &mut self.writer, fallen(&reply, stopped));
                add(&mut self.journal, entry);
                Ok(Answer::Now(reply))
            }
            Answer::NotYet(slot) => Ok(Answer::NotYet(slot)),
            Answer::Behind(made) => Ok(Answer::Behind(made)),
        }
    }

    /// Starts the slot, where the machine has that start, and answers its ticket and its job; else, or for want of memory,
    /// changes nothing. An actor that has left has no start. There is room for an entry.
    pub fn start(&mut self, alloc: Global, actor: Actor, slot: Slot) -> Result<Begun<T>, NoMemory>
        requires { 1 ≤ self.old.spare }
        ensures starts { IfOk result (λ b. MatchBegun b (λ t _. Starts T.meaning self.old.state actor slot t.epoch) (¬ Starts T.meaning self.old.state actor slot (epoch_of self.old.state slot))) }
        ensures ticket { IfOk result (λ b. MatchBegun b (λ t job. (t.actor ≡ actor) × (t.slot ≡ slot) × (t.job.value ≡ job)) (Unit {0})) }
        ensures journal { IfOk result (λ b. MatchBegun b (λ t _. self.new.journal ≡ self.old.journal ++ start_of actor slot t.epoch ∷ []) (self.new ≡ self.old)) }
        ensures stands { IfOk result (λ b. MatchBegun b (λ t _. TicketStands T.meaning T.job_value self.new.journal t) (Unit {0})) }
        ensures state { IfOk result (λ b. MatchBegun b (λ t _. self.new.state ≡ started self.old.state actor slot t.epoch) (self.new ≡ self.old)) }
        ensures kept { self.new.kept ≡ self.old.kept }
        ensures home { self.new.home ≡ self.old.home }
        ensures closed_down { self.new.closed_down ≡ self.old.closed_down }
        ensures job { IfOk result (λ b. MatchBegun b (λ _ job. T.job_value job ≡ T.meaning.value self.old.state.applied slot) (Unit {0})) }
        ensures polls { IfOk result (λ b. MatchBegun b (λ _ job. T.job_polls job ≡ T.meaning.batches self.old.state.applied slot) (Unit {0})) }
        ensures err { OnErr result (self.new ≡ self.old) }
    {
        if !self.state.is_ready(actor, slot) {
            return Ok(Begun::NotReady);
        }
        let job = T::job(alloc, self.state.applied(), slot, &self.kept)?;
        let epoch = self.state.begin(actor, slot);
        let ticket = Ticket {
            actor,
            slot,
            epoch,
            job: Snapshot::of(&job),
        };
        add(
            &mut self.journal,
            Entry {
                actor,
                what: What::Start(slot, epoch),
            },
        );
        Ok(Begun::Go(ticket, job))
    }

    /// Closes what was started: keeps what its job made, or drops it where the slot's epoch is above the ticket's. There is room
    /// for an entry, the ticket stands in the journal, and the output is its job's.
    pub fn publish(&mut self, ticket: Ticket<T>, output: Arc<T::Output>) -> Closing
        requires room { 1 ≤ self.old.spare }
        requires stands { TicketStands T.meaning T.job_value self.old.journal ticket }
        requires output { arc_value output ≡ T.job_value ticket.job.value }
        ensures journal { MatchClosing result (self.new.journal ≡ self.old.journal ++ record { actor = ticket.actor; what = What.Finish ticket.slot ticket.epoch } ∷ []) (λ since now. self.new.journal ≡ self.old.journal ++ record { actor = ticket.actor; what = What.Late ticket.slot since now } ∷ []) }
        ensures answer { MatchClosing result (epoch_of self.old.state ticket.slot ≡ ticket.epoch) (λ since now. (since ≡ ticket.epoch) × (now ≡ epoch_of self.old.state ticket.slot) × (since < now)) }
        ensures state { MatchClosing result (self.new.state ≡ finished self.old.state ticket.actor ticket.slot) (λ _ _. self.new.state ≡ freed self.old.state ticket.actor) }
        ensures kept { MatchClosing result (self.new.kept ≡ slice_set self.old.kept ticket.slot (Some (arc_value output))) (λ _ _. self.new.kept ≡ self.old.kept) }
        ensures home { self.new.home ≡ self.old.home }
        ensures closed_down { self.new.closed_down ≡ self.old.closed_down }
    {
        let actor = ticket.actor;
        let slot = ticket.slot;
        match self.state.publish(actor) {
            Closing::Published => {
                self.kept.put(slot, output);
                add(
                    &mut self.journal,
                    Entry {
                        actor,
                        what: What::Finish(slot, ticket.epoch),
                    },
                );
                Closing::Published
            }
            Closing::Late { then, now } => {
                add(
                    &mut self.journal,
                    Entry {
                        actor,
                        what: What::Late(slot, then, now),
                    },
                );
                Closing::Late { then, now }
            }
        }
    }

    /// Closes what was started and stopped: the epoch at the start, and the slot's epoch now, which is above. There is room for an
    /// entry, the ticket stands in the journal, the table is the plant's and the reader's, and the reader has read a word of the
    /// slot that is above the ticket's epoch. The reader is as before.
    pub fn retire(
        &mut self,
        epochs: &EpochTable,
        reader: &mut ReaderSeat,
        ticket: Ticket<T>,
    ) -> (u64, u64)
        requires room { 1 ≤ self.old.spare }
        requires stands { TicketStands T.meaning T.job_value self.old.journal ticket }
        requires home { self.old.home ≡ table_of epochs.now }
        requires reader { reads_at reader.old ≡ table_of epochs.now }
        requires read { ticket.epoch < has_read reader.old ticket.slot }
        ensures journal { self.new.journal ≡ self.old.journal ++ record { actor = ticket.actor; what = What.Late ticket.slot result.0 result.1 } ∷ [] }
        ensures answer { (result.0 ≡ ticket.epoch) × (result.1 ≡ epoch_of self.old.state ticket.slot) }
        ensures later { result.0 < result.1 }
        ensures state { self.new.state ≡ freed self.old.state ticket.actor }
        ensures kept { self.new.kept ≡ self.old.kept }
        ensures home { self.new.home ≡ self.old.home }
        ensures closed_down { self.new.closed_down ≡ self.old.closed_down }
        ensures reader { (reads_at reader.new ≡ reads_at reader.old) × (numbers reader.new ≡ numbers reader.old) }
    {
        epochs.meet(&mut self.writer, reader);
        let (since, now) = self.state.retire(ticket.actor);
        add(
            &mut self.journal,
            Entry {
                actor: ticket.actor,
                what: What::Late(ticket.slot, since, now),
            },
        );
        (since, now)
    }

    /// A session says bye. There is room for an entry; the session has nothing pending and has not left.
    pub fn leave(&mut self, session: u8)
        requires room { 1 ≤ self.old.spare }
        requires may { MayCall self.old.state session }
        ensures journal { self.new.journal ≡ self.old.journal ++ record { actor = Actor.Session session; what = What.Bye } ∷ [] }
        ensures state { self.new.state ≡ without self.old.state session }
        ensures kept { self.new.kept ≡ self.old.kept }
        ensures home { self.new.home ≡ self.old.home }
        ensures closed_down { self.new.closed_down ≡ self.old.closed_down }
    {
        self.state.leave(session);
        add(
            &mut self.journal,
            Entry {
                actor: Actor::Session(session),
                what: What::Bye,
            },
        );
    }

    /// The least slot that an actor with nothing pending that has not left may start. None exactly where there is none.
    pub fn startable(&self) -> Option<Slot>
        ensures { MatchOption result (HasNone T.meaning self.now.state) (λ s. IsLeast T.meaning self.now.state s) }
    {
        self.state.startable()
    }

    /// Whether each of these sessions has left: bit i - 1 stands for session i. A session above 16 has not left.
    pub fn all_left(&self, sessions: u32) -> bool
        ensures { IsTrue result ↔ AllLeft self.now.state sessions }
    {
        self.state.all_left(sessions)
    }

    /// Whether the session is from 1 to 16, has not left and has nothing pending.
    pub fn may_call(&self, session: u8) -> bool
        ensures { IsTrue result ↔ MayCall self.now.state session }
    {
        self.state.may_call(session)
    }

    /// How many calls a session from 1 to 16 has made. Another has made none.
    pub fn calls(&self, session: u8) -> u32
        ensures made { 1 ≤ session → session ≤ 16 → result ≡ calls_of self.now.state session }
        ensures outside { (session < 1) ⊎ (16 < session) → result ≡ 0 }
    {
        self.state.calls(session)
    }

    /// How the slot stands.
    pub fn mode(&self, slot: Slot) -> Mode
        ensures { result ≡ mode_of self.now.state slot }
    {
        self.state.mode(slot)
    }

    /// The applied plate.
    pub fn applied(&self) -> &T::Plate
        ensures { result.now ≡ self.now.state.applied }
    {
        self.state.applied()
    }

    /// The entries so far. The plant stands for them.
    pub fn journal(&self) -> &[Entry<T>]
        ensures value { result.now ≡ self.now.journal }
        ensures stands { Stands T.meaning self.now }
    {
        &self.journal
    }

    /// The entries, which are a legal history.
    pub fn into_journal(self) -> Vec<Entry<T>>
        ensures value { result.items ≡ self.journal }
        ensures legal { IsLegal T.meaning result.items }
    {
        self.journal
    }

    /// Nobody is to go on from now on.
    pub fn close_down(&mut self)
        ensures state { self.new.state ≡ self.old.state }
        ensures journal { self.new.journal ≡ self.old.journal }
        ensures kept { self.new.kept ≡ self.old.kept }
        ensures spare { self.new.spare ≡ self.old.spare }
        ensures home { self.new.home ≡ self.old.home }
        ensures closed_down { self.new.closed_down ≡ true }
    {
        self.closed = true;
    }

    /// Whether nobody is to go on. The plant stands for its journal.
    pub fn closed_down(&self) -> bool
        ensures value { result ≡ self.now.closed_down }
        ensures stands { Stands T.meaning self.now }
    {
        let _ = &self.state;
        self.closed
    }
}
