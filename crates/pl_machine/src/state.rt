ghost use Rattle.std.specs.Prelude.{◌⊎◌, ◌≤◌, count_by, ◌≡◌, ◌≢◌, ◌↔◌, ℕ, ◌<◌, ◌+◌, ◌-◌, ◌^◌, ◌&&◌, not, true, false, if◌then◌else◌, IfOk, OnOk, OnErr, MatchOption, IsTrue, IfSome, None, Some, slice_index, slice_index_or};
ghost use Rattle.std.specs.Arc.{arc_value};
ghost use Rattle.std.specs.Option.{option_map};
ghost use Rattle.pl_tech.specs.Slots.{has};
ghost use Rattle.std.specs.Int.{bit_at};
ghost use Rattle.pl_machine.specs.Applied.{IsApplied};
ghost use Rattle.pl_machine.specs.Each.{each_slot};
ghost use Rattle.pl_machine.specs.Startable.{IsLeast, IsLeastOpen, HasNone, HasNoneOpen, AllLeft};
ghost use Rattle.pl_machine.specs.Look.{looks};
ghost use Rattle.pl_machine.specs.Machine.{MayCall, has_left, Replies, calls_of, called, after_command, is_started, without, blank, epoch_of, mode_of, pending_of, seat_of, IsActor, IsOpen, CanStart, Starts, is_gone, Finishes, Drops, started, finished, freed};

use crate::entry::{Answer, Command, Mode, Pending, Reply};
use crate::look::Look;
use crate::plates::Plates;
use pl_ports::Actor;
use pl_tech::{Slot, SlotSet, Technology};
use pl_units::{NoMemory, Shared};
use std::alloc::Global;
use std::marker::Model;
use std::sync::Arc;

/// What became of a wish to start a slot.
#[derive(Clone, Copy, PartialEq, Eq, Debug)]
pub enum Start {
    /// It is started, at this epoch.
    At(u64),
    /// The machine has no such start.
    NotReady,
}

/// How a job that ran to its end was closed.
#[derive(Clone, Copy, PartialEq, Eq, Debug)]
pub enum Closing {
    /// Its result stands.
    Published,
    /// The slot's epoch is `now`, above `then`, the one at its start.
    Late { then: u64, now: u64 },
}

fn is_actor(actor: Actor) -> bool
    ensures { IsTrue result ↔ IsActor actor }
{
    match actor {
        Actor::Session(i) => 1 <= i && i <= 16,
        Actor::Worker(k) => 1 <= k && k <= 8,
    }
}

fn seat_of(actor: Actor) -> usize
    requires { IsActor actor }
    ensures value { result ≡ seat_of actor }
    ensures in_range { result < 24 }
{
    match actor {
        Actor::Session(i) => i as usize - 1,
        Actor::Worker(k) => 15 + k as usize,
    }
}

// What an apply answers that finds the plates equal or not, and these slots to make Invalid.
fn applied_reply<T: Technology>(same: bool, hit: SlotSet) -> Reply<T>
    ensures { IsApplied result same hit }
{
    if same {
        return Reply::Unchanged;
    }
    match hit.least() {
        None => Reply::Changed,
        Some(_) => Reply::Invalidated(hit),
    }
}

// Makes each slot of the set Invalid, and raises its epoch.
fn fall(modes: &mut [Mode; 100], epochs: &mut [u64; 100], hit: SlotSet)
    requires { (k : ℕ) → slice_index epochs.old k < 2 ^ 64 - 1 }
    ensures modes { modes.new ≡ each_slot (λ k. if has hit k then Mode.Invalid else slice_index_or modes.old k Mode.Invalid) }
    ensures epochs { epochs.new ≡ each_slot (λ k. if has hit k then slice_index epochs.old k + 1 else slice_index epochs.old k) }
{
    for n in 0..100u8 {
        if hit.has(Slot::of(n)) {
            modes[n as usize] = Mode::Invalid;
            epochs[n as usize] += 1;
        }
    }
}

/// The state of the machine.
#[derive(Drop)]
pub struct State<T: Technology> {
    plates: Plates<T>,
    modes: [Mode; 100],
    epochs: [u64; 100],
    calls: [u32; 16],
    left: [bool; 16],
    pending: [Option<Pending>; 24],
}

impl<T: Technology> Model for State<T> {
    ghost use Rattle.pl_machine.specs.Machine.{Machine, IsSound};

    ghost Value = { Machine T.Plate };

    ghost view = { λ s. record { edited = s.plates.edited; applied = s.plates.applied; modes = s.modes; epochs = s.epochs; calls = s.calls; left = s.left; pending = s.pending } };

    ghost invariant = { λ s. IsSound T.meaning (record { edited = s.plates.edited; applied = s.plates.applied; modes = s.modes; epochs = s.epochs; calls = s.calls; left = s.left; pending = s.pending }) };
}

impl<T: Technology> State<T> {
    ghost use Rattle.pl_machine.specs.Outcome.{MatchStart, MatchClosing};
    ghost use Rattle.pl_machine.specs.Calls.{MatchAnswer, NamesSession, TakesMemory, IsWhole, IsUndone, IsNotYet, WaitsForSlot, WaitsForCalls, IsGiven, Excludes};

    /// The state at the start: both plates blank, every slot Invalid, every number 0.
    pub fn blank(alloc: Global) -> Result<State<T>, NoMemory>
        ensures { IfOk result (λ s. s ≡ blank T.meaning) }
    {
        let plates = Plates::blank(alloc)?;
        Ok(State {
            plates,
            modes: [Mode::Invalid; 100],
            epochs: [0; 100],
            calls: [0; 16],
            left: [false; 16],
            pending: [None; 24],
        })
    }

    /// The applied plate.
    pub fn applied(&self) -> &T::Plate
        ensures { result.now ≡ self.now.applied }
    {
        self.plates.applied()
    }

    /// How the slot stands.
    pub fn mode(&self, slot: Slot) -> Mode
        ensures { result ≡ mode_of self.now slot }
    {
        self.modes[slot.number() as usize]
    }

    /// How often the slot fell, by an apply or a cancel.
    pub fn epoch(&self, slot: Slot) -> u64
        ensures { result ≡ epoch_of self.now slot }
    {
        self.epochs[slot.number() as usize]
    }

    // Whether each slot of the set is done.
    fn all_done(&self, set: SlotSet) -> bool
        ensures { IsTrue result ↔ ((n : ℕ) → n < 100 → has set n ≡ true → mode_of self.now n ≡ Mode.Done) }
    {
        for n in 0..100u8 {
            let slot = Slot::of(n);
            if set.has(slot) && self.mode(slot) != Mode::Done {
                return false;
            }
        }
        true
    }

    /// What the actor, a session from 1 to 16 or a worker from 1 to 8, has under way.
    pub fn pending(&self, actor: Actor) -> Option<Pending>
        requires { IsActor actor }
        ensures { result ≡ pending_of self.now actor }
    {
        self.pending[seat_of(actor)]
    }

    // Whether the actor has left. A worker never does.
    fn is_gone(&self, actor: Actor) -> bool
        requires { IsActor actor }
        ensures { result ≡ is_gone self.now actor }
    {
        match actor {
            Actor::Session(i) => self.left[i as usize - 1],
            Actor::Worker(_) => false,
        }
    }

    // Whether the slot is Invalid, one of these, which are the present ones, and has all that it needs.
    fn is_open(&self, present: SlotSet, slot: Slot) -> bool
        requires { (k : ℕ) → has present k ≡ T.meaning.present self.now.applied k }
        ensures { IsTrue result ↔ IsOpen T.meaning self.now slot }
    {
        if self.mode(slot) != Mode::Invalid {
            return false;
        }
        present.has(slot) && self.all_done(T::needs(self.plates.applied(), slot))
    }

    // Whether an actor with nothing pending that has not left may start the slot.
    fn can_start(&self, slot: Slot) -> bool
        ensures { IsTrue result ↔ CanStart T.meaning self.now slot }
    {
        self.is_open(T::present(self.plates.applied()), slot)
            && T::problem(self.plates.applied()).is_none()
    }

    /// Whether the machine has a start of this actor and slot.
    pub fn is_ready(&self, actor: Actor, slot: Slot) -> bool
        ensures { IsTrue result ↔ Starts T.meaning self.now actor slot (epoch_of self.now slot) }
    {
        is_actor(actor)
            && !self.is_gone(actor)
            && self.pending(actor).is_none()
            && self.can_start(slot)
    }

    /// Starts the slot, and answers its epoch. The machine has that start.
    pub fn begin(&mut self, actor: Actor, slot: Slot) -> u64
        requires { Starts T.meaning self.old actor slot (epoch_of self.old slot) }
        ensures epoch { result ≡ epoch_of self.old slot }
        ensures state { self.new ≡ started self.old actor slot result }
    {
        let epoch = self.epoch(slot);
        self.modes[slot.number() as usize] = Mode::Started(actor);
        self.pending[seat_of(actor)] = Some(Pending { slot, epoch });
        epoch
    }

    /// Starts the slot, where the machine has that start, and answers its epoch; else changes nothing. An actor that has left has
    /// none.
    pub fn start(&mut self, actor: Actor, slot: Slot) -> Start
        ensures step { MatchStart result (λ e. Starts T.meaning self.old actor slot e) (self.new ≡ self.old) }
        ensures state { MatchStart result (λ e. self.new ≡ started self.old actor slot e) (self.new ≡ self.old) }
        ensures refused { result ≡ Start.NotReady → (e : ℕ) → Starts T.meaning self.old actor slot e → ⊥ }
    {
        if !self.is_ready(actor, slot) {
            return Start::NotReady;
        }
        Start::At(self.begin(actor, slot))
    }

    /// Closes what the actor has pending. It is `Published` where the slot's epoch is the one at the start, and `Late` exactly
    /// where it is above.
    pub fn publish(&mut self, actor: Actor) -> Closing
        requires actor { IsActor actor }
        requires pending { pending_of self.old actor ≢ None }
        ensures published { IfSome (pending_of self.old actor) (λ p. MatchClosing result (Finishes self.old actor p.slot p.epoch) (λ since now. (since ≡ p.epoch) × Drops self.old actor p.slot since now)) }
        ensures state { IfSome (pending_of self.old actor) (λ p. MatchClosing result (self.new ≡ finished self.old actor p.slot) (λ _ _. self.new ≡ freed self.old actor)) }
    {
        match self.pending(actor) {
            None => unreachable!(),
            Some(pending) => {
                let at = pending.slot.number() as usize;
                self.pending[seat_of(actor)] = None;
                let now = self.epochs[at];
                if now > pending.epoch {
                    return Closing::Late {
                        then: pending.epoch,
                        now,
                    };
                }
                self.modes[at] = Mode::Done;
                Closing::Published
            }
        }
    }

    // The least slot that is Invalid and has all that it needs, whatever problem the plate has.
    fn open_slot(&self) -> Option<Slot>
        ensures { MatchOption result (HasNoneOpen T.meaning self.now) (λ s. IsLeastOpen T.meaning self.now s) }
    {
        let present = T::present(self.plates.applied());
        for n in 0..100u8 {
            let slot = Slot::of(n);
            if self.is_open(present, slot) {
                return Some(slot);
            }
        }
        None
    }

    /// The least slot that an actor with nothing pending that has not left may start. None exactly where there is none. Where no
    /// slot of the plate is Invalid, its problem and what its slots need are not looked at.
    pub fn startable(&self) -> Option<Slot>
        ensures { MatchOption result (HasNone T.meaning self.now) (λ s. IsLeast T.meaning self.now s) }
    {
        let slot = self.open_slot()?;
        match T::problem(self.plates.applied()) {
            None => Some(slot),
            Some(_) => None,
        }
    }

    // Whether session n + 1 has left. A session above 16 has not.
    fn has_left(&self, n: u8) -> bool
        ensures { result ≡ has_left self.now (n + 1) }
    {
        let _ = &self.left;
        if n >= 16 {
            return false;
        }
        self.left[n as usize]
    }

    // Whether session n + 1 is one of these and has not left.
    fn stays(&self, sessions: u32, n: u8) -> bool
        requires { n < 32 }
        ensures { IsTrue result ↔ ((bit_at sessions n ≡ 1) × (has_left self.now (n + 1) ≡ false)) }
    {
        (sessions >> n) & 1 == 1 && !self.has_left(n)
    }

    /// Whether each of these sessions has left: bit i - 1 stands for session i. A session above 16 has not left.
    pub fn all_left(&self, sessions: u32) -> bool
        ensures { IsTrue result ↔ AllLeft self.now sessions }
    {
        let _ = &self.modes;
        for n in 0..32u8 {
            if self.stays(sessions, n) {
                return false;
            }
        }
        true
    }

    /// Drops what the actor has pending. The slot's epoch is above the one at the start: then and now.
    pub fn retire(&mut self, actor: Actor) -> (u64, u64)
        requires actor { IsActor actor }
        requires later { MatchOption (pending_of self.old actor) ⊥ (λ p. p.epoch < epoch_of self.old p.slot) }
        ensures dropped { IfSome (pending_of self.old actor) (λ p. (result.0 ≡ p.epoch) × (result.1 ≡ epoch_of self.old p.slot) × Drops self.old actor p.slot result.0 result.1) }
        ensures state { self.new ≡ freed self.old actor }
    {
        match self.pending(actor) {
            None => unreachable!(),
            Some(pending) => {
                let now = self.epoch(pending.slot);
                self.pending[seat_of(actor)] = None;
                (pending.epoch, now)
            }
        }
    }

    // Whether the slot is in the set and its mode is looked for.
    fn is_found(&self, set: SlotSet, look: Look, slot: Slot) -> bool
        ensures { result ≡ (has set slot && looks look (mode_of self.now slot)) }
    {
        set.has(slot) && look.finds(self.mode(slot))
    }

    // The slots of the set whose modes are looked for.
    fn found(&self, set: SlotSet, look: Look) -> SlotSet
        ensures { (k : ℕ) → has result k ≡ (has set k && looks look (mode_of self.now k)) }
    {
        let _ = &self.modes;
        let mut found = SlotSet::empty();
        for n in 0..100u8 {
            let slot = Slot::of(n);
            if self.is_found(set, look, slot) {
                found = found.with(slot);
            }
        }
        found
    }

    /// How many calls the session has made: none, where it is not from 1 to 16.
    pub fn calls(&self, session: u8) -> u32
        ensures made { 1 ≤ session → session ≤ 16 → result ≡ calls_of self.now session }
        ensures outside { (session < 1) ⊎ (16 < session) → result ≡ 0 }
    {
        if session < 1 || session > 16 {
            return 0;
        }
        self.calls[session as usize - 1]
    }

    /// Whether the session is from 1 to 16, has not left and has nothing pending.
    pub fn may_call(&self, session: u8) -> bool
        ensures { IsTrue result ↔ MayCall self.now session }
    {
        1 <= session
            && session <= 16
            && !self.has_left(session - 1)
            && self.pending(Actor::Session(session)).is_none()
    }

    /// A session says bye. It has nothing pending and has not left.
    pub fn leave(&mut self, session: u8)
        requires may { MayCall self.old session }
        ensures state { self.new ≡ without self.old session }
    {
        self.left[session as usize - 1] = true;
    }

    // Whether the slot of this number is started.
    fn is_started(&self, number: u8) -> bool
        requires { number < 100 }
        ensures { result ≡ is_started (slice_index_or self.now.modes number Mode.Invalid) }
    {
        matches!(self.modes[number as usize], Mode::Started(_))
    }

    // How many slots are started.
    fn count_started(&self) -> u8
        ensures { result ≡ count_by is_started self.now.modes }
    {
        let _ = &self.modes;
        let mut count = 0;
        for n in 0..100u8 {
            if self.is_started(n) {
                count += 1;
            }
        }
        count
    }

    /// The slots that are started. A cancel makes them Invalid.
    pub fn stoppable(&self) -> SlotSet
        ensures { (k : ℕ) → has result k ≡ is_started (mode_of self.now k) }
    {
        let _ = &self.modes;
        self.found(T::present(self.plates.applied()), Look::Started)
    }

    // The least present slot that is not done.
    fn undone(&self) -> Option<Slot>
        ensures { MatchOption result (IsWhole T.meaning self.now) (IsUndone T.meaning self.now) }
    {
        let present = T::present(self.plates.applied());
        present.minus(self.found(present, Look::Done)).least()
    }

    // One more call of a session.
    fn count(&mut self, session: u8)
        requires may { MayCall self.old session }
        requires room { calls_of self.old session < 2 ^ 32 - 1 }
        ensures { self.new ≡ called self.old session }
    {
        self.calls[session as usize - 1] += 1;
    }

    // The edit command.
    fn edit(&mut self, alloc: Global, session: u8, edit: &T::Edit) -> Result<Reply<T>, NoMemory>
        requires may { MayCall self.old session }
        requires room { calls_of self.old session < 2 ^ 32 - 1 }
        ensures reply { IfOk result (λ r. Replies T.meaning self.old (Command.Edit edit.now) r) }
        ensures state { OnOk result (self.new ≡ called (after_command T.meaning self.old (Command.Edit edit.now)) session) }
        ensures err { OnErr result (self.new ≡ self.old) }
    {
        let reply = self.plates.edit(alloc, edit)?;
        self.calls[session as usize - 1] += 1;
        Ok(Reply::Edited(reply))
    }

    // The apply command.
    fn apply(&mut self, alloc: Global, session: u8) -> Result<Reply<T>, NoMemory>
        requires may { MayCall self.old session }
        requires room { calls_of self.old session < 2 ^ 32 - 1 }
        ensures reply { IfOk result (λ r. Replies T.meaning self.old Command.Apply r) }
        ensures state { OnOk result (self.new ≡ called (after_command T.meaning self.old Command.Apply) session) }
        ensures err { OnErr result (self.new ≡ self.old) }
    {
        let copied = self.plates.copied(alloc)?;
        let hit = self.found(self.plates.touched(), Look::Held);
        let same = self.plates.same();
        fall(&mut self.modes, &mut self.epochs, hit);
        self.plates.settle(copied);
        self.calls[session as usize - 1] += 1;
        Ok(applied_reply(same, hit))
    }

    // The cancel command.
    fn cancel(&mut self, session: u8) -> Reply<T>
        requires may { MayCall self.old session }
        requires room { calls_of self.old session < 2 ^ 32 - 1 }
        ensures reply { Replies T.meaning self.old Command.Cancel result }
        ensures state { self.new ≡ called (after_command T.meaning self.old Command.Cancel) session }
    {
        let count = self.count_started();
        let hit = self.stoppable();
        fall(&mut self.modes, &mut self.epochs, hit);
        self.calls[session as usize - 1] += 1;
        Reply::Cancelled(count)
    }

    // What the status command is told.
    fn status(&self) -> Reply<T>
        ensures { Replies T.meaning self.now Command.Status result }
    {
        let present = T::present(self.plates.applied());
        Reply::Modes {
            present,
            started: self.found(present, Look::Started),
            finished: self.found(present, Look::Done),
        }
    }

    // What the export command comes to.
    fn export(&self, export: Option<&Arc<T::Output>>) -> Result<Answer<T>, NoMemory>
        requires given { IsGiven T.meaning self.now Command.Export (option_map (λ x. arc_value x.now) export) }
        ensures step { IfOk result (λ a. MatchAnswer a (λ r. Replies T.meaning self.now Command.Export r) (IsNotYet T.meaning self.now) (λ _. ⊥)) }
    {
        if let Some(problem) = T::problem(self.plates.applied()) {
            return Ok(Answer::Now(Reply::Refused(problem)));
        }
        match self.undone() {
            Some(slot) => Ok(Answer::NotYet(slot)),
            None => match export {
                Some(output) => {
                    let output = Arc::try_clone(output)?;
                    Ok(Answer::Now(Reply::Gcode(Shared::of(output))))
                }
                None => unreachable!(),
            },
        }
    }

    // What a wait for the calls of a session comes to.
    fn after(&self, session: u8, wanted: u32) -> Answer<T>
        requires from_1 { 1 ≤ session }
        requires to_16 { session ≤ 16 }
        ensures { MatchAnswer result (λ r. Replies T.meaning self.now (Command.After session wanted) r) (λ _. ⊥) (λ n. (n ≡ calls_of self.now session) × (n < wanted)) }
    {
        let made = self.calls(session);
        if made < wanted {
            Answer::Behind(made)
        } else {
            Answer::Now(Reply::Passed)
        }
    }

    // Counts a call that was made.
    fn counted(&mut self, session: u8, answer: Answer<T>) -> Answer<T>
        requires may { MayCall self.old session }
        requires room { calls_of self.old session < 2 ^ 32 - 1 }
        ensures same { result ≡ answer }
        ensures state { MatchAnswer answer (λ _. self.new ≡ called self.old session) (λ _. self.new ≡ self.old) (λ _. self.new ≡ self.old) }
    {
        match answer {
            Answer::Now(reply) => {
                self.count(session);
                Answer::Now(reply)
            }
            Answer::NotYet(slot) => Answer::NotYet(slot),
            Answer::Behind(n) => Answer::Behind(n),
        }
    }

    // The call, but that it excludes what it does not answer.
    fn make(
        &mut self,
        alloc: Global,
        session: u8,
        command: &Command<T::Edit>,
        export: Option<&Arc<T::Output>>,
    ) -> Result<Answer<T>, NoMemory>
        requires may { MayCall self.old session }
        requires room { calls_of self.old session < 2 ^ 32 - 1 }
        requires names { NamesSession command.now }
        requires given { IsGiven T.meaning self.old command.now (option_map (λ x. arc_value x.now) export) }
        ensures step { IfOk result (λ a. MatchAnswer a (λ r. Replies T.meaning self.old command.now r) (λ s. WaitsForSlot T.meaning self.old command.now s) (λ n. WaitsForCalls self.old command.now n)) }
        ensures state { IfOk result (λ a. MatchAnswer a (λ _. self.new ≡ called (after_command T.meaning self.old command.now) session) (λ _. self.new ≡ self.old) (λ _. self.new ≡ self.old)) }
        ensures err { OnErr result (self.new ≡ self.old) }
        ensures memory { OnErr result (TakesMemory command.now) }
    {
        match command {
            Command::Edit(edit) => {
                let reply = self.edit(alloc, session, edit)?;
                Ok(Answer::Now(reply))
            }
            Command::Apply => {
                let reply = self.apply(alloc, session)?;
                Ok(Answer::Now(reply))
            }
            Command::Export => {
                let answer = self.export(export)?;
                Ok(self.counted(session, answer))
            }
            Command::Status => {
                let reply = self.status();
                self.count(session);
                Ok(Answer::Now(reply))
            }
            Command::Cancel => Ok(Answer::Now(self.cancel(session))),
            Command::After(other, wanted) => {
                let answer = self.after(*other, *wanted);
                Ok(self.counted(session, answer))
            }
        }
    }

    /// A session makes a call. The session, and one that is waited for, are from 1 to 16; it has nothing pending, has not left,
    /// and has made fewer than 2^32 - 1 calls. Where the export is to hand out the result of slot 99, it is given. `NotYet` is
    /// the answer exactly for an export of a plate without problem that lacks a result, `Behind` exactly for a wait for a
    /// session that has made too few calls; both change nothing, and so does want of memory, of which a status, a cancel and a
    /// wait have none. No slot's epoch was at its type's end.
    pub fn call(
        &mut self,
        alloc: Global,
        session: u8,
        command: &Arc<Command<T::Edit>>,
        export: Option<&Arc<T::Output>>,
    ) -> Result<Answer<T>, NoMemory>
        requires may { MayCall self.old session }
        requires room { calls_of self.old session < 2 ^ 32 - 1 }
        requires names { NamesSession (arc_value command.now) }
        requires given { IsGiven T.meaning self.old (arc_value command.now) (option_map (λ x. arc_value x.now) export) }
        ensures step { IfOk result (λ a. MatchAnswer a (λ r. Replies T.meaning self.old (arc_value command.now) r) (λ s. WaitsForSlot T.meaning self.old (arc_value command.now) s) (λ n. WaitsForCalls self.old (arc_value command.now) n)) }
        ensures exact { IfOk result (λ a. Excludes T.meaning self.old (arc_value command.now) a) }
        ensures state { IfOk result (λ a. MatchAnswer a (λ _. self.new ≡ called (after_command T.meaning self.old (arc_value command.now)) session) (λ _. self.new ≡ self.old) (λ _. self.new ≡ self.old)) }
        ensures err { OnErr result (self.new ≡ self.old) }
        ensures memory { OnErr result (TakesMemory (arc_value command.now)) }
        ensures room { (k : ℕ) → epoch_of self.old k < 2 ^ 64 - 1 }
    {
        let _ = &self.modes;
        self.make(alloc, session, command, export)
    }
}
