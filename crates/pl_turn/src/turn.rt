//! A turn: the value out of the lock, until the turn is ended.
ghost use Rattle.std.specs.Prelude.{◌≡◌, ℕ, ◌+◌, ◌^◌, ◌<◌, [], ◌∷◌, ◌++◌, Some, None};
ghost use Rattle.pl_turn.specs.declared.view.Stage.TheVariants.{Has};
ghost use Rattle.pl_turn.specs.History.{Grows, KnowsItsEntries};
ghost use Rattle.pl_turn.specs.Steps.{after};

use crate::Turned;
use crate::lock::{Pass, TurnLock};
use crate::plays::End;
use crate::view::Place;
use std::snapshot::Snapshot;
use std::sync::Wait;

/// What a turn knows. It stands apart from `Out`, since a ghost field of a struct with a lifetime cannot name what V's bound has.
pub struct Held<V: Turned> {
    pub(crate) seat: Place<V>,
    pub(crate) ticket: u64,
    pub(crate) pass: Snapshot<Pass<V>>,
    pub(crate) taken: Snapshot<V>,
    ghost place: { seat.table_id ≡ pass.value.seat.table_id },
    ghost out: { seat.me ≡ (record pass.value.seat.me.0 { stage = Has ticket (V.history taken.value) }, (0, None) ∷ []) },
    ghost home: { pass.value.seat.me.0.home ≡ Some (V.home taken.value) },
    ghost entries: { KnowsItsEntries V.caller pass.value.seat.me.0 (V.history taken.value) },
    ghost room: { ticket + 1 < 2 ^ 64 },
}

/// The value of a lock, out of it. It has to be ended, by `end` or `end_with`. L is the reference to the lock: see `Turn`.
pub struct Out<L, V: Turned> {
    pub(crate) lock: L,
    pub(crate) held: Held<V>,
    pub(crate) value: V,
}

/// A turn at a lock: until it is ended, nobody else has the value.
pub type Turn<'a, V> = Out<&'a TurnLock<V>, V>;

impl<V: Turned> TurnLock<V> {
    ghost use Rattle.pl_turn.specs.Passes.{Fits, IsOf, home_of, seen};
    ghost use Rattle.pl_turn.specs.Turns.{IsAtItsLock, taken, taker, value_of};

    // Waits for the turn, and takes the value out of the slot.
    fn held<R: Wait>(&self, rt: &R, pass: Pass<V>) -> (Held<V>, V)
        requires lock { IsOf self.now pass }
        ensures pass { result.0.pass.value ≡ pass }
        ensures value { result.0.taken.value ≡ result.1 }
        ensures fits { Fits pass (V.history result.1) }
    {
        let before = Snapshot::of(&pass);
        let Pass { mut seat } = pass;
        let ticket = self.draw(rt, &mut seat);
        self.wait(rt, &mut seat, ticket);
        let Some(value) = self.board.shared.exchange(&mut seat, 0, None) else {
            unreachable!()
        };
        let taken = Snapshot::of(&value);
        let held = Held {
            seat,
            ticket,
            pass: before,
            taken,
        };
        (held, value)
    }

    /// Draws a ticket, waits until it is served, and takes the value out of the lock. Tickets are served in their order. Where all
    /// 2^64 - 1 tickets were drawn, it never returns. It takes no memory.
    pub fn take<'a, R: Wait>(&'a self, rt: &R, pass: Pass<V>) -> Turn<'a, V>
        requires lock { IsOf self.now pass }
        ensures lock { IsAtItsLock result }
        ensures pass { taker result ≡ pass }
        ensures value { value_of result ≡ taken result }
        ensures home { V.home (taken result) ≡ home_of V.home self.now }
        ensures fits { Fits pass (V.history (taken result)) }
    {
        let (held, value) = self.held(rt, pass);
        Out {
            lock: self,
            held,
            value,
        }
    }

    // Gives the value back, and lets the next ticket be served.
    fn give_back(&self, held: Held<V>, value: V) -> Pass<V>
        requires lock { IsOf self.now held.pass.value }
        requires grows { Grows V.caller held.pass.value.seat.me.0.number (V.history held.taken.value) (V.history value) }
        requires home { V.home value ≡ V.home held.taken.value }
        ensures lock { result.seat.table_id ≡ held.pass.value.seat.table_id }
        ensures view { result.seat.me.0 ≡ after V.history V.caller held.pass.value.seat.me.0 value }
        ensures fits { Fits result (seen result) }
    {
        let Held {
            mut seat,
            ticket,
            pass,
            taken,
        } = held;
        drop(pass);
        drop(taken);
        let none = self.board.shared.exchange(&mut seat, 0, Some(value));
        let None = none else { unreachable!() };
        self.board.shared.store::<End<V>>(&mut seat, 1, ticket + 1);
        self.board.shared.wake_all(1);
        Pass { seat }
    }
}

impl<L, V: Turned> Out<L, V> {
    ghost use Rattle.std.specs.Borrow.{sem, follows};
    ghost use Rattle.pl_turn.specs.contracts.turn.Out.{the_row};
    ghost use Rattle.pl_turn.specs.Lends.{with_value};
    ghost use Rattle.pl_turn.specs.Turns.{value_of};

    /// The value. What is written through it is the turn's value from then on.
    pub fn value(&mut self) -> &mut V
        ensures* writes_back { sem 𝓛 (follows (the_row L.row V.row V.Entry.row V.Home.row V.Turned) V.row self.entry.ghost_name result.ghost_name (with_value self.old)) }
        ensures shows { result.now ≡ value_of self.old }
    {
        &mut self.value
    }
}

impl<'a, V: Turned> Turn<'a, V> {
    ghost use Rattle.pl_turn.specs.Passes.{AreOfOne, Fits, joined, number, own, seen, splits};
    ghost use Rattle.pl_turn.specs.Turns.{IsAtItsLock, taken, taker, value_of};

    /// Ends the turn and gives the value back, whose history and home are as they were taken. It tells no change. It takes no memory
    /// and doesn't wait.
    pub fn end(self) -> Pass<V>
        requires lock { IsAtItsLock self }
        requires history { V.history (value_of self) ≡ V.history (taken self) }
        requires home { V.home (value_of self) ≡ V.home (taken self) }
        ensures lock { AreOfOne (taker self.entry) result }
        ensures number { number result ≡ number (taker self.entry) }
        ensures seen { seen result ≡ V.history (value_of self.entry) }
        ensures own { own result ≡ own (taker self.entry) }
        ensures joined { joined result ≡ joined (taker self.entry) }
        ensures splits { splits result ≡ splits (taker self.entry) }
        ensures fits { Fits result (seen result) }
    {
        let Out { lock, held, value } = self;
        lock.give_back(held, value)
    }

    /// Ends the turn and gives the value back, whose history has exactly one entry more than it was taken with, of the pass's
    /// number, and whose home is as it was taken. After that it tells a change. It takes no memory and doesn't wait.
    pub fn end_with(self) -> Pass<V>
        requires lock { IsAtItsLock self }
        requires history { (e : V.Entry) × (V.history (value_of self) ≡ V.history (taken self) ++ e ∷ []) × (V.caller e ≡ number (taker self)) }
        requires home { V.home (value_of self) ≡ V.home (taken self) }
        ensures lock { AreOfOne (taker self.entry) result }
        ensures number { number result ≡ number (taker self.entry) }
        ensures seen { seen result ≡ V.history (value_of self.entry) }
        ensures own { (e : V.Entry) → V.history (value_of self.entry) ≡ V.history (taken self.entry) ++ e ∷ [] → own result ≡ own (taker self.entry) ++ e ∷ [] }
        ensures joined { joined result ≡ joined (taker self.entry) }
        ensures splits { splits result ≡ splits (taker self.entry) }
        ensures fits { Fits result (seen result) }
    {
        let Out { lock, held, value } = self;
        let pass = lock.give_back(held, value);
        lock.tell_change();
        pass
    }
}
