//! What a seat at the table of a lock knows. No value of these types is made: they are read in clauses alone.
use crate::Turned;
use atomic_table::{Seat, Table, TableRule};
use std::alloc::Global;
use std::collections::LinkedList;
use std::marker::PhantomData;
use std::snapshot::Snapshot;

/// What is kept of a pass that was joined into another.
pub struct Joined<E> {
    /// Its number.
    pub number: u64,
    /// The entries that it made, in order.
    pub own: LinkedList<E>,
    /// The history as far as it had seen it.
    pub seen: LinkedList<E>,
    /// The history as far as the pass had seen it into which it was joined.
    pub found: LinkedList<E>,
}

/// How far a seat is with its turn.
pub enum Stage<E> {
    /// It wants no turn.
    Idle,
    /// It has drawn this ticket.
    Waits(u64),
    /// It has the turn of this ticket, and found this history.
    Has(u64, LinkedList<E>),
}

/// What a seat knows. A seat that is not live was joined into another.
pub struct View<E, H> {
    /// Whether it may still act.
    pub live: bool,
    /// The number of its pass.
    pub number: u64,
    /// The history as far as it has seen it.
    pub seen: LinkedList<E>,
    /// The entries that it made.
    pub own: LinkedList<E>,
    /// How many passes were split off it.
    pub splits: u64,
    /// The home of the lock's value. A live seat has one.
    pub home: Option<H>,
    /// How far it is with its turn.
    pub stage: Stage<E>,
    /// The passes that were joined into it.
    pub joined: LinkedList<Joined<E>>,
}

/// The rule of the table.
pub struct Turns<V> {
    value: PhantomData<V>,
}

impl<V: Turned> TableRule<Option<V>, View<V::Entry, V::Home>, Snapshot<V>> for Turns<V> {
    ghost use Rattle.pl_turn.specs.Rule.{Turning, opening_view};

    ghost holds = { λ key. Turning V.history V.home V.caller (V.home key.value) };

    ghost first = { λ key. opening_view (V.home key.value) };
}

/// The table of a lock: two words and one slot.
pub type Board<V> = Table<
    Option<V>,
    View<<V as Turned>::Entry, <V as Turned>::Home>,
    Snapshot<V>,
    Turns<V>,
    Global,
>;

/// A seat at it.
pub type Place<V> = Seat<Option<V>, View<<V as Turned>::Entry, <V as Turned>::Home>>;
