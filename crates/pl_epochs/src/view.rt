//! What a seat at the table knows. No value of these types is made: they are read in clauses alone.
use atomic_table::{Seat, Table, TableRule};
use std::alloc::Global;
use std::collections::LinkedList;

/// What a seat knows. Each list of numbers has one for each slot.
pub enum View {
    /// The writer's counts, and the numbers of each note that was joined into it.
    Writes(LinkedList<u64>, LinkedList<LinkedList<u64>>),
    /// The last number read of each slot, by a reader or by a note, which is split off a reader.
    Reads(LinkedList<u64>),
    /// What is left of a note that was joined into the writer.
    Spent,
}

/// The rule of the table.
pub struct Epochs;

impl TableRule<u8, View, ()> for Epochs {
    ghost use Rattle.pl_epochs.specs.Rule.{Counted, opening_view};

    ghost holds = { λ _. Counted };

    ghost first = { λ _. opening_view };
}

/// The table: a hundred words. It keeps no values.
pub type Board = Table<u8, View, (), Epochs, Global>;

/// A seat at it.
pub type Place = Seat<u8, View>;
