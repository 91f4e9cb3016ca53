//! The seats at a table, and its name.
ghost use Rattle.std.specs.Prelude.{◌≡◌, ℕ, [], length};
ghost use Rattle.atomic_table.specs.Seated.{TableId, table_id_coded};
ghost use Rattle.pl_epochs.specs.declared.view.View.TheVariants.{Writes, Reads};
ghost use Rattle.pl_epochs.specs.Rule.{counts_of, notes_of, numbers_of};

use crate::view::Place;
use std::marker::{Model, PhantomData};

/// The right to raise the words of one table, of which `new` gives the only one. It has no bytes. It knows the word of each slot.
#[derive(Drop)]
pub struct WriterSeat {
    pub(crate) seat: Place,
    ghost writes: { (seat.me.0 ≡ Writes (counts_of seat.me.0) (notes_of seat.me.0)) × (seat.me.1 ≡ []) },
    /// It has a count of each of the hundred slots.
    pub ghost wide: { length (counts_of seat.me.0) ≡ 100 },
}

/// The right to load the words of one table. It has no bytes. It knows the number of each slot that it has read last, or 0.
#[derive(Drop)]
pub struct ReaderSeat {
    pub(crate) seat: Place,
    ghost reads: { (seat.me.0 ≡ Reads (numbers_of seat.me.0)) × (seat.me.1 ≡ []) },
    /// It has a number of each of the hundred slots.
    pub ghost wide: { length (numbers_of seat.me.0) ≡ 100 },
}

/// Which table it is. No value of it is made.
pub struct TableName {
    of: PhantomData<u8>,
    /// The id of its words.
    pub ghost table_id: { TableId } by { table_id_coded },
}

impl Model for TableName {
    ghost use base.Fml.{ftrue};

    ghost also_owns = { λ _. ftrue };
}
