//! The table of epochs: how it is made, read and raised, and how a reader meets the writer.
ghost use Rattle.std.specs.Prelude.{◌≡◌, ℕ, ◌+◌, ◌-◌, ◌^◌, ◌<◌, ◌≤◌, slice_set, replicate, IfOk};

use crate::plays::{Another, Compare, First, Load, Note, Raise};
use crate::seats::{ReaderSeat, WriterSeat};
use crate::view::Board;
use atomic_table::Table;
use pl_tech::Slot;
use pl_units::NoMemory;
use std::alloc::Global;

/// A word from 0 to 2^64 - 1 for each of the hundred slots. Threads share the table by reference: one has the writer's seat, and
/// each that reads has a reader's seat of its own.
#[derive(Drop)]
pub struct EpochTable {
    pub(crate) board: Board,
    ghost sized: { board.shared.table_id.words ≡ 100 },
}

impl EpochTable {
    ghost use Rattle.pl_epochs.specs.Words.{table_of, writes_at, reads_at, counts, count_of, numbers, has_read};

    /// A table whose words are all 0, with its writer and a first reader, which has read 0 everywhere. It is refused only where
    /// memory is short. After it no call on the table takes memory or waits.
    pub fn new(alloc: Global) -> Result<(EpochTable, WriterSeat, ReaderSeat), NoMemory>
        ensures table { IfOk result (λ r. (writes_at r.1 ≡ table_of r.0) × (reads_at r.2 ≡ table_of r.0)) }
        ensures counts { IfOk result (λ r. counts r.1 ≡ replicate 100 0) }
        ensures numbers { IfOk result (λ r. numbers r.2 ≡ replicate 100 0) }
    {
        let (board, mut seat) = Table::of_words(alloc, &[0; 100], &())?;
        let first = board.shared.split_seat::<First>(&mut seat);
        Ok((
            EpochTable { board },
            WriterSeat { seat },
            ReaderSeat { seat: first },
        ))
    }

    /// Splits a new reader off, which has read the same. The old one is as before.
    pub fn reader(&self, seat: &mut ReaderSeat) -> ReaderSeat
        requires table { reads_at seat.old ≡ table_of self.now }
        ensures table { (reads_at seat.new ≡ reads_at seat.old) × (reads_at result ≡ reads_at seat.old) }
        ensures numbers { (numbers seat.new ≡ numbers seat.old) × (numbers result ≡ numbers seat.old) }
    {
        ReaderSeat {
            seat: self.board.shared.split_seat::<Another>(&mut seat.seat),
        }
    }

    /// Raises the word of the slot by one and answers it. Its count was below 2^64 - 1. The words of the other slots stay.
    pub fn bump(&self, writer: &mut WriterSeat, slot: Slot) -> u64
        requires table { writes_at writer.old ≡ table_of self.now }
        requires room { count_of writer.old slot < 2 ^ 64 - 1 }
        ensures table { writes_at writer.new ≡ writes_at writer.old }
        ensures answer { result ≡ count_of writer.old slot + 1 }
        ensures counts { counts writer.new ≡ slice_set (counts writer.old) slot result }
    {
        let word = slot.number() as usize;
        self.board
            .shared
            .fetch_add::<Raise>(&mut writer.seat, word, 1)
            + 1
    }

    /// The word of the slot: at least all that this reader had read of it. It is then what the reader has read of that slot.
    pub fn read(&self, reader: &mut ReaderSeat, slot: Slot) -> u64
        requires table { reads_at reader.old ≡ table_of self.now }
        ensures table { reads_at reader.new ≡ reads_at reader.old }
        ensures later { has_read reader.old slot ≤ result }
        ensures numbers { numbers reader.new ≡ slice_set (numbers reader.old) slot result }
    {
        let word = slot.number() as usize;
        self.board.shared.load::<Load>(&mut reader.seat, word)
    }

    /// Afterwards each number that the reader has read is known to be at most the writer's count of that slot. Both seats are as
    /// before.
    pub fn meet(&self, writer: &mut WriterSeat, reader: &mut ReaderSeat)
        requires writer_table { writes_at writer.old ≡ table_of self.now }
        requires reader_table { reads_at reader.old ≡ table_of self.now }
        ensures writer { (writes_at writer.new ≡ writes_at writer.old) × (counts writer.new ≡ counts writer.old) }
        ensures reader { (reads_at reader.new ≡ reads_at reader.old) × (numbers reader.new ≡ numbers reader.old) }
        ensures below { (s : ℕ) → has_read reader.old s ≤ count_of writer.old s }
    {
        let ReaderSeat { seat } = self.reader(reader);
        self.board.shared.join_seat::<Note>(&mut writer.seat, seat);
        self.board.shared.load::<Compare>(&mut writer.seat, 0);
    }
}
