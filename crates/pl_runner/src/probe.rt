//! The probe of a running job: it asks the word of the job's slot.
ghost use Rattle.std.specs.Prelude.{◌≡◌, ℕ, ◌<◌, ◌≤◌, true};
ghost use Rattle.pl_epochs.specs.Words.{has_read, reads_at, table_of};

use pl_epochs::{EpochTable, ReaderSeat, TableName};
use pl_ports::Probe;
use pl_tech::Slot;
use std::collections::LinkedList;
use std::snapshot::Snapshot;

/// What a job's probe watches. No value of it is made.
pub(crate) struct Aim {
    /// The table of epochs.
    pub table: TableName,
    /// The job's slot.
    pub slot: Slot,
    /// The slot's epoch when it was started.
    pub epoch: u64,
    /// What the reader had read of each slot when the probe was made.
    pub had_read: LinkedList<u64>,
}

/// One load of the slot's word is one poll. It answers true where the word is above the epoch.
#[derive(Drop)]
pub(crate) struct SlotProbe<'a> {
    /// The table of epochs.
    pub epochs: &'a EpochTable,
    /// Who loads the words.
    pub reader: ReaderSeat,
    /// The reader as the probe was made with it. It has no bytes, and serves proofs alone.
    pub before: Snapshot<ReaderSeat>,
    /// The job's slot.
    pub slot: Slot,
    /// The slot's epoch when it was started.
    pub epoch: u64,
    /// How many answers were given.
    pub polls: u32,
    /// Whether the last answer was true.
    pub raised: bool,
    /// The reader reads at the table.
    ghost table: { reads_at reader ≡ table_of epochs.now },
    /// It has read at least what it had read of each slot.
    ghost later: { (s : ℕ) → has_read before.value s ≤ has_read reader s },
    /// After an answer true it has read a number above the epoch in the slot.
    ghost read: { raised ≡ true → epoch < has_read reader slot },
}

impl<'a> Probe for SlotProbe<'a> {
    ghost use Rattle.std.specs.Prelude.{◌+◌, ◌-◌, ◌^◌, ◌↔◌, false, IsTrue};
    ghost use Rattle.pl_runner.specs.Probing.{aim_of};

    type Aim = Aim;

    ghost polls = { λ p. p.polls };

    ghost raised = { λ p. p.raised };

    ghost aim = { aim_of };

    fn poll(&mut self) -> bool
        requires quiet { self.old.raised ≡ false }
        requires room { self.old.polls < 2 ^ 32 - 1 }
        ensures counted { self.new.polls ≡ self.old.polls + 1 }
        ensures answered { self.new.raised ≡ result }
        ensures same_aim { aim_of self.new ≡ aim_of self.old }
        // The word of the slot, which the reader has now read, is above the epoch.
        ensures answer { IsTrue result ↔ self.old.epoch < has_read self.new.reader self.old.slot }
        ensures later { has_read self.old.reader self.old.slot ≤ has_read self.new.reader self.old.slot }
    {
        let found = self.epochs.read(&mut self.reader, self.slot);
        self.polls += 1;
        self.raised = found > self.epoch;
        self.raised
    }
}
