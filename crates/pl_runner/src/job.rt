//! A runner runs its job, which stops where the slot has fallen meanwhile.
ghost use Rattle.std.specs.Prelude.{◌≡◌, ℕ, ◌<◌, ◌≤◌, ◌+◌, ◌-◌, ◌^◌, IfOk};
ghost use Rattle.std.specs.Thread.{IsSync};
ghost use Rattle.pl_epochs.specs.Words.{has_read, reads_at, table_of};
ghost use Rattle.pl_tech.specs.Ran.{MatchRan};

use crate::SlotProbe;
use pl_epochs::{EpochTable, ReaderSeat};
use pl_tech::{Ran, Slot, Technology};
use pl_units::NoMemory;
use std::alloc::Global;
use std::snapshot::Snapshot;
use std::thread::Threads;

/// Runs the job of a slot that was started at this epoch, at a bench where fewer than 2^64 - 1 runs were made. Before each batch
/// the word of the slot is read at the table of epochs: the job stops once it is above the epoch. The run is counted whatever it
/// answers, and the reader comes back.
pub(crate) fn run_job<T: Technology, R: Threads + Sync>(
    rt: &R,
    alloc: Global,
    epochs: &EpochTable,
    reader: ReaderSeat,
    bench: &mut T::Bench,
    slot: Slot,
    epoch: u64,
    job: T::Job,
) -> (Result<Ran<T::Output>, NoMemory>, ReaderSeat)
    requires shared { IsSync R.row }
    requires room { T.runs bench.old < 2 ^ 64 - 1 }
    requires table { reads_at reader ≡ table_of epochs.now }
    ensures counted { T.runs bench.new ≡ T.runs bench.old + 1 }
    ensures ran { IfOk result.0 (λ r. MatchRan r (λ o. o ≡ T.job_value job) (epoch < has_read result.1 slot)) }
    ensures table { reads_at result.1 ≡ reads_at reader }
    ensures later { (s : ℕ) → has_read reader s ≤ has_read result.1 s }
{
    let before = Snapshot::of(&reader);
    let mut probe = SlotProbe {
        epochs,
        reader,
        before,
        slot,
        epoch,
        polls: 0,
        raised: false,
    };
    let ran = T::run(rt, alloc, bench, job, &mut probe);
    (ran, probe.reader)
}
