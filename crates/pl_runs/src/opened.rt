//! A fresh lock with its first pass and reader.
ghost use Rattle.std.specs.Prelude.{◌≡◌, [], IfOk};
ghost use Rattle.pl_epochs.specs.Words.{reads_at, table_of};
ghost use Rattle.pl_runner.specs.Closing.{epochs_of};
ghost use Rattle.pl_turn.specs.Passes.{IsOf, joined, number, own, seen, splits};

use pl_epochs::{EpochTable, ReaderSeat};
use pl_plant::Plant;
use pl_tech::Technology;
use pl_turn::{Pass, TurnLock, Turned};
use pl_units::NoMemory;
use std::alloc::Global;

/// A table of epochs with a reader, and a lock round a blank plant that writes its words.
pub(crate) struct Opened<T: Technology>
where
    Plant<T>: Turned,
{
    pub(crate) epochs: EpochTable,
    pub(crate) reader: ReaderSeat,
    pub(crate) lock: TurnLock<Plant<T>>,
    pub(crate) first: Pass<Plant<T>>,
}

pub(crate) fn open_blank<T: Technology>(alloc: Global) -> Result<Opened<T>, NoMemory>
    ensures reader { IfOk result (λ r. reads_at r.reader ≡ table_of r.epochs) }
    ensures home { IfOk result (λ r. epochs_of r.lock ≡ table_of r.epochs) }
    ensures lock { IfOk result (λ r. IsOf r.lock r.first) }
    ensures number { IfOk result (λ r. number r.first ≡ 1) }
    ensures seen { IfOk result (λ r. seen r.first ≡ []) }
    ensures own { IfOk result (λ r. own r.first ≡ []) }
    ensures joined { IfOk result (λ r. joined r.first ≡ []) }
    ensures splits { IfOk result (λ r. splits r.first ≡ 0) }
{
    let (epochs, writer, reader) = EpochTable::new(alloc)?;
    match TurnLock::new(alloc, Plant::<T>::new(alloc, writer)?) {
        Ok((lock, first)) => Ok(Opened {
            epochs,
            reader,
            lock,
            first,
        }),
        Err(_) => Err(NoMemory),
    }
}
