//! A plant under its lock, and the pass of a worker.
ghost use Rattle.std.specs.Prelude.{◌≡◌, [], IfOk};
ghost use Rattle.pl_epochs.specs.Words.{reads_at, table_of};
ghost use Rattle.pl_runner.specs.Closing.{epochs_of};
ghost use Rattle.pl_turn.specs.Passes.{AreOfOne, IsOf, joined, number, own, seen, splits};

use pl_epochs::{EpochTable, ReaderSeat};
use pl_plant::Plant;
use pl_tech::Technology;
use pl_turn::{Pass, TurnLock};
use pl_units::NoMemory;
use std::alloc::Global;

// A table of epochs with a reader, and a lock round a blank plant that writes its words.
pub(crate) fn opened<T: Technology>(
    alloc: Global,
) -> Result<(EpochTable, ReaderSeat, TurnLock<Plant<T>>, Pass<Plant<T>>), NoMemory>
    ensures reader { IfOk result (λ r. reads_at r.1 ≡ table_of r.0) }
    ensures home { IfOk result (λ r. epochs_of r.2 ≡ table_of r.0) }
    ensures lock { IfOk result (λ r. IsOf r.2 r.3) }
    ensures number { IfOk result (λ r. number r.3 ≡ 1) }
    ensures seen { IfOk result (λ r. seen r.3 ≡ []) }
    ensures own { IfOk result (λ r. own r.3 ≡ []) }
    ensures joined { IfOk result (λ r. joined r.3 ≡ []) }
    ensures splits { IfOk result (λ r. splits r.3 ≡ 0) }
{
    let (epochs, writer, reader) = EpochTable::new(alloc)?;
    match TurnLock::new(alloc, Plant::<T>::new(alloc, writer)?) {
        Ok((lock, pass)) => Ok((epochs, reader, lock, pass)),
        Err(_) => Err(NoMemory),
    }
}

// Splits the passes of sessions 2 to 16 off the first one. The next ones are those of the workers.
pub(crate) fn split_sessions<T: Technology>(lock: &TurnLock<Plant<T>>, first: &mut Pass<Plant<T>>)
    requires lock { IsOf lock.now first.old }
    requires number { number first.old ≡ 1 }
    requires splits { splits first.old ≡ 0 }
    ensures first_splits { splits first.new ≡ 15 }
    ensures first_lock { AreOfOne first.old first.new }
    ensures first_number { number first.new ≡ 1 }
    ensures first_seen { seen first.new ≡ seen first.old }
    ensures first_own { own first.new ≡ own first.old }
    ensures first_joined { joined first.new ≡ joined first.old }
{
    for k in 0..15u8 {
        let _ = lock.split(first);
    }
}

// The pass of worker 1, which is the sixteenth that is split off the first one.
pub(crate) fn of_worker<T: Technology>(
    lock: &TurnLock<Plant<T>>,
    first: &mut Pass<Plant<T>>,
) -> Pass<Plant<T>>
    requires lock { IsOf lock.now first.old }
    requires number { number first.old ≡ 1 }
    requires splits { splits first.old ≡ 0 }
    ensures lock { IsOf lock.now result }
    ensures number { number result ≡ 17 }
    ensures seen { seen result ≡ seen first.old }
    ensures own { own result ≡ [] }
    ensures joined { joined result ≡ [] }
    ensures first_lock { AreOfOne first.old first.new }
    ensures first_number { number first.new ≡ 1 }
    ensures first_seen { seen first.new ≡ seen first.old }
    ensures first_own { own first.new ≡ own first.old }
    ensures first_joined { joined first.new ≡ joined first.old }
{
    split_sessions(lock, first);
    lock.split(first)
}
