//! Making a lock, and taking the value out of it for good.
ghost use Rattle.std.specs.Prelude.{◌≡◌, ◌⊎◌, ℕ, [], All, IfOk, IfErr};

use crate::Turned;
use crate::lock::{Pass, TurnLock};
use atomic_table::{Refused, Table};
use std::alloc::Global;
use std::snapshot::Snapshot;
use std::sync::atomic::AtomicU64;

impl<V: Turned> TurnLock<V> {
    ghost use Rattle.pl_turn.specs.Passes.{Fits, HasJoined, HasJoinedAll, IsOf, home_of, joined, number, own, seen, splits};

    /// A lock round a value with no entries yet, and its first pass, of number 1. Where memory is short, the value comes back.
    pub fn new(alloc: Global, value: V) -> Result<(TurnLock<V>, Pass<V>), V>
        requires { V.history value ≡ [] }
        ensures lock { IfOk result (λ r. IsOf r.0 r.1) }
        ensures home { IfOk result (λ r. home_of V.home r.0 ≡ V.home value) }
        ensures number { IfOk result (λ r. number r.1 ≡ 1) }
        ensures seen { IfOk result (λ r. seen r.1 ≡ []) }
        ensures own { IfOk result (λ r. own r.1 ≡ []) }
        ensures joined { IfOk result (λ r. joined r.1 ≡ []) }
        ensures splits { IfOk result (λ r. splits r.1 ≡ 0) }
        ensures fits { IfOk result (λ r. Fits r.1 (seen r.1)) }
        ensures err { IfErr result (λ v. v ≡ value) }
    {
        let about = Snapshot::of(&value);
        let mut slots = Vec::new(alloc);
        if let Err(failed) = slots.push(Some(value)) {
            slots.destroy_empty();
            let Some(value) = failed.value else {
                unreachable!()
            };
            return Err(value);
        }
        match Table::new(alloc, &[0, 0], slots, &about) {
            Ok((board, seat)) => {
                let told = AtomicU64::new(0);
                Ok((TurnLock { board, told }, Pass { seat }))
            }
            Err(Refused { mut slots }) => {
                let Some(Some(value)) = slots.pop() else {
                    unreachable!()
                };
                slots.destroy_empty();
                Err(value)
            }
        }
    }

    /// Takes the value out of the lock for good, with the first pass, into which every other one was joined. Each entry of its
    /// history is then one of the first pass, or of one that was joined into it, and what each of them had seen is a beginning
    /// of it. It takes no memory and doesn't wait.
    pub fn close(self, pass: Pass<V>) -> V
        requires lock { IsOf self pass }
        requires first { number pass ≡ 1 }
        requires all { HasJoinedAll pass }
        ensures fits { Fits pass (V.history result) }
        ensures makers { All (λ e. (V.caller e ≡ 1) ⊎ HasJoined pass (V.caller e)) (V.history result) }
        ensures home { V.home result ≡ home_of V.home self }
    {
        let TurnLock { board, told: _ } = self;
        let Pass { seat } = pass;
        let mut closed = board.close_with(seat);
        let slot = closed.take(0);
        closed.free();
        let Some(value) = slot else { unreachable!() };
        value
    }
}
