//! The lock and its passes: how a pass is split off, and joined.
ghost use Rattle.std.specs.Prelude.{◌≡◌, ◌≢◌, ℕ, ◌+◌, true, [], ◌∷◌, ◌++◌};
ghost use mathlib.Core.List.{IsPrefix};
ghost use Rattle.pl_turn.specs.declared.view.Stage.TheVariants.{Idle};
ghost use Rattle.pl_turn.specs.History.{KnowsItsEntries, NumbersDiffer};
ghost use Rattle.pl_turn.specs.Steps.{longer};

use crate::Turned;
use crate::plays::{Confirm, Cut, Glue};
use crate::view::{Board, Place};
use std::sync::atomic::AtomicU64;

/// A lock round a value that keeps a history. Threads share it by reference, and each takes its turns with a pass of its own. It
/// has the home of the value that it was made with. It may be dropped where the value may, which is dropped with it. Beside them
/// it counts the changes that were told, on which threads sleep that found nothing to do.
#[derive(Drop)]
pub struct TurnLock<V: Turned> {
    pub(crate) board: Board<V>,
    pub(crate) told: AtomicU64,
    ghost sized: { (board.shared.table_id.words ≡ 2) × (board.shared.table_id.slots ≡ 1) },
}

/// The right to take turns at one lock, one after another. It has no bytes. What it has seen is a beginning of the history, and
/// its own entries are exactly those of its number in there; so for each pass that was joined into it.
#[derive(Drop)]
pub struct Pass<V: Turned> {
    pub(crate) seat: Place<V>,
    ghost idle: { (seat.me.0.live ≡ true) × (seat.me.0.stage ≡ Idle) × (seat.me.1 ≡ []) },
    ghost entries: { KnowsItsEntries V.caller seat.me.0 seat.me.0.seen },
}

impl<V: Turned> TurnLock<V> {
    ghost use Rattle.pl_turn.specs.Passes.{AreOfOne, Fits, IsOf, joined, number, own, seen, splits};

    /// Splits a new pass off the first one, which `new` gave: the k-th has the number k + 1. It has seen what the first one has,
    /// and has no entries. It takes no memory and doesn't wait.
    pub fn split(&self, pass: &mut Pass<V>) -> Pass<V>
        requires lock { IsOf self.now pass.old }
        requires first { number pass.old ≡ 1 }
        ensures lock { AreOfOne pass.old result }
        ensures number { number result ≡ splits pass.old + 2 }
        ensures seen { seen result ≡ seen pass.old }
        ensures own { own result ≡ [] }
        ensures joined { joined result ≡ [] }
        ensures splits { splits result ≡ 0 }
        ensures fits { Fits result (seen result) }
        ensures first_lock { AreOfOne pass.old pass.new }
        ensures first_splits { splits pass.new ≡ splits pass.old + 1 }
        ensures first_number { number pass.new ≡ number pass.old }
        ensures first_seen { seen pass.new ≡ seen pass.old }
        ensures first_own { own pass.new ≡ own pass.old }
        ensures first_joined { joined pass.new ≡ joined pass.old }
        ensures first_fits { Fits pass.new (seen pass.new) }
    {
        let mut seat = self.board.shared.split_seat::<Cut>(&mut pass.seat);
        self.board.shared.load::<Confirm<V>>(&mut seat, 1);
        self.board.shared.load::<Confirm<V>>(&mut pass.seat, 1);
        Pass { seat }
    }

    /// Joins another pass, which is not the first one, into this one: its number, its entries and what it had seen are kept, and
    /// those of the passes that were joined into it. What either had seen is a beginning of what the pass has seen now. It takes
    /// no memory and doesn't wait.
    pub fn join(&self, pass: &mut Pass<V>, other: Pass<V>)
        requires lock { IsOf self.now pass.old }
        requires other_lock { IsOf self.now other }
        requires not_first { number other ≢ 1 }
        ensures lock { AreOfOne pass.old pass.new }
        ensures number { number pass.new ≡ number pass.old }
        ensures seen { seen pass.new ≡ longer (seen pass.old) (seen other) }
        ensures own { own pass.new ≡ own pass.old }
        ensures joined { joined pass.new ≡ joined pass.old ++ record { number = number other; own = own other; seen = seen other; found = seen pass.old } ∷ joined other }
        ensures splits { splits pass.new ≡ splits pass.old }
        ensures fits { Fits pass.new (seen pass.new) }
        ensures keeps { IsPrefix (seen pass.old) (seen pass.new) }
        ensures gains { IsPrefix (seen other) (seen pass.new) }
        ensures differ { NumbersDiffer (joined pass.new) }
    {
        let Pass { seat } = other;
        self.board.shared.join_seat::<Glue>(&mut pass.seat, seat);
        self.board.shared.load::<Confirm<V>>(&mut pass.seat, 1);
    }
}
