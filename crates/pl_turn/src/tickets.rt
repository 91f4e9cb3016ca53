//! Drawing a ticket, and waiting until it is served.
ghost use Rattle.std.specs.Prelude.{◌≡◌, ℕ, ◌+◌, ◌^◌, ◌<◌, true};
ghost use Rattle.pl_turn.specs.declared.view.Stage.TheVariants.{Idle, Waits};
ghost use Rattle.pl_turn.specs.Steps.{HasFound};

use crate::Turned;
use crate::lock::TurnLock;
use crate::plays::{Draw, Look};
use crate::view::Place;
use std::sync::Wait;
use std::thread;

impl<V: Turned> TurnLock<V> {
    // Draws the next ticket. Where there is none, it waits for ever.
    pub(crate) fn draw<R: Wait>(&self, rt: &R, seat: &mut Place<V>) -> u64
        requires lock { seat.old.table_id ≡ self.now.board.shared.table_id }
        requires idle { (seat.old.me.0.live ≡ true) × (seat.old.me.0.stage ≡ Idle) }
        ensures lock { seat.new.table_id ≡ seat.old.table_id }
        ensures drawn { seat.new.me ≡ (record seat.old.me.0 { stage = Waits result }, seat.old.me.1) }
        ensures room { result + 1 < 2 ^ 64 }
    {
        let mut next = self.board.shared.peek(0);
        for _ in rt.forever() {
            if next == u64::MAX {
                thread::yield_now();
                continue;
            }
            let found = self
                .board
                .shared
                .compare_exchange::<Draw>(seat, 0, next, next + 1);
            if found == next {
                return found;
            }
            next = found;
        }
        unreachable!()
    }

    // Waits until the ticket is served. The seat then has the slot with the value.
    pub(crate) fn wait<R: Wait>(&self, rt: &R, seat: &mut Place<V>, ticket: u64)
        requires lock { seat.old.table_id ≡ self.now.board.shared.table_id }
        requires drawn { (seat.old.me.0.live ≡ true) × (seat.old.me.0.stage ≡ Waits ticket) }
        ensures lock { seat.new.table_id ≡ seat.old.table_id }
        ensures found { HasFound V.history V.home V.caller ticket seat.old.me seat.new.me }
    {
        for _ in rt.forever() {
            let served = self.board.shared.load::<Look<V>>(seat, 1);
            if served == ticket {
                return;
            }
            self.board.shared.park(rt, 1, (served & 0xffff_ffff) as u32);
        }
        unreachable!()
    }
}
