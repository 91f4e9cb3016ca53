//! How a thread that found nothing to do under a lock sleeps until somebody tells that there was a change. The count of changes
//! is no part of the lock's rule: it decides only how long a thread sleeps, and no contract speaks of it.
use crate::Turned;
use crate::lock::TurnLock;
use std::sync::Wait;
use std::sync::atomic::Ordering;

impl<V: Turned> TurnLock<V> {
    /// How many changes were told so far, modulo 2^64. Who reads it before a turn, finds nothing to do in the turn and then waits
    /// for a change since that number misses none that is told after the turn.
    pub fn changes(&self) -> u64 {
        self.told.load(Ordering::SeqCst)
    }

    /// Sleeps while the count of changes is `since`. It may return for no reason, so the caller looks again. Where changes are told
    /// so fast that 2^32 of them, or a multiple, come between two steps of it, it may sleep past them.
    pub fn wait_for_change<R: Wait>(&self, rt: &R, since: u64) {
        if self.changes() == since {
            self.told.park(rt, (since & 0xffff_ffff) as u32);
        }
    }

    /// Tells a change: raises the count by one, and wakes all who sleep for one. `end_with` does it by itself. It takes no memory
    /// and doesn't wait.
    pub fn tell_change(&self) {
        self.told.fetch_add(1, Ordering::SeqCst);
        self.told.wake_all();
    }
}
