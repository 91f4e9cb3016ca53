//! Gates that count who passes them, and that hold.
use pl_ports::{Actor, Gate, Point};
use std::sync::atomic::{AtomicBool, AtomicU64, Ordering};
use std::thread;

/// As many turns of a waiting loop as a test lets go by.
pub(crate) const TURNS: u64 = 20_000_000;

/// Counts the passes of another gate.
#[derive(Drop)]
pub(crate) struct Counting<G> {
    pub(crate) gate: G,
    started: AtomicU64,
    finished: AtomicU64,
    answered: AtomicU64,
}

impl<G> Counting<G> {
    pub(crate) fn new(gate: G) -> Counting<G> {
        Counting {
            gate,
            started: AtomicU64::new(0),
            finished: AtomicU64::new(0),
            answered: AtomicU64::new(0),
        }
    }

    /// How many jobs were about to run.
    pub(crate) fn started(&self) -> u64 {
        self.started.load(Ordering::SeqCst)
    }

    /// How many jobs had run.
    pub(crate) fn finished(&self) -> u64 {
        self.finished.load(Ordering::SeqCst)
    }

    /// How many calls were answered.
    pub(crate) fn answered(&self) -> u64 {
        self.answered.load(Ordering::SeqCst)
    }
}

impl<G: Gate> Gate for Counting<G> {
    fn pass(&self, actor: Actor, point: Point) {
        let count = match point {
            Point::Started(_) => &self.started,
            Point::Finished(_) => &self.finished,
            Point::Answered(_) => &self.answered,
        };
        count.fetch_add(1, Ordering::SeqCst);
        self.gate.pass(actor, point);
    }
}

/// Holds each session at its second answer until a worker has started slot 0.
#[derive(Drop)]
pub(crate) struct UntilAWorkerStarts {
    has_started: AtomicBool,
    overran: AtomicBool,
}

impl UntilAWorkerStarts {
    pub(crate) fn new() -> UntilAWorkerStarts {
        UntilAWorkerStarts {
            has_started: AtomicBool::new(false),
            overran: AtomicBool::new(false),
        }
    }

    /// Whether a session was let go before a worker had started.
    pub(crate) fn overran(&self) -> bool {
        self.overran.load(Ordering::SeqCst)
    }

    fn hold(&self) {
        for _ in 0..TURNS {
            if self.has_started.load(Ordering::SeqCst) {
                return;
            }
            thread::yield_now();
        }
        self.overran.store(true, Ordering::SeqCst);
    }
}

impl Gate for UntilAWorkerStarts {
    fn pass(&self, actor: Actor, point: Point) {
        match (actor, point) {
            (Actor::Worker(_), Point::Started(0)) => self.has_started.store(true, Ordering::SeqCst),
            (Actor::Session(_), Point::Answered(2)) => self.hold(),
            _ => (),
        }
    }
}
