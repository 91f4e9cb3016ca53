use crate::closing_tests::{of_worker, opened};
use crate::{Runner, Step, session};
use pl_machine::{Actor, Command};
use pl_ports::{Gate, Point};
use pl_tech::{Technology, Toy, ToyEdit};
use std::sync::Arc;
use std::sync::atomic::{AtomicU64, Ordering};
use std::test::Fail;

// Counts who passes it where.
#[derive(Drop)]
struct CountingGate {
    started: AtomicU64,
    finished: AtomicU64,
    // Passes at `Answered` with a number that is one more than the number of those before.
    answered: AtomicU64,
    // All others at `Answered`.
    astray: AtomicU64,
}

impl Gate for CountingGate {
    fn pass(&self, _actor: Actor, point: Point) {
        match point {
            Point::Started(_) => add_one(&self.started),
            Point::Finished(_) => add_one(&self.finished),
            Point::Answered(calls) => {
                let before = self.answered.load(Ordering::SeqCst);
                if before < u64::from(calls) && u64::from(calls) - before == 1 {
                    add_one(&self.answered);
                } else {
                    add_one(&self.astray);
                }
            }
        }
    }
}

impl CountingGate {
    fn new() -> CountingGate {
        CountingGate {
            started: AtomicU64::new(0),
            finished: AtomicU64::new(0),
            answered: AtomicU64::new(0),
            astray: AtomicU64::new(0),
        }
    }

    // How many passes there were at `Started`, at `Finished`, at `Answered` in order, and at `Answered` out of it.
    fn counts(&self) -> (u64, u64, u64, u64) {
        let load = |count: &AtomicU64| count.load(Ordering::SeqCst);
        (
            load(&self.started),
            load(&self.finished),
            load(&self.answered),
            load(&self.astray),
        )
    }
}

fn add_one(count: &AtomicU64) {
    let _ = count.fetch_add(1, Ordering::SeqCst);
}

#[test]
fn a_session_passes_the_gate_at_each_call_and_each_job(rt: HostRuntime) -> Result<(), Fail> {
    let alloc = rt.alloc();
    let (epochs, reader, lock, first) = opened::<Toy>(alloc)?;
    let commands = vec![in alloc;
        Arc::new(alloc, Command::Edit(ToyEdit::SetA(5)))?,
        Arc::new(alloc, Command::Apply)?,
        Arc::new(alloc, Command::Export)?,
    ]?;
    let mut one = Runner::<Toy>::session(1, commands, first, reader, Toy::bench());
    let gate = CountingGate::new();
    assert!(rt; session(&mut one, &rt, alloc, &lock, &epochs, 1, &gate).is_ok());
    assert_eq!(rt; gate.counts(), (2, 2, 3, 0));
    Ok(())
}

#[test]
fn a_job_that_is_stopped_passes_the_gate_too(rt: HostRuntime) -> Result<(), Fail> {
    let alloc = rt.alloc();
    let (epochs, mut reader, lock, mut first) = opened::<Toy>(alloc)?;
    let pass = of_worker(&lock, &mut first);
    let other = epochs.reader(&mut reader);
    let commands = vec![in alloc; Arc::new(alloc, Command::Cancel)?]?;
    let mut one = Runner::<Toy>::session(1, commands, first, reader, Toy::bench());
    let mut helper = Runner::<Toy>::worker(alloc, 1, pass, other, Toy::bench());
    let gate = CountingGate::new();
    let Step::Moved = helper.step(&rt, alloc, &lock, &epochs, 1, &gate) else {
        return Err("nothing was started".into());
    };
    assert_eq!(rt; gate.counts(), (0, 0, 0, 0));
    let Step::Moved = one.step(&rt, alloc, &lock, &epochs, 1, &gate) else {
        return Err("nothing was cancelled".into());
    };
    assert_eq!(rt; gate.counts(), (0, 0, 1, 0));
    let Step::Moved = helper.step(&rt, alloc, &lock, &epochs, 1, &gate) else {
        return Err("nothing was closed".into());
    };
    assert_eq!(rt; gate.counts(), (1, 1, 1, 0));
    assert_eq!(rt; helper.stopped(), 1);
    Ok(())
}
