ghost use Rattle.std.specs.Prelude.{◌≡◌};
ghost use Rattle.pl_turn.specs.Passes.{IsOf};

use crate::closing_tests::{of_worker, opened};
use crate::{Runner, Step, session, worker};
use pl_machine::{Command, What};
use pl_plant::Plant;
use pl_ports::OpenGate;
use pl_tech::{Technology, Toy, ToyEdit};
use pl_turn::{Pass, TurnLock};
use std::sync::{Arc, Wait};
use std::test::Fail;

// How many entries the plant has, and how many of them are late at epoch 1 with a start at epoch 0.
fn count<T: Technology>(plant: &Plant<T>) -> (usize, usize) {
    let journal = plant.journal();
    let late = journal
        .iter()
        .filter(|entry| matches!(entry.what, What::Late(_, 0, 1)))
        .count();
    (journal.len(), late)
}

// The same of the plant under the lock.
pub(crate) fn counted<T: Technology, R: Wait>(
    rt: &R,
    lock: &TurnLock<Plant<T>>,
    pass: Pass<Plant<T>>,
) -> (usize, usize)
    requires { IsOf lock.now pass }
{
    let mut turn = lock.take(rt, pass);
    let counts = count(turn.value());
    let _ = turn.end();
    counts
}

#[test]
fn a_session_makes_its_results_and_a_worker_then_ends(rt: HostRuntime) -> Result<(), Fail> {
    let alloc = rt.alloc();
    let (epochs, mut reader, lock, mut first) = opened::<Toy>(alloc)?;
    let pass = of_worker(&lock, &mut first);
    let other = epochs.reader(&mut reader);
    let commands = vec![in alloc;
        Arc::new(alloc, Command::Edit(ToyEdit::SetA(5)))?,
        Arc::new(alloc, Command::Apply)?,
        Arc::new(alloc, Command::Export)?,
    ]?;
    let mut one = Runner::<Toy>::session(1, commands, first, reader, Toy::bench());
    let mut helper = Runner::<Toy>::worker(alloc, 1, pass, other, Toy::bench());
    assert!(rt; session(&mut one, &rt, alloc, &lock, &epochs, 1, &OpenGate).is_ok());
    assert!(rt; worker(&mut helper, &rt, alloc, &lock, &epochs, 1, &OpenGate).is_ok());
    assert_eq!(rt; (one.stopped(), helper.stopped()), (0, 0));
    let (pass, runs) = one.into_parts();
    assert_eq!(rt; runs, 2);
    assert_eq!(rt; counted(&rt, &lock, pass), (8, 0));
    Ok(())
}

#[test]
fn a_job_whose_slot_was_cancelled_is_stopped(rt: HostRuntime) -> Result<(), Fail> {
    let alloc = rt.alloc();
    let (epochs, mut reader, lock, mut first) = opened::<Toy>(alloc)?;
    let pass = of_worker(&lock, &mut first);
    let other = epochs.reader(&mut reader);
    let commands = vec![in alloc; Arc::new(alloc, Command::Cancel)?]?;
    let mut one = Runner::<Toy>::session(1, commands, first, reader, Toy::bench());
    let mut helper = Runner::<Toy>::worker(alloc, 1, pass, other, Toy::bench());
    let Step::Moved = helper.step(&rt, alloc, &lock, &epochs, 1, &OpenGate) else {
        return Err("nothing was started".into());
    };
    let Step::Moved = one.step(&rt, alloc, &lock, &epochs, 1, &OpenGate) else {
        return Err("nothing was cancelled".into());
    };
    let Step::Moved = helper.step(&rt, alloc, &lock, &epochs, 1, &OpenGate) else {
        return Err("nothing was closed".into());
    };
    assert_eq!(rt; (one.stopped(), helper.stopped()), (0, 1));
    let (pass, runs) = helper.into_parts();
    assert_eq!(rt; runs, 1);
    assert_eq!(rt; counted(&rt, &lock, pass), (3, 1));
    Ok(())
}
