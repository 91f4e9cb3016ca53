use crate::closing_tests::{of_worker, opened};
use crate::runner_tests::counted;
use crate::scarce::Scarce;
use crate::{Runner, Step};
use pl_machine::Command;
use pl_ports::OpenGate;
use pl_tech::{Technology, Toy};
use std::sync::Arc;
use std::test::Fail;

// The worker starts what the session's export needs, so the session can only wait, unless the plant is closed down.
#[test]
fn a_job_that_lacks_memory_closes_the_plant_down_for_all(rt: HostRuntime) -> Result<(), Fail> {
    let alloc = rt.alloc();
    let (epochs, mut reader, lock, mut first) = opened::<Scarce>(alloc)?;
    let pass = of_worker(&lock, &mut first);
    let other = epochs.reader(&mut reader);
    let commands = vec![in alloc; Arc::new(alloc, Command::Export)?]?;
    let mut one = Runner::<Scarce>::session(1, commands, first, reader, Scarce::bench());
    let mut helper = Runner::<Scarce>::worker(alloc, 1, pass, other, Scarce::bench());
    let Step::Moved = helper.step(&rt, alloc, &lock, &epochs, 1, &OpenGate) else {
        return Err("nothing was started".into());
    };
    let ran = helper.step(&rt, alloc, &lock, &epochs, 1, &OpenGate);
    assert_eq!(rt; ran, Step::NoMemory);
    let looked = one.step(&rt, alloc, &lock, &epochs, 1, &OpenGate);
    assert_eq!(rt; looked, Step::NoMemory);
    Ok(())
}

#[test]
fn a_session_whose_export_lacks_a_slot_of_another_waits(rt: HostRuntime) -> Result<(), Fail> {
    let alloc = rt.alloc();
    let (epochs, mut reader, lock, mut first) = opened::<Toy>(alloc)?;
    let pass = of_worker(&lock, &mut first);
    let other = epochs.reader(&mut reader);
    let commands = vec![in alloc; Arc::new(alloc, Command::Export)?]?;
    let mut one = Runner::<Toy>::session(1, commands, first, reader, Toy::bench());
    let mut helper = Runner::<Toy>::worker(alloc, 1, pass, other, Toy::bench());
    let Step::Moved = helper.step(&rt, alloc, &lock, &epochs, 1, &OpenGate) else {
        return Err("nothing was started".into());
    };
    let Step::Waits = one.step(&rt, alloc, &lock, &epochs, 1, &OpenGate) else {
        return Err("the session did not wait".into());
    };
    let (pass, runs) = one.into_parts();
    assert_eq!(rt; runs, 0);
    assert_eq!(rt; counted(&rt, &lock, pass), (1, 0));
    Ok(())
}
