//! A sink, or a source, that fails at one call.
use crate::script::{ONE_BOX, run, transcript};
use pl_plater::Status;
use pl_ports::{MemorySink, MemorySource, SteadySink, SteadySource};
use pl_units::Text;
use std::alloc::Global;
use std::sync::Wait;
use std::test::Fail;
use std::thread::Threads;

// More calls than a run of the script makes.
const MANY: u32 = 1_000;

// How the script ends where a sink that takes 64 bytes at a time fails at this call, counted from 0, and the sink.
fn into_failing<R: Threads + Wait + Sync>(
    rt: &R,
    alloc: Global,
    call: u32,
) -> Result<(Status, MemorySink), Fail> {
    let mut source = SteadySource::new(Text::copy_of(alloc, ONE_BOX)?);
    let mut sink = MemorySink::new(alloc, 64, Vec::from_slice(alloc, &[call])?);
    let status = run(rt, alloc, &mut source, &mut sink)?;
    Ok((status, sink))
}

#[test]
fn a_sink_that_fails_holds_a_beginning_of_the_transcript(rt: HostRuntime) -> Result<(), Fail> {
    let alloc = rt.alloc();
    let sink = transcript(&rt, alloc)?;
    let whole = sink.held();
    for call in 0..MANY {
        let (status, sink) = into_failing(&rt, alloc, call)?;
        let held = sink.held();
        if status == Status::Done {
            assert!(rt; held == whole);
            assert!(rt; call > 1);
            return Ok(());
        }
        assert_eq!(rt; status.code(), 5, "call {call}");
        assert!(rt; held.len() < whole.len(), "call {call}");
        assert!(rt; whole.starts_with(held), "call {call}");
    }
    Err("each call failed".into())
}

// How the script ends where a source that gives 16 bytes at a time fails at this call, counted from 0, and the sink.
fn from_failing<R: Threads + Wait + Sync>(
    rt: &R,
    alloc: Global,
    call: u32,
) -> Result<(Status, SteadySink), Fail> {
    let text = Text::copy_of(alloc, ONE_BOX)?;
    let mut source = MemorySource::new(text, 16, Vec::from_slice(alloc, &[call])?);
    let mut sink = SteadySink::new(alloc);
    let status = run(rt, alloc, &mut source, &mut sink)?;
    Ok((status, sink))
}

#[test]
fn nothing_is_written_where_a_source_fails(rt: HostRuntime) -> Result<(), Fail> {
    let alloc = rt.alloc();
    let whole = transcript(&rt, alloc)?;
    for call in 0..MANY {
        let (status, sink) = from_failing(&rt, alloc, call)?;
        let held = sink.held();
        if status == Status::Done {
            assert!(rt; held == whole.held());
            assert_eq!(rt; call, 81);
            return Ok(());
        }
        assert_eq!(rt; status.code(), 4, "call {call}");
        assert!(rt; held.is_empty(), "call {call}");
    }
    Err("each call failed".into())
}
