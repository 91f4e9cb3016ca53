//! Demos.
use crate::gates::Counting;
use crate::program::{after, call, joined, transcript};
use pl_demo::demo_script;
use pl_plater::Status;
use pl_ports::OpenGate;
use std::test::Fail;

// What demo 0 writes.
const FIRST: &[u8] = b"demo 0\nsession 1 calls 5 gcode 13306\nsession 2 calls 6 gcode 30423\nok\n";

// What the last demo writes.
const LAST: &[u8] = b"demo 999\nsession 1 calls 5 gcode 9367\nsession 2 calls 6 gcode 21368\nok\n";

#[test]
fn a_demo_passes_the_gate_at_each_answer(rt: HostRuntime) -> Result<(), Fail> {
    let alloc = rt.alloc();
    let gate = Counting::new(OpenGate);
    let (status, sink) = call(&rt, alloc, &["demo", "0"], joined(alloc, &[])?, &gate)?;
    assert!(rt; status == Status::Done);
    assert!(rt; sink.held() == FIRST);
    assert_eq!(rt; gate.answered(), 11);
    assert_eq!(rt; gate.started(), gate.finished());
    Ok(())
}

#[test]
fn a_demo_writes_the_same_at_each_run(rt: HostRuntime) -> Result<(), Fail> {
    let alloc = rt.alloc();
    for _ in 0..2 {
        let (status, sink) = call(&rt, alloc, &["demo", "999"], joined(alloc, &[])?, &OpenGate)?;
        assert!(rt; status == Status::Done);
        assert!(rt; sink.held() == LAST);
    }
    Ok(())
}

#[test]
fn the_script_of_a_demo_exports_what_the_demo_tells(rt: HostRuntime) -> Result<(), Fail> {
    let alloc = rt.alloc();
    let sink = transcript(&rt, alloc, demo_script(alloc, 0)?, &OpenGate)?;
    assert!(rt; after(sink.held(), b" s1 export = gcode 13306\n").is_some());
    assert!(rt; after(sink.held(), b" s2 export = gcode 30423\n").is_some());
    Ok(())
}

#[test]
fn other_numbers_are_usage(rt: HostRuntime) -> Result<(), Fail> {
    let alloc = rt.alloc();
    let table: [&[&str]; 7] = [
        &["demo"],
        &["demo", "007"],
        &["demo", "1000"],
        &["demo", "-1"],
        &["demo", ""],
        &["demo", "7", "7"],
        &["7", "demo"],
    ];
    for words in &table {
        let (status, sink) = call(&rt, alloc, words, joined(alloc, &[])?, &OpenGate)?;
        assert!(rt; status == Status::Usage);
        assert!(rt; sink.held().is_empty());
    }
    Ok(())
}
