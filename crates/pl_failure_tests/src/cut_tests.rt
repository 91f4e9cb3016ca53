//! A script that is cut.
use crate::script::{ONE_BOX, run};
use pl_plater::{LIMIT, Status, TopFault};
use pl_ports::{SteadySink, SteadySource};
use pl_script::{ScriptFault, read_script};
use pl_units::{Refusal, Text};
use std::alloc::Global;
use std::sync::Wait;
use std::test::Fail;
use std::thread::Threads;

// How a run of these bytes ends, and what it writes.
fn run_of<R: Threads + Wait + Sync>(
    rt: &R,
    alloc: Global,
    bytes: &[u8],
) -> Result<(Status, SteadySink), Fail> {
    let mut source = SteadySource::new(Text::copy_of(alloc, bytes)?);
    let mut sink = SteadySink::new(alloc);
    let status = run(rt, alloc, &mut source, &mut sink)?;
    Ok((status, sink))
}

// How a run of these bytes is to end by what `read_script` says of them.
fn status_of(alloc: Global, bytes: &[u8]) -> Result<Status, Fail> {
    if bytes.len() > LIMIT {
        return Err("too long".into());
    }
    match read_script(alloc, bytes) {
        Ok(_) => Ok(Status::Done),
        Err(Refusal::Fault { line, fault }) => Ok(Status::Refused {
            line,
            fault: TopFault::Script(fault),
        }),
        Err(Refusal::NoMemory) => Err("no memory".into()),
    }
}

// The first bytes of the script, so many.
fn cut(length: usize) -> Result<&'static [u8], Fail> {
    match ONE_BOX.get(..length) {
        Some(bytes) => Ok(bytes),
        None => Err("a short script".into()),
    }
}

#[test]
fn a_cut_script_is_refused_or_run_as_it_is_read(rt: HostRuntime) -> Result<(), Fail> {
    let alloc = rt.alloc();
    for length in 0..=ONE_BOX.len() {
        let bytes = cut(length)?;
        let (status, sink) = run_of(&rt, alloc, bytes)?;
        assert!(rt; status == status_of(alloc, bytes)?, "{length} bytes");
        assert!(rt; matches!(status.code(), 0 | 3), "{length} bytes");
        assert!(rt;
            (status == Status::Done) != sink.held().is_empty(),
            "{length} bytes"
        );
    }
    Ok(())
}

// A length, and how the script ends that is cut after so many bytes.
const CUTS: [(usize, u32, ScriptFault); 7] = [
    (0, 1, ScriptFault::NoHead),
    (10, 2, ScriptFault::BadSession),
    (11, 2, ScriptFault::BadSession),
    (12, 2, ScriptFault::BadSession),
    (13, 2, ScriptFault::BadLine),
    (14, 2, ScriptFault::BadLine),
    (15, 2, ScriptFault::CutData),
];

#[test]
fn a_script_that_is_cut_in_its_first_lines_is_refused_by_name(rt: HostRuntime) -> Result<(), Fail> {
    let alloc = rt.alloc();
    for (length, line, fault) in &CUTS {
        let (status, sink) = run_of(&rt, alloc, cut(*length)?)?;
        let wanted = Status::Refused {
            line: *line,
            fault: TopFault::Script(*fault),
        };
        assert!(rt; status == wanted, "{length} bytes");
        assert!(rt; sink.held().is_empty(), "{length} bytes");
    }
    Ok(())
}

#[test]
fn the_head_alone_is_a_script(rt: HostRuntime) -> Result<(), Fail> {
    let alloc = rt.alloc();
    for bytes in [b"plater 1".as_slice(), b"plater 1\n"] {
        let (status, sink) = run_of(&rt, alloc, bytes)?;
        assert!(rt; ONE_BOX.starts_with(bytes));
        assert!(rt; status == Status::Done);
        assert!(rt; sink.held() == b"end 0 runs 0\n".as_slice());
    }
    Ok(())
}
