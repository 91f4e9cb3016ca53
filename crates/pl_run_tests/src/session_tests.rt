//! Scripts of several sessions.
use crate::program::{PART, after, call, gcode_in, joined, transcript};
use pl_plater::{Status, TopFault};
use pl_ports::OpenGate;
use pl_script::ScriptFault;
use std::test::Fail;

// A script, and two texts that stand in each transcript which it may have.
struct Row {
    name: &'static str,
    script: &'static [u8],
    one: &'static [u8],
    other: &'static [u8],
}

const ROWS: [Row; 4] = [
    Row {
        name: "two sessions with an apply each",
        script: b"plater 1\n1 apply\n2 apply\n",
        one: b"s1 apply = unchanged\n",
        other: b"s2 apply = unchanged\n",
    },
    Row {
        name: "eight workers and no command",
        script: b"plater 1\nworkers 8\n",
        one: b"end 0 runs 0\n",
        other: b"end 0 runs 0\n",
    },
    Row {
        name: "a session that waits for itself",
        script: b"plater 1\n1 after 1 0\n1 after 1 1\n",
        one: b"1 s1 after 1 0 = ok\n2 s1 after 1 1 = ok\n3 s1 bye\n",
        other: b"end 3 runs 0\n",
    },
    Row {
        name: "sessions that wait for each other in turn",
        script: b"plater 1\nworkers 3\n1 cancel\n1 after 2 1\n2 after 1 1\n",
        one: b"1 s1 cancel = cancelled 0\n2 s2 after 1 1 = ok\n",
        other: b"end 5 runs 0\n",
    },
];

#[test]
fn sessions_go_on_beside_each_other(rt: HostRuntime) -> Result<(), Fail> {
    let alloc = rt.alloc();
    for row in &ROWS {
        let name = row.name;
        let sink = transcript(&rt, alloc, joined(alloc, &[row.script])?, &OpenGate)?;
        let held = sink.held();
        assert!(rt; after(held, row.one).is_some(), "{name}");
        assert!(rt; after(held, row.other).is_some(), "{name}");
    }
    Ok(())
}

// A script that is stuck, and the line.
const STUCK: [(&[u8], u32); 3] = [
    (b"plater 1\n1 after 2 1\n2 after 1 1\n", 2),
    (b"plater 1\n1 after 1 1\n", 2),
    (b"plater 1\n1 apply\n3 after 1 2\n2 apply\n", 3),
];

#[test]
fn a_script_that_would_wait_for_ever_is_refused(rt: HostRuntime) -> Result<(), Fail> {
    let alloc = rt.alloc();
    for (bytes, line) in &STUCK {
        let (status, sink) = call(&rt, alloc, &["run"], joined(alloc, &[bytes])?, &OpenGate)?;
        let wanted = Status::Refused {
            line: *line,
            fault: TopFault::Script(ScriptFault::Stuck),
        };
        assert!(rt; status == wanted, "line {line}");
        assert!(rt; sink.held().is_empty());
    }
    Ok(())
}

const TWO: &[u8] = b"1 load a part\n1 apply\n2 after 1 2\n2 export\n";

const ONE: &[u8] = b"1 load a part\n1 apply\n1 export\n";

#[test]
fn a_session_exports_what_another_one_applied(rt: HostRuntime) -> Result<(), Fail> {
    let alloc = rt.alloc();
    let script = joined(alloc, &[b"plater 1\n", PART, TWO])?;
    let two = transcript(&rt, alloc, script, &OpenGate)?;
    let script = joined(alloc, &[b"plater 1\n", PART, ONE])?;
    let one = transcript(&rt, alloc, script, &OpenGate)?;
    let gcode = gcode_in(two.held());
    assert!(rt; gcode.is_some());
    assert!(rt; gcode == gcode_in(one.held()));
    Ok(())
}
