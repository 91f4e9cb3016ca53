//! Scripts that are read, and texts that are none.
use crate::{Line, Script, ScriptFault, read_script};
use pl_edit::Edit;
use pl_machine::Command;
use pl_units::{Nm, Refusal};
use std::alloc::Global;
use std::test::Fail;

// Reads a text of a test.
fn read(alloc: Global, text: &[u8]) -> Result<Result<Script, Refusal<ScriptFault>>, Fail> {
    if text.len() > 1_000_000 {
        return Err(Fail::from("a long text"));
    }
    Ok(read_script(alloc, text))
}

#[test]
fn faults_are_told_by_their_names(rt: HostRuntime) -> Result<(), Fail> {
    let rows = [
        (ScriptFault::NoHead, "NoHead"),
        (ScriptFault::BadLine, "BadLine"),
        (ScriptFault::UnknownCommand, "UnknownCommand"),
        (ScriptFault::BadSession, "BadSession"),
        (ScriptFault::NoData, "NoData"),
        (ScriptFault::SameData, "SameData"),
        (ScriptFault::CutData, "CutData"),
        (ScriptFault::TooMany, "TooMany"),
        (ScriptFault::Stuck, "Stuck"),
        (ScriptFault::TooLong, "TooLong"),
    ];
    for (fault, name) in rows {
        let text = format!(in rt.alloc(); "{fault}")?;
        assert_eq!(rt; text.as_str(), name);
    }
    Ok(())
}

#[test]
fn first_breaches_are_named_at_their_lines(rt: HostRuntime) -> Result<(), Fail> {
    let rows: [(&[u8], u32, ScriptFault); 44] = [
        (b"", 1, ScriptFault::NoHead),
        (b"\nplater 1\n", 1, ScriptFault::NoHead),
        (b"#\nplater 1\n", 1, ScriptFault::NoHead),
        (b"plater 2\n", 1, ScriptFault::NoHead),
        (b"plater 1 1\n", 1, ScriptFault::NoHead),
        (b"plater 1\nworkers 9\n", 2, ScriptFault::BadLine),
        (b"plater 1\nworkers 1 1\n", 2, ScriptFault::BadLine),
        (b"plater 1\nworkers x\n", 2, ScriptFault::BadLine),
        (b"plater 1\nworkers 00\n", 2, ScriptFault::BadLine),
        (b"plater 1\nworkers\n", 2, ScriptFault::BadLine),
        (
            b"plater 1\nworkers 0\nworkers 0\n",
            3,
            ScriptFault::BadSession,
        ),
        (
            b"plater 1\n1 apply\ndata a\n.end\n",
            3,
            ScriptFault::BadSession,
        ),
        (b"plater 1\ndata\n.end\n", 2, ScriptFault::BadLine),
        (b"plater 1\ndata a/b\n", 2, ScriptFault::BadLine),
        (b"plater 1\ndata a\nsolid\n", 2, ScriptFault::CutData),
        (
            b"plater 1\ndata a\n .end\n.end \n.end\r\r\n",
            2,
            ScriptFault::CutData,
        ),
        (
            b"plater 1\ndata a\n.end\ndata a\n.end\n",
            4,
            ScriptFault::SameData,
        ),
        (
            b"plater 1\ndata a\n.end\ndata a\n",
            4,
            ScriptFault::SameData,
        ),
        (b"plater 1\n17 apply\n", 2, ScriptFault::BadSession),
        (b"plater 1\n17 after 1 1\n", 2, ScriptFault::BadSession),
        (b"plater 1\n0 apply\n", 2, ScriptFault::BadSession),
        (b"plater 1\n01 apply\n", 2, ScriptFault::BadSession),
        (b"plater 1\n+1 apply\n", 2, ScriptFault::BadSession),
        (b"plater 1\n1\n", 2, ScriptFault::UnknownCommand),
        (b"plater 1\n1 Apply\n", 2, ScriptFault::UnknownCommand),
        (b"plater 1\n1 apply\r \n", 2, ScriptFault::UnknownCommand),
        (b"plater 1\n1 apply now\n", 2, ScriptFault::BadLine),
        (b"plater 1\n1 set\n", 2, ScriptFault::BadLine),
        (b"plater 1\n1 turn 0 4\n", 2, ScriptFault::BadLine),
        (b"plater 1\n1 delete 256\n", 2, ScriptFault::BadLine),
        (b"plater 1\n1 copy 0 1 2000\n", 2, ScriptFault::BadLine),
        (b"plater 1\n1 load a b\n", 2, ScriptFault::NoData),
        (
            b"plater 1\ndata B\n.end\n1 load a b\n",
            4,
            ScriptFault::NoData,
        ),
        (b"plater 1\n1 load a b/\n", 2, ScriptFault::BadLine),
        (b"plater 1\n16 fly\n", 2, ScriptFault::UnknownCommand),
        (b"plater 1\n1 after 1\n", 2, ScriptFault::BadLine),
        (b"plater 1\n1 after 1 1 1\n", 2, ScriptFault::BadLine),
        (b"plater 1\n1 after x 1\n", 2, ScriptFault::BadLine),
        (b"plater 1\n1 after 1 x\n", 2, ScriptFault::BadLine),
        (b"plater 1\n1 after 1 10001\n", 2, ScriptFault::BadLine),
        (b"plater 1\n1 after 17 10001\n", 2, ScriptFault::BadLine),
        (b"plater 1\n1 after 17 1\n", 2, ScriptFault::BadSession),
        (b"plater 1\n1 after 0 1\n", 2, ScriptFault::BadSession),
        (
            b"plater 1\ndata a\n1 x\n\n.end\n\n# c\n1 x\n",
            8,
            ScriptFault::UnknownCommand,
        ),
    ];
    for (text, line, fault) in rows {
        let Err(refusal) = read(rt.alloc(), text)? else {
            return Err(Fail::from("a text was taken"));
        };
        assert_eq!(rt;
            refusal,
            Refusal::Fault { line, fault },
            "{fault:?} at {line}"
        );
    }
    Ok(())
}

// Whether a command line is `load cube a` at line 12, with the bytes of the first block.
fn is_load(line: &Line) -> bool {
    match line.command.get() {
        Command::Edit(Edit::Load { name, block }) => {
            line.number == 12
                && line.session == 1
                && name.bytes() == b"cube".as_slice()
                && block.get().bytes() == b"solid\r\n\nend\n".as_slice()
        }
        _ => false,
    }
}

fn is_move(line: &Line) -> bool {
    matches!(
        line.command.get(),
        Command::Edit(Edit::Move {
            place: 0,
            instance: 255,
            x: Nm(1_500_000),
            y: Nm(-2_000_000),
        })
    )
}

fn is_set(line: &Line) -> bool {
    match line.command.get() {
        Command::Edit(Edit::Set { key, value }) => {
            key.bytes() == b"notes".as_slice() && value.bytes() == b"a \x0b b".as_slice()
        }
        _ => false,
    }
}

fn has_lines(script: &Script) -> bool {
    match script.lines().all() {
        [load, shift, set, status] => {
            is_load(load)
                && is_move(shift)
                && is_set(set)
                && matches!(status.command.get(), Command::Status)
        }
        _ => false,
    }
}

fn has_blocks(script: &Script) -> bool {
    let blocks = script.blocks();
    match blocks.all() {
        [first, second] => {
            first.get().name() == b"a".as_slice()
                && second.get().name() == b"A".as_slice()
                && blocks.named(b"A").is_some()
                && blocks.named(b"b").is_none()
        }
        _ => false,
    }
}

#[test]
fn blocks_and_commands_are_read(rt: HostRuntime) -> Result<(), Fail> {
    let text =
        b"plater \t1\r\n\nworkers 0\n# data\ndata a\nsolid\r\n\nend\n.end\r\ndata A\n.end\n \t1 load cube a\r\n1 move 0 255 1.5 -2\n1 set notes  a \x0b b \r\n1 status";
    let script = read(rt.alloc(), text)?.ok().ok_or("refused")?;
    assert!(rt; script.workers() == 0 && has_blocks(&script) && has_lines(&script));
    Ok(())
}

#[test]
fn ten_thousand_commands_are_taken_and_no_more(rt: HostRuntime) -> Result<(), Fail> {
    let mut text = Vec::new(rt.alloc());
    text.extend_from_slice(b"plater 1\n")?;
    for _ in 0..10_000 {
        text.extend_from_slice(b"1 apply\n")?;
    }
    let script = read(rt.alloc(), &text)?.ok().ok_or("refused")?;
    assert_eq!(rt; script.lines().all().len(), 10_000);
    text.extend_from_slice(b"1 apply\n")?;
    let Err(refusal) = read(rt.alloc(), &text)? else {
        return Err(Fail::from("a text was taken"));
    };
    let expected = Refusal::Fault {
        line: 10_002,
        fault: ScriptFault::TooMany,
    };
    assert_eq!(rt; refusal, expected);
    Ok(())
}

#[test]
fn sessions_that_wait_for_ever_are_stuck_at_their_least_line(rt: HostRuntime) -> Result<(), Fail> {
    let rows: [(&[u8], u32); 9] = [
        (b"plater 1\n1 after 1 1\n", 2),
        (b"plater 1\n1 after 2 1\n2 after 1 1\n", 2),
        (b"plater 1\n1 apply\n1 after 2 1\n2 after 1 2\n", 3),
        (b"plater 1\n2 apply\n1 after 2 2\n", 3),
        (b"plater 1\n1 after 1 0\n1 after 1 3\n2 after 1 1\n", 3),
        (
            b"plater 1\n3 after 2 1\n2 after 1 1\n1 apply\n1 after 3 2\n",
            5,
        ),
        (b"plater 1\n16 after 16 1\n1 after 16 1\n", 2),
        (b"plater 1\n# a\n\n1 export\n2 after 1 10000\n2 apply\n", 5),
        (b"plater 1\n1 after 4 1\n2 after 1 1\n", 2),
    ];
    for (text, line) in rows {
        let Err(refusal) = read(rt.alloc(), text)? else {
            return Err(Fail::from("a text was taken"));
        };
        let fault = ScriptFault::Stuck;
        assert_eq!(rt; refusal, Refusal::Fault { line, fault }, "at {line}");
    }
    Ok(())
}

#[test]
fn sessions_that_wait_for_a_while_are_taken(rt: HostRuntime) -> Result<(), Fail> {
    let rows: [(&[u8], u8, usize); 6] = [
        (b"plater 1\n1 after 1 0\n", 0, 1),
        (b"plater 1\nworkers 8\n1 after 1 0\n1 after 1 1\n", 8, 2),
        (
            b"plater 1\nworkers 1\ndata box\n.end\n1 load a box\n1 apply\n2 after 1 2\n2 export\n",
            1,
            4,
        ),
        (b"plater 1\n2 after 1 1\n1 after 2 0\n", 0, 2),
        (b"plater 1\n16 after 1 2\n1 apply\n1 after 1 1\n", 0, 3),
        (
            b"plater 1\n1 after 2 2\n2 apply\n2 after 3 1\n3 apply\n1 apply\n",
            0,
            5,
        ),
    ];
    for (text, workers, commands) in rows {
        let script = read(rt.alloc(), text)?.ok().ok_or("refused")?;
        assert!(rt; script.workers() == workers && script.lines().all().len() == commands);
    }
    Ok(())
}

#[test]
fn a_command_too_many_comes_before_stuck_sessions(rt: HostRuntime) -> Result<(), Fail> {
    let mut text = Vec::new(rt.alloc());
    text.extend_from_slice(b"plater 1\n")?;
    for _ in 0..5_000 {
        text.extend_from_slice(b"1 after 2 5000\n2 after 16 0\n")?;
    }
    let script = read(rt.alloc(), &text)?.ok().ok_or("refused")?;
    assert_eq!(rt; script.lines().all().len(), 10_000);
    text.extend_from_slice(b"3 after 3 1\n")?;
    let Err(refusal) = read(rt.alloc(), &text)? else {
        return Err(Fail::from("a text was taken"));
    };
    let expected = Refusal::Fault {
        line: 10_002,
        fault: ScriptFault::TooMany,
    };
    assert_eq!(rt; refusal, expected);
    Ok(())
}
