//! What `plater` writes and answers, row by row.
use crate::{Status, TopFault, plater};
use pl_ports::{MemorySink, MemorySource, OpenGate, SteadySink, SteadySource};
use pl_script::ScriptFault;
use pl_units::Text;
use std::alloc::Global;
use std::sync::Wait;
use std::test::Fail;
use std::thread::Threads;

// A script with a box of 0.8 by 0.8 by 0.4 mm, up to its commands.
const BOX: &[u8] =
    b"plater 1\ndata box\nsolid box\nfacet normal 0 0 0\nouter loop\nvertex 0 0 0\nvertex 0 0.8 0\nvertex 0.8 0 0\nendloop\nendfacet\nfacet normal 0 0 0\nouter loop\nvertex 0.8 0 0\nvertex 0 0.8 0\nvertex 0.8 0.8 0\nendloop\nendfacet\nfacet normal 0 0 0\nouter loop\nvertex 0 0 0.4\nvertex 0.8 0 0.4\nvertex 0 0.8 0.4\nendloop\nendfacet\nfacet normal 0 0 0\nouter loop\nvertex 0.8 0 0.4\nvertex 0.8 0.8 0.4\nvertex 0 0.8 0.4\nendloop\nendfacet\nfacet normal 0 0 0\nouter loop\nvertex 0 0 0\nvertex 0.8 0 0\nvertex 0 0 0.4\nendloop\nendfacet\nfacet normal 0 0 0\nouter loop\nvertex 0.8 0 0\nvertex 0.8 0 0.4\nvertex 0 0 0.4\nendloop\nendfacet\nfacet normal 0 0 0\nouter loop\nvertex 0 0.8 0\nvertex 0 0.8 0.4\nvertex 0.8 0.8 0\nendloop\nendfacet\nfacet normal 0 0 0\nouter loop\nvertex 0.8 0.8 0\nvertex 0 0.8 0.4\nvertex 0.8 0.8 0.4\nendloop\nendfacet\nfacet normal 0 0 0\nouter loop\nvertex 0 0 0\nvertex 0 0 0.4\nvertex 0 0.8 0\nendloop\nendfacet\nfacet normal 0 0 0\nouter loop\nvertex 0 0.8 0\nvertex 0 0 0.4\nvertex 0 0.8 0.4\nendloop\nendfacet\nfacet normal 0 0 0\nouter loop\nvertex 0.8 0 0\nvertex 0.8 0.8 0\nvertex 0.8 0 0.4\nendloop\nendfacet\nfacet normal 0 0 0\nouter loop\nvertex 0.8 0.8 0\nvertex 0.8 0.8 0.4\nvertex 0.8 0 0.4\nendloop\nendfacet\nendsolid box\n.end\n";

// A box of which all is filled, without perimeters and skirts.
const FILLED: &[u8] =
    b"1 load cube box\n1 set perimeters 0\n1 set fill_density 100%\n1 set skirts 0\n1 apply\n1 export\n";

// What it writes.
const TRANSCRIPT: &[u8] =
    b"1 s1 load cube box = object 0\n2 s1 set perimeters 0 = ok\n3 s1 set fill_density 100% = ok\n4 s1 set skirts 0 = ok\n5 s1 apply = changed\n6 s1 start 0.slice 0\n7 s1 done 0.slice 0\n8 s1 start 0.perimeters 0\n9 s1 done 0.perimeters 0\n10 s1 start 0.prepare 0\n11 s1 done 0.prepare 0\n12 s1 start 0.infill 0\n13 s1 done 0.infill 0\n14 s1 start 0.ironing 0\n15 s1 done 0.ironing 0\n16 s1 start 0.support 0\n17 s1 done 0.support 0\n18 s1 start tower 0\n19 s1 done tower 0\n20 s1 start skirt 0\n21 s1 done skirt 0\n22 s1 start brim 0\n23 s1 done brim 0\n24 s1 start export 0\n25 s1 done export 0\n26 s1 export = gcode 409\n; headless plater\nG21\nG90\nM83\nM140 S60\nM104 S215\nM190 S60\nM109 S215\n;Z 0.200\nG1 Z0.200 F7800\n;OBJECT 0 0\nG1 X0.000 Y0.200 F7800\nG1 F4800\nG1 X0.800 Y0.200 E0.02660\nG1 X0.800 Y0.600 F7800\nG1 F4800\nG1 X0.000 Y0.600 E0.02660\n;Z 0.400\nG1 Z0.400 F7800\nM140 S60\nM104 S210\n;OBJECT 0 0\nG1 X0.200 Y0.000 F7800\nG1 F4800\nG1 X0.200 Y0.800 E0.02660\nG1 X0.600 Y0.800 F7800\nG1 F4800\nG1 X0.600 Y0.000 E0.02660\nM104 S0\nM140 S0\n\n27 s1 bye\nend 27 runs 10\n";

// The words of the command line.
pub(crate) fn words(alloc: Global, words: &[&str]) -> Result<Vec<String>, Fail> {
    let mut owned = Vec::new(alloc);
    for word in words {
        owned.push(format!(in alloc; "{word}")?)?;
    }
    Ok(owned)
}

/// The box and these commands.
pub(crate) fn with_box(alloc: Global, commands: &[u8]) -> Result<Text, Fail> {
    let mut script = Text::copy_of(alloc, BOX)?;
    script.append(commands)?;
    Ok(script)
}

/// The status of a run of this script, which writes to the sink.
pub(crate) fn run<R: Threads + Wait + Sync>(
    rt: &R,
    alloc: Global,
    script: Text,
    sink: &mut SteadySink,
) -> Result<Status, Fail> {
    let words = words(alloc, &["run"])?;
    let mut source = SteadySource::new(script);
    Ok(plater(rt, alloc, &words, &mut source, sink, &OpenGate))
}

// A script, and what it writes.
struct Row {
    name: &'static str,
    // Whether the box comes before the commands.
    with_box: bool,
    script: &'static [u8],
    transcript: &'static [u8],
}

const ROWS: [Row; 7] = [
    Row {
        name: "one box",
        with_box: true,
        script: FILLED,
        transcript: TRANSCRIPT,
    },
    Row {
        name: "the head alone",
        with_box: false,
        script: b"plater 1",
        transcript: b"end 0 runs 0\n",
    },
    Row {
        name: "an export of nothing",
        with_box: false,
        script: b"plater 1\n1 export\n",
        transcript: b"1 s1 export = refused Empty\n2 s1 bye\nend 2 runs 0\n",
    },
    Row {
        name: "a blank plate",
        with_box: false,
        script: b"plater 1\n\n# nothing yet\nworkers 0\n 1\tstatus\r\n1 cancel\n",
        transcript: b"1 s1 status = tower=invalid skirt=invalid brim=invalid export=invalid\n2 s1 cancel = cancelled 0\n3 s1 bye\nend 3 runs 0\n",
    },
    Row {
        name: "a mesh that is cut",
        with_box: false,
        script: b"plater 1\ndata bad\nsolid x\n.end\n1 load a bad\n",
        transcript: b"1 s1 load a bad = refused BadStl 1 Cut\n2 s1 bye\nend 2 runs 0\n",
    },
    Row {
        name: "a vertex that is cut",
        with_box: false,
        script: b"plater 1\ndata cut\nsolid a\nfacet normal 0 0 1\nouter loop\nvertex 0 0 0\nvertex 1 0 0\nvertex 0 1\n.end\n1 load a cut\n",
        transcript: b"1 s1 load a cut = refused BadStl 6 Cut\n2 s1 bye\nend 2 runs 0\n",
    },
    Row {
        name: "a mesh wider than the bed",
        with_box: false,
        script: b"plater 1\ndata wide\nSOLID\nFacet Normal nan nan nan OUTER LOOP vertex 0 0 0 vertex 3e2 0 0 vertex 0 4 .4 EndLoop EndFacet\nENDSOLID\n.end\n1 load a wide\n1 apply\n1 export\n",
        transcript: b"1 s1 load a wide = object 0\n2 s1 apply = changed\n3 s1 export = refused OutOfBed 0 0\n4 s1 bye\nend 4 runs 0\n",
    },
];

#[test]
fn scripts_give_their_transcripts(rt: HostRuntime) -> Result<(), Fail> {
    let alloc = rt.alloc();
    for row in &ROWS {
        let script = if row.with_box {
            with_box(alloc, row.script)?
        } else {
            Text::copy_of(alloc, row.script)?
        };
        let name = row.name;
        let mut sink = SteadySink::new(alloc);
        let status = run(&rt, alloc, script, &mut sink)?;
        assert!(rt; status == Status::Done, "{name}");
        assert!(rt; sink.held() == row.transcript, "{name}");
    }
    Ok(())
}

// A script that is refused, the line, and the fault.
const BREACHES: [(&[u8], u32, ScriptFault); 15] = [
    (b"", 1, ScriptFault::NoHead),
    (b"plater", 1, ScriptFault::NoHead),
    (b"plater 7\n", 1, ScriptFault::NoHead),
    (b"\nplater 1\n", 1, ScriptFault::NoHead),
    (b"plater 1\nworkers 9\n", 2, ScriptFault::BadLine),
    (b"plater 1\n1 apply now\n", 2, ScriptFault::BadLine),
    (b"plater 1\n1 fly\n", 2, ScriptFault::UnknownCommand),
    (b"plater 1\n1 after 1\n", 2, ScriptFault::BadLine),
    (b"plater 1\n1 load a box\n", 2, ScriptFault::NoData),
    (b"plater 1\n17 apply\n", 2, ScriptFault::BadSession),
    (b"plater 1\n0 apply\n", 2, ScriptFault::BadSession),
    (b"plater 1\ndata a\nsolid\n", 2, ScriptFault::CutData),
    (
        b"plater 1\ndata a\n.end\ndata a\n.end\n",
        4,
        ScriptFault::SameData,
    ),
    (
        b"plater 1\ndata a\n.end\n1 load a A\n",
        4,
        ScriptFault::NoData,
    ),
    (
        b"plater 1\n1 delete 0\n1 turn 0 4\n",
        3,
        ScriptFault::BadLine,
    ),
];

#[test]
fn the_first_breach_is_refused_at_its_line(rt: HostRuntime) -> Result<(), Fail> {
    for (script, line, fault) in &BREACHES {
        let mut sink = SteadySink::new(rt.alloc());
        let text = Text::copy_of(rt.alloc(), script)?;
        let status = run(&rt, rt.alloc(), text, &mut sink)?;
        let wanted = Status::Refused {
            line: *line,
            fault: TopFault::Script(*fault),
        };
        assert!(rt; status == wanted, "{line} {fault}");
        assert!(rt; sink.held().is_empty());
    }
    Ok(())
}

#[test]
fn command_10001_is_one_too_many(rt: HostRuntime) -> Result<(), Fail> {
    let alloc = rt.alloc();
    let mut script = Text::copy_of(alloc, b"plater 1\n")?;
    for _line in 0..10_001 {
        script.append(b"1 status\n")?;
    }
    let mut sink = SteadySink::new(alloc);
    let fault = TopFault::Script(ScriptFault::TooMany);
    assert!(rt;
        run(&rt, alloc, script, &mut sink)?
            == Status::Refused {
                line: 10_002,
                fault
            }
    );
    Ok(())
}

#[test]
fn other_words_are_usage(rt: HostRuntime) -> Result<(), Fail> {
    let table: [&[&str]; 7] = [
        &[],
        &["run", "x"],
        &["slice", "x"],
        &["run", "slice"],
        &["--help"],
        &["Run"],
        &["slices"],
    ];
    for list in &table {
        let words = words(rt.alloc(), list)?;
        let mut source = SteadySource::new(Text::copy_of(rt.alloc(), b"plater 1\n")?);
        let mut sink = SteadySink::new(rt.alloc());
        assert!(rt;
            plater(&rt, rt.alloc(), &words, &mut source, &mut sink, &OpenGate) == Status::Usage
        );
    }
    Ok(())
}

#[test]
fn a_failing_end_has_its_status(rt: HostRuntime) -> Result<(), Fail> {
    let alloc = rt.alloc();
    let words = words(alloc, &["run"])?;

    let mut sink = MemorySink::new(alloc, 64, Vec::from_slice(alloc, &[2])?);
    let mut source = SteadySource::new(with_box(alloc, FILLED)?);
    assert!(rt;
        plater(&rt, alloc, &words, &mut source, &mut sink, &OpenGate) == Status::WriteFault
    );
    assert!(rt; TRANSCRIPT.starts_with(sink.held()));

    let mut sink = SteadySink::new(alloc);
    let mut source = MemorySource::new(with_box(alloc, FILLED)?, 16, Vec::from_slice(alloc, &[0])?);
    assert!(rt; plater(&rt, alloc, &words, &mut source, &mut sink, &OpenGate) == Status::ReadFault);
    assert!(rt; sink.held().is_empty());
    Ok(())
}

#[test]
fn a_status_has_its_number(rt: HostRuntime) {
    let fault = TopFault::Script(ScriptFault::BadLine);
    let table = [
        (Status::Done, 0),
        (Status::Usage, 2),
        (Status::Refused { line: 0, fault }, 3),
        (Status::ReadFault, 4),
        (Status::WriteFault, 5),
        (Status::NoMemory, 6),
    ];
    for (status, number) in &table {
        assert_eq!(rt; status.code(), *number);
    }
}
