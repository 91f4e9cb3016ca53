//! Workers that slice beside sessions.
use crate::gates::{Counting, TURNS, UntilAWorkerStarts};
use crate::program::{PART, gcode_in, joined, transcript};
use pl_edit::{Block, Edit};
use pl_model::Plate;
use pl_ports::{HoldGate, OpenGate};
use pl_units::{Nm, Shared, Text};
use pl_whole::slice_whole;
use std::alloc::Global;
use std::sync::Arc;
use std::test::Fail;

// Two sessions that each load the part, apply and export, beside one worker.
fn two_sessions(alloc: Global) -> Result<Text, Fail> {
    let commands = b"1 load a part\n1 apply\n1 export\n2 load b part\n2 apply\n2 export\n";
    joined(alloc, &[b"plater 1\nworkers 1\n", PART, commands])
}

#[test]
fn sessions_make_their_calls_while_a_job_is_held(rt: HostRuntime) -> Result<(), Fail> {
    let alloc = rt.alloc();
    let gate = Counting::new(HoldGate::new(0, 1, 2, 2, TURNS));
    let sink = transcript(&rt, alloc, two_sessions(alloc)?, &gate)?;
    assert!(rt; !gate.gate.overran());
    let started = gate.started();
    let last = format!(in alloc; " runs {started}\n")?;
    assert!(rt; sink.held().ends_with(last.as_bytes()));
    assert_eq!(rt; gate.finished(), started);
    assert_eq!(rt; gate.answered(), 6);
    Ok(())
}

#[test]
fn a_worker_starts_while_sessions_are_held(rt: HostRuntime) -> Result<(), Fail> {
    let alloc = rt.alloc();
    let gate = UntilAWorkerStarts::new();
    let _ = transcript(&rt, alloc, two_sessions(alloc)?, &gate)?;
    assert!(rt; !gate.overran());
    Ok(())
}

// A hull of 60 by 31 by 48 mm that is wider above.
const HULL: &[u8] =
    b"solid\nfacet normal 0 0 0 outer loop vertex 10 5 0 vertex 10 26 0 vertex 50 5 0 endloop endfacet\nfacet normal 0 0 0 outer loop vertex 50 5 0 vertex 10 26 0 vertex 50 26 0 endloop endfacet\nfacet normal 0 0 0 outer loop vertex 0 0 48 vertex 60 0 48 vertex 0 31 48 endloop endfacet\nfacet normal 0 0 0 outer loop vertex 60 0 48 vertex 60 31 48 vertex 0 31 48 endloop endfacet\nfacet normal 0 0 0 outer loop vertex 10 5 0 vertex 50 5 0 vertex 0 0 48 endloop endfacet\nfacet normal 0 0 0 outer loop vertex 50 5 0 vertex 60 0 48 vertex 0 0 48 endloop endfacet\nfacet normal 0 0 0 outer loop vertex 10 26 0 vertex 0 31 48 vertex 50 26 0 endloop endfacet\nfacet normal 0 0 0 outer loop vertex 50 26 0 vertex 0 31 48 vertex 60 31 48 endloop endfacet\nfacet normal 0 0 0 outer loop vertex 10 5 0 vertex 0 0 48 vertex 10 26 0 endloop endfacet\nfacet normal 0 0 0 outer loop vertex 10 26 0 vertex 0 0 48 vertex 0 31 48 endloop endfacet\nfacet normal 0 0 0 outer loop vertex 50 5 0 vertex 50 26 0 vertex 60 0 48 endloop endfacet\nfacet normal 0 0 0 outer loop vertex 50 26 0 vertex 60 31 48 vertex 60 0 48 endloop endfacet\nendsolid\n";

// The block of the hull.
fn hull(alloc: Global) -> Result<Shared<Block>, Fail> {
    let bytes = joined(alloc, &[HULL])?;
    if bytes.bytes().len() > 1_000_000 {
        return Err("a mesh that is too long".into());
    }
    let block = Block::of(joined(alloc, &[b"hull"])?, bytes);
    Ok(Shared::of(Arc::new(alloc, block)?))
}

// A plate with two instances of the hull.
fn two_hulls(alloc: Global) -> Result<Plate, Fail> {
    let mut plate = Plate::blank(alloc)?;
    let name = joined(alloc, &[b"a"])?;
    let block = hull(alloc)?;
    let _ = plate.edit(alloc, &Edit::Load { name, block })?;
    let _ = plate.edit(
        alloc,
        &Edit::Move {
            place: 0,
            instance: 0,
            x: Nm(20_000_000),
            y: Nm(20_000_000),
        },
    )?;
    let _ = plate.edit(
        alloc,
        &Edit::Copy {
            place: 0,
            x: Nm(120_000_000),
            y: Nm(100_000_000),
        },
    )?;
    Ok(plate)
}

#[test]
fn two_workers_slice_a_hull_as_one_thread_does(rt: HostRuntime) -> Result<(), Fail> {
    let alloc = rt.alloc();
    let commands = b".end\n1 load a hull\n1 move 0 0 20 20\n1 copy 0 120 100\n1 apply\n1 export\n";
    let script = joined(
        alloc,
        &[b"plater 1\nworkers 2\ndata hull\n", HULL, commands],
    )?;
    let sink = transcript(&rt, alloc, script, &OpenGate)?;
    let plate = two_hulls(alloc)?;
    let Ok(gcode) = slice_whole(alloc, &plate) else {
        return Err("not sliced".into());
    };
    assert!(rt; gcode_in(sink.held()) == Some(gcode.bytes()));
    Ok(())
}
