//! The command `demo`.
ghost use Rattle.std.specs.Prelude.{◌≡◌, ◌≤◌};
ghost use Rattle.std.specs.Io.KnownBytes.{Appends};
ghost use Rattle.pl_ports.specs.Causes.{AppendsFront, Rose};
ghost use Rattle.pl_plater.specs.Status.{IsAfterReading};
ghost use Rattle.pl_plater.specs.Headline.{demo_summary};

use crate::status::Status;
use pl_demo::run_demo;
use pl_fff::Fff;
use pl_ports::{Gate, Sink, SinkStop, put_all};
use std::alloc::Global;
use std::sync::Wait;
use std::thread::Threads;

/// The command `demo n`: runs demo n, from 0 to 999, with two workers, each runner of which passes the gate, and writes its summary. It
/// reads nothing, and waits for its threads. After a failing write, or want of memory, the sink has a front of the summary.
pub(crate) fn demo<R: Threads + Wait + Sync, K: Sink, G: Gate + Sync>(
    rt: &R,
    alloc: Global,
    n: u16,
    sink: &mut K,
    gate: &G,
) -> Status
    requires { n ≤ 999 }
    ensures ended { IsAfterReading result }
    ensures done { result ≡ Status.Done → Appends (K.held sink.old) (K.held sink.new) (demo_summary n) }
    ensures front { AppendsFront (K.held sink.old) (K.held sink.new) (demo_summary n) }
    ensures write { result ≡ Status.WriteFault → Rose (K.faults sink.old) (K.faults sink.new) }
{
    let Ok(summary) = run_demo::<Fff, R, G>(rt, alloc, n, gate) else {
        return Status::NoMemory;
    };
    match put_all(sink, summary.bytes()) {
        Ok(()) => Status::Done,
        Err(SinkStop::Failed) => Status::WriteFault,
        Err(SinkStop::NoMemory) => Status::NoMemory,
    }
}
