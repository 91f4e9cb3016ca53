//! The command `run`.
ghost use Rattle.std.specs.Prelude.{◌≡◌, ◌≢◌, ◌≤◌, ◌⊎◌, length, IfSome};
ghost use Rattle.std.specs.Io.KnownBytes.{IsAtEnd};
ghost use Rattle.pl_ports.specs.Causes.{Rose, TookAtMost};
ghost use Rattle.pl_plater.specs.declared.words.Task.TheVariants as tasks;
ghost use Rattle.pl_plater.specs.Status.{IsBeforeWriting, IsAfterReading, script_status};
ghost use Rattle.pl_plater.specs.Headline.{limit, Answers, IsInput, EndsWell, Wrote, WroteFront, Writes, WritesFront};

use crate::TopFault;
use crate::status::Status;
use crate::top::LIMIT;
use pl_fff::Fff;
use pl_ports::{Gate, Sink, SinkStop, Source, read_all};
use pl_script::{Script, ScriptFault, read_script};
use pl_scripted::run_script;
use pl_transcript::put_transcript;
use pl_units::Refusal;
use std::alloc::Global;
use std::sync::Wait;
use std::thread::Threads;

// A refusal of the script.
fn refused(refusal: &Refusal<ScriptFault>) -> Status
    ensures { result ≡ script_status refusal.now }
{
    match refusal {
        Refusal::Fault { line, fault } => Status::Refused {
            line: *line,
            fault: TopFault::Script(*fault),
        },
        Refusal::NoMemory => Status::NoMemory,
    }
}

// Runs a script by its sessions and workers, and writes the transcript.
fn run_and_write<R: Threads + Wait + Sync, K: Sink, G: Gate + Sync>(
    rt: &R,
    alloc: Global,
    script: &Script,
    sink: &mut K,
    gate: &G,
) -> Status
    ensures ended { IsAfterReading result }
    ensures done { result ≡ Status.Done → Wrote tasks.Run script.now (K.held sink.old) (K.held sink.new) }
    ensures write { result ≡ Status.WriteFault → Rose (K.faults sink.old) (K.faults sink.new) }
    ensures front { (sink.new ≡ sink.old) ⊎ WroteFront tasks.Run script.now (K.held sink.old) (K.held sink.new) }
{
    let Ok(ended) = run_script::<Fff, R, G>(rt, alloc, script, gate) else {
        return Status::NoMemory;
    };
    match put_transcript(sink, &ended.journal, ended.runs) {
        Ok(()) => Status::Done,
        Err(SinkStop::Failed) => Status::WriteFault,
        Err(SinkStop::NoMemory) => Status::NoMemory,
    }
}

// The command, from the bytes that were read on.
fn play<R: Threads + Wait + Sync, K: Sink, G: Gate + Sync>(
    rt: &R,
    alloc: Global,
    bytes: &[u8],
    sink: &mut K,
    gate: &G,
) -> Status
    requires { length bytes.now ≤ limit }
    ensures usage { result ≢ Status.Usage }
    ensures read { result ≢ Status.ReadFault }
    ensures answer { Answers tasks.Run result bytes.now }
    ensures done { result ≡ Status.Done → Writes tasks.Run bytes.now (K.held sink.old) (K.held sink.new) }
    ensures write { result ≡ Status.WriteFault → Rose (K.faults sink.old) (K.faults sink.new) }
    ensures not_called { IsBeforeWriting result → sink.new ≡ sink.old }
    ensures front { (sink.new ≡ sink.old) ⊎ WritesFront tasks.Run bytes.now (K.held sink.old) (K.held sink.new) }
{
    let script = match read_script(alloc, bytes) {
        Ok(script) => script,
        Err(refusal) => return refused(&refusal),
    };
    run_and_write(rt, alloc, &script, sink, gate)
}

/// The command `run`: reads a script of at most 2^28 bytes to its end, runs its sessions and workers, each of which passes the gate, and
/// writes the transcript.
pub(crate) fn run<R: Threads + Wait + Sync, S: Source, K: Sink, G: Gate + Sync>(
    rt: &R,
    alloc: Global,
    source: &mut S,
    sink: &mut K,
    gate: &G,
) -> Status
    ensures usage { result ≢ Status.Usage }
    ensures answer { IfSome (S.left source.old) (Answers tasks.Run result) }
    ensures done { result ≡ Status.Done → IfSome (S.left source.old) (λ bytes. Writes tasks.Run bytes (K.held sink.old) (K.held sink.new)) }
    ensures read_to_end { result ≡ Status.Done → IsAtEnd (S.left source.new) }
    ensures read { result ≡ Status.ReadFault → Rose (S.faults source.old) (S.faults source.new) }
    ensures read_first { result ≡ Status.ReadFault → TookAtMost (S.left source.old) (S.left source.new) limit }
    ensures write { result ≡ Status.WriteFault → Rose (K.faults sink.old) (K.faults sink.new) }
    ensures not_called { IsBeforeWriting result → sink.new ≡ sink.old }
    ensures front { IfSome (S.left source.old) (λ bytes. (sink.new ≡ sink.old) ⊎ WritesFront tasks.Run bytes (K.held sink.old) (K.held sink.new)) }
    ensures complete { IfSome (S.left source.old) (λ bytes. IsInput tasks.Run bytes → ¬ Rose (S.faults source.old) (S.faults source.new) → ¬ Rose (K.faults sink.old) (K.faults sink.new) → EndsWell result) }
{
    match read_all(alloc, source, LIMIT) {
        Ok(text) => play(rt, alloc, text.bytes(), sink, gate),
        Err(stop) => Status::unread(&stop),
    }
}
