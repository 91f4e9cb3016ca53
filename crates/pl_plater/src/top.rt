//! The top call.
ghost use Rattle.std.specs.Prelude.{◌≡◌, ◌≢◌, ◌⊎◌, ◌↔◌, IfSome, None};
ghost use Rattle.std.specs.Io.KnownBytes.{Appends, IsAtEnd};
ghost use Rattle.pl_ports.specs.Causes.{AppendsFront, Rose, TookAtMost};
ghost use Rattle.pl_plater.specs.Words.{task_of, demo_of, IsTaken, OnTask, OnDemo};
ghost use Rattle.pl_plater.specs.Status.{IsAfterReading, IsBeforeWriting};
ghost use Rattle.pl_plater.specs.Headline.{limit, Answers, IsInput, Writes, WritesFront, EndsWell, demo_summary};

use crate::demo::demo;
use crate::run::run;
use crate::slice::slice_once;
use crate::status::Status;
use crate::words::{Task, demo_of, task_of};
use pl_ports::{Gate, Sink, Source};
use std::alloc::Global;
use std::sync::Wait;
use std::thread::Threads;

/// The most bytes that are read, 2^28.
pub const LIMIT: usize = 1 << 28;

/// Everything that the program does. The words are those after the program's name, and three commands are taken: `run`
/// reads a script of at most 2^28 bytes to its end, runs it and writes its transcript; `slice` reads a slice text of at
/// most 2^28 bytes to its end and writes the G-code of its plate; `demo` with a number from 0 to 999, in decimal without
/// leading zeros, reads nothing, runs the script of that demo and writes its summary. The sessions and the workers of a
/// script go on beside each other, each on a thread of its own where one is to be had, and pass the gate on their way.
/// `run` and `demo` wait for their threads; `slice` waits for nobody.
pub fn plater<Runtime: Threads + Wait + Sync, S: Source, K: Sink, G: Gate + Sync>(
    rt: &Runtime,
    alloc: Global,
    words: &[String],
    source: &mut S,
    sink: &mut K,
    gate: &G,
) -> Status
    // The words alone decide, and then nothing is read.
    ensures usage { (result ≡ Status.Usage) ↔ ((task_of words.now ≡ None) × (demo_of words.now ≡ None)) }
    ensures accepted { result ≢ Status.Usage → IsTaken words.now }
    ensures not_read { result ≡ Status.Usage → source.new ≡ source.old }

    // Where the source tells its bytes: Done exactly for inputs of the command, and each refusal for its cause alone.
    ensures answer { OnTask words.now (λ task. IfSome (S.left source.old) (Answers task result)) }

    // Done, in whatever order the threads took their turns: what was written is the transcript of one legal history that is
    // complete for the script, or the G-code of the plate, and all was read.
    ensures done { result ≡ Status.Done → OnTask words.now (λ task. IfSome (S.left source.old) (λ bytes. Writes task bytes (K.held sink.old) (K.held sink.new))) }
    ensures read_to_end { result ≡ Status.Done → OnTask words.now (λ _. IsAtEnd (S.left source.new)) }

    // Each fault has its cause.
    ensures read { result ≡ Status.ReadFault → Rose (S.faults source.old) (S.faults source.new) }
    ensures read_first { result ≡ Status.ReadFault → TookAtMost (S.left source.old) (S.left source.new) limit }
    ensures write { result ≡ Status.WriteFault → Rose (K.faults sink.old) (K.faults sink.new) }

    // Before the writing the sink is not called; after a stop it has a front of the output.
    ensures not_called { IsBeforeWriting result → sink.new ≡ sink.old }
    ensures front { OnTask words.now (λ task. IfSome (S.left source.old) (λ bytes. (sink.new ≡ sink.old) ⊎ WritesFront task bytes (K.held sink.old) (K.held sink.new))) }

    // An input of the command and no fault: Done, unless memory ran out.
    ensures complete { OnTask words.now (λ task. IfSome (S.left source.old) (λ bytes. IsInput task bytes → ¬ Rose (S.faults source.old) (S.faults source.new) → ¬ Rose (K.faults sink.old) (K.faults sink.new) → EndsWell result)) }

    // A demo reads nothing, and ends well where no write fails. Done, in whatever order the threads took their turns: its summary was
    // written, and nothing else.
    ensures demo_unread { OnDemo words.now (λ _. source.new ≡ source.old) }
    ensures demo_ended { OnDemo words.now (λ _. IsAfterReading result) }
    ensures demo_done { OnDemo words.now (λ n. result ≡ Status.Done → Appends (K.held sink.old) (K.held sink.new) (demo_summary n)) }
    ensures demo_front { OnDemo words.now (λ n. AppendsFront (K.held sink.old) (K.held sink.new) (demo_summary n)) }
    ensures demo_complete { OnDemo words.now (λ _. ¬ Rose (K.faults sink.old) (K.faults sink.new) → EndsWell result) }
{
    match task_of(words) {
        Some(Task::Run) => run(rt, alloc, source, sink, gate),
        Some(Task::Slice) => slice_once(alloc, source, sink),
        None => match demo_of(words) {
            Some(n) => demo(rt, alloc, n, sink, gate),
            None => Status::Usage,
        },
    }
}
