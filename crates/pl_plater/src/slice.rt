//! The command `slice`.
ghost use Rattle.std.specs.Prelude.{◌≡◌, ◌≢◌, ◌≤◌, ◌⊎◌, length, IfSome, None};
ghost use Rattle.std.specs.Io.KnownBytes.{IsAtEnd};
ghost use Rattle.pl_model.specs.Problem.{problem_of};
ghost use Rattle.pl_ports.specs.Causes.{Rose, TookAtMost};
ghost use Rattle.pl_plater.specs.declared.words.Task.TheVariants as tasks;
ghost use Rattle.pl_plater.specs.Status.{IsBeforeWriting, IsAfterReading, slice_status};
ghost use Rattle.pl_plater.specs.Headline.{limit, Answers, IsInput, Wrote, WroteFront, Writes, WritesFront, EndsWell};

use crate::TopFault;
use crate::status::Status;
use crate::top::LIMIT;
use pl_model::Plate;
use pl_ports::{Sink, SinkStop, Source, put_all, read_all};
use pl_sliced::read_sliced;
use pl_units::Refusal;
use pl_whole::{WholeFault, slice_whole};
use std::alloc::Global;

// A refusal of the slice text.
fn refused(refusal: &Refusal<TopFault>) -> Status
    ensures { result ≡ slice_status refusal.now }
{
    match refusal {
        Refusal::Fault { line, fault } => Status::Refused {
            line: *line,
            fault: *fault,
        },
        Refusal::NoMemory => Status::NoMemory,
    }
}

// Writes the G-code of a plate that has no problem.
fn slice_and_write<K: Sink>(alloc: Global, plate: &Plate, sink: &mut K) -> Status
    requires { problem_of plate.now ≡ None }
    ensures ended { IsAfterReading result }
    ensures done { result ≡ Status.Done → Wrote tasks.Slice plate.now (K.held sink.old) (K.held sink.new) }
    ensures write { result ≡ Status.WriteFault → Rose (K.faults sink.old) (K.faults sink.new) }
    ensures front { (sink.new ≡ sink.old) ⊎ WroteFront tasks.Slice plate.now (K.held sink.old) (K.held sink.new) }
{
    let text = match slice_whole(alloc, plate) {
        Ok(text) => text,
        Err(WholeFault::Problem(_)) => unreachable!(),
        Err(WholeFault::NoMemory) => return Status::NoMemory,
    };
    match put_all(sink, text.bytes()) {
        Ok(()) => Status::Done,
        Err(SinkStop::Failed) => Status::WriteFault,
        Err(SinkStop::NoMemory) => Status::NoMemory,
    }
}

// The command, from the bytes that were read on.
fn slice<K: Sink>(alloc: Global, bytes: &[u8], sink: &mut K) -> Status
    requires { length bytes.now ≤ limit }
    ensures usage { result ≢ Status.Usage }
    ensures read { result ≢ Status.ReadFault }
    ensures answer { Answers tasks.Slice result bytes.now }
    ensures done { result ≡ Status.Done → Writes tasks.Slice bytes.now (K.held sink.old) (K.held sink.new) }
    ensures write { result ≡ Status.WriteFault → Rose (K.faults sink.old) (K.faults sink.new) }
    ensures not_called { IsBeforeWriting result → sink.new ≡ sink.old }
    ensures front { (sink.new ≡ sink.old) ⊎ WritesFront tasks.Slice bytes.now (K.held sink.old) (K.held sink.new) }
{
    match read_sliced(alloc, bytes) {
        Ok(plate) => slice_and_write(alloc, &plate, sink),
        Err(refusal) => refused(&refusal),
    }
}

/// The command `slice`: reads a slice text of at most 2^28 bytes to its end, and writes the G-code of its plate. It waits
/// for nobody and always returns. A longer text is refused as `TooLong` at line 0, another one that is no slice text or
/// whose plate has a problem at the line of its first fault, as `read_sliced` says. Nothing is written before the whole
/// text is read and found good; after a failing write, or want of memory, the sink has a front of the G-code.
pub fn slice_once<S: Source, K: Sink>(alloc: Global, source: &mut S, sink: &mut K) -> Status
    ensures usage { result ≢ Status.Usage }

    // Where the source tells its bytes: Done exactly for slice texts, and each refusal for its cause alone.
    ensures answer { IfSome (S.left source.old) (Answers tasks.Slice result) }

    // Done: what was written is the G-code of the plate, and all was read.
    ensures done { result ≡ Status.Done → IfSome (S.left source.old) (λ bytes. Writes tasks.Slice bytes (K.held sink.old) (K.held sink.new)) }
    ensures read_to_end { result ≡ Status.Done → IsAtEnd (S.left source.new) }

    // Each fault has its cause.
    ensures read { result ≡ Status.ReadFault → Rose (S.faults source.old) (S.faults source.new) }
    ensures read_first { result ≡ Status.ReadFault → TookAtMost (S.left source.old) (S.left source.new) limit }
    ensures write { result ≡ Status.WriteFault → Rose (K.faults sink.old) (K.faults sink.new) }

    // Before the writing the sink is not called; after a stop it has a front of the G-code.
    ensures not_called { IsBeforeWriting result → sink.new ≡ sink.old }
    ensures front { IfSome (S.left source.old) (λ bytes. (sink.new ≡ sink.old) ⊎ WritesFront tasks.Slice bytes (K.held sink.old) (K.held sink.new)) }

    // A slice text and no fault: Done, unless memory ran out.
    ensures complete { IfSome (S.left source.old) (λ bytes. IsInput tasks.Slice bytes → ¬ Rose (S.faults source.old) (S.faults source.new) → ¬ Rose (K.faults sink.old) (K.faults sink.new) → EndsWell result) }
{
    match read_all(alloc, source, LIMIT) {
        Ok(text) => slice(alloc, text.bytes(), sink),
        Err(stop) => Status::unread(&stop),
    }
}
