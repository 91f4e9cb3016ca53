//! Writing replies.
ghost use Rattle.std.specs.Prelude.{◌≡◌, [], ◌∷◌, codes, length};
ghost use Rattle.std.specs.Fmt.{decimal};
ghost use Rattle.pl_transcript.specs.Words.{spaced};
ghost use Rattle.pl_transcript.specs.Replies.{stl_fault_word, ini_fault_word, refusal_words, edit_reply_words, problem_words, gcode_text, reply_words};
ghost use Rattle.pl_transcript.specs.Growth.{Writes, Counts};

use crate::line::LineBuffer;
use crate::slots::{put_invalidated, put_modes};
use pl_edit::{Edit, EditRefusal, EditReply};
use pl_machine::Reply;
use pl_options::IniFault;
use pl_ports::{Sink, SinkStop};
use pl_stl::StlFault;
use pl_tech::{Problem, Technology};

// The word of a fault of a mesh text.
fn stl_fault(fault: &StlFault) -> &'static [u8]
    ensures { result.now ≡ stl_fault_word fault.now }
{
    match fault {
        StlFault::BadToken => b"BadToken",
        StlFault::BadNumber => b"BadNumber",
        StlFault::TooFar => b"TooFar",
        StlFault::TooManyFacets => b"TooManyFacets",
        StlFault::Cut => b"Cut",
        StlFault::NoFacet => b"NoFacet",
    }
}

// The word of a fault of a settings text.
fn ini_fault(fault: &IniFault) -> &'static [u8]
    ensures { result.now ≡ ini_fault_word fault.now }
{
    match fault {
        IniFault::NoEquals => b"NoEquals",
        IniFault::BadValue => b"BadValue",
        IniFault::OutOfRange => b"OutOfRange",
    }
}

// Writes why an edit was refused.
fn put_refusal<K: Sink>(
    line: &mut LineBuffer,
    sink: &mut K,
    refusal: &EditRefusal,
) -> Result<(), SinkStop>
    ensures written { Writes result (K.held sink.old) line.old (K.held sink.new) line.new (spaced (refusal_words refusal.now)) }
    ensures faults { Counts result (K.faults sink.old) (K.faults sink.new) }
{
    match refusal {
        EditRefusal::NoObject => line.put_word(sink, b"NoObject"),
        EditRefusal::NoInstance => line.put_word(sink, b"NoInstance"),
        EditRefusal::UnknownKey => line.put_word(sink, b"UnknownKey"),
        EditRefusal::NotObjectKey => line.put_word(sink, b"NotObjectKey"),
        EditRefusal::BadValue => line.put_word(sink, b"BadValue"),
        EditRefusal::OutOfRange => line.put_word(sink, b"OutOfRange"),
        EditRefusal::BadStl(at, fault) => {
            line.put_numbered(sink, b"BadStl", u64::from(*at), stl_fault(fault))
        }
        EditRefusal::BadIni(at, fault) => {
            line.put_numbered(sink, b"BadIni", u64::from(*at), ini_fault(fault))
        }
        EditRefusal::FullObjects => line.put_word(sink, b"FullObjects"),
        EditRefusal::FullInstances => line.put_word(sink, b"FullInstances"),
        EditRefusal::LastInstance => line.put_word(sink, b"LastInstance"),
    }
}

// Writes that an edit was refused, and why.
fn put_refused_edit<K: Sink>(
    line: &mut LineBuffer,
    sink: &mut K,
    refusal: &EditRefusal,
) -> Result<(), SinkStop>
    ensures written { Writes result (K.held sink.old) line.old (K.held sink.new) line.new (spaced (codes "refused" ∷ refusal_words refusal.now)) }
    ensures faults { Counts result (K.faults sink.old) (K.faults sink.new) }
{
    line.put_word(sink, b"refused")?;
    put_refusal(line, sink, refusal)
}

// Writes what an edit answered.
fn put_edit_reply<K: Sink>(
    line: &mut LineBuffer,
    sink: &mut K,
    reply: &EditReply,
) -> Result<(), SinkStop>
    ensures written { Writes result (K.held sink.old) line.old (K.held sink.new) line.new (spaced (edit_reply_words reply.now)) }
    ensures faults { Counts result (K.faults sink.old) (K.faults sink.new) }
{
    match reply {
        EditReply::Done => line.put_word(sink, b"ok"),
        EditReply::Object(place) => line.put_number(sink, b"object", u64::from(*place)),
        EditReply::Instance(number) => line.put_number(sink, b"instance", u64::from(*number)),
        EditReply::Set { taken, passed } => {
            line.put_pair(sink, b"set", u64::from(*taken), u64::from(*passed))
        }
        EditReply::Refused(refusal) => put_refused_edit(line, sink, refusal),
    }
}

// Writes a problem.
fn put_problem<K: Sink>(
    line: &mut LineBuffer,
    sink: &mut K,
    problem: &Problem,
) -> Result<(), SinkStop>
    ensures written { Writes result (K.held sink.old) line.old (K.held sink.new) line.new (spaced (problem_words problem.now)) }
    ensures faults { Counts result (K.faults sink.old) (K.faults sink.new) }
{
    match problem {
        Problem::Empty => line.put_word(sink, b"Empty"),
        Problem::OutOfBed(place, instance) => {
            line.put_pair(sink, b"OutOfBed", u64::from(*place), u64::from(*instance))
        }
        Problem::TooManyCells(place) => line.put_number(sink, b"TooManyCells", u64::from(*place)),
    }
}

// Writes that an export was refused, and why.
fn put_refused_export<K: Sink>(
    line: &mut LineBuffer,
    sink: &mut K,
    problem: &Problem,
) -> Result<(), SinkStop>
    ensures written { Writes result (K.held sink.old) line.old (K.held sink.new) line.new (spaced (codes "refused" ∷ problem_words problem.now)) }
    ensures faults { Counts result (K.faults sink.old) (K.faults sink.new) }
{
    line.put_word(sink, b"refused")?;
    put_problem(line, sink, problem)
}

// Writes a line end and the bytes of a G-code.
fn put_bytes<K: Sink>(line: &mut LineBuffer, sink: &mut K, bytes: &[u8]) -> Result<(), SinkStop>
    ensures written { Writes result (K.held sink.old) line.old (K.held sink.new) line.new (10 ∷ bytes.now) }
    ensures faults { Counts result (K.faults sink.old) (K.faults sink.new) }
{
    line.put(sink, b"\n")?;
    line.put(sink, bytes)
}

// Writes the length of a G-code, and then its bytes.
fn put_gcode<K: Sink>(line: &mut LineBuffer, sink: &mut K, bytes: &[u8]) -> Result<(), SinkStop>
    ensures written { Writes result (K.held sink.old) line.old (K.held sink.new) line.new (spaced (codes "gcode" ∷ gcode_text bytes.now ∷ [])) }
    ensures faults { Counts result (K.faults sink.old) (K.faults sink.new) }
{
    line.put_number(sink, b"gcode", bytes.len() as u64)?;
    put_bytes(line, sink, bytes)
}

// Writes a reply.
pub(crate) fn put_reply<T: Technology<Edit = Edit, Reply = EditReply>, K: Sink>(
    line: &mut LineBuffer,
    sink: &mut K,
    reply: &Reply<T>,
) -> Result<(), SinkStop>
    ensures written { Writes result (K.held sink.old) line.old (K.held sink.new) line.new (spaced (reply_words T.meaning reply.now)) }
    ensures faults { Counts result (K.faults sink.old) (K.faults sink.new) }
{
    match reply {
        Reply::Edited(answer) => put_edit_reply(line, sink, answer),
        Reply::Unchanged => line.put_word(sink, b"unchanged"),
        Reply::Changed => line.put_word(sink, b"changed"),
        Reply::Invalidated(set) => put_invalidated::<T, K>(line, sink, *set),
        Reply::Cancelled(count) => line.put_number(sink, b"cancelled", u64::from(*count)),
        Reply::Modes {
            present,
            started,
            finished,
        } => put_modes::<T, K>(line, sink, *present, *started, *finished),
        Reply::Gcode(output) => put_gcode(line, sink, T::bytes(output.get())),
        Reply::Refused(problem) => put_refused_export(line, sink, problem),
        Reply::Passed => line.put_word(sink, b"ok"),
    }
}
