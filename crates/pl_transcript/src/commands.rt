//! Writing commands.
ghost use Rattle.std.specs.Prelude.{◌≡◌, [], ◌∷◌, codes};
ghost use Rattle.std.specs.Fmt.{decimal};
ghost use Rattle.pl_transcript.specs.Words.{spaced, mm_word};
ghost use Rattle.pl_transcript.specs.Commands.{value_words, edit_words, command_words};
ghost use Rattle.pl_transcript.specs.Growth.{Writes, Counts};

use crate::line::LineBuffer;
use pl_edit::Edit;
use pl_machine::Command;
use pl_ports::{Sink, SinkStop};
use pl_units::{Digits, Nm};

// A length in millimetres.
fn mm(length: &Nm) -> Digits
    ensures { result ≡ mm_word length.now }
{
    Digits::fixed(length.0, 6)
}

// Writes a place and the shift of a new instance.
fn put_copy<K: Sink>(
    line: &mut LineBuffer,
    sink: &mut K,
    place: u64,
    x: &Nm,
    y: &Nm,
) -> Result<(), SinkStop>
    ensures written { Writes result (K.held sink.old) line.old (K.held sink.new) line.new (spaced (codes "copy" ∷ decimal place ∷ mm_word x.now ∷ mm_word y.now ∷ [])) }
    ensures faults { Counts result (K.faults sink.old) (K.faults sink.new) }
{
    line.put_words(
        sink,
        &[
            b"copy",
            Digits::whole(place).bytes(),
            mm(x).bytes(),
            mm(y).bytes(),
        ],
    )
}

// Writes a place, an instance and its shift.
fn put_move<K: Sink>(
    line: &mut LineBuffer,
    sink: &mut K,
    place: u64,
    instance: u64,
    x: &Nm,
    y: &Nm,
) -> Result<(), SinkStop>
    ensures written { Writes result (K.held sink.old) line.old (K.held sink.new) line.new (spaced (codes "move" ∷ decimal place ∷ decimal instance ∷ mm_word x.now ∷ mm_word y.now ∷ [])) }
    ensures faults { Counts result (K.faults sink.old) (K.faults sink.new) }
{
    line.put_words(
        sink,
        &[
            b"move",
            Digits::whole(place).bytes(),
            Digits::whole(instance).bytes(),
            mm(x).bytes(),
            mm(y).bytes(),
        ],
    )
}

// Writes a value, where there is one.
fn put_value<K: Sink>(line: &mut LineBuffer, sink: &mut K, value: &[u8]) -> Result<(), SinkStop>
    ensures written { Writes result (K.held sink.old) line.old (K.held sink.new) line.new (spaced (value_words value.now)) }
    ensures faults { Counts result (K.faults sink.old) (K.faults sink.new) }
{
    if value.is_empty() {
        return Ok(());
    }
    line.put_word(sink, value)
}

// Writes a key and its value.
fn put_set<K: Sink>(
    line: &mut LineBuffer,
    sink: &mut K,
    key: &[u8],
    value: &[u8],
) -> Result<(), SinkStop>
    ensures written { Writes result (K.held sink.old) line.old (K.held sink.new) line.new (spaced (codes "set" ∷ key.now ∷ value_words value.now)) }
    ensures faults { Counts result (K.faults sink.old) (K.faults sink.new) }
{
    line.put_words(sink, &[b"set", key])?;
    put_value(line, sink, value)
}

// Writes a place, a key and its value there.
fn put_override<K: Sink>(
    line: &mut LineBuffer,
    sink: &mut K,
    place: u64,
    key: &[u8],
    value: &[u8],
) -> Result<(), SinkStop>
    ensures written { Writes result (K.held sink.old) line.old (K.held sink.new) line.new (spaced (codes "override" ∷ decimal place ∷ key.now ∷ value_words value.now)) }
    ensures faults { Counts result (K.faults sink.old) (K.faults sink.new) }
{
    line.put_numbered(sink, b"override", place, key)?;
    put_value(line, sink, value)
}

// Writes an edit.
fn put_edit<K: Sink>(line: &mut LineBuffer, sink: &mut K, edit: &Edit) -> Result<(), SinkStop>
    ensures written { Writes result (K.held sink.old) line.old (K.held sink.new) line.new (spaced (edit_words edit.now)) }
    ensures faults { Counts result (K.faults sink.old) (K.faults sink.new) }
{
    match edit {
        Edit::Load { name, block } => {
            line.put_words(sink, &[b"load", name.bytes(), block.get().name()])
        }
        Edit::Reload { place, block } => {
            line.put_numbered(sink, b"reload", u64::from(*place), block.get().name())
        }
        Edit::Delete { place } => line.put_number(sink, b"delete", u64::from(*place)),
        Edit::Copy { place, x, y } => put_copy(line, sink, u64::from(*place), x, y),
        Edit::Move {
            place,
            instance,
            x,
            y,
        } => { put_move(line, sink, u64::from(*place), u64::from(*instance), x, y) }
        Edit::Drop { place, instance } => {
            line.put_pair(sink, b"drop", u64::from(*place), u64::from(*instance))
        }
        Edit::Turn { place, quarter } => {
            line.put_pair(sink, b"turn", u64::from(*place), u64::from(*quarter))
        }
        Edit::Set { key, value } => put_set(line, sink, key.bytes(), value.bytes()),
        Edit::Override { place, key, value } => {
            put_override(line, sink, u64::from(*place), key.bytes(), value.bytes())
        }
        Edit::Unset { place, key } => {
            line.put_numbered(sink, b"unset", u64::from(*place), key.bytes())
        }
        Edit::Ini { block } => line.put_words(sink, &[b"ini", block.get().name()]),
    }
}

// Writes a command.
pub(crate) fn put_command<K: Sink>(
    line: &mut LineBuffer,
    sink: &mut K,
    command: &Command<Edit>,
) -> Result<(), SinkStop>
    ensures written { Writes result (K.held sink.old) line.old (K.held sink.new) line.new (spaced (command_words command.now)) }
    ensures faults { Counts result (K.faults sink.old) (K.faults sink.new) }
{
    match command {
        Command::Edit(edit) => put_edit(line, sink, edit),
        Command::Apply => line.put_word(sink, b"apply"),
        Command::Export => line.put_word(sink, b"export"),
        Command::Status => line.put_word(sink, b"status"),
        Command::Cancel => line.put_word(sink, b"cancel"),
        Command::After(session, calls) => {
            line.put_pair(sink, b"after", u64::from(*session), u64::from(*calls))
        }
    }
}
