//! Writing a history.
ghost use Rattle.std.specs.Prelude.{◌≡◌, ◌≤◌, ◌++◌, ◌∷◌, [], codes, OnOk, length, Err};
ghost use Rattle.std.specs.Fmt.{decimal};
ghost use Rattle.std.specs.Io.KnownBytes.{Appends};
ghost use Rattle.pl_ports.specs.Causes.{Rose, AppendsFront};
ghost use Rattle.pl_transcript.specs.Words.{spaced};
ghost use Rattle.pl_transcript.specs.Commands.{command_words};
ghost use Rattle.pl_transcript.specs.Replies.{reply_words};
ghost use Rattle.pl_transcript.specs.Entries.{actor_word, what_words, entry_text, end_text, transcript};
ghost use Rattle.pl_transcript.specs.Growth.{Writes, Counts};

use crate::commands::put_command;
use crate::line::LineBuffer;
use crate::replies::put_reply;
use crate::slots::{put_late, put_step};
use pl_edit::{Edit, EditReply};
use pl_machine::{Actor, Command, Entry, Reply, What};
use pl_ports::{Sink, SinkStop};
use pl_tech::Technology;
use pl_units::Digits;

// Writes a text and the number after it.
fn put_digits<K: Sink>(
    line: &mut LineBuffer,
    sink: &mut K,
    before: &[u8],
    number: u64,
) -> Result<(), SinkStop>
    ensures written { Writes result (K.held sink.old) line.old (K.held sink.new) line.new (before.now ++ decimal number) }
    ensures faults { Counts result (K.faults sink.old) (K.faults sink.new) }
{
    line.put(sink, before)?;
    line.put(sink, Digits::whole(number).bytes())
}

// Writes an actor.
fn put_actor<K: Sink>(line: &mut LineBuffer, sink: &mut K, actor: Actor) -> Result<(), SinkStop>
    ensures written { Writes result (K.held sink.old) line.old (K.held sink.new) line.new (32 ∷ actor_word actor) }
    ensures faults { Counts result (K.faults sink.old) (K.faults sink.new) }
{
    match actor {
        Actor::Session(i) => put_digits(line, sink, b" s", u64::from(i)),
        Actor::Worker(k) => put_digits(line, sink, b" w", u64::from(k)),
    }
}

// Writes a reply, after its sign.
fn put_answer<T: Technology<Edit = Edit, Reply = EditReply>, K: Sink>(
    line: &mut LineBuffer,
    sink: &mut K,
    reply: &Reply<T>,
) -> Result<(), SinkStop>
    ensures written { Writes result (K.held sink.old) line.old (K.held sink.new) line.new (spaced (codes "=" ∷ reply_words T.meaning reply.now)) }
    ensures faults { Counts result (K.faults sink.old) (K.faults sink.new) }
{
    line.put_word(sink, b"=")?;
    put_reply(line, sink, reply)
}

// Writes a command and its reply.
fn put_call<T: Technology<Edit = Edit, Reply = EditReply>, K: Sink>(
    line: &mut LineBuffer,
    sink: &mut K,
    command: &Command<Edit>,
    reply: &Reply<T>,
) -> Result<(), SinkStop>
    ensures written { Writes result (K.held sink.old) line.old (K.held sink.new) line.new (spaced (command_words command.now ++ codes "=" ∷ reply_words T.meaning reply.now)) }
    ensures faults { Counts result (K.faults sink.old) (K.faults sink.new) }
{
    put_command(line, sink, command)?;
    put_answer(line, sink, reply)
}

// Writes what an actor did.
fn put_what<T: Technology<Edit = Edit, Reply = EditReply>, K: Sink>(
    line: &mut LineBuffer,
    sink: &mut K,
    what: &What<T>,
) -> Result<(), SinkStop>
    ensures written { Writes result (K.held sink.old) line.old (K.held sink.new) line.new (spaced (what_words T.meaning what.now)) }
    ensures faults { Counts result (K.faults sink.old) (K.faults sink.new) }
{
    match what {
        What::Call(command, reply) => put_call(line, sink, command.get(), reply),
        What::Start(slot, epoch) => put_step::<T, K>(line, sink, b"start", *slot, *epoch),
        What::Finish(slot, epoch) => put_step::<T, K>(line, sink, b"done", *slot, *epoch),
        What::Late(slot, since, now) => put_late::<T, K>(line, sink, *slot, *since, *now),
        What::Bye => line.put_word(sink, b"bye"),
    }
}

// Writes the number and the actor of entry n.
fn put_head<K: Sink>(
    line: &mut LineBuffer,
    sink: &mut K,
    n: u64,
    actor: Actor,
) -> Result<(), SinkStop>
    ensures written { Writes result (K.held sink.old) line.old (K.held sink.new) line.new (decimal n ++ 32 ∷ actor_word actor) }
    ensures faults { Counts result (K.faults sink.old) (K.faults sink.new) }
{
    line.put(sink, Digits::whole(n).bytes())?;
    put_actor(line, sink, actor)
}

// Writes what an actor did, and the line end.
fn put_tail<T: Technology<Edit = Edit, Reply = EditReply>, K: Sink>(
    line: &mut LineBuffer,
    sink: &mut K,
    what: &What<T>,
) -> Result<(), SinkStop>
    ensures written { Writes result (K.held sink.old) line.old (K.held sink.new) line.new (spaced (what_words T.meaning what.now) ++ 10 ∷ []) }
    ensures faults { Counts result (K.faults sink.old) (K.faults sink.new) }
{
    put_what(line, sink, what)?;
    line.put(sink, b"\n")
}

// Writes the line of entry n.
fn put_line<T: Technology<Edit = Edit, Reply = EditReply>, K: Sink>(
    line: &mut LineBuffer,
    sink: &mut K,
    n: u64,
    entry: &Entry<T>,
) -> Result<(), SinkStop>
    ensures written { Writes result (K.held sink.old) line.old (K.held sink.new) line.new (entry_text T.meaning n entry.now) }
    ensures faults { Counts result (K.faults sink.old) (K.faults sink.new) }
{
    put_head(line, sink, n, entry.actor)?;
    put_tail(line, sink, &entry.what)
}

/// Appends the line of entry n of a history. It takes no memory of its own, and gives the sink a line in pieces of at most
/// 512 bytes, a longer word or G-code as a piece of its own. After a stop of the sink a front of the line was appended, and
/// nothing more is written.
pub fn put_entry<T: Technology<Edit = Edit, Reply = EditReply>, K: Sink>(
    sink: &mut K,
    n: u64,
    entry: &Entry<T>,
) -> Result<(), SinkStop>
    ensures all { OnOk result (Appends (K.held sink.old) (K.held sink.new) (entry_text T.meaning n entry.now)) }
    ensures front { AppendsFront (K.held sink.old) (K.held sink.new) (entry_text T.meaning n entry.now) }
    ensures failed { result ≡ Err SinkStop.Failed → Rose (K.faults sink.old) (K.faults sink.new) }
    ensures no_fault { OnOk result (K.faults sink.new ≡ K.faults sink.old) }
    ensures later { K.faults sink.old ≤ K.faults sink.new }
{
    let mut line = LineBuffer::new();
    put_line(&mut line, sink, n, entry)?;
    line.flush(sink)
}

// Writes the numbers of the last line.
fn put_totals<K: Sink>(
    line: &mut LineBuffer,
    sink: &mut K,
    entries: u64,
    runs: u64,
) -> Result<(), SinkStop>
    ensures written { Writes result (K.held sink.old) line.old (K.held sink.new) line.new (spaced (decimal entries ∷ codes "runs" ∷ decimal runs ∷ [])) }
    ensures faults { Counts result (K.faults sink.old) (K.faults sink.new) }
{
    line.put_words(
        sink,
        &[
            Digits::whole(entries).bytes(),
            b"runs",
            Digits::whole(runs).bytes(),
        ],
    )
}

// Writes the words of the last line.
fn put_ending<K: Sink>(
    line: &mut LineBuffer,
    sink: &mut K,
    entries: u64,
    runs: u64,
) -> Result<(), SinkStop>
    ensures written { Writes result (K.held sink.old) line.old (K.held sink.new) line.new (codes "end" ++ spaced (decimal entries ∷ codes "runs" ∷ decimal runs ∷ [])) }
    ensures faults { Counts result (K.faults sink.old) (K.faults sink.new) }
{
    line.put(sink, b"end")?;
    put_totals(line, sink, entries, runs)
}

// Writes the last line.
fn put_last<K: Sink>(
    line: &mut LineBuffer,
    sink: &mut K,
    entries: u64,
    runs: u64,
) -> Result<(), SinkStop>
    ensures written { Writes result (K.held sink.old) line.old (K.held sink.new) line.new (end_text entries runs) }
    ensures faults { Counts result (K.faults sink.old) (K.faults sink.new) }
{
    put_ending(line, sink, entries, runs)?;
    line.put(sink, b"\n")
}

// Appends the last line.
fn put_end<K: Sink>(sink: &mut K, entries: u64, runs: u64) -> Result<(), SinkStop>
    ensures all { OnOk result (Appends (K.held sink.old) (K.held sink.new) (end_text entries runs)) }
    ensures front { AppendsFront (K.held sink.old) (K.held sink.new) (end_text entries runs) }
    ensures failed { result ≡ Err SinkStop.Failed → Rose (K.faults sink.old) (K.faults sink.new) }
    ensures no_fault { OnOk result (K.faults sink.new ≡ K.faults sink.old) }
    ensures later { K.faults sink.old ≤ K.faults sink.new }
{
    let mut line = LineBuffer::new();
    put_last(&mut line, sink, entries, runs)?;
    line.flush(sink)
}

/// Appends the transcript of a history, with a number of runs. It takes no memory of its own, and gives the sink each line
/// as `put_entry` does. After a stop of the sink a front of the transcript was appended, and nothing more is written.
pub fn put_transcript<T: Technology<Edit = Edit, Reply = EditReply>, K: Sink>(
    sink: &mut K,
    journal: &[Entry<T>],
    runs: u64,
) -> Result<(), SinkStop>
    ensures all { OnOk result (Appends (K.held sink.old) (K.held sink.new) (transcript T.meaning journal.now runs)) }
    ensures front { AppendsFront (K.held sink.old) (K.held sink.new) (transcript T.meaning journal.now runs) }
    ensures failed { result ≡ Err SinkStop.Failed → Rose (K.faults sink.old) (K.faults sink.new) }
    ensures no_fault { OnOk result (K.faults sink.new ≡ K.faults sink.old) }
    ensures later { K.faults sink.old ≤ K.faults sink.new }
{
    for (i, entry) in journal.iter().enumerate() {
        put_entry(sink, i as u64 + 1, entry)?;
    }
    put_end(sink, journal.len() as u64, runs)
}
