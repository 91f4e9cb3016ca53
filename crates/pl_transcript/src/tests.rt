//! What is written, row by row.
ghost use Rattle.std.specs.Prelude.{◌≤◌, ◌^◌, length};

use crate::plain::Plain;
use crate::{put_entry, put_transcript, transcripts_are_lines};
use pl_edit::{Block, Edit, EditRefusal, EditReply, ValueText};
use pl_machine::{Actor, Command, Entry, Reply, What};
use pl_options::IniFault;
use pl_ports::{MemorySink, SinkStop, SteadySink};
use pl_stl::StlFault;
use pl_tech::{Problem, Slot, SlotSet, ToyOutput};
use pl_units::{Nm, NoMemory, Shared, Text};
use std::alloc::Global;
use std::sync::Arc;
use std::test::Fail;

// A call of session 2.
fn call(
    alloc: Global,
    command: Command<Edit>,
    reply: Reply<Plain>,
) -> Result<Entry<Plain>, NoMemory> {
    let what = What::Call(Shared::of(Arc::new(alloc, command)?), reply);
    let actor = Actor::Session(2);
    Ok(Entry { actor, what })
}

// The line of an entry, where it is written.
fn line(alloc: Global, n: u64, entry: &Entry<Plain>) -> Result<Text, Fail> {
    let mut sink = SteadySink::new(alloc);
    if put_entry(&mut sink, n, entry).is_err() {
        return Err("stopped".into());
    }
    Ok(Text::copy_of(alloc, sink.held())?)
}

// A block of this name, without bytes.
fn block(alloc: Global, name: &[u8]) -> Result<Shared<Block>, NoMemory> {
    let block = Block::of(Text::copy_of(alloc, name)?, Text::copy_of(alloc, b"")?);
    Ok(Shared::of(Arc::new(alloc, block)?))
}

// A value of these bytes.
fn value(alloc: Global, bytes: &[u8]) -> Result<ValueText, NoMemory>
    requires { length bytes.now ≤ 2 ^ 28 }
{
    Ok(ValueText::of(Text::copy_of(alloc, bytes)?))
}

// The edit of a row.
fn edit(alloc: Global, row: u8) -> Result<Edit, NoMemory> {
    let place = 3;
    let instance = 14;
    let (x, y) = (Nm(-1_234_567), Nm(0));
    Ok(match row {
        0 => Edit::Load {
            name: Text::copy_of(alloc, b"a.b")?,
            block: block(alloc, b"cube")?,
        },
        1 => Edit::Reload {
            place: 255,
            block: block(alloc, b"cube")?,
        },
        2 => Edit::Delete { place },
        3 => Edit::Copy { place, x, y },
        4 => Edit::Move {
            place,
            instance,
            x: Nm(250_000_000),
            y: Nm(-1),
        },
        5 => Edit::Drop { place, instance },
        6 => Edit::Turn { place, quarter: 1 },
        7 => Edit::Set {
            key: Text::copy_of(alloc, b"skirts")?,
            value: value(alloc, b"")?,
        },
        8 => Edit::Override {
            place,
            key: Text::copy_of(alloc, b"brim_width")?,
            value: value(alloc, b"0.5  mm")?,
        },
        9 => Edit::Unset {
            place,
            key: Text::copy_of(alloc, b"brim_width")?,
        },
        _ => Edit::Ini {
            block: block(alloc, b"fine")?,
        },
    })
}

#[test]
fn edits_are_written_as_read(rt: HostRuntime) -> Result<(), Fail> {
    let table: [(u8, &[u8]); 11] = [
        (0, b"1 s2 load a.b cube = ok\n"),
        (1, b"1 s2 reload 255 cube = ok\n"),
        (2, b"1 s2 delete 3 = ok\n"),
        (3, b"1 s2 copy 3 -1.234567 0.000000 = ok\n"),
        (4, b"1 s2 move 3 14 250.000000 -0.000001 = ok\n"),
        (5, b"1 s2 drop 3 14 = ok\n"),
        (6, b"1 s2 turn 3 1 = ok\n"),
        (7, b"1 s2 set skirts = ok\n"),
        (8, b"1 s2 override 3 brim_width 0.5  mm = ok\n"),
        (9, b"1 s2 unset 3 brim_width = ok\n"),
        (10, b"1 s2 ini fine = ok\n"),
    ];
    for (row, text) in &table {
        let command = Command::Edit(edit(rt.alloc(), *row)?);
        let entry = call(rt.alloc(), command, Reply::Edited(EditReply::Done))?;
        assert!(rt; line(rt.alloc(), 1, &entry)?.bytes() == *text, "{row}");
    }
    Ok(())
}

#[test]
fn edits_have_their_replies(rt: HostRuntime) -> Result<(), Fail> {
    let table: [(EditReply, &[u8]); 6] = [
        (EditReply::Object(15), b"9 s2 apply = object 15\n"),
        (EditReply::Instance(7), b"9 s2 apply = instance 7\n"),
        (
            EditReply::Set {
                taken: 2,
                passed: 30,
            },
            b"9 s2 apply = set 2 30\n",
        ),
        (
            EditReply::Refused(EditRefusal::LastInstance),
            b"9 s2 apply = refused LastInstance\n",
        ),
        (
            EditReply::Refused(EditRefusal::BadStl(6, StlFault::Cut)),
            b"9 s2 apply = refused BadStl 6 Cut\n",
        ),
        (
            EditReply::Refused(EditRefusal::BadIni(1, IniFault::NoEquals)),
            b"9 s2 apply = refused BadIni 1 NoEquals\n",
        ),
    ];
    for (reply, text) in &table {
        let entry = call(rt.alloc(), Command::Apply, Reply::Edited(*reply))?;
        assert!(rt; line(rt.alloc(), 9, &entry)?.bytes() == *text);
    }
    Ok(())
}

// The command and the reply of a row.
fn answered(alloc: Global, row: u8) -> Result<Entry<Plain>, NoMemory> {
    let first = SlotSet::empty().with(Slot::of(98));
    let both = first.with(Slot::of(99));
    match row {
        0 => call(alloc, Command::Apply, Reply::Unchanged),
        1 => call(alloc, Command::Apply, Reply::Changed),
        2 => call(alloc, Command::Apply, Reply::Invalidated(both)),
        3 => call(alloc, Command::Cancel, Reply::Cancelled(2)),
        4 => call(
            alloc,
            Command::Status,
            Reply::Modes {
                present: both,
                started: both,
                finished: first,
            },
        ),
        5 => {
            let output = ToyOutput::Text(Text::copy_of(alloc, b"G21\nG90\n")?);
            let output = Shared::of(Arc::new(alloc, output)?);
            call(alloc, Command::Export, Reply::Gcode(output))
        }
        6 => call(
            alloc,
            Command::Export,
            Reply::Refused(Problem::OutOfBed(0, 12)),
        ),
        _ => call(alloc, Command::After(16, 10_000), Reply::Passed),
    }
}

#[test]
fn commands_have_their_replies(rt: HostRuntime) -> Result<(), Fail> {
    let table: [(u8, &[u8]); 8] = [
        (0, b"10 s2 apply = unchanged\n"),
        (1, b"10 s2 apply = changed\n"),
        (2, b"10 s2 apply = invalidated a export\n"),
        (3, b"10 s2 cancel = cancelled 2\n"),
        (4, b"10 s2 status = a=done export=started\n"),
        (5, b"10 s2 export = gcode 8\nG21\nG90\n\n"),
        (6, b"10 s2 export = refused OutOfBed 0 12\n"),
        (7, b"10 s2 after 16 10000 = ok\n"),
    ];
    for (row, text) in &table {
        let entry = answered(rt.alloc(), *row)?;
        assert!(rt; line(rt.alloc(), 10, &entry)?.bytes() == *text, "{row}");
    }
    Ok(())
}

// What a worker and a session did.
fn history(alloc: Global) -> Result<Vec<Entry<Plain>>, NoMemory> {
    let slot = Slot::of(98);
    let worker = Actor::Worker(3);
    let mut journal = Vec::new(alloc);
    journal.push(Entry {
        actor: worker,
        what: What::Start(slot, 0),
    })?;
    journal.push(Entry {
        actor: worker,
        what: What::Finish(slot, 0),
    })?;
    journal.push(Entry {
        actor: Actor::Session(16),
        what: What::Late(Slot::of(99), 4, 5),
    })?;
    journal.push(Entry {
        actor: Actor::Session(16),
        what: What::Bye,
    })?;
    Ok(journal)
}

const HISTORY: &[u8] =
    b"1 w3 start a 0\n2 w3 done a 0\n3 s16 late export 4 5\n4 s16 bye\nend 4 runs 7\n";

#[test]
fn histories_are_written_line_by_line(rt: HostRuntime) -> Result<(), Fail> {
    transcripts_are_lines::<Plain>();
    let journal = history(rt.alloc())?;
    let mut sink = SteadySink::new(rt.alloc());
    assert!(rt; put_transcript(&mut sink, &journal, 7).is_ok());
    assert!(rt; sink.held() == HISTORY);
    let none: [Entry<Plain>; 0] = [];
    let mut sink = SteadySink::new(rt.alloc());
    assert!(rt; put_transcript(&mut sink, &none, 0).is_ok());
    assert!(rt; sink.held() == b"end 0 runs 0\n".as_slice());
    Ok(())
}

#[test]
fn nothing_is_written_after_a_stop(rt: HostRuntime) -> Result<(), Fail> {
    let alloc = rt.alloc();
    let journal = history(alloc)?;
    for failing in 0..15u32 {
        let mut sink = MemorySink::new(alloc, 6, Vec::from_slice(alloc, &[failing])?);
        let stop = put_transcript(&mut sink, &journal, 7);
        assert!(rt; stop == Err(SinkStop::Failed), "{failing}");
        assert!(rt; HISTORY.starts_with(sink.held()), "{failing}");
    }
    Ok(())
}

#[test]
fn a_line_is_one_piece(rt: HostRuntime) -> Result<(), Fail> {
    let alloc = rt.alloc();
    let entry = answered(alloc, 4)?;
    let mut sink = MemorySink::new(alloc, 512, Vec::from_slice(alloc, &[1])?);
    assert!(rt; put_entry(&mut sink, 1, &entry).is_ok());
    Ok(())
}

#[test]
fn a_long_word_is_written_whole(rt: HostRuntime) -> Result<(), Fail> {
    let alloc = rt.alloc();
    let mut key = Text::copy_of(alloc, b"k")?;
    for _ in 0..60 {
        key.append(b"0123456789")?;
    }
    let mut text = Text::copy_of(alloc, b"1 s2 unset 0 ")?;
    text.append(key.bytes())?;
    text.append(b" = refused UnknownKey\n")?;
    let command = Command::Edit(Edit::Unset { place: 0, key });
    let reply = Reply::Edited(EditReply::Refused(EditRefusal::UnknownKey));
    let entry = call(alloc, command, reply)?;
    assert!(rt; line(alloc, 1, &entry)?.bytes() == text.bytes());
    Ok(())
}
