//! The summary of a demo, from its history.
ghost use Rattle.std.specs.Prelude.{◌≡◌, ◌≤◌, ◌++◌, IfOk, OnOk, Option, None};
ghost use Rattle.std.specs.Option.{option_map};
ghost use Rattle.pl_relay.specs.Exports.{export_in, exports_of, is_export};
ghost use Rattle.pl_session.specs.Complete.{is_session};
ghost use Rattle.pl_demo.specs.Lines.{rest_of, line_of};
ghost use Rattle.pl_demo.specs.Numbers.{each_of};
ghost use Rattle.pl_demo.specs.Summary.{told_words, session_line, summary_by, reply_length, first_length};

use crate::numbers::{calls_of, sessions_of};
use pl_edit::Edit;
use pl_machine::{Actor, Command, Entry, Reply, What};
use pl_tech::Technology;
use pl_units::{Digits, NoMemory, Text, append_pieces};
use std::alloc::Global;

// Whether a command asks for the G-code.
fn is_export(command: &Command<Edit>) -> bool
    ensures { result ≡ is_export command.now }
{
    matches!(command, Command::Export)
}

// How long the G-code is that a reply gives.
fn reply_length<T: Technology<Edit = Edit>>(reply: &Reply<T>) -> Option<usize>
    ensures { result ≡ reply_length T.meaning reply.now }
{
    match reply {
        Reply::Gcode(output) => Some(T::bytes(output.get()).len()),
        _ => None,
    }
}

// What the export of a step came to, where it is one.
fn export_length<T: Technology<Edit = Edit>>(what: &What<T>) -> Option<Option<usize>>
    ensures { result ≡ option_map (reply_length T.meaning) (export_in what.now) }
{
    match what {
        What::Call(command, reply) => {
            if is_export(command.get()) {
                Some(reply_length(reply))
            } else {
                None
            }
        }
        _ => None,
    }
}

// Whether an actor is this session.
fn is_session(session: u8, actor: Actor) -> bool
    ensures { result ≡ is_session session actor }
{
    match actor {
        Actor::Session(i) => session == i,
        Actor::Worker(_) => false,
    }
}

// How long the G-code of a session's first export is.
fn first_length<T: Technology<Edit = Edit>>(journal: &[Entry<T>], session: u8) -> Option<usize>
    ensures { result ≡ first_length T.meaning (exports_of session journal.now) }
{
    for entry in journal {
        if !is_session(session, entry.actor) {
            continue;
        }
        if let Some(told) = export_length(&entry.what) {
            return told;
        }
    }
    None
}

// Appends what is told of an export, after the words before it, and the line end.
fn put_told(text: &mut Text, told: Option<usize>) -> Result<(), NoMemory>
    ensures { OnOk result (text.new ≡ text.old ++ rest_of (told_words told)) }
{
    match told {
        Some(bytes) => append_pieces(
            text,
            &[b" gcode ", Digits::whole(bytes as u64).bytes(), b"\n"],
        ),
        None => text.append(b" refused\n"),
    }
}

// Appends the line of a session.
fn put_session(text: &mut Text, i: u64, told: Option<usize>) -> Result<(), NoMemory>
    ensures { OnOk result (text.new ≡ text.old ++ session_line i told) }
{
    append_pieces(
        text,
        &[
            b"session ",
            Digits::whole(i).bytes(),
            b" calls ",
            Digits::whole(calls_of(i)).bytes(),
        ],
    )?;
    put_told(text, told)
}

// Appends the lines of all sessions.
fn put_sessions<T: Technology<Edit = Edit>>(
    text: &mut Text,
    journal: &[Entry<T>],
    sessions: u64,
) -> Result<(), NoMemory>
    requires few { sessions ≤ 4 }
    ensures { OnOk result (text.new ≡ text.old ++ each_of (λ i. session_line i (first_length T.meaning (exports_of i journal.now))) sessions) }
{
    for before in 0..sessions {
        let told = first_length(journal, (before + 1) as u8);
        put_session(text, before + 1, told)?;
    }
    Ok(())
}

// The summary of demo n, whose history this is.
pub(crate) fn summary_of<T: Technology<Edit = Edit>>(
    alloc: Global,
    n: u16,
    journal: &[Entry<T>],
) -> Result<Text, NoMemory>
    ensures { IfOk result (λ text. text ≡ summary_by n (λ i. first_length T.meaning (exports_of i journal.now))) }
{
    let mut text = Text::copy_of(alloc, b"demo ")?;
    append_pieces(&mut text, &[Digits::whole(u64::from(n)).bytes(), b"\n"])?;
    put_sessions(&mut text, journal, sessions_of(u64::from(n)))?;
    text.append(b"ok\n")?;
    Ok(text)
}
