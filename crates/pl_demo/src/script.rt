//! The script of a demo.
ghost use Rattle.std.specs.Prelude.{◌≡◌, ◌≤◌, ◌++◌, IfOk, OnOk};
ghost use Rattle.pl_demo.specs.Lines.{line_of, text_of};
ghost use Rattle.pl_demo.specs.Numbers.{each_of};
ghost use Rattle.pl_demo.specs.Script.{block_text, wait_text, load_words, move_words, set_words, export_lines, session_text, demo_text};

use crate::numbers::{back_of, calls_of, density_of, percent_of, right_of, sessions_of, size_of};
use crate::solid::put_box;
use pl_units::{Digits, NoMemory, Text, append_pieces};
use std::alloc::Global;

// Appends the block of a session.
fn put_block(text: &mut Text, n: u64, i: u64) -> Result<(), NoMemory>
    requires demo { n ≤ 999 }
    requires session { i ≤ 4 }
    ensures { OnOk result (text.new ≡ text.old ++ block_text n i) }
{
    append_pieces(text, &[b"data b", Digits::whole(i).bytes(), b"\n"])?;
    put_box(text, size_of(n, i))?;
    text.append(b".end\n")
}

// Appends the line in which a session waits for the one before it.
fn put_wait(text: &mut Text, i: u64) -> Result<(), NoMemory>
    requires { 1 ≤ i }
    ensures { OnOk result (text.new ≡ text.old ++ wait_text i) }
{
    if i == 1 {
        return Ok(());
    }
    append_pieces(
        text,
        &[
            Digits::whole(i).bytes(),
            b" after ",
            Digits::whole(i - 1).bytes(),
            b" ",
            Digits::whole(calls_of(i - 1)).bytes(),
            b"\n",
        ],
    )
}

// Appends the line in which a session loads its box.
fn put_load(text: &mut Text, session: &[u8]) -> Result<(), NoMemory>
    ensures { OnOk result (text.new ≡ text.old ++ line_of (load_words session.now)) }
{
    append_pieces(text, &[session, b" load o", session, b" b", session, b"\n"])
}

// Appends the line in which a session moves its box.
fn put_move(text: &mut Text, n: u64, i: u64) -> Result<(), NoMemory>
    requires demo { n ≤ 999 }
    requires first { 1 ≤ i }
    requires last { i ≤ 4 }
    ensures { OnOk result (text.new ≡ text.old ++ line_of (move_words n i)) }
{
    append_pieces(
        text,
        &[
            Digits::whole(i).bytes(),
            b" move ",
            Digits::whole(i - 1).bytes(),
            b" 0 ",
            Digits::whole(right_of(i)).bytes(),
            b" ",
            Digits::whole(back_of(n, i)).bytes(),
            b"\n",
        ],
    )
}

// Appends the line in which a session sets how dense the inside is.
fn put_set(text: &mut Text, session: &[u8], density: &[u8]) -> Result<(), NoMemory>
    ensures { OnOk result (text.new ≡ text.old ++ line_of (set_words session.now density.now)) }
{
    append_pieces(text, &[session, b" set fill_density ", density, b"\n"])
}

// Appends the lines in which a session applies and exports.
fn put_export(text: &mut Text, session: &[u8]) -> Result<(), NoMemory>
    ensures { OnOk result (text.new ≡ text.old ++ text_of (export_lines session.now)) }
{
    append_pieces(text, &[session, b" apply\n", session, b" export\n"])
}

// Appends the command lines of a session.
fn put_session(alloc: Global, text: &mut Text, n: u64, i: u64) -> Result<(), NoMemory>
    requires demo { n ≤ 999 }
    requires first { 1 ≤ i }
    requires last { i ≤ 4 }
    ensures { OnOk result (text.new ≡ text.old ++ session_text n i) }
{
    put_wait(text, i)?;
    let session = Digits::whole(i);
    put_load(text, session.bytes())?;
    put_move(text, n, i)?;
    let density = percent_of(alloc, density_of(n, i))?;
    put_set(text, session.bytes(), density.bytes())?;
    put_export(text, session.bytes())
}

// Appends the blocks of all sessions.
fn put_blocks(text: &mut Text, n: u64, sessions: u64) -> Result<(), NoMemory>
    requires demo { n ≤ 999 }
    requires few { sessions ≤ 4 }
    ensures { OnOk result (text.new ≡ text.old ++ each_of (block_text n) sessions) }
{
    for before in 0..sessions {
        put_block(text, n, before + 1)?;
    }
    Ok(())
}

// Appends the command lines of all sessions.
fn put_sessions(alloc: Global, text: &mut Text, n: u64, sessions: u64) -> Result<(), NoMemory>
    requires demo { n ≤ 999 }
    requires few { sessions ≤ 4 }
    ensures { OnOk result (text.new ≡ text.old ++ each_of (session_text n) sessions) }
{
    for before in 0..sessions {
        put_session(alloc, text, n, before + 1)?;
    }
    Ok(())
}

/// The script of demo n, from 0 to 999.
pub fn demo_script(alloc: Global, n: u16) -> Result<Text, NoMemory>
    requires { n ≤ 999 }
    ensures { IfOk result (λ text. text ≡ demo_text n) }
{
    let demo = u64::from(n);
    let sessions = sessions_of(demo);
    let mut text = Text::copy_of(alloc, b"plater 1\nworkers 2\n")?;
    put_blocks(&mut text, demo, sessions)?;
    put_sessions(alloc, &mut text, demo, sessions)?;
    Ok(text)
}
