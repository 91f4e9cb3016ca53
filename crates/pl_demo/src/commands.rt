//! The commands of a demo, as values.
ghost use Rattle.std.specs.Prelude.{◌≡◌, ◌≤◌, ◌-◌, ℕ, [], ◌∷◌, ◌++◌, map, All, length, IfOk, OnOk, codes};
ghost use Rattle.std.specs.Arc.{arc_value};
ghost use Rattle.std.specs.Fmt.{decimal};
ghost use Rattle.pl_edit.specs.declared.edit.Edit.TheVariants as edit;
ghost use Rattle.pl_relay.specs.Relay.{IsRelay};
ghost use Rattle.pl_relay.specs.Exports.{EndsInExport};
ghost use Rattle.pl_runs.specs.Script.{IsCallable, commands_at};
ghost use Rattle.pl_demo.specs.Numbers as numbers;
ghost use Rattle.pl_demo.specs.Box.{box_text};
ghost use Rattle.pl_demo.specs.Script.{percent_of};
ghost use Rattle.pl_demo.specs.Commands.{mm_of, block_of, wait_commands, session_commands, demo_commands};

use crate::numbers::{back_of, calls_of, density_of, percent_of, right_of, sessions_of, size_of};
use crate::solid::{Size, put_box};
use pl_edit::{Block, Edit, ValueText};
use pl_machine::Command;
use pl_units::{Digits, Nm, NoMemory, Shared, Text};
use std::alloc::Global;
use std::sync::Arc;

// A letter and a number.
fn numbered(alloc: Global, letter: &[u8], i: u64) -> Result<Text, NoMemory>
    ensures { IfOk result (λ text. text ≡ letter.now ++ decimal i) }
{
    let mut text = Text::copy_of(alloc, letter)?;
    text.append(Digits::whole(i).bytes())?;
    Ok(text)
}

// The text of a box.
fn box_in(alloc: Global, size: Size) -> Result<Text, NoMemory>
    ensures { IfOk result (λ text. text ≡ box_text size) }
{
    let mut text = Text::copy_of(alloc, b"")?;
    put_box(&mut text, size)?;
    Ok(text)
}

// The block of a session.
fn block_in(alloc: Global, n: u64, i: u64) -> Result<Shared<Block>, NoMemory>
    requires demo { n ≤ 999 }
    requires session { i ≤ 4 }
    ensures { IfOk result (λ block. block ≡ block_of n i) }
{
    let name = numbered(alloc, b"b", i)?;
    let text = box_in(alloc, size_of(n, i))?;
    Ok(Shared::of(Arc::new(alloc, Block::of(name, text))?))
}

// The edit that loads the box of a session.
fn load_in(alloc: Global, n: u64, i: u64) -> Result<Edit, NoMemory>
    requires demo { n ≤ 999 }
    requires session { i ≤ 4 }
    ensures { IfOk result (λ made. made ≡ edit.Load (codes "o" ++ decimal i) (block_of n i)) }
{
    let name = numbered(alloc, b"o", i)?;
    let block = block_in(alloc, n, i)?;
    Ok(Edit::Load { name, block })
}

// A length in whole millimetres.
fn mm(k: u64) -> Nm
    requires { k ≤ 1000 }
    ensures { result ≡ mm_of k }
{
    Nm((k * 1_000_000) as i64)
}

// The edit that moves the box of a session.
fn move_of(n: u64, i: u64) -> Edit
    requires demo { n ≤ 999 }
    requires first { 1 ≤ i }
    requires last { i ≤ 4 }
    ensures { result ≡ edit.Move (i - 1) 0 (mm_of (numbers.right_of i)) (mm_of (numbers.back_of n i)) }
{
    Edit::Move {
        place: (i - 1) as u8,
        instance: 0,
        x: mm(right_of(i)),
        y: mm(back_of(n, i)),
    }
}

// The edit that sets how dense the inside is.
fn set_in(alloc: Global, n: u64, i: u64) -> Result<Edit, NoMemory>
    requires demo { n ≤ 999 }
    requires session { i ≤ 4 }
    ensures { IfOk result (λ made. made ≡ edit.Set (codes "fill_density") (percent_of (numbers.density_of n i))) }
{
    let key = Text::copy_of(alloc, b"fill_density")?;
    let value = percent_of(alloc, density_of(n, i))?;
    Ok(Edit::Set {
        key,
        value: ValueText::of(value),
    })
}

// Puts one command more at the end.
fn push(
    alloc: Global,
    commands: &mut Vec<Arc<Command<Edit>>>,
    command: Command<Edit>,
) -> Result<(), NoMemory>
    ensures { OnOk result (map arc_value commands.new.items ≡ map arc_value commands.old.items ++ command ∷ []) }
{
    commands.push(Arc::new(alloc, command)?)?;
    Ok(())
}

// Puts the wait for the session before at the end.
fn push_wait(alloc: Global, commands: &mut Vec<Arc<Command<Edit>>>, i: u64) -> Result<(), NoMemory>
    requires first { 1 ≤ i }
    requires last { i ≤ 4 }
    ensures { OnOk result (map arc_value commands.new.items ≡ map arc_value commands.old.items ++ wait_commands i) }
{
    if i == 1 {
        return Ok(());
    }
    push(
        alloc,
        commands,
        Command::After((i - 1) as u8, calls_of(i - 1) as u32),
    )
}

// The commands of a session.
fn session_in(alloc: Global, n: u64, i: u64) -> Result<Vec<Arc<Command<Edit>>>, NoMemory>
    requires demo { n ≤ 999 }
    requires first { 1 ≤ i }
    requires last { i ≤ 4 }
    ensures { IfOk result (λ made. map arc_value made.items ≡ session_commands n i) }
{
    let mut made = Vec::new(alloc);
    push_wait(alloc, &mut made, i)?;
    push(alloc, &mut made, Command::Edit(load_in(alloc, n, i)?))?;
    push(alloc, &mut made, Command::Edit(move_of(n, i)))?;
    push(alloc, &mut made, Command::Edit(set_in(alloc, n, i)?))?;
    push(alloc, &mut made, Command::Apply)?;
    push(alloc, &mut made, Command::Export)?;
    Ok(made)
}

// The commands of all sessions.
fn sessions_in(alloc: Global, n: u64) -> Result<Vec<Vec<Arc<Command<Edit>>>>, NoMemory>
    requires { n ≤ 999 }
    ensures { IfOk result (λ sessions. map (λ own. map arc_value own.items) sessions.items ≡ demo_commands n) }
{
    let mut sessions = Vec::new(alloc);
    for before in 0..sessions_of(n) {
        sessions.push(session_in(alloc, n, before + 1)?)?;
    }
    Ok(sessions)
}

/// The commands of each session of demo n, from 0 to 999: those that its script has. There are at most four sessions, and each of
/// their commands may be called.
pub fn demo_sessions(alloc: Global, n: u16) -> Result<Vec<Vec<Arc<Command<Edit>>>>, NoMemory>
    requires { n ≤ 999 }
    ensures value { IfOk result (λ sessions. map (λ own. map arc_value own.items) sessions.items ≡ demo_commands n) }
    ensures few { IfOk result (λ sessions. length sessions.items ≤ 4) }
    ensures callable { IfOk result (λ sessions. All IsCallable (map (λ own. map arc_value own.items) sessions.items)) }
{
    let sessions = sessions_in(alloc, u64::from(n))?;
    Ok(sessions)
}

/// A law: the sessions of a demo run one after another, and each has one export, as its last command.
pub fn demos_are_relays()
    ensures relay { (n : ℕ) → IsRelay (commands_at (demo_commands n)) (numbers.sessions_of n) }
    ensures exports { (n i : ℕ) → 1 ≤ i → i ≤ numbers.sessions_of n → EndsInExport (commands_at (demo_commands n) i) }
{}
