// Reads a command line.
ghost use Rattle.std.specs.Prelude.{◌≡◌, ℕ, ◌+◌, ◌<◌, ◌≤◌, ◌^◌, List, [], ◌∷◌, length, IfOk, IfErr, IfSome, IfNone, OnOk, Some, None};
ghost use Rattle.std.specs.Option.{option_map, option_and_then, ok_or};
ghost use Rattle.pl_script.specs.declared.fault.ScriptFault.TheVariants as faults;
ghost use Rattle.pl_script.specs.Lines.{words_of, after_word};
ghost use Rattle.pl_script.specs.Forms.{session_of};
ghost use Rattle.pl_script.specs.Orders.{one_of, two_of, three_of, four_of, first_of, first_two_of, alone, delete_in, copy_in, move_in, drop_in, turn_in, set_in, override_in, unset_in, block_of, load_in, reload_in, ini_in, after_in, order_in, order_of};
ghost use Rattle.pl_script.specs.Script.{command_of};
ghost use Rattle.pl_script.specs.Reading.{Answers};

use crate::fault::{LineStop, ScriptFault};
use crate::forms::is_name;
use crate::numbers::{byte_of, is_whole, nm_of, session_of, small_of, whole_of};
use crate::script::{Blocks, Line, SharedCommand};
use crate::verb::{Verb, verb_of};
use crate::words::{
    first_two_words, four_words, next_word, one_word, three_words, trimmed, two_words,
};
use pl_edit::{Block, Edit, ValueText};
use pl_machine::Command;
use pl_units::{Shared, Text};
use std::alloc::Global;
use std::sync::Arc;

// The most commands of a script.
const MOST_COMMANDS: usize = 10_000;

// The order of a text that takes no words.
fn alone(order: Command<Edit>, text: &[u8]) -> Option<Command<Edit>>
    ensures { result ≡ alone order (words_of text.now) }
{
    match next_word(text) {
        None => Some(order),
        Some(_) => None,
    }
}

// The order of `delete P`.
fn delete_in(text: &[u8]) -> Option<Command<Edit>>
    ensures { result ≡ delete_in (words_of text.now) }
{
    let place = byte_of(one_word(text)?)?;
    Some(Command::Edit(Edit::Delete { place }))
}

// The order of `copy P X Y`.
fn copy_in(text: &[u8]) -> Option<Command<Edit>>
    requires { length text.now ≤ 2 ^ 28 }
    ensures { result ≡ copy_in (words_of text.now) }
{
    let (place, x, y) = three_words(text)?;
    let place = byte_of(place)?;
    let x = nm_of(x)?;
    let y = nm_of(y)?;
    Some(Command::Edit(Edit::Copy { place, x, y }))
}

// The order of `move P I X Y`.
fn move_in(text: &[u8]) -> Option<Command<Edit>>
    requires { length text.now ≤ 2 ^ 28 }
    ensures { result ≡ move_in (words_of text.now) }
{
    let (place, instance, x, y) = four_words(text)?;
    let place = byte_of(place)?;
    let instance = byte_of(instance)?;
    let x = nm_of(x)?;
    let y = nm_of(y)?;
    Some(Command::Edit(Edit::Move {
        place,
        instance,
        x,
        y,
    }))
}

// The order of `drop P I`.
fn drop_in(text: &[u8]) -> Option<Command<Edit>>
    ensures { result ≡ drop_in (words_of text.now) }
{
    let (place, instance) = two_words(text)?;
    let place = byte_of(place)?;
    let instance = byte_of(instance)?;
    Some(Command::Edit(Edit::Drop { place, instance }))
}

// The order of `turn P Q`.
fn turn_in(text: &[u8]) -> Option<Command<Edit>>
    ensures { result ≡ turn_in (words_of text.now) }
{
    let (place, quarter) = two_words(text)?;
    let place = byte_of(place)?;
    let quarter = small_of(3, quarter)?;
    Some(Command::Edit(Edit::Turn { place, quarter }))
}

// The order of `set KEY VALUE`.
fn set_in(alloc: Global, text: &[u8]) -> Result<Command<Edit>, LineStop>
    requires { length text.now ≤ 2 ^ 28 }
    ensures { Answers result (ok_or (set_in (words_of text.now) text.now) faults.BadLine) }
{
    let Some((key, rest)) = next_word(text) else {
        return Err(LineStop::Fault(ScriptFault::BadLine));
    };
    let key = Text::copy_of(alloc, key)?;
    let value = ValueText::of(Text::copy_of(alloc, trimmed(rest))?);
    Ok(Command::Edit(Edit::Set { key, value }))
}

// The order of `override P KEY VALUE`.
fn override_in(alloc: Global, text: &[u8]) -> Result<Command<Edit>, LineStop>
    requires { length text.now ≤ 2 ^ 28 }
    ensures { Answers result (ok_or (override_in (words_of text.now) text.now) faults.BadLine) }
{
    let Some((place, key, rest)) = first_two_words(text) else {
        return Err(LineStop::Fault(ScriptFault::BadLine));
    };
    let Some(place) = byte_of(place) else {
        return Err(LineStop::Fault(ScriptFault::BadLine));
    };
    let key = Text::copy_of(alloc, key)?;
    let value = ValueText::of(Text::copy_of(alloc, trimmed(rest))?);
    Ok(Command::Edit(Edit::Override { place, key, value }))
}

// The order of `unset P KEY`.
fn unset_in(alloc: Global, text: &[u8]) -> Result<Command<Edit>, LineStop>
    ensures { Answers result (ok_or (unset_in (words_of text.now)) faults.BadLine) }
{
    let Some((place, key)) = two_words(text) else {
        return Err(LineStop::Fault(ScriptFault::BadLine));
    };
    let Some(place) = byte_of(place) else {
        return Err(LineStop::Fault(ScriptFault::BadLine));
    };
    let key = Text::copy_of(alloc, key)?;
    Ok(Command::Edit(Edit::Unset { place, key }))
}

// The block that a word names.
fn block_of(blocks: &Blocks, name: &[u8]) -> Result<Shared<Block>, LineStop>
    ensures { Answers result (block_of blocks.now name.now) }
{
    if !is_name(name) {
        return Err(LineStop::Fault(ScriptFault::BadLine));
    }
    let Some(block) = blocks.named(name) else {
        return Err(LineStop::Fault(ScriptFault::NoData));
    };
    Ok(block.copied()?)
}

// The order of `load NAME BLOCK`.
fn load_in(alloc: Global, blocks: &Blocks, text: &[u8]) -> Result<Command<Edit>, LineStop>
    ensures { Answers result (load_in blocks.now (words_of text.now)) }
{
    let Some((name, block)) = two_words(text) else {
        return Err(LineStop::Fault(ScriptFault::BadLine));
    };
    if !is_name(name) {
        return Err(LineStop::Fault(ScriptFault::BadLine));
    }
    let block = block_of(blocks, block)?;
    let name = Text::copy_of(alloc, name)?;
    Ok(Command::Edit(Edit::Load { name, block }))
}

// The order of `reload P BLOCK`.
fn reload_in(blocks: &Blocks, text: &[u8]) -> Result<Command<Edit>, LineStop>
    ensures { Answers result (reload_in blocks.now (words_of text.now)) }
{
    let Some((place, block)) = two_words(text) else {
        return Err(LineStop::Fault(ScriptFault::BadLine));
    };
    let Some(place) = byte_of(place) else {
        return Err(LineStop::Fault(ScriptFault::BadLine));
    };
    let block = block_of(blocks, block)?;
    Ok(Command::Edit(Edit::Reload { place, block }))
}

// The order of `ini BLOCK`.
fn ini_in(blocks: &Blocks, text: &[u8]) -> Result<Command<Edit>, LineStop>
    ensures { Answers result (ini_in blocks.now (words_of text.now)) }
{
    let Some(block) = one_word(text) else {
        return Err(LineStop::Fault(ScriptFault::BadLine));
    };
    let block = block_of(blocks, block)?;
    Ok(Command::Edit(Edit::Ini { block }))
}

// The order of `after S N`.
fn after_in(text: &[u8]) -> Result<Command<Edit>, LineStop>
    ensures { Answers result (after_in (words_of text.now)) }
{
    let Some((session, calls)) = two_words(text) else {
        return Err(LineStop::Fault(ScriptFault::BadLine));
    };
    let Some(calls) = whole_of(10_000, calls) else {
        return Err(LineStop::Fault(ScriptFault::BadLine));
    };
    if !is_whole(session) {
        return Err(LineStop::Fault(ScriptFault::BadLine));
    }
    match session_of(session) {
        Some(session) => Ok(Command::After(session, calls)),
        None => Err(LineStop::Fault(ScriptFault::BadSession)),
    }
}

// An order that was read, or a bad line.
fn formed(order: Option<Command<Edit>>) -> Result<Command<Edit>, LineStop>
    ensures { Answers result (ok_or order faults.BadLine) }
{
    order.ok_or(LineStop::Fault(ScriptFault::BadLine))
}

// The order of a command, by the text after it.
fn order_in(
    alloc: Global,
    blocks: &Blocks,
    verb: Verb,
    text: &[u8],
) -> Result<Command<Edit>, LineStop>
    requires { length text.now ≤ 2 ^ 28 }
    ensures { Answers result (order_in blocks.now verb (words_of text.now) text.now) }
{
    match verb {
        Verb::Load => load_in(alloc, blocks, text),
        Verb::Reload => reload_in(blocks, text),
        Verb::Delete => formed(delete_in(text)),
        Verb::Copy => formed(copy_in(text)),
        Verb::Move => formed(move_in(text)),
        Verb::Drop => formed(drop_in(text)),
        Verb::Turn => formed(turn_in(text)),
        Verb::Set => set_in(alloc, text),
        Verb::Override => override_in(alloc, text),
        Verb::Unset => unset_in(alloc, text),
        Verb::Ini => ini_in(blocks, text),
        Verb::Apply => formed(alone(Command::Apply, text)),
        Verb::Export => formed(alone(Command::Export, text)),
        Verb::Status => formed(alone(Command::Status, text)),
        Verb::Cancel => formed(alone(Command::Cancel, text)),
        Verb::After => after_in(text),
    }
}

// The order of the text after a session.
fn order_of(alloc: Global, blocks: &Blocks, text: &[u8]) -> Result<Command<Edit>, LineStop>
    requires { length text.now ≤ 2 ^ 28 }
    ensures { Answers result (order_of blocks.now (words_of text.now) text.now) }
{
    let Some((word, rest)) = next_word(text) else {
        return Err(LineStop::Fault(ScriptFault::UnknownCommand));
    };
    match verb_of(word) {
        Some(verb) => order_in(alloc, blocks, verb, rest),
        None => Err(LineStop::Fault(ScriptFault::UnknownCommand)),
    }
}

// The command line of a number, after so many others and after these blocks.
pub(crate) fn command_of(
    alloc: Global,
    blocks: &Blocks,
    before: usize,
    number: u32,
    text: &[u8],
) -> Result<Line, LineStop>
    requires { length text.now ≤ 2 ^ 28 }
    ensures { Answers result (command_of blocks.now before number text.now) }
{
    let Some((word, rest)) = next_word(text) else {
        return Err(LineStop::Fault(ScriptFault::BadSession));
    };
    let Some(session) = session_of(word) else {
        return Err(LineStop::Fault(ScriptFault::BadSession));
    };
    let command = order_of(alloc, blocks, rest)?;
    if before >= MOST_COMMANDS {
        return Err(LineStop::Fault(ScriptFault::TooMany));
    }
    let Ok(command) = Arc::new(alloc, command) else {
        return Err(LineStop::NoMemory);
    };
    Ok(Line {
        number,
        session,
        command: SharedCommand::of(command),
    })
}
