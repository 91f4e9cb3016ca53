// Reads a script.
ghost use Rattle.std.specs.Prelude.{◌≡◌, ◌⊎◌, ◌+◌, ◌≤◌, ◌^◌, ℕ, List, [], ◌∷◌, ◌++◌, length, IfOk, IfErr, IfSome, MatchResult, OnOk, OnSome, Ok, Err, None, true};
ghost use Rattle.pl_units.specs.declared.Refusal.TheVariants as refusals;
ghost use Rattle.pl_edit.specs.Data.{Data};
ghost use Rattle.std.specs.Option.{option_map};
ghost use Rattle.pl_script.specs.Outcomes.{and_then, mapped};
ghost use Rattle.pl_script.specs.declared.fault.ScriptFault.{ScriptFault as Fault};
ghost use Rattle.pl_script.specs.Lines.{lines_of, words_of, line_words};
ghost use Rattle.pl_script.specs.Orders.{block_named};
ghost use Rattle.pl_script.specs.Grammar.{IsScriptText, IsFirstBreach};
ghost use Rattle.pl_script.specs.Script.{Script as Said, at, beginning_in, script_in, script_of, after_head, at_workers, body_in, commands_in, with_workers, workers_in, is_head, is_data, data_name, block_after, block_in, body_of, with_ends, is_block_end};
ghost use Rattle.pl_script.specs.Forms.{is_name};
ghost use Rattle.pl_script.specs.Kept.{HaveBlocks};
ghost use Rattle.pl_script.specs.Reading.{lines_left, size_left, number_left, HasRoom, IsAfterBlock, IsTaken, IsOther, Answers, Stops, Refuses, Gives};

use crate::fault::{LineStop, ScriptFault};
use crate::forms::is_name;
use crate::line::command_of;
use crate::lines::LinesLeft;
use crate::numbers::small_of;
use crate::script::{Blocks, Line, Lines, Script};
use crate::stuck::stuck_line;
use crate::words::{is_passed_over, line_text, next_word, one_word, two_words};
use pl_edit::Block;
use pl_units::{NoMemory, Refusal, Shared, Text};
use std::alloc::Global;
use std::sync::Arc;

/// The script of a text of at most 2^28 bytes: the head `plater 1`; perhaps a line `workers N`; blocks, each a line
/// `data NAME`, its lines and a line `.end`; command lines `S COMMAND`, at most 10,000. Empty lines and those that begin with
/// `#` are passed over outside blocks. A text that is none is refused at its first breach, with the breach's line counted
/// from 1; after all lines it is refused as `Stuck` where its sessions wait for one another for ever.
pub fn read_script(alloc: Global, bytes: &[u8]) -> Result<Script, Refusal<ScriptFault>>
    requires { length bytes.now ≤ 2 ^ 28 }
    ensures script { IfOk result (IsScriptText (lines_of bytes.now)) }
    // The lines of a script are read, and no other script than theirs is given, unless memory runs out.
    ensures taken { (script : Said) → IsScriptText (lines_of bytes.now) script → MatchResult result (λ read. read ≡ script) (λ e. e ≡ refusals.NoMemory) }
    ensures refused { (line : ℕ) (fault : Fault) → result ≡ Err (refusals.Fault line fault) → IsFirstBreach (lines_of bytes.now) line fault }
    // The first breach of a text is named, unless memory runs out before it.
    ensures named { (line : ℕ) (fault : Fault) → IsFirstBreach (lines_of bytes.now) line fault → MatchResult result (λ _. ⊥) (λ e. (e ≡ refusals.Fault line fault) ⊎ (e ≡ refusals.NoMemory)) }
    // The call answers what the text says, unless memory runs out.
    ensures reading { Gives result (script_of bytes.now) }
{
    read_whole(alloc, LinesLeft::of(bytes))
}

// The script of all lines of a text, unless it is stuck.
fn read_whole(alloc: Global, lines: LinesLeft<'_>) -> Result<Script, Refusal<ScriptFault>>
    requires first { number_left lines ≡ 1 }
    requires size { size_left lines ≤ 2 ^ 28 + 1 }
    ensures { Gives result (script_in (lines_left lines.entry)) }
{
    let script = read_lines(alloc, lines)?;
    match stuck_line(script.lines()) {
        None => Ok(script),
        Some(line) => Err(Refusal::Fault {
            line,
            fault: ScriptFault::Stuck,
        }),
    }
}

// The script of all lines of a text, before it is looked whether its sessions wait for one another.
fn read_lines(alloc: Global, mut lines: LinesLeft<'_>) -> Result<Script, Refusal<ScriptFault>>
    requires first { number_left lines ≡ 1 }
    requires size { size_left lines ≤ 2 ^ 28 + 1 }
    ensures { Gives result (beginning_in (lines_left lines.entry)) }
{
    match lines.next() {
        Some(head) if is_head(line_text(head)) => after_head(alloc, lines),
        _ => Err(Refusal::Fault {
            line: 1,
            fault: ScriptFault::NoHead,
        }),
    }
}

/// Whether a line without its end is the head, `plater 1`.
pub fn is_head(text: &[u8]) -> bool
    ensures { result ≡ is_head (words_of text.now) }
{
    match two_words(text) {
        Some((word, version)) => word == b"plater".as_slice() && version == b"1".as_slice(),
        None => false,
    }
}

// The script whose lines after the head these are.
fn after_head(alloc: Global, mut lines: LinesLeft<'_>) -> Result<Script, Refusal<ScriptFault>>
    requires { HasRoom lines }
    ensures { Gives result (after_head (number_left lines.entry) (lines_left lines.entry)) }
{
    let mut here = lines;
    while let Some(line) = lines.next() {
        if !is_passed_over(line) {
            return at_workers(alloc, line, here, lines);
        }
        here = lines;
    }
    body_in(alloc, 0, lines)
}

// The number of workers in a line, or that it is another line.
fn workers_in(line: &[u8]) -> Result<Option<u8>, ScriptFault>
    ensures workers { result ≡ workers_in (line_words line.now) }
    ensures few { IfOk result (λ found. IfSome found (λ workers. workers ≤ 8)) }
{
    let Some((word, rest)) = next_word(line_text(line)) else {
        return Ok(None);
    };
    if word != b"workers".as_slice() {
        return Ok(None);
    }
    let Some(number) = one_word(rest) else {
        return Err(ScriptFault::BadLine);
    };
    let Some(workers) = small_of(8, number) else {
        return Err(ScriptFault::BadLine);
    };
    Ok(Some(workers))
}

// The script from a line on that is not passed over: here, with the lines after it.
fn at_workers(
    alloc: Global,
    line: &[u8],
    here: LinesLeft<'_>,
    lines: LinesLeft<'_>,
) -> Result<Script, Refusal<ScriptFault>>
    requires here { HasRoom here }
    requires room { HasRoom lines }
    requires line { lines_left here ≡ line.now ∷ lines_left lines }
    requires number { number_left lines ≡ number_left here + 1 }
    ensures { Gives result (and_then (at (number_left here.entry) (workers_in (line_words line.now)))
        (λ found. at_workers found (number_left here.entry) line.now (lines_left lines.entry))) }
{
    match workers_in(line) {
        Ok(Some(workers)) => body_in(alloc, workers, lines),
        Ok(None) => body_in(alloc, 0, here),
        Err(fault) => Err(Refusal::Fault {
            line: here.number(),
            fault,
        }),
    }
}

// The script of so many workers whose blocks and commands these lines are.
fn body_in(
    alloc: Global,
    workers: u8,
    mut lines: LinesLeft<'_>,
) -> Result<Script, Refusal<ScriptFault>>
    requires few { workers ≤ 8 }
    requires room { HasRoom lines }
    ensures { Gives result (with_workers workers (body_in 0 (number_left lines.entry) [] (lines_left lines.entry))) }
{
    let mut blocks = Blocks::none(alloc);
    let mut here = lines;
    while let Some(line) = lines.next() {
        let taken = block_line(alloc, &mut blocks, line, here.number(), &mut lines)?;
        if !taken {
            return with_commands(alloc, workers, blocks, here);
        }
        here = lines;
    }
    with_commands(alloc, workers, blocks, here)
}

// Passes over a line, or takes the block that it begins; not so where the line does neither. The lines are those after it.
fn block_line(
    alloc: Global,
    blocks: &mut Blocks,
    line: &[u8],
    number: u32,
    lines: &mut LinesLeft<'_>,
) -> Result<bool, Refusal<ScriptFault>>
    requires room { HasRoom lines.old }
    requires number { number_left lines.old ≡ number + 1 }
    ensures taken { IfOk result (λ taken. IsTaken taken (body_in 0 number blocks.old (line.now ∷ lines_left lines.old)) (body_in 0 (number_left lines.new) blocks.new (lines_left lines.new))) }
    ensures other { IfOk result (λ taken. IsOther taken (body_in 0 number blocks.old (line.now ∷ lines_left lines.old))
        (mapped (λ found. (blocks.new, found)) (commands_in blocks.new 0 number (line.now ∷ lines_left lines.old)))) }
    ensures refused { IfErr result (λ e. Refuses e (body_in 0 number blocks.old (line.now ∷ lines_left lines.old))) }
    ensures room { OnOk result (HasRoom lines.new) }
    ensures size { size_left lines.new ≤ size_left lines.old }
{
    if is_passed_over(line) {
        return Ok(true);
    }
    if !is_data(line) {
        return Ok(false);
    }
    match take_block(alloc, blocks, line, lines) {
        Ok(()) => Ok(true),
        Err(stop) => Err(stop.at(number)),
    }
}

// Puts the block of a data line, whose lines come next, after the others.
fn take_block(
    alloc: Global,
    blocks: &mut Blocks,
    line: &[u8],
    lines: &mut LinesLeft<'_>,
) -> Result<(), LineStop>
    requires { HasRoom lines.old }
    ensures taken { OnOk result ((block : Data) × (block_in blocks.old (line_words line.now) (lines_left lines.old) ≡ Ok block) × (blocks.new ≡ blocks.old ++ block ∷ [])) }
    ensures refused { IfErr result (λ stop. Stops stop (block_in blocks.old (line_words line.now) (lines_left lines.old))) }
    ensures rest { OnOk result (IsAfterBlock lines.old lines.new) }
    ensures size { size_left lines.new ≤ size_left lines.old }
{
    let block = block_in(alloc, blocks, line, lines)?;
    blocks.add(block)?;
    Ok(())
}

/// Whether a line is a data line: whether its first word is `data`.
pub fn is_data(line: &[u8]) -> bool
    ensures { result ≡ is_data (line_words line.now) }
{
    match next_word(line_text(line)) {
        Some((word, _)) => word == b"data".as_slice(),
        None => false,
    }
}

/// The name in a data line. `BadLine` exactly where the line has not two words, or the second is no name: 1 to 64 bytes, each
/// an ASCII letter, a digit, `_`, `-` or `.`.
pub fn data_name(line: &[u8]) -> Result<&[u8], ScriptFault>
    ensures { mapped (λ name. name.now) result ≡ data_name (line_words line.now) }
{
    match two_words(line_text(line)) {
        Some((_, name)) if is_name(name) => Ok(name),
        _ => Err(ScriptFault::BadLine),
    }
}

// The block of a data line whose lines come next, after these blocks.
fn block_in(
    alloc: Global,
    blocks: &Blocks,
    line: &[u8],
    lines: &mut LinesLeft<'_>,
) -> Result<Shared<Block>, LineStop>
    requires { HasRoom lines.old }
    ensures block { Answers result (block_in blocks.now (line_words line.now) (lines_left lines.old)) }
    ensures fresh { IfOk result (λ block. block_named blocks.now block.name ≡ None) }
    ensures named { IfOk result (λ block. is_name block.name ≡ true) }
    ensures rest { OnOk result (IsAfterBlock lines.old lines.new) }
    ensures size { size_left lines.new ≤ size_left lines.old }
{
    let name = match data_name(line) {
        Ok(name) => name,
        Err(fault) => return Err(LineStop::Fault(fault)),
    };
    if blocks.named(name).is_some() {
        return Err(LineStop::Fault(ScriptFault::SameData));
    }
    block_after(alloc, name, lines)
}

/// The block of a name whose lines come next, up to a line `.end`, which is taken too. `CutData` exactly where no such line
/// comes; then no line is left.
pub fn block_after(
    alloc: Global,
    name: &[u8],
    lines: &mut LinesLeft<'_>,
) -> Result<Shared<Block>, LineStop>
    requires { HasRoom lines.old }
    ensures block { Answers result (block_after (lines_left lines.old) name.now) }
    ensures named { IfOk result (λ block. block.name ≡ name.now) }
    ensures short { IfOk result (λ block. length block.bytes ≤ 2 ^ 28) }
    ensures rest { OnOk result (IsAfterBlock lines.old lines.new) }
    ensures size { size_left lines.new ≤ size_left lines.old }
{
    let Some(bytes) = body_of(alloc, lines)? else {
        return Err(LineStop::Fault(ScriptFault::CutData));
    };
    let name = Text::copy_of(alloc, name)?;
    match Arc::new(alloc, Block::read(alloc, name, bytes)) {
        Ok(block) => Ok(Shared::of(block)),
        Err(_) => Err(LineStop::NoMemory),
    }
}

// The bytes of the lines up to the next line `.end`, if such a line comes.
fn body_of(alloc: Global, lines: &mut LinesLeft<'_>) -> Result<Option<Text>, NoMemory>
    requires { HasRoom lines.old }
    ensures body { IfOk result (λ found. found ≡ option_map (λ body. with_ends body) (body_of (lines_left lines.old))) }
    ensures rest { IfOk result (λ found. OnSome found (IsAfterBlock lines.old lines.new)) }
    ensures short { IfOk result (λ found. IfSome found (λ bytes. length bytes ≤ 2 ^ 28)) }
    ensures size { size_left lines.new ≤ size_left lines.old }
{
    let mut bytes = Text::copy_of(alloc, &[])?;
    while let Some(line) = lines.next() {
        if is_block_end(line) {
            return Ok(Some(bytes));
        }
        bytes.append(line)?;
        bytes.append(b"\n")?;
    }
    Ok(None)
}

// Whether a line is `.end`, perhaps with one byte 13.
fn is_block_end(line: &[u8]) -> bool
    ensures { result ≡ is_block_end line.now }
{
    line_text(line) == b".end".as_slice()
}

// The script of so many workers and of these blocks whose command lines these are.
fn with_commands(
    alloc: Global,
    workers: u8,
    blocks: Blocks,
    lines: LinesLeft<'_>,
) -> Result<Script, Refusal<ScriptFault>>
    requires few { workers ≤ 8 }
    requires room { HasRoom lines }
    ensures { Gives result (with_workers workers (mapped (λ found. (blocks, found)) (commands_in blocks 0 (number_left lines.entry) (lines_left lines.entry)))) }
{
    let lines = commands_in(alloc, &blocks, lines)?;
    Ok(Script::of(workers, blocks, lines))
}

// The command lines in these lines.
fn commands_in(
    alloc: Global,
    blocks: &Blocks,
    mut lines: LinesLeft<'_>,
) -> Result<Lines, Refusal<ScriptFault>>
    requires { HasRoom lines }
    ensures lines { Gives result (commands_in blocks.now 0 (number_left lines.entry) (lines_left lines.entry)) }
    ensures blocks { IfOk result (λ lines. HaveBlocks blocks.now lines) }
{
    let mut found = Vec::new(alloc);
    let mut number = lines.number();
    while let Some(line) = lines.next() {
        take_line(alloc, blocks, &mut found, line, number)?;
        number = lines.number();
    }
    Ok(Lines::of(found))
}

// Passes over a line, or puts its command after the others.
fn take_line(
    alloc: Global,
    blocks: &Blocks,
    found: &mut Vec<Line>,
    line: &[u8],
    number: u32,
) -> Result<(), Refusal<ScriptFault>>
    requires short { length line.now ≤ 2 ^ 28 }
    ensures ok { OnOk result ((rest : List (List ℕ)) →
        mapped (λ more. found.old.items ++ more) (commands_in blocks.now (length found.old.items) number (line.now ∷ rest))
        ≡ mapped (λ more. found.new.items ++ more) (commands_in blocks.now (length found.new.items) (number + 1) rest)) }
    ensures err { IfErr result (λ e. (rest : List (List ℕ)) → Refuses e (commands_in blocks.now (length found.old.items) number (line.now ∷ rest))) }
{
    if is_passed_over(line) {
        return Ok(());
    }
    match command_of(alloc, blocks, found.len(), number, line_text(line)) {
        Ok(line) => add_line(found, line),
        Err(stop) => Err(stop.at(number)),
    }
}

// Puts a command line after the others.
fn add_line(found: &mut Vec<Line>, line: Line) -> Result<(), Refusal<ScriptFault>>
    ensures ok { OnOk result (found.new.items ≡ found.old.items ++ line ∷ []) }
    ensures err { IfErr result (λ e. e ≡ refusals.NoMemory) }
{
    match found.push(line) {
        Ok(()) => Ok(()),
        Err(_) => Err(Refusal::NoMemory),
    }
}
