//! The lines of a settings text.
ghost use Rattle.std.specs.Prelude.{◌≡◌, ◌≤◌, ◌^◌, ◌==◌, length, position, IfOk};
ghost use Rattle.pl_units.specs.declared.Refusal.TheVariants as refusals;
ghost use Rattle.pl_keys.specs.Table.{named};
ghost use Rattle.pl_keys.specs.Trim.{trimmed};
ghost use Rattle.pl_options.specs.Lines.{is_passed_over, of_pair, of_trimmed, line_of, Says, IsFit};

use crate::fault::IniFault;
use pl_keys::{Key, Value, ValueStop, key_of, read_value, trim};
use pl_units::Refusal;
use std::alloc::Global;

/// What a line says.
#[derive(Drop)]
pub(crate) enum Line {
    /// The line is empty, a remark or a heading.
    Nothing,
    /// The line has a key that is not in the table.
    Unknown,
    /// The line puts a value, of the right kind and in range.
    Put(Key, Value),
}

// Whether a line is empty, or begins with `#`, `;` or `[`.
fn is_passed_over(line: &[u8]) -> bool
    ensures { result ≡ is_passed_over line.now }
{
    match line {
        [] => true,
        [first, ..] => *first == b'#' || *first == b';' || *first == b'[',
    }
}

// The place of the first `=`.
fn equals_in(line: &[u8]) -> Option<usize>
    ensures { result ≡ position (λ b. b == 61) line.now }
{
    line.iter().position(|b| *b == b'=')
}

// The refusal of the line of a number.
fn refused(number: u32, fault: IniFault) -> Refusal<IniFault>
    ensures { result ≡ refusals.Fault number fault }
{
    Refusal::Fault {
        line: number,
        fault,
    }
}

// What the line of a number says by its key and the text of its value.
fn read_pair(alloc: Global, key: &[u8], text: &[u8], number: u32) -> Result<Line, Refusal<IniFault>>
    requires { length text.now ≤ 2 ^ 28 }
    ensures said { Says number (of_pair (named (trimmed key.now)) text.now) result }
    ensures fits { IfOk result IsFit }
{
    let Some(key) = key_of(trim(key)) else {
        return Ok(Line::Unknown);
    };
    let fault = match read_value(alloc, key, text) {
        Ok(value) => return Ok(Line::Put(key, value)),
        Err(ValueStop::BadValue) => IniFault::BadValue,
        Err(ValueStop::OutOfRange) => IniFault::OutOfRange,
        Err(ValueStop::NoMemory) => return Err(Refusal::NoMemory),
    };
    Err(refused(number, fault))
}

// What the line of a number says, that has no white space at its ends.
fn read_trimmed(alloc: Global, line: &[u8], number: u32) -> Result<Line, Refusal<IniFault>>
    requires { length line.now ≤ 2 ^ 28 }
    ensures said { Says number (of_trimmed line.now) result }
    ensures fits { IfOk result IsFit }
{
    if is_passed_over(line) {
        return Ok(Line::Nothing);
    }
    match equals_in(line) {
        None => Err(refused(number, IniFault::NoEquals)),
        Some(at) => read_pair(alloc, &line[..at], &line[at + 1..], number),
    }
}

/// What the line of a number says.
pub(crate) fn read_line(alloc: Global, text: &[u8], number: u32) -> Result<Line, Refusal<IniFault>>
    requires { length text.now ≤ 2 ^ 28 }
    ensures said { Says number (line_of text.now) result }
    ensures fits { IfOk result IsFit }
{
    read_trimmed(alloc, trim(text), number)
}
