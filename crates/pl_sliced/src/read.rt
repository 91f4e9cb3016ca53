//! Reads the blocks of a text for slicing.
ghost use Rattle.std.specs.Prelude.{◌≡◌, ◌+◌, ◌≤◌, ◌^◌, ◌∷◌, Ok, IfOk, IfErr, OnOk, length};
ghost use Rattle.pl_script.specs.Lines.{line_words};
ghost use Rattle.pl_script.specs.Reading.{lines_left, size_left, number_left, HasRoom, IsAfterBlock, Stops, Refuses, Gives};
ghost use Rattle.pl_sliced.specs.Text.{nothing, with_line, blocks_in, slice_text_of};
ghost use Rattle.pl_sliced.specs.Reading.{AreParts, HasParts, IsSameEnd};

use crate::text::{Found, Kind, Part, SliceText};
use pl_script::{
    LineStop, LinesLeft, ScriptFault, block_after, data_name, is_data, is_head, is_passed_over,
    line_text,
};
use pl_units::Refusal;
use std::alloc::Global;

/// The settings and the mesh of a text of at most 2^28 bytes.
pub(crate) fn read_text(alloc: Global, bytes: &[u8]) -> Result<SliceText, Refusal<ScriptFault>>
    requires { length bytes.now ≤ 2 ^ 28 }
    ensures text { Gives result (slice_text_of bytes.now) }
    ensures parts { IfOk result HasParts }
{
    let mut lines = LinesLeft::of(bytes);
    match lines.next() {
        Some(head) if is_head(line_text(head)) => {}
        _ => {
            return Err(Refusal::Fault {
                line: 1,
                fault: ScriptFault::NoHead,
            });
        }
    }
    let Found { settings, mesh } = blocks_in(alloc, &mut lines)?;
    match mesh {
        Some(mesh) => Ok(SliceText { settings, mesh }),
        None => Err(Refusal::Fault {
            line: lines.number() - 1,
            fault: ScriptFault::NoData,
        }),
    }
}

// All blocks in these lines, which are read to their end.
fn blocks_in(alloc: Global, lines: &mut LinesLeft<'_>) -> Result<Found, Refusal<ScriptFault>>
    requires { HasRoom lines.old }
    ensures found { Gives result (blocks_in 0 (number_left lines.old) nothing (lines_left lines.old)) }
    ensures parts { IfOk result AreParts }
    ensures end { OnOk result (number_left lines.new ≡ number_left lines.old + length (lines_left lines.old)) }
{
    let mut found = Found::nothing();
    let mut number = lines.number();
    while let Some(line) = lines.next() {
        take_line(alloc, &mut found, line, number, lines)?;
        number = lines.number();
    }
    Ok(found)
}

// Passes over a line, or takes the block that it begins. The lines are those after it.
fn take_line(
    alloc: Global,
    found: &mut Found,
    line: &[u8],
    number: u32,
    lines: &mut LinesLeft<'_>,
) -> Result<(), Refusal<ScriptFault>>
    requires room { HasRoom lines.old }
    requires number { number_left lines.old ≡ number + 1 }
    requires parts { AreParts found.old }
    ensures taken { OnOk result (blocks_in 0 number found.old (line.now ∷ lines_left lines.old) ≡ blocks_in 0 (number_left lines.new) found.new (lines_left lines.new)) }
    ensures refused { IfErr result (λ e. Refuses e (blocks_in 0 number found.old (line.now ∷ lines_left lines.old))) }
    ensures parts { OnOk result (AreParts found.new) }
    ensures room { OnOk result (HasRoom lines.new) }
    ensures end { OnOk result (IsSameEnd lines.old lines.new) }
    ensures size { size_left lines.new ≤ size_left lines.old }
{
    if is_passed_over(line) {
        return Ok(());
    }
    match take_block(alloc, found, line, number, lines) {
        Ok(()) => Ok(()),
        Err(stop) => Err(stop.at(number)),
    }
}

// Takes the block that a line begins. The lines are those after it.
fn take_block(
    alloc: Global,
    found: &mut Found,
    line: &[u8],
    number: u32,
    lines: &mut LinesLeft<'_>,
) -> Result<(), LineStop>
    requires room { HasRoom lines.old }
    requires number { number ≤ 2 ^ 28 + 2 }
    requires parts { AreParts found.old }
    ensures taken { OnOk result (with_line found.old number (line_words line.now) (lines_left lines.old) ≡ Ok found.new) }
    ensures refused { IfErr result (λ stop. Stops stop (with_line found.old number (line_words line.now) (lines_left lines.old))) }
    ensures parts { OnOk result (AreParts found.new) }
    ensures rest { OnOk result (IsAfterBlock lines.old lines.new) }
    ensures size { size_left lines.new ≤ size_left lines.old }
{
    if !is_data(line) {
        return Err(LineStop::Fault(ScriptFault::BadLine));
    }
    let name = match data_name(line) {
        Ok(name) => name,
        Err(fault) => return Err(LineStop::Fault(fault)),
    };
    let Some(kind) = Kind::of(name) else {
        return Err(LineStop::Fault(ScriptFault::BadLine));
    };
    if found.has(kind) {
        return Err(LineStop::Fault(ScriptFault::SameData));
    }
    let block = block_after(alloc, name, lines)?;
    found.put(
        kind,
        Part {
            line: number,
            block,
        },
    );
    Ok(())
}
