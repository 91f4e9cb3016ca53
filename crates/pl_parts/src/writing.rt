//! The G-code of a print.
ghost use Rattle.std.specs.Prelude.{◌≡◌, IfOk};
ghost use Rattle.pl_gcode.specs.Gcode.{gcode_of};
ghost use Rattle.pl_parts.specs.Parts.{print_from};

use crate::parts::PrintParts;
use pl_gcode::{put_head, put_height, put_tail};
use pl_units::{NoMemory, Text};
use std::alloc::Global;

/// The G-code of a print: the head, the heights and the tail. Refused only for want of memory.
pub fn gcode(alloc: Global, parts: &PrintParts) -> Result<Text, NoMemory>
    ensures { IfOk result (λ text. text ≡ gcode_of (print_from parts.now)) }
{
    let mut text = Text::copy_of(alloc, b"")?;
    put_head(&mut text, parts)?;
    for i in 0..parts.height_count() {
        put_height(&mut text, parts, i)?;
    }
    put_tail(&mut text, parts)?;
    Ok(text)
}
