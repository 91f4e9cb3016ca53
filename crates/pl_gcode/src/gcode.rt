//! The head, the heights and the tail.
ghost use Rattle.std.specs.Prelude.{◌≡◌, ◌<◌, ◌∷◌, [], length, if◌then◌else◌};
ghost use Rattle.pl_units.specs.Writes.{Writes};
ghost use Rattle.pl_gcode.specs.Gcode.{ends_line, own_text, opening_lines, head_text, rise_text, temperatures_text, height_text, tail_text};

use crate::parts::Parts;
use crate::settings::Settings;
use crate::tools::put_tools;
use pl_units::{Digits, Nm, NoMemory, Text, append_pieces, to_micro};

// Whether a text is empty or ends with a line end.
fn ends_line(text: &[u8]) -> bool
    ensures { result ≡ ends_line text.now }
{
    match text {
        [] => true,
        [.., last] => *last == b'\n',
    }
}

// The line end that a text lacks.
fn line_end(text: &[u8]) -> &'static [u8]
    ensures { result.now ≡ (if ends_line text.now then [] else 10 ∷ []) }
{
    if ends_line(text) { b"" } else { b"\n" }
}

// Appends bytes.
fn put_bytes(out: &mut Text, bytes: &[u8]) -> Result<(), NoMemory>
    ensures { Writes out.old out.new result bytes.now }
{
    out.append(bytes)
}

// Appends a text of the user's own.
fn put_own(out: &mut Text, text: &[u8]) -> Result<(), NoMemory>
    ensures { Writes out.old out.new result (own_text text.now) }
{
    put_bytes(out, text)?;
    put_bytes(out, line_end(text))
}

// Appends the lines before the start text.
fn put_opening(out: &mut Text, settings: &Settings) -> Result<(), NoMemory>
    ensures { Writes out.old out.new result (opening_lines settings.now) }
{
    let bed = settings.first_bed();
    let nozzle = settings.first_nozzle();
    append_pieces(
        out,
        &[
            b"; headless plater\nG21\nG90\nM83\nM140 S",
            bed.bytes(),
            b"\nM104 S",
            nozzle.bytes(),
            b"\nM190 S",
            bed.bytes(),
            b"\nM109 S",
            nozzle.bytes(),
            b"\n",
        ],
    )
}

// Appends the remark of a height, and the move up to it.
fn put_rise(out: &mut Text, settings: &Settings, height: &Nm) -> Result<(), NoMemory>
    ensures { Writes out.old out.new result (rise_text settings.now height.now) }
{
    let z = Digits::fixed(to_micro(*height), 3);
    let travel = settings.travel_feed();
    append_pieces(
        out,
        &[
            b";Z ",
            z.bytes(),
            b"\nG1 Z",
            z.bytes(),
            b" F",
            travel.bytes(),
            b"\n",
        ],
    )
}

// Appends at the second height the temperatures of the other layers.
fn put_temperatures(out: &mut Text, settings: &Settings, i: u32) -> Result<(), NoMemory>
    ensures { Writes out.old out.new result (temperatures_text settings.now i) }
{
    if i != 1 {
        return Ok(());
    }
    let bed = settings.bed();
    let nozzle = settings.nozzle();
    append_pieces(
        out,
        &[b"M140 S", bed.bytes(), b"\nM104 S", nozzle.bytes(), b"\n"],
    )
}

/// Appends what stands before the first height. After want of memory a front of it was appended.
pub fn put_head<P: Parts>(out: &mut Text, parts: &P) -> Result<(), NoMemory>
    ensures { Writes out.old out.new result (head_text (P.print parts.now).settings) }
{
    let settings = Settings::of(parts.config());
    put_opening(out, &settings)?;
    put_own(out, settings.start_gcode())
}

/// Appends a height. After want of memory a front of it was appended.
pub fn put_height<P: Parts>(out: &mut Text, parts: &P, i: u32) -> Result<(), NoMemory>
    requires { i < length (P.print parts.now).heights }
    ensures { Writes out.old out.new result (height_text (P.print parts.now) i) }
{
    let settings = Settings::of(parts.config());
    put_rise(out, &settings, &parts.heights()[i as usize])?;
    put_temperatures(out, &settings, i)?;
    put_tools(out, parts, &settings, i)
}

/// Appends what stands behind the last height. After want of memory a front of it was appended.
pub fn put_tail<P: Parts>(out: &mut Text, parts: &P) -> Result<(), NoMemory>
    ensures { Writes out.old out.new result (tail_text (P.print parts.now).settings) }
{
    let settings = Settings::of(parts.config());
    put_own(out, settings.end_gcode())?;
    put_bytes(out, b"M104 S0\nM140 S0\n")
}
