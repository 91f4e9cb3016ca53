//! The tools of a height.
ghost use Rattle.std.specs.Prelude.{◌≡◌, ◌≢◌, ◌<◌, ◌-ℤ◌, length, true, false};
ghost use Rattle.pl_units.specs.Writes.{Writes};
ghost use Rattle.pl_gcode.specs.Gcode.{gap, skirt_text, brim_text, around_first, tool_line, change_before, changes_at, counted, turn_text, tools_text, tool_before};
ghost use Rattle.pl_gcode.specs.IsPrint.{IsPrint, IsTrack};

use crate::object::put_objects;
use crate::parts::Parts;
use crate::path::{put_loops, put_strokes};
use crate::settings::Settings;
use pl_grid::Corner;
use pl_units::{Digits, Nm, NoMemory, Text, append_pieces};

// The corner that moves nothing.
static ORIGIN: Corner = Corner { x: 0, y: 0 };

// Where the tools of a height stand: the current tool, how many changes came before, and whether a tool is the first.
#[derive(Clone, Copy)]
struct Turn {
    current: u8,
    changes: u8,
    first: bool,
}

impl Turn {
    // After one more tool.
    fn after(&self, tool: u8) -> Turn
        requires { self.now.changes < 255 }
        ensures { result ≡ record { current = tool; changes = counted self.now.current self.now.changes tool; first = false } }
    {
        let changes = if tool == self.current {
            self.changes
        } else {
            self.changes + 1
        };
        Turn {
            current: tool,
            changes,
            first: false,
        }
    }
}

// The tool before a height.
fn tool_before<P: Parts>(parts: &P, i: u32) -> u8
    requires print { IsPrint (P.print parts.now) }
    requires height { i < length (P.print parts.now).heights }
    ensures { result ≡ tool_before (P.print parts.now) i }
{
    if i == 0 {
        return 0;
    }
    let tools = parts.tools(i - 1);
    tools[tools.len() - 1]
}

// From one height up to another.
fn rise(from: &Nm, to: &Nm) -> Nm
    requires { IsTrack (record { 0 = to.now.0 -ℤ from.now.0 }) }
    ensures { result ≡ record { 0 = to.now.0 -ℤ from.now.0 } }
{
    Nm(to.0 - from.0)
}

// From the height before, or from the bed, up to a height.
fn gap<P: Parts>(parts: &P, i: u32) -> Nm
    requires print { IsPrint (P.print parts.now) }
    requires height { i < length (P.print parts.now).heights }
    ensures { result ≡ gap (P.print parts.now) i }
{
    let heights = parts.heights();
    let at = i as usize;
    if at == 0 {
        return heights[0];
    }
    rise(&heights[at - 1], &heights[at])
}

// Appends the number of a tool that is changed to.
fn put_number(out: &mut Text, tool: u8) -> Result<(), NoMemory>
    ensures { Writes out.old out.new result (tool_line tool) }
{
    let number = Digits::whole(u64::from(tool));
    append_pieces(out, &[b"T", number.bytes(), b"\n"])
}

// Appends a change to a tool at a height, where it is not the current one.
fn put_change<P: Parts>(
    out: &mut Text,
    parts: &P,
    settings: &Settings,
    i: u32,
    turn: &Turn,
    tool: u8,
) -> Result<(), NoMemory>
    requires print { IsPrint (P.print parts.now) }
    requires settings { settings.now ≡ (P.print parts.now).settings }
    requires height { i < length (P.print parts.now).heights }
    requires change { tool ≢ turn.now.current → turn.now.changes < changes_at (P.print parts.now) i }
    ensures { Writes out.old out.new result (change_before (P.print parts.now) i turn.now.current turn.now.changes tool) }
{
    if tool == turn.current {
        return Ok(());
    }
    let pace = settings.infill_pace(&gap(parts, i));
    put_number(out, tool)?;
    put_strokes(out, settings, &pace, &ORIGIN, parts.block(i, turn.changes))
}

// Appends the skirt, at a height that has it.
fn put_skirt<P: Parts>(
    out: &mut Text,
    parts: &P,
    settings: &Settings,
    i: u32,
) -> Result<(), NoMemory>
    requires print { IsPrint (P.print parts.now) }
    requires settings { settings.now ≡ (P.print parts.now).settings }
    requires height { i < length (P.print parts.now).heights }
    ensures { Writes out.old out.new result (skirt_text (P.print parts.now) i) }
{
    if i >= settings.skirt_height() {
        return Ok(());
    }
    let pace = settings.perimeter_pace(&gap(parts, i));
    put_loops(out, settings, &pace, &ORIGIN, parts.skirt())
}

// Appends the brim, at the first height.
fn put_brim<P: Parts>(
    out: &mut Text,
    parts: &P,
    settings: &Settings,
    i: u32,
) -> Result<(), NoMemory>
    requires print { IsPrint (P.print parts.now) }
    requires settings { settings.now ≡ (P.print parts.now).settings }
    requires height { i < length (P.print parts.now).heights }
    ensures { Writes out.old out.new result (brim_text (P.print parts.now) i) }
{
    if i != 0 {
        return Ok(());
    }
    let pace = settings.perimeter_pace(&gap(parts, i));
    put_loops(out, settings, &pace, &ORIGIN, parts.brim())
}

// Appends skirt and brim of a height, before its first tool.
fn put_around<P: Parts>(
    out: &mut Text,
    parts: &P,
    settings: &Settings,
    i: u32,
    first: bool,
) -> Result<(), NoMemory>
    requires print { IsPrint (P.print parts.now) }
    requires settings { settings.now ≡ (P.print parts.now).settings }
    requires height { i < length (P.print parts.now).heights }
    ensures { Writes out.old out.new result (around_first (P.print parts.now) i first) }
{
    if !first {
        return Ok(());
    }
    put_skirt(out, parts, settings, i)?;
    put_brim(out, parts, settings, i)
}

// Appends one tool of a height.
fn put_turn<P: Parts>(
    out: &mut Text,
    parts: &P,
    settings: &Settings,
    i: u32,
    turn: &Turn,
    tool: u8,
) -> Result<(), NoMemory>
    requires print { IsPrint (P.print parts.now) }
    requires settings { settings.now ≡ (P.print parts.now).settings }
    requires height { i < length (P.print parts.now).heights }
    requires change { tool ≢ turn.now.current → turn.now.changes < changes_at (P.print parts.now) i }
    ensures { Writes out.old out.new result (turn_text (P.print parts.now) i turn.now.current turn.now.changes turn.now.first tool) }
{
    put_change(out, parts, settings, i, turn, tool)?;
    put_around(out, parts, settings, i, turn.first)?;
    put_objects(out, parts, settings, i, tool)
}

/// Appends the tools of a height, with all that they print there.
pub(crate) fn put_tools<P: Parts>(
    out: &mut Text,
    parts: &P,
    settings: &Settings,
    i: u32,
) -> Result<(), NoMemory>
    requires print { IsPrint (P.print parts.now) }
    requires settings { settings.now ≡ (P.print parts.now).settings }
    requires height { i < length (P.print parts.now).heights }
    ensures { Writes out.old out.new result (tools_text (P.print parts.now) i (tool_before (P.print parts.now) i) 0 true ((P.print parts.now).tools i)) }
{
    let mut turn = Turn {
        current: tool_before(parts, i),
        changes: 0,
        first: true,
    };
    for tool in parts.tools(i) {
        put_turn(out, parts, settings, i, &turn, *tool)?;
        turn = turn.after(*tool);
    }
    Ok(())
}
