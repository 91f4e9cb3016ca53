//! What the objects have at a height.
ghost use Rattle.std.specs.Prelude.{◌≡◌, ◌<◌, length, Contains, Some};
ghost use Rattle.std.specs.List.{flat_map, enumerate_from};
ghost use Rattle.pl_units.specs.Writes.{Writes};
ghost use Rattle.pl_gcode.specs.Gcode.{layer_text, name_line, instance_text, object_text, place_text, tool_text};
ghost use Rattle.pl_gcode.specs.IsPrint.{IsPrint};

use crate::pace::Pace;
use crate::parts::Parts;
use crate::path::{put_loops, put_strokes};
use crate::settings::Settings;
use pl_grid::Corner;
use pl_units::{Digits, NoMemory, Text, append_pieces};

// Appends what an object prints at a layer, moved to an instance.
fn put_layer<P: Parts>(
    out: &mut Text,
    parts: &P,
    settings: &Settings,
    place: u8,
    k: u32,
    by: &Corner,
) -> Result<(), NoMemory>
    requires print { IsPrint (P.print parts.now) }
    requires settings { settings.now ≡ (P.print parts.now).settings }
    requires place { Contains (P.print parts.now).places place }
    requires layer { k < (P.print parts.now).layers place }
    ensures { Writes out.old out.new result (layer_text (P.print parts.now) place k by.now) }
{
    let height = parts.layer_height(place, k);
    let perimeter = settings.perimeter_pace(&height);
    let infill = settings.infill_pace(&height);
    let ironing = settings.ironing_pace(&height);
    put_loops(out, settings, &perimeter, by, parts.loops(place, k))?;
    put_strokes(out, settings, &infill, by, parts.infill(place, k))?;
    put_strokes(out, settings, &ironing, by, parts.ironing(place, k))?;
    put_strokes(out, settings, &infill, by, parts.support(place, k))
}

// Appends the remark before an instance.
fn put_name(out: &mut Text, place: u8, number: u64) -> Result<(), NoMemory>
    ensures { Writes out.old out.new result (name_line place number) }
{
    let place = Digits::whole(u64::from(place));
    let number = Digits::whole(number);
    append_pieces(
        out,
        &[b";OBJECT ", place.bytes(), b" ", number.bytes(), b"\n"],
    )
}

// Appends an instance of an object at a layer.
fn put_instance<P: Parts>(
    out: &mut Text,
    parts: &P,
    settings: &Settings,
    place: u8,
    k: u32,
    number: u64,
    by: &Corner,
) -> Result<(), NoMemory>
    requires print { IsPrint (P.print parts.now) }
    requires settings { settings.now ≡ (P.print parts.now).settings }
    requires place { Contains (P.print parts.now).places place }
    requires layer { k < (P.print parts.now).layers place }
    ensures { Writes out.old out.new result (instance_text (P.print parts.now) place k (number, by.now)) }
{
    put_name(out, place, number)?;
    put_layer(out, parts, settings, place, k, by)
}

// Appends all instances of an object at a layer.
fn put_instances<P: Parts>(
    out: &mut Text,
    parts: &P,
    settings: &Settings,
    place: u8,
    k: u32,
) -> Result<(), NoMemory>
    requires print { IsPrint (P.print parts.now) }
    requires settings { settings.now ≡ (P.print parts.now).settings }
    requires place { Contains (P.print parts.now).places place }
    requires layer { k < (P.print parts.now).layers place }
    ensures { Writes out.old out.new result (object_text (P.print parts.now) place (Some k)) }
{
    let mut number = 0;
    for by in parts.instances(place) {
        put_instance(out, parts, settings, place, k, number, by)?;
        number += 1;
    }
    Ok(())
}

// Appends what the object of a place has at a height, where it has the tool.
fn put_place<P: Parts>(
    out: &mut Text,
    parts: &P,
    settings: &Settings,
    i: u32,
    tool: u8,
    place: u8,
) -> Result<(), NoMemory>
    requires print { IsPrint (P.print parts.now) }
    requires settings { settings.now ≡ (P.print parts.now).settings }
    requires height { i < length (P.print parts.now).heights }
    requires place { Contains (P.print parts.now).places place }
    ensures { Writes out.old out.new result (place_text (P.print parts.now) i tool place) }
{
    if parts.tool(place) != tool {
        return Ok(());
    }
    match parts.layer_at(place, i) {
        Some(k) => put_instances(out, parts, settings, place, k),
        None => Ok(()),
    }
}

/// Appends what the objects of a tool have at a height.
pub(crate) fn put_objects<P: Parts>(
    out: &mut Text,
    parts: &P,
    settings: &Settings,
    i: u32,
    tool: u8,
) -> Result<(), NoMemory>
    requires print { IsPrint (P.print parts.now) }
    requires settings { settings.now ≡ (P.print parts.now).settings }
    requires height { i < length (P.print parts.now).heights }
    ensures { Writes out.old out.new result (tool_text (P.print parts.now) i tool) }
{
    for place in parts.places() {
        put_place(out, parts, settings, i, tool, *place)?;
    }
    Ok(())
}
