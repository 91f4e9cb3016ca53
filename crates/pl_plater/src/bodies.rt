//! Slice texts of bodies with eight corners.
use pl_units::{NoMemory, Text};
use std::alloc::Global;

/// The corners of a body: in their numbers x counts 1, y 2 and z 4.
pub(crate) type Corners = [&'static [u8]; 8];

// Appends a facet.
fn put_facet(text: &mut Text, facet: [&[u8]; 3]) -> Result<(), NoMemory> {
    text.append(b"facet normal 0 0 0\nouter loop\n")?;
    for corner in &facet {
        text.append(b"vertex ")?;
        text.append(corner)?;
        text.append(b"\n")?;
    }
    text.append(b"endloop\nendfacet\n")
}

// Appends the twelve facets of a body, two a side.
fn put_body(text: &mut Text, corners: &Corners) -> Result<(), NoMemory> {
    let [a, b, c, d, e, f, g, h] = *corners;
    let facets = [
        [a, c, b],
        [b, c, d],
        [e, f, g],
        [f, h, g],
        [a, b, e],
        [b, f, e],
        [c, g, d],
        [d, g, h],
        [a, e, c],
        [c, e, g],
        [b, d, f],
        [d, h, f],
    ];
    text.append(b"solid\n")?;
    for facet in &facets {
        put_facet(text, *facet)?;
    }
    text.append(b"endsolid\n")
}

/// A slice text with these settings, if there are any, and a mesh of these bodies.
pub(crate) fn slice_text(
    alloc: Global,
    settings: &[u8],
    bodies: &[Corners],
) -> Result<Text, NoMemory> {
    let mut text = Text::copy_of(alloc, b"plater 1\n")?;
    if !settings.is_empty() {
        text.append(b"data settings\n")?;
        text.append(settings)?;
        text.append(b".end\n")?;
    }
    text.append(b"data mesh\n")?;
    for corners in bodies {
        put_body(&mut text, corners)?;
    }
    text.append(b".end\n")?;
    Ok(text)
}
