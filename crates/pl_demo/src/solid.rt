//! The text of a box.
ghost use Rattle.std.specs.Prelude.{◌≡◌, ◌++◌, OnOk};
ghost use Rattle.std.specs.Fmt.{decimal};
ghost use Rattle.pl_demo.specs.Lines.{line_of};
ghost use Rattle.pl_demo.specs.Box.{coordinate_of, vertex_words, facet_text, facets_text, box_text};

use pl_units::{Digits, NoMemory, Text, append_pieces};

// The lengths of a box, in millimetres.
#[derive(Clone, Copy)]
pub struct Size {
    pub x: u64,
    pub y: u64,
    pub z: u64,
}

// The corners of a facet, each from 0 to 7.
#[derive(Clone, Copy)]
pub struct Corners(pub u8, pub u8, pub u8);

// Two facets of each side.
const FACETS: [Corners; 12] = [
    Corners(0, 2, 1),
    Corners(1, 2, 3),
    Corners(4, 5, 6),
    Corners(5, 7, 6),
    Corners(0, 1, 4),
    Corners(1, 5, 4),
    Corners(2, 6, 3),
    Corners(3, 6, 7),
    Corners(0, 4, 2),
    Corners(2, 4, 6),
    Corners(1, 3, 5),
    Corners(3, 7, 5),
];

// Where a corner lies on an axis.
fn coordinate(length: u64, bit: u8) -> Digits
    ensures { result ≡ decimal (coordinate_of length bit) }
{
    Digits::whole(if bit == 1 { length } else { 0 })
}

// Appends the line of a corner.
fn put_vertex(text: &mut Text, size: Size, corner: u8) -> Result<(), NoMemory>
    ensures { OnOk result (text.new ≡ text.old ++ line_of (vertex_words size corner)) }
{
    append_pieces(
        text,
        &[
            b"vertex ",
            coordinate(size.x, corner % 2).bytes(),
            b" ",
            coordinate(size.y, corner / 2 % 2).bytes(),
            b" ",
            coordinate(size.z, corner / 4 % 2).bytes(),
            b"\n",
        ],
    )
}

// Appends the lines of a facet.
#[tactic(auto, unfolding(crate::specs::Box::facet_text))]
fn put_facet(text: &mut Text, size: Size, corners: Corners) -> Result<(), NoMemory>
    ensures { OnOk result (text.new ≡ text.old ++ facet_text size corners) }
{
    text.append(b"facet normal 0 0 0\nouter loop\n")?;
    put_vertex(text, size, corners.0)?;
    put_vertex(text, size, corners.1)?;
    put_vertex(text, size, corners.2)?;
    text.append(b"endloop\nendfacet\n")
}

// Appends the facets of a box.
#[tactic(auto, unfolding(crate::specs::Box::facets_text))]
fn put_facets(text: &mut Text, size: Size) -> Result<(), NoMemory>
    ensures { OnOk result (text.new ≡ text.old ++ facets_text size) }
{
    for corners in &FACETS {
        put_facet(text, size, *corners)?;
    }
    Ok(())
}

// Appends the text of a box.
pub(crate) fn put_box(text: &mut Text, size: Size) -> Result<(), NoMemory>
    ensures { OnOk result (text.new ≡ text.old ++ box_text size) }
{
    text.append(b"solid box\n")?;
    put_facets(text, size)?;
    text.append(b"endsolid box\n")
}
