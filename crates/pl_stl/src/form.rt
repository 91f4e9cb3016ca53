//! What may stand where in a mesh text.
ghost use Rattle.std.specs.Prelude.{◌≡◌, ◌≤◌, ◌+◌, ◌^◌, ℕ, length, slice_get, MatchResult, Ok, Err};
ghost use Rattle.pl_units.specs.Lengths.{length_of};
ghost use Rattle.pl_stl.specs.Form.{text, is_keyword, form};
ghost use Rattle.pl_stl.specs.Grammar.{of_number};
ghost use Rattle.pl_stl.specs.Reading.{blank, shifted, with_coordinate, taken, taken_at, at_solid, at_facet, inside, step};

use crate::fault::StlFault;
use crate::mesh::{Facet, Point3};
use crate::plain::plain;
use pl_units::{Nm, NumberFault, read_mm};

/// The most facets of a mesh.
pub const MOST_FACETS: usize = 300_000;

/// The words that a mesh text has in fixed places.
#[derive(Clone, Copy)]
pub enum Keyword {
    Solid,
    Facet,
    Normal,
    Outer,
    Loop,
    Vertex,
    EndLoop,
    EndFacet,
    EndSolid,
}

/// What a word inside a facet has to be.
#[derive(Clone, Copy)]
pub enum Class {
    Any,
    Keyword(Keyword),
    Coordinate,
}

/// What may stand next.
#[derive(Clone, Copy)]
pub enum Place {
    /// A `solid`.
    Outside,
    /// The rest of the line of a `solid`, and then what may stand among facets.
    Title(u32),
    /// A `facet` or an `endsolid`.
    Facets,
    /// Behind so many words after `facet`, with the coordinates so far.
    Inside(usize, Facet),
    /// The rest of the line of an `endsolid`, and then a `solid`.
    Tail(u32),
}

/// The words of a facet after its first.
static FORM: [Class; 20] = [
    Class::Keyword(Keyword::Normal),
    Class::Any,
    Class::Any,
    Class::Any,
    Class::Keyword(Keyword::Outer),
    Class::Keyword(Keyword::Loop),
    Class::Keyword(Keyword::Vertex),
    Class::Coordinate,
    Class::Coordinate,
    Class::Coordinate,
    Class::Keyword(Keyword::Vertex),
    Class::Coordinate,
    Class::Coordinate,
    Class::Coordinate,
    Class::Keyword(Keyword::Vertex),
    Class::Coordinate,
    Class::Coordinate,
    Class::Coordinate,
    Class::Keyword(Keyword::EndLoop),
    Class::Keyword(Keyword::EndFacet),
];

// How a keyword is written.
fn written(keyword: Keyword) -> &'static [u8]
    ensures { result.now ≡ text keyword }
{
    match keyword {
        Keyword::Solid => b"solid",
        Keyword::Facet => b"facet",
        Keyword::Normal => b"normal",
        Keyword::Outer => b"outer",
        Keyword::Loop => b"loop",
        Keyword::Vertex => b"vertex",
        Keyword::EndLoop => b"endloop",
        Keyword::EndFacet => b"endfacet",
        Keyword::EndSolid => b"endsolid",
    }
}

// Whether a word is a keyword, in letters of either case.
fn is(word: &[u8], keyword: Keyword) -> bool
    ensures { result ≡ is_keyword word.now keyword }
{
    word.eq_ignore_ascii_case(written(keyword))
}

// A facet with no coordinate read.
fn no_coordinates() -> Facet
    ensures { result ≡ blank }
{
    let origin = Point3 {
        x: Nm(0),
        y: Nm(0),
        z: Nm(0),
    };
    Facet {
        a: origin,
        b: origin,
        c: origin,
    }
}

// The last nine coordinates, where one comes after those of a facet.
fn with_coordinate_last(facet: Facet, coordinate: Nm) -> Facet
    ensures { result ≡ shifted facet coordinate }
{
    Facet {
        a: Point3 {
            x: facet.a.y,
            y: facet.a.z,
            z: facet.b.x,
        },
        b: Point3 {
            x: facet.b.y,
            y: facet.b.z,
            z: facet.c.x,
        },
        c: Point3 {
            x: facet.c.y,
            y: facet.c.z,
            z: coordinate,
        },
    }
}

// The fault of a word in a number's place.
fn number_fault(fault: NumberFault) -> StlFault
    ensures { result ≡ of_number fault }
{
    match fault {
        NumberFault::BadNumber => StlFault::BadNumber,
        NumberFault::TooFar => StlFault::TooFar,
    }
}

// The length of a word, by the short way where the word is a plain numeral.
fn read_length(word: &[u8]) -> Result<Nm, NumberFault>
    requires { length word.now ≤ 2 ^ 28 }
    ensures { result ≡ length_of word.now }
{
    match plain(word) {
        Some(length) => Ok(length),
        None => read_mm(word),
    }
}

// Puts a word in a number's place into a facet.
fn put_number(facet: &mut Facet, word: &[u8]) -> Result<(), StlFault>
    requires { length word.now ≤ 2 ^ 28 }
    ensures { MatchResult result (λ _. with_coordinate facet.old (length_of word.now) ≡ Ok facet.new) (λ fault. with_coordinate facet.old (length_of word.now) ≡ Err fault) }
{
    match read_length(word) {
        Ok(coordinate) => {
            *facet = with_coordinate_last(*facet, coordinate);
            Ok(())
        }
        Err(fault) => Err(number_fault(fault)),
    }
}

// Puts a word of a class into a facet, if it is one.
fn put_word(class: Class, facet: &mut Facet, word: &[u8]) -> Result<(), StlFault>
    requires { length word.now ≤ 2 ^ 28 }
    ensures { MatchResult result (λ _. taken class facet.old word.now ≡ Ok facet.new) (λ fault. taken class facet.old word.now ≡ Err fault) }
{
    match class {
        Class::Any => Ok(()),
        Class::Keyword(keyword) if is(word, keyword) => Ok(()),
        Class::Keyword(_) => Err(StlFault::BadToken),
        Class::Coordinate => put_number(facet, word),
    }
}

// The class of the word behind so many of a facet.
fn class_at(count: usize) -> Option<Class>
    ensures { result ≡ slice_get form count }
{
    FORM.get(count).copied()
}

// Puts the word behind so many of a facet into it, if the word may stand there.
fn put_next(count: usize, facet: &mut Facet, word: &[u8]) -> Result<(), StlFault>
    requires { length word.now ≤ 2 ^ 28 }
    ensures { MatchResult result (λ _. taken_at (slice_get form count) facet.old word.now ≡ Ok facet.new) (λ fault. taken_at (slice_get form count) facet.old word.now ≡ Err fault) }
{
    match class_at(count) {
        Some(class) => put_word(class, facet, word),
        None => Err(StlFault::BadToken),
    }
}

// What may stand next after a word at a line where a facet may begin.
fn next_facet(found: usize, word: &[u8], line: u32) -> Result<(Place, Option<Facet>), StlFault>
    ensures { result ≡ at_facet found word.now line }
{
    if is(word, Keyword::Facet) {
        if found < MOST_FACETS {
            Ok((Place::Inside(0, no_coordinates()), None))
        } else {
            Err(StlFault::TooManyFacets)
        }
    } else if is(word, Keyword::EndSolid) {
        Ok((Place::Tail(line), None))
    } else {
        Err(StlFault::BadToken)
    }
}

// What may stand next after a word at a line where a solid may begin.
fn next_solid(word: &[u8], line: u32) -> Result<(Place, Option<Facet>), StlFault>
    ensures { result ≡ at_solid word.now line }
{
    if is(word, Keyword::Solid) {
        Ok((Place::Title(line), None))
    } else {
        Err(StlFault::BadToken)
    }
}

// Puts what may stand next into a place.
fn put_place(
    place: &mut Place,
    next: Result<(Place, Option<Facet>), StlFault>,
) -> Result<Option<Facet>, StlFault>
    ensures { MatchResult result (λ facet. next ≡ Ok (place.new, facet)) (λ fault. next ≡ Err fault) }
{
    match next {
        Ok((next, facet)) => {
            *place = next;
            Ok(facet)
        }
        Err(fault) => Err(fault),
    }
}

/// Puts what may stand next after a word at a line, behind so many facets, into a place, and gives the facet that the
/// word ends. The fault of a word that may not stand there.
pub fn put_step(
    place: &mut Place,
    found: usize,
    word: &[u8],
    line: u32,
) -> Result<Option<Facet>, StlFault>
    requires { length word.now ≤ 2 ^ 28 }
    ensures { MatchResult result (λ facet. step place.old found word.now line ≡ Ok (place.new, facet)) (λ fault. step place.old found word.now line ≡ Err fault) }
{
    match place {
        Place::Inside(count, facet) => {
            put_next(*count, facet, word)?;
            if *count + 1 < FORM.len() {
                *count += 1;
                return Ok(None);
            }
            let whole = *facet;
            *place = Place::Facets;
            Ok(Some(whole))
        }
        Place::Outside => put_place(place, next_solid(word, line)),
        Place::Title(title) if *title == line => Ok(None),
        Place::Title(_) | Place::Facets => put_place(place, next_facet(found, word, line)),
        Place::Tail(tail) if *tail == line => Ok(None),
        Place::Tail(_) => put_place(place, next_solid(word, line)),
    }
}
