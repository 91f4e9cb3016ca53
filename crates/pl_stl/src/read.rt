//! Reading a mesh from ASCII STL.
ghost use Rattle.std.specs.Prelude.{◌≡◌, ◌<◌, ◌≤◌, ◌+◌, ◌^◌, ℕ, List, [], true, length, take, drop, get_or, sum_by, IfOk, MatchResult, Err, ◌⊎◌};
ghost use Rattle.std.specs.List.{between};
ghost use Rattle.pl_units.specs.declared.Refusal.TheVariants as refusals;
ghost use Rattle.pl_stl.specs.declared.mesh.Facet.{Facet};
ghost use Rattle.pl_stl.specs.declared.fault.StlFault.{StlFault};
ghost use Rattle.pl_stl.specs.Tokens.{is_white_space, line_end, tokens_from, last_line};
ghost use Rattle.pl_stl.specs.Grammar.{IsMeshText, IsFirstBreach};
ghost use Rattle.pl_stl.specs.Reading.{Gives, after_word, finished, mesh_of};

use crate::fault::StlFault;
use crate::form::{Place, put_step};
use crate::mesh::{Facet, Mesh};
use pl_units::Refusal;
use std::alloc::Global;

// Whether a byte is white space: a tab to a carriage return, or a space.
fn is_white(b: u8) -> bool
    ensures { result ≡ is_white_space b }
{
    matches!(b, 9..=13 | 32)
}

// 1 for a line end.
fn line_ends(b: u8) -> u32
    ensures { result ≡ line_end b }
{
    if b == b'\n' { 1 } else { 0 }
}

// Where a reader stands, and the facets so far.
#[derive(Drop)]
struct Reader {
    place: Place,
    mesh: Vec<Facet>,
}

impl Reader {
    ghost use Rattle.pl_stl.specs.Reader.{state_of};
    ghost use Rattle.pl_stl.specs.Reading.{after};
    ghost use Rattle.pl_stl.specs.Tokens.{Token};

    // Takes a word at a line. After a breach the reader is as before.
    fn take(&mut self, word: &[u8], line: u32) -> Result<(), Refusal<StlFault>>
        requires { length word.now ≤ 2 ^ 28 }
        ensures { Gives (λ _. state_of self.new) result (after (state_of self.old) record { word = word.now; line = line }) }
    {
        let facet = match put_step(&mut self.place, self.mesh.len(), word, line) {
            Ok(facet) => facet,
            Err(fault) => return Err(Refusal::Fault { line, fault }),
        };
        if let Some(facet) = facet {
            if self.mesh.push(facet).is_err() {
                return Err(Refusal::NoMemory);
            }
        }
        Ok(())
    }

    // Takes the word that ends here, if there is one.
    fn end_word(&mut self, word: &[u8], line: u32) -> Result<(), Refusal<StlFault>>
        requires { length word.now ≤ 2 ^ 28 }
        ensures { Gives (λ _. state_of self.new) result (after_word (state_of self.old) line word.now) }
    {
        if word.is_empty() {
            return Ok(());
        }
        self.take(word, line)
    }

    // What the end of the text makes of the reader, where its last byte stands at a line.
    fn finish(self, last: u32) -> Result<Vec<Facet>, Refusal<StlFault>>
        ensures { Gives (λ v. v.items) result (finished last self.place self.mesh.items) }
    {
        let fault = match self.place {
            Place::Outside | Place::Tail(_) if !self.mesh.is_empty() => return Ok(self.mesh),
            Place::Outside | Place::Tail(_) => StlFault::NoFacet,
            _ => StlFault::Cut,
        };
        Err(Refusal::Fault { line: last, fault })
    }
}

// Where the word ends that begins at a place, or has no byte there.
fn word_end(bytes: &[u8], from: usize) -> usize
    requires { from ≤ length bytes.now }
    ensures from { from ≤ result }
    ensures within { result ≤ length bytes.now }
    ensures white { result < length bytes.now → is_white_space (get_or bytes.now result 0) ≡ true }
    ensures rest { (line : ℕ) → tokens_from line (between from result bytes.now) (drop result bytes.now) ≡ tokens_from line [] (drop from bytes.now) }
    ensures line { sum_by line_end (take result bytes.now) ≡ sum_by line_end (take from bytes.now) }
{
    let mut i = from;
    while i < bytes.len() && !is_white(bytes[i]) {
        i += 1;
    }
    i
}

// The line of the last byte of a text at whose end this line stands.
fn line_of_last(bytes: &[u8], line: u32) -> u32
    requires { line ≡ 1 + sum_by line_end bytes.now }
    ensures { result ≡ last_line bytes.now }
{
    match bytes {
        [.., last] => line - line_ends(*last),
        [] => line,
    }
}

// The facets of a text.
fn read_facets(alloc: Global, bytes: &[u8]) -> Result<Vec<Facet>, Refusal<StlFault>>
    requires { length bytes.now ≤ 2 ^ 28 }
    ensures { Gives (λ v. v.items) result (mesh_of bytes.now) }
{
    let mut reader = Reader {
        place: Place::Outside,
        mesh: Vec::new(alloc),
    };
    let mut line = 1;
    let mut start = 0;
    while start < bytes.len() {
        let end = word_end(bytes, start);
        reader.end_word(&bytes[start..end], line)?;
        start = end;
        if end < bytes.len() {
            line += line_ends(bytes[end]);
            start = end + 1;
        }
    }
    reader.finish(line_of_last(bytes, line))
}

/// Reads the mesh of a text of any number of solids. A solid is `solid` and the rest of its line, any number of facets, and
/// `endsolid` and the rest of its line. A facet is `facet normal`, three words that are not looked at, `outer loop`, three
/// times `vertex` with three coordinates in millimetres, and `endloop endfacet`. Letters of keywords may be of either case.
/// Refused exactly at the first breach, with its line counted from 1: a word that may not stand there, a number that is
/// none or too far, and the `facet` of facet 300,001 at the word's line; `Cut` and `NoFacet` at the last byte's line,
/// 1 for the empty text.
pub fn read_stl(alloc: Global, bytes: &[u8]) -> Result<Mesh, Refusal<StlFault>>
    requires { length bytes.now ≤ 2 ^ 28 }
    // The call answers what reading gives, unless memory runs out.
    ensures reading { Gives (λ m. m) result (mesh_of bytes.now) }
    ensures mesh { IfOk result (λ m. IsMeshText bytes.now m) }
    // The text of a mesh is read, and no other facets than its own are given, unless memory runs out.
    ensures taken { (facets : List Facet) → IsMeshText bytes.now facets → MatchResult result (λ m. m ≡ facets) (λ e. e ≡ refusals.NoMemory) }
    ensures refused { (line : ℕ) (fault : StlFault) → result ≡ Err (refusals.Fault line fault) → IsFirstBreach bytes.now line fault }
    // The first breach of a text is named, unless memory runs out before it.
    ensures named { (line : ℕ) (fault : StlFault) → IsFirstBreach bytes.now line fault → MatchResult result (λ _. ⊥) (λ e. (e ≡ refusals.Fault line fault) ⊎ (e ≡ refusals.NoMemory)) }
{
    let facets = read_facets(alloc, bytes)?;
    Ok(Mesh::of(facets))
}
