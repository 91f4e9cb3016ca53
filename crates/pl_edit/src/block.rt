//! Texts that edits carry.
ghost use Rattle.std.specs.Prelude.{◌≡◌, ◌≤◌, ◌^◌, length, IfOk, IfSome};
ghost use Rattle.pl_stl.specs.Reading.{Gives, mesh_of};
ghost use Rattle.pl_edit.specs.Reads.{IsReadingOf};

use pl_stl::{Mesh, StlFault, read_stl};
use pl_units::{NoMemory, Refusal, Shared, Text};
use std::alloc::Global;
use std::marker::Model;
use std::sync::Arc;

/// What reading a text as a mesh gave.
#[derive(Drop)]
pub enum Read {
    /// Its mesh.
    Mesh(Shared<Mesh>),
    /// Its first breach, at a line of the text, counted from 1.
    Breach(u32, StlFault),
}

/// Bytes under a name, at most 2^28, with what reading them as a mesh gave, if they were read: a block is read once, however
/// many loads have it.
#[derive(Drop)]
pub struct Block {
    name: Text,
    bytes: Text,
    read: Option<Read>,
}

impl Model for Block {
    ghost use Rattle.std.specs.Prelude.{◌≤◌, ◌^◌, length, IfSome};
    ghost use Rattle.pl_edit.specs.Data.{Data};
    ghost use Rattle.pl_edit.specs.Reads.{IsReadingOf};

    ghost Value = { Data };

    ghost view = { λ b. record { name = b.name; bytes = b.bytes } };

    ghost invariant = { λ b. (length b.bytes ≤ 2 ^ 28) × IfSome b.read (IsReadingOf b.bytes) };
}

// Reads a text as a mesh.
fn mesh_in(alloc: Global, bytes: &[u8]) -> Result<Shared<Mesh>, Refusal<StlFault>>
    requires { length bytes.now ≤ 2 ^ 28 }
    ensures { Gives (λ m. m) result (mesh_of bytes.now) }
{
    let mesh = read_stl(alloc, bytes)?;
    match Arc::new(alloc, mesh) {
        Ok(arc) => Ok(Shared::of(arc)),
        Err(_) => Err(Refusal::NoMemory),
    }
}

// What reading a text as a mesh gives, unless memory runs out.
fn reading(alloc: Global, bytes: &[u8]) -> Option<Read>
    requires { length bytes.now ≤ 2 ^ 28 }
    ensures { IfSome result (IsReadingOf bytes.now) }
{
    match mesh_in(alloc, bytes) {
        Ok(mesh) => Some(Read::Mesh(mesh)),
        Err(Refusal::Fault { line, fault }) => Some(Read::Breach(line, fault)),
        Err(Refusal::NoMemory) => None,
    }
}

impl Block {
    /// The block of a name and of at most 2^28 bytes, not read yet. It takes no memory.
    pub fn of(name: Text, bytes: Text) -> Block
        requires { length bytes ≤ 2 ^ 28 }
        ensures name { result.name ≡ name }
        ensures bytes { result.bytes ≡ bytes }
    {
        Block {
            name,
            bytes,
            read: None,
        }
    }

    /// The block of a name and of at most 2^28 bytes, read as a mesh at once. Where memory is wanting for that, it is not read yet.
    pub fn read(alloc: Global, name: Text, bytes: Text) -> Block
        requires { length bytes ≤ 2 ^ 28 }
        ensures name { result.name ≡ name }
        ensures bytes { result.bytes ≡ bytes }
    {
        let read = reading(alloc, bytes.bytes());
        Block { name, bytes, read }
    }

    /// The name.
    pub fn name(&self) -> &[u8]
        ensures { result.now ≡ self.now.name }
    {
        self.name.bytes()
    }

    /// The bytes, at most 2^28.
    pub fn bytes(&self) -> &[u8]
        ensures bytes { result.now ≡ self.now.bytes }
        ensures short { length result.now ≤ 2 ^ 28 }
    {
        self.bytes.bytes()
    }

    /// The mesh of the block's text, as `read_stl` gives it. A block that was read gives another owner of the mesh that it has, and
    /// takes no memory.
    pub fn mesh(&self, alloc: Global) -> Result<Shared<Mesh>, Refusal<StlFault>>
        ensures { Gives (λ m. m) result (mesh_of self.now.bytes) }
    {
        match &self.read {
            Some(Read::Mesh(mesh)) => match mesh.copied() {
                Ok(copy) => Ok(copy),
                Err(NoMemory) => Err(Refusal::NoMemory),
            },
            Some(Read::Breach(line, fault)) => Err(Refusal::Fault {
                line: *line,
                fault: *fault,
            }),
            None => mesh_in(alloc, self.bytes.bytes()),
        }
    }
}

/// The text of a value: at most 2^28 bytes.
#[derive(Drop)]
pub struct ValueText {
    text: Text,
}

impl Model for ValueText {
    ghost use Rattle.std.specs.Prelude.{ℕ, List, ◌≤◌, ◌^◌, length};

    ghost Value = { List ℕ };

    ghost view = { λ v. v.text };

    ghost invariant = { λ v. length v.text ≤ 2 ^ 28 };
}

impl ValueText {
    /// The text of a value, of at most 2^28 bytes. It takes no memory.
    pub fn of(text: Text) -> ValueText
        requires { length text ≤ 2 ^ 28 }
        ensures { result ≡ text }
    {
        ValueText { text }
    }

    /// The bytes, at most 2^28.
    pub fn bytes(&self) -> &[u8]
        ensures bytes { result.now ≡ self.now }
        ensures short { length result.now ≤ 2 ^ 28 }
    {
        self.text.bytes()
    }
}
