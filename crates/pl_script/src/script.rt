//! Scripts.
ghost use Rattle.std.specs.Prelude.{◌≡◌};

use indexmap::IndexMap;
use pl_edit::{Block, Edit};
use pl_machine::Command;
use pl_units::{NoMemory, Shared};
use std::alloc::Global;
use std::marker::Model;
use std::sync::Arc;

/// A command that a script and those who run it share: seen as the command.
#[derive(Drop)]
pub struct SharedCommand {
    arc: Arc<Command<Edit>>,
}

impl Model for SharedCommand {
    ghost use Rattle.std.specs.Arc.{arc_value};
    ghost use Rattle.pl_script.specs.Orders.{Order};

    ghost Value = { Order };

    ghost view = { λ c. arc_value c.arc };
}

impl SharedCommand {
    ghost use Rattle.std.specs.Prelude.{◌≡◌, IfOk};
    ghost use Rattle.std.specs.Arc.{arc_value};

    /// The command that the `Arc` holds, of which this is one owner.
    pub(crate) fn of(arc: Arc<Command<Edit>>) -> SharedCommand
        ensures { result ≡ arc_value arc }
    {
        SharedCommand { arc }
    }

    /// The command.
    pub fn get(&self) -> &Command<Edit>
        ensures { result.now ≡ self.now }
    {
        &self.arc
    }

    /// One more owner of the command. It takes no memory, and is refused where the count of owners is full, at 2^63 - 1.
    pub fn owner(&self) -> Result<Arc<Command<Edit>>, NoMemory>
        ensures { IfOk result (λ arc. arc_value arc ≡ self.now) }
    {
        Ok(Arc::try_clone(&self.arc)?)
    }
}

/// A command line.
#[derive(Drop)]
pub struct Line {
    /// The line's number in the script, counted from 1.
    pub number: u32,
    /// The session whose command it is, from 1 to 16.
    pub session: u8,
    /// The command.
    pub command: SharedCommand,
}

/// The blocks of a script, each by its name, in the order of their lines: seen as their list. Each has a name of 1 to 64
/// bytes, each an ASCII letter, a digit, `_`, `-` or `.`, and no two have one name.
#[derive(Drop)]
pub struct Blocks {
    blocks: IndexMap<Vec<u8>, Shared<Block>>,
}

impl Model for Blocks {
    ghost use Rattle.std.specs.Prelude.{List};
    ghost use Rattle.indexmap.specs.IndexMap.{values};
    ghost use Rattle.pl_edit.specs.Data.{Data};
    ghost use Rattle.pl_script.specs.Kept.{IsKeyed, IsBlocks};

    ghost Value = { List Data };

    ghost view = { λ b. values b.blocks };

    ghost invariant = { λ b. IsKeyed b.blocks.entries (λ key. key.items) × IsBlocks (values b.blocks) };
}

impl Blocks {
    ghost use Rattle.std.specs.Prelude.{◌≡◌, ◌++◌, ◌∷◌, [], None, true, OnOk, OnErr};
    ghost use Rattle.std.specs.Option.{option_map};
    ghost use Rattle.pl_script.specs.Forms.{is_name};
    ghost use Rattle.pl_script.specs.Orders.{block_named};
    ghost use Rattle.pl_script.specs.Kept.{IsBlocks};

    /// No blocks.
    pub(crate) fn none(alloc: Global) -> Blocks
        ensures { result ≡ [] }
    {
        Blocks {
            blocks: IndexMap::new(alloc),
        }
    }

    /// The block of a name.
    pub fn named(&self, name: &[u8]) -> Option<&Shared<Block>>
        ensures block { option_map (λ block. block.now) result ≡ block_named self.now name.now }
        ensures blocks { IsBlocks self.now }
    {
        self.blocks.get(name)
    }

    /// The blocks, in the order of their lines.
    pub fn all(&self) -> &[Shared<Block>]
        ensures blocks { result.now ≡ self.now }
        ensures kept { IsBlocks self.now }
    {
        self.blocks.values().as_slice()
    }

    /// Adds a block of a new name. After want of memory the blocks are as before.
    pub(crate) fn add(&mut self, block: Shared<Block>) -> Result<(), NoMemory>
        requires new { block_named self.old block.name ≡ None }
        requires named { is_name block.name ≡ true }
        ensures ok { OnOk result (self.new ≡ self.old ++ block ∷ []) }
        ensures err { OnErr result (self.new ≡ self.old) }
    {
        let alloc = *self.blocks.allocator();
        let name = Vec::from_slice(alloc, block.get().name())?;
        self.blocks.insert(name, block)?;
        Ok(())
    }
}

/// The command lines of a script, in order: at most 10,000, each of a session from 1 to 16, with its words of their forms and
/// in their ranges.
#[derive(Drop)]
pub struct Lines {
    lines: Vec<Line>,
}

impl Model for Lines {
    ghost use Rattle.std.specs.Prelude.{List};
    ghost use Rattle.pl_script.specs.declared.script.Line.{Line};
    ghost use Rattle.pl_script.specs.Kept.{AreLines};

    ghost Value = { List Line };

    ghost view = { λ l. l.lines.items };

    ghost invariant = { λ l. AreLines l.lines.items };
}

impl Lines {
    ghost use Rattle.pl_script.specs.Kept.{AreLines};

    /// These command lines.
    pub(crate) fn of(lines: Vec<Line>) -> Lines
        requires { AreLines lines.items }
        ensures { result ≡ lines.items }
    {
        Lines { lines }
    }

    /// The command lines, in order.
    pub fn all(&self) -> &[Line]
        ensures lines { result.now ≡ self.now }
        ensures kept { AreLines self.now }
    {
        &self.lines
    }

    /// The command lines, in order, as a list of their own.
    pub fn into_vec(self) -> Vec<Line>
        ensures lines { result.items ≡ self }
        ensures kept { AreLines self }
    {
        self.lines
    }
}

/// A script as it was read: the number of workers, at most 8, the blocks, and the command lines. A block that a command
/// carries is one of the script's.
#[derive(Drop)]
pub struct Script {
    workers: u8,
    blocks: Blocks,
    lines: Lines,
}

impl Model for Script {
    ghost use Rattle.pl_script.specs.Script.{Script};
    ghost use Rattle.pl_script.specs.Kept.{IsScript};

    ghost Value = { Script };

    ghost view = { λ s. record { workers = s.workers; blocks = s.blocks; lines = s.lines } };

    ghost invariant = { λ s. IsScript (record { workers = s.workers; blocks = s.blocks; lines = s.lines }) };
}

impl Script {
    ghost use Rattle.std.specs.Prelude.{◌≡◌, ◌≤◌};
    ghost use Rattle.pl_script.specs.Kept.{HaveBlocks};

    /// A script of these parts.
    pub(crate) fn of(workers: u8, blocks: Blocks, lines: Lines) -> Script
        requires few { workers ≤ 8 }
        requires blocks { HaveBlocks blocks lines }
        ensures { result ≡ record { workers = workers; blocks = blocks; lines = lines } }
    {
        Script {
            workers,
            blocks,
            lines,
        }
    }

    /// The number of workers, at most 8.
    pub fn workers(&self) -> u8
        ensures workers { result ≡ self.now.workers }
        ensures few { self.now.workers ≤ 8 }
    {
        self.workers
    }

    /// The blocks.
    pub fn blocks(&self) -> &Blocks
        ensures { result.now ≡ self.now.blocks }
    {
        &self.blocks
    }

    /// The command lines. A block that one carries is one of the script's.
    pub fn lines(&self) -> &Lines
        ensures lines { result.now ≡ self.now.lines }
        ensures blocks { HaveBlocks self.now.blocks self.now.lines }
    {
        &self.lines
    }

    /// The workers, the blocks and the command lines. A block that a line carries is one of the blocks.
    pub fn into_parts(self) -> (u8, Blocks, Lines)
        ensures workers { result.0 ≡ self.workers }
        ensures few { self.workers ≤ 8 }
        ensures blocks { result.1 ≡ self.blocks }
        ensures lines { result.2 ≡ self.lines }
        ensures carried { HaveBlocks self.blocks self.lines }
    {
        (self.workers, self.blocks, self.lines)
    }
}
