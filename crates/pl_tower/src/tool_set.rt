//! Sets of tools.
ghost use Rattle.std.specs.Prelude.{◌≡◌, ℕ, ◌<◌, ◌==◌, ◌||◌, false};
ghost use Rattle.pl_tower.specs.Tools.{has, IsToolSet};

use std::marker::Model;

/// A set of tools, which are numbered from 0 to 3. Bit k of its number says whether tool k is in the set.
#[derive(Clone, Copy, PartialEq, Eq, Debug)]
pub struct ToolSet {
    bits: u8,
}

impl Model for ToolSet {
    ghost Value = { ℕ };

    ghost view = { λ s. s.bits };

    ghost invariant = { λ s. s.bits < 16 };

    ghost inverse = { λ n. record { bits = n } };
}

impl ToolSet {
    /// No tool.
    pub fn empty() -> ToolSet
        ensures { (tool : ℕ) → has result tool ≡ false }
    {
        ToolSet { bits: 0 }
    }

    /// Whether the tool is in the set. A number from 4 on is no tool, and in no set.
    pub fn has(self, tool: u8) -> bool
        ensures value { result ≡ has self tool }
        ensures tools { IsToolSet self }
    {
        tool < 4 && (self.bits >> tool) & 1 == 1
    }

    /// The set and this tool, of a number from 0 to 3.
    pub fn with(self, tool: u8) -> ToolSet
        requires { tool < 4 }
        ensures { (t : ℕ) → has result t ≡ ((t == tool) || has self t) }
    {
        ToolSet {
            bits: self.bits | (1 << tool),
        }
    }
}
