//! Lists of tools.
ghost use Rattle.std.specs.Prelude.{◌≡◌};

use std::marker::Model;

/// Tools in order, by their numbers from 0.
#[derive(Debug, Drop)]
pub struct Tools {
    tools: Vec<u8>,
}

impl Model for Tools {
    ghost use Rattle.std.specs.Prelude.{ℕ, List};

    ghost Value = { List ℕ };

    ghost view = { λ l. l.tools.items };
}

impl Tools {
    /// The list of these tools. It takes no memory.
    pub fn of(tools: Vec<u8>) -> Tools
        ensures { result ≡ tools.items }
    {
        Tools { tools }
    }

    /// The tools in order.
    pub fn tools(&self) -> &[u8]
        ensures { result.now ≡ self.now }
    {
        self.tools.as_slice()
    }

    /// The tools in order, given back. It takes no memory.
    pub fn into_vec(self) -> Vec<u8>
        ensures { result.items ≡ self }
    {
        self.tools
    }
}
