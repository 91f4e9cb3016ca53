ghost use Rattle.std.specs.Prelude.{◌≡◌};

use crate::entry::Mode;

/// How a mode is looked for.
#[derive(Clone, Copy, PartialEq, Eq, Debug)]
pub enum Look {
    /// Started or done.
    Held,
    /// Started, by whomever.
    Started,
    /// Done.
    Done,
}

impl Look {
    ghost use Rattle.pl_machine.specs.Look.{looks};

    /// Whether the mode is looked for.
    #[tactic(auto, unfolding(crate::specs::Look::looks))]
    pub fn finds(self, mode: Mode) -> bool
        ensures { result ≡ looks self mode }
    {
        match mode {
            Mode::Invalid => false,
            Mode::Started(_) => self != Look::Done,
            Mode::Done => self != Look::Started,
        }
    }
}
