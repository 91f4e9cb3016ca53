//! Why a text is no script.
use pl_units::{NoMemory, Refusal};
use thiserror::Error;

/// Why a text is no script.
#[derive(Clone, Copy, Debug, PartialEq, Eq, Error)]
pub enum ScriptFault {
    /// The first line of all is not `plater 1`.
    #[error("NoHead")]
    NoHead,
    /// A workers line, a data line or a command has another number of words or words of another form.
    #[error("BadLine")]
    BadLine,
    /// The second word of a command line is no command, or there is none.
    #[error("UnknownCommand")]
    UnknownCommand,
    /// The first word of a command line, or the session that `after` names, is no whole number from 1 to 16.
    #[error("BadSession")]
    BadSession,
    /// A command names a block that does not exist.
    #[error("NoData")]
    NoData,
    /// A second block has the name of another.
    #[error("SameData")]
    SameData,
    /// A block has no line `.end`.
    #[error("CutData")]
    CutData,
    /// The 10,001st command.
    #[error("TooMany")]
    TooMany,
    /// The sessions wait for one another: no order of all commands keeps each session's order and puts each `after` behind the
    /// commands that it waits for.
    #[error("Stuck")]
    Stuck,
    /// The text has more than 2^28 bytes. `read_script` never gives it: the caller that reads the bytes does.
    #[error("TooLong")]
    TooLong,
}

/// Why a line was not read: by its fault, or for want of memory.
#[derive(Clone, Copy)]
pub enum LineStop {
    /// The line's fault.
    Fault(ScriptFault),
    /// Memory was wanted and not had.
    NoMemory,
}

impl From<NoMemory> for LineStop {
    ghost use Rattle.std.specs.Prelude.{◌≡◌};
    ghost use Rattle.pl_script.specs.declared.fault.LineStop.TheVariants as stops;

    ghost from_gives = { λ _ stop. stop ≡ stops.NoMemory };

    fn from(_: NoMemory) -> Self {
        LineStop::NoMemory
    }
}

impl From<ScriptFault> for LineStop {
    ghost use Rattle.std.specs.Prelude.{◌≡◌};
    ghost use Rattle.pl_script.specs.declared.fault.LineStop.TheVariants as stops;

    ghost from_gives = { λ fault stop. stop ≡ stops.Fault fault };

    fn from(fault: ScriptFault) -> Self {
        LineStop::Fault(fault)
    }
}

impl LineStop {
    ghost use Rattle.std.specs.Prelude.{◌≡◌};
    ghost use Rattle.pl_script.specs.Reading.{at_line};

    /// The refusal at the line of this number.
    pub fn at(self, number: u32) -> Refusal<ScriptFault>
        ensures { result ≡ at_line number self }
    {
        match self {
            LineStop::Fault(fault) => Refusal::Fault {
                line: number,
                fault,
            },
            LineStop::NoMemory => Refusal::NoMemory,
        }
    }
}
