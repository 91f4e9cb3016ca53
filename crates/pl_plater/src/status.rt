//! How a run of the program ends.
ghost use Rattle.std.specs.Prelude.{◌≡◌};
ghost use Rattle.pl_plater.specs.Status.{code_of, stop_status};

use crate::TopFault;
use pl_ports::ReadStop;
use pl_script::ScriptFault;

/// How a call of the program ended.
#[derive(Clone, Copy, Debug, PartialEq, Eq)]
pub enum Status {
    /// The whole output was written.
    Done,
    /// The words are none that the program takes.
    Usage,
    /// The input has this first fault, at this line; line 0 is the input as a whole.
    Refused { line: u32, fault: TopFault },
    /// The source failed.
    ReadFault,
    /// The sink failed; it was given a front of the output.
    WriteFault,
    /// Memory was wanted and not had; the sink was given a front of the output.
    NoMemory,
}

impl Status {
    /// The number that the program ends with.
    pub fn code(&self) -> u8
        ensures { result ≡ code_of self.now }
    {
        match self {
            Status::Done => 0,
            Status::Usage => 2,
            Status::Refused { .. } => 3,
            Status::ReadFault => 4,
            Status::WriteFault => 5,
            Status::NoMemory => 6,
        }
    }

    /// How a run ends where the reading stopped.
    pub(crate) fn unread(stop: &ReadStop) -> Status
        ensures { result ≡ stop_status stop.now }
    {
        match stop {
            ReadStop::Failed => Status::ReadFault,
            ReadStop::TooLong => Status::Refused {
                line: 0,
                fault: TopFault::Script(ScriptFault::TooLong),
            },
            ReadStop::NoMemory => Status::NoMemory,
        }
    }
}
