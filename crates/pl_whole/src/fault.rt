//! Why a plate has no G-code.
use pl_tech::Problem;
use pl_units::NoMemory;
use thiserror::Error;

/// Why a plate has no G-code.
#[derive(Clone, Copy, Debug, PartialEq, Eq, Error)]
pub enum WholeFault {
    /// It can't be printed.
    #[error("{0}")]
    Problem(Problem),
    /// Memory was wanted and not had.
    #[error("out of memory")]
    NoMemory,
}

impl From<NoMemory> for WholeFault {
    ghost use Rattle.std.specs.Prelude.{◌≡◌};
    ghost use Rattle.pl_whole.specs.declared.fault.WholeFault.TheVariants as faults;

    ghost from_gives = { λ _ fault. fault ≡ faults.NoMemory };

    fn from(_: NoMemory) -> Self {
        WholeFault::NoMemory
    }
}
