//! Why a text is no input of `slice`.
use pl_options::IniFault;
use pl_script::ScriptFault;
use pl_stl::StlFault;
use pl_tech::Problem;
use thiserror::Error;

/// Why a text is no input of `slice`.
#[derive(Clone, Copy, Debug, PartialEq, Eq, Error)]
pub enum SliceFault {
    /// A line of the text is none that may stand there, or the text has no mesh: one of `NoHead`, `BadLine`, `SameData`,
    /// `CutData` and `NoData`.
    #[error("{0}")]
    Script(ScriptFault),
    /// A line of the settings breaks.
    #[error("{0}")]
    Ini(IniFault),
    /// The mesh breaks at a line.
    #[error("{0}")]
    Stl(StlFault),
    /// The plate can't be printed.
    #[error("{0}")]
    Problem(Problem),
}
