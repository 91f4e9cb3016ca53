//! Why a text is no settings text.
use thiserror::Error;

/// Why a line of a settings text breaks.
#[derive(Clone, Copy, Debug, PartialEq, Eq, Error)]
pub enum IniFault {
    /// The line has no `=`.
    #[error("NoEquals")]
    NoEquals,
    /// The value is not of the option's kind.
    #[error("BadValue")]
    BadValue,
    /// The value is out of the option's range.
    #[error("OutOfRange")]
    OutOfRange,
}
