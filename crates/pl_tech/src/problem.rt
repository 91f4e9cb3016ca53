use thiserror::Error;

/// Why a plate can't be printed.
#[derive(Clone, Copy, Debug, PartialEq, Eq, Error)]
pub enum Problem {
    /// No place is filled.
    #[error("Empty")]
    Empty,
    /// The object at this place leaves the bed with this instance.
    #[error("OutOfBed {0} {1}")]
    OutOfBed(u8, u8),
    /// The object at this place has too many cells.
    #[error("TooManyCells {0}")]
    TooManyCells(u8),
}
