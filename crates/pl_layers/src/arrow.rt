//! From one point to another.

/// The way from one point to another, in nanometres.
#[derive(Clone, Copy, Debug, PartialEq, Eq)]
pub struct Arrow {
    pub x: i64,
    pub y: i64,
    pub z: i64,
}
