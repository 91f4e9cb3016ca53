//! What an edit answers.
use pl_options::IniFault;
use pl_stl::StlFault;
use thiserror::Error;

/// Why an edit was refused; the plate is as before. Where several hold, the first of this order is named.
#[derive(Clone, Copy, Debug, PartialEq, Eq, Error)]
pub enum EditRefusal {
    /// No object is at the place.
    #[error("NoObject")]
    NoObject,
    /// The object has no such instance.
    #[error("NoInstance")]
    NoInstance,
    /// The table of options has no such key.
    #[error("UnknownKey")]
    UnknownKey,
    /// Objects have no values of this option of their own.
    #[error("NotObjectKey")]
    NotObjectKey,
    /// The text of the value is not of the option's kind.
    #[error("BadValue")]
    BadValue,
    /// The value is out of the option's range.
    #[error("OutOfRange")]
    OutOfRange,
    /// The block is no mesh text: its first breach is this fault at this line of the block, counted from 1.
    #[error("BadStl {0} {1}")]
    BadStl(u32, StlFault),
    /// The block is no settings text: its first breach is this fault at this line of the block, counted from 1.
    #[error("BadIni {0} {1}")]
    BadIni(u32, IniFault),
    /// All 16 places are filled.
    #[error("FullObjects")]
    FullObjects,
    /// The object has 16 instances.
    #[error("FullInstances")]
    FullInstances,
    /// The object has no other instance.
    #[error("LastInstance")]
    LastInstance,
}

/// What an edit answers.
#[derive(Clone, Copy, Debug, PartialEq, Eq)]
pub enum EditReply {
    /// The edit is made.
    Done,
    /// The mesh fills this place, from 0 to 15.
    Object(u8),
    /// The new instance has this number, from 1 to 15.
    Instance(u8),
    /// So many lines of the settings text have a key of the table, and so many another key.
    Set {
        /// Lines with a key of the table.
        taken: u32,
        /// Lines with another key.
        passed: u32,
    },
    /// Nothing changed.
    Refused(EditRefusal),
}
