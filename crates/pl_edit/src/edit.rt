//! The edits of a plate.
use crate::block::{Block, ValueText};
use pl_units::{Nm, Shared, Text};

/// One change of a plate. Places are from 0 to 15, instances are counted from 0, shifts are in nanometres.
#[derive(Drop)]
pub enum Edit {
    /// Puts the mesh of a block into the least free place, under a name.
    Load {
        /// The object's name, of any bytes.
        name: Text,
        /// The text of the mesh.
        block: Shared<Block>,
    },
    /// Gives the object at a place the mesh of a block.
    Reload {
        /// From 0 to 15; no object is above.
        place: u8,
        /// The text of the mesh.
        block: Shared<Block>,
    },
    /// Empties a place.
    Delete {
        /// From 0 to 15; no object is above.
        place: u8,
    },
    /// Gives the object at a place one more instance, at this shift, behind the others.
    Copy {
        /// From 0 to 15; no object is above.
        place: u8,
        /// To the right, in nanometres.
        x: Nm,
        /// Upwards, in nanometres.
        y: Nm,
    },
    /// Gives an instance another shift.
    Move {
        /// From 0 to 15; no object is above.
        place: u8,
        /// From 0 on; an object has at most 16.
        instance: u8,
        /// To the right, in nanometres.
        x: Nm,
        /// Upwards, in nanometres.
        y: Nm,
    },
    /// Takes an instance away. The later ones move down.
    Drop {
        /// From 0 to 15; no object is above.
        place: u8,
        /// From 0 on; an object has at most 16.
        instance: u8,
    },
    /// Turns the object at a place to so many quarter turns counterclockwise, where four are none.
    Turn {
        /// From 0 to 15; no object is above.
        place: u8,
        /// From 0 to 255; what is left by 4 counts.
        quarter: u8,
    },
    /// Gives an option of the configuration the value of a text.
    Set {
        /// The option's name, as the table has it.
        key: Text,
        /// The value's text, at most 2^28 bytes.
        value: ValueText,
    },
    /// Gives an option of the object at a place the value of a text.
    Override {
        /// From 0 to 15; no object is above.
        place: u8,
        /// The option's name, as the table has it.
        key: Text,
        /// The value's text, at most 2^28 bytes.
        value: ValueText,
    },
    /// Takes what the object at a place has of its own for an option.
    Unset {
        /// From 0 to 15; no object is above.
        place: u8,
        /// The option's name, as the table has it.
        key: Text,
    },
    /// Puts all values of a settings text into the configuration.
    Ini {
        /// The settings text.
        block: Shared<Block>,
    },
}
