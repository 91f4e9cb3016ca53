//! What each step on the table tells, and how a view is cut in two and two views are made one.
ghost use Rattle.pl_epochs.specs.Steps.{loaded, raised, compared, itself, new_reader, with_note, spent_view};

use crate::view::View;
use atomic_table::{Join, Play, Split};

/// A reader loads the word of a slot.
pub(crate) struct Load;

impl Play<u8, View> for Load {
    ghost then = { loaded };
}

/// The writer raises the word of a slot by one.
pub(crate) struct Raise;

impl Play<u8, View> for Raise {
    ghost then = { raised };
}

/// The writer loads a word: no number of a note that was joined into it is above its count.
pub(crate) struct Compare;

impl Play<u8, View> for Compare {
    ghost then = { compared };
}

/// The first reader is split off the writer.
pub(crate) struct First;

impl Split<View> for First {
    ghost left = { itself };

    ghost right = { new_reader };
}

/// A reader is split off another.
pub(crate) struct Another;

impl Split<View> for Another {
    ghost left = { itself };

    ghost right = { itself };
}

/// A note is joined into the writer.
pub(crate) struct Note;

impl Join<View> for Note {
    ghost both = { with_note };

    ghost spent = { spent_view };
}
