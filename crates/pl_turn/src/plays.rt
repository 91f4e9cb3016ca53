//! What each step on the table of a lock tells, and how a view is cut in two and two views are made one.
ghost use Rattle.pl_turn.specs.Steps.{drawn_by, looked, confirmed, ended, with_split, newborn, spent_view, with_joined};

use crate::Turned;
use crate::view::View;
use atomic_table::{Join, Play, Split};
use std::marker::PhantomData;

/// A ticket is drawn, where the word was the one expected.
pub(crate) struct Draw;

impl<S, E, H> Play<Option<S>, View<E, H>> for Draw {
    ghost then = { drawn_by };
}

/// Which ticket is served is read. Where it is the seat's, the seat takes the slot.
pub(crate) struct Look<V> {
    value: PhantomData<V>,
}

impl<V: Turned> Play<Option<V>, View<V::Entry, V::Home>> for Look<V> {
    ghost then = { looked V.history V.home V.caller };
}

/// Which ticket is served is read by a seat that has drawn none: its entries stand in what it has seen.
pub(crate) struct Confirm<V> {
    value: PhantomData<V>,
}

impl<V: Turned> Play<Option<V>, View<V::Entry, V::Home>> for Confirm<V> {
    ghost then = { confirmed V.caller };
}

/// The slot is given back, and the next ticket is served.
pub(crate) struct End<V> {
    value: PhantomData<V>,
}

impl<V: Turned> Play<Option<V>, View<V::Entry, V::Home>> for End<V> {
    ghost then = { ended V.history V.caller };
}

/// A new pass is split off the first one.
pub(crate) struct Cut;

impl<E, H> Split<View<E, H>> for Cut {
    ghost left = { with_split };

    ghost right = { newborn };
}

/// A pass is joined into another.
pub(crate) struct Glue;

impl<E, H> Join<View<E, H>> for Glue {
    ghost both = { with_joined };

    ghost spent = { spent_view };
}
