//! What a lock knows of the value that it keeps.
ghost use Rattle.std.specs.Prelude.{ℕ, List};

/// A value that keeps a history, under a lock.
pub trait Turned {
    /// One entry of the history.
    type Entry;

    /// What no turn changes. `()` where there is nothing of the kind.
    type Home;

    /// The entries that the value stores, in order.
    ghost history: { Self → List Self.Entry };

    /// The number of the pass that made an entry.
    ghost caller: { Self.Entry → ℕ };

    /// What no turn changes.
    ghost home: { Self → Self.Home };
}
