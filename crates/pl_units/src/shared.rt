use crate::NoMemory;
use std::marker::Model;
use std::sync::Arc;

/// A value with several owners: an `Arc` that contracts see as what it holds.
#[derive(Drop)]
pub struct Shared<X> {
    arc: Arc<X>,
}

impl<X> Model for Shared<X> {
    ghost use Rattle.std.specs.Arc.{arc_value};

    ghost Value = { X };

    ghost coded = { X.code };

    ghost view = { λ s. arc_value s.arc };
}

impl<X> Shared<X> {
    ghost use Rattle.std.specs.Prelude.{◌≡◌, IfOk};
    ghost use Rattle.std.specs.Arc.{arc_value};

    /// What the `Arc` holds, of which this is one owner.
    pub fn of(arc: Arc<X>) -> Shared<X>
        ensures { result ≡ arc_value arc }
    {
        Shared { arc }
    }

    /// The value.
    pub fn get(&self) -> &X
        ensures { result.now ≡ self.now }
    {
        &self.arc
    }

    /// One more owner of the same value. It takes no memory, and is refused where the count of owners is full, at 2^63 - 1.
    pub fn copied(&self) -> Result<Shared<X>, NoMemory>
        ensures { IfOk result (λ copy. copy ≡ self.now) }
    {
        Ok(Shared {
            arc: Arc::try_clone(&self.arc)?,
        })
    }
}
