//! Why an edit is not made.
use pl_edit::EditRefusal;
use pl_units::NoMemory;

/// Why an edit is not made.
#[derive(Clone, Copy, Debug, PartialEq, Eq)]
pub(crate) enum Stop {
    /// It is refused.
    Refused(EditRefusal),
    /// Memory was wanted and not had.
    NoMemory,
}

impl From<NoMemory> for Stop {
    ghost use Rattle.std.specs.Prelude.{◌≡◌};
    ghost use Rattle.pl_model.specs.declared.stop.Stop.TheVariants as stops;

    ghost from_gives = { λ _ stop. stop ≡ stops.NoMemory };

    fn from(_: NoMemory) -> Self {
        Stop::NoMemory
    }
}

impl From<EditRefusal> for Stop {
    ghost use Rattle.std.specs.Prelude.{◌≡◌};
    ghost use Rattle.pl_model.specs.declared.stop.Stop.TheVariants as stops;

    ghost from_gives = { λ refusal stop. stop ≡ stops.Refused refusal };

    fn from(refusal: EditRefusal) -> Self {
        Stop::Refused(refusal)
    }
}
