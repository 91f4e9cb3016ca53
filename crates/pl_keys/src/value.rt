//! Values of options.
ghost use Rattle.std.specs.Prelude.{◌≡◌, ◌↔◌, IfOk, OnErr, IsTrue};
ghost use Rattle.pl_keys.specs.declared.key.Kind.TheVariants as kinds;
ghost use Rattle.pl_keys.specs.Table.{row};
ghost use Rattle.pl_keys.specs.Values.{default_of, IsValueOf, IsWords};

use crate::key::{Key, Kind, kind_of};
use crate::table::limits_of;
use pl_units::{Nm, NoMemory, Text};
use std::alloc::Global;
use thiserror::Error;

/// A value of an option: of percentages and factors the whole number, for a factor in hundredths.
#[derive(Drop)]
pub enum Value {
    /// A length in nanometres.
    Length(Nm),
    /// A whole number, a percentage, or a factor in hundredths.
    Whole(i64),
    /// Yes or no.
    Flag(bool),
    /// Bytes, at most 65,536.
    Words(Text),
}

/// Why a text has no value of an option.
#[derive(Clone, Copy, Debug, PartialEq, Eq, Error)]
pub enum ValueFault {
    /// The text is not of the option's kind.
    #[error("BadValue")]
    BadValue,
    /// The text's value is out of the option's range.
    #[error("OutOfRange")]
    OutOfRange,
}

/// Why no value of an option was read.
#[derive(Clone, Copy, Debug, PartialEq, Eq, Error)]
pub enum ValueStop {
    /// The text is not of the option's kind.
    #[error("BadValue")]
    BadValue,
    /// The text's value is out of the option's range.
    #[error("OutOfRange")]
    OutOfRange,
    /// Memory was wanted and not had.
    #[error("NoMemory")]
    NoMemory,
}

impl From<NoMemory> for ValueStop {
    ghost use Rattle.std.specs.Prelude.{◌≡◌};
    ghost use Rattle.pl_keys.specs.declared.value.ValueStop.TheVariants as stops;

    ghost from_gives = { λ _ stop. stop ≡ stops.NoMemory };

    fn from(_: NoMemory) -> Self {
        ValueStop::NoMemory
    }
}

impl From<ValueFault> for ValueStop {
    ghost use Rattle.std.specs.Prelude.{◌≡◌};
    ghost use Rattle.pl_keys.specs.Values.{stop_of};

    ghost from_gives = { λ fault stop. stop ≡ stop_of fault };

    fn from(fault: ValueFault) -> Self {
        match fault {
            ValueFault::BadValue => ValueStop::BadValue,
            ValueFault::OutOfRange => ValueStop::OutOfRange,
        }
    }
}

/// The default of an option. `NoMemory` comes at texts alone.
pub fn default_value(alloc: Global, key: Key) -> Result<Value, NoMemory>
    ensures value { IfOk result (λ value. value ≡ default_of key) }
    ensures fits { IfOk result (λ value. IsValueOf key value) }
    ensures memory { OnErr result ((row key).kind ≡ kinds.Text) }
{
    let number = i64::from(limits_of(key).default);
    match kind_of(key) {
        Kind::Length => Ok(Value::Length(Nm(number))),
        Kind::Whole | Kind::Percent | Kind::Factor => Ok(Value::Whole(number)),
        Kind::Flag => Ok(Value::Flag(number == 1)),
        Kind::Text => Ok(Value::Words(Text::copy_of(alloc, &[])?)),
    }
}

impl Value {
    /// An equal value. `NoMemory` comes at words alone.
    pub fn copied(&self, alloc: Global) -> Result<Value, NoMemory>
        ensures value { IfOk result (λ copy. copy ≡ self.now) }
        ensures memory { OnErr result (IsWords self.now) }
    {
        match self {
            Value::Length(length) => Ok(Value::Length(*length)),
            Value::Whole(number) => Ok(Value::Whole(*number)),
            Value::Flag(flag) => Ok(Value::Flag(*flag)),
            Value::Words(words) => Ok(Value::Words(Text::copy_of(alloc, words.bytes())?)),
        }
    }

    /// Whether two values are equal.
    pub fn same(&self, other: &Value) -> bool
        ensures { IsTrue result ↔ (self.now ≡ other.now) }
    {
        match (self, other) {
            (Value::Length(one), Value::Length(another)) => one == another,
            (Value::Whole(one), Value::Whole(another)) => one == another,
            (Value::Flag(one), Value::Flag(another)) => one == another,
            (Value::Words(one), Value::Words(another)) => one.bytes() == another.bytes(),
            _ => false,
        }
    }
}
