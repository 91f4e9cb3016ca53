//! Reading the value of an option.
ghost use Rattle.std.specs.Prelude.{◌≡◌, ◌≢◌, ◌≤◌, ◌^◌, ◌<◌, ◌==◌, ◌⊎◌, ◌++◌, ◌∷◌, [], ℕ, List, length, pos, IfOk, IfSome, IfNone, OnOk, Err};
ghost use Rattle.std.specs.List.{position};
ghost use Rattle.std.specs.Option.{option_to_list};
ghost use Rattle.pl_units.specs.Lengths.{rounded};
ghost use Rattle.pl_keys.specs.declared.key.Kind.TheVariants as kinds;
ghost use Rattle.pl_keys.specs.declared.value.ValueStop.TheVariants as stops;
ghost use Rattle.pl_keys.specs.Limits.{limits};
ghost use Rattle.pl_keys.specs.Table.{row};
ghost use Rattle.pl_keys.specs.Values.{Answers, IsValueOf, value_of, value_in, number_in, flag_in, words_in, before_comma, without_percent, numeral_in, in_range, in_units, number_of, unescaped};

use crate::key::{Key, Kind, kind_of};
use crate::table::{Limits, limits_of};
use crate::value::{Value, ValueFault, ValueStop};
use crate::white::{trim, trim_end};
use pl_units::{Nm, NumberFault, Text, read_mm};
use std::alloc::Global;

// The most bytes of a text.
const MOST_BYTES: usize = 65_536;

// Where the first comma stands.
fn comma_of(text: &[u8]) -> Option<usize>
    ensures { result ≡ position (λ b. b == 44) text.now }
{
    text.iter().position(|b| *b == b',')
}

// A text up to its first comma, with no white space at its end.
fn before_comma(text: &[u8]) -> &[u8]
    ensures numeral { result.now ≡ before_comma text.now }
    ensures short { length result.now ≤ length text.now }
{
    let end = comma_of(text).unwrap_or(text.len());
    trim_end(&text[..end])
}

// A text without one percent sign at its end.
fn without_percent(text: &[u8]) -> &[u8]
    ensures numeral { result.now ≡ without_percent text.now }
    ensures short { length result.now ≤ length text.now }
{
    match text {
        [front @ .., b'%'] => front,
        _ => text,
    }
}

// The numeral in a text of a kind.
fn numeral_in(kind: Kind, text: &[u8]) -> &[u8]
    ensures numeral { result.now ≡ numeral_in kind text.now }
    ensures short { length result.now ≤ length text.now }
{
    match kind {
        Kind::Percent => without_percent(before_comma(text)),
        _ => before_comma(text),
    }
}

// A size in units of so many, halves up.
fn rounded(size: u64, unit: u64) -> i64
    requires size { size ≤ 2 ^ 63 }
    requires units { (unit ≡ 10000) ⊎ (unit ≡ 1000000) }
    ensures value { result ≡ pos (rounded size unit) }
    ensures small { rounded size unit ≤ 2 ^ 60 }
{
    ((size + unit / 2) / unit) as i64
}

// Nanometres in units of so many, halves away from zero.
fn in_units(nanometres: i64, unit: u64) -> i64
    requires { (unit ≡ 10000) ⊎ (unit ≡ 1000000) }
    ensures { result ≡ in_units unit nanometres }
{
    let size = rounded(nanometres.unsigned_abs(), unit);
    if nanometres < 0 { -size } else { size }
}

// The number of a kind that a length stands for.
fn number_of(kind: Kind, nanometres: i64) -> i64
    ensures { result ≡ number_of kind nanometres }
{
    match kind {
        Kind::Length => nanometres,
        Kind::Factor => in_units(nanometres, 10_000),
        _ => in_units(nanometres, 1_000_000),
    }
}

// Whether a number is in range.
fn in_range(limits: Limits, number: i64) -> bool
    ensures { result ≡ in_range limits.least limits.greatest number }
{
    i64::from(limits.least) <= number && number <= i64::from(limits.greatest)
}

// The number that a text writes.
fn read_number(key: Key, text: &[u8]) -> Result<Value, ValueFault>
    requires { length text.now ≤ 2 ^ 28 }
    ensures { result ≡ number_in (row key) text.now }
{
    let kind = kind_of(key);
    let length = match read_mm(numeral_in(kind, text)) {
        Ok(length) => length,
        Err(NumberFault::BadNumber) => return Err(ValueFault::BadValue),
        Err(NumberFault::TooFar) => return Err(ValueFault::OutOfRange),
    };
    let number = number_of(kind, length.0);
    if !in_range(limits_of(key), number) {
        return Err(ValueFault::OutOfRange);
    }
    match kind {
        Kind::Length => Ok(Value::Length(Nm(number))),
        _ => Ok(Value::Whole(number)),
    }
}

// The flag that a text writes.
fn read_flag(text: &[u8]) -> Result<Value, ValueFault>
    ensures { result ≡ flag_in text.now }
{
    match text {
        b"0" => Ok(Value::Flag(false)),
        b"1" => Ok(Value::Flag(true)),
        _ => Err(ValueFault::BadValue),
    }
}

// The first byte that a text with escapes stands for, unless it begins with one for nothing, and what follows.
fn first_byte(text: &[u8]) -> Option<(Option<u8>, &[u8])>
    ensures byte { IfSome result (λ first. unescaped text.now ≡ option_to_list first.0 ++ unescaped first.1.now) }
    ensures rest { IfSome result (λ first. length first.1.now < length text.now) }
    ensures none { IfNone result (text.now ≡ []) }
{
    match text {
        [b'\\', b'n', rest @ ..] => Some((Some(b'\n'), rest)),
        [b'\\', b'r', rest @ ..] => Some((None, rest)),
        [b'\\', b'\\', rest @ ..] => Some((Some(b'\\'), rest)),
        [byte, rest @ ..] => Some((Some(*byte), rest)),
        [] => None,
    }
}

// Puts a byte to a text of at most 65,536.
fn put(words: &mut Text, byte: u8) -> Result<(), ValueStop>
    requires { length words.old ≤ 65536 }
    ensures ok { OnOk result ((words.new ≡ words.old ++ byte ∷ []) × (length words.new ≤ 65536)) }
    ensures full { result ≡ Err stops.OutOfRange → length words.old ≡ 65536 }
    ensures never { result ≢ Err stops.BadValue }
{
    if words.bytes().len() == MOST_BYTES {
        return Err(ValueStop::OutOfRange);
    }
    words.append(&[byte])?;
    Ok(())
}

// The words that a text writes.
fn read_words(alloc: Global, text: &[u8]) -> Result<Value, ValueStop>
    ensures { Answers result (words_in 65536 text.now) }
{
    let mut words = Text::copy_of(alloc, &[])?;
    let mut rest = text;
    while let Some((byte, after)) = first_byte(rest) {
        if let Some(byte) = byte {
            put(&mut words, byte)?;
        }
        rest = after;
    }
    Ok(Value::Words(words))
}

// The value that a text without white space at its ends writes for an option.
fn read_trimmed(alloc: Global, key: Key, text: &[u8]) -> Result<Value, ValueStop>
    requires { length text.now ≤ 2 ^ 28 }
    ensures said { Answers result (value_in (row key).kind (row key) text.now) }
    ensures memory { result ≡ Err stops.NoMemory → (row key).kind ≡ kinds.Text }
{
    match kind_of(key) {
        Kind::Flag => Ok(read_flag(text)?),
        Kind::Text => read_words(alloc, text),
        Kind::Length | Kind::Whole | Kind::Percent | Kind::Factor => Ok(read_number(key, text)?),
    }
}

/// The value that a text writes for an option. White space at both ends counts for nothing. `BadValue` exactly where the text
/// is not of the option's kind, `OutOfRange` exactly where it is, but its value is out of the option's range; `NoMemory` comes
/// at texts alone.
pub fn read_value(alloc: Global, key: Key, text: &[u8]) -> Result<Value, ValueStop>
    requires { length text.now ≤ 2 ^ 28 }
    ensures said { Answers result (value_of key text.now) }
    ensures fits { IfOk result (λ value. IsValueOf key value) }
    ensures memory { result ≡ Err stops.NoMemory → (row key).kind ≡ kinds.Text }
{
    read_trimmed(alloc, key, trim(text))
}
