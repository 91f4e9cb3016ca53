//! Numerals of lengths in millimetres.
ghost use Rattle.std.specs.Prelude.{◌≡◌, ◌↔◌, ◌==◌, ◌+◌, ◌*◌, ◌^◌, ◌<◌, ◌≤◌, ℕ, length, position, IfSome, IfNone, Ok, Err, Some, None};
ghost use Rattle.pl_units.specs.declared.Nm.{Nm};
ghost use Rattle.pl_units.specs.Numeral.{digits_after, is_mark, raised, lowered, signed, IsSize, IsLength, IsTooFar, IsNoNumeral};
ghost use Rattle.pl_units.specs.Lengths.{is_minus, after_sign, exponent_of, of_digits, of_point, decimal_of, of_mark, numeral_of, length_of};

use crate::Nm;
use crate::scaled::scaled;
use thiserror::Error;

/// Why a text writes no length.
#[derive(Clone, Copy, Debug, PartialEq, Eq, Error)]
pub enum NumberFault {
    /// The text is no numeral.
    #[error("BadNumber")]
    BadNumber,
    /// The numeral's length is beyond 1,000,000,000 nm in size.
    #[error("TooFar")]
    TooFar,
}

/// A power of ten: its size, and whether it is below zero.
#[derive(Clone, Copy)]
pub struct Exponent {
    pub below: bool,
    pub size: u32,
}

/// A numeral by its parts: whether it has a minus, the number of all its digits, how many of them stand after
/// the point, and its exponent.
#[derive(Clone, Copy)]
pub struct Numeral {
    pub negative: bool,
    pub number: u128,
    pub places: u32,
    pub exponent: Exponent,
}

// Whether a minus stands first.
fn has_minus(text: &[u8]) -> bool
    ensures { result ≡ is_minus text.now }
{
    match text {
        [first, ..] => *first == b'-',
        [] => false,
    }
}

// A text without the sign before it.
fn without_sign(text: &[u8]) -> &[u8]
    ensures { result.now ≡ after_sign text.now }
{
    match text {
        [b'+' | b'-', rest @ ..] => rest,
        _ => text,
    }
}

// The number that digits write after those of a number, of which so many were read; no number where a byte is
// no digit.
fn digits(start: u128, before: usize, text: &[u8]) -> Option<u128>
    requires room { before + length text.now ≤ 30 }
    requires small { start < 10 ^ before }
    ensures value { result ≡ digits_after start text.now }
    ensures small { IfSome result (λ number. number < 10 ^ (before + length text.now)) }
{
    let mut number = start;
    for b in text {
        if !b.is_ascii_digit() {
            return None;
        }
        number = number * 10 + u128::from(*b - b'0');
    }
    Some(number)
}

// The exponent after its letter.
fn read_exponent(text: &[u8]) -> Option<Exponent>
    ensures value { result ≡ exponent_of text.now }
    ensures small { IfSome result (λ exponent. exponent.size ≤ 60) }
{
    let power = without_sign(text);
    if power.is_empty() || power.len() > 4 {
        return None;
    }
    let size = digits(0, 0, power)?;
    if size > 60 {
        return None;
    }
    Some(Exponent {
        below: has_minus(text),
        size: size as u32,
    })
}

// The numeral of the digits before and after the point.
fn with_digits(negative: bool, before: &[u8], after: &[u8], exponent: Exponent) -> Option<Numeral>
    ensures value { result ≡ of_digits negative before.now after.now exponent }
    ensures small { IfSome result (λ n. (n.number < 10 ^ 30) × (n.places ≤ 30) × (n.exponent ≡ exponent)) }
{
    let count = before.len() + after.len();
    if count == 0 || count > 30 {
        return None;
    }
    let whole = digits(0, 0, before)?;
    let number = digits(whole, before.len(), after)?;
    Some(Numeral {
        negative,
        number,
        places: after.len() as u32,
        exponent,
    })
}

// The place of the point.
fn point_of(text: &[u8]) -> Option<usize>
    ensures { result ≡ position (λ b. b == 46) text.now }
{
    text.iter().position(|b| *b == b'.')
}

// The numeral of digits with at most one point.
fn with_point(negative: bool, text: &[u8], exponent: Exponent) -> Option<Numeral>
    ensures value { result ≡ decimal_of negative text.now (Some exponent) }
    ensures small { IfSome result (λ n. (n.number < 10 ^ 30) × (n.places ≤ 30) × (n.exponent ≡ exponent)) }
{
    match point_of(text) {
        None => with_digits(negative, text, &[], exponent),
        Some(at) => with_digits(negative, &text[..at], &text[at + 1..], exponent),
    }
}

// The place of the exponent's letter.
fn mark_of(text: &[u8]) -> Option<usize>
    ensures { result ≡ position is_mark text.now }
{
    text.iter().position(|b| *b == b'e' || *b == b'E')
}

// The numeral of what follows the sign.
fn with_mark(negative: bool, text: &[u8]) -> Option<Numeral>
    ensures value { result ≡ of_mark negative (position is_mark text.now) text.now }
    ensures small { IfSome result (λ n. (n.number < 10 ^ 30) × (n.places ≤ 30) × (n.exponent.size ≤ 60)) }
{
    match mark_of(text) {
        None => with_point(
            negative,
            text,
            Exponent {
                below: false,
                size: 0,
            },
        ),
        Some(at) => with_point(negative, &text[..at], read_exponent(&text[at + 1..])?),
    }
}

// The parts of a numeral.
fn parts(text: &[u8]) -> Option<Numeral>
    ensures value { result ≡ numeral_of text.now }
    ensures small { IfSome result (λ n. (n.number < 10 ^ 30) × (n.places ≤ 30) × (n.exponent.size ≤ 60)) }
{
    with_mark(has_minus(text), without_sign(text))
}

// The size of a numeral's value in nanometres, where it is at most a metre.
fn size(n: Numeral) -> Option<u64>
    requires { (n.number < 10 ^ 30) × (n.places ≤ 30) × (n.exponent.size ≤ 60) }
    ensures near { IfSome result (λ size. IsSize n size) }
    ensures within { IfSome result (λ size. size ≤ 10 ^ 9) }
    ensures far { IfNone result ((size : ℕ) → IsSize n size → 10 ^ 9 < size) }
{
    if n.exponent.below {
        scaled(n.number, 6, n.places + n.exponent.size)
    } else {
        scaled(n.number, 6 + n.exponent.size, n.places)
    }
}

// A length by its size.
fn with_sign(negative: bool, size: u64) -> Nm
    requires { size ≤ 10 ^ 9 }
    ensures { result ≡ record { 0 = signed negative size } }
{
    let length = size as i64;
    Nm(if negative { -length } else { length })
}

// The length of a text.
fn read_length(text: &[u8]) -> Result<Nm, NumberFault>
    ensures { result ≡ length_of text.now }
{
    let Some(numeral) = parts(text) else {
        return Err(NumberFault::BadNumber);
    };
    match size(numeral) {
        None => Err(NumberFault::TooFar),
        Some(size) => Ok(with_sign(numeral.negative, size)),
    }
}

/// The length that a numeral of millimetres writes: perhaps a sign; 1 to 30 digits with at most one point before,
/// between or after them; perhaps `e` or `E`, a sign and 1 to 4 digits of a value up to 60. Its value is rounded to whole
/// nanometres, halves away from zero. `BadNumber` exactly where the bytes are no numeral, `TooFar` exactly where the
/// rounded length is beyond 1,000,000,000 nm in size.
pub fn read_mm(bytes: &[u8]) -> Result<Nm, NumberFault>
    requires { length bytes.now ≤ 2 ^ 28 }
    ensures value { (nm : Nm) → (result ≡ Ok nm) ↔ IsLength bytes.now nm }
    ensures far { (result ≡ Err NumberFault.TooFar) ↔ IsTooFar bytes.now }
    ensures bad { (result ≡ Err NumberFault.BadNumber) ↔ IsNoNumeral bytes.now }
    ensures same { result ≡ length_of bytes.now }
{
    read_length(bytes)
}
