//! The lengths of plain numerals, which are most of a mesh text: a sign or none, and at most twelve digits with at most
//! one point, no more than six of them after it.
ghost use Rattle.std.specs.Prelude.{◌≡◌, ◌==◌, ◌+◌, ◌*◌, ◌^◌, ◌<◌, ◌≤◌, ℕ, false, length, position, IfSome, Ok, Some};
ghost use Rattle.pl_units.specs.Numeral.{digits_after, is_mark, signed};
ghost use Rattle.pl_units.specs.Lengths.{is_minus, after_sign, of_digits, of_mark, length_of_numeral, length_of};

use pl_units::Nm;

// Whether a minus stands first.
fn has_minus(word: &[u8]) -> bool
    ensures { result ≡ is_minus word.now }
{
    match word {
        [first, ..] => *first == b'-',
        [] => false,
    }
}

// A word without the sign before it.
fn without_sign(word: &[u8]) -> &[u8]
    ensures sign { result.now ≡ after_sign word.now }
    ensures shorter { length result.now ≤ length word.now }
{
    match word {
        [b'+' | b'-', rest @ ..] => rest,
        _ => word,
    }
}

// The number that digits write after those of a number, of which so many were read; none where a byte is no digit.
fn digits(start: u64, before: usize, text: &[u8]) -> Option<u64>
    requires room { before + length text.now ≤ 12 }
    requires small { start < 10 ^ before }
    ensures value { IfSome result (λ number. digits_after start text.now ≡ Some number) }
    ensures small { IfSome result (λ number. number < 10 ^ (before + length text.now)) }
{
    let mut number = start;
    for b in text {
        if !b.is_ascii_digit() {
            return None;
        }
        number = number * 10 + u64::from(*b - b'0');
    }
    Some(number)
}

// The nanometres that the last of so many digits after the point counts, up to six of them.
fn unit_of(places: usize) -> Option<u64>
    ensures value { IfSome result (λ unit. unit * 10 ^ places ≡ 1000000) }
    ensures small { IfSome result (λ unit. unit ≤ 1000000) }
{
    match places {
        0 => Some(1_000_000),
        1 => Some(100_000),
        2 => Some(10_000),
        3 => Some(1_000),
        4 => Some(100),
        5 => Some(10),
        6 => Some(1),
        _ => None,
    }
}

// A length by its size.
fn with_sign(negative: bool, size: u64) -> Nm
    requires { size ≤ 10 ^ 9 }
    ensures { result ≡ record { 0 = signed negative size } }
{
    let length = size as i64;
    Nm(if negative { -length } else { length })
}

// The length of the digits before and after the point.
fn with_digits(negative: bool, before: &[u8], after: &[u8]) -> Option<Nm>
    requires { length before.now + length after.now ≤ 12 }
    ensures { IfSome result (λ nm. length_of_numeral (of_digits negative before.now after.now record { below = false; size = 0 }) ≡ Ok nm) }
{
    if before.len() + after.len() == 0 {
        return None;
    }
    let unit = unit_of(after.len())?;
    let whole = digits(0, 0, before)?;
    let number = digits(whole, before.len(), after)?;
    let size = number * unit;
    if size > 1_000_000_000 {
        return None;
    }
    Some(with_sign(negative, size))
}

// The place of the point.
fn point_of(text: &[u8]) -> Option<usize>
    ensures { result ≡ position (λ b. b == 46) text.now }
{
    text.iter().position(|b| *b == b'.')
}

// The length of what follows the sign.
fn with_point(negative: bool, text: &[u8]) -> Option<Nm>
    requires { length text.now ≤ 12 }
    ensures { IfSome result (λ nm. length_of_numeral (of_mark negative (position is_mark text.now) text.now) ≡ Ok nm) }
{
    match point_of(text) {
        None => with_digits(negative, text, &[]),
        Some(at) => with_digits(negative, &text[..at], &text[at + 1..]),
    }
}

/// The length of a word, where it is a plain numeral of at most a metre.
pub fn plain(word: &[u8]) -> Option<Nm>
    ensures { IfSome result (λ nm. length_of word.now ≡ Ok nm) }
{
    let text = without_sign(word);
    if text.len() > 12 {
        return None;
    }
    with_point(has_minus(word), text)
}
