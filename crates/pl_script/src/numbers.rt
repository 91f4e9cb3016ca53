// Whole numbers and lengths in words.
ghost use Rattle.std.specs.Prelude.{◌≡◌, ◌≤◌, ◌^◌, length, IfSome};
ghost use Rattle.std.specs.List.{list_all};
ghost use Rattle.std.specs.Char.{is_ascii_digit};
ghost use Rattle.pl_units.specs.Numeral.{written};
ghost use Rattle.pl_script.specs.Forms.{has_leading_zero, is_whole, up_to, whole_of, session_of, byte_of, nm_of};

use pl_units::{Nm, read_mm};

// Whether a zero stands before further bytes.
fn has_leading_zero(word: &[u8]) -> bool
    ensures { result ≡ has_leading_zero word.now }
{
    match word {
        [first, _, ..] => *first == b'0',
        _ => false,
    }
}

fn are_digits(word: &[u8]) -> bool
    ensures { result ≡ list_all is_ascii_digit word.now }
{
    word.iter().all(|byte| byte.is_ascii_digit())
}

// Whether a word is a whole number: digits, the first of several no zero.
pub(crate) fn is_whole(word: &[u8]) -> bool
    ensures { result ≡ is_whole word.now }
{
    1 <= word.len() && !has_leading_zero(word) && are_digits(word)
}

// The number that digits write, where it is at most so great.
fn up_to(most: u32, digits: &[u8]) -> Option<u32>
    requires { most ≤ 10000 }
    ensures { result ≡ up_to most (written digits.now) }
{
    let mut number = 0;
    for digit in digits {
        if !digit.is_ascii_digit() {
            return None;
        }
        number = number * 10 + u32::from(*digit - b'0');
        if number > most {
            return None;
        }
    }
    Some(number)
}

/// The whole number of a word, in decimal without leading zeros, where it is at most so great. `most` is at most 10,000.
pub fn whole_of(most: u32, word: &[u8]) -> Option<u32>
    requires { most ≤ 10000 }
    ensures number { result ≡ whole_of most word.now }
    ensures most { IfSome result (λ number. number ≤ most) }
{
    if !is_whole(word) {
        return None;
    }
    up_to(most, word)
}

// The whole number of a word, where it is at most so great and a byte.
pub(crate) fn small_of(most: u8, word: &[u8]) -> Option<u8>
    ensures number { result ≡ whole_of most word.now }
    ensures most { IfSome result (λ number. number ≤ most) }
{
    let number = whole_of(u32::from(most), word)?;
    Some(number as u8)
}

// A place on the plate, or an instance at a place.
pub(crate) fn byte_of(word: &[u8]) -> Option<u8>
    ensures { result ≡ byte_of word.now }
{
    small_of(255, word)
}

// The session that a word names, from 1 to 16.
pub(crate) fn session_of(word: &[u8]) -> Option<u8>
    ensures { result ≡ session_of word.now }
{
    let number = small_of(16, word)?;
    if 1 <= number { Some(number) } else { None }
}

// The length of a word, in millimetres.
pub(crate) fn nm_of(word: &[u8]) -> Option<Nm>
    requires { length word.now ≤ 2 ^ 28 }
    ensures { result ≡ nm_of word.now }
{
    read_mm(word).ok()
}
