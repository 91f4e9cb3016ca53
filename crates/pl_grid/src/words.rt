//! Words of a plane: 64 cells of a row in each, the first in the lowest bit. A row begins with a word of its own.
ghost use Rattle.std.specs.Prelude.{◌≡◌, ◌+◌, ◌-◌, ◌*◌, ◌<◌, ◌≤◌, ◌==◌, ◌&&◌, ◌||◌, ℕ, not, nat_lt, true, false, length, replicate, IfOk, if◌then◌else◌};
ghost use Rattle.pl_grid.specs.Packed.{words_of, bit_place};
ghost use Rattle.pl_lanes.specs.Bits.{has_bit, is_set};

use crate::extent::Box2;
use pl_lanes::{minus_row, toggle_below};
use pl_units::NoMemory;
use std::alloc::Global;

impl Box2 {
    /// How many words a row takes, 0 to 128.
    pub(crate) fn row_words(self) -> usize
        ensures { result ≡ words_of self.cols }
    {
        (self.cols as usize + 63) / 64
    }

    /// How many words all rows take, 0 to 2^20.
    pub(crate) fn all_words(self) -> usize
        ensures { result ≡ self.rows * words_of self.cols }
    {
        self.rows as usize * self.row_words()
    }

    /// The number of the first word of a row.
    pub(crate) fn first_word(self, row: usize) -> usize
        requires { row < self.rows }
        ensures value { result ≡ row * words_of self.cols }
        ensures within { result + words_of self.cols ≤ self.rows * words_of self.cols }
    {
        let _rows = self.rows;
        row * self.row_words()
    }

    /// The place of a cell's bit among the bits of all words.
    pub(crate) fn bit_place(self, column: usize, row: usize) -> usize
        requires column { column < self.cols }
        requires row { row < self.rows }
        ensures value { result ≡ bit_place self.cols row column }
        ensures within { result < 64 * (self.rows * words_of self.cols) }
        ensures small { result < 67108864 }
    {
        64 * self.first_word(row) + column
    }
}

// ---- words

/// Bit `at` of a word.
fn has_bit(word: u64, at: usize) -> bool
    requires { at < 64 }
    ensures { result ≡ has_bit word at }
{
    (word >> at) & 1 == 1
}

/// The word with bit `at` set or unset.
fn with_bit(word: u64, at: usize, value: bool) -> u64
    requires { at < 64 }
    ensures { (k : ℕ) → k < 64 → has_bit result k ≡ (if k == at then value else has_bit word k) }
{
    if value {
        word | (1 << at)
    } else {
        word & !(1 << at)
    }
}

/// The place of the lowest bit that is set, or 64 where none is.
fn lowest_bit(word: u64) -> usize
    ensures most { result ≤ 64 }
    ensures below { (k : ℕ) → k < result → has_bit word k ≡ false }
    ensures here { result < 64 → has_bit word result ≡ true }
{
    word.trailing_zeros() as usize
}

/// How many bits of a word, from bit `at` on, are unset.
fn unset_from(word: u64, at: usize) -> usize
    requires { at < 64 }
    ensures some { has_bit word at ≡ false → 0 < result }
    ensures within { at + result ≤ 64 }
    ensures unset { (k : ℕ) → k < result → has_bit word (at + k) ≡ false }
{
    lowest_bit(word >> at).min(64 - at)
}

/// How many bits of a word, from bit `at` on, are alike, at least 1.
fn bits_alike(word: u64, at: usize) -> usize
    requires { at < 64 }
    ensures some { 0 < result }
    ensures within { at + result ≤ 64 }
    ensures alike { (k : ℕ) → k < result → has_bit word (at + k) ≡ has_bit word at }
{
    if has_bit(word, at) {
        unset_from(!word, at)
    } else {
        unset_from(word, at)
    }
}

/// The bits of a word moved up by 0 to 63 places, the lowest from the word before.
pub(crate) fn moved_up(before: u64, word: u64, by: usize) -> u64
    requires { by < 64 }
    ensures { (k : ℕ) → k < 64 → has_bit result k ≡ (if nat_lt k by then has_bit before (64 - by + k) else has_bit word (k - by)) }
{
    if by == 0 {
        return word;
    }
    (word << by) | (before >> (64 - by))
}

// ---- bits of many words

/// So many words with no bit set.
pub(crate) fn zeros(alloc: Global, count: usize) -> Result<Vec<u64>, NoMemory>
    ensures { IfOk result (λ v. v.items ≡ replicate count 0) }
{
    Ok(vec![in alloc; 0; count]?)
}

/// Bit `at` of some words.
pub(crate) fn bit(words: &[u64], at: usize) -> bool
    requires { at < 64 * length words.now }
    ensures { result ≡ is_set words.now at }
{
    has_bit(words[at / 64], at % 64)
}

/// Sets or unsets bit `at`.
pub(crate) fn set_bit(words: &mut [u64], at: usize, value: bool)
    requires { at < 64 * length words.old }
    ensures { (k : ℕ) → is_set words.new k ≡ (if k == at then value else is_set words.old k) }
{
    words[at / 64] = with_bit(words[at / 64], at % 64, value);
}

/// How many bits from bit `at` on are alike, as far as its word tells, 1 to `most`.
fn alike_in_word(words: &[u64], at: usize, most: usize) -> usize
    requires within { at < 64 * length words.now }
    requires most { 0 < most }
    ensures some { 0 < result }
    ensures most { result ≤ most }
    ensures alike { (k : ℕ) → k < result → is_set words.now (at + k) ≡ is_set words.now at }
{
    bits_alike(words[at / 64], at % 64).min(most)
}

/// How many bits from bit `at` to the last before bit `end` are alike, at least 1: the next, if any, differs.
pub(crate) fn alike_from(words: &[u64], at: usize, end: usize) -> usize
    requires some { at < end }
    requires within { end ≤ 64 * length words.now }
    ensures some { 0 < result }
    ensures most { at + result ≤ end }
    ensures alike { (k : ℕ) → k < result → is_set words.now (at + k) ≡ is_set words.now at }
    ensures ended { at + result < end → is_set words.now (at + result) ≡ not (is_set words.now at) }
{
    let first = bit(words, at);
    let most = end - at;
    let mut count = alike_in_word(words, at, most);
    while count < most && bit(words, at + count) == first {
        count += alike_in_word(words, at + count, most - count);
    }
    count
}

/// Flips the bits below `x` of the row of `count` words that begins at word `start`.
pub(crate) fn toggle_at(words: &mut [u64], start: usize, count: usize, x: usize)
    requires { start + count ≤ length words.old }
    ensures inside { (i : ℕ) → i < 64 * count → is_set words.new (64 * start + i) ≡ (if nat_lt i x then not (is_set words.old (64 * start + i)) else is_set words.old (64 * start + i)) }
    ensures before { (k : ℕ) → k < 64 * start → is_set words.new k ≡ is_set words.old k }
    ensures after { (k : ℕ) → 64 * (start + count) ≤ k → is_set words.new k ≡ is_set words.old k }
{
    toggle_below(&mut words[start..start + count], x);
}

/// The bits of some words that others lack.
pub(crate) fn minus_words(alloc: Global, words: &[u64], other: &[u64]) -> Result<Vec<u64>, NoMemory>
    requires { length other.now ≡ length words.now }
    ensures len { IfOk result (λ v. length v.items ≡ length words.now) }
    ensures bits { IfOk result (λ v. (x : ℕ) → x < 64 * length words.now → is_set v.items x ≡ (is_set words.now x && not (is_set other.now x))) }
{
    let mut out = zeros(alloc, words.len())?;
    minus_row(words, other, &mut out);
    Ok(out)
}

/// Sets each bit that is set in others.
fn put_bits(words: &mut [u64], other: &[u64])
    requires { length other.now ≡ length words.old }
    ensures { (x : ℕ) → x < 64 * length words.old → is_set words.new x ≡ (is_set words.old x || is_set other.now x) }
{
    for at in 0..words.len() {
        words[at] = words[at] | other[at];
    }
}

/// The bits of some words or of others.
pub(crate) fn union_words(alloc: Global, words: &[u64], other: &[u64]) -> Result<Vec<u64>, NoMemory>
    requires { length other.now ≡ length words.now }
    ensures len { IfOk result (λ v. length v.items ≡ length words.now) }
    ensures bits { IfOk result (λ v. (x : ℕ) → x < 64 * length words.now → is_set v.items x ≡ (is_set words.now x || is_set other.now x)) }
{
    let mut out = words.to_vec(alloc)?;
    put_bits(&mut out, other);
    Ok(out)
}
