//! Rows of bits in 64-bit words, four words at a time. Bit `x` of a row is bit `x` mod 64 of its word `x` / 64.
#![tactic(auto)]

ghost use Rattle.std.specs.Prelude.{◌≡◌, ◌+◌, ◌*◌, ◌<◌, ◌≤◌, ◌&&◌, ℕ, length, slice_index, not, nat_lt, if◌then◌else◌};
ghost use Rattle.pl_lanes.specs.Bits.{is_set, stays_set, comes_set, minus_word, moved_up, moved_down, eroded_word, dilated_word, toggled_word};

mod square;
#[cfg(test)]
mod tests;

pub use square::turned_square;
use std::simd::prelude::*;

/// Four words from `at` on, with the bits that are set in `row` and unset in `other`.
fn minus_block(row: &[u64], other: &[u64], out: &mut [u64], at: usize)
    requires within { at + 4 ≤ length row.now }
    requires same { length other.now ≡ length row.now }
    requires room { length out.old ≡ length row.now }
    ensures done { (k : ℕ) → at ≤ k → k < at + 4 → slice_index out.new k ≡ minus_word (slice_index row.now k) (slice_index other.now k) }
    ensures others { (k : ℕ) → k < at → slice_index out.new k ≡ slice_index out.old k }
{
    let a = u64x4::from_slice(&row[at..]);
    let b = u64x4::from_slice(&other[at..]);
    (a & !b).copy_to_slice(&mut out[at..]);
}

/// Sets a bit of `out` where it is set in `row` and unset in `other`, and unsets each other bit.
pub fn minus_row(row: &[u64], other: &[u64], out: &mut [u64])
    requires same { length other.now ≡ length row.now }
    requires room { length out.old ≡ length row.now }
    ensures { (x : ℕ) → x < 64 * length row.now → is_set out.new x ≡ (is_set row.now x && not (is_set other.now x)) }
{
    let mut at = 0;
    while at + 4 <= row.len() {
        minus_block(row, other, out, at);
        at += 4;
    }
    while at < row.len() {
        out[at] = row[at] & !other[at];
        at += 1;
    }
}

/// The bits of a word moved up by one place, the lowest from the word before.
fn moved_up(before: u64, word: u64) -> u64
    ensures { result ≡ moved_up before word }
{
    (word << 1) | (before >> 63)
}

/// The bits of a word moved down by one place, the highest from the word after.
fn moved_down(word: u64, after: u64) -> u64
    ensures { result ≡ moved_down word after }
{
    (word >> 1) | (after << 63)
}

/// Word `at` of the eroded row.
fn erode_word(below: &[u64], row: &[u64], above: &[u64], at: usize) -> u64
    requires within { at < length row.now }
    requires below { length below.now ≡ length row.now }
    requires above { length above.now ≡ length row.now }
    ensures { result ≡ eroded_word below.now row.now above.now at }
{
    let before = if at == 0 { 0 } else { row[at - 1] };
    let after = if at + 1 < row.len() { row[at + 1] } else { 0 };
    let word = row[at];
    word & (moved_up(before, word) & moved_down(word, after)) & (below[at] & above[at])
}

/// Four words of the eroded row, from `at` on; none of them is the row's first or last.
fn erode_block(below: &[u64], row: &[u64], above: &[u64], out: &mut [u64], at: usize)
    requires low { 1 ≤ at }
    requires within { at + 5 ≤ length row.now }
    requires below { length below.now ≡ length row.now }
    requires above { length above.now ≡ length row.now }
    requires room { length out.old ≡ length row.now }
    ensures done { (k : ℕ) → at ≤ k → k < at + 4 → slice_index out.new k ≡ eroded_word below.now row.now above.now k }
    ensures others { (k : ℕ) → k < at → slice_index out.new k ≡ slice_index out.old k }
{
    let word = u64x4::from_slice(&row[at..]);
    let before = u64x4::from_slice(&row[at - 1..]);
    let after = u64x4::from_slice(&row[at + 1..]);
    let up = (word << u64x4::splat(1)) | (before >> u64x4::splat(63));
    let down = (word >> u64x4::splat(1)) | (after << u64x4::splat(63));
    let across = u64x4::from_slice(&below[at..]) & u64x4::from_slice(&above[at..]);
    (word & (up & down) & across).copy_to_slice(&mut out[at..]);
}

/// Sets a bit of `out` where it, its two neighbours in the row and the same bits below and above are set, and
/// unsets each other bit. A bit outside the row is unset.
pub fn erode_row(below: &[u64], row: &[u64], above: &[u64], out: &mut [u64])
    requires below { length below.now ≡ length row.now }
    requires above { length above.now ≡ length row.now }
    requires room { length out.old ≡ length row.now }
    ensures { (x : ℕ) → x < 64 * length row.now → is_set out.new x ≡ stays_set below.now row.now above.now x }
{
    let mut at = 0;
    while at < row.len() {
        if at > 0 && row.len() - at >= 5 {
            erode_block(below, row, above, out, at);
            at += 4;
        } else {
            out[at] = erode_word(below, row, above, at);
            at += 1;
        }
    }
}

/// Word `at` of the dilated row.
fn dilate_word(below: &[u64], row: &[u64], above: &[u64], at: usize) -> u64
    requires within { at < length row.now }
    requires below { length below.now ≡ length row.now }
    requires above { length above.now ≡ length row.now }
    ensures { result ≡ dilated_word below.now row.now above.now at }
{
    let before = if at == 0 { 0 } else { row[at - 1] };
    let after = if at + 1 < row.len() { row[at + 1] } else { 0 };
    let word = row[at];
    word | (moved_up(before, word) | moved_down(word, after)) | (below[at] | above[at])
}

/// Four words of the dilated row, from `at` on; none of them is the row's first or last.
fn dilate_block(below: &[u64], row: &[u64], above: &[u64], out: &mut [u64], at: usize)
    requires low { 1 ≤ at }
    requires within { at + 5 ≤ length row.now }
    requires below { length below.now ≡ length row.now }
    requires above { length above.now ≡ length row.now }
    requires room { length out.old ≡ length row.now }
    ensures done { (k : ℕ) → at ≤ k → k < at + 4 → slice_index out.new k ≡ dilated_word below.now row.now above.now k }
    ensures others { (k : ℕ) → k < at → slice_index out.new k ≡ slice_index out.old k }
{
    let word = u64x4::from_slice(&row[at..]);
    let before = u64x4::from_slice(&row[at - 1..]);
    let after = u64x4::from_slice(&row[at + 1..]);
    let up = (word << u64x4::splat(1)) | (before >> u64x4::splat(63));
    let down = (word >> u64x4::splat(1)) | (after << u64x4::splat(63));
    let across = u64x4::from_slice(&below[at..]) | u64x4::from_slice(&above[at..]);
    (word | (up | down) | across).copy_to_slice(&mut out[at..]);
}

/// Sets a bit of `out` where it, one of its two neighbours in the row or the same bit below or above is set,
/// and unsets each other bit. A bit outside the row is unset.
pub fn dilate_row(below: &[u64], row: &[u64], above: &[u64], out: &mut [u64])
    requires below { length below.now ≡ length row.now }
    requires above { length above.now ≡ length row.now }
    requires room { length out.old ≡ length row.now }
    ensures { (x : ℕ) → x < 64 * length row.now → is_set out.new x ≡ comes_set below.now row.now above.now x }
{
    let mut at = 0;
    while at < row.len() {
        if at > 0 && row.len() - at >= 5 {
            dilate_block(below, row, above, out, at);
            at += 4;
        } else {
            out[at] = dilate_word(below, row, above, at);
            at += 1;
        }
    }
}

/// Flips each bit below place `x`, up to the row's end.
pub fn toggle_below(row: &mut [u64], x: usize)
    ensures { (k : ℕ) → k < 64 * length row.old → is_set row.new k ≡ (if nat_lt k x then not (is_set row.old k) else is_set row.old k) }
{
    let mut at = 0;
    let mut left = x;
    while at < row.len() && left > 0 {
        let count = left.min(64);
        row[at] = toggle_low(row[at], count);
        left -= count;
        at += 1;
    }
}

/// The word with so many of its lowest bits flipped, 0 to 64.
fn toggle_low(word: u64, count: usize) -> u64
    requires { count ≤ 64 }
    ensures { result ≡ toggled_word word count }
{
    if count == 64 {
        return word ^ u64::MAX;
    }
    word ^ ((1 << count) - 1)
}
