//! What is made of the rows of a plane's words, row by row.
ghost use Rattle.std.specs.Prelude.{◌≡◌, ◌≢◌, ◌+◌, ◌*◌, ◌<◌, ◌≤◌, ◌&&◌, ℕ, nat_lt, false, slice_index, length, IfOk};
ghost use Rattle.pl_grid.specs.Packed.{words_of, words_from, words_before, stays_at, comes_at, is_moved, is_widened};
ghost use Rattle.pl_lanes.specs.Bits.{has_bit, is_set, comes_set, word_before};

use crate::words::{moved_up, zeros};
use pl_lanes::{dilate_row, erode_row};
use pl_units::NoMemory;
use std::alloc::Global;

/// The row that ends before word `start`, and no bits where there is none.
fn row_before<'a>(words: &'a [u64], none: &'a [u64], start: usize) -> &'a [u64]
    requires none { (k : ℕ) → is_set none.now k ≡ false }
    requires before { start ≢ 0 → length none.now ≤ start }
    requires within { start ≤ length words.now }
    ensures len { length result.now ≡ length none.now }
    ensures bits { (k : ℕ) → is_set result.now k ≡ is_set (words_before words.now (length none.now) start) k }
{
    if start == 0 {
        return none;
    }
    &words[start - none.len()..start]
}

/// The row that begins at word `start`, and no bits where there is none.
fn row_from<'a>(words: &'a [u64], none: &'a [u64], start: usize) -> &'a [u64]
    requires none { (k : ℕ) → is_set none.now k ≡ false }
    requires within { start ≢ length words.now → start + length none.now ≤ length words.now }
    ensures len { length result.now ≡ length none.now }
    ensures bits { (k : ℕ) → is_set result.now k ≡ is_set (words_from words.now (length none.now) start) k }
{
    if start == words.len() {
        return none;
    }
    &words[start..start + none.len()]
}

/// Erodes the row that begins at word `start`.
fn erode_at(words: &[u64], none: &[u64], start: usize, out: &mut [u64])
    requires none { (k : ℕ) → is_set none.now k ≡ false }
    requires before { start ≢ 0 → length none.now ≤ start }
    requires within { start + length none.now ≤ length words.now }
    requires after { start + length none.now ≢ length words.now → start + 2 * length none.now ≤ length words.now }
    requires room { length out.old ≡ length words.now }
    ensures inside { (i : ℕ) → i < 64 * length none.now → is_set out.new (64 * start + i) ≡ stays_at words.now (length none.now) start i }
    ensures before { (k : ℕ) → k < 64 * start → is_set out.new k ≡ is_set out.old k }
{
    let below = row_before(words, none, start);
    let row = row_from(words, none, start);
    let above = row_from(words, none, start + none.len());
    erode_row(below, row, above, &mut out[start..start + none.len()]);
}

/// Erodes all rows, where `none` is a row without bits.
fn erode_rows(words: &[u64], none: &[u64], rows: usize, out: &mut [u64])
    requires none { (k : ℕ) → is_set none.now k ≡ false }
    requires words { length words.now ≡ rows * length none.now }
    requires room { length out.old ≡ length words.now }
    ensures { (j i : ℕ) → j < rows → i < 64 * length none.now → is_set out.new (64 * (j * length none.now) + i) ≡ stays_at words.now (length none.now) (j * length none.now) i }
{
    for row in 0..rows {
        erode_at(words, none, row * none.len(), out);
    }
}

/// The eroded rows of `count` words each.
pub(crate) fn erode_words(
    alloc: Global,
    words: &[u64],
    count: usize,
    rows: usize,
) -> Result<Vec<u64>, NoMemory>
    requires { length words.now ≡ rows * count }
    ensures len { IfOk result (λ v. length v.items ≡ length words.now) }
    ensures bits { IfOk result (λ v. (j i : ℕ) → j < rows → i < 64 * count → is_set v.items (64 * (j * count) + i) ≡ stays_at words.now count (j * count) i) }
{
    let none = zeros(alloc, count)?;
    let mut out = zeros(alloc, words.len())?;
    erode_rows(words, &none, rows, &mut out);
    Ok(out)
}

/// Unsets the bits of a row from `cols` on, all of which lie in its last word.
fn keep_below(row: &mut [u64], cols: usize)
    requires few { cols ≤ 8192 }
    requires room { length row.old ≡ words_of cols }
    ensures { (k : ℕ) → k < 64 * length row.old → is_set row.new k ≡ (nat_lt k cols && is_set row.old k) }
{
    let count = row.len();
    if count > 0 {
        row[count - 1] = row[count - 1] & (u64::MAX >> (64 * count - cols));
    }
}

/// Dilates a row as far as it has columns.
fn dilate_columns(below: &[u64], row: &[u64], above: &[u64], cols: usize, out: &mut [u64])
    requires few { cols ≤ 8192 }
    requires row { length row.now ≡ words_of cols }
    requires below { length below.now ≡ length row.now }
    requires above { length above.now ≡ length row.now }
    requires room { length out.old ≡ length row.now }
    ensures { (k : ℕ) → k < 64 * length row.now → is_set out.new k ≡ (nat_lt k cols && comes_set below.now row.now above.now k) }
{
    dilate_row(below, row, above, out);
    keep_below(out, cols);
}

/// Dilates the row of `cols` columns that begins at word `start`.
fn dilate_at(words: &[u64], none: &[u64], start: usize, cols: usize, out: &mut [u64])
    requires none { (k : ℕ) → is_set none.now k ≡ false }
    requires before { start ≢ 0 → length none.now ≤ start }
    requires within { start + length none.now ≤ length words.now }
    requires after { start + length none.now ≢ length words.now → start + 2 * length none.now ≤ length words.now }
    requires room { length out.old ≡ length words.now }
    requires few { cols ≤ 8192 }
    requires count { length none.now ≡ words_of cols }
    ensures inside { (i : ℕ) → i < 64 * length none.now → is_set out.new (64 * start + i) ≡ (nat_lt i cols && comes_at words.now (length none.now) start i) }
    ensures before { (k : ℕ) → k < 64 * start → is_set out.new k ≡ is_set out.old k }
{
    let below = row_before(words, none, start);
    let row = row_from(words, none, start);
    let above = row_from(words, none, start + none.len());
    dilate_columns(below, row, above, cols, &mut out[start..start + none.len()]);
}

/// Dilates all rows of `cols` columns each, where `none` is a row without bits.
fn dilate_rows(words: &[u64], none: &[u64], rows: usize, cols: usize, out: &mut [u64])
    requires none { (k : ℕ) → is_set none.now k ≡ false }
    requires words { length words.now ≡ rows * length none.now }
    requires room { length out.old ≡ length words.now }
    requires few { cols ≤ 8192 }
    requires count { length none.now ≡ words_of cols }
    ensures { (j i : ℕ) → j < rows → i < 64 * length none.now → is_set out.new (64 * (j * length none.now) + i) ≡ (nat_lt i cols && comes_at words.now (length none.now) (j * length none.now) i) }
{
    for row in 0..rows {
        dilate_at(words, none, row * none.len(), cols, out);
    }
}

/// The dilated rows of `cols` columns, `count` words, each.
pub(crate) fn dilate_words(
    alloc: Global,
    words: &[u64],
    count: usize,
    rows: usize,
    cols: usize,
) -> Result<Vec<u64>, NoMemory>
    requires room { length words.now ≡ rows * count }
    requires few { cols ≤ 8192 }
    requires count { count ≡ words_of cols }
    ensures len { IfOk result (λ v. length v.items ≡ length words.now) }
    ensures bits { IfOk result (λ v. (j i : ℕ) → j < rows → i < 64 * count → is_set v.items (64 * (j * count) + i) ≡ (nat_lt i cols && comes_at words.now count (j * count) i)) }
{
    let none = zeros(alloc, count)?;
    let mut out = zeros(alloc, words.len())?;
    dilate_rows(words, &none, rows, cols, &mut out);
    Ok(out)
}

/// A word of a row, and no bits past its end.
pub(crate) fn word_or_none(row: &[u64], at: usize) -> u64
    ensures { result ≡ slice_index row.now at }
{
    if at < row.len() { row[at] } else { 0 }
}

/// The word of a row before word `at`, and no bits before its first and past its end.
fn word_before(row: &[u64], at: usize) -> u64
    ensures { result ≡ word_before row.now at }
{
    if at == 0 {
        0
    } else {
        word_or_none(row, at - 1)
    }
}

/// Word `at` of a row that is moved up by some places.
fn moved_word(row: &[u64], by: usize, at: usize) -> u64
    ensures { (k : ℕ) → k < 64 → has_bit result k ≡ is_moved row.now by (64 * at + k) }
{
    let skipped = by / 64;
    if at < skipped {
        return 0;
    }
    moved_up(
        word_before(row, at - skipped),
        word_or_none(row, at - skipped),
        by % 64,
    )
}

/// Puts a row moved up by some places, as far as there is room.
fn put_moved(row: &[u64], by: usize, out: &mut [u64])
    ensures { (x : ℕ) → x < 64 * length out.old → is_set out.new x ≡ is_moved row.now by x }
{
    for at in 0..out.len() {
        out[at] = moved_word(row, by, at);
    }
}

/// Puts a row moved up by some places into the `wide` words from word `start` on.
fn put_moved_at(row: &[u64], by: usize, out: &mut [u64], start: usize, wide: usize)
    requires { start + wide ≤ length out.old }
    ensures inside { (i : ℕ) → i < 64 * wide → is_set out.new (64 * start + i) ≡ is_moved row.now by i }
    ensures before { (k : ℕ) → k < 64 * start → is_set out.new k ≡ is_set out.old k }
    ensures after { (k : ℕ) → 64 * (start + wide) ≤ k → is_set out.new k ≡ is_set out.old k }
{
    put_moved(row, by, &mut out[start..start + wide]);
}

/// Puts all rows of `count` words, moved up by `by` places, into rows of `wide` words without bits, after `by` of them.
fn put_moved_rows(words: &[u64], count: usize, rows: usize, by: usize, out: &mut [u64], wide: usize)
    requires words { length words.now ≡ rows * count }
    requires rows { rows + 2 * by ≤ 8192 }
    requires wide { wide ≤ 128 }
    requires room { length out.old ≡ (rows + 2 * by) * wide }
    requires none { (k : ℕ) → is_set out.old k ≡ false }
    ensures { (j i : ℕ) → j < rows + 2 * by → i < 64 * wide → is_set out.new (64 * (j * wide) + i) ≡ is_widened words.now count by j i }
{
    for row in 0..rows {
        let from = row * count;
        put_moved_at(&words[from..from + count], by, out, (row + by) * wide, wide);
    }
}

/// The rows of `count` words moved up by `by` places into rows of `wide` words, with `by` rows more before and after.
pub(crate) fn widen_words(
    alloc: Global,
    words: &[u64],
    count: usize,
    rows: usize,
    by: usize,
    wide: usize,
) -> Result<Vec<u64>, NoMemory>
    requires words { length words.now ≡ rows * count }
    requires rows { rows + 2 * by ≤ 8192 }
    requires wide { wide ≤ 128 }
    ensures len { IfOk result (λ v. length v.items ≡ (rows + 2 * by) * wide) }
    ensures bits { IfOk result (λ v. (j i : ℕ) → j < rows + 2 * by → i < 64 * wide → is_set v.items (64 * (j * wide) + i) ≡ is_widened words.now count by j i) }
{
    let mut out = zeros(alloc, (rows + 2 * by) * wide)?;
    put_moved_rows(words, count, rows, by, &mut out, wide);
    Ok(out)
}
