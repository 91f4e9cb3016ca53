//! A plane turned over its diagonal: columns become rows.
ghost use Rattle.std.specs.Prelude.{◌≡◌, ◌+◌, ◌*◌, ◌/◌, ◌%◌, ◌<◌, ◌≤◌, ℕ, slice_index, length, IfOk};
ghost use Rattle.pl_grid.specs.Packed.{words_of};
ghost use Rattle.pl_grid.specs.Turned.{turned_box, transposed, IsStrip};
ghost use Rattle.pl_lanes.specs.Bits.{has_bit, is_set};

use crate::extent::Box2;
use crate::plane::Plane;
use crate::rows::word_or_none;
use pl_lanes::turned_square;
use pl_units::NoMemory;
use std::alloc::Global;

impl Box2 {
    /// The box with columns and rows in each other's place.
    pub fn turned(self) -> Box2
        ensures { result ≡ turned_box self }
    {
        Box2 {
            x0: self.y0,
            y0: self.x0,
            cols: self.rows,
            rows: self.cols,
        }
    }
}

impl Plane {
    /// The plane whose cell `x` `y` is this plane's cell `y` `x`. Refused only for want of memory.
    pub fn transposed(&self, alloc: Global) -> Result<Plane, NoMemory>
        ensures { IfOk result (λ p. p ≡ transposed self.now) }
    {
        let bounds = self.bounds;
        let turned = bounds.turned();
        let words = turned_words(
            alloc,
            &self.words,
            bounds.row_words(),
            turned.row_words(),
            bounds.cols as usize,
        )?;
        Ok(Plane {
            bounds: turned,
            words,
        })
    }
}

/// Word `column` of 64 rows of `count` words, from row 64 times `square` on; no bits past the last row.
fn square_at(words: &[u64], count: usize, square: usize, column: usize) -> [u64; 64]
    requires count { count ≤ 128 }
    requires square { square < 128 }
    requires column { column < 128 }
    ensures { (k : ℕ) → k < 64 → slice_index result k ≡ slice_index words.now ((64 * square + k) * count + column) }
{
    let mut out = [0u64; 64];
    for row in 0..64 {
        out[row] = word_or_none(words, (64 * square + row) * count + column);
    }
    out
}

/// The squares of a word column, each turned, one after another.
fn strip_of(
    alloc: Global,
    words: &[u64],
    count: usize,
    wide: usize,
    column: usize,
) -> Result<Vec<u64>, NoMemory>
    requires count { count ≤ 128 }
    requires wide { wide ≤ 128 }
    requires column { column < 128 }
    ensures { IfOk result (λ v. IsStrip words.now count wide column v.items) }
{
    let mut strip = Vec::new(alloc);
    for square in 0..wide {
        let turned = turned_square(&square_at(words, count, square, column));
        strip.extend_from_slice(&turned)?;
    }
    Ok(strip)
}

/// Appends row `at` of a strip.
fn put_strip_row(strip: &[u64], at: usize, wide: usize, out: &mut Vec<u64>) -> Result<(), NoMemory>
    requires at { at < 64 }
    requires wide { wide ≤ 128 }
    requires strip { length strip.now ≡ 64 * wide }
    ensures len { IfOk result (λ _. length out.new.items ≡ length out.old.items + wide) }
    ensures before { IfOk result (λ _. (k : ℕ) → k < length out.old.items → slice_index out.new.items k ≡ slice_index out.old.items k) }
    ensures row { IfOk result (λ _. (w : ℕ) → w < wide → slice_index out.new.items (length out.old.items + w) ≡ slice_index strip.now (64 * w + at)) }
{
    for word in 0..wide {
        out.push(strip[64 * word + at])?;
    }
    Ok(())
}

/// The rows of `wide` words whose bit `j` of row `i` is bit `i` of row `j`.
fn turned_words(
    alloc: Global,
    words: &[u64],
    count: usize,
    wide: usize,
    cols: usize,
) -> Result<Vec<u64>, NoMemory>
    requires count { count ≤ 128 }
    requires wide { wide ≤ 128 }
    requires cols { cols ≤ 8192 }
    ensures len { IfOk result (λ v. length v.items ≡ cols * wide) }
    ensures bits { IfOk result (λ v. (i w b : ℕ) → i < cols → w < wide → b < 64 → has_bit (slice_index v.items (i * wide + w)) b ≡ has_bit (slice_index words.now ((64 * w + b) * count + i / 64)) (i % 64)) }
{
    let mut out = Vec::new(alloc);
    let mut strip = Vec::new(alloc);
    for column in 0..cols {
        if column % 64 == 0 {
            strip = strip_of(alloc, words, count, wide, column / 64)?;
        }
        put_strip_row(&strip, column % 64, wide, &mut out)?;
    }
    Ok(out)
}
