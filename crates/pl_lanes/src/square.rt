//! A square of 64 rows of 64 bits, turned over its diagonal.
ghost use Rattle.std.specs.Prelude.{◌≡◌, ◌+◌, ◌-◌, ◌<◌, ◌≤◌, ℕ, slice_index, if◌then◌else◌};
ghost use Rattle.pl_lanes.specs.Bits.{has_bit};
ghost use Rattle.pl_lanes.specs.Squares.{IsHalves, swapped_word, swapped_bit};

/// The word of the first half after two rows, `by` rows apart, have swapped their far halves.
fn first_word(first: u64, second: u64, by: usize, halves: u64) -> u64
    requires { IsHalves by halves }
    ensures { (j : ℕ) → j < 64 → has_bit result j ≡ (if has_bit halves j then has_bit first j else has_bit second (j - by)) }
{
    (first & halves) | ((second & halves) << by)
}

/// The word of the second half after two rows, `by` rows apart, have swapped their far halves.
fn second_word(first: u64, second: u64, by: usize, halves: u64) -> u64
    requires { IsHalves by halves }
    ensures { (j : ℕ) → j < 64 → has_bit result j ≡ (if has_bit halves j then has_bit first (j + by) else has_bit second j) }
{
    ((first >> by) & halves) | (second & !halves)
}

/// Bit `at` of a word.
fn has_bit(word: u64, at: usize) -> bool
    requires { at < 64 }
    ensures { result ≡ has_bit word at }
{
    (word >> at) & 1 == 1
}

/// Word `at` of a square whose blocks of `by` rows and bits have swapped over the diagonal, in pairs.
fn swapped_at(square: &[u64; 64], by: usize, halves: u64, at: usize) -> u64
    requires halves { IsHalves by halves }
    requires at { at < 64 }
    ensures { (j : ℕ) → j < 64 → has_bit result j ≡ has_bit (slice_index square.now (swapped_word by halves at j)) (swapped_bit by halves at j) }
{
    if has_bit(halves, at) {
        return first_word(square[at], square[at + by], by, halves);
    }
    second_word(square[at - by], square[at], by, halves)
}

/// A square whose blocks of `by` rows and bits have swapped over the diagonal, in pairs.
fn swapped(square: &[u64; 64], by: usize, halves: u64) -> [u64; 64]
    requires { IsHalves by halves }
    ensures { (i j : ℕ) → i < 64 → j < 64 → has_bit (slice_index result i) j ≡ has_bit (slice_index square.now (swapped_word by halves i j)) (swapped_bit by halves i j) }
{
    let mut out = [0u64; 64];
    for at in 0..64 {
        out[at] = swapped_at(square, by, halves, at);
    }
    out
}

/// The square whose bit `j` of word `i` is bit `i` of word `j` of the square that is given.
pub fn turned_square(square: &[u64; 64]) -> [u64; 64]
    ensures { (i j : ℕ) → i < 64 → j < 64 → has_bit (slice_index result i) j ≡ has_bit (slice_index square.now j) i }
{
    let by_32 = swapped(square, 32, 0x0000_0000_ffff_ffff);
    let by_16 = swapped(&by_32, 16, 0x0000_ffff_0000_ffff);
    let by_8 = swapped(&by_16, 8, 0x00ff_00ff_00ff_00ff);
    let by_4 = swapped(&by_8, 4, 0x0f0f_0f0f_0f0f_0f0f);
    let by_2 = swapped(&by_4, 2, 0x3333_3333_3333_3333);
    swapped(&by_2, 1, 0x5555_5555_5555_5555)
}
