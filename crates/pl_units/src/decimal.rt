//! Decimal texts.
ghost use Rattle.std.specs.Prelude.{◌≡◌, ◌+◌, ◌-◌, ◌*◌, ◌/◌, ◌^◌, ◌<◌, ◌≤◌, ℕ, List, ◌++◌, length, take, drop, pos, ◌<ℤ◌};
ghost use Rattle.pl_units.specs.Decimal.{fixed, fixed_size, last_digits};
ghost use Rattle.pl_units.specs.Micro.{micro};
ghost use Rattle.std.specs.Fmt.{decimal};
ghost use Rattle.std.specs.Int.{int_div_euclid};

use crate::Nm;

// Puts the digits of a number in front of a place, and answers where they begin.
fn put_whole(number: u64, out: &mut [u8], end: usize) -> usize
    requires place { end ≤ length out.old }
    requires room { length (decimal number) ≤ end }
    ensures start { result + length (decimal number) ≡ end }
    ensures text { drop result out.new ≡ decimal number ++ drop end out.old }
{
    out[end - 1] = b'0' + (number % 10) as u8;
    if number >= 10 {
        put_whole(number / 10, out, end - 1)
    } else {
        end - 1
    }
}

// Puts that many last digits of a number in front of a place, and answers the number without them.
fn put_places(number: u64, places: u8, out: &mut [u8], end: usize) -> u64
    requires place { end ≤ length out.old }
    requires room { places ≤ end }
    ensures rest { result ≡ number / 10 ^ places }
    ensures text { drop (end - places) out.new ≡ last_digits places number ++ drop end out.old }
{
    if places == 0 {
        return number;
    }
    out[end - 1] = b'0' + (number % 10) as u8;
    put_places(number / 10, places - 1, out, end - 1)
}

// Puts a size with its decimals in front of a place, and answers where its text begins.
fn put_size(size: u64, places: u8, out: &mut [u8], end: usize) -> usize
    requires places { places ≤ 9 }
    requires place { end ≤ length out.old }
    requires room { 30 ≤ end }
    ensures low { end ≤ result + 30 }
    ensures high { result ≤ end }
    ensures text { drop result out.new ≡ fixed_size size places ++ drop end out.old }
{
    let whole = put_places(size, places, out, end);
    let point = end - places as usize - 1;
    out[point] = b'.';
    put_whole(whole, out, point)
}

/// Puts the decimal text of `value / 10^places`, with exactly that many decimals, in front of a place, and answers where it
/// begins. `places` is from 1 to 9.
pub(crate) fn put_before(value: i64, places: u8, out: &mut [u8], end: usize) -> usize
    requires low { 1 ≤ places }
    requires high { places ≤ 9 }
    requires place { end ≤ length out.old }
    requires room { 31 ≤ end }
    ensures low { end ≤ result + 31 }
    ensures high { result ≤ end }
    ensures text { drop result out.new ≡ fixed value places ++ drop end out.old }
{
    let start = put_size(value.unsigned_abs(), places, out, end);
    if value < 0 {
        out[start - 1] = b'-';
        return start - 1;
    }
    start
}

/// Puts the decimal text of a whole number in front of a place, and answers where it begins.
pub(crate) fn put_number_before(value: u64, out: &mut [u8], end: usize) -> usize
    requires place { end ≤ length out.old }
    requires room { 20 ≤ end }
    ensures low { end ≤ result + 20 }
    ensures high { result ≤ end }
    ensures text { drop result out.new ≡ decimal value ++ drop end out.old }
{
    put_whole(value, out, end)
}

// Puts a text at the front, and answers its length.
fn put_front(text: &[u8], out: &mut [u8; 40]) -> usize
    requires { length text.now ≤ 40 }
    ensures text { take result out.new ≡ text.now }
    ensures room { result ≤ 40 }
{
    out[..text.len()].copy_from_slice(text);
    text.len()
}

/// Puts the decimal text of `value / 10^places`, with exactly that many decimals, at the front of `out`, and answers its
/// length. `places` is from 1 to 9; what stands behind the text is not said.
pub fn put_fixed(value: i64, places: u8, out: &mut [u8; 40]) -> usize
    requires low { 1 ≤ places }
    requires high { places ≤ 9 }
    ensures text { take result out.new ≡ fixed value places }
    ensures room { result ≤ 40 }
{
    let mut digits = [0; 40];
    let start = put_before(value, places, &mut digits, 40);
    put_front(&digits[start..], out)
}

/// Puts the decimal text of a whole number at the front of `out`, and answers its length.
pub fn put_number(value: u64, out: &mut [u8; 40]) -> usize
    ensures text { take result out.new ≡ decimal value }
    ensures room { result ≤ 40 }
{
    let mut digits = [0; 40];
    let start = put_number_before(value, &mut digits, 40);
    put_front(&digits[start..], out)
}

/// A length in thousandths of a millimetre, halves away from zero.
pub fn to_micro(value: Nm) -> i64
    ensures { result ≡ micro value.0 }
{
    let size = thousands(value.0.unsigned_abs());
    if value.0 < 0 { -size } else { size }
}

// How many thousands a size has, halves up.
fn thousands(size: u64) -> i64
    requires { size ≤ 2 ^ 63 }
    ensures value { result ≡ pos ((size + 500) / 1000) }
    ensures small { (size + 500) / 1000 ≤ 2 ^ 60 }
{
    ((size + 500) / 1000) as i64
}

/// The greatest whole number that is at most `a / b`.
pub fn floor_div(a: i128, b: i128) -> i128
    requires { pos 0 <ℤ b }
    ensures { result ≡ int_div_euclid a b }
{
    a.div_euclid(b)
}
