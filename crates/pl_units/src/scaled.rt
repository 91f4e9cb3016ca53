//! Numbers times powers of ten, rounded to whole numbers.
ghost use Rattle.std.specs.Prelude.{◌≡◌, ◌+◌, ◌*◌, ◌^◌, ◌<◌, ◌≤◌, ℕ, IfSome, IfNone};
ghost use Rattle.pl_units.specs.Numeral.{IsRounded};

// The greatest size that is taken, in nanometres.
const FARTHEST: u64 = 1_000_000_000;

// A number times a power of ten.
fn scaled_up(number: u128, power: u32) -> Option<u64>
    requires { number < 10 ^ 30 }
    ensures near { IfSome result (λ size. size ≡ number * 10 ^ power) }
    ensures within { IfSome result (λ size. size ≤ 10 ^ 9) }
    ensures far { IfNone result (10 ^ 9 < number * 10 ^ power) }
{
    if number == 0 {
        return Some(0);
    }
    if power > 9 || number > 1_000_000_000 {
        return None;
    }
    let size = number as u64 * 10u64.pow(power);
    if size > FARTHEST { None } else { Some(size) }
}

// A number divided by a power of ten, halves up.
fn scaled_down(number: u128, power: u32) -> Option<u64>
    requires { number < 10 ^ 30 }
    ensures near { IfSome result (λ size. IsRounded number (10 ^ power) size) }
    ensures within { IfSome result (λ size. size ≤ 10 ^ 9) }
    ensures far { IfNone result ((size : ℕ) → IsRounded number (10 ^ power) size → 10 ^ 9 < size) }
{
    if power > 31 {
        return Some(0);
    }
    let one = 10u128.pow(power);
    let size = (2 * number + one) / (2 * one);
    if size > 1_000_000_000 {
        None
    } else {
        Some(size as u64)
    }
}

/// `number * 10^raise / 10^lower` as a whole number, halves up, where it is at most 1,000,000,000.
/// `raise` and `lower` may each be up to 200.
pub fn scaled(number: u128, raise: u32, lower: u32) -> Option<u64>
    requires { number < 10 ^ 30 }
    ensures near { IfSome result (λ size. IsRounded (number * 10 ^ raise) (10 ^ lower) size) }
    ensures within { IfSome result (λ size. size ≤ 10 ^ 9) }
    ensures far { IfNone result ((size : ℕ) → IsRounded (number * 10 ^ raise) (10 ^ lower) size → 10 ^ 9 < size) }
{
    if lower > raise {
        scaled_down(number, lower - raise)
    } else {
        scaled_up(number, raise - lower)
    }
}
