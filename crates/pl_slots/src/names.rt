//! The names of slots.
ghost use Rattle.std.specs.Prelude.{◌≡◌, ◌≤◌, ◌<◌, ◌+◌, ◌++◌, length, take, codes};
ghost use Rattle.pl_slots.specs.Names.{step_name, slot_name};

use pl_tech::{Slot, put_front};
use pl_units::{Digits, Text};

// What a step of an object, 0 to 5, is called behind its place.
fn object_step(step: u8) -> &'static [u8]
    requires { step < 6 }
    ensures { result.now ≡ codes "." ++ step_name step }
{
    match step {
        0 => b".slice",
        1 => b".perimeters",
        2 => b".prepare",
        3 => b".infill",
        4 => b".ironing",
        _ => b".support",
    }
}

// What a step of the print, 6 to 9, is called.
fn print_step(step: u8) -> &'static [u8]
    requires low { 6 ≤ step }
    requires high { step < 10 }
    ensures { result.now ≡ step_name step }
{
    match step {
        6 => b"tower",
        7 => b"skirt",
        8 => b"brim",
        _ => b"export",
    }
}

// Writes two texts of at most 16 bytes together to the front of a buffer, and answers their length.
fn put_both(out: &mut [u8; 16], first: &[u8], second: &[u8]) -> usize
    requires { length first.now + length second.now ≤ 16 }
    ensures short { result ≤ 16 }
    ensures name { take result out.new ≡ first.now ++ second.now }
{
    let whole = first.len() + second.len();
    out[..first.len()].copy_from_slice(first);
    out[first.len()..whole].copy_from_slice(second);
    whole
}

/// Writes the name of a slot to the front of a buffer, and answers its length: a step of an object has its place in front, as
/// `0.slice` or `15.support`, and a step of the print, as `export`, has not.
pub fn put_name(slot: Slot, out: &mut [u8; 16]) -> usize
    ensures short { result ≤ 16 }
    ensures name { take result out.new ≡ slot_name slot }
{
    let number = slot.number();
    if number >= 96 {
        return put_front(out, print_step(number - 90));
    }
    let place = Digits::whole(u64::from(number / 6));
    put_both(out, place.bytes(), object_step(number % 6))
}
