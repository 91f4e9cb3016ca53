ghost use Rattle.std.specs.Prelude.{◌≡◌, ◌≤◌, take, length};

/// Writes a name of at most 16 bytes to the front of a buffer, and answers its length.
pub fn put_front(out: &mut [u8; 16], name: &[u8]) -> usize
    requires { length name.now ≤ 16 }
    ensures short { result ≤ 16 }
    ensures name { take result out.new ≡ name.now }
{
    out[..name.len()].copy_from_slice(name);
    name.len()
}
