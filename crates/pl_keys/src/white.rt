//! White space at the ends of a text: the bytes 9 to 13 and 32.
ghost use Rattle.std.specs.Prelude.{◌≡◌, ◌≤◌, length};
ghost use Rattle.std.specs.List.{prefix_len, suffix_len};
ghost use Rattle.pl_keys.specs.Trim.{is_white, without_white_before, without_white_after, trimmed};

// Whether a byte is white space.
fn is_white(b: u8) -> bool
    ensures { result ≡ is_white b }
{
    matches!(b, 9..=13 | 32)
}

/// A text without the white space at its beginning.
pub fn trim_start(text: &[u8]) -> &[u8]
    ensures { result.now ≡ without_white_before text.now }
{
    for (at, b) in text.iter().enumerate() {
        if !is_white(*b) {
            return &text[at..];
        }
    }
    &[]
}

/// A text without the white space at its end.
pub fn trim_end(text: &[u8]) -> &[u8]
    ensures { result.now ≡ without_white_after text.now }
{
    let mut rest = text;
    while let [front @ .., last] = rest {
        if !is_white(*last) {
            return rest;
        }
        rest = front;
    }
    rest
}

/// A text without the white space at both its ends.
pub fn trim(text: &[u8]) -> &[u8]
    ensures trimmed { result.now ≡ trimmed text.now }
    ensures short { length result.now ≤ length text.now }
{
    trim_end(trim_start(text))
}
