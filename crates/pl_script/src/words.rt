// The words of a line.
ghost use Rattle.std.specs.Prelude.{◌≡◌, ◌+◌, ◌≤◌, ◌∷◌, [], length, None, IfSome, IfNone};
ghost use Rattle.std.specs.Option.{option_map};
ghost use Rattle.std.specs.List.{prefix_len, suffix_len};
ghost use Rattle.pl_script.specs.Lines.{is_blank, is_letter, line_text, words_of, after_blanks, before_blanks, after_word, trimmed, line_words, begins_comment, is_passed_over};
ghost use Rattle.pl_script.specs.Orders.{one_of, two_of, three_of, four_of, first_two_of};

// Whether a byte is a space or a tab.
fn is_blank(byte: u8) -> bool
    ensures { result ≡ is_blank byte }
{
    byte == b' ' || byte == b'\t'
}

/// A line without one byte 13 at its end.
pub fn line_text(line: &[u8]) -> &[u8]
    ensures text { result.now ≡ line_text line.now }
    ensures short { length result.now ≤ length line.now }
{
    match line {
        [front @ .., b'\r'] => front,
        _ => line,
    }
}

// A text without the blanks at its beginning.
fn after_blanks(text: &[u8]) -> &[u8]
    ensures text { result.now ≡ after_blanks text.now }
    ensures short { length result.now ≤ length text.now }
{
    for (at, byte) in text.iter().enumerate() {
        if !is_blank(*byte) {
            return &text[at..];
        }
    }
    &[]
}

// A text without the blanks at its end.
fn before_blanks(text: &[u8]) -> &[u8]
    ensures { result.now ≡ before_blanks text.now }
{
    let mut rest = text;
    while let [front @ .., last] = rest {
        if !is_blank(*last) {
            return rest;
        }
        rest = front;
    }
    rest
}

// A text without the blanks at both its ends.
pub(crate) fn trimmed(text: &[u8]) -> &[u8]
    ensures text { result.now ≡ trimmed text.now }
    ensures short { length result.now ≤ length text.now }
{
    before_blanks(after_blanks(text))
}

// How many bytes stand before the first blank.
fn word_len(text: &[u8]) -> usize
    ensures len { result ≡ prefix_len is_letter text.now }
    ensures within { result ≤ length text.now }
{
    for (at, byte) in text.iter().enumerate() {
        if is_blank(*byte) {
            return at;
        }
    }
    text.len()
}

// The first word of a text, and what follows it.
pub(crate) fn next_word(text: &[u8]) -> Option<(&[u8], &[u8])>
    ensures some { IfSome result (λ next. words_of text.now ≡ next.0.now ∷ words_of next.1.now) }
    ensures rest { IfSome result (λ next. next.1.now ≡ after_word text.now) }
    ensures short { IfSome result (λ next. length next.0.now + length next.1.now ≤ length text.now) }
    ensures none { IfNone result (words_of text.now ≡ []) }
{
    let text = after_blanks(text);
    let end = word_len(text);
    if end == 0 {
        return None;
    }
    Some((&text[..end], &text[end..]))
}

/// Whether a line is passed over outside blocks: whether it has no word, or its first word begins with `#`.
pub fn is_passed_over(line: &[u8]) -> bool
    ensures { result ≡ is_passed_over (line_words line.now) }
{
    match next_word(line_text(line)) {
        Some((word, _)) => begins_comment(word),
        None => true,
    }
}

// Whether a word begins a comment.
fn begins_comment(word: &[u8]) -> bool
    ensures { result ≡ begins_comment word.now }
{
    match word {
        [first, ..] => *first == b'#',
        [] => false,
    }
}

// The one word of a text of one word.
pub(crate) fn one_word(text: &[u8]) -> Option<&[u8]>
    ensures words { option_map (λ word. word.now) result ≡ one_of (words_of text.now) }
    ensures short { IfSome result (λ word. length word.now ≤ length text.now) }
{
    let (word, rest) = next_word(text)?;
    if next_word(rest).is_some() {
        return None;
    }
    Some(word)
}

// The first two words of a text, and what follows them.
pub(crate) fn first_two_words(text: &[u8]) -> Option<(&[u8], &[u8], &[u8])>
    ensures some { IfSome result (λ w. words_of text.now ≡ w.0.now ∷ w.1.now ∷ words_of w.2.now) }
    ensures words { option_map (λ w. (w.0.now, w.1.now)) result ≡ first_two_of (words_of text.now) }
    ensures none { IfNone result (two_of (words_of text.now) ≡ None) }
    ensures rest { IfSome result (λ w. w.2.now ≡ after_word (after_word text.now)) }
    ensures short { IfSome result (λ w. length w.0.now + length w.1.now + length w.2.now ≤ length text.now) }
{
    let (first, rest) = next_word(text)?;
    let (second, rest) = next_word(rest)?;
    Some((first, second, rest))
}

// The two words of a text of two words.
pub(crate) fn two_words(text: &[u8]) -> Option<(&[u8], &[u8])>
    ensures { option_map (λ w. (w.0.now, w.1.now)) result ≡ two_of (words_of text.now) }
{
    let (first, second, rest) = first_two_words(text)?;
    match next_word(rest) {
        Some(_) => None,
        None => Some((first, second)),
    }
}

// The three words of a text of three words.
pub(crate) fn three_words(text: &[u8]) -> Option<(&[u8], &[u8], &[u8])>
    ensures words { option_map (λ w. (w.0.now, w.1.now, w.2.now)) result ≡ three_of (words_of text.now) }
    ensures short { IfSome result (λ w. length w.0.now + length w.1.now + length w.2.now ≤ length text.now) }
{
    let (first, rest) = next_word(text)?;
    let (second, rest) = next_word(rest)?;
    let (third, rest) = next_word(rest)?;
    match next_word(rest) {
        Some(_) => None,
        None => Some((first, second, third)),
    }
}

// The four words of a text of four words.
pub(crate) fn four_words(text: &[u8]) -> Option<(&[u8], &[u8], &[u8], &[u8])>
    ensures words { option_map (λ w. (w.0.now, w.1.now, w.2.now, w.3.now)) result ≡ four_of (words_of text.now) }
    ensures short { IfSome result (λ w. length w.0.now + length w.1.now + length w.2.now + length w.3.now ≤ length text.now) }
{
    let (first, rest) = next_word(text)?;
    let (second, rest) = next_word(rest)?;
    let (third, rest) = next_word(rest)?;
    let (fourth, rest) = next_word(rest)?;
    match next_word(rest) {
        Some(_) => None,
        None => Some((first, second, third, fourth)),
    }
}
