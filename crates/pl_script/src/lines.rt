// The lines of a text.
ghost use Rattle.std.specs.Prelude.{◌≡◌, ◌+◌, ◌≤◌, ◌==◌, [], ◌∷◌, length, IfSome, IfNone};
ghost use Rattle.std.specs.Option.{option_map_or};
ghost use Rattle.std.specs.List.{slice_split};
ghost use Rattle.pl_script.specs.Lines.{without_last};

/// What is left of a text that is read line by line, and the number of the next line, counted from 1.
#[derive(Clone, Copy)]
pub struct LinesLeft<'a> {
    rest: Option<&'a [u8]>,
    number: u32,
}

impl<'a> LinesLeft<'a> {
    ghost use Rattle.std.specs.Prelude.{◌^◌};
    ghost use Rattle.pl_script.specs.Lines.{lines_of};
    ghost use Rattle.pl_script.specs.Reading.{lines_left, size_left, number_left};

    /// All lines of a text: its parts between bytes 10, where one at the end of the text begins no further line.
    pub fn of(text: &'a [u8]) -> LinesLeft<'a>
        ensures lines { lines_left result ≡ lines_of text.now }
        ensures size { size_left result ≤ length text.now + 1 }
        ensures number { number_left result ≡ 1 }
    {
        LinesLeft {
            rest: Some(without_last_end(text)),
            number: 1,
        }
    }

    /// The number of the next line, or that of the last line and 1 where none is left.
    pub fn number(&self) -> u32
        ensures { result ≡ number_left self.now }
    {
        self.number
    }

    /// Takes the next line, if there is one.
    pub fn next(&mut self) -> Option<&'a [u8]>
        requires { number_left self.old + size_left self.old ≤ 2 ^ 29 }
        ensures some { IfSome result (λ line. lines_left self.old ≡ line.now ∷ lines_left self.new) }
        ensures none { IfNone result (lines_left self.old ≡ []) }
        ensures size { IfSome result (λ line. size_left self.old ≡ length line.now + 1 + size_left self.new) }
        ensures number { IfSome result (λ _. number_left self.new ≡ number_left self.old + 1) }
        ensures same { IfNone result (self.new ≡ self.old) }
    {
        let rest = self.rest?;
        let (line, after) = cut(rest);
        self.rest = after;
        self.number += 1;
        Some(line)
    }
}

// A text without the line end at its end.
fn without_last_end(text: &[u8]) -> &[u8]
    ensures text { result.now ≡ without_last 10 text.now }
    ensures size { length result.now ≤ length text.now }
{
    match text {
        [front @ .., b'\n'] => front,
        _ => text,
    }
}

// The part before the first line end, and what stands after that, if there is one.
fn cut(text: &[u8]) -> (&[u8], Option<&[u8]>)
    ensures parts { slice_split (λ b. b == 10) text.now
        ≡ result.0.now ∷ option_map_or (λ rest. slice_split (λ b. b == 10) rest.now) result.1 [] }
    ensures size { length text.now ≡ length result.0.now + option_map_or (λ rest. length rest.now + 1) result.1 0 }
{
    for (at, byte) in text.iter().enumerate() {
        if *byte == b'\n' {
            return (&text[..at], Some(&text[at + 1..]));
        }
    }
    (text, None)
}
