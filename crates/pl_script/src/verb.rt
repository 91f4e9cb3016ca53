// The commands by their words.
ghost use Rattle.std.specs.Prelude.{◌≡◌};
ghost use Rattle.pl_script.specs.Orders.{verb_text, verb_of};

/// A command by its word.
#[derive(Clone, Copy)]
pub(crate) enum Verb {
    Load,
    Reload,
    Delete,
    Copy,
    Move,
    Drop,
    Turn,
    Set,
    Override,
    Unset,
    Ini,
    Apply,
    Export,
    Status,
    Cancel,
    After,
}

const VERBS: [Verb; 16] = [
    Verb::Load,
    Verb::Reload,
    Verb::Delete,
    Verb::Copy,
    Verb::Move,
    Verb::Drop,
    Verb::Turn,
    Verb::Set,
    Verb::Override,
    Verb::Unset,
    Verb::Ini,
    Verb::Apply,
    Verb::Export,
    Verb::Status,
    Verb::Cancel,
    Verb::After,
];

// The word that calls a command.
fn verb_text(verb: Verb) -> &'static [u8]
    ensures { result.now ≡ verb_text verb }
{
    match verb {
        Verb::Load => b"load",
        Verb::Reload => b"reload",
        Verb::Delete => b"delete",
        Verb::Copy => b"copy",
        Verb::Move => b"move",
        Verb::Drop => b"drop",
        Verb::Turn => b"turn",
        Verb::Set => b"set",
        Verb::Override => b"override",
        Verb::Unset => b"unset",
        Verb::Ini => b"ini",
        Verb::Apply => b"apply",
        Verb::Export => b"export",
        Verb::Status => b"status",
        Verb::Cancel => b"cancel",
        Verb::After => b"after",
    }
}

// The command that a word calls.
pub(crate) fn verb_of(word: &[u8]) -> Option<Verb>
    ensures { result ≡ verb_of word.now }
{
    VERBS.iter().copied().find(|verb| verb_text(*verb) == word)
}
