//! The words of the command line.
ghost use Rattle.std.specs.Prelude.{◌≡◌, ◌≤◌, IfSome};
ghost use Rattle.pl_plater.specs.Words.{task_named, demo_named, task_of, demo_of};

use pl_script::whole_of;

/// A command with an input.
#[derive(Clone, Copy, Debug, PartialEq, Eq)]
pub(crate) enum Task {
    /// To run a script.
    Run,
    /// To slice a plate.
    Slice,
}

// What one word asks for.
fn task_named(word: &[u8]) -> Option<Task>
    ensures { result ≡ task_named word.now }
{
    if word == b"run".as_slice() {
        Some(Task::Run)
    } else if word == b"slice".as_slice() {
        Some(Task::Slice)
    } else {
        None
    }
}

// The demo that a word and a number ask for.
fn demo_named(word: &[u8], number: &[u8]) -> Option<u16>
    ensures value { result ≡ demo_named word.now number.now }
    ensures low { IfSome result (λ n. n ≤ 999) }
{
    if word == b"demo".as_slice() {
        let number = whole_of(999, number)?;
        Some(number as u16)
    } else {
        None
    }
}

/// The command with an input that these words ask for: the one word `run`, or the one word `slice`.
pub(crate) fn task_of(words: &[String]) -> Option<Task>
    ensures { result ≡ task_of words.now }
{
    match words {
        [word] => task_named(word.as_bytes()),
        _ => None,
    }
}

/// The demo that these words ask for: `demo` and a number from 0 to 999 in decimal, without leading zeros.
pub(crate) fn demo_of(words: &[String]) -> Option<u16>
    ensures value { result ≡ demo_of words.now }
    ensures low { IfSome result (λ n. n ≤ 999) }
{
    match words {
        [word, number] => demo_named(word.as_bytes(), number.as_bytes()),
        _ => None,
    }
}
