//! Whether the sessions of a script wait for one another.
ghost use Rattle.std.specs.Prelude.{◌≡◌, ◌↔◌, ℕ, ◌+◌, ◌<◌, ◌≤◌, ◌==◌, Some, None, List, length, take, true, false, IfSome, All, sum, slice_index};
ghost use Rattle.std.specs.List.{count_by, slice_get};
ghost use Rattle.std.specs.Option.{option_map};
ghost use Rattle.pl_script.specs.declared.script.Line.{Line as Written};
ghost use Rattle.pl_script.specs.Kept.{IsLine};
ghost use Rattle.pl_script.specs.Stuck.{session_lines, IsFree, IsStuckAt};
ghost use Rattle.pl_script.specs.Rotation.{can_come, lesser, least_left, stuck_line, part_of, IsOnTheWay, IsNextPlace, Rests};

use crate::script::{Line, Lines};
use pl_edit::Edit;
use pl_machine::Command;

// How far each session has gone: at its number, how many of its commands are passed, and the place among all lines from which its
// next one comes.
#[derive(Drop)]
pub(crate) struct Progress {
    pub passed: [u32; 17],
    pub next: [usize; 17],
}

/// The number of the line at which the sessions of these lines are stuck, as each waits by an `after` for commands that never come;
/// none where all commands have an order in which they can come. It takes no memory.
pub fn stuck_line(lines: &Lines) -> Option<u32>
    ensures free { (result ≡ None) ↔ IsFree lines.now }
    ensures stuck { (number : ℕ) → (result ≡ Some number) ↔ IsStuckAt lines.now number }
    ensures told { result ≡ stuck_line lines.now }
{
    least_left(lines.all())
}

// The same of lines, at most 10,000.
fn least_left(lines: &[Line]) -> Option<u32>
    requires few { length lines.now ≤ 10000 }
    requires each { All IsLine lines.now }
    ensures { result ≡ stuck_line lines.now }
{
    let mut progress = Progress {
        passed: [0; 17],
        next: [0; 17],
    };
    while pass_one(lines, &mut progress) {}
    least_next(lines, &mut progress)
}

// Passes one command of the first session whose next one can come. Where there is none, no command is passed.
fn pass_one(lines: &[Line], progress: &mut Progress) -> bool
    requires few { length lines.now ≤ 10000 }
    requires way { IsOnTheWay lines.now progress.old }
    ensures way { IsOnTheWay lines.now progress.new }
    ensures passed { result ≡ true → sum progress.new.passed ≡ sum progress.old.passed + 1 }
    ensures rest { result ≡ false → (session : ℕ) → 1 ≤ session → session ≤ 16 → Rests lines.now (part_of progress.new) session }
{
    for session in 1..17 {
        if pass(lines, session, progress) {
            return true;
        }
    }
    false
}

// Passes the next command of a session, if it can come.
fn pass(lines: &[Line], session: u8, progress: &mut Progress) -> bool
    requires few { length lines.now ≤ 10000 }
    requires session { session ≤ 16 }
    requires way { IsOnTheWay lines.now progress.old }
    ensures way { IsOnTheWay lines.now progress.new }
    ensures passed { result ≡ true → sum progress.new.passed ≡ sum progress.old.passed + 1 }
    ensures same { result ≡ false → progress.new.passed ≡ progress.old.passed }
    ensures rests { result ≡ false → Rests lines.now (part_of progress.new) session }
{
    match next_line(lines, session, progress) {
        Some(line) if can_come(line.command.get(), progress) => {
            let at = usize::from(session);
            progress.passed[at] += 1;
            progress.next[at] += 1;
            true
        }
        _ => false,
    }
}

// Whether a command can come behind those that are passed.
fn can_come(command: &Command<Edit>, progress: &Progress) -> bool
    ensures { result ≡ can_come (part_of progress.now) command.now }
{
    match command {
        Command::After(session, calls) => match progress.passed.get(usize::from(*session)) {
            Some(passed) => *calls <= *passed,
            None => *calls == 0,
        },
        _ => true,
    }
}

// The next line of a session, if there is one.
fn next_line<'a>(lines: &'a [Line], session: u8, progress: &mut Progress) -> Option<&'a Line>
    requires session { session ≤ 16 }
    requires way { IsOnTheWay lines.now progress.old }
    ensures way { IsOnTheWay lines.now progress.new }
    ensures same { progress.new.passed ≡ progress.old.passed }
    ensures line { option_map (λ line. line.now) result ≡ slice_get (session_lines lines.now session) (part_of progress.new session) }
    ensures place { IfSome result (λ line. slice_get lines.now (slice_index progress.new.next session) ≡ Some line.now) }
    ensures own { IfSome result (λ line. line.now.session ≡ session) }
{
    let at = usize::from(session);
    let place = next_place(lines, session, progress.next[at]);
    progress.next[at] = place;
    lines.get(place)
}

// The place of a session's first line from a place on, or the number of lines.
fn next_place(lines: &[Line], session: u8, from: usize) -> usize
    requires { from ≤ length lines.now }
    ensures within { result ≤ length lines.now }
    ensures passed { count_by (λ (line : Written). line.session == session) (take result lines.now) ≡ count_by (λ (line : Written). line.session == session) (take from lines.now) }
    ensures own { IfSome (slice_get lines.now result) (λ line. line.session ≡ session) }
{
    let mut at = from;
    while at < lines.len() && lines[at].session != session {
        at += 1;
    }
    at
}

// The least number among the next lines of all sessions.
fn least_next(lines: &[Line], progress: &mut Progress) -> Option<u32>
    requires { IsOnTheWay lines.now progress.old }
    ensures { result ≡ least_left lines.now (part_of progress.old) 16 }
{
    let mut least = None;
    for session in 1..17 {
        least = lesser(least, next_line(lines, session, progress));
    }
    least
}

// The lesser of a number and that of a line.
fn lesser(least: Option<u32>, line: Option<&Line>) -> Option<u32>
    ensures { result ≡ lesser least (option_map (λ line. line.now.number) line.entry) }
{
    match (least, line) {
        (Some(number), Some(line)) => Some(number.min(line.number)),
        (Some(number), None) => Some(number),
        (None, Some(line)) => Some(line.number),
        (None, None) => None,
    }
}
