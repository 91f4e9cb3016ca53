//! The commands of a script, session by session.
ghost use Rattle.std.specs.Prelude.{◌≡◌, ◌≤◌, IfOk, length, map, All};
ghost use Rattle.std.specs.Arc.{arc_value};
ghost use Rattle.pl_runs.specs.Script.{IsCallable, commands_at};
ghost use Rattle.pl_scripted.specs.Commands.{session_commands};

use pl_edit::Edit;
use pl_machine::Command;
use pl_script::{Line, Lines};
use pl_units::NoMemory;
use std::alloc::Global;
use std::sync::Arc;

// The commands of a session's lines, in order.
fn commands_of(
    alloc: Global,
    lines: &[Line],
    session: u8,
) -> Result<Vec<Arc<Command<Edit>>>, NoMemory>
    ensures { IfOk result (λ made. map arc_value made.items ≡ session_commands lines.now session) }
{
    let mut made = Vec::new(alloc);
    for line in lines {
        if line.session == session {
            made.push(line.command.owner()?)?;
        }
    }
    Ok(made)
}

/// The commands of each session, from the first to the sixteenth, in the order of its lines.
pub(crate) fn sessions_of(
    alloc: Global,
    lines: &Lines,
) -> Result<Vec<Vec<Arc<Command<Edit>>>>, NoMemory>
    ensures few { IfOk result (λ made. length made.items ≤ 16) }
    ensures callable { IfOk result (λ made. All IsCallable (map (λ s. map arc_value s.items) made.items)) }
    ensures own { IfOk result (λ made. commands_at (map (λ s. map arc_value s.items) made.items) ≡ session_commands lines.now) }
{
    let all = lines.all();
    let mut made = Vec::new(alloc);
    for k in 0..16u8 {
        made.push(commands_of(alloc, all, k + 1)?)?;
    }
    Ok(made)
}
