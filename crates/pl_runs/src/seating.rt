//! A seat for each number: crews for those who take part, and idle passes.
ghost use Rattle.std.specs.Prelude.{◌≡◌, ◌≤◌, [], All, IfOk, drop, length, map, vec_capacity};
ghost use Rattle.std.specs.Arc.{arc_value};
ghost use Rattle.std.specs.Vec.Iter.{into_iter_items};
ghost use Rattle.pl_epochs.specs.Words.{reads_at, table_of};
ghost use Rattle.pl_order.specs.Ended.{commands_for};
ghost use Rattle.pl_turn.specs.Passes.{number, splits};
ghost use Rattle.pl_runs.specs.Places.{AreFresh, IsFresh, IsIdle};
ghost use Rattle.pl_runs.specs.Script.{IsCallable, commands_at};
ghost use Rattle.pl_runs.specs.Seats.{AreSeated, HasFirst, IsFirstSeated, MayBegin};
ghost use Rattle.pl_runs.specs.Rows.{AreCrewsOf, commands_in, script_of};

use crate::seat::seat;
use crate::{Crew, Desk};
use pl_epochs::ReaderSeat;
use pl_machine::Command;
use pl_plant::Plant;
use pl_tech::Technology;
use pl_turn::Pass;
use pl_units::NoMemory;
use std::alloc::Global;
use std::sync::Arc;
use std::vec::IntoIter;

/// Which sessions have a command: bit i - 1 stands for session i.
pub(crate) fn asked<E>(sessions: &[Vec<Arc<Command<E>>>]) -> u32
    requires { length sessions.now ≤ 16 }
{
    let mut bits = 0u32;
    for (k, commands) in sessions.iter().enumerate() {
        if !commands.is_empty() {
            bits |= 1 << k;
        }
    }
    bits
}

// The commands of the next session, none where there is none left.
fn next_commands<E>(
    alloc: Global,
    sessions: &mut IntoIter<Vec<Arc<Command<E>>>>,
) -> Vec<Arc<Command<E>>>
    requires callable { All IsCallable (map (λ c. map arc_value c.items) (into_iter_items sessions.old)) }
    ensures first { map arc_value result.items ≡ commands_at (map (λ c. map arc_value c.items) (into_iter_items sessions.old)) 1 }
    ensures rest { map (λ c. map arc_value c.items) (into_iter_items sessions.new) ≡ drop 1 (map (λ c. map arc_value c.items) (into_iter_items sessions.old)) }
    ensures callable { IsCallable (map arc_value result.items) }
{
    match sessions.next() {
        Some(commands) => commands,
        None => Vec::new(alloc),
    }
}

// Seats session 1, or keeps its pass where it has no command.
fn seat_first<'a, T: Technology, G>(
    desk: &Desk<'a, T, G>,
    commands: Vec<Arc<Command<T::Edit>>>,
    first: Pass<Plant<T>>,
    reader: ReaderSeat,
    mut crews: Vec<Crew<'a, T, G>>,
) -> (Vec<Crew<'a, T, G>>, Option<Pass<Plant<T>>>)
    requires workers { desk.now.workers ≤ 8 }
    requires first { IsFresh desk.now.lock.now 1 first }
    requires splits { splits first ≡ 23 }
    requires reader { reads_at reader ≡ table_of desk.now.epochs.now }
    requires callable { IsCallable (map arc_value commands.items) }
    requires empty { crews.items ≡ [] }
    requires room { 24 ≤ vec_capacity crews }
    ensures crews { AreCrewsOf T.meaning T.job_value T.runs desk.now (λ _. map arc_value commands.items) result.0.items }
    ensures first { HasFirst desk.now.lock.now result.1 (map (λ c. c.actor) result.0.items) }
    ensures alone { IsFirstSeated result.1 (map (λ c. c.actor) result.0.items) (map arc_value commands.items) }
    ensures long { length result.0.items ≤ 1 }
    ensures room { 24 ≤ vec_capacity result.0 }
{
    match seat(desk, 1, commands, first, reader) {
        Ok(crew) => {
            crews.push_reserved(crew);
            (crews, None)
        }
        Err(pass) => (crews, Some(pass)),
    }
}

// The same with lists for the crews and for the idle passes, which are empty and have room for 24.
fn seat_each<'a, T: Technology, G>(
    desk: &Desk<'a, T, G>,
    sessions: Vec<Vec<Arc<Command<T::Edit>>>>,
    first: Pass<Plant<T>>,
    rest: Vec<Pass<Plant<T>>>,
    mut reader: ReaderSeat,
    crews: Vec<Crew<'a, T, G>>,
    mut idle: Vec<Pass<Plant<T>>>,
) -> (
    Vec<Crew<'a, T, G>>,
    Option<Pass<Plant<T>>>,
    Vec<Pass<Plant<T>>>,
)
    requires begins { MayBegin desk.now.lock.now (table_of desk.now.epochs.now) desk.now.workers (commands_in sessions.items) first rest.items (reads_at reader) }
    requires empty { (crews.items ≡ []) × (idle.items ≡ []) }
    requires room { (24 ≤ vec_capacity crews) × (24 ≤ vec_capacity idle) }
    ensures crews { AreCrewsOf T.meaning T.job_value T.runs desk.now (commands_for (script_of sessions.items)) result.0.items }
    ensures first { HasFirst desk.now.lock.now result.1 (map (λ c. c.actor) result.0.items) }
    ensures idle { All (λ p. IsIdle desk.now.lock.now p) result.2.items }
    ensures seated { AreSeated (script_of sessions.items) desk.now.workers 25 (map (λ c. c.actor) result.0.items) (map (λ p. number p) result.2.items) }
{
    let mut sessions = sessions.into_iter();
    let opening = next_commands(desk.alloc, &mut sessions);
    let seat_of_one = desk.epochs.reader(&mut reader);
    let (mut crews, first) = seat_first(desk, opening, first, seat_of_one, crews);
    let mut number = 1u8;
    for pass in rest {
        number += 1;
        let commands = next_commands(desk.alloc, &mut sessions);
        let chair = desk.epochs.reader(&mut reader);
        match seat(desk, number, commands, pass, chair) {
            Ok(crew) => crews.push_reserved(crew),
            Err(pass) => idle.push_reserved(pass),
        }
    }
    (crews, first, idle)
}

/// Seats the sessions and the workers. The passes are fresh, those of 1 and of 2 to 24.
/// The crews are those of the sessions with a command and of the workers, in this order, each with its own commands. Where
/// session 1 has none, the first pass comes back by itself; the other passes without a crew come last.
pub(crate) fn seat_all<'a, T: Technology, G>(
    desk: &Desk<'a, T, G>,
    sessions: Vec<Vec<Arc<Command<T::Edit>>>>,
    first: Pass<Plant<T>>,
    rest: Vec<Pass<Plant<T>>>,
    reader: ReaderSeat,
) -> Result<
    (
        Vec<Crew<'a, T, G>>,
        Option<Pass<Plant<T>>>,
        Vec<Pass<Plant<T>>>,
    ),
    NoMemory,
>
    requires workers { desk.now.workers ≤ 8 }
    requires few { length sessions.items ≤ 16 }
    requires callable { All IsCallable (map (λ c. map arc_value c.items) sessions.items) }
    requires first { IsFresh desk.now.lock.now 1 first }
    requires splits { splits first ≡ 23 }
    requires rest { AreFresh desk.now.lock.now 2 rest.items }
    requires long { length rest.items ≡ 23 }
    requires reader { reads_at reader ≡ table_of desk.now.epochs.now }
    ensures crews { IfOk result (λ r. AreCrewsOf T.meaning T.job_value T.runs desk.now (commands_for (script_of sessions.items)) r.0.items) }
    ensures first { IfOk result (λ r. HasFirst desk.now.lock.now r.1 (map (λ c. c.actor) r.0.items)) }
    ensures idle { IfOk result (λ r. All (λ p. IsIdle desk.now.lock.now p) r.2.items) }
    ensures seated { IfOk result (λ r. AreSeated (script_of sessions.items) desk.now.workers 25 (map (λ c. c.actor) r.0.items) (map (λ p. number p) r.2.items)) }
{
    let crews = Vec::with_capacity(desk.alloc, 24)?;
    let idle = Vec::with_capacity(desk.alloc, 24)?;
    Ok(seat_each(desk, sessions, first, rest, reader, crews, idle))
}
