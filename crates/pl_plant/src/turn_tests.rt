//! A plant under the turn lock.
ghost use Rattle.std.specs.Prelude.{◌≡◌, [], IfOk, MatchOption};
ghost use Rattle.pl_epochs.specs.Words.{table_of};
ghost use Rattle.pl_machine.specs.Calls.{NamesSession};
ghost use Rattle.pl_plant.specs.Turned.{GrewBy};
ghost use Rattle.pl_turn.specs.Passes.{home_of, number, joined, splits, AreOfOne, IsOf};

use crate::Plant;
use pl_epochs::EpochTable;
use pl_machine::{Actor, Answer, Command, Entry, Reply};
use pl_tech::{Technology, Toy, ToyEdit};
use pl_turn::{Pass, TurnLock};
use pl_units::NoMemory;
use std::alloc::{AllocError, Global};
use std::snapshot::Snapshot;
use std::sync::{Arc, Wait};
use std::test::Fail;
use std::thread;
use std::thread::{Promise, Threads};

// A table of epochs, and a lock round a blank plant that writes its words.
fn opened(alloc: Global) -> Result<(EpochTable, TurnLock<Plant<Toy>>, Pass<Plant<Toy>>), NoMemory>
    ensures home { IfOk result (λ r. home_of (λ p. p.home) r.1 ≡ table_of r.0) }
    ensures lock { IfOk result (λ r. IsOf r.1 r.2) }
    ensures number { IfOk result (λ r. number r.2 ≡ 1) }
    ensures joined { IfOk result (λ r. joined r.2 ≡ []) }
    ensures splits { IfOk result (λ r. splits r.2 ≡ 0) }
{
    let (epochs, writer, _) = EpochTable::new(alloc)?;
    match TurnLock::new(alloc, Plant::<Toy>::new(alloc, writer)?) {
        Ok((lock, pass)) => Ok((epochs, lock, pass)),
        Err(_) => Err(NoMemory),
    }
}

// A session makes a call: the answer, where it was made.
fn ask<T: Technology>(
    plant: &mut Plant<T>,
    alloc: Global,
    epochs: &EpochTable,
    session: u8,
    command: Command<T::Edit>,
) -> Option<Answer<T>>
    requires names { NamesSession command }
    requires home { plant.old.home ≡ table_of epochs.now }
    ensures home { plant.new.home ≡ plant.old.home }
    ensures journal { MatchOption result (plant.new.journal ≡ plant.old.journal) (λ _. GrewBy session plant.old.journal plant.new.journal) }
{
    plant.reserve().ok()?;
    if !plant.may_call(session) || plant.calls(session) == u32::MAX {
        return None;
    }
    let command = Arc::new(alloc, command).ok()?;
    match plant.call(alloc, epochs, session, command).ok()? {
        Answer::Now(reply) => Some(Answer::Now(reply)),
        _ => None,
    }
}

// A session makes a call in a turn of its own.
fn call<T: Technology, R: Wait>(
    rt: &R,
    alloc: Global,
    epochs: &EpochTable,
    lock: &TurnLock<Plant<T>>,
    pass: Pass<Plant<T>>,
    session: u8,
    command: Command<T::Edit>,
) -> (Option<Answer<T>>, Pass<Plant<T>>)
    requires lock { IsOf lock.now pass }
    requires number { number pass ≡ session }
    requires home { home_of (λ p. p.home) lock.now ≡ table_of epochs.now }
    requires names { NamesSession command }
    ensures lock { AreOfOne pass result.1 }
    ensures number { number result.1 ≡ number pass }
    ensures joined { joined result.1 ≡ joined pass }
    ensures splits { splits result.1 ≡ splits pass }
{
    let mut turn = lock.take(rt, pass);
    match ask(turn.value(), alloc, epochs, session, command) {
        Some(answer) => (Some(answer), turn.end_with()),
        None => (None, turn.end()),
    }
}

// A session makes ten edits.
fn edit_ten<R: Wait>(
    rt: &R,
    alloc: Global,
    epochs: &EpochTable,
    lock: &TurnLock<Plant<Toy>>,
    mut pass: Pass<Plant<Toy>>,
    session: u8,
) -> Pass<Plant<Toy>>
    requires lock { IsOf lock.now pass }
    requires number { number pass ≡ session }
    requires home { home_of (λ p. p.home) lock.now ≡ table_of epochs.now }
    ensures lock { AreOfOne pass result }
    ensures number { number result ≡ number pass }
    ensures joined { joined result ≡ joined pass }
    ensures splits { splits result ≡ splits pass }
{
    for value in 0..10u32 {
        let edit = Command::Edit(ToyEdit::SetA(value));
        let (_, next) = call(rt, alloc, epochs, lock, pass, session, edit);
        pass = next;
    }
    pass
}

// What a pass was when its thread began.
#[derive(Drop)]
struct Began {
    before: Snapshot<Pass<Plant<Toy>>>,
}

impl Promise<Pass<Plant<Toy>>> for Began {
    ghost kept_by = { λ p r. AreOfOne p.before.value r × (number r ≡ number p.before.value) × (joined r ≡ joined p.before.value) × (splits r ≡ splits p.before.value) };
}

// Sessions 1 and 2 make ten edits each, on threads of their own.
fn both_edit<R: Threads + Wait + Sync>(
    rt: &R,
    alloc: Global,
    epochs: &EpochTable,
    lock: &TurnLock<Plant<Toy>>,
    first: Pass<Plant<Toy>>,
    second: Pass<Plant<Toy>>,
) -> Result<(Pass<Plant<Toy>>, Pass<Plant<Toy>>), AllocError>
    requires home { home_of (λ p. p.home) lock.now ≡ table_of epochs.now }
    requires first { IsOf lock.now first × (number first ≡ 1) }
    requires second { IsOf lock.now second × (number second ≡ 2) }
    ensures first { IfOk result (λ r. AreOfOne first r.0 × (number r.0 ≡ 1) × (joined r.0 ≡ joined first) × (splits r.0 ≡ splits first)) }
    ensures second { IfOk result (λ r. AreOfOne second r.1 × (number r.1 ≡ 2) × (joined r.1 ≡ joined second)) }
{
    thread::scope(
        thread::scope_env(),
        rt,
        move |scope| -> Result<(Pass<Plant<Toy>>, Pass<Plant<Toy>>), AllocError>
            requires home { home_of (λ p. p.home) lock.now ≡ table_of epochs.now }
            requires first { IsOf lock.now first × (number first ≡ 1) }
            requires second { IsOf lock.now second × (number second ≡ 2) }
            ensures first { IfOk result (λ r. AreOfOne first r.0 × (number r.0 ≡ 1) × (joined r.0 ≡ joined first) × (splits r.0 ≡ splits first)) }
            ensures second { IfOk result (λ r. AreOfOne second r.1 × (number r.1 ≡ 2) × (joined r.1 ≡ joined second)) }
        {
            let began = Began {
                before: Snapshot::of(&first),
            };
            let one = scope.spawn_with(
                began,
                move || -> Pass<Plant<Toy>>
                    requires home { home_of (λ p. p.home) lock.now ≡ table_of epochs.now }
                    requires pass { IsOf lock.now first × (number first ≡ 1) }
                    ensures { AreOfOne first result × (number result ≡ number first) × (joined result ≡ joined first) × (splits result ≡ splits first) }
                { edit_ten(rt, alloc, epochs, lock, first, 1) },
            )?;
            let began = Began {
                before: Snapshot::of(&second),
            };
            let other = scope.spawn_with(
                began,
                move || -> Pass<Plant<Toy>>
                    requires home { home_of (λ p. p.home) lock.now ≡ table_of epochs.now }
                    requires pass { IsOf lock.now second × (number second ≡ 2) }
                    ensures { AreOfOne second result × (number result ≡ number second) × (joined result ≡ joined second) × (splits result ≡ splits second) }
                { edit_ten(rt, alloc, epochs, lock, second, 2) },
            )?;
            Ok((one.join(rt), other.join(rt)))
        },
    )
}

// How many entries a session has.
fn entries_of(journal: &[Entry<Toy>], session: u8) -> usize {
    journal
        .iter()
        .filter(|entry| matches!(entry.actor, Actor::Session(by) if by == session))
        .count()
}

#[test]
fn two_passes_make_a_call_each(rt: HostRuntime) -> Result<(), Fail> {
    let alloc = rt.alloc();
    let (epochs, lock, mut first) = opened(alloc)?;
    let second = lock.split(&mut first);
    let edit = Command::Edit(ToyEdit::SetA(5));
    let (edited, mut first) = call(&rt, alloc, &epochs, &lock, first, 1, edit);
    let (applied, second) = call(&rt, alloc, &epochs, &lock, second, 2, Command::Apply);
    lock.join(&mut first, second);
    let plant = lock.close(first);
    assert!(rt; matches!(edited, Some(Answer::Now(Reply::Edited(())))));
    assert!(rt; matches!(applied, Some(Answer::Now(Reply::Changed))));
    let journal = plant.into_journal();
    assert_eq!(rt; journal.len(), 2);
    assert_eq!(rt; (entries_of(&journal, 1), entries_of(&journal, 2)), (1, 1));
    Ok(())
}

#[test]
fn two_threads_make_ten_edits_each(rt: HostRuntime) -> Result<(), Fail> {
    let alloc = rt.alloc();
    let (epochs, lock, mut first) = opened(alloc)?;
    let second = lock.split(&mut first);
    let (mut first, second) = both_edit(&rt, alloc, &epochs, &lock, first, second)?;
    lock.join(&mut first, second);
    let plant = lock.close(first);
    let journal = plant.into_journal();
    assert_eq!(rt; journal.len(), 20);
    assert_eq!(rt;
        (entries_of(&journal, 1), entries_of(&journal, 2)),
        (10, 10)
    );
    Ok(())
}
