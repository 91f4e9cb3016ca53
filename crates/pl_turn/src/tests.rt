ghost use Rattle.std.specs.Prelude.{◌≡◌, ◌++◌, ◌∷◌, [], IfOk, OnOk, OnErr, if◌then◌else◌};
ghost use Rattle.pl_turn.specs.Passes.{number, own, joined, splits, AreOfOne, HasJoinedAll, IsOf};

use crate::{Pass, TurnLock, Turned};
use std::alloc::{AllocError, Global};
use std::snapshot::Snapshot;
use std::sync::Wait;
use std::test::Fail;
use std::thread;
use std::thread::{Promise, Threads};
use std::time::{Clock, Duration};

#[derive(Clone, Copy)]
struct Line {
    by: u64,
    what: u64,
}

#[derive(Drop)]
struct Book {
    lines: Vec<Line>,
}

impl Turned for Book {
    type Entry = Line;

    type Home = ();

    ghost history = { λ b. b.lines.items };

    ghost caller = { λ l. l.by };

    ghost home = { λ _. tt };
}

impl Book {
    fn add(&mut self, line: Line) -> Result<(), AllocError>
        ensures ok { OnOk result (self.new.lines.items ≡ self.old.lines.items ++ line ∷ []) }
        ensures err { OnErr result (self.new.lines.items ≡ self.old.lines.items) }
    {
        self.lines.reserve(1)?;
        self.lines.push_reserved(line);
        Ok(())
    }

    fn count(&self, by: u64) -> usize {
        self.lines.iter().filter(|line| line.by == by).count()
    }
}

// A lock round an empty book.
fn opened(alloc: Global) -> Result<(TurnLock<Book>, Pass<Book>), AllocError>
    ensures lock { IfOk result (λ r. IsOf r.0 r.1) }
    ensures number { IfOk result (λ r. number r.1 ≡ 1) }
    ensures joined { IfOk result (λ r. joined r.1 ≡ []) }
    ensures splits { IfOk result (λ r. splits r.1 ≡ 0) }
{
    let book = Book {
        lines: Vec::new(alloc),
    };
    match TurnLock::new(alloc, book) {
        Ok(both) => Ok(both),
        Err(_) => Err(AllocError),
    }
}

// Writes a line in a turn of its own, where there is memory.
fn write<R: Wait>(
    rt: &R,
    lock: &TurnLock<Book>,
    pass: Pass<Book>,
    what: u64,
    by: u64,
) -> (bool, Pass<Book>)
    requires lock { IsOf lock.now pass }
    requires number { number pass ≡ by }
    ensures lock { AreOfOne pass result.1 }
    ensures number { number result.1 ≡ number pass }
    ensures joined { joined result.1 ≡ joined pass }
    ensures splits { splits result.1 ≡ splits pass }
    ensures own { own result.1 ≡ own pass ++ (if result.0 then (record { by = by; what = what } ∷ []) else []) }
{
    let mut turn = lock.take(rt, pass);
    if turn.value().add(Line { by, what }).is_ok() {
        (true, turn.end_with())
    } else {
        (false, turn.end())
    }
}

// Writes ten lines.
fn write_ten<R: Wait>(rt: &R, lock: &TurnLock<Book>, mut pass: Pass<Book>, by: u64) -> Pass<Book>
    requires lock { IsOf lock.now pass }
    requires number { number pass ≡ by }
    ensures lock { AreOfOne pass result }
    ensures number { number result ≡ number pass }
    ensures joined { joined result ≡ joined pass }
{
    for what in 0..10 {
        let (_, next) = write(rt, lock, pass, what, by);
        pass = next;
    }
    pass
}

// What a pass was when its thread began.
#[derive(Drop)]
struct Began {
    before: Snapshot<Pass<Book>>,
}

impl Promise<Pass<Book>> for Began {
    ghost kept_by = { λ p r. AreOfOne p.before.value r × (number r ≡ number p.before.value) × (joined r ≡ joined p.before.value) };
}

// Two threads write ten lines each.
fn both_write<R: Threads + Wait + Sync>(
    rt: &R,
    lock: &TurnLock<Book>,
    second: Pass<Book>,
    third: Pass<Book>,
) -> Result<(Pass<Book>, Pass<Book>), AllocError>
    requires second { IsOf lock.now second × (number second ≡ 2) }
    requires third { IsOf lock.now third × (number third ≡ 3) }
    ensures second { IfOk result (λ r. AreOfOne second r.0 × (number r.0 ≡ 2) × (joined r.0 ≡ joined second)) }
    ensures third { IfOk result (λ r. AreOfOne third r.1 × (number r.1 ≡ 3) × (joined r.1 ≡ joined third)) }
{
    thread::scope(
        thread::scope_env(),
        rt,
        move |scope| -> Result<(Pass<Book>, Pass<Book>), AllocError>
            requires second { IsOf lock.now second × (number second ≡ 2) }
            requires third { IsOf lock.now third × (number third ≡ 3) }
            ensures second { IfOk result (λ r. AreOfOne second r.0 × (number r.0 ≡ 2) × (joined r.0 ≡ joined second)) }
            ensures third { IfOk result (λ r. AreOfOne third r.1 × (number r.1 ≡ 3) × (joined r.1 ≡ joined third)) }
        {
            let began = Began {
                before: Snapshot::of(&second),
            };
            let one = scope.spawn_with(
                began,
                move || -> Pass<Book>
                    requires { IsOf lock.now second × (number second ≡ 2) }
                    ensures { AreOfOne second result × (number result ≡ number second) × (joined result ≡ joined second) }
                { write_ten(rt, lock, second, 2) },
            )?;
            let began = Began {
                before: Snapshot::of(&third),
            };
            let other = scope.spawn_with(
                began,
                move || -> Pass<Book>
                    requires { IsOf lock.now third × (number third ≡ 3) }
                    ensures { AreOfOne third result × (number result ≡ number third) × (joined result ≡ joined third) }
                { write_ten(rt, lock, third, 3) },
            )?;
            Ok((one.join(rt), other.join(rt)))
        },
    )
}

// Waits until a change was told: how often it found none.
fn looks<R: Wait>(rt: &R, lock: &TurnLock<Book>) -> u32 {
    let mut found_none = 0_u32;
    for _ in rt.forever() {
        if lock.changes() != 0 {
            return found_none;
        }
        found_none = found_none.saturating_add(1);
        lock.wait_for_change(rt, 0);
    }
    unreachable!()
}

// Waits for a change on a thread of its own. It is told here, after a while.
fn looks_beside<R: Threads + Wait + Clock + Sync>(
    rt: &R,
    lock: &TurnLock<Book>,
) -> Result<u32, AllocError> {
    thread::scope(
        thread::scope_env(),
        rt,
        move |scope| -> Result<u32, AllocError> {
            let there = scope.spawn(move || looks(rt, lock))?;
            thread::sleep(rt, Duration::from_millis(30));
            lock.tell_change();
            Ok(there.join(rt))
        },
    )
}

#[test]
fn a_turn_tells_a_change_exactly_where_it_adds_an_entry(rt: HostRuntime) -> Result<(), Fail> {
    let (lock, first) = opened(rt.alloc())?;
    assert_eq!(rt; lock.changes(), 0);
    let (_, first) = write(&rt, &lock, first, 50, 1);
    assert_eq!(rt; lock.changes(), 1);
    lock.wait_for_change(&rt, 0);
    let _ = lock.take(&rt, first).end();
    assert_eq!(rt; lock.changes(), 1);
    Ok(())
}

#[test]
fn who_waits_for_a_change_sleeps_until_one_is_told(rt: HostRuntime) -> Result<(), Fail> {
    let (lock, _) = opened(rt.alloc())?;
    let looks = looks_beside(&rt, &lock)?;
    assert!(rt; looks < 100);
    Ok(())
}

#[test]
fn a_pass_that_was_split_off_writes_its_own_entries(rt: HostRuntime) -> Result<(), Fail> {
    let (lock, mut first) = opened(rt.alloc())?;
    let second = lock.split(&mut first);
    let (_, second) = write(&rt, &lock, second, 60, 2);
    let (_, mut first) = write(&rt, &lock, first, 50, 1);
    lock.join(&mut first, second);
    let book = lock.close(first);
    let told: [(u64, u64); 2] = [(2, 60), (1, 50)];
    assert_eq!(rt; book.lines.len(), 2);
    for (line, (by, what)) in book.lines.iter().zip(told) {
        assert!(rt; line.by == by && line.what == what);
    }
    Ok(())
}

#[test]
fn two_threads_write_ten_entries_each(rt: HostRuntime) -> Result<(), Fail> {
    let (lock, mut first) = opened(rt.alloc())?;
    let second = lock.split(&mut first);
    let third = lock.split(&mut first);
    let (second, third) = both_write(&rt, &lock, second, third)?;
    lock.join(&mut first, second);
    lock.join(&mut first, third);
    let book = lock.close(first);
    assert_eq!(rt; book.lines.len(), 20);
    assert_eq!(rt; book.count(2), 10);
    assert_eq!(rt; book.count(3), 10);
    Ok(())
}
