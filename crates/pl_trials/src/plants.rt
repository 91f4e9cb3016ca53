//! Plants of real prints, call by call.
ghost use Rattle.std.specs.Thread.{IsSync};

use crate::trial::{Trial, made};
use pl_edit::{Block, Edit, EditReply, ValueText};
use pl_fff::Fff;
use pl_machine::{Answer, Command, Reply};
use pl_tech::{Slot, SlotSet};
use pl_units::{NoMemory, Shared, Text};
use std::alloc::Global;
use std::sync::Arc;
use std::test::Fail;
use std::thread::Threads;

// A facet of 0.8 by 0.8 by 0.4 mm.
pub(crate) const FACET: &[u8] =
    b"solid a\nfacet normal 0 0 0\nouter loop\nvertex 0 0 0\nvertex 0.8 0 0\nvertex 0 0.8 0.4\nendloop\nendfacet\nendsolid a\n";

// What session 1 calls.
#[derive(Clone, Copy)]
enum Ask {
    // Loads the facet.
    Load,
    Set(&'static [u8], &'static [u8]),
    Apply,
    Export,
    Cancel,
    Status,
    After(u8, u32),
}

// What session 1 is told, as far as the rows have it; of a set of slots the least one and how many there are.
#[derive(Debug, PartialEq, Eq, Clone, Copy)]
enum Told {
    Done,
    Object(u8),
    Changed,
    Invalidated(u8, u8),
    Cancelled(u8),
    // How many slots are present, started and done.
    Modes(u8, u8, u8),
    NotYet(u8),
    Behind(u32),
    Other,
}

// Loads an object of these facets.
pub(crate) fn load(alloc: Global, facets: &[u8]) -> Result<Edit, NoMemory> {
    if facets.len() > 1 << 28 {
        return Err(NoMemory);
    }
    let block = Block::of(
        Text::copy_of(alloc, b"facet")?,
        Text::copy_of(alloc, facets)?,
    );
    Ok(Edit::Load {
        name: Text::copy_of(alloc, b"a")?,
        block: Shared::of(Arc::new(alloc, block)?),
    })
}

pub(crate) fn set(alloc: Global, key: &[u8], text: &[u8]) -> Result<Edit, NoMemory> {
    if text.len() > 1 << 28 {
        return Err(NoMemory);
    }
    Ok(Edit::Set {
        key: Text::copy_of(alloc, key)?,
        value: ValueText::of(Text::copy_of(alloc, text)?),
    })
}

fn command_of(alloc: Global, ask: Ask) -> Result<Command<Edit>, NoMemory> {
    match ask {
        Ask::Load => Ok(Command::Edit(load(alloc, FACET)?)),
        Ask::Set(key, text) => Ok(Command::Edit(set(alloc, key, text)?)),
        Ask::Apply => Ok(Command::Apply),
        Ask::Export => Ok(Command::Export),
        Ask::Cancel => Ok(Command::Cancel),
        Ask::Status => Ok(Command::Status),
        Ask::After(session, calls) => Ok(Command::After(session, calls)),
    }
}

fn commands_of(alloc: Global, asks: &[(Ask, Told)]) -> Result<Vec<Arc<Command<Edit>>>, Fail> {
    let mut commands = Vec::new(alloc);
    for number in 0..asks.len() {
        let (ask, _) = asks[number];
        let command = command_of(alloc, ask)?;
        commands.push(Arc::new(alloc, command)?)?;
    }
    Ok(commands)
}

fn least(slots: SlotSet) -> u8 {
    match slots.least() {
        Some(slot) => slot.number(),
        None => 100,
    }
}

fn told_by(answer: &Answer<Fff>) -> Told {
    match answer {
        Answer::Now(Reply::Edited(EditReply::Done)) => Told::Done,
        Answer::Now(Reply::Edited(EditReply::Object(place))) => Told::Object(*place),
        Answer::Now(Reply::Changed) => Told::Changed,
        Answer::Now(Reply::Invalidated(slots)) => Told::Invalidated(least(*slots), slots.len()),
        Answer::Now(Reply::Cancelled(slots)) => Told::Cancelled(*slots),
        Answer::Now(
            Reply::Modes {
                present,
                started,
                finished,
            },
        ) => Told::Modes(present.len(), started.len(), finished.len()),
        Answer::NotYet(slot) => Told::NotYet(slot.number()),
        Answer::Behind(calls) => Told::Behind(*calls),
        Answer::Now(_) => Told::Other,
    }
}

// The first call of a row that is told something else than the row has, if there is one, and what it is told.
fn differing(asks: &[(Ask, Told)], answers: &[Answer<Fff>]) -> Option<(usize, Told)> {
    for number in 0..asks.len() {
        let (_, expected) = asks[number];
        let told = match answers.get(number) {
            Some(answer) => told_by(answer),
            None => Told::Other,
        };
        if told != expected {
            return Some((number, told));
        }
    }
    None
}

// What came of a start: whether calls were told something else than the row has, the epoch at the start, and how it was closed.
#[derive(Debug, PartialEq, Eq, Clone, Copy)]
struct Outcome {
    differs: Option<(usize, Told)>,
    epoch: u64,
    late: Option<(u64, u64)>,
}

const LOADED: [(Ask, Told); 2] = [(Ask::Load, Told::Object(0)), (Ask::Apply, Told::Changed)];

const REFUSED: [(Ask, Told); 2] = [
    (Ask::Export, Told::NotYet(0)),
    (Ask::After(2, 1), Told::Behind(0)),
];

#[test]
fn a_fresh_plant_refuses_what_is_not_ready(rt: HostRuntime) -> Result<(), Fail> {
    let alloc = rt.alloc();
    let mut trial = Trial::<Fff>::new(alloc)?;
    let loaded = trial.call_all(alloc, &commands_of(alloc, &LOADED)?)?;
    assert_eq!(rt; differing(&LOADED, &loaded), None);
    let infill = trial.start(alloc, Slot::of(3))?;
    let slice = trial.start(alloc, Slot::of(0))?;
    let refused = trial.call_all(alloc, &commands_of(alloc, &REFUSED)?)?;
    assert_eq!(rt;
        (infill, slice, differing(&REFUSED, &refused)),
        (None, Some(0), None)
    );
    assert_eq!(rt; trial.entries(), 3);
    Ok(())
}

// A plant with one object applied: worker 1 makes slots, starts the next, and session 1 makes calls before it is closed.
struct Row {
    name: &'static str,
    done: u8,
    asks: &'static [(Ask, Told)],
    late: Option<(u64, u64)>,
}

const ROWS: [Row; 5] = [
    Row {
        name: "a layer height that changes and changes back",
        done: 0,
        asks: &[
            (Ask::Set(b"layer_height", b"0.3"), Told::Done),
            (Ask::Apply, Told::Invalidated(0, 1)),
            (Ask::Set(b"layer_height", b"0.2"), Told::Done),
            (Ask::Apply, Told::Changed),
        ],
        late: Some((0, 1)),
    },
    Row {
        name: "a cancel between two looks",
        done: 0,
        asks: &[
            (Ask::Status, Told::Modes(10, 1, 0)),
            (Ask::Cancel, Told::Cancelled(1)),
            (Ask::Status, Told::Modes(10, 0, 0)),
        ],
        late: Some((0, 1)),
    },
    Row {
        name: "slices, and the skirts change",
        done: 0,
        asks: &[
            (Ask::Set(b"skirts", b"3"), Told::Done),
            (Ask::Apply, Told::Changed),
        ],
        late: None,
    },
    Row {
        name: "perimeters over slices that are done, and the skirts change",
        done: 1,
        asks: &[
            (Ask::Status, Told::Modes(10, 1, 1)),
            (Ask::Set(b"skirts", b"3"), Told::Done),
            (Ask::Apply, Told::Changed),
            (Ask::Status, Told::Modes(10, 1, 1)),
        ],
        late: None,
    },
    Row {
        name: "perimeters, and the density changes",
        done: 1,
        asks: &[
            (Ask::Set(b"fill_density", b"30%"), Told::Done),
            (Ask::Apply, Told::Changed),
        ],
        late: None,
    },
];

// What came of a row, and whether, where the result was late, the journal says so and the slot can be made once more.
fn outcome_of<R: Threads + Sync>(
    rt: &R,
    alloc: Global,
    row: &Row,
) -> Result<(Option<Outcome>, bool), Fail>
    requires { IsSync R.row }
{
    let loads = commands_of(alloc, &LOADED)?;
    let commands = commands_of(alloc, row.asks)?;
    let (outcome, again) = made::<Fff, R>(rt, alloc, &loads, row.done, &commands, row.late)?;
    let outcome = outcome.map(|outcome| Outcome {
        differs: differing(row.asks, &outcome.answers),
        epoch: outcome.epoch,
        late: outcome.late,
    });
    Ok((outcome, again))
}

#[test]
fn results_are_late_exactly_where_their_slot_was_invalidated(rt: HostRuntime) -> Result<(), Fail> {
    for row in &ROWS {
        let name = row.name;
        let expected = Outcome {
            differs: None,
            epoch: 0,
            late: row.late,
        };
        let outcome = outcome_of(&rt, rt.alloc(), row)?;
        assert!(rt; outcome == (Some(expected), true), "{name}: {outcome:?}");
    }
    Ok(())
}
