ghost use Rattle.std.specs.Prelude.{◌≡◌, ◌≤◌, IfOk};
ghost use Rattle.pl_epochs.specs.Words.{table_of, writes_at, reads_at, count_of};

use crate::{EpochTable, ReaderSeat, WriterSeat};
use pl_tech::Slot;
use std::alloc::AllocError;
use std::snapshot::Snapshot;
use std::sync::Wait;
use std::test::Fail;
use std::thread;
use std::thread::{Promise, Threads};

// Raises the word of a slot ten times.
fn raise_ten(table: &EpochTable, mut writer: WriterSeat, slot: Slot) -> WriterSeat
    requires table { writes_at writer ≡ table_of table.now }
    requires unraised { count_of writer slot ≤ 0 }
    ensures table { writes_at result ≡ writes_at writer }
{
    for times in 0..10_u64 {
        table.bump(&mut writer, slot);
    }
    writer
}

// Reads the word of a slot ten times.
fn read_ten(table: &EpochTable, mut reader: ReaderSeat, slot: Slot) -> ReaderSeat
    requires table { reads_at reader ≡ table_of table.now }
    ensures table { reads_at result ≡ reads_at reader }
{
    for times in 0..10_u64 {
        table.read(&mut reader, slot);
    }
    reader
}

// What the writer was when its thread began.
#[derive(Drop)]
struct WriterBegan {
    before: Snapshot<WriterSeat>,
}

impl Promise<WriterSeat> for WriterBegan {
    ghost kept_by = { λ p w. writes_at w ≡ writes_at p.before.value };
}

// What a reader was when its thread began.
#[derive(Drop)]
struct ReaderBegan {
    before: Snapshot<ReaderSeat>,
}

impl Promise<ReaderSeat> for ReaderBegan {
    ghost kept_by = { λ p r. reads_at r ≡ reads_at p.before.value };
}

// One thread raises the word of a slot ten times, and another reads it ten times.
fn raise_and_read<R: Threads + Wait + Sync>(
    rt: &R,
    table: &EpochTable,
    writer: WriterSeat,
    reader: ReaderSeat,
    slot: Slot,
) -> Result<(WriterSeat, ReaderSeat), AllocError>
    requires writer { writes_at writer ≡ table_of table.now }
    requires unraised { count_of writer slot ≤ 0 }
    requires reader { reads_at reader ≡ table_of table.now }
    ensures writer { IfOk result (λ r. writes_at r.0 ≡ writes_at writer) }
    ensures reader { IfOk result (λ r. reads_at r.1 ≡ reads_at reader) }
{
    thread::scope(
        thread::scope_env(),
        rt,
        move |scope| -> Result<(WriterSeat, ReaderSeat), AllocError>
            requires writer { writes_at writer ≡ table_of table.now }
            requires unraised { count_of writer slot ≤ 0 }
            requires reader { reads_at reader ≡ table_of table.now }
            ensures writer { IfOk result (λ r. writes_at r.0 ≡ writes_at writer) }
            ensures reader { IfOk result (λ r. reads_at r.1 ≡ reads_at reader) }
        {
            let began = WriterBegan {
                before: Snapshot::of(&writer),
            };
            let raises = scope.spawn_with(
                began,
                move || -> WriterSeat
                    requires { (writes_at writer ≡ table_of table.now) × (count_of writer slot ≤ 0) }
                    ensures { writes_at result ≡ writes_at writer }
                { raise_ten(table, writer, slot) },
            )?;
            let began = ReaderBegan {
                before: Snapshot::of(&reader),
            };
            let reads = scope.spawn_with(
                began,
                move || -> ReaderSeat
                    requires { reads_at reader ≡ table_of table.now }
                    ensures { reads_at result ≡ reads_at reader }
                { read_ten(table, reader, slot) },
            )?;
            Ok((raises.join(rt), reads.join(rt)))
        },
    )
}

#[test]
fn a_bump_is_of_its_slot_alone(rt: HostRuntime) -> Result<(), Fail> {
    let (table, mut writer, mut reader) = EpochTable::new(rt.alloc())?;
    let (seven, eight) = (Slot::of(7), Slot::of(8));
    assert_eq!(rt; table.bump(&mut writer, seven), 1);
    assert_eq!(rt; table.bump(&mut writer, seven), 2);
    assert_eq!(rt; table.read(&mut reader, seven), 2);
    assert_eq!(rt; table.read(&mut reader, eight), 0);
    Ok(())
}

#[test]
fn a_reader_that_is_split_off_later_sees_a_bump(rt: HostRuntime) -> Result<(), Fail> {
    let (table, mut writer, mut reader) = EpochTable::new(rt.alloc())?;
    let (first, last) = (Slot::of(0), Slot::of(99));
    table.bump(&mut writer, last);
    assert_eq!(rt; table.read(&mut reader, last), 1);
    let mut other = table.reader(&mut reader);
    table.meet(&mut writer, &mut other);
    table.bump(&mut writer, first);
    table.bump(&mut writer, last);
    let told: [u64; 2] = [1, 2];
    assert_eq!(rt;
        [table.read(&mut other, first), table.read(&mut other, last)],
        told
    );
    assert_eq!(rt;
        [
            table.read(&mut reader, first),
            table.read(&mut reader, last)
        ],
        told
    );
    Ok(())
}

#[test]
fn ten_bumps_of_another_thread_are_read_after_it_is_joined(rt: HostRuntime) -> Result<(), Fail> {
    let (table, writer, reader) = EpochTable::new(rt.alloc())?;
    let slot = Slot::of(42);
    let (mut writer, mut reader) = raise_and_read(&rt, &table, writer, reader, slot)?;
    assert_eq!(rt; table.read(&mut reader, slot), 10);
    table.meet(&mut writer, &mut reader);
    Ok(())
}
