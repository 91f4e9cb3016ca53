use crate::{
    Actor, Failed, Gate, HoldGate, MemorySink, MemorySource, Point, ReadStop, Sink, SinkStop,
    Source, StdinSource, StdoutSink, SteadySink, SteadySource, put_all, put_pieces, read_all,
};
use pl_units::Text;
use std::alloc::Global;
use std::io;
use std::test::Fail;

// A writer that takes what it is given, and fails to flush.
#[derive(Drop)]
struct NoFlush;

impl io::Write for NoFlush {
    fn write(&mut self, buf: &[u8]) -> io::Result<usize> {
        Ok(buf.len())
    }

    fn flush(&mut self) -> io::Result<()> {
        Err(io::Error::from(io::ErrorKind::BrokenPipe))
    }
}

#[test]
fn a_failed_flush_is_a_fault(rt: HostRuntime) {
    let mut sink = StdoutSink::new(NoFlush);
    assert!(rt; sink.write(b"ab") == Err(SinkStop::Failed));
}

// A writer that keeps what it was given, and how much of it was flushed.
#[derive(Drop)]
struct Kept {
    bytes: Vec<u8>,
    flushed: usize,
}

impl io::Write for Kept {
    fn write(&mut self, buf: &[u8]) -> io::Result<usize> {
        let count = buf.len().min(3);
        match self.bytes.extend_from_slice(&buf[..count]) {
            Ok(()) => Ok(count),
            Err(_) => Err(io::Error::from(io::ErrorKind::OutOfMemory)),
        }
    }

    fn flush(&mut self) -> io::Result<()> {
        self.flushed = self.bytes.len();
        Ok(())
    }
}

#[test]
fn a_writer_is_given_all_bytes_and_flushed(rt: HostRuntime) -> Result<(), Fail> {
    let mut kept = Kept {
        bytes: Vec::new(rt.alloc()),
        flushed: 0,
    };
    let mut sink = StdoutSink::new(&mut kept);
    assert!(rt; put_all(&mut sink, b"abcdefgh") == Ok(()));
    assert!(rt; kept.bytes.as_slice() == b"abcdefgh".as_slice());
    assert_eq!(rt; kept.flushed, 8);
    Ok(())
}

#[test]
fn a_reader_is_a_source(rt: HostRuntime) -> Result<(), Fail> {
    let mut source = StdinSource::new(b"abc".as_slice());
    let mut buffer = [0; 2];
    assert_eq!(rt; source.read(&mut buffer).ok().ok_or("failed")?, 2);
    assert_eq!(rt; buffer, [b'a', b'b']);
    Ok(())
}

// The bytes of a list of calls that a sink of pieces of two bytes was given.
fn numbers(alloc: Global, calls: &[u32]) -> Result<Vec<u32>, Fail> {
    Ok(Vec::from_slice(alloc, calls)?)
}

#[test]
fn listed_calls_fail_and_count(rt: HostRuntime) -> Result<(), Fail> {
    let mut sink = MemorySink::new(rt.alloc(), 2, numbers(rt.alloc(), &[2])?);
    assert!(rt; put_all(&mut sink, b"abcdefg") == Err(SinkStop::Failed));
    assert!(rt; sink.held() == b"abcd".as_slice());
    assert!(rt; put_all(&mut sink, b"efg") == Ok(()));
    assert!(rt; sink.held() == b"abcdefg".as_slice());

    let text = Text::copy_of(rt.alloc(), b"abc")?;
    let mut source = MemorySource::new(text, 2, numbers(rt.alloc(), &[0])?);
    let mut buffer = [0; 8];
    assert!(rt; source.read(&mut buffer) == Err(Failed));
    assert!(rt; source.read(&mut buffer) == Ok(2));
    assert!(rt; source.read(&mut buffer) == Ok(1));
    assert!(rt; source.read(&mut buffer) == Ok(0));
    Ok(())
}

#[test]
fn more_than_the_limit_is_too_long(rt: HostRuntime) -> Result<(), Fail> {
    let ten = Text::copy_of(rt.alloc(), b"0123456789")?;
    let eleven = Text::copy_of(rt.alloc(), b"0123456789a")?;
    let read = read_all(rt.alloc(), &mut SteadySource::new(ten), 10).map_err(|_| "ten bytes")?;
    assert!(rt; read.bytes() == b"0123456789".as_slice());
    let refused = read_all(rt.alloc(), &mut SteadySource::new(eleven), 10);
    assert!(rt; matches!(refused, Err(ReadStop::TooLong)));
    Ok(())
}

#[test]
fn pieces_go_out_in_order(rt: HostRuntime) {
    let mut sink = SteadySink::new(rt.alloc());
    assert!(rt; put_pieces(&mut sink, &[b"a", b"", b"bc"]) == Ok(()));
    assert!(rt; sink.held() == b"abc".as_slice());
}

// What passes a gate, and whether it has overrun after that.
#[derive(Drop)]
struct Passing {
    name: &'static str,
    actor: Actor,
    point: Point,
    overran: bool,
}

#[test]
fn a_gate_holds_the_first_start_of_its_slot_for_so_many_turns(rt: HostRuntime) {
    let rows = [
        Passing {
            name: "a call too few",
            actor: Actor::Session(1),
            point: Point::Answered(1),
            overran: false,
        },
        Passing {
            name: "another session",
            actor: Actor::Session(3),
            point: Point::Answered(9),
            overran: false,
        },
        Passing {
            name: "another slot",
            actor: Actor::Worker(1),
            point: Point::Started(8),
            overran: false,
        },
        Passing {
            name: "an end",
            actor: Actor::Worker(1),
            point: Point::Finished(7),
            overran: false,
        },
        Passing {
            name: "the slot, before both have called",
            actor: Actor::Worker(1),
            point: Point::Started(7),
            overran: true,
        },
    ];
    let gate = HoldGate::new(7, 1, 2, 2, 10);
    for row in &rows {
        gate.pass(row.actor, row.point);
        assert!(rt; gate.overran() == row.overran, "{}", row.name);
    }
    let gate = HoldGate::new(7, 1, 2, 2, 10);
    gate.pass(Actor::Session(2), Point::Answered(3));
    gate.pass(Actor::Session(1), Point::Answered(2));
    gate.pass(Actor::Session(2), Point::Started(7));
    assert!(rt; !gate.overran());
}
