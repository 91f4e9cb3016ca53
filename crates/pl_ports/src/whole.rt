ghost use Rattle.std.specs.Prelude.{◌≡◌, ◌<◌, ◌≤◌, ◌+◌, ℕ, List, Option, [], take, length, map, IfOk, OnOk, IfSome};
ghost use Rattle.std.specs.Io.KnownBytes.{Consumes, Appends, IsAtEnd};
ghost use Rattle.std.specs.List.{concat};
ghost use Rattle.pl_ports.specs.Causes.{Rose, AppendsFront, TookMore, TookAtMost};

use crate::{ReadStop, Sink, SinkStop, Source};
use pl_units::Text;
use std::alloc::Global;

/// All bytes to the end, where they are at most `limit`.
pub fn read_all<S: Source>(alloc: Global, source: &mut S, limit: usize) -> Result<Text, ReadStop>
    ensures all { IfOk result (λ text. Consumes (S.left source.old) (S.left source.new) text) }
    ensures end { OnOk result (IsAtEnd (S.left source.new)) }
    ensures short { IfOk result (λ text. length text ≤ limit) }
    ensures too_long { result ≡ Err ReadStop.TooLong → TookMore (S.left source.old) (S.left source.new) limit }
    ensures failed { result ≡ Err ReadStop.Failed → Rose (S.faults source.old) (S.faults source.new) }
    ensures failed_first { result ≡ Err ReadStop.Failed → TookAtMost (S.left source.old) (S.left source.new) limit }
    ensures no_fault { OnOk result (S.faults source.new ≡ S.faults source.old) }
    ensures long_no_fault { result ≡ Err ReadStop.TooLong → S.faults source.new ≡ S.faults source.old }
    ensures later { S.faults source.old ≤ S.faults source.new }
{
    let mut text = Text::copy_of(alloc, &[]).map_err(|_| ReadStop::NoMemory)?;
    let mut buffer = [0u8; 4096];
    loop {
        let count = source.read(&mut buffer).map_err(|_| ReadStop::Failed)?;
        if count == 0 {
            return Ok(text);
        }
        if count > limit - text.bytes().len() {
            return Err(ReadStop::TooLong);
        }
        text.append(&buffer[..count])
            .map_err(|_| ReadStop::NoMemory)?;
    }
}

/// Appends all the bytes. After a stop a front of them was appended.
pub fn put_all<K: Sink>(sink: &mut K, bytes: &[u8]) -> Result<(), SinkStop>
    ensures all { OnOk result (Appends (K.held sink.old) (K.held sink.new) bytes.now) }
    ensures front { AppendsFront (K.held sink.old) (K.held sink.new) bytes.now }
    ensures failed { result ≡ Err SinkStop.Failed → Rose (K.faults sink.old) (K.faults sink.new) }
    ensures no_fault { OnOk result (K.faults sink.new ≡ K.faults sink.old) }
    ensures later { K.faults sink.old ≤ K.faults sink.new }
{
    let mut done = 0;
    while done < bytes.len() {
        done += sink.write(&bytes[done..])?;
    }
    Ok(())
}

/// Appends pieces one after another. After a stop a front of them was appended.
pub fn put_pieces<K: Sink>(sink: &mut K, pieces: &[&[u8]]) -> Result<(), SinkStop>
    ensures all { OnOk result (Appends (K.held sink.old) (K.held sink.new) (concat (map (λ piece. piece.now) pieces.now))) }
    ensures front { AppendsFront (K.held sink.old) (K.held sink.new) (concat (map (λ piece. piece.now) pieces.now)) }
    ensures failed { result ≡ Err SinkStop.Failed → Rose (K.faults sink.old) (K.faults sink.new) }
    ensures no_fault { OnOk result (K.faults sink.new ≡ K.faults sink.old) }
    ensures later { K.faults sink.old ≤ K.faults sink.new }
{
    for piece in pieces {
        put_all(sink, piece)?;
    }
    Ok(())
}
