//! The bytes of a line that wait for a sink.
ghost use Rattle.std.specs.Prelude.{◌≡◌, ◌+◌, ◌-◌, ◌≤◌, ℕ, List, [], ◌∷◌, ◌++◌, take, length, map, OnOk};
ghost use Rattle.std.specs.Fmt.{decimal};
ghost use Rattle.std.specs.Io.KnownBytes.{Appends};
ghost use Rattle.pl_ports.specs.Causes.{AppendsFront};
ghost use Rattle.pl_transcript.specs.Words.{spaced};
ghost use Rattle.pl_transcript.specs.Growth.{Writes, Counts};

use pl_ports::{Sink, SinkStop, put_all};
use pl_units::Digits;
use std::marker::Model;

// How many bytes may wait.
const ROOM: usize = 512;

// Bytes that wait for a sink, so that a line is put into it in few pieces. A piece that is longer than the room is not
// copied.
#[derive(Drop)]
pub(crate) struct LineBuffer {
    bytes: [u8; 512],
    len: usize,
}

impl Model for LineBuffer {
    ghost use Rattle.std.specs.Prelude.{ℕ, List, ◌≤◌, take};

    ghost Value = { List ℕ };

    ghost view = { λ b. take b.len b.bytes };

    ghost invariant = { λ b. b.len ≤ 512 };
}

impl LineBuffer {
    // Nothing waits.
    pub(crate) fn new() -> LineBuffer
        ensures { result ≡ [] }
    {
        LineBuffer {
            bytes: [0; 512],
            len: 0,
        }
    }

    // How many bytes wait.
    fn len(&self) -> usize
        ensures value { result ≡ length self.now }
        ensures within { result ≤ 512 }
    {
        self.len
    }

    // What waits.
    fn bytes(&self) -> &[u8]
        ensures { result.now ≡ self.now }
    {
        &self.bytes[..self.len]
    }

    // One piece more waits.
    fn append(&mut self, piece: &[u8])
        requires { length self.old + length piece.now ≤ 512 }
        ensures { self.new ≡ self.old ++ piece.now }
    {
        let end = self.len + piece.len();
        self.bytes[self.len..end].copy_from_slice(piece);
        self.len = end;
    }

    // Nothing waits any more.
    fn clear(&mut self)
        ensures { self.new ≡ [] }
    {
        self.len = 0;
    }

    // Puts all that waits into the sink.
    pub(crate) fn flush<K: Sink>(&mut self, sink: &mut K) -> Result<(), SinkStop>
        ensures all { OnOk result (Appends (K.held sink.old) (K.held sink.new) self.old) }
        ensures empty { OnOk result (self.new ≡ []) }
        ensures front { AppendsFront (K.held sink.old) (K.held sink.new) self.old }
        ensures faults { Counts result (K.faults sink.old) (K.faults sink.new) }
    {
        put_all(sink, self.bytes())?;
        self.clear();
        Ok(())
    }

    // Writes a piece where nothing waits.
    fn begin<K: Sink>(&mut self, sink: &mut K, piece: &[u8]) -> Result<(), SinkStop>
        requires { self.old ≡ [] }
        ensures written { Writes result (K.held sink.old) self.old (K.held sink.new) self.new piece.now }
        ensures faults { Counts result (K.faults sink.old) (K.faults sink.new) }
    {
        if piece.len() > ROOM {
            return put_all(sink, piece);
        }
        self.append(piece);
        Ok(())
    }

    // Writes a piece.
    pub(crate) fn put<K: Sink>(&mut self, sink: &mut K, piece: &[u8]) -> Result<(), SinkStop>
        ensures written { Writes result (K.held sink.old) self.old (K.held sink.new) self.new piece.now }
        ensures faults { Counts result (K.faults sink.old) (K.faults sink.new) }
    {
        if piece.len() <= ROOM - self.len() {
            self.append(piece);
            return Ok(());
        }
        self.flush(sink)?;
        self.begin(sink, piece)
    }

    // Writes a word, after a space.
    pub(crate) fn put_word<K: Sink>(&mut self, sink: &mut K, word: &[u8]) -> Result<(), SinkStop>
        ensures written { Writes result (K.held sink.old) self.old (K.held sink.new) self.new (32 ∷ word.now) }
        ensures faults { Counts result (K.faults sink.old) (K.faults sink.new) }
    {
        self.put(sink, b" ")?;
        self.put(sink, word)
    }

    // Writes words, each after a space.
    pub(crate) fn put_words<K: Sink>(
        &mut self,
        sink: &mut K,
        words: &[&[u8]],
    ) -> Result<(), SinkStop>
        ensures written { Writes result (K.held sink.old) self.old (K.held sink.new) self.new (spaced (map (λ word. word.now) words.now)) }
        ensures faults { Counts result (K.faults sink.old) (K.faults sink.new) }
    {
        for word in words {
            self.put_word(sink, word)?;
        }
        Ok(())
    }

    // Writes a word and a number.
    pub(crate) fn put_number<K: Sink>(
        &mut self,
        sink: &mut K,
        word: &[u8],
        number: u64,
    ) -> Result<(), SinkStop>
        ensures written { Writes result (K.held sink.old) self.old (K.held sink.new) self.new (spaced (word.now ∷ decimal number ∷ [])) }
        ensures faults { Counts result (K.faults sink.old) (K.faults sink.new) }
    {
        self.put_words(sink, &[word, Digits::whole(number).bytes()])
    }

    // Writes a word and two numbers.
    pub(crate) fn put_pair<K: Sink>(
        &mut self,
        sink: &mut K,
        word: &[u8],
        first: u64,
        second: u64,
    ) -> Result<(), SinkStop>
        ensures written { Writes result (K.held sink.old) self.old (K.held sink.new) self.new (spaced (word.now ∷ decimal first ∷ decimal second ∷ [])) }
        ensures faults { Counts result (K.faults sink.old) (K.faults sink.new) }
    {
        self.put_words(
            sink,
            &[
                word,
                Digits::whole(first).bytes(),
                Digits::whole(second).bytes(),
            ],
        )
    }

    // Writes a word, a number and another word.
    pub(crate) fn put_numbered<K: Sink>(
        &mut self,
        sink: &mut K,
        word: &[u8],
        number: u64,
        last: &[u8],
    ) -> Result<(), SinkStop>
        ensures written { Writes result (K.held sink.old) self.old (K.held sink.new) self.new (spaced (word.now ∷ decimal number ∷ last.now ∷ [])) }
        ensures faults { Counts result (K.faults sink.old) (K.faults sink.new) }
    {
        self.put_words(sink, &[word, Digits::whole(number).bytes(), last])
    }
}
