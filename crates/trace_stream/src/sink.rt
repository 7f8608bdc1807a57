//! Sinks: where a run's output goes.
ghost use Rattle.std.specs.Prelude.{◌≡◌, ℕ, ◌<◌, ◌≤◌, List, [], Option, Some, length, take, IfOk, OnOk, OnErr};
ghost use Rattle.trace_stream.specs.Streams.{CountsFault, Puts, PutsFront, StopsWriting, KeepsTurn, first_turn, later_turns};

use crate::failed::Failed;
use crate::turns::{Turn, next_turn};
use std::alloc::Global;
use std::io::{ErrorKind, Write};

/// Takes bytes, one write after another, and counts its faults.
pub trait Sink {
    /// The bytes that it holds, where they are told.
    ghost holds: { Self → Option (List ℕ) };

    /// How many writes failed.
    ghost faults: { Self → ℕ };

    /// Writes some of the piece's first bytes, and answers how many. To take no byte of a piece that has some is a
    /// fault; any other number is none. `Failed` where the write failed; nothing was written then.
    fn write(&mut self, piece: &[u8]) -> Result<usize, Failed>
        ensures bound { IfOk result (λ n. n ≤ length piece.now) }
        ensures bytes { IfOk result (λ n. Puts (holds self.old) (holds self.new) (take n piece.now)) }

        // To take nothing of a piece that has some counts a fault, and isn't told as one.
        ensures stuck { IfOk result (λ n. n ≡ 0 → 0 < length piece.now
            → CountsFault (faults self.old) (faults self.new)) }
        ensures moved { IfOk result (λ n. 0 < n → faults self.new ≡ faults self.old) }
        ensures none { IfOk result (λ n. length piece.now ≡ 0 → faults self.new ≡ faults self.old) }

        ensures kept { OnErr result (Puts (holds self.old) (holds self.new) []) }
        ensures count { faults self.old ≤ faults self.new }
        ensures cause { OnErr result (CountsFault (faults self.old) (faults self.new)) };
}

/// Writes the whole piece. `Failed` where a write failed or took nothing; what was written is then a front of it.
/// Behind such a fault nothing more is written, so `Ok` comes only where no fault was counted.
pub fn write_all<W: Sink>(sink: &mut W, piece: &[u8]) -> Result<(), Failed>
    ensures ok { OnOk result (Puts (W.holds sink.old) (W.holds sink.new) piece.now) }
    ensures err { OnErr result (PutsFront (W.holds sink.old) (W.holds sink.new) piece.now) }
    ensures sure { OnOk result (W.faults sink.new ≡ W.faults sink.old) }
    ensures count { W.faults sink.old ≤ W.faults sink.new }
    ensures cause { OnErr result (CountsFault (W.faults sink.old) (W.faults sink.new)) }
    ensures stops { OnErr result (StopsWriting W.faults W.holds sink.old sink.new) }
{
    let mut at = 0;
    while at < piece.len() {
        let count = sink.write(&piece[at..])?;
        if count == 0 {
            return Err(Failed);
        }
        at += count;
    }
    Ok(())
}

/// A sink in memory, which is told. It fails only where no memory is to be had.
#[derive(Drop)]
pub struct SureSink {
    bytes: Vec<u8>,
    faults: u64,
}

impl SureSink {
    /// A sink that holds nothing.
    pub fn new(alloc: Global) -> SureSink
        ensures bytes { result.bytes.items ≡ [] }
        ensures faults { result.faults ≡ 0 }
    {
        SureSink {
            bytes: Vec::new(alloc),
            faults: 0,
        }
    }

    /// The bytes that it holds.
    pub fn as_slice(&self) -> &[u8]
        ensures { result.now ≡ self.now.bytes.items }
    {
        self.bytes.as_slice()
    }
}

impl Sink for SureSink {
    ghost holds = { λ s. Some s.bytes.items };

    ghost faults = { λ s. s.faults };

    fn write(&mut self, piece: &[u8]) -> Result<usize, Failed> {
        match self.bytes.extend_from_slice(piece) {
            Ok(()) if !piece.is_empty() => Ok(piece.len()),
            Ok(()) => Ok(0),
            Err(_) => {
                self.faults = self.faults.saturating_add(1);
                Err(Failed)
            }
        }
    }
}

/// A sink in memory, which is told, and whose writes do what they are to do. It fails too where no memory is to
/// be had.
#[derive(Drop)]
pub struct MemSink<'a> {
    bytes: SureSink,
    turns: &'a [Turn],
    faults: u64,
}

impl<'a> MemSink<'a> {
    /// A sink that holds nothing, whose first writes have these turns.
    pub fn new(alloc: Global, turns: &'a [Turn]) -> MemSink<'a>
        ensures bytes { result.bytes.bytes.items ≡ [] }
        ensures turns { result.turns.now ≡ turns.now }
        ensures faults { result.faults ≡ 0 }
    {
        MemSink {
            bytes: SureSink::new(alloc),
            turns,
            faults: 0,
        }
    }

    /// The bytes that it holds.
    pub fn as_slice(&self) -> &[u8]
        ensures { result.now ≡ self.now.bytes.bytes.items }
    {
        self.bytes.as_slice()
    }
}

impl<'a> Sink for MemSink<'a> {
    ghost holds = { λ s. Some s.bytes.bytes.items };

    ghost faults = { λ s. s.faults };

    fn write(&mut self, piece: &[u8]) -> Result<usize, Failed>
        ensures bound { IfOk result (λ n. n ≤ length piece.now) }
        ensures bytes { IfOk result (λ n.
            Puts (Some self.old.bytes.bytes.items) (Some self.new.bytes.bytes.items) (take n piece.now)) }

        ensures stuck { IfOk result (λ n. n ≡ 0 → 0 < length piece.now
            → CountsFault self.old.faults self.new.faults) }
        ensures moved { IfOk result (λ n. 0 < n → self.new.faults ≡ self.old.faults) }
        ensures none { IfOk result (λ n. length piece.now ≡ 0 → self.new.faults ≡ self.old.faults) }

        ensures kept { OnErr result
            (Puts (Some self.old.bytes.bytes.items) (Some self.new.bytes.bytes.items) []) }
        ensures count { self.old.faults ≤ self.new.faults }
        ensures cause { OnErr result (CountsFault self.old.faults self.new.faults) }

        ensures turns { self.new.turns.now ≡ later_turns self.old.turns.now }
        ensures turn { KeepsTurn (first_turn self.old.turns.now) result }
    {
        let (turn, turns) = next_turn(self.turns);
        self.turns = turns;
        let taken = match turn {
            Turn::Fails => Err(Failed),
            Turn::Moves { most } => self.bytes.write(&piece[..most.min(piece.len())]),
        };
        match taken {
            Ok(count) if count > 0 || piece.is_empty() => Ok(count),
            other => {
                self.faults = self.faults.saturating_add(1);
                other
            }
        }
    }
}

/// A sink over one of std's writers. A write that was interrupted is tried again.
#[derive(Drop)]
pub struct StdSink<W> {
    writer: W,
    faults: u64,
}

impl<W: Write> StdSink<W> {
    /// A sink over this writer, before any fault.
    pub fn new(writer: W) -> StdSink<W>
        ensures writer { result.writer ≡ writer }
        ensures faults { result.faults ≡ 0 }
    {
        StdSink { writer, faults: 0 }
    }

    /// The writer.
    pub fn get_ref(&self) -> &W
        ensures { result.now ≡ self.now.writer }
    {
        &self.writer
    }
}

impl<W: Write> Sink for StdSink<W> {
    ghost holds = { λ s. W.contents s.writer };

    ghost faults = { λ s. s.faults };

    fn write(&mut self, piece: &[u8]) -> Result<usize, Failed> {
        for _ in 0..u64::MAX {
            match self.writer.write(piece) {
                Ok(0) if !piece.is_empty() => break,
                Ok(count) => return Ok(count),
                Err(error) if error.kind() == ErrorKind::Interrupted => {}
                Err(_) => break,
            }
        }
        self.faults = self.faults.saturating_add(1);
        Err(Failed)
    }
}
