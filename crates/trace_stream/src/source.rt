//! Sources: where a run's input comes from.
ghost use Rattle.std.specs.Prelude.{◌≡◌, ℕ, ◌+◌, ◌<◌, ◌≤◌, List, [], Option, Some, length, take, IfOk, OnErr, IsErr};
ghost use Rattle.std.specs.Io.KnownBytes.{IsAtEnd};
ghost use Rattle.trace_stream.specs.declared.turns.Turn.TheVariants.{Fails};
ghost use Rattle.trace_stream.specs.Streams.{CountsFault, MeetsEnd, Takes, KeepsTurn, moving_at_least_one, first_turn, later_turns};

use crate::failed::Failed;
use crate::turns::{Turn, next_turn};
use std::io::{ErrorKind, Read};

/// Gives bytes, one read after another, and counts its faults and how often its end was met.
pub trait Source {
    /// The bytes that are left, where they are told.
    ghost remaining: { Self → Option (List ℕ) };

    /// How many reads failed.
    ghost faults: { Self → ℕ };

    /// How many reads gave nothing: those that met the end, and those into an empty buffer.
    ghost ends: { Self → ℕ };

    /// Reads some bytes to the start of `buf`, and answers how many. None is the end, where the buffer has
    /// room. `Failed` where the read failed; nothing was taken then.
    fn read(&mut self, buf: &mut [u8]) -> Result<usize, Failed>
        ensures bound { IfOk result (λ n. n ≤ length buf.new) }
        ensures bytes { IfOk result (λ n. Takes (remaining self.old) (remaining self.new) (take n buf.new)) }

        // A read that gives nothing met the end, unless it was lent no room.
        ensures end { IfOk result (λ n. n ≡ 0 → 0 < length buf.new → IsAtEnd (remaining self.new)) }
        ensures met { IfOk result (λ n. n ≡ 0 → 0 < length buf.new → MeetsEnd (ends self.old) (ends self.new)) }
        ensures once { ends self.new ≤ ends self.old + 1 }
        ensures goes { IfOk result (λ n. 0 < n → ends self.new ≡ ends self.old) }

        // A read that fails takes nothing, and it alone counts a fault.
        ensures moved { IfOk result (λ _. faults self.new ≡ faults self.old) }
        ensures kept { OnErr result (Takes (remaining self.old) (remaining self.new) []) }
        ensures count { faults self.old ≤ faults self.new }
        ensures cause { OnErr result (CountsFault (faults self.old) (faults self.new)) };
}

/// A source in memory, which is told and never fails.
#[derive(Drop)]
pub struct SureSource<'a> {
    rest: &'a [u8],
    ends: u64,
}

impl<'a> SureSource<'a> {
    /// A source of these bytes, whose end wasn't met.
    pub fn new(bytes: &'a [u8]) -> SureSource<'a>
        ensures bytes { result.rest.now ≡ bytes.now }
        ensures ends { result.ends ≡ 0 }
    {
        SureSource {
            rest: bytes,
            ends: 0,
        }
    }
}

impl<'a> Source for SureSource<'a> {
    ghost remaining = { λ s. Some s.rest.now };

    ghost faults = { λ _. 0 };

    ghost ends = { λ s. s.ends };

    fn read(&mut self, buf: &mut [u8]) -> Result<usize, Failed> {
        let count = buf.len().min(self.rest.len());
        if count == 0 {
            self.ends = self.ends.saturating_add(1);
            return Ok(0);
        }
        let (front, rest) = self.rest.split_at(count);
        buf[..count].copy_from_slice(front);
        self.rest = rest;
        Ok(count)
    }
}

/// A source in memory, which is told, and whose reads do what they are to do.
#[derive(Drop)]
pub struct MemSource<'a> {
    bytes: SureSource<'a>,
    turns: &'a [Turn],
    faults: u64,
}

impl<'a> MemSource<'a> {
    /// A source of these bytes, whose first reads have these turns. One that gives bytes gives at least one.
    pub fn new(bytes: &'a [u8], turns: &'a [Turn]) -> MemSource<'a>
        ensures bytes { result.bytes.rest.now ≡ bytes.now }
        ensures turns { result.turns.now ≡ turns.now }
        ensures faults { result.faults ≡ 0 }
        ensures ends { result.bytes.ends ≡ 0 }
    {
        MemSource {
            bytes: SureSource::new(bytes),
            turns,
            faults: 0,
        }
    }
}

impl<'a> Source for MemSource<'a> {
    ghost remaining = { λ s. Some s.bytes.rest.now };

    ghost faults = { λ s. s.faults };

    ghost ends = { λ s. s.bytes.ends };

    fn read(&mut self, buf: &mut [u8]) -> Result<usize, Failed>
        ensures bound { IfOk result (λ n. n ≤ length buf.new) }
        ensures bytes { IfOk result (λ n.
            Takes (Some self.old.bytes.rest.now) (Some self.new.bytes.rest.now) (take n buf.new)) }

        ensures end { IfOk result (λ n. n ≡ 0 → 0 < length buf.new
            → IsAtEnd (Some self.new.bytes.rest.now)) }
        ensures met { IfOk result (λ n. n ≡ 0 → 0 < length buf.new
            → MeetsEnd self.old.bytes.ends self.new.bytes.ends) }
        ensures once { self.new.bytes.ends ≤ self.old.bytes.ends + 1 }
        ensures goes { IfOk result (λ n. 0 < n → self.new.bytes.ends ≡ self.old.bytes.ends) }

        ensures kept { OnErr result
            (Takes (Some self.old.bytes.rest.now) (Some self.new.bytes.rest.now) []) }
        ensures count { self.old.faults ≤ self.new.faults }
        ensures cause { OnErr result (CountsFault self.old.faults self.new.faults) }
        ensures moved { IfOk result (λ _. self.new.faults ≡ self.old.faults) }

        // A turn of no bytes gives one byte, since none would tell the end.
        ensures turns { self.new.turns.now ≡ later_turns self.old.turns.now }
        ensures turn { KeepsTurn (moving_at_least_one (first_turn self.old.turns.now)) result }
        ensures fails { IsErr result → first_turn self.old.turns.now ≡ Fails }
    {
        let (turn, turns) = next_turn(self.turns);
        self.turns = turns;
        match turn {
            Turn::Fails => {
                self.faults = self.faults.saturating_add(1);
                Err(Failed)
            }
            Turn::Moves { most } => {
                let count = most.max(1).min(buf.len());
                self.bytes.read(&mut buf[..count])
            }
        }
    }
}

/// A source over one of std's readers. A read that was interrupted is tried again.
#[derive(Drop)]
pub struct StdSource<R> {
    reader: R,
    faults: u64,
    ends: u64,
}

impl<R: Read> StdSource<R> {
    /// A source over this reader, before any fault, and before its end was met.
    pub fn new(reader: R) -> StdSource<R>
        ensures reader { result.reader ≡ reader }
        ensures faults { result.faults ≡ 0 }
        ensures ends { result.ends ≡ 0 }
    {
        StdSource {
            reader,
            faults: 0,
            ends: 0,
        }
    }

    /// The reader.
    pub fn get_ref(&self) -> &R
        ensures { result.now ≡ self.now.reader }
    {
        &self.reader
    }
}

impl<R: Read> Source for StdSource<R> {
    ghost remaining = { λ s. R.remaining s.reader };

    ghost faults = { λ s. s.faults };

    ghost ends = { λ s. s.ends };

    fn read(&mut self, buf: &mut [u8]) -> Result<usize, Failed> {
        for _ in 0..u64::MAX {
            match self.reader.read(buf) {
                Ok(0) => {
                    self.ends = self.ends.saturating_add(1);
                    return Ok(0);
                }
                Ok(count) => return Ok(count),
                Err(error) if error.kind() == ErrorKind::Interrupted => {}
                Err(_) => break,
            }
        }
        self.faults = self.faults.saturating_add(1);
        Err(Failed)
    }
}
