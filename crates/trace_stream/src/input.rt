//! Reading an input whole, which a command does that handles no line before the last has come.
ghost use Rattle.std.specs.Prelude.{◌≡◌, ◌≢◌, ◌+◌, ◌<◌, ◌≤◌, length, IfOk, vec_len};
ghost use Rattle.std.specs.Io.KnownBytes.{IsAtEnd};
ghost use Rattle.trace_stream.specs.Streams.{CountsFault, MeetsEnd, Takes, StopsReading};

use crate::failed::Failed;
use crate::source::Source;
use otel_base::memory::Memory;
use std::alloc::{AllocError, Global};
use trace_lines::limits::MAX_INPUT;

/// How many bytes are asked for at once.
pub const BLOCK_SIZE: usize = 65_536;

/// How the reading of an input ended.
#[derive(Clone, Copy, Debug, PartialEq, Eq)]
pub enum End {
    /// At the input's end.
    Whole,
    /// At a read that failed.
    Fault,
    /// Past the most bytes that an input may have.
    TooLong,
}

/// What was read of an input.
#[derive(Drop)]
pub struct Input {
    /// The bytes, one block more than an input may have at the most.
    pub bytes: Vec<u8>,
    /// How the reading ended.
    pub end: End,
}

/// Reads the source to its end, to a fault, or until more was read than an input may have. Behind its end it isn't read
/// again. `Memory` freely.
pub fn read_all<R: Source>(alloc: Global, source: &mut R) -> Result<Input, Memory>
    ensures bytes { IfOk result (λ input.
        Takes (R.remaining source.old) (R.remaining source.new) input.bytes.items) }
    ensures whole { IfOk result (λ input. input.end ≡ End.Whole → IsAtEnd (R.remaining source.new)) }
    ensures short { IfOk result (λ input. input.end ≢ End.TooLong → length input.bytes.items ≤ MAX_INPUT) }
    ensures long { IfOk result (λ input. input.end ≡ End.TooLong → MAX_INPUT < length input.bytes.items) }

    // Behind the first fault nothing is read.
    ensures fault { IfOk result (λ input. input.end ≡ End.Fault
        → CountsFault (R.faults source.old) (R.faults source.new)) }
    ensures count { R.faults source.old ≤ R.faults source.new }
    ensures sure { IfOk result (λ input. input.end ≢ End.Fault → R.faults source.new ≡ R.faults source.old) }
    ensures stops { IfOk result (λ input. input.end ≡ End.Fault
        → StopsReading R.faults R.remaining source.old source.new) }

    ensures met { IfOk result (λ input. input.end ≡ End.Whole → MeetsEnd (R.ends source.old) (R.ends source.new)) }
    ensures over { IfOk result (λ input. input.end ≡ End.TooLong → R.ends source.new ≡ R.ends source.old) }
    ensures end_once { R.ends source.new ≤ R.ends source.old + 1 }
{
    let mut bytes = Vec::new(alloc);
    let mut room = zeros(alloc, BLOCK_SIZE)?;
    let block = room.as_mut_slice();
    while bytes.len() <= MAX_INPUT {
        match source.read(block) {
            Ok(0) => {
                let end = End::Whole;
                return Ok(Input { bytes, end });
            }
            Ok(count) => bytes.extend_from_slice(&block[..count])?,
            Err(Failed) => {
                let end = End::Fault;
                return Ok(Input { bytes, end });
            }
        }
    }
    let end = End::TooLong;
    Ok(Input { bytes, end })
}

/// So many zeros.
pub fn zeros(alloc: Global, size: usize) -> Result<Vec<u8>, AllocError>
    ensures { IfOk result (λ room. vec_len room ≡ size) }
{
    vec![in alloc; 0u8; size]
}
