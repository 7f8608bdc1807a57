//! Why a text isn't put in force.
ghost use Rattle.std.specs.Prelude.{◌≡◌};

use otel_base::memory::Memory;
use std::alloc::AllocError;

/// Why a text gives no filter.
#[derive(Clone, Copy, Debug, PartialEq, Eq, Drop)]
pub enum GateError {
    /// The first piece that is no directive, by its number, from 1; empty pieces count.
    Directive { piece: u64 },
    /// Out of memory.
    Memory,
}

impl From<Memory> for GateError {
    ghost use Rattle.event_gate.specs.Rules.{no_memory};

    ghost from_gives = { λ _ e. e ≡ no_memory };

    fn from(_: Memory) -> GateError {
        GateError::Memory
    }
}

impl From<AllocError> for GateError {
    ghost use Rattle.event_gate.specs.Rules.{no_memory};

    ghost from_gives = { λ _ e. e ≡ no_memory };

    fn from(_: AllocError) -> GateError {
        GateError::Memory
    }
}
