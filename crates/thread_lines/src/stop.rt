//! Why a script isn't gone on with.
ghost use Rattle.std.specs.Prelude.{◌≡◌};
ghost use Rattle.thread_lines.specs.declared.stop.ScriptStop.TheVariants as stop;

use otel_base::memory;
use std::alloc::AllocError;
use trace_lines::Told;

/// Why a script isn't gone on with.
#[derive(Clone, Copy)]
pub enum ScriptStop {
    /// A line is refused.
    Refused { told: Told },
    /// No memory was to be had.
    Memory,
}

impl From<memory::Memory> for ScriptStop {
    ghost from_gives = { λ _ e. e ≡ stop.Memory };

    fn from(_error: memory::Memory) -> ScriptStop {
        ScriptStop::Memory
    }
}

impl From<AllocError> for ScriptStop {
    ghost from_gives = { λ _ e. e ≡ stop.Memory };

    fn from(_error: AllocError) -> ScriptStop {
        ScriptStop::Memory
    }
}
