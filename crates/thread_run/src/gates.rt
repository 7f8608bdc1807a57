//! The gates of workers.
ghost use Rattle.std.specs.Prelude.{◌≤◌, IfOk};
ghost use Rattle.thread_lines.specs.Runnable.{HasFilter};
ghost use Rattle.thread_lines.specs.declared.limits.TheConstants.{MAX_WORKERS};
ghost use Rattle.thread_run.specs.Gates.{AreNewGates};

use otel_base::memory::Memory;
use shared_gate::{GateError, GateWriter, SharedGate};
use std::alloc::Global;

/// The gates of workers, and their writer: none where there is no worker.
pub(crate) struct Gates {
    pub writer: Option<GateWriter>,
    pub gates: Vec<SharedGate>,
}

/// A gate of a text for each of so many workers.
pub(crate) fn make_gates(alloc: Global, text: &str, workers: usize) -> Result<Gates, Memory>
    requires filter { HasFilter text.now }
    requires few { workers ≤ MAX_WORKERS }
    ensures { IfOk result (λ g. AreNewGates text.now workers g.gates.items) }
{
    if workers == 0 {
        return Ok(Gates {
            writer: None,
            gates: Vec::new(alloc),
        });
    }
    match SharedGate::make(alloc, text, workers as u64) {
        Ok((writer, gates)) => Ok(Gates {
            writer: Some(writer),
            gates,
        }),
        Err(GateError::Memory) => Err(Memory),
        Err(GateError::Directive { piece: _ }) => unreachable!(),
    }
}
