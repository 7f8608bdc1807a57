//! Lines as trees: what decides of each line that doesn't stand plainly.
ghost use Rattle.serde_json.specs.View.{view};
ghost use Rattle.trace_lines.specs.reading.Gives.{Gives};
ghost use Rattle.trace_lines.specs.reading.Spelled.{line_value};

use crate::read::LineError;
use serde_json::Value as Json;
use std::alloc::Global;

/// The value that a line is. `BadLine` where it is no JSON, `Memory` freely.
#[tactic(auto, using(crate::proofs::readings::LinesLemmas::read_value, crate::proofs::readings::LinesLemmas::no_value))]
pub(crate) fn value_of(alloc: Global, line: &[u8]) -> Result<Json, LineError>
    ensures { Gives view result (line_value line.now) }
{
    match Json::from_slice(alloc, line) {
        Ok(value) => Ok(value),
        Err(error) if error.is_memory() => Err(LineError::Memory),
        Err(_) => Err(LineError::BadLine),
    }
}
