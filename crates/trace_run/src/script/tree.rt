//! The command `tree`: a script is run, and its finished spans are written as trees.
ghost use Rattle.std.specs.Prelude.{None};
ghost use Rattle.trace_lines.specs.Report.{accepts};
ghost use Rattle.trace_run.specs.Commands.Tree.{TellsTrees};

use input_lines::{Answer, refused_answer};
use otel_base::memory::Memory;
use span_laws::ids::ids;
use std::alloc::Global;
use trace_records::{follow_lines, refusal_of};
use trace_stream::all_lines::AllLinesCommand;
use trace_tree::TreeSpan;
use tree_lines::tree_text;

/// The command.
#[derive(Clone, Copy)]
pub struct Tree;

impl AllLinesCommand for Tree {
    ghost accepts = { λ _. accepts };

    ghost writes = { λ _. TellsTrees };

    fn answer(&mut self, alloc: Global, bytes: &[u8]) -> Result<Answer, Memory> {
        match follow_lines::<TreeSpan>(alloc, None, bytes)?.end()? {
            Ok(finished) => {
                // The spans' ids differ, which their forest asks for.
                ids();
                let text = tree_text(alloc, finished.spans.as_slice(), finished.open_spans)?;
                let refused = false;
                Ok(Answer { text, refused })
            }
            Err(line) => refused_answer(alloc, line),
        }
    }

    fn refusal(&mut self, alloc: Global, bytes: &[u8]) -> Result<Option<Vec<u8>>, Memory> {
        refusal_of(alloc, None, bytes)
    }
}
