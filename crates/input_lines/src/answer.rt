//! What is written for a whole input.
ghost use Rattle.std.specs.Prelude.{◌≡◌, ◌≢◌, true, IfOk};
ghost use Rattle.trace_lines.specs.text.Texts.{refusal_text};

use crate::refused_line::RefusedLine;
use otel_base::memory::Memory;
use std::alloc::Global;
use trace_lines::{Refusal, TextBuffer, Told, add_refusal_line};

/// All that is written for an input.
#[derive(Drop)]
pub struct Answer {
    /// The lines, each with its line feed.
    pub text: Vec<u8>,
    /// Whether a line is refused; the text is its refusal line then.
    pub refused: bool,
}

/// The answer to an input of which a line is refused. `Memory` freely.
pub fn refused_answer(alloc: Global, refused: RefusedLine) -> Result<Answer, Memory>
    requires { refused.told ≢ Told.Step Refusal.Memory }
    ensures text { IfOk result (λ answer. answer.text.items ≡ refusal_text refused.line refused.told) }
    ensures refused { IfOk result (λ answer. answer.refused ≡ true) }
{
    let mut text = TextBuffer::new(alloc);
    add_refusal_line(&mut text, refused.line, &refused.told)?;
    Ok(Answer {
        text: text.into_vec(),
        refused: true,
    })
}
