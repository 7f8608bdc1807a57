//! The pieces of a filter's text, which commas are between.
ghost use Rattle.std.specs.Prelude.{◌≡◌, ◌++◌, ◌+◌, ◌<◌, ◌^◌, IfOk, OnOk};
ghost use Rattle.env_directives.specs.reading.Separators.{comma_pieces};
ghost use Rattle.env_filter.specs.texts.Pieces.{texts_of, is_memory, ReadsText, AddsPiece};

use env_directives::directive::ParseError;
use env_directives::env::directive::Directive;
use otel_base::list::Items;
use otel_base::memory::Memory;
use otel_base::text::Text;
use std::alloc::Global;

/// A piece of a text that was left out, since it is no directive.
#[derive(Drop)]
pub struct Ignored {
    /// The number of the piece, from 1; empty pieces count.
    pub piece: u64,
    /// The piece as it stands between the commas.
    pub text: Text,
    /// Why it is no directive; never `Memory`.
    pub fault: ParseError,
}

// The directives of a text in order, and its pieces that are none.
pub(crate) fn read(
    alloc: Global,
    text: &str,
    patterns: bool,
) -> Result<(Vec<Directive>, Vec<Ignored>), Memory>
    ensures { IfOk result (λ r. ReadsText patterns text.now r.0.items r.1.items) }
{
    let pieces = pieces(alloc, text)?;
    let mut directives = Vec::new(alloc);
    let mut ignored = Vec::new(alloc);
    for (at, piece) in pieces.iter().enumerate() {
        read_piece(alloc, at, *piece, patterns, &mut directives, &mut ignored)?;
    }
    Ok((directives, ignored))
}

fn pieces<'t>(alloc: Global, text: &'t str) -> Result<Vec<&'t str>, Memory>
    ensures { IfOk result (λ pieces. texts_of pieces.items ≡ comma_pieces text.now) }
{
    let mut pieces = Vec::new(alloc);
    for piece in text.split(',') {
        pieces.push(piece)?;
    }
    Ok(pieces)
}

// The piece at a place, as a directive or as one that is ignored.
fn read_piece(
    alloc: Global,
    at: usize,
    piece: &str,
    patterns: bool,
    directives: &mut Vec<Directive>,
    ignored: &mut Vec<Ignored>,
) -> Result<(), Memory>
    requires { at < 2 ^ 63 }
    ensures { OnOk result (AddsPiece patterns (at + 1) piece.now directives.old.items ignored.old.items
        directives.new.items ignored.new.items) }
{
    if piece.is_empty() {
        return Ok(());
    }
    match Directive::parse(alloc, piece, patterns) {
        Ok(directive) => directives.push(directive)?,
        Err(fault) => {
            if is_memory(fault) {
                return Err(Memory);
            }
            ignored.push(Ignored {
                piece: at as u64 + 1,
                text: Text::from_str(alloc, piece)?,
                fault,
            })?;
        }
    }
    Ok(())
}

fn is_memory(fault: ParseError) -> bool
    ensures { result ≡ is_memory fault }
{
    match fault {
        ParseError::Memory => true,
        _ => false,
    }
}
