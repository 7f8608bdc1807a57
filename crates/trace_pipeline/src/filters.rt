//! Filters of texts.
ghost use Rattle.std.specs.Prelude.{◌≡◌, IfOk, OnOk, IfErr, Ok, option_map};
ghost use Rattle.env_filter.specs.Filtering.{plain_filter, IsNewFilter};
ghost use Rattle.span_script.specs.Admission.{text_read, fault_in, counting_read, opening_read, IsTextFilter, IsCountingFilter, IsOpenError, open_error_by};

use env_directives::directive::ParseError;
use env_filter::builder::Builder;
use env_filter::filter::EnvFilter;
use otel_base::text::Text;
use span_script::open_error::OpenError;
use std::alloc::Global;

/// The filter of a text, and the one by which events are counted, if there is a text for that: `Directive` where a piece of
/// the first is none, or else one of the second.
pub fn read_filters(
    alloc: Global,
    filter: &Text,
    counting: &Option<Text>,
) -> Result<(EnvFilter, Option<EnvFilter>), OpenError>
    ensures gate { IfOk result (λ read. IsTextFilter filter.now (plain_filter read.0)) }
    ensures new { IfOk result (λ read. IsNewFilter (plain_filter read.0)) }
    ensures counting_filter { IfOk result (λ read. IsCountingFilter counting.now (option_map plain_filter read.1)) }
    ensures read { OnOk result (opening_read filter.now counting.now ≡ Ok tt) }
    ensures refused { IfErr result (IsOpenError (opening_read filter.now counting.now)) }
{
    let gate = read_filter(alloc, false, filter.as_str())?;
    let counting_filter = read_counting(alloc, counting)?;
    Ok((gate, counting_filter))
}

/// The filter of a text without patterns, which is one for counting or not: `Directive` for the first piece that is none.
pub fn read_filter(alloc: Global, counting: bool, text: &str) -> Result<EnvFilter, OpenError>
    ensures filter { IfOk result (λ f. IsTextFilter text.now (plain_filter f)) }
    ensures new { IfOk result (λ f. IsNewFilter (plain_filter f)) }
    ensures refused { IfErr result (IsOpenError (fault_in counting (text_read text.now))) }
{
    let builder = Builder::default(alloc).with_regex(false);
    match builder.parse_pieces(text) {
        Ok(filter) => Ok(filter),
        Err((piece, fault)) => Err(open_error_by(counting, piece, fault)),
    }
}

// The filter by which events are counted, if there is a text for that.
fn read_counting(alloc: Global, text: &Option<Text>) -> Result<Option<EnvFilter>, OpenError>
    ensures filter { IfOk result (λ f. IsCountingFilter text.now (option_map plain_filter f)) }
    ensures refused { IfErr result (IsOpenError (counting_read text.now)) }
{
    match text {
        Some(text) => Ok(Some(read_filter(alloc, true, text.as_str())?)),
        None => Ok(None),
    }
}

// Why a text isn't read, at a piece that has a fault.
fn open_error_by(counting: bool, piece: u64, fault: ParseError) -> OpenError
    ensures { result ≡ open_error_by counting piece fault }
{
    match fault {
        ParseError::Memory => OpenError::Memory,
        _ => OpenError::Directive { counting, piece },
    }
}
