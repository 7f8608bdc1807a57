//! The lines of nodes, of totals and of the end, each with its line feed.
ghost use Rattle.std.specs.Prelude.{◌++◌, decimal};
ghost use Rattle.json.specs.Print.{quoted};
ghost use Rattle.trace_lines.specs.text.Writes.{Writes};
ghost use Rattle.tree_lines.specs.Texts.{node_text, total_text, tree_end_text};

use itoa::Buffer;
use std::alloc::AllocError;
use trace_lines::TextBuffer;
use trace_lines::write::hex::{add_id, add_long_id};
use trace_lines::write::pieces::{add, add_number, add_text};
use trace_tree::{TraceTotal, TreeSpan};

// Adds a whole number as a text, since it may pass 64 bits.
fn add_decimal(out: &mut TextBuffer, front: &str, number: u128) -> Result<(), AllocError>
    ensures { Writes result out.old out.new (front.now ++ quoted (decimal number)) }
{
    let mut buffer = Buffer::new();
    let digits = buffer.format(number);
    add_text(out, front, digits)
}

/// Adds the line of a span that stands so deep.
pub fn add_node(out: &mut TextBuffer, depth: u64, finished: &TreeSpan) -> Result<(), AllocError>
    ensures { Writes result out.old out.new (node_text depth finished.now) }
{
    add_decimal(out, "{\"busy\":", u128::from(finished.busy))?;
    add_number(out, ",\"depth\":", depth)?;
    add_text(out, ",\"name\":", finished.name.as_str())?;
    add_id(out, ",\"span\":", finished.span)?;
    add(out, "}")?;
    add(out, "\n")?;
    Ok(())
}

/// Adds the line of a trace's total.
pub fn add_total(out: &mut TextBuffer, total: &TraceTotal) -> Result<(), AllocError>
    ensures { Writes result out.old out.new (total_text total.now) }
{
    add_decimal(out, "{\"busy\":", total.busy)?;
    add_number(out, ",\"spans\":", total.spans)?;
    add_long_id(out, ",\"trace\":", total.trace)?;
    add(out, "}")?;
    add(out, "\n")?;
    Ok(())
}

/// Adds the end line: how many spans are open, how many records there are, and of how many traces.
pub fn add_end(
    out: &mut TextBuffer,
    open_spans: u64,
    records: u64,
    traces: u64,
) -> Result<(), AllocError>
    ensures { Writes result out.old out.new (tree_end_text open_spans records traces) }
{
    add_number(out, "{\"done\":true,\"open\":", open_spans)?;
    add_number(out, ",\"records\":", records)?;
    add_number(out, ",\"traces\":", traces)?;
    add(out, "}")?;
    add(out, "\n")?;
    Ok(())
}
