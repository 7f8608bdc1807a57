//! Arrays as JSON.
ghost use Rattle.std.specs.Prelude.{◌≡◌, ◌++◌, [], ◌∷◌};
ghost use Rattle.serde_json.specs.Data.{Data};
ghost use Rattle.serde_json.specs.Written.{compact_text, comma_if};
ghost use Rattle.trace_lines.specs.reading.Object.{array_of};
ghost use Rattle.trace_lines.specs.text.Writes.{Writes, bracket_unless};

use super::pieces::add;
use super::text_buffer::TextBuffer;
use std::alloc::AllocError;

/// What is written as an item of an array.
pub trait WriteItem {
    /// Its value in JSON.
    ghost item_data: { Self → Data };

    /// Adds its text.
    fn add_item(&self, out: &mut TextBuffer, front: &str) -> Result<(), AllocError>
        ensures { Writes result out.old out.new (front.now ++ compact_text (item_data self.now)) };
}

// What stands in front of an item: the bracket that opens the array, or a comma.
#[inline(always)]
fn separator(later: bool) -> &'static str
    ensures { result.now ≡ bracket_unless later ++ comma_if later }
{
    if later { "," } else { "[" }
}

// What stands behind the items.
#[inline(always)]
fn end_of(later: bool) -> &'static str
    ensures { result.now ≡ bracket_unless later ++ 93 ∷ [] }
{
    if later { "]" } else { "[]" }
}

/// Adds an array of items.
pub fn add_array<T: WriteItem>(
    out: &mut TextBuffer,
    front: &str,
    items: &[T],
) -> Result<(), AllocError>
    ensures { Writes result out.old out.new (front.now ++ compact_text (array_of T.item_data items.now)) }
{
    add(out, front)?;
    let mut later = false;
    for item in items {
        item.add_item(out, separator(later))?;
        later = true;
    }
    add(out, end_of(later))?;
    Ok(())
}
