//! Fields that stand plainly in a text, read in one pass. None says nothing of what the text is.
ghost use Rattle.std.specs.Prelude.{◌≡◌, ◌+◌, ◌<◌, ◌++◌, [], ◌∷◌, Some, IfSome, option_map, option_and_then};
ghost use Rattle.std.specs.Str.{IsUtf8};
ghost use Rattle.serde_json.specs.Data.{Data};
ghost use Rattle.trace_lines.specs.text.Compact.{plain_data, BeginsWithValue};
ghost use Rattle.trace_lines.specs.forms.FieldForm.{value_spelled, field_data, fields_of};
ghost use Rattle.trace_lines.specs.reading.Spelled.{line_value};

use crate::read::fields::plain_value;
use crate::read::plain::Plain;
use crate::read::syntax::cut::{behind_ascii, between, value_in};
use crate::read::syntax::flat::expect_end;
use crate::read::syntax::scan::{MAX_DEPTH, behind, plain_text};
use otel_base::list::Items;
use otel_base::text::Text;
use std::alloc::Global;
use trace_base::field::Value as FieldValue;

// The room that most lists of fields need.
const USUAL_FIELDS: usize = 4;

// The most fields that are read so.
const MAX_FIELDS: u32 = 65_536;

// A field's name and value as they stand in a text, and what stands behind the field.
#[inline(always)]
fn plain_field(field: &str) -> Option<(&str, Plain<'_>, &str)>
    ensures { IfSome result (λ r.
        BeginsWithValue (MAX_DEPTH + 1) field.now (field_data r.0.now (plain_data r.1)) r.2.now) }
{
    let inner = behind(field.as_bytes(), b'[')?;
    let (words, comma) = plain_text(inner)?;
    let more = behind(comma, b',')?;
    let (plain, end) = value_in(field, more)?;
    let rest = behind(end, b']')?;
    let name = between(field, words, comma);
    Some((name, plain, behind_ascii(field, rest)))
}

// Adds a field. It is made where it is kept, since a field is large. None where there is no memory, or none is spelled.
fn add_field(
    alloc: Global,
    fields: &mut Vec<(Text, FieldValue)>,
    name: &str,
    plain: Plain<'_>,
) -> Option<()>
    ensures { IfSome result (λ _. option_map (λ value. fields.old.items ++ (name.now, value) ∷ [])
        (value_spelled (plain_data plain.entry)) ≡ Some fields.new.items) }
{
    let name = Text::from_str(alloc, name).ok()?;
    let value = plain_value(alloc, plain).ok()?;
    fields.reserve(1).ok()?;
    fields.push_reserved((name, value));
    Some(())
}

/// The fields that an array in front of a text spells, and what stands behind it.
pub fn leading_fields<'a>(
    alloc: Global,
    bytes: &'a [u8],
) -> Option<(Items<(Text, FieldValue)>, &'a [u8])>
    ensures fields { IfSome result (λ r.
        (d : Data) × BeginsWithValue (MAX_DEPTH + 2) bytes.now d r.1.now × (fields_of d ≡ Some r.0)) }
    ensures utf8 { IfSome result (λ _. IsUtf8 bytes.now) }
{
    let whole = str::from_utf8(bytes).ok()?;
    let (fields, rest) = fields_in(alloc, whole)?;
    Some((fields, rest))
}

// The same of a text that was tested.
fn fields_in<'a>(alloc: Global, whole: &'a str) -> Option<(Items<(Text, FieldValue)>, &'a [u8])>
    ensures { IfSome result (λ r.
        (d : Data) × BeginsWithValue (MAX_DEPTH + 2) whole.now d r.1.now × (fields_of d ≡ Some r.0)) }
{
    let first = behind(whole.as_bytes(), b'[')?;
    if let Some(end) = behind(first, b']') {
        return Some((Items::new(alloc), end));
    }
    let mut fields = Vec::with_capacity(alloc, USUAL_FIELDS).ok()?;
    let mut rest = behind_ascii(whole, first);
    for _ in 0..MAX_FIELDS {
        let (name, plain, after) = plain_field(rest)?;
        add_field(alloc, &mut fields, name, plain)?;
        match behind(after.as_bytes(), b',') {
            Some(more) => rest = behind_ascii(after, more),
            None => {
                let end = behind(after.as_bytes(), b']')?;
                return Some((Items::from(fields), end));
            }
        }
    }
    None
}

/// The fields that an array of a text spells.
pub(crate) fn plain_fields(alloc: Global, array: &str) -> Option<Items<(Text, FieldValue)>>
    ensures { IfSome result (λ fields. option_and_then fields_of (line_value array.now) ≡ Some fields) }
{
    let (fields, end) = fields_in(alloc, array)?;
    expect_end(end)?;
    Some(fields)
}
