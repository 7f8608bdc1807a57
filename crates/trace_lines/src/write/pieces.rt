//! The pieces of lines: each is a text as it is given, and then a value.
ghost use Rattle.std.specs.Prelude.{◌≡◌, ◌++◌, decimal};
ghost use Rattle.std.specs.Fmt.{signed_decimal};
ghost use Rattle.std.specs.Str.{IsUtf8};
ghost use Rattle.json.specs.Print.{escape, quoted};
ghost use Rattle.serde_json.specs.Data.{boolean};
ghost use Rattle.serde_json.specs.Written.{compact_text, comma_if};
ghost use Rattle.trace_lines.specs.text.Writes.{Writes};

use super::escape::{add_escaped, plain_run};
use super::text_buffer::TextBuffer;
use itoa::Buffer;
use std::alloc::AllocError;

/// Adds a text as it is.
#[inline(always)]
#[tactic(auto, using(crate::proofs::texts::AddsLemmas::none_added, crate::proofs::texts::AddsLemmas::byte_added))]
pub fn add(out: &mut TextBuffer, front: &str) -> Result<(), AllocError>
    ensures { Writes result out.old out.new front.now }
{
    let bytes = front.as_bytes();
    // Most texts of no byte or of one are known to the compiler, so these tests cost less than a copy.
    if bytes.len() == 0 {
        return Ok(());
    }
    if bytes.len() == 1 {
        out.push(bytes[0])?;
        return Ok(());
    }
    out.extend_from_slice(bytes)?;
    Ok(())
}

// Adds two texts as they are.
#[inline(always)]
fn add_two(out: &mut TextBuffer, front: &str, text: &str) -> Result<(), AllocError>
    ensures { Writes result out.old out.new (front.now ++ text.now) }
{
    out.extend_from_two(front.as_bytes(), text.as_bytes())?;
    Ok(())
}

/// Adds a whole number.
#[inline(always)]
pub fn add_number(out: &mut TextBuffer, front: &str, number: u64) -> Result<(), AllocError>
    ensures { Writes result out.old out.new (front.now ++ decimal number) }
{
    let mut buffer = Buffer::new();
    add_two(out, front, buffer.format(number))
}

/// Adds an integer.
pub fn add_integer(out: &mut TextBuffer, front: &str, number: i64) -> Result<(), AllocError>
    ensures { Writes result out.old out.new (front.now ++ signed_decimal number) }
{
    let mut buffer = Buffer::new();
    add_two(out, front, buffer.format(number))
}

/// Adds an integer of 128 bits.
pub fn add_long_integer(out: &mut TextBuffer, front: &str, number: i128) -> Result<(), AllocError>
    ensures { Writes result out.old out.new (front.now ++ signed_decimal number) }
{
    let mut buffer = Buffer::new();
    add_two(out, front, buffer.format(number))
}

#[inline(always)]
fn flag_word(flag: bool) -> &'static str
    ensures { result.now ≡ compact_text (boolean flag) }
{
    if flag { "true" } else { "false" }
}

/// Adds true or false.
#[inline(always)]
pub fn add_flag(out: &mut TextBuffer, front: &str, flag: bool) -> Result<(), AllocError>
    ensures { Writes result out.old out.new (front.now ++ compact_text (boolean flag)) }
{
    add_two(out, front, flag_word(flag))
}

/// Adds a text in quotes.
#[inline(always)]
#[tactic(auto, using(crate::proofs::texts::EscapesLemmas::plain_whole))]
pub fn add_text(out: &mut TextBuffer, front: &str, text: &str) -> Result<(), AllocError>
    ensures { Writes result out.old out.new (front.now ++ quoted text.now) }
{
    let bytes = text.as_bytes();
    if plain_run(bytes) == bytes.len() {
        return add_plain(out, front, bytes);
    }
    add_with_escapes(out, front, text)
}

#[cold]
#[inline(never)]
fn add_with_escapes(out: &mut TextBuffer, front: &str, text: &str) -> Result<(), AllocError>
    ensures { Writes result out.old out.new (front.now ++ quoted text.now) }
{
    add(out, front)?;
    out.push(b'"')?;
    add_escaped(out, text.as_bytes())?;
    out.push(b'"')?;
    Ok(())
}

/// Adds a text in quotes that needs no escape, by its bytes.
#[inline(always)]
pub fn add_plain(out: &mut TextBuffer, front: &str, text: &[u8]) -> Result<(), AllocError>
    requires utf8 { IsUtf8 text.now }
    requires plain { escape text.now ≡ text.now }
    ensures { Writes result out.old out.new (front.now ++ quoted text.now) }
{
    out.add_quoted(front.as_bytes(), text)?;
    Ok(())
}

/// What stands in front of an array's item.
pub fn separator(later: bool) -> &'static str
    ensures { result.now ≡ comma_if later }
{
    if later { "," } else { "" }
}
