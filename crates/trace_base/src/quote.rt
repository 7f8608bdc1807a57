//! The quoted form of a text.
ghost use Rattle.std.specs.Prelude.{◌≡◌, ◌++◌, IfOk, OnOk, string_bytes, encode_utf8, flat_map};
ghost use Rattle.trace_base.specs.words.Quote.{code_escape, quoted_byte, in_quotes};

use otel_base::memory::Memory;
use std::alloc::Global;

/// The text between double quotes: Rust's debug form, with what is past ASCII left as it stands.
pub fn quote(alloc: Global, text: &str) -> Result<String, Memory>
    ensures { IfOk result (λ q. string_bytes q ≡ in_quotes text.now) }
{
    let mut out = String::new(alloc);
    out.push_str("\"")?;
    for c in text.chars() {
        push_escaped(alloc, &mut out, c)?;
    }
    out.push_str("\"")?;
    Ok(out)
}

#[tactic(auto, unfolding(crate::specs::words::Quote::quoted_byte), using(crate::proofs::Quotes::plain))]
fn push_escaped(alloc: Global, out: &mut String, c: char) -> Result<(), Memory>
    ensures { OnOk result (string_bytes out.new ≡ string_bytes out.old ++ flat_map quoted_byte (encode_utf8 c)) }
{
    match c {
        '"' => out.push_str("\\\"")?,
        '\\' => out.push_str("\\\\")?,
        '\n' => out.push_str("\\n")?,
        '\r' => out.push_str("\\r")?,
        '\t' => out.push_str("\\t")?,
        '\0' => out.push_str("\\0")?,
        '\u{1}'..='\u{1f}' | '\u{7f}' => push_code(alloc, out, c as u32)?,
        _ => out.push(c)?,
    }
    Ok(())
}

fn push_code(alloc: Global, out: &mut String, code: u32) -> Result<(), Memory>
    ensures { OnOk result (string_bytes out.new ≡ string_bytes out.old ++ code_escape code) }
{
    let escape = format!(in alloc; "\\u{{{code:x}}}")?;
    out.push_str(escape.as_str())?;
    Ok(())
}
