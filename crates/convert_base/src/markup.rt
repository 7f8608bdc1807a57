//! Texts inside of markup.
ghost use Rattle.std.specs.Prelude.{◌≡◌, ◌++◌, IfOk, OnOk, false, string_bytes, encode_utf8, flat_map};
ghost use Rattle.std.specs.List.{list_any};
ghost use Rattle.convert_base.specs.Markup.{escaped_byte, is_mark};

use crate::fault::Fault;
use std::alloc::Global;

/// A text as it stands in HTML, inside of an element or of an attribute's quotes: no byte of it is a mark of the markup,
/// and none is a control.
#[tactic(auto, using(crate::proofs::MarkupLemmas::inert))]
pub fn escape(alloc: Global, text: &str) -> Result<String, Fault>
    ensures value { IfOk result (λ page. string_bytes page ≡ flat_map escaped_byte text.now) }
    ensures inert { IfOk result (λ page. list_any is_mark (string_bytes page) ≡ false) }
{
    escape_all(alloc, text)
}

fn escape_all(alloc: Global, text: &str) -> Result<String, Fault>
    ensures { IfOk result (λ page. string_bytes page ≡ flat_map escaped_byte text.now) }
{
    let mut page = String::new(alloc);
    for c in text.chars() {
        push_escaped(&mut page, c)?;
    }
    Ok(page)
}

#[tactic(auto, unfolding(crate::specs::Markup::escaped_byte), using(crate::proofs::MarkupLemmas::plain))]
fn push_escaped(page: &mut String, c: char) -> Result<(), Fault>
    ensures { OnOk result (string_bytes page.new ≡ string_bytes page.old ++ flat_map escaped_byte (encode_utf8 c)) }
{
    match c {
        '&' => page.push_str("&amp;")?,
        '<' => page.push_str("&lt;")?,
        '>' => page.push_str("&gt;")?,
        '"' => page.push_str("&quot;")?,
        '\'' => page.push_str("&#39;")?,
        '\0'..='\u{1f}' | '\u{7f}' => page.push_str("&#xfffd;")?,
        _ => page.push(c)?,
    }
    Ok(())
}
