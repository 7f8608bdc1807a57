//! Values cut out of a text that was tested as UTF-8, so that no part of it is tested again.
ghost use Rattle.std.specs.Prelude.{◌≡◌, ◌<◌, ◌++◌, List, ℕ, ◌∷◌, IfSome};
ghost use Rattle.trace_lines.specs.text.Compact.{plain_data, BeginsWithValue};

use crate::read::plain::Plain;
use crate::read::syntax::scan::{MAX_DEPTH, leaf, past_nested, plain_text};

// What stands between two quotes of a text, of which the second stands in front of `rest`. It isn't tested again.
#[inline(always)]
pub(crate) fn between<'a>(whole: &'a str, words: &[u8], rest: &[u8]) -> &'a str
    requires { (front : List ℕ) × (whole.now ≡ front ++ 34 ∷ (words.now ++ 34 ∷ rest.now)) }
    ensures { result.now ≡ words.now }
{
    let end = whole.len() - rest.len() - 1;
    &whole[end - words.len()..end]
}

// What stands behind a byte of a text that is ASCII. It isn't tested again.
#[inline(always)]
pub(crate) fn behind_ascii<'a>(whole: &'a str, rest: &[u8]) -> &'a str
    requires { (front : List ℕ) × (last : ℕ) × (last < 128) × (whole.now ≡ front ++ last ∷ rest.now) }
    ensures { result.now ≡ rest.now }
{
    &whole[whole.len() - rest.len()..]
}

// An array or an object at the end of a text, and what stands behind it.
fn nested_in<'a>(whole: &'a str, bytes: &'a [u8]) -> Option<(Plain<'a>, &'a [u8])>
    requires { (front : List ℕ) × (whole.now ≡ front ++ bytes.now) }
    ensures { IfSome result (λ r. BeginsWithValue MAX_DEPTH bytes.now (plain_data r.0) r.1.now) }
{
    let rest = past_nested(bytes, MAX_DEPTH)?;
    let start = whole.len() - bytes.len();
    let end = whole.len() - rest.len();
    let words = whole.get(start..end)?;
    Some((Plain::Nested(words), rest))
}

// A value at the end of a text, and what stands behind it.
#[inline(always)]
pub(crate) fn value_in<'a>(whole: &'a str, bytes: &'a [u8]) -> Option<(Plain<'a>, &'a [u8])>
    requires { (front : List ℕ) × (whole.now ≡ front ++ bytes.now) }
    ensures { IfSome result (λ r. BeginsWithValue MAX_DEPTH bytes.now (plain_data r.0) r.1.now) }
{
    match plain_text(bytes) {
        Some((words, rest)) => Some((Plain::Text(between(whole, words, rest)), rest)),
        None => match leaf(bytes) {
            Some((plain, rest)) => Some((plain, rest)),
            None => {
                let (plain, rest) = nested_in(whole, bytes)?;
                Some((plain, rest))
            }
        },
    }
}
