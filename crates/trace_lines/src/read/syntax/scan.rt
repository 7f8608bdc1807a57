//! One scan of compact JSON: numbers, texts with no escape, flags, and arrays and objects of these. None says nothing
//! of what the text is.
ghost use Rattle.std.specs.Prelude.{◌≡◌, ◌<◌, ◌-◌, ◌^◌, ◌∷◌, ◌++◌, negsuc, IfSome, decimal};
ghost use Rattle.json.specs.Print.{escape, quoted};
ghost use Rattle.serde_json.specs.Data.{Data};
ghost use Rattle.trace_lines.specs.text.Compact.{plain_data, BeginsWithValue, BeginsItems, BeginsMembers, BeginsNested};

use crate::read::plain::Plain;
use crate::write::escape::plain_run;

/// How deep a value may nest.
pub const MAX_DEPTH: u32 = 16;

// The most items that are taken of an array, and members of an object.
pub(crate) const MAX_ITEMS: u32 = 65_536;

/// What stands behind a byte.
#[inline(always)]
#[tactic(auto, using(crate::proofs::readings::CompactLemmas::behind_byte))]
pub(crate) fn behind(text: &[u8], byte: u8) -> Option<&[u8]>
    ensures { IfSome result (λ rest. text.now ≡ byte ∷ rest.now) }
{
    if text.is_empty() || text[0] != byte {
        return None;
    }
    Some(&text[1..])
}

/// A whole number as it is written, and what stands behind it.
#[inline(always)]
#[tactic(auto, using(crate::proofs::texts::DigitsLemmas::begun, crate::proofs::texts::DigitsLemmas::more))]
pub fn number(text: &[u8]) -> Option<(u64, &[u8])>
    ensures text { IfSome result (λ r. text.now ≡ decimal r.0 ++ r.1.now) }
    ensures fits { IfSome result (λ r. r.0 < 2 ^ 64) }
{
    if text.is_empty() || !text[0].is_ascii_digit() {
        return None;
    }
    let mut value = (text[0] - b'0') as u64;
    if value == 0 {
        return Some((0, &text[1..]));
    }
    let mut at = 1usize;
    while at < text.len() && text[at].is_ascii_digit() {
        let digit = (text[at] - b'0') as u64;
        // Most numbers are far from the last, so they need no test for a sum that wraps.
        value = if value < u64::MAX / 10 {
            value * 10 + digit
        } else {
            value.checked_mul(10)?.checked_add(digit)?
        };
        at += 1;
    }
    Some((value, &text[at..]))
}

/// A text with no escape, and what stands behind it.
#[inline(always)]
#[tactic(auto, using(crate::proofs::readings::CompactLemmas::quoted_text))]
pub fn text(bytes: &[u8]) -> Option<(&[u8], &[u8])>
    ensures { IfSome result (λ r. bytes.now ≡ quoted r.0.now ++ r.1.now) }
{
    let (words, rest) = plain_text(bytes)?;
    Some((words, rest))
}

/// The same, told by the bytes that stand there.
#[inline(always)]
#[tactic(auto, using(crate::proofs::readings::CompactLemmas::text_cut))]
pub(crate) fn plain_text(bytes: &[u8]) -> Option<(&[u8], &[u8])>
    ensures text { IfSome result (λ r. bytes.now ≡ 34 ∷ (r.0.now ++ 34 ∷ r.1.now)) }
    ensures plain { IfSome result (λ r. escape r.0.now ≡ r.0.now) }
{
    let body = behind(bytes, b'"')?;
    let at = plain_run(body);
    let rest = behind(&body[at..], b'"')?;
    Some((&body[..at], rest))
}

#[inline(always)]
#[tactic(auto, using(crate::proofs::readings::CompactLemmas::text_begins))]
fn text_value(bytes: &[u8]) -> Option<(Plain<'_>, &[u8])>
    ensures { IfSome result (λ r. BeginsWithValue 0 bytes.now (plain_data r.0) r.1.now) }
{
    let (words, rest) = text(bytes)?;
    let words = str::from_utf8(words).ok()?;
    Some((Plain::Text(words), rest))
}

#[inline(always)]
#[tactic(auto, using(crate::proofs::readings::CompactLemmas::whole_begins))]
fn whole_value(bytes: &[u8]) -> Option<(Plain<'_>, &[u8])>
    ensures { IfSome result (λ r. BeginsWithValue 0 bytes.now (plain_data r.0) r.1.now) }
{
    let (whole, rest) = number(bytes)?;
    Some((Plain::Whole(whole), rest))
}

// The number that is so far below zero. None where it isn't below, or may have more than 64 bits.
fn negative_of(whole: u64) -> Option<i64>
    ensures number { IfSome result (λ number. number ≡ negsuc (whole - 1)) }
    ensures fits { IfSome result (λ _. (0 < whole) × (whole < 2 ^ 63)) }
{
    let less = i64::try_from(whole.checked_sub(1)?).ok()?;
    if less == i64::MAX {
        return None;
    }
    Some(-1 - less)
}

// A number below zero that is no less than -2^63 + 1.
fn negative_value(bytes: &[u8]) -> Option<(Plain<'_>, &[u8])>
    ensures { IfSome result (λ r. BeginsWithValue 0 bytes.now (plain_data r.0) r.1.now) }
{
    let digits = behind(bytes, b'-')?;
    let (whole, rest) = number(digits)?;
    let number = negative_of(whole)?;
    Some((Plain::Negative(number), rest))
}

#[tactic(auto, using(crate::proofs::readings::CompactLemmas::flag_begins))]
fn flag_value(bytes: &[u8]) -> Option<(Plain<'_>, &[u8])>
    ensures { IfSome result (λ r. BeginsWithValue 0 bytes.now (plain_data r.0) r.1.now) }
{
    if let Some(rest) = behind_word(bytes, b"true") {
        return Some((Plain::Flag(true), rest));
    }
    let rest = behind_word(bytes, b"false")?;
    Some((Plain::Flag(false), rest))
}

/// What stands behind a word.
#[inline(always)]
pub fn behind_word<'a>(text: &'a [u8], word: &[u8]) -> Option<&'a [u8]>
    ensures { IfSome result (λ rest. text.now ≡ word.now ++ rest.now) }
{
    if text.len() < word.len() {
        return None;
    }
    let mut at = 0usize;
    while at < word.len() {
        if text[at] != word[at] {
            return None;
        }
        at += 1;
    }
    Some(&text[at..])
}

// A value that doesn't nest, and what stands behind it.
#[inline(always)]
pub(crate) fn leaf(bytes: &[u8]) -> Option<(Plain<'_>, &[u8])>
    ensures { IfSome result (λ r. BeginsWithValue 0 bytes.now (plain_data r.0) r.1.now) }
{
    if bytes.is_empty() {
        return None;
    }
    match bytes[0] {
        b'"' => text_value(bytes),
        b't' | b'f' => flag_value(bytes),
        b'-' => negative_value(bytes),
        _ => whole_value(bytes),
    }
}

// What stands behind a value. A text in it is tested where it is taken.
#[cycle(past)]
#[tactic(auto, using(crate::proofs::readings::CompactLemmas::text_is_value, crate::proofs::readings::CompactLemmas::leaf_is_value, crate::proofs::readings::CompactLemmas::nested_is_value))]
fn past_value(bytes: &[u8], deep: u32) -> Option<&[u8]>
    ensures { IfSome result (λ rest. (d : Data) × BeginsWithValue deep bytes.now d rest.now) }
{
    if let Some((_words, rest)) = text(bytes) {
        return Some(rest);
    }
    if let Some((_plain, rest)) = leaf(bytes) {
        return Some(rest);
    }
    let rest = past_nested(bytes, deep)?;
    Some(rest)
}

// What stands behind an array or an object.
#[cycle(past)]
#[tactic(auto, using(crate::proofs::readings::CompactLemmas::array_begins, crate::proofs::readings::CompactLemmas::object_begins))]
pub(crate) fn past_nested(bytes: &[u8], deep: u32) -> Option<&[u8]>
    ensures { IfSome result (λ rest. BeginsNested deep bytes.now rest.now) }
{
    let inner = deep.checked_sub(1)?;
    if let Some(items) = behind(bytes, b'[') {
        let rest = past_items(items, inner)?;
        return Some(rest);
    }
    let members = behind(bytes, b'{')?;
    let rest = past_members(members, inner)?;
    Some(rest)
}

// What stands behind the items of an array.
#[cycle(past)]
#[tactic(auto, using(crate::proofs::readings::CompactLemmas::no_items_begin))]
fn past_items(bytes: &[u8], deep: u32) -> Option<&[u8]>
    ensures { IfSome result (λ rest. BeginsItems deep bytes.now rest.now) }
{
    if let Some(rest) = behind(bytes, b']') {
        return Some(rest);
    }
    let mut left = bytes;
    'items: for _ in 0..MAX_ITEMS {
        let after = past_value(left, deep)?;
        match behind(after, b',') {
            Some(more) => left = more,
            None => {
                let rest = behind(after, b']')?;
                return Some(rest);
            }
        }
    }
    None
}

// What stands behind the members of an object.
#[cycle(past)]
#[tactic(auto, using(crate::proofs::readings::CompactLemmas::no_members_begin))]
fn past_members(bytes: &[u8], deep: u32) -> Option<&[u8]>
    ensures { IfSome result (λ rest. BeginsMembers deep bytes.now rest.now) }
{
    if let Some(rest) = behind(bytes, b'}') {
        return Some(rest);
    }
    let mut left = bytes;
    'members: for _ in 0..MAX_ITEMS {
        let (name, colon) = text(left)?;
        let inner = behind(colon, b':')?;
        let after = past_value(inner, deep)?;
        match behind(after, b',') {
            Some(more) => left = more,
            None => {
                let rest = behind(after, b'}')?;
                return Some(rest);
            }
        }
    }
    None
}

// An array or an object, and what stands behind it.
fn nested_value(bytes: &[u8]) -> Option<(Plain<'_>, &[u8])>
    ensures { IfSome result (λ r. BeginsWithValue MAX_DEPTH bytes.now (plain_data r.0) r.1.now) }
{
    let rest = past_nested(bytes, MAX_DEPTH)?;
    let front = bytes.len() - rest.len();
    let words = str::from_utf8(&bytes[..front]).ok()?;
    Some((Plain::Nested(words), rest))
}

/// A value, and what stands behind it.
#[inline(always)]
#[tactic(auto, using(crate::proofs::readings::CompactLemmas::leaf_begins))]
pub fn value(bytes: &[u8]) -> Option<(Plain<'_>, &[u8])>
    ensures { IfSome result (λ r. BeginsWithValue MAX_DEPTH bytes.now (plain_data r.0) r.1.now) }
{
    match leaf(bytes) {
        Some((plain, rest)) => Some((plain, rest)),
        None => {
            let (plain, rest) = nested_value(bytes)?;
            Some((plain, rest))
        }
    }
}
