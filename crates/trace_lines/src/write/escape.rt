//! Texts in JSON: which bytes stand for themselves, and what stands for the others.
ghost use Rattle.std.specs.Prelude.{◌≡◌, ◌+◌, ◌<◌, ◌≤◌, ◌∷◌, ◌++◌, [], true, OnOk, drop, length, take};
ghost use Rattle.json.specs.Print.{escape, escape_byte, escape_letter};

use super::hex::digit_of;
use super::text_buffer::TextBuffer;
use std::alloc::AllocError;

// Whether a byte stands for itself in a text.
#[inline(always)]
#[tactic(auto, using(crate::proofs::texts::EscapesLemmas::plain_byte))]
fn is_plain(byte: u8) -> bool
    ensures { result ≡ true → escape_byte byte ≡ byte ∷ [] }
{
    if byte == b'"' {
        return false;
    }
    if byte == b'\\' {
        return false;
    }
    if byte < 0x20 {
        return false;
    }
    true
}

/// How many bytes at the front stand for themselves.
#[inline(always)]
#[tactic(auto, using(crate::proofs::texts::EscapesLemmas::escape_step))]
pub(crate) fn plain_run(bytes: &[u8]) -> usize
    ensures within { result ≤ length bytes.now }
    ensures plain { escape (take result bytes.now) ≡ take result bytes.now }
{
    let mut at = 0usize;
    while at < bytes.len() && is_plain(bytes[at]) {
        at += 1;
    }
    at
}

// The letter of a byte's short escape, or 0 where it has none.
fn letter_of(byte: u8) -> u8
    ensures { result ≡ escape_letter byte }
{
    match byte {
        b'"' => b'"',
        b'\\' => b'\\',
        8 => b'b',
        12 => b'f',
        b'\n' => b'n',
        b'\r' => b'r',
        b'\t' => b't',
        _ => 0,
    }
}

// Adds what stands for a byte.
#[tactic(auto, unfolding(json::specs::Print::escape_byte))]
fn add_byte(out: &mut TextBuffer, byte: u8) -> Result<(), AllocError>
    ensures { OnOk result (out.new.items ≡ out.old.items ++ escape_byte byte) }
{
    let letter = letter_of(byte);
    if letter > 0 {
        out.extend_from_slice(&[b'\\', letter])?;
        return Ok(());
    }
    if byte < 32 {
        let high = digit_of((byte / 16) as u64);
        let low = digit_of((byte % 16) as u64);
        out.extend_from_slice(&[b'\\', b'u', b'0', b'0', high, low])?;
        return Ok(());
    }
    out.push(byte)?;
    Ok(())
}

// What stands behind a byte.
fn bytes_after(bytes: &[u8], at: usize) -> &[u8]
    requires { at < length bytes.now }
    ensures { result.now ≡ drop (at + 1) bytes.now }
{
    &bytes[at + 1..]
}

/// Adds what stands for a text's bytes.
pub(crate) fn add_escaped(out: &mut TextBuffer, bytes: &[u8]) -> Result<(), AllocError>
    ensures { OnOk result (out.new.items ≡ out.old.items ++ escape bytes.now) }
{
    let mut rest = bytes;
    let mut run = plain_run(rest);
    while run < rest.len() {
        out.extend_from_slice(&rest[..run])?;
        add_byte(out, rest[run])?;
        rest = bytes_after(rest, run);
        run = plain_run(rest);
    }
    out.extend_from_slice(rest)?;
    Ok(())
}
