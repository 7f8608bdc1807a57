//! Ids in hexadecimal, written without an allocation.
ghost use Rattle.std.specs.Prelude.{◌≡◌, ◌+◌, ◌<◌, ◌≤◌, ◌++◌, drop, length, replicate, take, false};
ghost use Rattle.std.specs.Fmt.{digit_glyph};
ghost use Rattle.std.specs.Str.{IsUtf8};
ghost use Rattle.json.specs.Print.{escape, quoted};
ghost use Rattle.trace_lines.specs.text.Hex.{hex16, hex32};
ghost use Rattle.trace_lines.specs.text.Writes.{Writes};

use super::pieces::add_plain;
use super::text_buffer::TextBuffer;
use std::alloc::AllocError;

/// Adds an id of 64 bits.
pub fn add_id(out: &mut TextBuffer, front: &str, id: u64) -> Result<(), AllocError>
    ensures { Writes result out.old out.new (front.now ++ quoted (hex16 id)) }
{
    let digits = digits_of(id);
    add_plain(out, front, &digits)?;
    Ok(())
}

/// Adds an id of 128 bits.
pub fn add_long_id(out: &mut TextBuffer, front: &str, id: u128) -> Result<(), AllocError>
    ensures { Writes result out.old out.new (front.now ++ quoted (hex32 id)) }
{
    let digits = digits_of_long(id);
    add_plain(out, front, &digits)?;
    Ok(())
}

/// The digits as a text, without a copy.
#[tactic(auto, using(crate::proofs::texts::HexLemmas::is_ok))]
pub(crate) fn as_text(digits: &[u8]) -> &str
    requires { IsUtf8 digits.now }
    ensures { result.now ≡ digits.now }
{
    str::from_utf8(digits).unwrap()
}

/// The digits of an id of 64 bits.
#[tactic(auto, using(crate::proofs::texts::HexLemmas::whole_list))]
pub(crate) fn digits_of(id: u64) -> [u8; 16]
    ensures value { result ≡ hex16 id }
    ensures utf8 { IsUtf8 result }
    ensures plain { escape result ≡ result }
{
    let mut digits = [b'0'; 16];
    put_digits(&mut digits, 0, id);
    digits
}

/// The digits of an id of 128 bits.
#[tactic(auto, using(crate::proofs::texts::HexLemmas::both_halves))]
pub(crate) fn digits_of_long(id: u128) -> [u8; 32]
    ensures value { result ≡ hex32 id }
    ensures utf8 { IsUtf8 result }
    ensures plain { escape result ≡ result }
{
    let mut digits = [b'0'; 32];
    put_digits(&mut digits, 16, (id % (1 << 64)) as u64);
    put_digits(&mut digits, 0, (id / (1 << 64)) as u64);
    digits
}

// Puts the 16 digits of an id at `start`, where zeros stand: the last of them first, until zeros alone are left.
fn put_digits(digits: &mut [u8], start: usize, id: u64)
    requires room { start + 16 ≤ length digits.old }
    requires zeros { drop start digits.old ≡ replicate 16 48 ++ drop (start + 16) digits.old }
    ensures len { length digits.new ≡ length digits.old }
    ensures front { take start digits.new ≡ take start digits.old }
    ensures from_start { drop start digits.new ≡ hex16 id ++ drop (start + 16) digits.old }
{
    let mut rest = id;
    let mut at = start + 16;
    while at > start && rest > 0 {
        at -= 1;
        digits[at] = digit_of(rest % 16);
        rest /= 16;
    }
}

/// The digit of a value below 16.
pub(crate) fn digit_of(value: u64) -> u8
    requires { value < 16 }
    ensures { result ≡ digit_glyph false value }
{
    if value < 10 {
        b'0' + value as u8
    } else {
        b'a' + (value - 10) as u8
    }
}
