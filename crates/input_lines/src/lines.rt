//! The lines of some bytes.
ghost use Rattle.std.specs.Prelude.{◌≡◌, ◌∷◌, ◌<◌, length};
ghost use Rattle.trace_lines.specs.Lines.{lines_of, is_space, is_blank};
ghost use Rattle.input_lines.specs.Refusals.{are_blank};

use memchr::memchr;

/// The first line, without its line feed, and the bytes after it.
pub fn first_line(bytes: &[u8]) -> (&[u8], &[u8])
    requires { 0 < length bytes.now }
    ensures lines { lines_of bytes.now ≡ result.0.now ∷ lines_of result.1.now }
    ensures shorter { length result.1.now < length bytes.now }
{
    match memchr(b'\n', bytes) {
        Some(at) => (&bytes[..at], &bytes[at + 1..]),
        None => (bytes, &[]),
    }
}

/// Whether the line is left out.
pub fn is_blank(line: &[u8]) -> bool
    ensures { result ≡ is_blank line.now }
{
    for byte in line {
        if !is_space(*byte) {
            return false;
        }
    }
    true
}

/// Whether no settings line is among the lines of some bytes, since all are blank.
pub fn are_blank(bytes: &[u8]) -> bool
    ensures { result ≡ are_blank (lines_of bytes.now) }
{
    let mut rest = bytes;
    while !rest.is_empty() {
        let (line, after) = first_line(rest);
        if !is_blank(line) {
            return false;
        }
        rest = after;
    }
    true
}

fn is_space(byte: u8) -> bool
    ensures { result ≡ is_space byte }
{
    byte == b' ' || byte == b'\t' || byte == b'\r'
}
