//! Where lines end.
ghost use Rattle.std.specs.Prelude.{◌≡◌, ◌++◌, ◌∷◌, ◌<◌, length, false, None, IfSome};
ghost use Rattle.trace_stream.specs.reading.Breaks.{has_feed, whole_part};

use memchr::{memchr, memrchr};

/// The bytes before the first line feed, and those behind it, if there is one.
pub fn cut_line(bytes: &[u8]) -> Option<(&[u8], &[u8])>
    ensures parts { IfSome result (λ parts. bytes.now ≡ parts.0.now ++ 10 ∷ parts.1.now) }
    ensures line { IfSome result (λ parts. has_feed parts.0.now ≡ false) }
    ensures shorter { IfSome result (λ parts. length parts.1.now < length bytes.now) }
    ensures none { result ≡ None → has_feed bytes.now ≡ false }
{
    match memchr(b'\n', bytes) {
        Some(at) => Some((&bytes[..at], &bytes[at + 1..])),
        None => None,
    }
}

/// The lines at the front that end by a line feed.
pub fn whole_part(bytes: &[u8]) -> &[u8]
    ensures { result.now ≡ whole_part bytes.now }
{
    match memrchr(b'\n', bytes) {
        Some(last) => &bytes[..last + 1],
        None => &[],
    }
}
