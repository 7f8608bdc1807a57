//! Ids, as records tell them.
ghost use Rattle.std.specs.Prelude.{◌≡◌};
ghost use Rattle.convert_base.specs.Numbers.{names_no_span};

/// Whether an id, in lower case hexadecimal, names no span: all its digits are 0.
pub fn is_zero(id: &str) -> bool
    ensures { result ≡ names_no_span id.now }
{
    id.bytes().all(|digit| digit == b'0')
}
