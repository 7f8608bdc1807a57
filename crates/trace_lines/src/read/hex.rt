//! Ids that are read from their hexadecimal digits.
ghost use Rattle.std.specs.Prelude.{◌≡◌, ◌≤◌, ◌<◌, ◌^◌, IfSome, option_and_then};
ghost use Rattle.serde_json.specs.Find.{as_str};
ghost use Rattle.serde_json.specs.View.{view};
ghost use Rattle.trace_lines.specs.reading.Gives.{Gives};
ghost use Rattle.trace_lines.specs.text.Hex.{digit_value, number_of_hex, id_of_word, long_id_of_word};

use crate::read::LineError;
use serde_json::Value as Json;

// The value of a lower case digit.
fn digit_value(byte: u8) -> Option<u8>
    ensures value { result ≡ digit_value byte }
    ensures small { IfSome result (λ digit. digit < 16) }
{
    match byte {
        b'0'..=b'9' => Some(byte - b'0'),
        b'a'..=b'f' => Some(byte - b'a' + 10),
        _ => None,
    }
}

// The number of so many lower case digits.
#[tactic(auto, unfolding(crate::specs::text::Hex::number_of_hex))]
fn number_of(size: usize, word: &[u8]) -> Option<u128>
    requires { size ≤ 32 }
    ensures value { result ≡ number_of_hex size word.now }
    ensures small { IfSome result (λ number. number < 16 ^ size) }
{
    if word.len() != size {
        return None;
    }
    let mut number: u128 = 0;
    for byte in word {
        let digit = digit_value(*byte)?;
        number = 16 * number + u128::from(digit);
    }
    Some(number)
}

/// The id of 64 bits that a word is, of 16 lower case digits.
pub(crate) fn id_of(word: &str) -> Option<u64>
    ensures { result ≡ id_of_word word.now }
{
    match number_of(16, word.as_bytes()) {
        Some(number) => Some(number as u64),
        None => None,
    }
}

/// The id of 128 bits that a word is, of 32 lower case digits.
pub(crate) fn long_id_of(word: &str) -> Option<u128>
    ensures { result ≡ long_id_of_word word.now }
{
    number_of(32, word.as_bytes())
}

// The text that a JSON value is.
fn word_of(value: &Json) -> Result<&str, LineError>
    ensures { Gives (λ word. word.now) result (as_str (view value.now)) }
{
    value.as_str().ok_or(LineError::BadLine)
}

/// The id of a trace that a JSON value spells, in 32 lower case digits. `BadLine` where it spells none.
pub fn read_trace_id(value: &Json) -> Result<u128, LineError>
    ensures { Gives (λ id. id) result (option_and_then long_id_of_word (as_str (view value.now))) }
{
    long_id_of(word_of(value)?).ok_or(LineError::BadLine)
}

/// The id of a span that a JSON value spells, in 16 lower case digits. `BadLine` where it spells none.
pub fn read_span_id(value: &Json) -> Result<u64, LineError>
    ensures { Gives (λ id. id) result (option_and_then id_of_word (as_str (view value.now))) }
{
    id_of(word_of(value)?).ok_or(LineError::BadLine)
}
