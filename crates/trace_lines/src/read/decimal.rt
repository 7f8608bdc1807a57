//! Numbers of 128 bits that are read from their decimals.
ghost use Rattle.std.specs.Prelude.{◌≡◌, ◌≢◌, ◌∷◌, List, ℕ, Decides, MatchOption, decimal};
ghost use Rattle.trace_lines.specs.text.Decimals.{u128_of_word, i128_of_word, negative_of, nonnegative_of};

use itoa::Buffer;

// Whether a text is the decimal of a number.
fn is_decimal(number: u128, word: &str) -> bool
    ensures { Decides result (decimal number ≡ word.now) }
{
    Buffer::new().format(number) == word
}

/// The number of 128 bits whose decimal a text is.
pub fn u128_of(word: &str) -> Option<u128>
    ensures { result ≡ u128_of_word word.now }
{
    match word.parse::<u128>() {
        Ok(number) => {
            if is_decimal(number, word) {
                Some(number)
            } else {
                None
            }
        }
        Err(_) => None,
    }
}

// What stands behind a minus, if the text begins with one.
fn behind_minus(word: &str) -> Option<&str>
    ensures { MatchOption result ((rest : List ℕ) → word.now ≢ 45 ∷ rest)
        (λ digits. word.now ≡ 45 ∷ digits.now) }
{
    word.strip_prefix('-')
}

// A number below zero, by how far it is below.
fn negative_of(number: u128) -> Option<i128>
    ensures { result ≡ negative_of number }
{
    let less = i128::try_from(number.checked_sub(1)?).ok()?;
    Some(-1 - less)
}

// A signed number from zero on.
fn nonnegative_of(number: u128) -> Option<i128>
    ensures { result ≡ nonnegative_of number }
{
    i128::try_from(number).ok()
}

/// The signed number of 128 bits whose decimal a text is.
#[tactic(auto, using(crate::proofs::texts::DecimalsLemmas::with_minus, crate::proofs::texts::DecimalsLemmas::no_minus))]
pub(crate) fn i128_of(word: &str) -> Option<i128>
    ensures { result ≡ i128_of_word word.now }
{
    match behind_minus(word) {
        Some(digits) => negative_of(u128_of(digits)?),
        None => nonnegative_of(u128_of(word)?),
    }
}
