//! The words of levels and of kinds of callsites.
ghost use Rattle.std.specs.Prelude.{◌≡◌};
ghost use Rattle.trace_lines.specs.text.Words.{level_of_word, kind_of_word};

use trace_base::callsite::Kind;
use trace_base::level::Level;

/// The level that one of the five level words in lower case stands for.
pub fn level_of(word: &str) -> Option<Level>
    ensures { result ≡ level_of_word word.now }
{
    match word {
        "error" => Some(Level::ERROR),
        "warn" => Some(Level::WARN),
        "info" => Some(Level::INFO),
        "debug" => Some(Level::DEBUG),
        "trace" => Some(Level::TRACE),
        _ => None,
    }
}

/// What a callsite makes, by its word.
pub fn kind_of(word: &str) -> Option<Kind>
    ensures { result ≡ kind_of_word word.now }
{
    match word {
        "span" => Some(Kind::Span),
        "event" => Some(Kind::Event),
        _ => None,
    }
}
