//! Levels of callsites, and the filters that levels are held against.
ghost use Rattle.std.specs.Prelude.{◌≡◌, Some, codes};
ghost use Rattle.std.specs.Array.Iter.{array_into_iter_items};
ghost use Rattle.std.specs.Fmt.{padded};
ghost use Rattle.std.specs.Ordering.{on, nat_cmp, as_partial_cmp};
ghost use Rattle.std.specs.Cmp.{partial_order_from_own_ties};
ghost use Rattle.std.specs.Cmp.Rules.{comparing};
ghost use Rattle.std.specs.Option.{option_and_then};
ghost use Rattle.std.proofs.Common.{rules};
ghost use Rattle.otel_base.specs.Words.{word_text};
ghost use Rattle.trace_base.specs.words.Level.{verbosity, greatest_verbosity, is_within, level_text, level_filter_text, filter_of_level, level_of_filter};
ghost use Rattle.trace_base.specs.words.LevelWords.{all_level_filters, filter_of_word, filter_of_number, decimal_value, named_level_filter, level_filter_of, level_of, IsReadAs};

use otel_base::word::Word;
use std::cmp::Ordering;
use std::error::Error;
use std::str::FromStr;
use std::{array, fmt};

/// The filter that a program is built with: it lets every level through; `tracing::level_filters::STATIC_MAX_LEVEL`.
pub const STATIC_MAX_LEVEL: LevelFilter = LevelFilter::TRACE;

/// How much a callsite tells, from the most urgent to the most verbose; `tracing_core::Level`.
#[derive(Clone, Copy, Debug, PartialEq, Eq)]
pub enum Level {
    /// Something went wrong.
    ERROR,
    /// Something may go wrong.
    WARN,
    /// What a user wants to know.
    INFO,
    /// What helps to find a fault.
    DEBUG,
    /// Each step.
    TRACE,
}

/// The most verbose level that is let through, or none at all; `tracing_core::LevelFilter`.
#[derive(Clone, Copy, Debug, PartialEq, Eq)]
pub enum LevelFilter {
    /// No level is let through.
    OFF,
    /// `ERROR` alone is.
    ERROR,
    /// `WARN` and `ERROR` are.
    WARN,
    /// `INFO`, `WARN` and `ERROR` are.
    INFO,
    /// All but `TRACE` are.
    DEBUG,
    /// Every level is.
    TRACE,
}

impl Level {
    // 1 for the most urgent, 5 for the most verbose.
    fn verbosity(self) -> u8
        ensures { result ≡ verbosity self }
    {
        match self {
            Level::ERROR => 1,
            Level::WARN => 2,
            Level::INFO => 3,
            Level::DEBUG => 4,
            Level::TRACE => 5,
        }
    }
}

impl Level {
    /// The level in upper case; `tracing_core::Level::as_str`.
    pub fn as_str(self) -> &'static str
        ensures { result.now ≡ level_text self }
    {
        self.word().as_str()
    }

    /// The level in upper case, as a word that takes no memory in records.
    pub fn word(self) -> Word
        ensures { word_text result ≡ level_text self }
    {
        match self {
            Level::ERROR => Word::ErrorLevel,
            Level::WARN => Word::WarnLevel,
            Level::INFO => Word::InfoLevel,
            Level::DEBUG => Word::DebugLevel,
            Level::TRACE => Word::TraceLevel,
        }
    }
}

impl fmt::Display for Level {
    ghost output = { λ level. Some (level_text level) };

    ghost styled_output = { λ level spec. Some (padded spec (level_text level)) };

    fn fmt<W: fmt::Write>(&self, f: &mut fmt::Formatter<W>) -> fmt::Result {
        f.pad(self.as_str())
    }
}

/// Reads a level's word in any case, or its number from 1 to 5.
impl FromStr for Level {
    type Err = ParseLevelError;

    ghost from_str_gives = { λ text r. IsReadAs (level_of text) r };

    fn from_str(text: &str) -> Result<Level, ParseLevelError> {
        named_level_filter(text)
            .and_then(|filter| filter.into_level())
            .ok_or(ParseLevelError(()))
    }
}

/// By verbosity: a more verbose level is greater.
impl Ord for Level {
    ghost cmp = { on verbosity nat_cmp };

    ghost total = { Prim.search (comparing, rules) };

    ghost matches_partial_cmp = { Prim.search (comparing, rules) };

    ghost matches_eq = { Prim.search (comparing, rules) };

    fn cmp(&self, other: &Level) -> Ordering {
        self.verbosity().cmp(&other.verbosity())
    }
}

impl PartialOrd for Level {
    ghost partial_cmp = { as_partial_cmp (on verbosity nat_cmp) };

    ghost laws = { partial_order_from_own_ties (Prim.search (comparing, rules))
        (Prim.search (comparing, rules)) };

    fn partial_cmp(&self, other: &Level) -> Option<Ordering> {
        Some(self.cmp(other))
    }
}

impl LevelFilter {
    // 0 where nothing is let through.
    fn greatest_verbosity(self) -> u8
        ensures { result ≡ greatest_verbosity self }
    {
        match self {
            LevelFilter::OFF => 0,
            LevelFilter::ERROR => 1,
            LevelFilter::WARN => 2,
            LevelFilter::INFO => 3,
            LevelFilter::DEBUG => 4,
            LevelFilter::TRACE => 5,
        }
    }

    /// Whether the level is let through: the comparison `level <= filter` of tracing-core.
    pub fn lets_through(self, level: Level) -> bool
        ensures { result ≡ is_within level self }
    {
        level.verbosity() <= self.greatest_verbosity()
    }

    /// The filter that lets this level through, and none that is more verbose; `tracing_core::LevelFilter::from_level`.
    pub fn from_level(level: Level) -> LevelFilter
        ensures { result ≡ filter_of_level level }
    {
        match level {
            Level::ERROR => LevelFilter::ERROR,
            Level::WARN => LevelFilter::WARN,
            Level::INFO => LevelFilter::INFO,
            Level::DEBUG => LevelFilter::DEBUG,
            Level::TRACE => LevelFilter::TRACE,
        }
    }

    /// The most verbose level that is let through, or `None` for `OFF`; `tracing_core::LevelFilter::into_level`.
    pub fn into_level(self) -> Option<Level>
        ensures { result ≡ level_of_filter self }
    {
        match self {
            LevelFilter::OFF => None,
            LevelFilter::ERROR => Some(Level::ERROR),
            LevelFilter::WARN => Some(Level::WARN),
            LevelFilter::INFO => Some(Level::INFO),
            LevelFilter::DEBUG => Some(Level::DEBUG),
            LevelFilter::TRACE => Some(Level::TRACE),
        }
    }

    /// The filter in lower case, as `tracing_core::LevelFilter` prints.
    pub fn as_str(self) -> &'static str
        ensures { result.now ≡ level_filter_text self }
    {
        match self {
            LevelFilter::OFF => "off",
            LevelFilter::ERROR => "error",
            LevelFilter::WARN => "warn",
            LevelFilter::INFO => "info",
            LevelFilter::DEBUG => "debug",
            LevelFilter::TRACE => "trace",
        }
    }
}

impl fmt::Display for LevelFilter {
    ghost output = { λ f. Some (level_filter_text f) };

    ghost styled_output = { λ f spec. Some (padded spec (level_filter_text f)) };

    fn fmt<W: fmt::Write>(&self, f: &mut fmt::Formatter<W>) -> fmt::Result {
        f.pad(self.as_str())
    }
}

/// Reads a filter's word in any case, or its number from 0 to 5; an empty text is `ERROR`.
impl FromStr for LevelFilter {
    type Err = ParseLevelFilterError;

    ghost from_str_gives = { λ text r. IsReadAs (level_filter_of text) r };

    fn from_str(text: &str) -> Result<LevelFilter, ParseLevelFilterError> {
        if text.is_empty() {
            return Ok(LevelFilter::ERROR);
        }
        named_level_filter(text).ok_or(ParseLevelFilterError(()))
    }
}

/// By verbosity: a more verbose filter is greater.
impl Ord for LevelFilter {
    ghost cmp = { on greatest_verbosity nat_cmp };

    ghost total = { Prim.search (comparing, rules) };

    ghost matches_partial_cmp = { Prim.search (comparing, rules) };

    ghost matches_eq = { Prim.search (comparing, rules) };

    fn cmp(&self, other: &LevelFilter) -> Ordering {
        self.greatest_verbosity().cmp(&other.greatest_verbosity())
    }
}

impl PartialOrd for LevelFilter {
    ghost partial_cmp = { as_partial_cmp (on greatest_verbosity nat_cmp) };

    ghost laws = { partial_order_from_own_ties (Prim.search (comparing, rules))
        (Prim.search (comparing, rules)) };

    fn partial_cmp(&self, other: &LevelFilter) -> Option<Ordering> {
        Some(self.cmp(other))
    }
}

#[tactic(auto, unfolding(crate::specs::words::LevelWords::named_level_filter))]
fn named_level_filter(text: &str) -> Option<LevelFilter>
    ensures { result ≡ named_level_filter text.now }
{
    match filter_of_word(text) {
        Some(filter) => Some(filter),
        None => filter_of_decimal(text),
    }
}

fn filter_of_word(text: &str) -> Option<LevelFilter>
    ensures { result ≡ filter_of_word text.now }
{
    for filter in all_level_filters() {
        if filter.as_str().eq_ignore_ascii_case(text) {
            return Some(filter);
        }
    }
    None
}

fn all_level_filters() -> array::IntoIter<LevelFilter, 6>
    ensures { array_into_iter_items result ≡ all_level_filters }
{
    [
        LevelFilter::OFF,
        LevelFilter::ERROR,
        LevelFilter::WARN,
        LevelFilter::INFO,
        LevelFilter::DEBUG,
        LevelFilter::TRACE,
    ]
    .into_iter()
}

// A number that doesn't fit a byte is past every level.
fn filter_of_decimal(text: &str) -> Option<LevelFilter>
    ensures { result ≡ option_and_then filter_of_number (decimal_value text.now) }
{
    match text.parse::<u8>() {
        Ok(verbosity) => filter_with_verbosity(verbosity),
        Err(_) => None,
    }
}

#[tactic(auto, unfolding(crate::specs::words::LevelWords::filter_of_number))]
fn filter_with_verbosity(verbosity: u8) -> Option<LevelFilter>
    ensures { result ≡ filter_of_number verbosity }
{
    match verbosity {
        0 => Some(LevelFilter::OFF),
        1 => Some(LevelFilter::ERROR),
        2 => Some(LevelFilter::WARN),
        3 => Some(LevelFilter::INFO),
        4 => Some(LevelFilter::DEBUG),
        5 => Some(LevelFilter::TRACE),
        _ => None,
    }
}

/// The text reads as no level; `tracing_core::metadata::ParseLevelError`.
#[derive(Clone, Copy, Debug, PartialEq, Eq)]
pub struct ParseLevelError(());

impl fmt::Display for ParseLevelError {
    ghost output = { λ _. Some (codes "invalid level filter") };

    fn fmt<W: fmt::Write>(&self, f: &mut fmt::Formatter<W>) -> fmt::Result {
        f.write_str("invalid level filter")
    }
}

impl Error for ParseLevelError {}

/// The text reads as no level filter; `tracing_core::metadata::ParseLevelFilterError`.
#[derive(Clone, Copy, Debug, PartialEq, Eq)]
pub struct ParseLevelFilterError(());

impl fmt::Display for ParseLevelFilterError {
    ghost output = { λ _. Some (codes "invalid level filter") };

    fn fmt<W: fmt::Write>(&self, f: &mut fmt::Formatter<W>) -> fmt::Result {
        f.write_str("invalid level filter")
    }
}

impl Error for ParseLevelFilterError {}
