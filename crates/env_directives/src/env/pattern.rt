//! Patterns for whole texts, by the crate `regex`.
ghost use Rattle.std.specs.Prelude.{◌≡◌, ◌++◌, codes, IfOk, IfErr, Some, true, bytes_eq};
ghost use Rattle.regex.specs.Patterns.{default_config};
ghost use Rattle.regex.specs.Strings.{regex_source, regex_config, IsReadFromSource};
ghost use Rattle.std.proofs.Common.{rules};
ghost use Rattle.std.specs.Cmp.Rules.{comparing};
ghost use Rattle.std.specs.Ordering.{nat_cmp, as_partial_cmp};
ghost use Rattle.std.specs.Cmp.{partial_order_from_own_ties};
ghost use Rattle.std.specs.Cmp.Lexicographic.{slice_cmp};
ghost use Rattle.env_directives.specs.reading.Values.{MayFail};
ghost use Rattle.env_directives.specs.Meeting.{is_matched_if_any, matched_text};
ghost use Rattle.env_directives.specs.Patterns.{whole_pattern, is_matched, IsCompiled, IsPattern, IsRefusedByRegex, IsNoPattern};

use crate::directive::ParseError;
use crate::env::field::{MatchDebug, text_of};
use otel_base::memory::Memory;
use otel_base::text::Text;
use regex::{Error, Regex};
use std::alloc::Global;
use std::cmp::Ordering;
use std::fmt;
use std::marker::Model;
use std::sync::Arc;
use trace_base::field::Value;

/// A pattern that a whole text has to match; `tracing_subscriber::filter::env::field::MatchPattern`. Clones of it share
/// what the pattern was compiled to.
#[derive(Clone, Drop)]
pub struct MatchPattern {
    pattern: Text,
    regex: Arc<Regex>,
}

impl Model for MatchPattern {
    ghost use Rattle.std.specs.Prelude.{List, ℕ};

    ghost Value = { List ℕ };

    ghost use Rattle.env_directives.specs.Patterns.{IsCompiled};

    ghost view = { λ m. m.pattern };

    ghost invariant = { λ m. IsCompiled m.pattern m.regex.value };
}

impl MatchPattern {
    // Compiles a pattern for whole texts. It has to be one by itself too: `a)(b` becomes one in brackets.
    pub(crate) fn new(alloc: Global, text: &str) -> Result<MatchPattern, ParseError>
        ensures ok { IfOk result (λ m. m ≡ text.now) }
        ensures pattern { IfOk result (λ m. IsPattern text.now) }
        ensures err { IfErr result (MayFail true (IsNoPattern text.now)) }
    {
        compile(alloc, text)?;
        let regex = compile_whole(alloc, text)?;
        Ok(MatchPattern {
            pattern: text_of(alloc, text)?,
            regex: Arc::new(alloc, regex)?,
        })
    }
}

impl MatchPattern {
    /// The text of the pattern.
    pub fn as_str(&self) -> &str
        ensures { result.now ≡ self.now }
    {
        self.pattern.as_str()
    }

    /// The text of the pattern, to be met as it stands, without a copy; `MatchPattern::into_debug_match`.
    pub fn into_debug_match(self) -> MatchDebug
        ensures { result ≡ self }
    {
        let MatchPattern { pattern, regex: _ } = self;
        MatchDebug::new(pattern)
    }

    // Whether a value's text, or the debug text of another value, matches as a whole.
    pub(crate) fn is_met_by(&self, alloc: Global, value: &Value) -> Result<bool, Memory>
        ensures { IfOk result (λ found. found ≡ is_matched_if_any self.now (matched_text value.now)) }
    {
        match value {
            Value::Str(text) | Value::Debug(text) => self.matches(alloc, text.as_str()),
            Value::Error { message, .. } => self.matches(alloc, message.as_str()),
            Value::I128(number) => self.matches(alloc, format!(in alloc; "{number}")?.as_str()),
            Value::U128(number) => self.matches(alloc, format!(in alloc; "{number}")?.as_str()),
            Value::Bool(_) | Value::I64(_) | Value::U64(_) => Ok(false),
        }
    }

    // Whether a whole text matches.
    fn matches(&self, alloc: Global, text: &str) -> Result<bool, Memory>
        ensures { IfOk result (λ found. found ≡ is_matched self.now text.now) }
    {
        let mut matcher = self.regex.matcher(alloc)?;
        Ok(matcher.is_match(text))
    }
}

impl fmt::Display for MatchPattern {
    ghost output = { λ pattern. Some pattern };

    fn fmt<W: fmt::Write>(&self, f: &mut fmt::Formatter<W>) -> fmt::Result {
        f.write_str(self.pattern.as_str())
    }
}

impl PartialEq for MatchPattern {
    ghost eq = { bytes_eq };

    ghost laws = { Prim.search (comparing, rules) };

    fn eq(&self, other: &MatchPattern) -> bool {
        self.pattern == other.pattern
    }
}

impl Eq for MatchPattern {
    ghost laws = { Prim.search (comparing, rules) };
}

/// By the bytes of its text.
impl Ord for MatchPattern {
    ghost cmp = { slice_cmp nat_cmp };

    ghost total = { Prim.search (comparing, rules) };

    ghost matches_partial_cmp = { Prim.search (comparing, rules) };

    ghost matches_eq = { Prim.search (comparing, rules) };

    fn cmp(&self, other: &MatchPattern) -> Ordering {
        self.pattern.cmp(&other.pattern)
    }
}

impl PartialOrd for MatchPattern {
    ghost partial_cmp = { as_partial_cmp (slice_cmp nat_cmp) };

    ghost laws = { partial_order_from_own_ties (Prim.search (comparing, rules))
        (Prim.search (comparing, rules)) };

    fn partial_cmp(&self, other: &MatchPattern) -> Option<Ordering> {
        Some(self.cmp(other))
    }
}

fn compile_whole(alloc: Global, text: &str) -> Result<Regex, ParseError>
    ensures ok { IfOk result (IsCompiled text.now) }
    ensures err { IfErr result (MayFail true (IsRefusedByRegex (whole_pattern text.now))) }
{
    let whole = format!(in alloc; "\\A(?:{text})\\z")?;
    compile(alloc, whole.as_str())
}

fn compile(alloc: Global, source: &str) -> Result<Regex, ParseError>
    ensures source { IfOk result (λ r. regex_source r ≡ source.now) }
    ensures config { IfOk result (λ r. regex_config r ≡ default_config) }
    ensures read { IfOk result IsReadFromSource }
    ensures err { IfErr result (MayFail true (IsRefusedByRegex source.now)) }
{
    match Regex::new(alloc, source) {
        Ok(regex) => Ok(regex),
        Err(Error::OutOfMemory) => Err(ParseError::Memory),
        Err(_) => Err(ParseError::Pattern),
    }
}
