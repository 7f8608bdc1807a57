//! What a directive asks of a span's fields: that they are there, or that they have a value.
ghost use Rattle.std.specs.Prelude.{◌≡◌, ◌++◌, IfOk, IfErr, IfSome, Some, None, codes, bytes_eq};
ghost use Rattle.std.proofs.Common.{rules};
ghost use Rattle.std.specs.Cmp.Rules.{comparing};
ghost use Rattle.std.specs.Ordering.{nat_cmp, as_partial_cmp};
ghost use Rattle.std.specs.Cmp.{partial_order_from_own_ties};
ghost use Rattle.std.specs.Cmp.Lexicographic.{slice_cmp};
ghost use Rattle.env_directives.specs.Meeting.{meets, meets_truth, meets_u64, meets_i64, is_equal_if_any, matched_debug_text};
ghost use Rattle.env_directives.specs.printed.Printed.{match_text, value_text};
ghost use Rattle.env_directives.specs.reading.Values.{IsNoPatternField, IsNoPatternValue, field_of, value_of, plain_value, truth_of, u64_of, i64_of, IsPatternIfAny, MayFail};

use crate::directive::ParseError;
use crate::env::cut::cut;
use crate::env::pattern::MatchPattern;
use otel_base::memory::Memory;
use otel_base::text::Text;
use std::alloc::Global;
use std::cmp::Ordering;
use std::error::Error;
use std::fmt;
use std::marker::Model;
use trace_base::field::Value;
use trace_base::quote::quote;

/// A field that a span has to declare, and the value that it has to have, if any;
/// `tracing_subscriber::filter::env::field::Match`.
#[derive(Clone, PartialEq, Eq, Drop)]
pub struct Match {
    /// The field's name.
    pub name: Text,
    /// The value that is asked for, if any.
    pub value: Option<ValueMatch>,
}

impl Match {
    // Reads a name, or a name and a value behind `=`.
    #[tactic(auto, unfolding(crate::specs::reading::Values::field_of))]
    pub(crate) fn parse(alloc: Global, text: &str, patterns: bool) -> Result<Match, ParseError>
        ensures ok { IfOk result (λ m. m ≡ field_of patterns text.now) }
        ensures pattern { IfOk result (λ m. IfSome m.value IsPatternIfAny) }
        ensures err { IfErr result (MayFail patterns (IsNoPatternField text.now)) }
    {
        let pieces = cut(text, b"=");
        let value = match pieces.stop {
            Some(_) => Some(ValueMatch::parse(alloc, cut(pieces.rest, b"=").front, patterns)?),
            None => None,
        };
        let name = text_of(alloc, pieces.front)?;
        Ok(Match { name, value })
    }
}

impl fmt::Display for Match {
    ghost output = { λ field. Some (match_text field) };

    fn fmt<W: fmt::Write>(&self, f: &mut fmt::Formatter<W>) -> fmt::Result {
        f.write_str(self.name.as_str())?;
        if let Some(value) = &self.value {
            f.write_str("=")?;
            fmt::Display::fmt(value, f)?;
        }
        Ok(())
    }
}

/// Fields that ask for a value are greater, since they are more specific; then by name, then by value.
impl Ord for Match {
    ghost use Rattle.env_directives.specs.orders.FieldOrder.{field_cmp};
    ghost use Rattle.env_directives.specs.laws.FieldLemmas.{field_total, field_ties};

    ghost cmp = { field_cmp };

    ghost total = { field_total };

    ghost matches_partial_cmp = { Prim.search (comparing, rules) };

    ghost matches_eq = { field_ties };

    fn cmp(&self, other: &Match) -> Ordering {
        let has_value = self.value.is_some().cmp(&other.value.is_some());
        has_value
            .then(self.name.cmp(&other.name))
            .then(self.value.cmp(&other.value))
    }
}

impl PartialOrd for Match {
    ghost use Rattle.std.specs.Cmp.{partial_order_from_total};
    ghost use Rattle.env_directives.specs.orders.FieldOrder.{field_cmp};
    ghost use Rattle.env_directives.specs.laws.FieldLemmas.{field_total, field_ties};

    ghost partial_cmp = { as_partial_cmp (field_cmp) };

    ghost laws = { partial_order_from_own_ties (partial_order_from_total field_total) field_ties };

    fn partial_cmp(&self, other: &Match) -> Option<Ordering> {
        Some(self.cmp(other))
    }
}

/// The value that is asked of a field; `tracing_subscriber::filter::env::field::ValueMatch`, without floats.
#[derive(Clone, PartialEq, Eq, PartialOrd, Ord, Drop)]
pub enum ValueMatch {
    /// A truth value.
    Bool(bool),
    /// A number that isn't negative.
    U64(u64),
    /// A number.
    I64(i64),
    /// A pattern that the whole text or debug form has to match.
    Pat(MatchPattern),
    /// A debug form that has to be met as it stands.
    Debug(MatchDebug),
}

impl ValueMatch {
    // Reads a truth value, a number, or else a text: a pattern where those are wanted.
    fn parse(alloc: Global, text: &str, patterns: bool) -> Result<ValueMatch, ParseError>
        ensures ok { IfOk result (λ v. v ≡ value_of patterns text.now) }
        ensures pattern { IfOk result IsPatternIfAny }
        ensures err { IfErr result (MayFail patterns (IsNoPatternValue text.now)) }
    {
        if let Some(value) = plain_value(text) {
            return Ok(value);
        }
        if patterns {
            Ok(ValueMatch::Pat(MatchPattern::new(alloc, text)?))
        } else {
            Ok(ValueMatch::Debug(MatchDebug::new(text_of(alloc, text)?)))
        }
    }
}

impl fmt::Display for ValueMatch {
    ghost output = { λ value. Some (value_text value) };

    fn fmt<W: fmt::Write>(&self, f: &mut fmt::Formatter<W>) -> fmt::Result {
        match self {
            ValueMatch::Bool(truth) => fmt::Display::fmt(truth, f),
            ValueMatch::U64(number) => fmt::Display::fmt(number, f),
            ValueMatch::I64(number) => fmt::Display::fmt(number, f),
            ValueMatch::Pat(pattern) => fmt::Display::fmt(pattern, f),
            ValueMatch::Debug(text) => fmt::Display::fmt(text, f),
        }
    }
}

impl ValueMatch {
    /// Whether a field's value meets what is asked. A text value meets a fixed text that is its quoted form, and a
    /// pattern that matches it as it stands; `Memory` where there is none to search or to print with. It stands for what
    /// `MatchVisitor` does with a value.
    pub fn is_met_by(&self, alloc: Global, value: &Value) -> Result<bool, Memory>
        ensures { IfOk result (λ found. found ≡ meets self.now value.now) }
    {
        match self {
            ValueMatch::Bool(wanted) => Ok(meets_truth(*wanted, value)),
            ValueMatch::U64(wanted) => Ok(meets_u64(*wanted, value)),
            ValueMatch::I64(wanted) => Ok(meets_i64(*wanted, value)),
            ValueMatch::Pat(pattern) => pattern.is_met_by(alloc, value),
            ValueMatch::Debug(text) => text.is_met_by(alloc, value),
        }
    }
}

fn meets_truth(wanted: bool, value: &Value) -> bool
    ensures { result ≡ meets_truth wanted value.now }
{
    match value {
        Value::Bool(truth) => *truth == wanted,
        _ => false,
    }
}

fn meets_u64(wanted: u64, value: &Value) -> bool
    ensures { result ≡ meets_u64 wanted value.now }
{
    match value {
        Value::U64(number) => *number == wanted,
        Value::I64(number) => i128::from(*number) == i128::from(wanted),
        _ => false,
    }
}

fn meets_i64(wanted: i64, value: &Value) -> bool
    ensures { result ≡ meets_i64 wanted value.now }
{
    match value {
        Value::I64(number) => *number == wanted,
        _ => false,
    }
}

// The truth value or number that a text writes.
#[tactic(auto, unfolding(crate::specs::reading::Values::plain_value))]
fn plain_value(text: &str) -> Option<ValueMatch>
    ensures { result ≡ plain_value text.now }
{
    if let Some(truth) = truth_of(text) {
        return Some(ValueMatch::Bool(truth));
    }
    if let Some(number) = u64_of(text) {
        return Some(ValueMatch::U64(number));
    }
    match i64_of(text) {
        Some(number) => Some(ValueMatch::I64(number)),
        None => None,
    }
}

fn truth_of(text: &str) -> Option<bool>
    ensures { result ≡ truth_of text.now }
{
    match text {
        "true" => Some(true),
        "false" => Some(false),
        _ => None,
    }
}

#[tactic(auto, using(crate::proofs::forms::NumbersLemmas::u64_read, crate::proofs::forms::NumbersLemmas::u64_unread))]
fn u64_of(text: &str) -> Option<u64>
    ensures { result ≡ u64_of text.now }
{
    text.parse::<u64>().ok()
}

#[tactic(auto, using(crate::proofs::forms::NumbersLemmas::i64_read, crate::proofs::forms::NumbersLemmas::i64_unread))]
fn i64_of(text: &str) -> Option<i64>
    ensures { result ≡ i64_of text.now }
{
    text.parse::<i64>().ok()
}

/// A debug form that has to be met as it stands; `tracing_subscriber::filter::env::field::MatchDebug`.
#[derive(Clone, PartialEq, Eq, PartialOrd, Ord, Drop)]
pub struct MatchDebug {
    pattern: Text,
}

impl Model for MatchDebug {
    ghost use Rattle.std.specs.Prelude.{List, ℕ};

    ghost Value = { List ℕ };

    ghost view = { λ m. m.pattern };

    ghost inverse = { λ text. record { pattern = text } };
}

impl MatchDebug {
    /// What is met by this debug text alone; `MatchDebug::new`.
    pub fn new(pattern: Text) -> MatchDebug
        ensures { result ≡ pattern }
    {
        MatchDebug { pattern }
    }

    /// The debug text.
    pub fn as_str(&self) -> &str
        ensures { result.now ≡ self.now }
    {
        self.pattern.as_str()
    }

    // Whether the debug text of a value is this one.
    fn is_met_by(&self, alloc: Global, value: &Value) -> Result<bool, Memory>
        ensures { IfOk result (λ found. found ≡ is_equal_if_any self.now (matched_debug_text value.now)) }
    {
        match value {
            Value::Str(text) => Ok(self.matches(quote(alloc, text.as_str())?.as_str())),
            Value::Debug(text) => Ok(self.matches(text.as_str())),
            Value::Error { message, .. } => Ok(self.matches(message.as_str())),
            Value::I128(number) => Ok(self.matches(format!(in alloc; "{number}")?.as_str())),
            Value::U128(number) => Ok(self.matches(format!(in alloc; "{number}")?.as_str())),
            Value::Bool(_) | Value::I64(_) | Value::U64(_) => Ok(false),
        }
    }

    fn matches(&self, text: &str) -> bool
        ensures { result ≡ bytes_eq self.now text.now }
    {
        self.pattern.as_str() == text
    }
}

impl fmt::Display for MatchDebug {
    ghost output = { λ text. Some text };

    fn fmt<W: fmt::Write>(&self, f: &mut fmt::Formatter<W>) -> fmt::Result {
        f.write_str(self.pattern.as_str())
    }
}

/// The name of a field isn't valid; `tracing_subscriber::filter::env::field::BadName`. No call answers it.
#[derive(Clone, PartialEq, Eq, Drop)]
pub struct BadName {
    /// The name.
    pub name: Text,
}

/// The name under which tracing-subscriber re-exports `BadName`.
pub type BadFieldName = BadName;

impl fmt::Display for BadName {
    ghost output = { λ fault. Some (codes "invalid field name `" ++ (fault.name ++ codes "`")) };

    fn fmt<W: fmt::Write>(&self, f: &mut fmt::Formatter<W>) -> fmt::Result {
        f.write_str("invalid field name `")?;
        f.write_str(self.name.as_str())?;
        f.write_str("`")
    }
}

impl fmt::Debug for BadName {
    fn fmt<W: fmt::Write>(&self, f: &mut fmt::Formatter<W>) -> fmt::Result {
        f.debug_struct("BadName")
            .field("name", &self.name.as_str())
            .finish()
    }
}

impl Error for BadName {}

// The text as a value of its own.
pub(crate) fn text_of(alloc: Global, text: &str) -> Result<Text, Memory>
    ensures { IfOk result (λ t. t ≡ text.now) }
{
    Text::from_str(alloc, text)
}
