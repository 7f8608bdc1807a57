//! Directives that speak of targets and field names alone, and why a text is no directive.
ghost use Rattle.std.specs.Prelude.{◌≡◌, [], ◌∷◌, flat_map, Bool, None, Some, Ok};
ghost use Rattle.std.specs.Cmp.{partial_order_from_own_ties};
ghost use Rattle.std.specs.Cmp.Rules.{comparing};
ghost use Rattle.std.specs.Ordering.{as_partial_cmp, eq_by_cmp};
ghost use Rattle.std.specs.Fmt.{WritesOnOk};
ghost use Rattle.std.proofs.Common.{rules};
ghost use Rattle.env_directives.specs.declared.directive.ParseError.TheVariants.{Memory as OutOfMemory};
ghost use Rattle.trace_base.specs.declared.level.LevelFilter.TheVariants.{ERROR};
ghost use Rattle.trace_base.specs.declared.callsite.Callsite.{Callsite};
ghost use Rattle.trace_base.specs.declared.level.LevelFilter.{LevelFilter};
ghost use Rattle.env_directives.specs.Cares.{begins_with, covers, cares_about_target, declares_all, cares};
ghost use Rattle.env_directives.specs.reading.Separators.{nonempty, comma_pieces};
ghost use Rattle.env_directives.specs.printed.StaticPrinted.{static_text, comma_joined};
ghost use Rattle.env_directives.specs.reading.StaticText.{ReadsOrFails, static_of, bare_of, static_with_equals, front_of, front_with_names, names_of, level_behind_equals};
ghost use Rattle.env_directives.specs.orders.StaticOrder.{most_specific_first, specificity_cmp, target_length};

use crate::env::field::text_of;
use otel_base::list::Items;
use otel_base::memory::Memory;
use otel_base::text::Text;
use std::alloc::{AllocError, AllocFailed, Global};
use std::cmp::Ordering;
use std::default::MadeWith;
use std::fmt;
use thiserror::Error;
use trace_base::callsite::{Callsite, Kind};
use trace_base::level::LevelFilter;

pub mod set;

/// What is asked of the directives of a set; `tracing_subscriber::filter::directive::Match`.
pub trait Match {
    ghost cares: { Self → Callsite → Bool };

    ghost level_of: { Self → LevelFilter };

    /// Whether it speaks of a callsite.
    fn cares_about(&self, callsite: &Callsite) -> bool
        ensures { result ≡ cares self.now callsite.now };

    /// The level that it lets through.
    fn level(&self) -> LevelFilter
        ensures { result ≡ level_of self.now };
}

/// How verbosely a part of a program is traced: callsites by their target and, for events, by the names of their
/// fields; `tracing_subscriber::filter::directive::StaticDirective`.
#[derive(Clone, Drop)]
pub struct StaticDirective {
    /// What a callsite's target begins with; without one it speaks of every target.
    pub target: Option<Text>,
    /// The fields that an event's callsite declares.
    pub field_names: Items<Text>,
    /// The level that is let through.
    pub level: LevelFilter,
}

impl StaticDirective {
    /// Errors of every target; `StaticDirective::default`.
    pub fn default(alloc: Global) -> StaticDirective
        ensures target { result.target ≡ None }
        ensures field_names { result.field_names ≡ [] }
        ensures level { result.level ≡ ERROR }
    {
        StaticDirective {
            target: None,
            field_names: Items::new(alloc),
            level: LevelFilter::ERROR,
        }
    }

    /// Reads a target with field names and a level, as `app[{a,b}]=info`, or either by itself. `Equals` where there are
    /// several `=`, `Fields` where there are several `[{` or the names don't end in `}]`, and `Level` where no level
    /// follows the `=`; `StaticDirective::from_str`.
    pub fn from_str(alloc: Global, text: &str) -> Result<StaticDirective, ParseError>
        ensures { ReadsOrFails result (static_of text.now) }
    {
        let Some((front, level)) = text.split_once("=") else {
            return bare(alloc, text);
        };
        if level.contains("=") {
            return Err(ParseError::Equals);
        }
        static_with_equals(alloc, front, level)
    }

    fn target_len(&self) -> Option<usize>
        ensures { result ≡ target_length self.now }
    {
        match &self.target {
            Some(target) => Some(target.as_str().len()),
            None => None,
        }
    }

    /// Whether a target begins with its own, if it has one.
    pub fn covers(&self, target: &str) -> bool
        ensures { result ≡ covers self.now target.now }
    {
        begins_with(&self.target, target)
    }

    /// Whether it speaks of a target without being asked for fields: it covers the target and has no field names.
    pub fn cares_about_target(&self, target: &str) -> bool
        ensures { result ≡ cares_about_target self.now target.now }
    {
        self.covers(target) && self.field_names.as_slice().is_empty()
    }

    // A directive with a longer target is greater, then one with more field names; the rest keeps the order total.
    fn specificity_cmp(&self, other: &StaticDirective) -> Ordering
        ensures { result ≡ specificity_cmp self.now other.now }
    {
        let names = self.field_names.as_slice();
        let other_names = other.field_names.as_slice();
        self.target_len()
            .cmp(&other.target_len())
            .then(names.len().cmp(&other_names.len()))
            .then(self.target.cmp(&other.target))
            .then(names.cmp(other_names))
    }
}

/// Whether a text begins with another, if there is another.
pub(crate) fn begins_with(start: &Option<Text>, text: &str) -> bool
    ensures { result ≡ begins_with start.now text.now }
{
    match start {
        Some(start) => text.starts_with(start.as_str()),
        None => true,
    }
}

// What stands by itself is a level where it reads as one.
fn bare(alloc: Global, text: &str) -> Result<StaticDirective, ParseError>
    ensures { ReadsOrFails result (Ok (bare_of text.now)) }
{
    match text.parse::<LevelFilter>() {
        Ok(level) => Ok(StaticDirective {
            target: None,
            field_names: Items::new(alloc),
            level,
        }),
        Err(_) => Ok(StaticDirective {
            target: Some(copy_of(alloc, text)?),
            field_names: Items::new(alloc),
            level: LevelFilter::TRACE,
        }),
    }
}

fn static_with_equals(
    alloc: Global,
    front: &str,
    level: &str,
) -> Result<StaticDirective, ParseError>
    ensures { ReadsOrFails result (static_with_equals front.now level.now) }
{
    let (target, field_names) = target_and_names(alloc, front)?;
    let level = level_filter(level)?;
    Ok(StaticDirective {
        target: Some(target),
        field_names,
        level,
    })
}

fn target_and_names(alloc: Global, front: &str) -> Result<(Text, Items<Text>), ParseError>
    ensures { ReadsOrFails result (front_of front.now) }
{
    match front.split_once("[{") {
        Some((target, fields)) => front_with_names(alloc, target, fields),
        None => front_without_names(alloc, front),
    }
}

fn front_with_names(
    alloc: Global,
    target: &str,
    fields: &str,
) -> Result<(Text, Items<Text>), ParseError>
    ensures { ReadsOrFails result (front_with_names target.now fields.now) }
{
    let names = names_between(alloc, fields)?;
    Ok((copy_of(alloc, target)?, names))
}

fn front_without_names(alloc: Global, target: &str) -> Result<(Text, Items<Text>), ParseError>
    ensures { ReadsOrFails result (Ok (target.now, [])) }
{
    Ok((copy_of(alloc, target)?, Items::new(alloc)))
}

fn names_between(alloc: Global, fields: &str) -> Result<Items<Text>, ParseError>
    ensures { ReadsOrFails result (names_of fields.now) }
{
    if fields.contains("[{") {
        return Err(ParseError::Fields { many: true });
    }
    if !fields.ends_with("}]") {
        return Err(ParseError::Fields { many: false });
    }
    nonempty(alloc, fields.trim_end_matches("}]"))
}

fn nonempty(alloc: Global, list: &str) -> Result<Items<Text>, ParseError>
    ensures { ReadsOrFails result (Ok (nonempty (comma_pieces list.now))) }
{
    let mut names = Items::new(alloc);
    for name in list.split(',') {
        if !name.is_empty() {
            names.push(copy_of(alloc, name)?)?;
        }
    }
    Ok(names)
}

fn level_filter(text: &str) -> Result<LevelFilter, ParseError>
    ensures { ReadsOrFails result (level_behind_equals text.now) }
{
    match text.parse::<LevelFilter>() {
        Ok(level) => Ok(level),
        Err(_) => Err(ParseError::Level),
    }
}

fn copy_of(alloc: Global, text: &str) -> Result<Text, ParseError>
    ensures { ReadsOrFails result (Ok text.now) }
{
    Ok(text_of(alloc, text)?)
}

impl MadeWith<Global> for StaticDirective {
    fn made_with(alloc: Global) -> StaticDirective {
        StaticDirective::default(alloc)
    }
}

/// It speaks of the callsites whose target begins with its own and, of events, of those that declare all its fields.
impl Match for StaticDirective {
    ghost cares = { cares };

    ghost level_of = { λ d. d.level };

    fn cares_about(&self, callsite: &Callsite) -> bool {
        self.covers(callsite.target.as_str())
            && (callsite.kind == Kind::Span || declares(callsite, self.field_names.as_slice()))
    }

    fn level(&self) -> LevelFilter {
        self.level
    }
}

fn declares(callsite: &Callsite, names: &[Text]) -> bool
    ensures { result ≡ declares_all callsite.now names.now }
{
    for name in names {
        if !callsite.fields.as_slice().contains(name) {
            return false;
        }
    }
    true
}

/// As `app[{a,b}]=info`; a level without a target and without field names prints by itself.
impl fmt::Display for StaticDirective {
    ghost output = { λ d. Some (static_text d) };

    fn fmt<W: fmt::Write>(&self, f: &mut fmt::Formatter<W>) -> fmt::Result {
        let names = Names(self.field_names.as_slice());
        let level = self.level;
        match (&self.target, names.0.is_empty()) {
            (Some(target), true) => write!(f, "{}={level}", target.as_str()),
            (Some(target), false) => write!(f, "{}[{{{names}}}]={level}", target.as_str()),
            (None, true) => write!(f, "{level}"),
            (None, false) => write!(f, "[{{{names}}}]={level}"),
        }
    }
}

// Names of fields, with commas between them.
#[derive(Drop)]
struct Names<'a>(&'a [Text]);

impl<'a> fmt::Display for Names<'a> {
    ghost output = { λ n. Some (comma_joined n.0.now) };

    fn fmt<W: fmt::Write>(&self, f: &mut fmt::Formatter<W>) -> fmt::Result {
        let Some((first, others)) = self.0.split_first() else {
            return Ok(());
        };
        f.write_str(first.as_str())?;
        write_others(f, others)
    }
}

// Each name behind a comma.
fn write_others<W: fmt::Write>(f: &mut fmt::Formatter<W>, names: &[Text]) -> fmt::Result
    ensures { WritesOnOk W.write_str_gives f.old result (flat_map (λ other. 44 ∷ other) names.now) f.new }
{
    for name in names {
        write!(f, ",{}", name.as_str())?;
    }
    Ok(())
}

/// The level isn't compared: a directive that differs from another in its level alone takes its place.
impl PartialEq for StaticDirective {
    ghost eq = { eq_by_cmp most_specific_first };

    ghost laws = { Prim.search (comparing, rules) depth 9 };

    fn eq(&self, other: &StaticDirective) -> bool {
        self.cmp(other).is_eq()
    }
}

impl Eq for StaticDirective {
    ghost laws = { Prim.search (comparing, rules) depth 9 };
}

/// The more specific one is less, so that it comes first where directives are sorted.
impl Ord for StaticDirective {
    ghost cmp = { most_specific_first };

    ghost total = { Prim.search (comparing, rules) depth 9 };

    ghost matches_partial_cmp = { Prim.search (comparing, rules) };

    ghost matches_eq = { Prim.search (comparing, rules) depth 9 };

    fn cmp(&self, other: &StaticDirective) -> Ordering {
        other.specificity_cmp(self)
    }
}

impl PartialOrd for StaticDirective {
    ghost partial_cmp = { as_partial_cmp most_specific_first };

    ghost laws = { partial_order_from_own_ties (Prim.search (comparing, rules) depth 9)
        (Prim.search (comparing, rules) depth 9) };

    fn partial_cmp(&self, other: &StaticDirective) -> Option<Ordering> {
        Some(self.cmp(other))
    }
}

/// Why a text is no directive; `tracing_subscriber::filter::ParseError`, with its cause to be seen.
#[derive(Clone, Copy, Debug, PartialEq, Eq, Error)]
pub enum ParseError {
    /// The text has no form of a directive.
    #[error("invalid filter directive")]
    Shape,
    /// What stands behind an `=` is no level.
    #[error("invalid level filter")]
    Level,
    /// A field has no name.
    #[error("invalid filter directive")]
    Field,
    /// A field's value is no pattern.
    #[error("invalid field filter: not a pattern")]
    Pattern,
    /// A directive of targets has more than one `=`.
    #[error("invalid filter directive: too many '=' in filter directive, expected 0 or 1")]
    Equals,
    /// A directive of targets has more than one list of fields (`many`), or one that doesn't end.
    #[error("invalid filter directive: {}", fields_fault(.many))]
    Fields { many: bool },
    /// No memory was to be had.
    #[error("out of memory")]
    Memory,
}

fn fields_fault(many: &bool) -> &'static str {
    if *many {
        "too many '[{' in filter directive, expected 0 or 1"
    } else {
        "expected fields list to end with '}]'"
    }
}

impl From<Memory> for ParseError {
    ghost from_gives = { λ _ e. e ≡ OutOfMemory };

    fn from(_error: Memory) -> ParseError {
        ParseError::Memory
    }
}

impl From<AllocError> for ParseError {
    ghost from_gives = { λ _ e. e ≡ OutOfMemory };

    fn from(_error: AllocError) -> ParseError {
        ParseError::Memory
    }
}

impl<T: Drop> From<AllocFailed<T>> for ParseError {
    ghost from_gives = { λ _ e. e ≡ OutOfMemory };

    fn from(_error: AllocFailed<T>) -> ParseError {
        ParseError::Memory
    }
}
