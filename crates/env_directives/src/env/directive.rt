//! Directives: `target[span{field=value}]=level`.
ghost use Rattle.std.specs.Prelude.{◌≡◌, [], ◌++◌, IfOk, Some, false, codes, flat_map, length, option_map, IfErr, true, map, bytes_eq};
ghost use Rattle.std.specs.Fmt.{WritesOnOk};
ghost use Rattle.std.proofs.Common.{rules};
ghost use Rattle.std.specs.Cmp.Rules.{comparing};
ghost use Rattle.env_directives.specs.orders.DirectiveOrder.{reach_cmp, parts_cmp};
ghost use Rattle.env_directives.specs.reading.Forms.{directive_of_target, IsDirective};
ghost use Rattle.env_directives.specs.printed.Printed.{match_text, text_if_any, fields_text, has_bracket, bracket_text, equals_text, directive_text};
ghost use Rattle.trace_base.specs.words.Level.{filter_of_level};
ghost use Rattle.trace_base.specs.declared.level.LevelFilter.TheVariants.{OFF};
ghost use Rattle.std.specs.Option.{option_map_or};
ghost use Rattle.env_directives.specs.Cares.{declares_all, cares_for_span};
ghost use Rattle.std.specs.Str.{trim};
ghost use Rattle.env_directives.specs.reading.Faults.{HasFault};

use crate::directive::{self, ParseError, begins_with};
use crate::env::directive::parse::read;
use crate::env::field::Match;
use otel_base::list::Items;
use otel_base::memory::Memory;
use otel_base::text::Text;
use std::alloc::Global;
use std::cmp::Ordering;
use std::default::MadeWith;
use std::fmt;
use trace_base::callsite::{Callsite, Kind};
use trace_base::level::{Level, LevelFilter};

mod parse;

/// What part of a program is traced, and how verbosely; `tracing_subscriber::filter::Directive`.
#[derive(Clone, Drop)]
pub struct Directive {
    /// The name of the spans that it speaks of, any if there is none.
    pub in_span: Option<Text>,
    /// What it asks of the fields of those spans.
    pub fields: Items<Match>,
    /// What the targets that it speaks of begin with, any if there is none.
    pub target: Option<Text>,
    /// The most verbose level that it lets through.
    pub level: LevelFilter,
}

impl Directive {
    /// What the targets that it speaks of begin with, if that is said.
    pub fn target(&self) -> Option<&str>
        ensures { option_map (λ t. t.now) result ≡ self.now.target }
    {
        self.target.as_ref().map(|target| target.as_str())
    }

    /// The name of the spans that it speaks of, if that is said.
    pub fn in_span(&self) -> Option<&str>
        ensures { option_map (λ t. t.now) result ≡ self.now.in_span }
    {
        self.in_span.as_ref().map(|name| name.as_str())
    }

    /// What it asks of the fields of those spans.
    pub fn fields(&self) -> &[Match]
        ensures { result.now ≡ self.now.fields }
    {
        self.fields.as_slice()
    }

    /// The most verbose level that it lets through.
    pub fn level(&self) -> LevelFilter
        ensures { result ≡ self.now.level }
    {
        self.level
    }

    /// A directive for everything at a level; `From<Level>` of tracing-subscriber's type.
    pub fn from_level(alloc: Global, level: Level) -> Directive
        ensures { result ≡ directive_of_target [] (filter_of_level level) }
    {
        Directive::from_filter(alloc, LevelFilter::from_level(level))
    }

    /// A directive for everything at a level; `From<LevelFilter>` of tracing-subscriber's type.
    pub fn from_filter(alloc: Global, level: LevelFilter) -> Directive
        ensures { result ≡ directive_of_target [] level }
    {
        Directive {
            in_span: None,
            fields: Items::new(alloc),
            target: None,
            level,
        }
    }

    /// A directive that lets nothing through; `Default` of tracing-subscriber's type.
    pub fn default(alloc: Global) -> Directive
        ensures { result ≡ directive_of_target [] OFF }
    {
        Directive::from_filter(alloc, LevelFilter::OFF)
    }

    /// The same directive once more, with the same level; `Memory` where there is none for it. Its patterns share what
    /// they were compiled to. It stands for the `Clone` of tracing-subscriber's type.
    pub fn clone_directive(&self) -> Result<Directive, Memory>
        ensures { IfOk result (λ d. d ≡ self.now) }
    {
        Ok(Directive {
            in_span: self.in_span.clone()?,
            fields: self.fields.clone()?,
            target: self.target.clone()?,
            level: self.level,
        })
    }

    // How many bytes the target has.
    fn target_len(&self) -> Option<usize>
        ensures { result ≡ option_map length self.now.target }
    {
        self.target.as_ref().map(|target| target.as_str().len())
    }

    // Whether it speaks of spans.
    fn has_bracket(&self) -> bool
        ensures { result ≡ has_bracket self.now }
    {
        self.in_span.is_some() || !self.fields.as_slice().is_empty()
    }

    // How much a directive asks beside another.
    fn reach_cmp(&self, other: &Directive) -> Ordering
        ensures { result ≡ reach_cmp self.now other.now }
    {
        self.target_len()
            .cmp(&other.target_len())
            .then(self.in_span.is_some().cmp(&other.in_span.is_some()))
            .then(
                self.fields
                    .as_slice()
                    .len()
                    .cmp(&other.fields.as_slice().len()),
            )
    }

    // The order of two directives that ask as much.
    fn parts_cmp(&self, other: &Directive) -> Ordering
        ensures { result ≡ parts_cmp self.now other.now }
    {
        self.target
            .cmp(&other.target)
            .then(self.in_span.cmp(&other.in_span))
            .then(self.fields.as_slice().cmp(other.fields.as_slice()))
    }
}

impl Directive {
    /// Reads `target[span{field,field=value}]=level`, of which parts may be left out. The error is a fault of the text,
    /// without `patterns` the first from the left; `Pattern` comes only with them, at the value of a text. It stands for
    /// the parser behind `tracing_subscriber::filter::env::Builder::parse`.
    pub fn parse(alloc: Global, text: &str, patterns: bool) -> Result<Directive, ParseError>
        ensures ok { IfOk result (IsDirective patterns (trim text.now)) }
        ensures fault { IfErr result (HasFault patterns (trim text.now)) }
    {
        read(alloc, text.trim(), patterns)
    }

    /// Reads a directive with patterns; `FromStr` of `tracing_subscriber::filter::Directive`.
    pub fn from_str(alloc: Global, text: &str) -> Result<Directive, ParseError>
        ensures ok { IfOk result (IsDirective true (trim text.now)) }
        ensures fault { IfErr result (HasFault true (trim text.now)) }
    {
        Directive::parse(alloc, text, true)
    }
}

/// It speaks of the spans within its target that have its span name, if it has one, and declare all its fields.
impl directive::Match for Directive {
    ghost cares = { cares_for_span };

    ghost level_of = { λ d. d.level };

    fn cares_about(&self, callsite: &Callsite) -> bool {
        callsite.kind == Kind::Span
            && begins_with(&self.target, callsite.target.as_str())
            && self.matches_span_name(callsite)
            && declares(callsite, self.fields.as_slice())
    }

    fn level(&self) -> LevelFilter {
        self.level
    }
}

impl Directive {
    fn matches_span_name(&self, callsite: &Callsite) -> bool
        ensures { result ≡ option_map_or (λ name. bytes_eq callsite.now.name name) self.now.in_span true }
    {
        match &self.in_span {
            Some(name) => callsite.name == *name,
            None => true,
        }
    }
}

fn declares(callsite: &Callsite, fields: &[Match]) -> bool
    ensures { result ≡ declares_all callsite.now (map (λ field. field.name) fields.now) }
{
    for field in fields {
        if !callsite.fields.as_slice().contains(&field.name) {
            return false;
        }
    }
    true
}

impl MadeWith<Global> for Directive {
    fn made_with(alloc: Global) -> Directive {
        Directive::default(alloc)
    }
}

impl fmt::Display for Directive {
    ghost output = { λ d. Some (directive_text d) };

    fn fmt<W: fmt::Write>(&self, f: &mut fmt::Formatter<W>) -> fmt::Result {
        write_if_any(f, &self.target)?;
        write_bracket(f, self)?;
        write_equals(f, self)?;
        f.write_str(self.level.as_str())
    }
}

// A span name and fields in brackets, where there is one of them.
fn write_bracket<W: fmt::Write>(f: &mut fmt::Formatter<W>, directive: &Directive) -> fmt::Result
    ensures { WritesOnOk W.write_str_gives f.old result (bracket_text directive.now) f.new }
{
    if !directive.has_bracket() {
        return Ok(());
    }
    f.write_str("[")?;
    write_if_any(f, &directive.in_span)?;
    write_fields(f, directive.fields.as_slice())?;
    f.write_str("]")
}

fn write_equals<W: fmt::Write>(f: &mut fmt::Formatter<W>, directive: &Directive) -> fmt::Result
    ensures { WritesOnOk W.write_str_gives f.old result (equals_text directive.now) f.new }
{
    if directive.target.is_some() || directive.has_bracket() {
        f.write_str("=")
    } else {
        Ok(())
    }
}

fn write_if_any<W: fmt::Write>(f: &mut fmt::Formatter<W>, text: &Option<Text>) -> fmt::Result
    ensures { WritesOnOk W.write_str_gives f.old result (text_if_any text.now) f.new }
{
    match text {
        Some(text) => f.write_str(text.as_str()),
        None => Ok(()),
    }
}

// Fields in braces, where there are any.
fn write_fields<W: fmt::Write>(f: &mut fmt::Formatter<W>, fields: &[Match]) -> fmt::Result
    ensures { WritesOnOk W.write_str_gives f.old result (fields_text fields.now) f.new }
{
    let Some((first, rest)) = fields.split_first() else {
        return Ok(());
    };
    f.write_str("{")?;
    fmt::Display::fmt(first, f)?;
    write_more_fields(f, rest)?;
    f.write_str("}")
}

// Each field behind a comma.
fn write_more_fields<W: fmt::Write>(f: &mut fmt::Formatter<W>, fields: &[Match]) -> fmt::Result
    ensures { WritesOnOk W.write_str_gives f.old result (flat_map (λ field. codes "," ++ match_text field) fields.now) f.new }
{
    for field in fields {
        write_more(f, field)?;
    }
    Ok(())
}

fn write_more<W: fmt::Write>(f: &mut fmt::Formatter<W>, field: &Match) -> fmt::Result
    ensures { WritesOnOk W.write_str_gives f.old result (codes "," ++ match_text field.now) f.new }
{
    f.write_str(",")?;
    fmt::Display::fmt(field, f)
}

/// By target, span name and fields: the level isn't read.
impl PartialEq for Directive {
    ghost use Rattle.std.specs.Ordering.{eq_by_cmp};
    ghost use Rattle.std.specs.Cmp.{eq_by_cmp_equiv, partial_equiv_from_equiv};
    ghost use Rattle.env_directives.specs.orders.DirectiveOrder.{directive_cmp};
    ghost use Rattle.env_directives.specs.laws.DirectiveLemmas.{directive_total};

    ghost eq = { eq_by_cmp directive_cmp };

    ghost laws = { partial_equiv_from_equiv (eq_by_cmp_equiv directive_total) };

    fn eq(&self, other: &Directive) -> bool {
        self.cmp(other).is_eq()
    }
}

impl Eq for Directive {
    ghost use Rattle.std.specs.Cmp.{eq_by_cmp_equiv};
    ghost use Rattle.env_directives.specs.laws.DirectiveLemmas.{directive_total};

    ghost laws = { eq_by_cmp_equiv directive_total };
}

/// The most specific directive is the least, and so a sort puts it first: the longer target, then a span name, then the
/// more fields. The level isn't read.
impl Ord for Directive {
    ghost use Rattle.env_directives.specs.orders.DirectiveOrder.{directive_cmp};
    ghost use Rattle.env_directives.specs.laws.DirectiveLemmas.{directive_total};

    ghost cmp = { directive_cmp };

    ghost total = { directive_total };

    ghost matches_partial_cmp = { Prim.search (comparing, rules) };

    ghost matches_eq = { Prim.search (comparing, rules) };

    fn cmp(&self, other: &Directive) -> Ordering {
        other.reach_cmp(self).then(other.parts_cmp(self))
    }
}

impl PartialOrd for Directive {
    ghost use Rattle.std.specs.Ordering.{as_partial_cmp};
    ghost use Rattle.std.specs.Cmp.{partial_order_from_total};
    ghost use Rattle.env_directives.specs.orders.DirectiveOrder.{directive_cmp};
    ghost use Rattle.env_directives.specs.laws.DirectiveLemmas.{directive_total};

    ghost partial_cmp = { as_partial_cmp directive_cmp };

    ghost laws = { partial_order_from_total directive_total };

    fn partial_cmp(&self, other: &Directive) -> Option<Ordering> {
        Some(self.cmp(other))
    }
}
