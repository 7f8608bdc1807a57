//! Reading a directive from its text, one cut after the other.
ghost use Rattle.std.specs.Prelude.{◌≡◌, [], IfOk, Some, false, true};
ghost use Rattle.env_directives.specs.reading.Forms.{begins_as_directive, may_begin, head_alone, directive_of_target, level_behind, unless_empty};
ghost use Rattle.env_directives.specs.reading.Reading.{AnswersRead, read_nothing_more, read_level, LeadsToRefusedPattern, SpanLeadsToRefusedPattern, read_level_if_any, read_close, read_fields, read_fielded, read_bracket, read_directive};
ghost use Rattle.trace_base.specs.declared.level.LevelFilter.TheVariants.{TRACE};
ghost use Rattle.env_directives.specs.reading.Faults.{HasRefusedPattern};
ghost use Rattle.env_directives.specs.reading.Values.{HavePatterns};

use crate::directive::ParseError;
use crate::env::cut::cut;
use crate::env::directive::Directive;
use crate::env::field::{Match, text_of};
use otel_base::list::Items;
use otel_base::memory::Memory;
use otel_base::text::Text;
use std::alloc::Global;
use trace_base::level::LevelFilter;
use unicode::properties::{GeneralCategory, GeneralCategoryGroup, is_alphabetic};

// Reads a text without white space at its ends.
#[tactic(auto, unfolding(crate::specs::reading::Reading::read_directive))]
pub(super) fn read(alloc: Global, text: &str, patterns: bool) -> Result<Directive, ParseError>
    ensures is { AnswersRead (λ d. d) patterns (HasRefusedPattern text.now) result (read_directive patterns text.now) }
    ensures patterns { IfOk result (λ d. HavePatterns d.fields) }
{
    if !begins_as_directive(text) {
        return Err(ParseError::Shape);
    }
    let pieces = cut(text, b"=[,");
    match pieces.stop {
        None => Ok(head_alone(alloc, pieces.front)?),
        Some(b',') => read_nothing_more(head_alone(alloc, pieces.front)?, pieces.rest),
        Some(b'=') => read_level(directive_of_target(alloc, pieces.front)?, pieces.rest),
        Some(_) => read_bracket(
            alloc,
            directive_of_target(alloc, pieces.front)?,
            pieces.rest,
            patterns,
        ),
    }
}

// Whether a directive may begin as the text does.
fn begins_as_directive(text: &str) -> bool
    ensures { result ≡ begins_as_directive text.now }
{
    match text.chars().next() {
        Some(first) => may_begin(first),
        None => false,
    }
}

fn may_begin(first: char) -> bool
    ensures { result ≡ may_begin first }
{
    match first {
        '[' | '-' | ':' | '_' => true,
        _ => {
            is_alphabetic(first)
                || GeneralCategoryGroup::Number.contains(GeneralCategory::for_char(first))
        }
    }
}

// A head alone: a level, or else a target at TRACE.
fn head_alone(alloc: Global, head: &str) -> Result<Directive, Memory>
    ensures { IfOk result (λ d. d ≡ head_alone head.now) }
{
    match head.parse::<LevelFilter>() {
        Ok(level) => Ok(Directive {
            in_span: None,
            fields: Items::new(alloc),
            target: None,
            level,
        }),
        Err(_) => directive_of_target(alloc, head),
    }
}

// The directive at TRACE for the targets that begin with a text, for all if it is empty.
fn directive_of_target(alloc: Global, head: &str) -> Result<Directive, Memory>
    ensures { IfOk result (λ d. d ≡ directive_of_target head.now TRACE) }
{
    Ok(Directive {
        in_span: None,
        fields: Items::new(alloc),
        target: unless_empty(alloc, head)?,
        level: LevelFilter::TRACE,
    })
}

fn unless_empty(alloc: Global, text: &str) -> Result<Option<Text>, Memory>
    ensures { IfOk result (λ t. t ≡ unless_empty text.now) }
{
    if text.is_empty() {
        return Ok(None);
    }
    Ok(Some(text_of(alloc, text)?))
}

// Nothing may stand behind a last comma.
#[tactic(auto, unfolding(crate::specs::reading::Reading::read_nothing_more))]
fn read_nothing_more(directive: Directive, rest: &str) -> Result<Directive, ParseError>
    ensures { AnswersRead (λ d. d) false ⊥ result (read_nothing_more directive rest.now) }
{
    if rest.is_empty() {
        Ok(directive)
    } else {
        Err(ParseError::Shape)
    }
}

// Behind `=`: a level, and perhaps a comma.
#[tactic(auto, unfolding(crate::specs::reading::Reading::read_level))]
fn read_level(directive: Directive, text: &str) -> Result<Directive, ParseError>
    ensures { AnswersRead (λ d. d) false ⊥ result (read_level directive text.now) }
{
    let pieces = cut(text, b",");
    let Some(level) = level_behind(pieces.front) else {
        return Err(ParseError::Level);
    };
    let directive = Directive { level, ..directive };
    match pieces.stop {
        None => Ok(directive),
        Some(_) => read_nothing_more(directive, pieces.rest),
    }
}

// The level of a text behind `=`, TRACE where it is empty.
fn level_behind(text: &str) -> Option<LevelFilter>
    ensures { result ≡ level_behind text.now }
{
    if text.is_empty() {
        return Some(LevelFilter::TRACE);
    }
    text.parse::<LevelFilter>().ok()
}

// Behind a bracket: the end, or a level.
#[tactic(auto, unfolding(crate::specs::reading::Reading::read_level_if_any))]
fn read_level_if_any(directive: Directive, rest: &str) -> Result<Directive, ParseError>
    ensures { AnswersRead (λ d. d) false ⊥ result (read_level_if_any directive rest.now) }
{
    if rest.is_empty() {
        return Ok(directive);
    }
    match rest.strip_prefix('=') {
        Some(level) => read_level(directive, level),
        None => Err(ParseError::Shape),
    }
}

// Behind a closing brace: the closing bracket.
#[tactic(auto, unfolding(crate::specs::reading::Reading::read_close))]
fn read_close(directive: Directive, rest: &str) -> Result<Directive, ParseError>
    ensures { AnswersRead (λ d. d) false ⊥ result (read_close directive rest.now) }
{
    match rest.strip_prefix(']') {
        Some(rest) => read_level_if_any(directive, rest),
        None => Err(ParseError::Shape),
    }
}

// Behind an opening bracket: the name of a span, perhaps fields, and the rest.
#[tactic(auto, unfolding(crate::specs::reading::Reading::read_bracket))]
fn read_bracket(
    alloc: Global,
    directive: Directive,
    text: &str,
    patterns: bool,
) -> Result<Directive, ParseError>
    ensures is { AnswersRead (λ d. d) patterns (SpanLeadsToRefusedPattern text.now) result (read_bracket patterns directive text.now) }
    ensures patterns { HavePatterns directive.fields → IfOk result (λ d. HavePatterns d.fields) }
{
    let pieces = cut(text, b"]{");
    match pieces.stop {
        None => Err(ParseError::Shape),
        Some(b']') => read_named(alloc, directive, pieces.front, pieces.rest),
        Some(_) => read_fielded(alloc, directive, pieces.front, pieces.rest, patterns),
    }
}

// Behind the closing bracket of a span without fields.
fn read_named(
    alloc: Global,
    directive: Directive,
    span: &str,
    rest: &str,
) -> Result<Directive, ParseError>
    ensures { AnswersRead (λ d. d) false ⊥ result (read_level_if_any (record directive { in_span = Some span.now }) rest.now) }
{
    let in_span = Some(text_of(alloc, span)?);
    read_level_if_any(
        Directive {
            in_span,
            ..directive
        },
        rest,
    )
}

// Behind the opening brace of a span's fields.
fn read_fielded(
    alloc: Global,
    directive: Directive,
    span: &str,
    rest: &str,
    patterns: bool,
) -> Result<Directive, ParseError>
    ensures is { AnswersRead (λ d. d) patterns (LeadsToRefusedPattern rest.now) result (read_fielded (record directive { in_span = unless_empty span.now }) (read_fields patterns [] rest.now)) }
    ensures patterns { IfOk result (λ d. HavePatterns d.fields) }
{
    let in_span = unless_empty(alloc, span)?;
    let (fields, rest) = read_fields(alloc, rest, patterns)?;
    read_close(
        Directive {
            in_span,
            fields,
            ..directive
        },
        rest,
    )
}

// The fields up to their closing brace, and what stands behind it.
fn read_fields<'t>(
    alloc: Global,
    text: &'t str,
    patterns: bool,
) -> Result<(Items<Match>, &'t str), ParseError>
    ensures is { AnswersRead (λ r. (r.0, r.1.now)) patterns (LeadsToRefusedPattern text.now) result (read_fields patterns [] text.now) }
    ensures patterns { IfOk result (λ r. HavePatterns r.0) }
{
    let mut fields = Items::new(alloc);
    let mut text = text;
    'fields: loop {
        let pieces = cut(text, b",}");
        let Some(stop) = pieces.stop else {
            return Err(ParseError::Shape);
        };
        if pieces.front.is_empty() {
            return Err(ParseError::Field);
        }
        fields.push(Match::parse(alloc, pieces.front, patterns)?)?;
        text = pieces.rest;
        if stop == b'}' {
            return Ok((fields, text));
        }
    }
}
