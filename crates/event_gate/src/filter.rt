//! The filter of a text.
ghost use Rattle.std.specs.Prelude.{◌≡◌, ◌||◌, [], Some, IfOk, IfErr};
ghost use Rattle.trace_base.specs.Gate.{gate};
ghost use Rattle.env_filter.specs.Filtering.{plain_filter, IsNewFilter, interest_in, hint_in, enables_in};
ghost use Rattle.trace_base.specs.words.Level.{is_within};
ghost use Rattle.event_gate.specs.Rules.{fixed_text_filter, gate_rule, is_within_some, IsTextFilter, GivesGate};

use crate::error::GateError;
use env_directives::directive::ParseError;
use env_filter::EnvFilter;
use otel_base::text::Text;
use std::alloc::Global;
use std::marker::Model;
use trace_base::callsite::Callsite;
use trace_base::discard::Discard;
use trace_base::level::{Level, LevelFilter};
use trace_base::subscriber::Interest;

/// A text with its filter, which takes no patterns and hears of no span. Contracts see it as its text.
pub struct TextFilter {
    text: Text,
    filter: EnvFilter,
}

/// It gives the filter up, whose parts are let go where it is made, so that no crate above it proves that anew.
impl Drop for TextFilter {
    fn drop(self) {
        let TextFilter {
            text: _text,
            filter,
        } = self;
        filter.discard();
    }
}

impl Model for TextFilter {
    ghost use Rattle.std.specs.Prelude.{List, ℕ};
    ghost use Rattle.event_gate.specs.Rules.{IsTextFilter};

    ghost Value = { List ℕ };

    ghost view = { λ t. t.text };

    ghost invariant = { λ t. ∥ IsTextFilter t.text t.filter ∥₁ };
}

impl TextFilter {
    /// The filter of a text. `Directive` exactly at the first piece that is no directive.
    pub fn read(alloc: Global, text: &str) -> Result<TextFilter, GateError>
        ensures ok { IfOk result (λ t. t ≡ text.now) }
        ensures refused { GivesGate text.now result }
    {
        // The text comes first: it is let go more cheaply than a filter.
        let kept = Text::from_str(alloc, text)?;
        let filter = filter_of(alloc, text)?;
        Ok(TextFilter { text: kept, filter })
    }

    /// The text.
    pub fn as_str(&self) -> &str
        ensures { result.now ≡ self.now }
    {
        self.text.as_str()
    }

    /// Whether a callsite is let through by the text, or by one of the levels. It takes no memory.
    pub fn admits(&self, c: &Callsite, levels: &[LevelFilter]) -> bool
        ensures { result ≡ gate_rule (fixed_text_filter self.now) levels.now c.now }
    {
        lets_through(&self.filter, c, levels)
    }
}

// The filter of a text, without patterns.
#[tactic(auto, using(crate::proofs::Texts::first_fault))]
fn filter_of(alloc: Global, text: &str) -> Result<EnvFilter, GateError>
    ensures ok { IfOk result (λ f. IsTextFilter text.now f) }
    ensures refused { GivesGate text.now result }
{
    match EnvFilter::parse_fixed(alloc, text) {
        Ok(filter) => Ok(filter),
        Err((_, ParseError::Memory)) => Err(GateError::Memory),
        Err((piece, _)) => Err(GateError::Directive { piece }),
    }
}

// Whether a callsite is let through by a filter on a lane without levels, or by levels.
fn lets_through(filter: &EnvFilter, callsite: &Callsite, levels: &[LevelFilter]) -> bool
    ensures { result ≡ (is_within_some callsite.now.level levels.now
        || gate (interest_in (plain_filter filter.now) callsite.now) (Some (hint_in (plain_filter filter.now)))
        (enables_in (plain_filter filter.now) 0 callsite.now) callsite.now.level) }
{
    is_within_some(callsite.level, levels) || takes(filter, callsite)
}

fn takes(filter: &EnvFilter, callsite: &Callsite) -> bool
    ensures { result ≡ gate (interest_in (plain_filter filter.now) callsite.now) (Some (hint_in (plain_filter filter.now)))
        (enables_in (plain_filter filter.now) 0 callsite.now) callsite.now.level }
{
    match filter.register_callsite(callsite) {
        Interest::Never => false,
        Interest::Sometimes => hint_allows(filter, callsite.level) && filter.enabled(0, callsite),
        Interest::Always => hint_allows(filter, callsite.level),
    }
}

fn hint_allows(filter: &EnvFilter, level: Level) -> bool
    ensures { result ≡ is_within level (hint_in (plain_filter filter.now)) }
{
    match filter.max_level_hint() {
        Some(hint) => hint.lets_through(level),
        None => true,
    }
}

fn is_within_some(level: Level, levels: &[LevelFilter]) -> bool
    ensures { result ≡ is_within_some level levels.now }
{
    levels.iter().any(|filter| filter.lets_through(level))
}
