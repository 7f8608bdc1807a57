//! What filters are built by.
ghost use Rattle.std.specs.Prelude.{◌≡◌, [], List, ℕ, Some, IfOk, IfErr, OnOk, string_bytes};
ghost use Rattle.env_filter.specs.texts.Building.{BuilderValue, default_builder, filter_by, IsFilterOf, IsSomeFilterOf, HasFilterFault, HasFilterFaultAt};
ghost use Rattle.env_filter.specs.Filtering.{plain_filter, IsNewFilter};
ghost use Rattle.env_filter.specs.Tables.{or_default, with_directive};

use crate::filter::EnvFilter;
use crate::pieces::{self, Ignored};
use crate::tables;
use env_directives::directive::ParseError;
use env_directives::env::directive::Directive;
use otel_base::memory::Memory;
use otel_base::text::Text;
use std::alloc::Global;
use std::marker::Model;

pub mod env;

/// What a filter is built by; `tracing_subscriber::filter::Builder`.
#[derive(Drop)]
pub struct Builder {
    alloc: Global,
    patterns: bool,
    default_directive: Option<Directive>,
    env: Option<Text>,
}

impl Model for Builder {
    ghost use Rattle.std.specs.Prelude.{codes};
    ghost use Rattle.std.specs.Option.{unwrap_or};
    ghost use Rattle.env_filter.specs.texts.Building.{BuilderValue};

    ghost Value = { BuilderValue };

    ghost view = { λ b. record { patterns = b.patterns; default = b.default_directive; variable = unwrap_or b.env (codes "RUST_LOG") } };
}

impl Builder {
    /// A builder that takes patterns, has no default directive, and reads `RUST_LOG`; `Builder::default`.
    pub fn default(alloc: Global) -> Builder
        ensures { result ≡ default_builder }
    {
        Builder {
            alloc,
            patterns: true,
            default_directive: None,
            env: None,
        }
    }

    /// Whether the texts of values are patterns, or have to be met as they stand; `Builder::with_regex`.
    pub fn with_regex(self, on: bool) -> Builder
        ensures { result ≡ record self { patterns = on } }
    {
        let mut builder = self;
        builder.patterns = on;
        builder
    }

    /// The directive of a filter that would have none; `Builder::with_default_directive`.
    pub fn with_default_directive(self, directive: Directive) -> Builder
        ensures { result ≡ record self { default = Some directive } }
    {
        let mut builder = self;
        builder.default_directive = Some(directive);
        builder
    }

    /// The name of the variable that is read; `Builder::with_env_var`.
    pub fn with_env_var(self, name: String) -> Builder
        ensures { result ≡ record self { variable = string_bytes name } }
    {
        let mut builder = self;
        builder.env = Some(Text::from(name));
        builder
    }

    /// The filter of a text, each piece of which has to be a directive; `Builder::parse`. The error is the fault of the
    /// first piece that is none.
    pub fn parse(&self, dirs: &str) -> Result<EnvFilter, ParseError>
        ensures ok { IfOk result (λ f. IsFilterOf self.now dirs.now [] (plain_filter f)) }
        ensures new { IfOk result (λ f. IsNewFilter (plain_filter f)) }
        ensures refused { IfErr result (HasFilterFault self.now.patterns dirs.now) }
    {
        match self.parse_pieces(dirs) {
            Ok(filter) => Ok(filter),
            Err((_, fault)) => Err(fault),
        }
    }

    /// The same, with the number of the piece that has the fault, from 1, and 0 for `Memory`. Empty pieces count.
    pub fn parse_pieces(&self, dirs: &str) -> Result<EnvFilter, (u64, ParseError)>
        ensures ok { IfOk result (λ f. IsFilterOf self.now dirs.now [] (plain_filter f)) }
        ensures new { IfOk result (λ f. IsNewFilter (plain_filter f)) }
        ensures refused { IfErr result (λ e. HasFilterFaultAt self.now.patterns dirs.now e.0 e.1) }
    {
        match self.parse_lossy(dirs) {
            Ok((filter, ignored)) => unless_ignored(filter, ignored.as_slice()),
            Err(Memory) => Err((0, ParseError::Memory)),
        }
    }

    /// The filter of those pieces of a text that are directives, and the others; `Builder::parse_lossy`.
    pub fn parse_lossy(&self, dirs: &str) -> Result<(EnvFilter, Vec<Ignored>), Memory>
        ensures ok { IfOk result (λ r. IsFilterOf self.now dirs.now r.1.items (plain_filter r.0)) }
        ensures new { IfOk result (λ r. IsNewFilter (plain_filter r.0)) }
    {
        let (directives, ignored) = pieces::read(self.alloc, dirs, self.patterns)?;
        Ok((self.from_directives(directives)?, ignored))
    }

    // The filter of those pieces of a text that are directives.
    pub(crate) fn parse_some(self, dirs: &str) -> Result<EnvFilter, Memory>
        ensures ok { IfOk result (λ f. IsSomeFilterOf self dirs.now (plain_filter f)) }
        ensures new { IfOk result (λ f. IsNewFilter (plain_filter f)) }
    {
        let read = self.parse_lossy(dirs);
        drop(self);
        let (filter, _) = read?;
        Ok(filter)
    }

    /// A builder that is set to the same; `Clone` for `Builder`.
    pub fn clone_builder(&self) -> Result<Builder, Memory>
        ensures { IfOk result (λ b. b ≡ self.now) }
    {
        let env = self.env.clone()?;
        let default_directive = match &self.default_directive {
            Some(directive) => Some(directive.clone_directive()?),
            None => None,
        };
        Ok(Builder {
            alloc: self.alloc,
            patterns: self.patterns,
            default_directive,
            env,
        })
    }

    // The name of the variable that is read.
    fn variable(&self) -> &str
        ensures { result.now ≡ self.now.variable }
    {
        match &self.env {
            Some(name) => name.as_str(),
            None => EnvFilter::DEFAULT_ENV,
        }
    }

    // The filter of some directives.
    fn from_directives(&self, directives: Vec<Directive>) -> Result<EnvFilter, Memory>
        ensures is { IfOk result (λ f. plain_filter f ≡ filter_by self.now directives.items) }
        ensures new { IfOk result (λ f. IsNewFilter (plain_filter f)) }
    {
        let statics = tables::statics(self.alloc, directives.as_slice())?;
        let dynamics = tables::dynamics(self.alloc, directives)?;
        let mut filter = EnvFilter::with_tables(self.alloc, self.patterns, statics, dynamics);
        match self.complete(&mut filter) {
            Ok(()) => Ok(filter),
            Err(memory) => {
                drop(filter);
                Err(memory)
            }
        }
    }

    // Adds the default directive to a filter that would have none.
    fn complete(&self, filter: &mut EnvFilter) -> Result<(), Memory>
        ensures { OnOk result (plain_filter filter.new ≡ or_default self.now.default (plain_filter filter.old)) }
    {
        match &self.default_directive {
            Some(directive) => or_default(filter, directive),
            None => Ok(()),
        }
    }
}

// Adds a directive to a filter that would have none.
fn or_default(filter: &mut EnvFilter, directive: &Directive) -> Result<(), Memory>
    ensures { OnOk result (plain_filter filter.new ≡ or_default (Some directive.now) (plain_filter filter.old)) }
{
    if filter.has_no_directives() {
        add_copy(filter, directive)
    } else {
        Ok(())
    }
}

fn add_copy(filter: &mut EnvFilter, directive: &Directive) -> Result<(), Memory>
    ensures { OnOk result (plain_filter filter.new ≡ with_directive (plain_filter filter.old) directive.now) }
{
    let directive = directive.clone_directive()?;
    filter.add(directive)
}

// The filter where no piece was left out, else the number and the fault of the first one.
fn unless_ignored(filter: EnvFilter, ignored: &[Ignored]) -> Result<EnvFilter, (u64, ParseError)>
    ensures ok { (b : BuilderValue) (text : List ℕ) → IsFilterOf b text ignored.now (plain_filter filter)
        → IfOk result (λ f. IsFilterOf b text [] (plain_filter f)) }
    ensures new { IsNewFilter (plain_filter filter) → IfOk result (λ f. IsNewFilter (plain_filter f)) }
    ensures refused { (b : BuilderValue) (text : List ℕ) → IsFilterOf b text ignored.now (plain_filter filter)
        → IfErr result (λ e. HasFilterFaultAt b.patterns text e.0 e.1) }
{
    match ignored.first() {
        Some(first) => {
            drop(filter);
            Err((first.piece, first.fault))
        }
        None => Ok(filter),
    }
}
