//! Filters from variables.
ghost use Rattle.std.specs.Prelude.{◌≡◌, [], Some, None, IfOk, IfErr, option_map, string_bytes, codes};
ghost use Rattle.env_filter.specs.texts.Building.{default_builder, errors_builder, with_variable};
ghost use Rattle.env_filter.specs.Filtering.{plain_filter, IsNewFilter};
ghost use Rattle.env_filter.specs.texts.FromVariables.{IsFilterOfVariable, IsSomeFilterOfVariable, IsOfVariable, IsFilterOfSetVariable, IsRefusedFrom, IsRefusedIn, IsFaultOfSetVariable, IsParsed, env_fault_text};
ghost use Rattle.env_filter.specs.declared.builder.env.FromEnvError.TheVariants as fault;

use crate::builder::Builder;
use crate::filter::EnvFilter;
use crate::filter::text::errors_builder;
use crate::pieces::Ignored;
use crate::vars::Vars;
use env_directives::directive::ParseError;
use otel_base::memory::Memory;
use std::alloc::Global;
use std::error::Error;
use std::fmt;

impl Builder {
    /// The filter of the builder's variable, each piece of which has to be a directive; `Builder::from_env`. A variable
    /// that isn't set counts as empty.
    pub fn from_env<V: Vars>(&self, vars: &V) -> Result<EnvFilter, FromEnvError>
        ensures ok { IfOk result (λ f. IsFilterOfVariable (V.known_variables vars.now) self.now [] (plain_filter f)) }
        ensures new { IfOk result (λ f. IsNewFilter (plain_filter f)) }
        ensures refused { IfErr result (IsRefusedFrom (V.known_variables vars.now) self.now) }
    {
        match vars.read(self.variable())? {
            Some(text) => parse_result(self.parse(text.as_str())),
            None => parse_result(self.parse("")),
        }
    }

    /// The filter of those pieces of the builder's variable that are directives, and the others;
    /// `Builder::from_env_lossy`. A variable that isn't set counts as empty.
    pub fn from_env_lossy<V: Vars>(&self, vars: &V) -> Result<(EnvFilter, Vec<Ignored>), Memory>
        ensures ok { IfOk result (λ r. IsFilterOfVariable (V.known_variables vars.now) self.now r.1.items (plain_filter r.0)) }
        ensures new { IfOk result (λ r. IsNewFilter (plain_filter r.0)) }
    {
        match vars.read(self.variable())? {
            Some(text) => self.parse_lossy(text.as_str()),
            None => self.parse_lossy(""),
        }
    }

    /// The filter of the builder's variable, which has to be set, and each piece of which has to be a directive;
    /// `Builder::try_from_env`.
    pub fn try_from_env<V: Vars>(&self, vars: &V) -> Result<EnvFilter, FromEnvError>
        ensures ok { IfOk result (λ f. IsFilterOfSetVariable (V.known_variables vars.now) self.now (plain_filter f)) }
        ensures new { IfOk result (λ f. IsNewFilter (plain_filter f)) }
        ensures refused { IfErr result (IsFaultOfSetVariable (V.known_variables vars.now) self.now) }
    {
        self.from_var(vars.read(self.variable())?)
    }

    /// The filter of what a variable gave, each piece of which has to be a directive. `Env` exactly where it gave nothing.
    pub fn from_var(&self, read: Option<String>) -> Result<EnvFilter, FromEnvError>
        ensures ok { IfOk result (λ f. IsOfVariable self.now (option_map string_bytes read) (plain_filter f)) }
        ensures new { IfOk result (λ f. IsNewFilter (plain_filter f)) }
        ensures refused { IfErr result (IsRefusedIn self.now.patterns (option_map string_bytes read)) }
    {
        match read {
            Some(text) => parse_result(self.parse(text.as_str())),
            None => Err(FromEnvError::Env),
        }
    }

    // The filter of those pieces of the builder's variable that are directives.
    fn some_from_env<V: Vars>(self, vars: &V) -> Result<EnvFilter, Memory>
        ensures ok { IfOk result (λ f. IsSomeFilterOfVariable (V.known_variables vars.now) self (plain_filter f)) }
        ensures new { IfOk result (λ f. IsNewFilter (plain_filter f)) }
    {
        let read = self.from_env_lossy(vars);
        drop(self);
        let (filter, _) = read?;
        Ok(filter)
    }
}

impl EnvFilter {
    /// The filter of those pieces of `RUST_LOG` that are directives, and of errors alone where there is none;
    /// `EnvFilter::from_default_env`.
    pub fn from_default_env<V: Vars>(alloc: Global, vars: &V) -> Result<EnvFilter, Memory>
        ensures ok { IfOk result (λ f. IsSomeFilterOfVariable (V.known_variables vars.now) errors_builder (plain_filter f)) }
        ensures new { IfOk result (λ f. IsNewFilter (plain_filter f)) }
    {
        errors_builder(alloc).some_from_env(vars)
    }

    /// The same of the variable of a name; `EnvFilter::from_env`.
    pub fn from_env<V: Vars>(alloc: Global, name: &str, vars: &V) -> Result<EnvFilter, Memory>
        ensures ok { IfOk result
            (λ f. IsSomeFilterOfVariable (V.known_variables vars.now) (with_variable errors_builder name.now) (plain_filter f)) }
        ensures new { IfOk result (λ f. IsNewFilter (plain_filter f)) }
    {
        let name = owned_name(alloc, name)?;
        errors_builder(alloc).with_env_var(name).some_from_env(vars)
    }

    /// The filter of `RUST_LOG`, which has to be set, and each piece of which has to be a directive;
    /// `EnvFilter::try_from_default_env`.
    pub fn try_from_default_env<V: Vars>(alloc: Global, vars: &V) -> Result<EnvFilter, FromEnvError>
        ensures ok { IfOk result (λ f. IsFilterOfSetVariable (V.known_variables vars.now) default_builder (plain_filter f)) }
        ensures new { IfOk result (λ f. IsNewFilter (plain_filter f)) }
        ensures refused { IfErr result (IsFaultOfSetVariable (V.known_variables vars.now) default_builder) }
    {
        EnvFilter::builder(alloc).try_from_env(vars)
    }

    /// The same of the variable of a name; `EnvFilter::try_from_env`.
    pub fn try_from_env<V: Vars>(
        alloc: Global,
        name: &str,
        vars: &V,
    ) -> Result<EnvFilter, FromEnvError>
        ensures ok { IfOk result
            (λ f. IsFilterOfSetVariable (V.known_variables vars.now) (with_variable default_builder name.now) (plain_filter f)) }
        ensures new { IfOk result (λ f. IsNewFilter (plain_filter f)) }
        ensures refused { IfErr result
            (IsFaultOfSetVariable (V.known_variables vars.now) (with_variable default_builder name.now)) }
    {
        let name = owned_name(alloc, name)?;
        EnvFilter::builder(alloc)
            .with_env_var(name)
            .try_from_env(vars)
    }
}

fn owned_name(alloc: Global, name: &str) -> Result<String, Memory>
    ensures { IfOk result (λ s. string_bytes s ≡ name.now) }
{
    Ok(String::from_str(alloc, name)?)
}

/// Why a variable gives no filter; `tracing_subscriber::filter::FromEnvError`.
#[derive(Clone, Copy, Debug, PartialEq, Eq)]
pub enum FromEnvError {
    /// A piece of its text is no directive; never for want of memory.
    Parse(ParseError),
    /// It isn't set.
    Env,
    /// No memory was to be had.
    Memory,
}

impl fmt::Display for FromEnvError {
    ghost output = { env_fault_text ⟦<ParseError as fmt::Display>⟧.output };

    fn fmt<W: fmt::Write>(&self, f: &mut fmt::Formatter<W>) -> fmt::Result {
        match self {
            FromEnvError::Parse(fault) => fmt::Display::fmt(fault, f),
            FromEnvError::Env => f.write_str("environment variable not found"),
            FromEnvError::Memory => f.write_str("out of memory"),
        }
    }
}

impl Error for FromEnvError {}

impl From<Memory> for FromEnvError {
    ghost from_gives = { λ _ e. e ≡ fault.Memory };

    fn from(_error: Memory) -> FromEnvError {
        FromEnvError::Memory
    }
}

// What a text gave, with its fault as one of its variable.
fn parse_result(filter: Result<EnvFilter, ParseError>) -> Result<EnvFilter, FromEnvError>
    ensures { IsParsed filter result }
{
    match filter {
        Ok(filter) => Ok(filter),
        Err(ParseError::Memory) => Err(FromEnvError::Memory),
        Err(fault) => Err(FromEnvError::Parse(fault)),
    }
}
