//! Filters from texts, and the text of a filter.
ghost use Rattle.std.specs.Prelude.{◌≡◌, ◌++◌, [], Some, codes, IfOk, IfErr};
ghost use Rattle.std.specs.Fmt.{WritesOnOk};
ghost use Rattle.env_directives.specs.printed.Printed.{directive_text};
ghost use Rattle.env_directives.specs.printed.StaticPrinted.{static_text};
ghost use Rattle.env_filter.specs.texts.Building.{default_builder, errors_builder, IsFilterOf, IsSomeFilterOf, HasFilterFault, HasFilterFaultAt};
ghost use Rattle.env_filter.specs.Filtering.{plain_filter, IsNewFilter};
ghost use Rattle.env_filter.specs.texts.Printing.{behind_commas, dynamics_text, filter_text, fixed_builder};

use crate::builder::Builder;
use crate::filter::EnvFilter;
use env_directives::directive::{ParseError, StaticDirective};
use env_directives::env::directive::Directive;
use otel_base::memory::Memory;
use std::alloc::Global;
use std::fmt;
use trace_base::level::LevelFilter;

impl EnvFilter {
    /// The variable that is read where no other is named; `EnvFilter::DEFAULT_ENV`.
    pub const DEFAULT_ENV: &'static str = "RUST_LOG";

    /// What filters are built by; `EnvFilter::builder`.
    pub fn builder(alloc: Global) -> Builder
        ensures { result ≡ default_builder }
    {
        Builder::default(alloc)
    }

    /// The filter of those pieces of a text that are directives, and of errors alone where there is none;
    /// `EnvFilter::new`.
    pub fn new(alloc: Global, dirs: &str) -> Result<EnvFilter, Memory>
        ensures ok { IfOk result (λ f. IsSomeFilterOf errors_builder dirs.now (plain_filter f)) }
        ensures new { IfOk result (λ f. IsNewFilter (plain_filter f)) }
    {
        errors_builder(alloc).parse_some(dirs)
    }

    /// The filter of a text, each piece of which has to be a directive; `EnvFilter::try_new`. The error is the fault of
    /// the first piece that is none.
    pub fn try_new(alloc: Global, dirs: &str) -> Result<EnvFilter, ParseError>
        ensures ok { IfOk result (λ f. IsFilterOf default_builder dirs.now [] (plain_filter f)) }
        ensures new { IfOk result (λ f. IsNewFilter (plain_filter f)) }
        ensures refused { IfErr result (HasFilterFault default_builder.patterns dirs.now) }
    {
        EnvFilter::builder(alloc).parse(dirs)
    }

    /// The same of a text without patterns, as by a builder that takes none. The error has the number of that piece too, as
    /// that of `Builder::parse_pieces`.
    pub fn parse_fixed(alloc: Global, dirs: &str) -> Result<EnvFilter, (u64, ParseError)>
        ensures ok { IfOk result (λ f. IsFilterOf fixed_builder dirs.now [] (plain_filter f)) }
        ensures new { IfOk result (λ f. IsNewFilter (plain_filter f)) }
        ensures refused { IfErr result (λ e. HasFilterFaultAt fixed_builder.patterns dirs.now e.0 e.1) }
    {
        EnvFilter::builder(alloc)
            .with_regex(false)
            .parse_pieces(dirs)
    }

    /// The same as `try_new`; `EnvFilter::from_str`.
    pub fn from_str(alloc: Global, dirs: &str) -> Result<EnvFilter, ParseError>
        ensures ok { IfOk result (λ f. IsFilterOf default_builder dirs.now [] (plain_filter f)) }
        ensures new { IfOk result (λ f. IsNewFilter (plain_filter f)) }
        ensures refused { IfErr result (HasFilterFault default_builder.patterns dirs.now) }
    {
        EnvFilter::try_new(alloc, dirs)
    }
}

// A builder of filters that let errors through where they would have no directive.
pub(crate) fn errors_builder(alloc: Global) -> Builder
    ensures { result ≡ errors_builder }
{
    let errors = Directive::from_filter(alloc, LevelFilter::ERROR);
    Builder::default(alloc).with_default_directive(errors)
}

/// The static directives in their order and then the dynamic ones, with commas between them.
impl fmt::Display for EnvFilter {
    ghost output = { λ f. Some (filter_text f.statics.directives f.dynamics.directives) };

    fn fmt<W: fmt::Write>(&self, f: &mut fmt::Formatter<W>) -> fmt::Result {
        write_filter(f, self.statics.as_slice(), self.dynamics.as_slice())
    }
}

fn write_filter<W: fmt::Write>(
    f: &mut fmt::Formatter<W>,
    statics: &[StaticDirective],
    dynamics: &[Directive],
) -> fmt::Result
    ensures { WritesOnOk W.write_str_gives f.old result (filter_text statics.now dynamics.now) f.new }
{
    let Some((first, others)) = statics.split_first() else {
        return write_all(f, dynamics);
    };
    fmt::Display::fmt(first, f)?;
    write_statics(f, others)?;
    write_dynamics(f, dynamics)
}

// Dynamic directives with commas between them.
fn write_all<W: fmt::Write>(f: &mut fmt::Formatter<W>, directives: &[Directive]) -> fmt::Result
    ensures { WritesOnOk W.write_str_gives f.old result (dynamics_text directives.now) f.new }
{
    let Some((first, others)) = directives.split_first() else {
        return Ok(());
    };
    fmt::Display::fmt(first, f)?;
    write_dynamics(f, others)
}

// Each directive behind a comma.
fn write_statics<W: fmt::Write>(
    f: &mut fmt::Formatter<W>,
    directives: &[StaticDirective],
) -> fmt::Result
    ensures { WritesOnOk W.write_str_gives f.old result (behind_commas static_text directives.now) f.new }
{
    for directive in directives {
        write_static(f, directive)?;
    }
    Ok(())
}

fn write_static<W: fmt::Write>(
    f: &mut fmt::Formatter<W>,
    directive: &StaticDirective,
) -> fmt::Result
    ensures { WritesOnOk W.write_str_gives f.old result (codes "," ++ static_text directive.now) f.new }
{
    f.write_str(",")?;
    fmt::Display::fmt(directive, f)
}

fn write_dynamics<W: fmt::Write>(f: &mut fmt::Formatter<W>, directives: &[Directive]) -> fmt::Result
    ensures { WritesOnOk W.write_str_gives f.old result (behind_commas directive_text directives.now) f.new }
{
    for directive in directives {
        write_dynamic(f, directive)?;
    }
    Ok(())
}

fn write_dynamic<W: fmt::Write>(f: &mut fmt::Formatter<W>, directive: &Directive) -> fmt::Result
    ensures { WritesOnOk W.write_str_gives f.old result (codes "," ++ directive_text directive.now) f.new }
{
    f.write_str(",")?;
    fmt::Display::fmt(directive, f)
}
