//! Filters that are made of tables, and filters with a directive more.
ghost use Rattle.std.specs.Prelude.{◌≡◌, true, IfOk, IfErr, OnOk, OnErr};
ghost use Rattle.env_directives.specs.orders.Table.{empty_table};
ghost use Rattle.env_filter.specs.Filtering.{plain_filter, fresh_filter, IsWholeFilter, IsNewFilter};
ghost use Rattle.env_filter.specs.Tables.{with_directive, with_in_table, with_tables, has_no_directives};

use crate::filter::EnvFilter;
use crate::tables;
use env_directives::directive::StaticDirective;
use env_directives::directive::set::DirectiveSet;
use env_directives::env::directive::Directive;
use otel_base::memory::Memory;
use std::alloc::Global;
use std::collections::HashMap;

impl EnvFilter {
    /// A filter without directives, which takes patterns and lets nothing through; `EnvFilter::default`.
    pub fn default(alloc: Global) -> EnvFilter
        ensures is { plain_filter result ≡ with_tables true empty_table empty_table }
        ensures new { IsNewFilter (plain_filter result) }
    {
        EnvFilter::with_tables(
            alloc,
            true,
            DirectiveSet::new(alloc),
            DirectiveSet::new(alloc),
        )
    }

    /// The filter with a directive more, which takes the place of its equal; `EnvFilter::add_directive`. It goes to the
    /// static ones where it can be judged by a callsite alone, and its patterns are fixed texts in a filter that takes
    /// none. `Memory` hands the filter back as it was.
    pub fn add_directive(self, directive: Directive) -> Result<EnvFilter, (EnvFilter, Memory)>
        ensures ok { IfOk result (λ f. plain_filter f ≡ with_directive (plain_filter self) directive) }
        ensures whole { IsWholeFilter (plain_filter self) → IfOk result (λ f. IsWholeFilter (plain_filter f)) }
        ensures new { IsNewFilter (plain_filter self) → IfOk result (λ f. IsNewFilter (plain_filter f)) }
        ensures memory_leaves { IfErr result (λ e. plain_filter e.0 ≡ plain_filter self) }
    {
        let mut filter = self;
        match filter.add(directive) {
            Ok(()) => Ok(filter),
            Err(memory) => Err((filter, memory)),
        }
    }

    // Adds a directive in place.
    pub(crate) fn add(&mut self, directive: Directive) -> Result<(), Memory>
        ensures ok { OnOk result (plain_filter self.new ≡ with_directive (plain_filter self.old) directive) }
        ensures memory_leaves { OnErr result (plain_filter self.new ≡ plain_filter self.old) }
    {
        let directive = if self.patterns {
            directive
        } else {
            tables::fixed_directive(directive)
        };
        self.add_to_table(directive)
    }

    /// A filter with the same tables, whose patterns share what they were compiled to, and with no span and no level;
    /// it stands for the `Clone` of tracing-subscriber's type.
    pub fn clone_filter(&self) -> Result<EnvFilter, Memory>
        ensures is { IfOk result (λ f. plain_filter f ≡ fresh_filter (plain_filter self.now)) }
        ensures new { IsWholeFilter (plain_filter self.now) → IfOk result (λ f. IsNewFilter (plain_filter f)) }
    {
        let copy = self.copy()?;
        Ok(copy)
    }

    fn copy(&self) -> Result<EnvFilter, Memory>
        ensures { IfOk result (λ f. plain_filter f ≡ fresh_filter (plain_filter self.now)) }
    {
        Ok(EnvFilter::with_tables(
            self.alloc,
            self.patterns,
            self.statics.clone_set()?,
            self.dynamics.clone_set()?,
        ))
    }

    // A filter with these tables.
    pub(crate) fn with_tables(
        alloc: Global,
        patterns: bool,
        statics: DirectiveSet<StaticDirective>,
        dynamics: DirectiveSet<Directive>,
    ) -> EnvFilter
        ensures { plain_filter result ≡ with_tables patterns statics dynamics }
    {
        EnvFilter {
            alloc,
            patterns,
            statics,
            dynamics,
            spans: HashMap::new(alloc),
            lanes: HashMap::new(alloc),
        }
    }

    // Whether it has no directive.
    pub(crate) fn has_no_directives(&self) -> bool
        ensures { result ≡ has_no_directives (plain_filter self.now) }
    {
        self.statics.is_empty() && self.dynamics.is_empty()
    }

    // Adds a directive to its table.
    fn add_to_table(&mut self, directive: Directive) -> Result<(), Memory>
        ensures ok { OnOk result (plain_filter self.new ≡ with_in_table (plain_filter self.old) directive) }
        ensures memory_leaves { OnErr result (plain_filter self.new ≡ plain_filter self.old) }
    {
        if tables::is_static(&directive) {
            let added = tables::put_static(self.alloc, &mut self.statics, &directive);
            drop(directive);
            added
        } else {
            self.dynamics.add(directive)
        }
    }
}
