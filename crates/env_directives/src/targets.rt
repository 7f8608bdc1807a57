//! Filters by target: which level is let through for which part of a program.
ghost use Rattle.std.specs.Prelude.{◌≡◌, ◌∷◌, Some, flat_map, map, string_bytes, IfOk, IfErr, OnOk, OnErr};
ghost use Rattle.std.specs.Fmt.{WritesOnOk};
ghost use Rattle.std.specs.Result.{IsOkAnd};
ghost use Rattle.std.proofs.Common.{rules};
ghost use Rattle.std.specs.Cmp.{and_equiv, eq_by_cmp_equiv, nat_cmp_total, on_equiv, on_total, partial_equiv_from_equiv};
ghost use Rattle.std.specs.Cmp.Lexicographic.{pointwise, lists_equiv};
ghost use Rattle.std.specs.Cmp.Rules.{comparing};
ghost use Rattle.std.specs.Ordering.{is_eq, nat_cmp};
ghost use Rattle.trace_base.specs.words.Level.{greatest_verbosity};
ghost use Rattle.std.specs.Iterator.{YieldsFirstBy, item_count};
ghost use Rattle.env_directives.specs.orders.Choice.{admits_target};
ghost use Rattle.env_directives.specs.Iterators.{pairs_left};
ghost use Rattle.env_directives.specs.orders.StaticOrder.{most_specific_first};
ghost use Rattle.env_directives.specs.printed.StaticPrinted.{comma_joined, static_text};
ghost use Rattle.env_directives.specs.reading.StaticText.{ReadsOrFails, Fails, static_of};
ghost use Rattle.env_directives.specs.orders.Table.{empty_table, AddsSome};
ghost use Rattle.env_directives.specs.Targets.{with_static, with_statics, target_directive, pair_directive, default_directive, default_level, pairs, targets_of, same_rule, same_level, same_directive, same_targets};

use crate::directive::set::DirectiveSet;
use crate::directive::{ParseError, StaticDirective};
use otel_base::list::Items;
use otel_base::memory::Memory;
use otel_base::text::Text;
use std::alloc::Global;
use std::fmt;
use std::marker::Model;
use trace_base::level::{Level, LevelFilter};

mod layer;

/// Targets with the levels that are let through for them; `tracing_subscriber::filter::targets::Targets`.
#[derive(Drop)]
pub struct Targets {
    set: DirectiveSet<StaticDirective>,
}

impl Model for Targets {
    ghost use Rattle.env_directives.specs.orders.Table.{DirectiveTable};
    ghost use Rattle.env_directives.specs.declared.directive.StaticDirective.{StaticDirective};

    ghost Value = { DirectiveTable StaticDirective };

    ghost view = { λ t. t.set };
}

impl Targets {
    /// A filter that lets nothing through.
    pub fn new(alloc: Global) -> Targets
        ensures { result ≡ empty_table }
    {
        Targets {
            set: DirectiveSet::new(alloc),
        }
    }

    /// Reads directives with commas between them, each by `StaticDirective::from_str`. The fault of the first piece that
    /// has one is answered; `Targets::from_str`.
    pub fn from_str(alloc: Global, text: &str) -> Result<Targets, ParseError>
        ensures { ReadsOrFails result (targets_of text.now) }
    {
        let mut set = DirectiveSet::new(alloc);
        for piece in text.split(',') {
            add_read(alloc, &mut set, piece)?;
        }
        Ok(Targets { set })
    }

    /// Sets the level of the targets that begin with this one. `Memory` hands the filter back as it was.
    pub fn with_target(
        self,
        target: String,
        level: LevelFilter,
    ) -> Result<Targets, (Targets, Memory)>
        ensures ok { IfOk result (λ t. t ≡ with_static (target_directive (string_bytes target) level) self) }
        ensures memory_leaves { IfErr result (λ e. e.0 ≡ self) }
    {
        let mut targets = self;
        match targets.set.add(target_directive(target, level)) {
            Ok(()) => Ok(targets),
            Err(memory) => Err((targets, memory)),
        }
    }

    /// Sets the level of the targets for which no other is set. `Memory` hands the filter back as it was.
    pub fn with_default(self, level: LevelFilter) -> Result<Targets, (Targets, Memory)>
        ensures ok { IfOk result (λ t. t ≡ with_static (default_directive level) self) }
        ensures memory_leaves { IfErr result (λ e. e.0 ≡ self) }
    {
        let alloc = self.set.allocator();
        let mut targets = self;
        match targets.set.add(default_directive(alloc, level)) {
            Ok(()) => Ok(targets),
            Err(memory) => Err((targets, memory)),
        }
    }

    /// Sets the levels of several targets in turn. `Memory` hands the filter back with those that were set before it.
    pub fn with_targets(
        self,
        pairs: Vec<(String, LevelFilter)>,
    ) -> Result<Targets, (Targets, Memory)>
        ensures ok { IfOk result (λ t. t ≡ with_statics (map pair_directive pairs.items) self) }
        ensures memory_keeps { IfErr result (λ e. AddsSome most_specific_first (λ d. d.level) (map pair_directive pairs.items) self e.0) }
    {
        let mut targets = self;
        match targets.extend(pairs) {
            Ok(()) => Ok(targets),
            Err(memory) => Err((targets, memory)),
        }
    }

    /// Sets the levels of several targets in turn. `Memory` keeps those that were set before it.
    pub fn extend(&mut self, pairs: Vec<(String, LevelFilter)>) -> Result<(), Memory>
        ensures ok { OnOk result (self.new ≡ with_statics (map pair_directive pairs.items) self.old) }
        ensures memory_keeps { OnErr result (AddsSome most_specific_first (λ d. d.level) (map pair_directive pairs.items) self.old self.new) }
    {
        for (target, level) in pairs {
            self.set.add(target_directive(target, level))?;
        }
        Ok(())
    }

    /// The level that `with_default` set, if it did.
    pub fn default_level(&self) -> Option<LevelFilter>
        ensures { result ≡ default_level self.now }
    {
        for directive in self.set.as_slice() {
            if directive.target.is_none() {
                return Some(directive.level);
            }
        }
        None
    }

    /// Whether a target is let through at a level.
    pub fn would_enable(&self, target: &str, level: Level) -> bool
        ensures { result ≡ admits_target self.now.directives target.now level }
    {
        self.set.target_enabled(target, level)
    }

    /// The targets with their levels, the most specific first. The default isn't among them.
    pub fn iter(&self) -> Iter<'_>
        ensures { pairs_left result ≡ pairs self.now.directives }
    {
        Iter {
            rest: self.set.as_slice(),
        }
    }

    /// The same by value; `IntoIterator` for `Targets`.
    pub fn into_iter(self) -> IntoIter
        ensures { result ≡ pairs self.directives }
    {
        IntoIter {
            rest: self.set.into_iter(),
        }
    }

    /// A filter that lets the same through; `Clone` for `Targets`.
    pub fn clone_targets(&self) -> Result<Targets, Memory>
        ensures { IfOk result (λ t. t ≡ self.now) }
    {
        Ok(Targets {
            set: self.set.clone_set()?,
        })
    }
}

/// By the directives with their levels, and by the greatest level that was ever set.
impl PartialEq for Targets {
    ghost eq = { same_targets };

    ghost laws = { partial_equiv_from_equiv (and_equiv
        (on_equiv (λ t. t.directives) (lists_equiv (and_equiv {E = same_rule} {F = same_level}
        (Prim.search (comparing, rules) depth 9) (Prim.search (comparing, rules) depth 9))))
        (eq_by_cmp_equiv (on_total (λ t. greatest_verbosity t.greatest) nat_cmp_total))) };

    fn eq(&self, other: &Targets) -> bool {
        same_directives(self.set.as_slice(), other.set.as_slice())
            && same_level(self.set.max_level(), other.set.max_level())
    }
}

impl Eq for Targets {
    ghost laws = { and_equiv
        (on_equiv (λ t. t.directives) (lists_equiv (and_equiv {E = same_rule} {F = same_level}
        (Prim.search (comparing, rules) depth 9) (Prim.search (comparing, rules) depth 9))))
        (eq_by_cmp_equiv (on_total (λ t. greatest_verbosity t.greatest) nat_cmp_total)) };
}

fn same_directives(directives: &[StaticDirective], others: &[StaticDirective]) -> bool
    ensures { result ≡ pointwise same_directive directives.now others.now }
{
    if directives.len() != others.len() {
        return false;
    }
    for place in 0..directives.len() {
        if !same_directive(&directives[place], &others[place]) {
            return false;
        }
    }
    true
}

fn same_directive(directive: &StaticDirective, other: &StaticDirective) -> bool
    ensures { result ≡ same_directive directive.now other.now }
{
    directive == other && same_level(directive.level, other.level)
}

fn same_level(level: LevelFilter, other: LevelFilter) -> bool
    ensures { result ≡ is_eq (nat_cmp (greatest_verbosity level) (greatest_verbosity other)) }
{
    level.cmp(&other).is_eq()
}

/// The directives in their order, with commas between them.
impl fmt::Display for Targets {
    ghost output = { λ t. Some (comma_joined (map static_text t.directives)) };

    fn fmt<W: fmt::Write>(&self, f: &mut fmt::Formatter<W>) -> fmt::Result {
        let Some((first, others)) = self.set.as_slice().split_first() else {
            return Ok(());
        };
        fmt::Display::fmt(first, f)?;
        write_others(f, others)
    }
}

// Each directive behind a comma.
fn write_others<W: fmt::Write>(
    f: &mut fmt::Formatter<W>,
    directives: &[StaticDirective],
) -> fmt::Result
    ensures { WritesOnOk W.write_str_gives f.old result (flat_map (λ other. 44 ∷ other) (map static_text directives.now)) f.new }
{
    for directive in directives {
        write!(f, ",{directive}")?;
    }
    Ok(())
}

/// The targets of a filter with their levels; `tracing_subscriber::filter::targets::Iter`.
#[derive(Drop)]
pub struct Iter<'a> {
    rest: &'a [StaticDirective],
}

impl<'a> Iterator for Iter<'a> {
    type Item = (&'a str, LevelFilter);

    ghost next_gives = { YieldsFirstBy (λ pair. (pair.0.now, pair.1)) pairs_left };

    ghost remaining = { item_count pairs_left };

    fn next(&mut self) -> Option<(&'a str, LevelFilter)> {
        while let Some((first, others)) = self.rest.split_first() {
            self.rest = others;
            if let Some(target) = &first.target {
                return Some((target.as_str(), first.level));
            }
        }
        None
    }
}

/// The targets of a filter with their levels, by value; `tracing_subscriber::filter::targets::IntoIter`.
#[derive(Drop)]
pub struct IntoIter {
    rest: smallvec::IntoIter<StaticDirective, 8>,
}

impl Model for IntoIter {
    ghost use Rattle.std.specs.Prelude.{List, ℕ};
    ghost use Rattle.trace_base.specs.declared.level.LevelFilter.{LevelFilter};
    ghost use Rattle.env_directives.specs.Targets.{pairs};

    ghost Value = { List (List ℕ × LevelFilter) };

    ghost view = { λ it. pairs it.rest };
}

impl Iterator for IntoIter {
    type Item = (Text, LevelFilter);

    ghost next_gives = { YieldsFirstBy (λ pair. pair) (λ it. it) };

    ghost remaining = { item_count (λ it. it) };

    fn next(&mut self) -> Option<(Text, LevelFilter)> {
        while let Some(first) = self.rest.next() {
            let StaticDirective {
                target,
                field_names: _,
                level,
            } = first;
            if let Some(target) = target {
                return Some((target, level));
            }
        }
        None
    }
}

// Adds the directive that a text spells.
fn add_read(
    alloc: Global,
    set: &mut DirectiveSet<StaticDirective>,
    text: &str,
) -> Result<(), ParseError>
    ensures ok { OnOk result (IsOkAnd (static_of text.now) (λ d. set.new ≡ with_static d set.old)) }
    ensures err { IfErr result (λ e. Fails e (static_of text.now)) }
{
    Ok(set.add(StaticDirective::from_str(alloc, text)?)?)
}

fn target_directive(target: String, level: LevelFilter) -> StaticDirective
    ensures { result ≡ target_directive (string_bytes target) level }
{
    let alloc = *target.allocator();
    StaticDirective {
        target: Some(Text::from(target)),
        field_names: Items::new(alloc),
        level,
    }
}

fn default_directive(alloc: Global, level: LevelFilter) -> StaticDirective
    ensures { result ≡ default_directive level }
{
    StaticDirective {
        target: None,
        field_names: Items::new(alloc),
        level,
    }
}
