//! Sets of directives, in the order in which they are asked.
ghost use Rattle.std.specs.Prelude.{◌≡◌, ◌==◌, length, IfOk, OnOk, OnErr};
ghost use Rattle.std.specs.Iterator.{YieldsFirstRef, item_count};
ghost use Rattle.std.specs.List.{filter};
ghost use Rattle.std.specs.List.Sorted.{IsStrictlySortedBy};
ghost use Rattle.env_directives.specs.orders.Choice.{admits, admits_target};
ghost use Rattle.env_directives.specs.Iterators.{directives_left, caring_left};
ghost use Rattle.env_directives.specs.orders.Table.{empty_table, with_added, with_all_added, AddsSome, with_item_in_order, more_verbose};

use crate::directive::{Match, StaticDirective};
use otel_base::memory::Memory;
use smallvec::SmallVec;
use std::alloc::Global;
use std::default::MadeWith;
use std::marker::Model;
use trace_base::callsite::Callsite;
use trace_base::level::{Level, LevelFilter};

mod clone;

/// Directives in their order, of which no two are equal, and the greatest level that was ever added;
/// `tracing_subscriber::filter::directive::DirectiveSet`.
#[derive(Drop)]
pub struct DirectiveSet<T: Ord> {
    directives: SmallVec<T, 8>,
    max_level: LevelFilter,
}

impl<T: Ord> Model for DirectiveSet<T> {
    ghost use Rattle.std.specs.List.Sorted.{IsStrictlySortedBy};
    ghost use Rattle.env_directives.specs.orders.Table.{DirectiveTable};

    ghost Value = { DirectiveTable T };

    ghost view = { λ s. record { directives = s.directives.items; greatest = s.max_level } };

    ghost invariant = { λ s. IsStrictlySortedBy T.cmp s.directives.items };
}

impl<T: Match + Ord + MadeWith<Global> + Drop> DirectiveSet<T> {
    /// A set without directives, whose greatest level is OFF.
    pub fn new(alloc: Global) -> DirectiveSet<T>
        ensures { result ≡ empty_table }
    {
        DirectiveSet {
            directives: SmallVec::new(alloc),
            max_level: LevelFilter::OFF,
        }
    }

    /// Adds a directive, which replaces its equal. `Memory` where there is none for it; the set then stays as it is.
    pub fn add(&mut self, directive: T) -> Result<(), Memory>
        ensures ok { OnOk result (self.new ≡ with_added T.cmp T.level_of directive self.old) }
        ensures memory_leaves { OnErr result (self.new ≡ self.old) }
    {
        let level = directive.level();
        put_in_order(&mut self.directives, directive)?;
        self.max_level = more_verbose(self.max_level, level);
        Ok(())
    }

    /// The directives by value, in their order; `IntoIterator` for `DirectiveSet`.
    pub fn into_iter(self) -> smallvec::IntoIter<T, 8>
        ensures { result ≡ self.directives }
    {
        self.directives.into_iter()
    }

    /// Whether it has no directives.
    pub fn is_empty(&self) -> bool
        ensures { result ≡ (length self.now.directives == 0) }
    {
        self.directives.is_empty()
    }

    /// The greatest level that was ever added, OFF where there was none. It doesn't fall when a directive is replaced.
    pub fn max_level(&self) -> LevelFilter
        ensures { result ≡ self.now.greatest }
    {
        self.max_level
    }

    /// Adds directives in turn. `Memory` where there is none for one of them; what was added before it stays.
    pub fn extend(&mut self, directives: Vec<T>) -> Result<(), Memory>
        ensures ok { OnOk result (self.new ≡ with_all_added T.cmp T.level_of directives.items self.old) }
        ensures memory_keeps { OnErr result (AddsSome T.cmp T.level_of directives.items self.old self.new) }
    {
        for directive in directives {
            self.add(directive)?;
        }
        Ok(())
    }
}

impl<T: Match + Ord> DirectiveSet<T> {
    /// The directives in their order, as a slice.
    pub fn as_slice(&self) -> &[T]
        ensures { result.now ≡ self.now.directives }
    {
        self.directives.as_slice()
    }

    pub(crate) fn allocator(&self) -> Global {
        *self.directives.allocator()
    }

    /// The directives in their order, the most specific first.
    pub fn iter(&self) -> DirectiveIter<'_, T>
        ensures { directives_left result ≡ self.now.directives }
    {
        DirectiveIter {
            rest: self.directives.as_slice(),
        }
    }

    /// The directives that care about a callsite, in their order.
    pub fn directives_for<'a>(&'a self, callsite: &'a Callsite) -> DirectivesFor<'a, T>
        ensures { caring_left T.cares result ≡ filter (λ d. T.cares d callsite.now) self.now.directives }
    {
        DirectivesFor {
            rest: self.directives.as_slice(),
            callsite,
        }
    }
}

impl DirectiveSet<StaticDirective> {
    /// A set of the same directives, with the same greatest level; `Clone` for `DirectiveSet`.
    pub fn clone_set(&self) -> Result<DirectiveSet<StaticDirective>, Memory>
        ensures { IfOk result (λ s. s ≡ self.now) }
    {
        Ok(DirectiveSet {
            directives: self.directives.clone()?,
            max_level: self.max_level,
        })
    }

    /// Whether a callsite is let through: the most specific directive that cares about it decides by its level, and
    /// where none does, it isn't.
    pub fn enabled(&self, callsite: &Callsite) -> bool
        ensures { result ≡ admits self.now.directives callsite.now }
    {
        match self.directives_for(callsite).next() {
            Some(directive) => directive.level.lets_through(callsite.level),
            None => false,
        }
    }

    /// The same for a target and a level alone, among the directives without field names.
    pub fn target_enabled(&self, target: &str, level: Level) -> bool
        ensures { result ≡ admits_target self.now.directives target.now level }
    {
        for directive in self.as_slice() {
            if directive.cares_about_target(target) {
                return directive.level.lets_through(level);
            }
        }
        false
    }
}

/// The directives of a set in their order; `tracing_subscriber::filter::directive::DirectiveSet::iter`.
#[derive(Drop)]
pub struct DirectiveIter<'a, T> {
    rest: &'a [T],
}

impl<'a, T> Iterator for DirectiveIter<'a, T> {
    type Item = &'a T;

    ghost next_gives = { YieldsFirstRef directives_left };

    ghost remaining = { item_count directives_left };

    fn next(&mut self) -> Option<&'a T> {
        let (first, others) = self.rest.split_first()?;
        self.rest = others;
        Some(first)
    }
}

/// The directives of a set that care about a callsite;
/// `tracing_subscriber::filter::directive::DirectiveSet::directives_for`.
#[derive(Drop)]
pub struct DirectivesFor<'a, T> {
    rest: &'a [T],
    callsite: &'a Callsite,
}

impl<'a, T: Match> Iterator for DirectivesFor<'a, T> {
    type Item = &'a T;

    ghost next_gives = { YieldsFirstRef (caring_left T.cares) };

    ghost remaining = { item_count (caring_left T.cares) };

    fn next(&mut self) -> Option<&'a T> {
        while let Some((first, others)) = self.rest.split_first() {
            self.rest = others;
            if first.cares_about(self.callsite) {
                return Some(first);
            }
        }
        None
    }
}

// Puts a directive where its equal stands, or else at its place in the order.
fn put_in_order<T: Ord + MadeWith<Global> + Drop>(
    directives: &mut SmallVec<T, 8>,
    directive: T,
) -> Result<(), Memory>
    requires { IsStrictlySortedBy T.cmp directives.old.items }
    ensures ok { OnOk result (directives.new.items ≡ with_item_in_order T.cmp directive directives.old.items) }
    ensures memory_leaves { OnErr result (directives.new ≡ directives.old) }
{
    match directives.as_slice().binary_search(&directive) {
        Ok(place) => directives[place] = directive,
        Err(place) => directives.insert(place, directive)?,
    }
    Ok(())
}

fn more_verbose(level: LevelFilter, other: LevelFilter) -> LevelFilter
    ensures { result ≡ more_verbose level other }
{
    if other > level { other } else { level }
}
