//! What a filter keeps of a span: which directives cared for it, and which of the values that they ask for were met.
ghost use Rattle.std.specs.List.{list_all};
ghost use Rattle.std.specs.Prelude.{List, if◌then◌else◌, ◌==◌, ◌&&◌, ◌≡◌, ◌||◌, ◌++◌, [], ◌∷◌, IfOk, length, map, option_map, take, drop};
ghost use Rattle.trace_base.specs.declared.level.LevelFilter.TheVariants.{OFF};
ghost use Rattle.env_directives.specs.Meeting.{meets};
ghost use Rattle.env_directives.specs.orders.Table.{more_verbose};
ghost use Rattle.env_filter.specs.declared.watch.Ask.{Ask};
ghost use Rattle.env_filter.specs.spans.Watching.{MatchState, is_given, is_asked_later, ask_of, and_ask, asks_of, care_of, cares_of, all_asks, found_in, new_match_state, with_met_at, more_met, with_values, level_from, level_of_match};

use env_directives::directive;
use env_directives::env::directive::Directive;
use env_directives::env::field::{Match, ValueMatch};
use otel_base::list::Items;
use otel_base::memory::Memory;
use otel_base::text::Text;
use std::alloc::Global;
use std::marker::Model;
use trace_base::callsite::Callsite;
use trace_base::field::{Value, ValueSet};
use trace_base::level::LevelFilter;

/// A value that is asked of the field at a place.
#[derive(Drop)]
pub struct Ask {
    pub place: usize,
    pub value: ValueMatch,
}

/// A directive that cared for a span: its level, and what it asks.
#[derive(Drop)]
pub struct Care {
    pub level: LevelFilter,
    pub asks: Items<Ask>,
}

/// The directives that cared for a span, and which of the values that they ask for were met.
#[derive(Drop)]
pub struct Matches {
    cares: Items<Care>,
    met: Vec<bool>,
}

impl Model for Matches {
    ghost use Rattle.std.specs.Prelude.{◌≡◌, length};
    ghost use Rattle.env_filter.specs.spans.Watching.{MatchState, all_asks};

    ghost Value = { MatchState };

    ghost view = { λ m. record { cares = m.cares; met = m.met.items } };

    ghost invariant = { λ m. length m.met.items ≡ length (all_asks m.cares) };
}

impl Matches {
    /// The greatest level of the directives all of whose values were met, OFF where there is none.
    pub fn level(&self) -> LevelFilter
        ensures { result ≡ level_of_match self.now }
    {
        level_from(LevelFilter::OFF, self.cares.as_slice(), self.met.as_slice())
    }

    /// Which of the values that are asked for are met by some of these.
    pub fn asks_met(&self, alloc: Global, values: &ValueSet) -> Result<Vec<bool>, Memory>
        ensures { IfOk result (λ found. found.items ≡ found_in values.now.pairs self.now.cares) }
    {
        asks_met(alloc, self.cares.as_slice(), values.pairs.as_slice())
    }

    /// Notes what was found met: what was met stays met.
    pub fn note(&mut self, found: &[bool])
        ensures cares { self.new.cares ≡ self.old.cares }
        ensures met { self.new.met ≡ more_met self.old.met found.now }
    {
        note(&mut self.met, found);
    }
}

/// What a filter keeps of a new span, if a directive cares for its callsite.
pub fn new_matches(
    alloc: Global,
    directives: &[Directive],
    callsite: &Callsite,
    values: &ValueSet,
) -> Result<Option<Matches>, Memory>
    ensures { IfOk result (λ w. w ≡ new_match_state directives.now callsite.now values.now.pairs) }
{
    let cares = cares_of(alloc, directives, callsite)?;
    if cares.is_empty() {
        return Ok(None);
    }
    let met = asks_met(alloc, cares.as_slice(), values.pairs.as_slice())?;
    Ok(Some(Matches {
        cares: Items::from(cares),
        met,
    }))
}

fn cares_of(
    alloc: Global,
    directives: &[Directive],
    callsite: &Callsite,
) -> Result<Vec<Care>, Memory>
    ensures { IfOk result (λ cares. cares.items ≡ cares_of callsite.now directives.now) }
{
    let mut cares = Vec::new(alloc);
    for directive in directives {
        add_care(alloc, &mut cares, directive, callsite)?;
    }
    Ok(cares)
}

fn add_care(
    alloc: Global,
    cares: &mut Vec<Care>,
    directive: &Directive,
    callsite: &Callsite,
) -> Result<(), Memory>
    ensures { IfOk result (λ _. cares.new.items ≡ cares.old.items ++ cares_of callsite.now (directive.now ∷ [])) }
{
    if directive::Match::cares_about(directive, callsite) {
        let asks = asks_of(alloc, callsite, directive.fields())?;
        cares.push(Care {
            level: directive.level,
            asks: Items::from(asks),
        })?;
    }
    Ok(())
}

// What the valued fields ask of the fields of a callsite.
fn asks_of(alloc: Global, callsite: &Callsite, fields: &[Match]) -> Result<Vec<Ask>, Memory>
    ensures { IfOk result (λ asks. asks.items ≡ asks_of callsite.now fields.now) }
{
    let mut asks = Vec::new(alloc);
    for (at, field) in fields.iter().enumerate() {
        add_ask(&mut asks, callsite, field, &fields[at + 1..])?;
    }
    Ok(asks)
}

fn add_ask(
    asks: &mut Vec<Ask>,
    callsite: &Callsite,
    field: &Match,
    later: &[Match],
) -> Result<(), Memory>
    ensures { IfOk result (λ _. (more : List Ask) → asks.new.items ++ more
        ≡ asks.old.items ++ and_ask (ask_of callsite.now field.now later.now) more) }
{
    if let Some(ask) = ask_of(callsite, field, later)? {
        asks.push(ask)?;
    }
    Ok(())
}

// What a field asks of a callsite, if it asks anything.
fn ask_of(callsite: &Callsite, field: &Match, later: &[Match]) -> Result<Option<Ask>, Memory>
    ensures { IfOk result (λ ask. ask ≡ ask_of callsite.now field.now later.now) }
{
    if is_asked_later(&field.name, later) {
        return Ok(None);
    }
    let Some(value) = &field.value else {
        return Ok(None);
    };
    match callsite.field(field.name.as_str()) {
        Some(place) => Ok(Some(Ask {
            place,
            value: value.clone()?,
        })),
        None => Ok(None),
    }
}

fn is_asked_later(name: &Text, fields: &[Match]) -> bool
    ensures { result ≡ is_asked_later name.now fields.now }
{
    fields
        .iter()
        .any(|field| field.value.is_some() && field.name == *name)
}

pub(crate) fn more_verbose(level: LevelFilter, other: LevelFilter) -> LevelFilter
    ensures { result ≡ more_verbose level other }
{
    if other > level { other } else { level }
}

fn all(met: &[bool]) -> bool
    ensures { result ≡ list_all (λ m. m) met.now }
{
    met.iter().all(|m| *m)
}

fn level_from(level: LevelFilter, cares: &[Care], met: &[bool]) -> LevelFilter
    requires { length met.now ≡ length (all_asks cares.now) }
    ensures { result ≡ level_from level cares.now met.now }
{
    let mut now = level;
    let mut rest = met;
    for care in cares {
        let (mine, others) = rest.split_at(care.asks.as_slice().len());
        now = if_all(now, care.level, mine);
        rest = others;
    }
    now
}

// The more verbose of both, where all were met.
fn if_all(now: LevelFilter, level: LevelFilter, met: &[bool]) -> LevelFilter
    ensures { result ≡ (if list_all (λ m. m) met.now then more_verbose now level else now) }
{
    if all(met) {
        more_verbose(now, level)
    } else {
        now
    }
}

// Whether some of the values stands at the place and meets what is asked.
fn is_given(alloc: Global, ask: &Ask, values: &[(usize, Value)]) -> Result<bool, Memory>
    ensures { IfOk result (λ given. given ≡ is_given values.now ask.now) }
{
    for pair in values {
        if is_met_by(alloc, ask, pair)? {
            return Ok(true);
        }
    }
    Ok(false)
}

fn is_met_by(alloc: Global, ask: &Ask, pair: &(usize, Value)) -> Result<bool, Memory>
    ensures { IfOk result (λ given. given ≡ (pair.now.0 == ask.now.place && meets ask.now.value pair.now.1)) }
{
    if pair.0 == ask.place {
        ask.value.is_met_by(alloc, &pair.1)
    } else {
        Ok(false)
    }
}

fn asks_met(alloc: Global, cares: &[Care], values: &[(usize, Value)]) -> Result<Vec<bool>, Memory>
    ensures { IfOk result (λ found. found.items ≡ found_in values.now cares.now) }
{
    let mut found = Vec::new(alloc);
    for care in cares {
        add_found(alloc, &mut found, care.asks.as_slice(), values)?;
    }
    Ok(found)
}

fn add_found(
    alloc: Global,
    found: &mut Vec<bool>,
    asks: &[Ask],
    values: &[(usize, Value)],
) -> Result<(), Memory>
    ensures { IfOk result (λ _. found.new.items ≡ found.old.items ++ map (is_given values.now) asks.now) }
{
    for ask in asks {
        found.push(is_given(alloc, ask, values)?)?;
    }
    Ok(())
}

// What was met stays met.
fn note(met: &mut Vec<bool>, found: &[bool])
    ensures { met.new.items ≡ more_met met.old.items found.now }
{
    for (at, found) in found.iter().enumerate() {
        note_at(met, at, *found);
    }
}

fn note_at(met: &mut Vec<bool>, at: usize, found: bool)
    ensures { met.new.items ≡ with_met_at met.old.items at found }
{
    if found && at < met.len() {
        met[at] = true;
    }
}
