//! The two tables of a filter: which directives go where.
ghost use Rattle.std.specs.Prelude.{◌≡◌, [], ◌++◌, ◌∷◌, IfOk, OnOk, OnErr, map, option_map};
ghost use Rattle.std.specs.List.{list_any};
ghost use Rattle.env_directives.specs.orders.DirectiveOrder.{directive_cmp};
ghost use Rattle.env_directives.specs.orders.StaticOrder.{most_specific_first};
ghost use Rattle.env_directives.specs.orders.Table.{empty_table, with_added, with_all_added};
ghost use Rattle.env_filter.specs.Filtering.{asks_value};
ghost use Rattle.env_filter.specs.Tables.{is_static, is_dynamic, static_of, with_all_static, statics_of, dynamics_of, as_fixed_text, fixed_field, fixed_directive};

use env_directives::directive::StaticDirective;
use env_directives::directive::set::DirectiveSet;
use env_directives::env::directive::Directive;
use env_directives::env::field::{Match, ValueMatch};
use otel_base::list::Items;
use otel_base::memory::Memory;
use otel_base::text::Text;
use std::alloc::Global;

// A static directive can be judged by a callsite alone: it has no span name and asks for no value.
pub(crate) fn is_static(directive: &Directive) -> bool
    ensures { result ≡ is_static directive.now }
{
    directive.in_span.is_none() && !some_asks_value(directive.fields())
}

// A dynamic one may speak of spans: it has a span name or a field.
pub(crate) fn is_dynamic(directive: &Directive) -> bool
    ensures { result ≡ is_dynamic directive.now }
{
    directive.in_span.is_some() || !directive.fields().is_empty()
}

pub(crate) fn some_asks_value(fields: &[Match]) -> bool
    ensures { result ≡ list_any asks_value fields.now }
{
    fields.iter().any(|field| field.value.is_some())
}

// The static directive of one that has no span name and asks for no value.
pub(crate) fn static_of(alloc: Global, directive: &Directive) -> Result<StaticDirective, Memory>
    ensures { IfOk result (λ d. d ≡ static_of directive.now) }
{
    Ok(StaticDirective {
        target: directive.target.clone()?,
        field_names: names(alloc, directive.fields())?,
        level: directive.level,
    })
}

fn names(alloc: Global, fields: &[Match]) -> Result<Items<Text>, Memory>
    ensures { IfOk result (λ names. names ≡ map (λ field. field.name) fields.now) }
{
    let mut names = Items::new(alloc);
    for field in fields {
        names.push(field.name.clone()?)?;
    }
    Ok(names)
}

// The table of the static ones among some directives.
pub(crate) fn statics(
    alloc: Global,
    directives: &[Directive],
) -> Result<DirectiveSet<StaticDirective>, Memory>
    ensures { IfOk result (λ t. t ≡ statics_of directives.now) }
{
    let mut statics = DirectiveSet::new(alloc);
    for directive in directives {
        add_if_static(alloc, &mut statics, directive)?;
    }
    Ok(statics)
}

fn add_if_static(
    alloc: Global,
    statics: &mut DirectiveSet<StaticDirective>,
    directive: &Directive,
) -> Result<(), Memory>
    ensures { OnOk result (statics.new ≡ with_all_static (directive.now ∷ []) statics.old) }
{
    if is_static(directive) {
        put_static(alloc, statics, directive)
    } else {
        Ok(())
    }
}

// Adds the static directive of one that is static.
pub(crate) fn put_static(
    alloc: Global,
    statics: &mut DirectiveSet<StaticDirective>,
    directive: &Directive,
) -> Result<(), Memory>
    ensures ok { OnOk result
        (statics.new ≡ with_added most_specific_first (λ d. d.level) (static_of directive.now) statics.old) }
    ensures memory_leaves { OnErr result (statics.new ≡ statics.old) }
{
    let directive = static_of(alloc, directive)?;
    statics.add(directive)
}

// The table of the dynamic ones.
pub(crate) fn dynamics(
    alloc: Global,
    directives: Vec<Directive>,
) -> Result<DirectiveSet<Directive>, Memory>
    ensures { IfOk result (λ t. t ≡ dynamics_of directives.items) }
{
    let mut directives = directives;
    directives.retain(|directive| is_dynamic(directive));
    let mut dynamics = DirectiveSet::new(alloc);
    dynamics.extend(directives)?;
    Ok(dynamics)
}

// A directive whose patterns are fixed texts of the same bytes.
pub(crate) fn fixed_directive(directive: Directive) -> Directive
    ensures { result ≡ fixed_directive directive }
{
    let Directive {
        in_span,
        fields,
        target,
        level,
    } = directive;
    let mut fields = fields.into_vec();
    fix(&mut fields);
    Directive {
        in_span,
        fields: Items::from(fields),
        target,
        level,
    }
}

fn fix(fields: &mut Vec<Match>)
    ensures { fields.new.items ≡ map fixed_field fields.old.items }
{
    for at in 0..fields.len() {
        fix_field(&mut fields[at]);
    }
}

fn fix_field(field: &mut Match)
    ensures { field.new ≡ fixed_field field.old }
{
    field.value = field.value.take().map(fixed_value);
}

fn fixed_value(value: ValueMatch) -> ValueMatch
    ensures { result ≡ as_fixed_text value }
{
    match value {
        ValueMatch::Pat(pattern) => ValueMatch::Debug(pattern.into_debug_match()),
        other => other,
    }
}
