//! The kinds of instruments that the name of a field begins with.
ghost use Rattle.std.specs.Prelude.{◌≡◌, option_map};
ghost use Rattle.std.specs.List.{list_any};
ghost use Rattle.otel_metrics.specs.Families.{text_behind, family_of, is_of_family, is_metrics_event};

use otel_base::text::Text;
use trace_base::callsite::{Callsite, Kind};

// What the fields of metrics are named after; `METRIC_PREFIX_*` of `tracing_opentelemetry::metrics`.
#[derive(Clone, Copy)]
pub(crate) enum Family {
    Gauge,
    MonotonicCounter,
    Counter,
    Histogram,
}

// The family that a field's name begins with, and what stands behind it.
#[tactic(auto, unfolding(crate::specs::Families::family_of))]
pub(crate) fn family_of(name: &str) -> Option<(Family, &str)>
    ensures { option_map (λ f. (f.0, f.1.now)) result ≡ family_of name.now }
{
    if let Some(rest) = behind("gauge.", name) {
        return Some((Family::Gauge, rest));
    }
    if let Some(rest) = behind("monotonic_counter.", name) {
        return Some((Family::MonotonicCounter, rest));
    }
    if let Some(rest) = behind("counter.", name) {
        return Some((Family::Counter, rest));
    }
    if let Some(rest) = behind("histogram.", name) {
        return Some((Family::Histogram, rest));
    }
    None
}

// What stands behind a front of a text, where it has that front.
fn behind<'a>(front: &str, text: &'a str) -> Option<&'a str>
    ensures { option_map (λ rest. rest.now) result ≡ text_behind front.now text.now }
{
    text.strip_prefix(front)
}

// The same without what stands behind it.
pub(crate) fn family_alone(name: &str) -> Option<Family>
    ensures { result ≡ option_map (λ f. f.0) (family_of name.now) }
{
    match family_of(name) {
        Some((family, _)) => Some(family),
        None => None,
    }
}

// Whether a callsite makes events and declares a field of a family.
pub(crate) fn is_metrics_event(callsite: &Callsite) -> bool
    ensures { result ≡ is_metrics_event callsite.now }
{
    callsite.kind == Kind::Event && has_family(callsite.fields.as_slice())
}

fn has_family(fields: &[Text]) -> bool
    ensures { result ≡ list_any is_of_family fields.now }
{
    fields.iter().any(|field| is_of_family(field.as_str()))
}

fn is_of_family(name: &str) -> bool
    ensures { result ≡ is_of_family name.now }
{
    match family_alone(name) {
        Some(_) => true,
        None => false,
    }
}
