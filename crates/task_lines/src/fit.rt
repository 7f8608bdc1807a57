//! Whether a task fits its settings.
ghost use Rattle.std.specs.Prelude.{◌≡◌, is_some, map, option_map};
ghost use Rattle.std.specs.List.{list_all};
ghost use Rattle.span_script.specs.Setups.{span_site, event_site};
ghost use Rattle.trace_tasks.specs.FieldNames.{declares_all, declares_by};
ghost use Rattle.task_lines.specs.Fit.{has_site_of_step, has_sites, declares_event_fields, declares_task_fields, missing_name};

use otel_base::text::Text;
use span_script::reply::What;
use span_script::settings::Settings;
use trace_base::callsite::{Callsite, Kind};
use trace_base::field::Value;
use trace_tasks::script::{Step, Task};

// Whether a callsite is there that makes spans.
fn has_span_site(sites: &[Callsite], site: u64) -> bool
    ensures { result ≡ is_some (span_site sites.now site) }
{
    match sites.get(site as usize) {
        Some(callsite) => match callsite.kind {
            Kind::Span => true,
            Kind::Event => false,
        },
        None => false,
    }
}

// Whether a callsite is there that makes events.
fn has_event_site(sites: &[Callsite], site: u64) -> bool
    ensures { result ≡ is_some (event_site sites.now site) }
{
    match sites.get(site as usize) {
        Some(callsite) => match callsite.kind {
            Kind::Event => true,
            Kind::Span => false,
        },
        None => false,
    }
}

// Whether a step's event has its callsite.
fn has_site_of_step(sites: &[Callsite], step: &Step) -> bool
    ensures { result ≡ has_site_of_step sites.now step.now }
{
    match step {
        Step::Event { site, fields: _ } => has_event_site(sites, *site),
        Step::Record { .. } | Step::SetAttribute { .. } | Step::Yield => true,
    }
}

// Whether all events of some steps have theirs.
fn have_sites_of_steps(sites: &[Callsite], steps: &[Step]) -> bool
    ensures { result ≡ list_all (λ s. has_site_of_step sites.now s) steps.now }
{
    for step in steps {
        if !has_site_of_step(sites, step) {
            return false;
        }
    }
    true
}

// Whether a callsite declares all of some fields.
fn declares_all(callsite: &Callsite, fields: &[(Text, Value)]) -> bool
    ensures { result ≡ declares_all callsite.now fields.now }
{
    for (name, _) in fields {
        if callsite.field(name.as_str()).is_none() {
            return false;
        }
    }
    true
}

// Whether the callsite at a place declares all of some fields.
fn declares_at(sites: &[Callsite], site: u64, fields: &[(Text, Value)]) -> bool
    ensures { result ≡ declares_by sites.now site fields.now }
{
    match sites.get(site as usize) {
        Some(callsite) => declares_all(callsite, fields),
        None => false,
    }
}

// Whether the callsite of a step's event declares its fields.
fn declares_event_fields(sites: &[Callsite], step: &Step) -> bool
    ensures { result ≡ declares_event_fields sites.now step.now }
{
    match step {
        Step::Event { site, fields } => declares_at(sites, *site, fields.as_slice()),
        Step::Record { .. } | Step::SetAttribute { .. } | Step::Yield => true,
    }
}

// Whether those of all events of some steps do.
fn declare_event_fields(sites: &[Callsite], steps: &[Step]) -> bool
    ensures { result ≡ list_all (λ s. declares_event_fields sites.now s) steps.now }
{
    for step in steps {
        if !declares_event_fields(sites, step) {
            return false;
        }
    }
    true
}

/// What a task names that isn't there, by the first of these that applies: the settings have no lane; a callsite of its span
/// or of an event isn't there, or is of the other kind; a field of its span or of an event isn't declared.
pub fn missing_name(settings: &Settings, task: &Task) -> Option<What>
    ensures { result ≡ missing_name settings.now task.now }
{
    let sites = settings.callsites.as_slice();
    let steps = task.steps.as_slice();
    if settings.lanes.as_slice().is_empty() {
        return Some(What::Lane);
    }
    if !(has_span_site(sites, task.site) && have_sites_of_steps(sites, steps)) {
        return Some(What::Site);
    }
    if !(declares_at(sites, task.site, task.fields.as_slice())
        && declare_event_fields(sites, steps))
    {
        return Some(What::Field);
    }
    None
}
