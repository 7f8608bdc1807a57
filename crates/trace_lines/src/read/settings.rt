//! Reading settings: callsites, the texts of filters, lanes and the layer.
ghost use Rattle.std.specs.Prelude.{◌≡◌, true, IfOk};
ghost use Rattle.trace_lines.specs.reading.Gives.{Gives};
ghost use Rattle.trace_lines.specs.reading.Left.{value_data, members_left};
ghost use Rattle.trace_lines.specs.forms.Forms.{each, object_of, unit_if};
ghost use Rattle.trace_lines.specs.reading.Object.{items};
ghost use Rattle.trace_lines.specs.forms.SettingsForm.{lane_form, level_form, kind_form, source_form, callsite_form, callsites_form, error_flags, span_flags, layer_form, lanes_form, given_layer, settings_form, lane_ids, all_differ};

use crate::level_words::{kind_of, level_of};
use crate::read::LineError;
use crate::read::fields::taken_texts;
use crate::read::syntax::object::Object;
use crate::read::syntax::value::Value;
use otel_base::list::Items;
use otel_base::text::Text;
use otel_state::settings::LayerSettings;
use span_script::settings::Settings;
use std::alloc::Global;
use std::collections::BTreeSet;
use trace_base::callsite::{Callsite, Kind};
use trace_base::level::Level;

// The greatest id of a lane.
const MAX_LANE_ID: u64 = 9_223_372_036_854_775_807;

#[tactic(auto, unfolding(crate::specs::forms::SettingsForm::lane_form))]
fn lane_members(alloc: Global, object: &mut Object) -> Result<(u64, Option<Text>), LineError>
    ensures { Gives (λ l. (l, members_left object.new)) result (lane_form (members_left object.old)) }
{
    let id = object.whole_to(MAX_LANE_ID, "id")?;
    let name = object.optional_text(alloc, "name")?;
    Ok((id, name))
}

fn lane(alloc: Global, value: Value<'_>) -> Result<(u64, Option<Text>), LineError>
    ensures { Gives (λ l. l) result (object_of lane_form (value_data value.entry)) }
{
    let mut object = Object::of(alloc, value)?;
    let lane = lane_members(alloc, &mut object)?;
    object.end()?;
    Ok(lane)
}

fn lanes(alloc: Global, values: Vec<Value<'_>>) -> Result<Items<(u64, Option<Text>)>, LineError>
    ensures { Gives (λ l. l) result (each (object_of lane_form) (items value_data values.entry.items)) }
{
    let mut lanes = Items::new(alloc);
    for value in values {
        lanes.push(lane(alloc, value)?)?;
    }
    Ok(lanes)
}

// Takes the level of a callsite.
fn level(object: &mut Object) -> Result<Level, LineError>
    ensures { Gives (λ l. (l, members_left object.new)) result (level_form (members_left object.old)) }
{
    let word = object.member("level")?;
    level_of(word.word()?).ok_or(LineError::BadLine)
}

// Takes what a callsite makes.
fn kind(object: &mut Object) -> Result<Kind, LineError>
    ensures { Gives (λ k. (k, members_left object.new)) result (kind_form (members_left object.old)) }
{
    let word = object.member("kind")?;
    kind_of(word.word()?).ok_or(LineError::BadLine)
}

// Takes the file and the module that a callsite stands in.
fn source(alloc: Global, object: &mut Object) -> Result<(Option<Text>, Option<Text>), LineError>
    ensures { Gives (λ s. (s, members_left object.new)) result (source_form (members_left object.old)) }
{
    let file = object.optional_text(alloc, "file")?;
    let module_path = object.optional_text(alloc, "module")?;
    Ok((file, module_path))
}

#[tactic(auto, unfolding(crate::specs::forms::SettingsForm::callsite_form))]
fn callsite_members(alloc: Global, object: &mut Object) -> Result<Callsite, LineError>
    ensures { Gives (λ c. (c, members_left object.new)) result (callsite_form (members_left object.old)) }
{
    let name = object.text(alloc, "name")?;
    let target = object.text(alloc, "target")?;
    let level = level(object)?;
    let kind = kind(object)?;
    let fields = taken_texts(alloc, object, "fields")?;
    let (file, module_path) = source(alloc, object)?;
    let line = object.optional_u32("line")?;
    Ok(Callsite {
        name,
        target,
        level,
        kind,
        file,
        module_path,
        line,
        fields,
    })
}

fn callsite(alloc: Global, value: Value<'_>) -> Result<Callsite, LineError>
    ensures { Gives (λ c. c) result (object_of callsite_form (value_data value.entry)) }
{
    let mut object = Object::of(alloc, value)?;
    let callsite = callsite_members(alloc, &mut object)?;
    object.end()?;
    Ok(callsite)
}

fn callsites(alloc: Global, values: Vec<Value<'_>>) -> Result<Items<Callsite>, LineError>
    ensures { Gives (λ l. l) result (each (object_of callsite_form) (items value_data values.entry.items)) }
{
    let mut callsites = Items::new(alloc);
    for value in values {
        callsites.push(callsite(alloc, value)?)?;
    }
    Ok(callsites)
}

// Takes what is told of errors.
#[tactic(auto, unfolding(crate::specs::forms::SettingsForm::error_flags))]
fn error_flags(object: &mut Object, usual: LayerSettings) -> Result<LayerSettings, LineError>
    ensures { Gives (λ s. (s, members_left object.new)) result (error_flags usual (members_left object.old)) }
{
    let error_events_to_exceptions = object.flag_or(
        usual.error_events_to_exceptions,
        "error_events_to_exceptions",
    )?;
    let error_events_to_status = object.flag_or(
        usual.error_events_to_status,
        "error_events_to_status",
    )?;
    let error_fields_to_exceptions = object.flag_or(
        usual.error_fields_to_exceptions,
        "error_fields_to_exceptions",
    )?;
    let error_records_to_exceptions = object.flag_or(
        usual.error_records_to_exceptions,
        "error_records_to_exceptions",
    )?;
    Ok(LayerSettings {
        error_events_to_exceptions,
        error_events_to_status,
        error_fields_to_exceptions,
        error_records_to_exceptions,
        ..usual
    })
}

// Takes what is told of a span beside its fields.
#[tactic(auto, unfolding(crate::specs::forms::SettingsForm::span_flags))]
fn span_flags(object: &mut Object, usual: LayerSettings) -> Result<LayerSettings, LineError>
    ensures { Gives (λ s. (s, members_left object.new)) result (span_flags usual (members_left object.old)) }
{
    let level = object.flag_or(usual.level, "level")?;
    let location = object.flag_or(usual.location, "location")?;
    let target = object.flag_or(usual.target, "target")?;
    let threads = object.flag_or(usual.threads, "threads")?;
    Ok(LayerSettings {
        level,
        location,
        target,
        threads,
        ..usual
    })
}

#[tactic(auto, unfolding(crate::specs::forms::SettingsForm::layer_form))]
fn layer_members(object: &mut Object) -> Result<LayerSettings, LineError>
    ensures { Gives (λ s. (s, members_left object.new)) result (layer_form (members_left object.old)) }
{
    let usual = LayerSettings::default();
    let activation = object.flag_or(usual.activation, "activation")?;
    let eager = object.flag_or(usual.eager, "eager")?;
    let inactivity = object.flag_or(usual.inactivity, "inactivity")?;
    let errors = error_flags(object, usual)?;
    let all = span_flags(object, errors)?;
    Ok(LayerSettings {
        activation,
        eager,
        inactivity,
        ..all
    })
}

fn layer_of(alloc: Global, value: Value<'_>) -> Result<LayerSettings, LineError>
    ensures { Gives (λ s. s) result (object_of layer_form (value_data value.entry)) }
{
    let mut object = Object::of(alloc, value)?;
    let layer = layer_members(&mut object)?;
    object.end()?;
    Ok(layer)
}

// Makes sure that no two lanes have the same id.
fn require_distinct(alloc: Global, lanes: &[(u64, Option<Text>)]) -> Result<(), LineError>
    ensures { Gives (λ u. u) result (unit_if (all_differ (lane_ids lanes.now))) }
{
    let mut seen = BTreeSet::new(alloc);
    for lane in lanes {
        if !seen.insert(lane.0)? {
            return Err(LineError::BadLine);
        }
    }
    Ok(())
}

// Takes the callsites.
fn given_callsites(alloc: Global, object: &mut Object) -> Result<Items<Callsite>, LineError>
    ensures { Gives (λ c. (c, members_left object.new)) result (callsites_form (members_left object.old)) }
{
    callsites(alloc, object.array(alloc, "callsites")?)
}

// Takes the lanes, whose ids have to differ.
fn given_lanes(alloc: Global, object: &mut Object) -> Result<Items<(u64, Option<Text>)>, LineError>
    ensures form { Gives (λ l. (l, members_left object.new)) result (lanes_form (members_left object.old)) }
    ensures differ { IfOk result (λ l. all_differ (lane_ids l) ≡ true) }
{
    let lanes = lanes(alloc, object.array(alloc, "lanes")?)?;
    require_distinct(alloc, lanes.as_slice())?;
    Ok(lanes)
}

// Takes what the layer tells.
fn given_layer(alloc: Global, object: &mut Object) -> Result<LayerSettings, LineError>
    ensures { Gives (λ s. (s, members_left object.new)) result (given_layer (members_left object.old)) }
{
    match object.optional("layer") {
        Some(value) => layer_of(alloc, value),
        None => Ok(LayerSettings::default()),
    }
}

/// Takes the members of settings.
#[tactic(auto, unfolding(crate::specs::forms::SettingsForm::settings_form))]
pub(crate) fn settings_members(alloc: Global, object: &mut Object) -> Result<Settings, LineError>
    ensures form { Gives (λ s. (s, members_left object.new)) result (settings_form (members_left object.old)) }
    ensures differ { IfOk result (λ s. all_differ (lane_ids s.lanes) ≡ true) }
{
    let callsites = given_callsites(alloc, object)?;
    let counting = object.optional_text(alloc, "counting")?;
    let filter = object.text(alloc, "filter")?;
    let lanes = given_lanes(alloc, object)?;
    let layer = given_layer(alloc, object)?;
    Ok(Settings {
        filter,
        counting,
        lanes,
        callsites,
        layer,
    })
}
