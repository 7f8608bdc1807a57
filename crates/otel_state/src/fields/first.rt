//! The attributes that a span has from its making.
ghost use Rattle.std.specs.Prelude.{◌≡◌, ◌++◌, OnOk, IfOk};
ghost use Rattle.otel_state.specs.fields.Fields.{if_wanted, level_attributes, target_attributes};
ghost use Rattle.otel_state.specs.fields.FirstAttributes.{first_attributes, lane_attributes};

use crate::fields::{add_known_text, add_location, add_text};
use crate::settings::LayerSettings;
use crate::times::GREATEST;
use otel_base::list::Items;
use otel_base::memory::Memory;
use otel_base::text::Text;
use otel_base::value::{KeyValue, OtelValue};
use otel_base::word::Word;
use std::alloc::Global;
use trace_base::callsite::Callsite;
use trace_base::lane::Lane;

/// The first attributes of a span of a callsite that is made on a lane: location, lane, level and target, each if it is
/// wanted and known; those that `tracing_opentelemetry::layer` adds in `on_new_span`. They come in a list with room for
/// `more` and for the times of a close.
pub fn first_attributes(
    alloc: Global,
    callsite: &Callsite,
    lane: &Lane,
    settings: &LayerSettings,
    more: usize,
) -> Result<Items<KeyValue>, Memory>
    ensures { IfOk result (λ attributes. attributes ≡ first_attributes callsite.now lane.now settings.now) }
{
    let mut attributes = Items::with_capacity(
        alloc,
        max_attributes(settings).saturating_add(more),
    )?;
    add_location(alloc, &mut attributes, settings.location, callsite)?;
    add_lane(alloc, &mut attributes, settings.threads, lane)?;
    add_level(alloc, &mut attributes, settings.level, callsite)?;
    add_target(alloc, &mut attributes, settings.target, callsite)?;
    Ok(attributes)
}

// How many they are at most, with the times of a close.
fn max_attributes(settings: &LayerSettings) -> usize {
    let location = if settings.location { 3 } else { 0 };
    let lane = if settings.threads { 2 } else { 0 };
    let times = if settings.inactivity { 2 } else { 0 };
    location + lane + usize::from(settings.level) + usize::from(settings.target) + times
}

fn add_lane(
    alloc: Global,
    attributes: &mut Items<KeyValue>,
    is_wanted: bool,
    lane: &Lane,
) -> Result<(), Memory>
    ensures { OnOk result (attributes.new ≡ attributes.old ++ if_wanted is_wanted (lane_attributes lane.now)) }
{
    if is_wanted {
        attributes.push(KeyValue {
            key: Text::from_word(Word::ThreadId),
            value: OtelValue::I64(lane.id.min(GREATEST) as i64),
        })?;
        add_known_text(alloc, attributes, Word::ThreadName, &lane.name)?;
    }
    Ok(())
}

// Adds the level of a callsite, where it is wanted.
pub(crate) fn add_level(
    alloc: Global,
    attributes: &mut Items<KeyValue>,
    is_wanted: bool,
    callsite: &Callsite,
) -> Result<(), Memory>
    ensures { OnOk result (attributes.new ≡ attributes.old ++ if_wanted is_wanted (level_attributes callsite.now)) }
{
    if is_wanted {
        let level = Text::from_word(callsite.level.word());
        add_text(attributes, Text::from_word(Word::Level), level)?;
    }
    Ok(())
}

// Adds the target of a callsite, where it is wanted.
pub(crate) fn add_target(
    alloc: Global,
    attributes: &mut Items<KeyValue>,
    is_wanted: bool,
    callsite: &Callsite,
) -> Result<(), Memory>
    ensures { OnOk result (attributes.new ≡ attributes.old ++ if_wanted is_wanted (target_attributes callsite.now)) }
{
    if is_wanted {
        add_text(
            attributes,
            Text::from_word(Word::Target),
            callsite.target.clone()?,
        )?;
    }
    Ok(())
}
