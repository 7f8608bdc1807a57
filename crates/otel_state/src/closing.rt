//! What a close adds to the attributes of a span, in room that is there.
ghost use Rattle.std.specs.Prelude.{◌≡◌, ◌+◌, ◌≤◌, ◌<◌, ◌++◌, ◌∷◌, [], false, vec_len, vec_capacity};
ghost use Rattle.otel_base.specs.Words.{word_text};
ghost use Rattle.otel_state.specs.declared.times.TheConstants.{GREATEST};
ghost use Rattle.otel_state.specs.Content.{closing_count_attributes, closing_times_attributes, closing_room, number_attribute};

use crate::times::GREATEST;
use otel_base::text::Text;
use otel_base::value::{KeyValue, OtelValue};
use otel_base::word::Word;

// How many attributes a close adds.
pub(crate) fn closing_room(counting: bool, inactivity: bool) -> usize
    ensures value { result ≡ closing_room counting inactivity }
    ensures most { result ≤ 3 }
{
    usize::from(counting) + if inactivity { 2 } else { 0 }
}

// Adds how many events were counted, where that is told, in room that is there.
pub(crate) fn add_count(
    attributes: &mut Vec<KeyValue>,
    counting: bool,
    counted: u64,
    inactivity: bool,
)
    requires room { vec_len attributes.old + closing_room counting inactivity ≤ vec_capacity attributes.old }
    requires number_attribute { counted ≤ GREATEST }
    ensures items { attributes.new.items ≡ attributes.old.items ++ closing_count_attributes counting counted }
    ensures room { vec_len attributes.new + closing_room false inactivity ≤ vec_capacity attributes.new }
{
    if counting {
        add_number(attributes, Word::EventCount, counted);
    }
}

// Adds the times, where these are told, in room that is there.
pub(crate) fn add_times(attributes: &mut Vec<KeyValue>, inactivity: bool, busy: u64, idle: u64)
    requires room { vec_len attributes.old + closing_room false inactivity ≤ vec_capacity attributes.old }
    requires busy { busy ≤ GREATEST }
    requires idle { idle ≤ GREATEST }
    ensures { attributes.new.items ≡ attributes.old.items ++ closing_times_attributes inactivity busy idle }
{
    if inactivity {
        add_number(attributes, Word::Busy, busy);
        add_number(attributes, Word::Idle, idle);
    }
}

// Adds an attribute that tells a number, in room that is there.
fn add_number(attributes: &mut Vec<KeyValue>, key: Word, told: u64)
    requires room { vec_len attributes.old < vec_capacity attributes.old }
    requires number_attribute { told ≤ GREATEST }
    ensures items { attributes.new.items ≡ attributes.old.items ++ number_attribute (word_text key) told ∷ [] }
    ensures len { vec_len attributes.new ≡ vec_len attributes.old + 1 }
    ensures capacity { vec_capacity attributes.old ≤ vec_capacity attributes.new }
{
    match attributes.push(KeyValue {
        key: Text::from_word(key),
        value: OtelValue::I64(told as i64),
    }) {
        Ok(()) => {}
        Err(_) => unreachable!(),
    }
}
