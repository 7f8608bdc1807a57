//! Task lines as they are mostly written: compact, and with their members in the order of their names, which are read in one
//! pass. None says nothing of what a text is.
ghost use Rattle.std.specs.Prelude.{◌≡◌, ◌<◌, ◌≤◌, ◌^◌, ◌+◌, ◌++◌, [], ◌∷◌, Some, Ok, IfSome, decimal, length};
ghost use Rattle.serde_json.specs.Data.{Data};
ghost use Rattle.trace_lines.specs.forms.AttributeForm.{otel_value_of};
ghost use Rattle.trace_lines.specs.forms.FieldForm.{fields_of};
ghost use Rattle.trace_lines.specs.reading.Left.{value_data};
ghost use Rattle.trace_lines.specs.text.Compact.{BeginsWithValue};
ghost use Rattle.task_lines.specs.Compact.{BeginsStep, BeginsSteps, EndsTask};
ghost use Rattle.task_lines.specs.TaskForm.{task_spelled};

use memchr::memchr;
use otel_base::list::Items;
use otel_base::text::Text;
use otel_base::value::OtelValue;
use std::alloc::Global;
use trace_base::field::Value as FieldValue;
use trace_lines::read::syntax::scan::{MAX_DEPTH, behind_word, number, text, value};
use trace_lines::read::{expect_bracket, is_utf8, leading_fields};
use trace_lines::{Value, otel_value_of};
use trace_tasks::script::{Step, Task};

// The room that the steps of most tasks need.
const USUAL_STEPS: usize = 16;

// The most steps that are read so.
const MAX_STEPS: u32 = 65_536;

// The number of a callsite behind a front, and what stands behind the bracket that closes its object.
fn closing_site<'a>(bytes: &'a [u8], front: &[u8]) -> Option<(u64, &'a [u8])>
    ensures text { IfSome result (λ r. bytes.now ≡ front.now ++ (decimal r.0 ++ 125 ∷ r.1.now)) }
    ensures fits { IfSome result (λ r. r.0 < 2 ^ 64) }
{
    let digits = behind_word(bytes, front)?;
    let (site, end) = number(digits)?;
    let rest = behind_word(end, b"}")?;
    Some((site, rest))
}

// The items of a list, in room for no more, since tasks are kept until all are read.
fn without_spare_room<T: Drop>(alloc: Global, items: Vec<T>) -> Option<Items<T>>
    ensures { IfSome result (λ list. list ≡ items.items) }
{
    let mut items = items;
    let mut list = Vec::with_capacity(alloc, items.len()).ok()?;
    list.append(&mut items).ok()?;
    Some(Items::from(list))
}

// The fields that an array in front of a text spells, and what stands behind it.
fn fields_in_front(alloc: Global, bytes: &[u8]) -> Option<(Items<(Text, FieldValue)>, &[u8])>
    ensures { IfSome result (λ r.
        (d : Data) × BeginsWithValue (MAX_DEPTH + 2) bytes.now d r.1.now × (fields_of d ≡ Some r.0)) }
{
    let size = fields_size(bytes);
    let (listed, tail) = leading_fields(alloc, &bytes[..size])?;
    let fields = without_spare_room(alloc, listed.into_vec())?;
    let rest = &bytes[size - tail.len()..];
    Some((fields, rest))
}

// How much of a text is tested for UTF-8 as fields: mostly these end at the first closing bracket, with another one behind it.
fn fields_size(bytes: &[u8]) -> usize
    ensures { result ≤ length bytes.now }
{
    match memchr(b']', bytes) {
        Some(at) => {
            let end = at + 1;
            if end < bytes.len() && bytes[end] == b']' {
                end + 1
            } else {
                bytes.len()
            }
        }
        None => bytes.len(),
    }
}

fn event_with_fields(alloc: Global, bytes: &[u8]) -> Option<(Step, &[u8])>
    ensures { IfSome result (λ r. BeginsStep bytes.now r.0 r.1.now) }
{
    let list = behind_word(bytes, b"{\"do\":\"event\",\"fields\":")?;
    let (fields, tail) = fields_in_front(alloc, list)?;
    let (site, rest) = closing_site(tail, b",\"site\":")?;
    Some((Step::Event { site, fields }, rest))
}

fn event_without_fields(alloc: Global, bytes: &[u8]) -> Option<(Step, &[u8])>
    ensures { IfSome result (λ r. BeginsStep bytes.now r.0 r.1.now) }
{
    let (site, rest) = closing_site(bytes, b"{\"do\":\"event\",\"site\":")?;
    let fields = Items::new(alloc);
    Some((Step::Event { site, fields }, rest))
}

fn record(alloc: Global, bytes: &[u8]) -> Option<(Step, &[u8])>
    ensures { IfSome result (λ r. BeginsStep bytes.now r.0 r.1.now) }
{
    let list = behind_word(bytes, b"{\"do\":\"record\",\"fields\":")?;
    let (fields, tail) = fields_in_front(alloc, list)?;
    let rest = behind_word(tail, b"}")?;
    Some((Step::Record { fields }, rest))
}

// A text of one's own.
fn owned_text(alloc: Global, words: &[u8]) -> Option<Text>
    ensures { IfSome result (λ text. text ≡ words.now) }
{
    let words = str::from_utf8(words).ok()?;
    Some(Text::from_str(alloc, words).ok()?)
}

// The value of an attribute.
fn attribute_value(alloc: Global, value: Value<'_>) -> Option<OtelValue>
    ensures { IfSome result (λ spelled. otel_value_of (value_data value.entry) ≡ Some spelled) }
{
    let spelled = otel_value_of(alloc, value).ok()?;
    Some(spelled)
}

fn set_attribute(alloc: Global, bytes: &[u8]) -> Option<(Step, &[u8])>
    ensures { IfSome result (λ r. BeginsStep bytes.now r.0 r.1.now) }
{
    let named = behind_word(bytes, b"{\"do\":\"set_attribute\",\"key\":")?;
    let (words, tail) = text(named)?;
    let inner = behind_word(tail, b",\"value\":")?;
    let (plain, end) = value(inner)?;
    let rest = behind_word(end, b"}")?;
    let key = owned_text(alloc, words)?;
    let value = attribute_value(alloc, Value::Plain(plain))?;
    Some((Step::SetAttribute { key, value }, rest))
}

fn yield_step(bytes: &[u8]) -> Option<(Step, &[u8])>
    ensures { IfSome result (λ r. BeginsStep bytes.now r.0 r.1.now) }
{
    let rest = behind_word(bytes, b"{\"do\":\"yield\"}")?;
    Some((Step::Yield, rest))
}

// A step, and what stands behind it. Its kind is told by the first letter of its word.
fn step(alloc: Global, bytes: &[u8]) -> Option<(Step, &[u8])>
    ensures { IfSome result (λ r. BeginsStep bytes.now r.0 r.1.now) }
{
    if bytes.len() < 8 {
        return None;
    }
    match bytes[7] {
        b'e' => match event_with_fields(alloc, bytes) {
            Some((step, rest)) => Some((step, rest)),
            None => event_without_fields(alloc, bytes),
        },
        b'r' => record(alloc, bytes),
        b's' => set_attribute(alloc, bytes),
        _ => yield_step(bytes),
    }
}

// Adds a step. None where there is no memory.
fn push_step(steps: &mut Vec<Step>, step: Step) -> Option<()>
    ensures { IfSome result (λ _. steps.new.items ≡ steps.old.items ++ step ∷ []) }
{
    steps.push(step).ok()?;
    Some(())
}

// The steps that an array in front of a text spells, and what stands behind it.
fn leading_steps(alloc: Global, bytes: &[u8]) -> Option<(Items<Step>, &[u8])>
    ensures { IfSome result (λ r. BeginsSteps bytes.now r.0 r.1.now) }
{
    let mut rest = behind_word(bytes, b"[")?;
    if let Some(end) = behind_word(rest, b"]") {
        return Some((Items::new(alloc), end));
    }
    let mut steps = Vec::with_capacity(alloc, USUAL_STEPS).ok()?;
    for _ in 0..MAX_STEPS {
        let (next, after) = step(alloc, rest)?;
        push_step(&mut steps, next)?;
        match behind_word(after, b",") {
            Some(more) => rest = more,
            None => {
                let end = behind_word(after, b"]")?;
                let listed = without_spare_room(alloc, steps)?;
                return Some((listed, end));
            }
        }
    }
    None
}

// The number of a callsite behind a front, and the steps that close their object, with nothing behind it.
fn site_and_steps(alloc: Global, bytes: &[u8], front: &[u8]) -> Option<(u64, Items<Step>)>
    ensures text { IfSome result (λ r. EndsTask front.now bytes.now r.0 r.1) }
    ensures fits { IfSome result (λ r. r.0 < 2 ^ 64) }
{
    let digits = behind_word(bytes, front)?;
    let (site, tail) = number(digits)?;
    let list = behind_word(tail, b",\"task\":")?;
    let (steps, end) = leading_steps(alloc, list)?;
    expect_bracket(end, b'}')?;
    Some((site, steps))
}

/// The task of a line.
pub(crate) fn quick_task(alloc: Global, line: &[u8]) -> Option<Task>
    ensures { IfSome result (λ task. task_spelled line.now ≡ Ok task) }
{
    if !is_utf8(line) {
        return None;
    }
    match behind_word(line, b"{\"fields\":") {
        Some(list) => {
            let (fields, tail) = fields_in_front(alloc, list)?;
            let (site, steps) = site_and_steps(alloc, tail, b",\"site\":")?;
            Some(Task {
                site,
                fields,
                steps,
            })
        }
        None => {
            let (site, steps) = site_and_steps(alloc, line, b"{\"site\":")?;
            let fields = Items::new(alloc);
            Some(Task {
                site,
                fields,
                steps,
            })
        }
    }
}
