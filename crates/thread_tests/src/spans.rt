//! The span that the tests share, and the same with nobody to share it.
ghost use Rattle.std.specs.Prelude.{◌≡◌, IfOk};
ghost use Rattle.trace_threads.specs.Handles.{open_count_of};

use otel_base::context::{Context, SpanContext};
use otel_base::list::Items;
use otel_base::memory::Memory;
use otel_base::stack::ContextStack;
use otel_base::text::Text;
use otel_base::value::KeyValue;
use otel_state::{LayerSettings, Op, SpanState, Update, first_attributes, span_update};
use std::alloc::Global;
use trace_base::callsite::{Callsite, Kind};
use trace_base::field::{Value, ValueSet};
use trace_base::lane::Lane;
use trace_base::level::Level;
use trace_threads::handle::Handle;

/// The ids with which it starts.
pub const SPAN_IDS: SpanContext = SpanContext { trace: 7, span: 9 };

/// The first handle of a span that is made at moment 5 on the lane 4, with 3 in its field `a`.
pub fn span(alloc: Global) -> Result<Handle, Memory>
    ensures { IfOk result (λ h. open_count_of h ≡ 0) }
{
    Handle::make(
        alloc,
        &callsite(alloc)?,
        &lane(alloc),
        &LayerSettings::default(),
        5,
        SPAN_IDS,
        Context::empty(),
        &values(alloc)?,
    )
}

/// The state of a span that is made as the shared one, with nobody to share it.
pub fn lone_state(alloc: Global) -> Result<SpanState, Memory> {
    let mut state = SpanState::new(
        alloc,
        "s",
        Context::empty(),
        5,
        start_attributes(alloc)?,
        false,
        true,
    )?;
    state.apply(
        5,
        Op::Update {
            update: update(alloc)?,
        },
    )?;
    Ok(state)
}

fn start_attributes(alloc: Global) -> Result<Items<KeyValue>, Memory> {
    let settings = LayerSettings::default();
    first_attributes(alloc, &callsite(alloc)?, &lane(alloc), &settings, 0)
}

fn update(alloc: Global) -> Result<Update, Memory> {
    let settings = LayerSettings::default();
    span_update(alloc, &callsite(alloc)?, &values(alloc)?, &settings)
}

fn lane(alloc: Global) -> Lane {
    Lane {
        id: 4,
        name: None,
        default: None,
        contexts: ContextStack::new(alloc),
    }
}

fn values(alloc: Global) -> Result<ValueSet, Memory> {
    let mut pairs = Items::new(alloc);
    pairs.push((0, Value::I64(3)))?;
    Ok(ValueSet { pairs })
}

fn text(alloc: Global, text: &str) -> Result<Text, Memory> {
    Text::from_str(alloc, text)
}

fn callsite(alloc: Global) -> Result<Callsite, Memory> {
    let mut fields = Items::new(alloc);
    fields.push(text(alloc, "a")?)?;
    Ok(Callsite {
        name: text(alloc, "s")?,
        target: text(alloc, "app")?,
        level: Level::INFO,
        kind: Kind::Span,
        file: None,
        module_path: None,
        line: None,
        fields,
    })
}
