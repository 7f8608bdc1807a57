//! The script that is made for a number of rounds, as settings and requests.
ghost use Rattle.std.specs.Prelude.{◌≡◌, ◌+◌, ◌<◌, IfOk};
ghost use Rattle.trace_lines.specs.Generated.{generated_site, web_request_site, row_site, generated_settings, request_in_round, root_fields, row_fields, round_with, requests_of_round};

pub mod laws;

use otel_base::list::Items;
use otel_base::memory::Memory;
use otel_base::text::Text;
use otel_state::settings::LayerSettings;
use span_script::request::{Call, Request, RequestParent};
use span_script::settings::Settings;
use std::alloc::Global;
use trace_base::callsite::{Callsite, Kind};
use trace_base::field::Value;
use trace_base::level::Level;

/// The most rounds that a script is made of.
pub const MAX_ROUNDS: u64 = 50_000;

fn text(alloc: Global, word: &str) -> Result<Text, Memory>
    ensures { IfOk result (λ text. text ≡ word.now) }
{
    Text::from_str(alloc, word)
}

fn callsite(
    alloc: Global,
    name: &str,
    target: &str,
    kind: Kind,
    fields: Items<Text>,
) -> Result<Callsite, Memory>
    ensures { IfOk result (λ callsite. callsite ≡ generated_site name.now target.now kind fields) }
{
    Ok(Callsite {
        name: text(alloc, name)?,
        target: text(alloc, target)?,
        level: Level::INFO,
        kind,
        file: None,
        module_path: None,
        line: None,
        fields,
    })
}

// The callsite of a request's span.
fn web_request_site(alloc: Global) -> Result<Callsite, Memory>
    ensures { IfOk result (λ site. site ≡ web_request_site) }
{
    let mut fields = Items::new(alloc);
    fields.push(text(alloc, "otel.kind")?)?;
    fields.push(text(alloc, "id")?)?;
    callsite(alloc, "request", "web", Kind::Span, fields)
}

// The callsite of a row's event.
fn row_site(alloc: Global) -> Result<Callsite, Memory>
    ensures { IfOk result (λ site. site ≡ row_site) }
{
    let mut fields = Items::new(alloc);
    fields.push(text(alloc, "message")?)?;
    callsite(alloc, "row", "web::db", Kind::Event, fields)
}

fn callsites(alloc: Global) -> Result<Items<Callsite>, Memory>
    ensures { IfOk result (λ callsites. callsites ≡ generated_settings.callsites) }
{
    let mut callsites = Items::new(alloc);
    callsites.push(web_request_site(alloc)?)?;
    callsites.push(callsite(alloc, "query", "web::db", Kind::Span, Items::new(alloc))?)?;
    callsites.push(row_site(alloc)?)?;
    Ok(callsites)
}

fn lanes(alloc: Global) -> Result<Items<(u64, Option<Text>)>, Memory>
    ensures { IfOk result (λ lanes. lanes ≡ generated_settings.lanes) }
{
    let mut lanes = Items::new(alloc);
    lanes.push((1, Some(text(alloc, "a")?)))?;
    lanes.push((2, Some(text(alloc, "b")?)))?;
    Ok(lanes)
}

/// The settings of the script: two lanes, and callsites of two spans and an event. `Memory` freely.
pub fn generated_settings(alloc: Global) -> Result<Settings, Memory>
    ensures { IfOk result (λ settings. settings ≡ generated_settings) }
{
    Ok(Settings {
        filter: text(alloc, "info")?,
        counting: None,
        lanes: lanes(alloc)?,
        callsites: callsites(alloc)?,
        layer: LayerSettings::default(),
    })
}

fn request_in_round(i: u64, later: u64, call: Call) -> Request
    requires few { i < MAX_ROUNDS }
    requires soon { later < 1000 }
    ensures { result ≡ request_in_round i later call }
{
    Request {
        at: 1000 * i + later,
        lane_place: i % 2,
        call,
    }
}

// The fields of a request's span.
fn root_fields(alloc: Global, i: u64) -> Result<Items<(Text, Value)>, Memory>
    requires { i < MAX_ROUNDS }
    ensures { IfOk result (λ fields. fields ≡ root_fields i) }
{
    let mut fields = Items::new(alloc);
    fields.push((
        text(alloc, "otel.kind")?,
        Value::Str(text(alloc, "server")?),
    ))?;
    fields.push((text(alloc, "id")?, Value::I64(i as i64)))?;
    Ok(fields)
}

// The fields of a row's event.
fn row_fields(alloc: Global) -> Result<Items<(Text, Value)>, Memory>
    ensures { IfOk result (λ fields. fields ≡ row_fields) }
{
    let mut fields = Items::new(alloc);
    fields.push((text(alloc, "message")?, Value::Str(text(alloc, "row")?)))?;
    Ok(fields)
}

/// The requests of a round: a span is made and entered, and one below it, an event is recorded, and both are exited
/// and dropped. `Memory` freely.
pub fn requests_of_round(alloc: Global, i: u64) -> Result<Vec<Request>, Memory>
    requires { i < MAX_ROUNDS }
    ensures { IfOk result (λ requests. requests.items ≡ requests_of_round i) }
{
    let root = root_fields(alloc, i)?;
    let row = row_fields(alloc)?;
    let none = Items::new(alloc);
    Ok(Vec::from_array(alloc, round_with(i, root, none, row))?)
}

// The calls of a round, with the fields of its two spans and of its event.
fn round_with(
    i: u64,
    root: Items<(Text, Value)>,
    below: Items<(Text, Value)>,
    row: Items<(Text, Value)>,
) -> [Request; 9]
    requires { i < MAX_ROUNDS }
    ensures { result ≡ round_with i root below row }
{
    let handle = 2 * i;
    let lower = 2 * i + 1;
    [
        request_in_round(
            i,
            0,
            Call::New {
                site: 0,
                parent: RequestParent::Root,
                fields: root,
            },
        ),
        request_in_round(i, 10, Call::Enter { handle }),
        request_in_round(
            i,
            20,
            Call::New {
                site: 1,
                parent: RequestParent::Contextual,
                fields: below,
            },
        ),
        request_in_round(i, 30, Call::Enter { handle: lower }),
        request_in_round(
            i,
            40,
            Call::Event {
                site: 2,
                parent: RequestParent::Contextual,
                fields: row,
            },
        ),
        request_in_round(i, 50, Call::Exit { guard: lower }),
        request_in_round(i, 60, Call::Drop { handle: lower }),
        request_in_round(i, 70, Call::Exit { guard: handle }),
        request_in_round(i, 80, Call::Drop { handle }),
    ]
}
