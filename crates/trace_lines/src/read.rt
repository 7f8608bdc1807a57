//! Reading lines: what a settings line and a request line spell.
ghost use Rattle.std.specs.Prelude.{◌≡◌, map, true, Ok, Err, IfOk, IsErrOf, option_and_then};
ghost use Rattle.serde_json.specs.View.{view};
ghost use Rattle.span_script.specs.Setups.{HaveDistinctIds};
ghost use Rattle.trace_lines.specs.forms.Forms.{all_of};
ghost use Rattle.trace_lines.specs.reading.Gives.{Gives};
ghost use Rattle.trace_lines.specs.forms.RequestForm.{request_form};
ghost use Rattle.trace_lines.specs.forms.SettingsForm.{settings_form, lane_ids, all_differ};
ghost use Rattle.trace_lines.specs.reading.Spelled.{line_value, line_members, settings_spelled, request_spelled};
ghost use Rattle.trace_lines.specs.declared.told.Told.{Told};
ghost use Rattle.trace_lines.specs.declared.read.LineError.TheVariants.{Memory};

mod attributes;
mod decimal;
mod extension;
mod fields;
mod hex;
pub mod laws;
mod plain;
mod plain_fields;
mod quick;
mod request;
mod settings;
pub mod syntax;

pub use attributes::{otel_value_of, read_attribute_value, read_attributes, read_status};
pub use decimal::u128_of;
pub use fields::{fields_of, read_fields};
pub use hex::{read_span_id, read_trace_id};
use otel_base::memory;
pub use plain_fields::leading_fields;
pub use request::fields as given_fields;
use serde_json::Value as Json;
use span_script::request::Request;
use span_script::settings::Settings;
use std::alloc::{AllocError, AllocFailed, Global};
pub use syntax::flat::{expect_bracket, is_utf8};
pub use syntax::object::Object;
pub use syntax::value::Value;

/// Why a line gives no value.
#[derive(Clone, Copy, Debug, PartialEq, Eq)]
pub enum LineError {
    /// The line is no JSON, or no object, or one of no form.
    BadLine,
    /// No memory was to be had.
    Memory,
}

impl From<AllocError> for LineError {
    ghost from_gives = { λ _ e. e ≡ Memory };

    fn from(_error: AllocError) -> LineError {
        LineError::Memory
    }
}

impl<T: Drop> From<AllocFailed<T>> for LineError {
    ghost from_gives = { λ _ e. e ≡ Memory };

    fn from(_error: AllocFailed<T>) -> LineError {
        LineError::Memory
    }
}

impl From<memory::Memory> for LineError {
    ghost from_gives = { λ _ e. e ≡ Memory };

    fn from(_error: memory::Memory) -> LineError {
        LineError::Memory
    }
}

fn settings_of(alloc: Global, line: &[u8]) -> Result<Settings, LineError>
    ensures form { Gives (λ s. s) result (option_and_then (all_of settings_form) (line_members line.now)) }
    ensures differ { IfOk result (λ s. all_differ (lane_ids s.lanes) ≡ true) }
{
    let mut object = Object::open(alloc, line)?;
    let settings = settings::settings_members(alloc, &mut object)?;
    object.end()?;
    Ok(settings)
}

fn request_of(alloc: Global, line: &[u8]) -> Result<Request, LineError>
    ensures { Gives (λ r. r) result (option_and_then (all_of request_form) (line_members line.now)) }
{
    let mut object = Object::open(alloc, line)?;
    let request = request::request_members(alloc, &mut object)?;
    object.end()?;
    Ok(request)
}

/// Reads a settings line. `BadLine` where it is no JSON or no object or one of no form, `Memory` freely.
#[tactic(auto, using(crate::proofs::ids::PlacesLemmas::own_ids), unfolding(crate::specs::reading::Spelled::settings_spelled))]
pub fn read_settings(alloc: Global, line: &[u8]) -> Result<Settings, LineError>
    ensures ok { IfOk result (λ settings. settings_spelled line.now ≡ Ok settings) }
    ensures lanes { IfOk result (λ settings. HaveDistinctIds (map (λ l. l.0) settings.lanes)) }
    ensures bad_line { IsErrOf result LineError.BadLine → settings_spelled line.now ≡ Err Told.BadLine }
{
    settings_of(alloc, line)
}

/// Reads a request line. `BadLine` where it is no JSON or no object or one of no form, `Memory` freely.
#[tactic(auto, unfolding(crate::specs::reading::Spelled::request_spelled))]
pub fn read_request(alloc: Global, line: &[u8]) -> Result<Request, LineError>
    ensures ok { IfOk result (λ request. request_spelled line.now ≡ Ok request) }
    ensures bad_line { IsErrOf result LineError.BadLine → request_spelled line.now ≡ Err Told.BadLine }
{
    if let Some(request) = quick::quick_request(alloc, line) {
        return Ok(request);
    }
    request_of(alloc, line)
}

/// Reads a line as a JSON value, for readers of other lines. `BadLine` where it is no JSON, `Memory` freely.
pub fn read_value(alloc: Global, line: &[u8]) -> Result<Json, LineError>
    ensures { Gives view result (line_value line.now) }
{
    syntax::tree::value_of(alloc, line)
}
