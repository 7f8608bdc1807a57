//! Attributes as JSON.
ghost use Rattle.std.specs.Prelude.{◌++◌};
ghost use Rattle.serde_json.specs.Written.{compact_text};
ghost use Rattle.trace_lines.specs.values.RecordData.{attribute_value};
ghost use Rattle.trace_lines.specs.text.Writes.{Writes};

use super::array::{WriteItem, add_array};
use super::pieces::{add, add_flag, add_integer, add_text};
use super::text_buffer::TextBuffer;
use otel_base::text::Text;
use otel_base::value::{KeyValue, OtelValue};
use std::alloc::AllocError;

impl WriteItem for Text {
    ghost use Rattle.serde_json.specs.Data.{string};

    ghost item_data = { string };

    fn add_item(&self, out: &mut TextBuffer, front: &str) -> Result<(), AllocError> {
        add_text(out, front, self.as_str())
    }
}

impl WriteItem for KeyValue {
    ghost use Rattle.trace_lines.specs.values.RecordData.{attribute_data};

    ghost item_data = { attribute_data };

    fn add_item(&self, out: &mut TextBuffer, front: &str) -> Result<(), AllocError> {
        add(out, front)?;
        add_text(out, "[", self.key.as_str())?;
        add_value(out, ",", &self.value)?;
        add(out, "]")?;
        Ok(())
    }
}

#[tactic(auto, using(crate::proofs::texts::IntegersLemmas::integer_text))]
fn add_value(out: &mut TextBuffer, front: &str, value: &OtelValue) -> Result<(), AllocError>
    ensures { Writes result out.old out.new (front.now ++ compact_text (attribute_value value.now)) }
{
    match value {
        OtelValue::Bool(truth) => add_flag(out, front, *truth),
        OtelValue::I64(number) => add_integer(out, front, *number),
        OtelValue::Str(text) => add_text(out, front, text.as_str()),
        OtelValue::List(texts) => add_array(out, front, texts.as_slice()),
    }
}
