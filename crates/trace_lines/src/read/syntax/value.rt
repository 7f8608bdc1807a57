//! Values of members and items, of a text or of a tree.
ghost use Rattle.std.specs.Prelude.{Some, option_and_then};
ghost use Rattle.serde_json.specs.Find.{as_str, as_bool, as_array};
ghost use Rattle.serde_json.specs.View.{view, items_view};
ghost use Rattle.trace_lines.specs.forms.Forms.{as_whole};
ghost use Rattle.trace_lines.specs.reading.Gives.{Gives};
ghost use Rattle.trace_lines.specs.reading.Left.{value_data};
ghost use Rattle.trace_lines.specs.reading.Object.{items};
ghost use Rattle.trace_lines.specs.reading.Spelled.{line_value};

use crate::read::LineError;
use crate::read::plain::Plain;
use crate::read::syntax::flat;
use crate::read::syntax::tree::value_of;
use otel_base::text::Text;
use serde_json::Value as Json;
use std::alloc::Global;

/// A value of JSON.
#[derive(Drop)]
pub enum Value<'a> {
    /// It stands plainly in the text.
    Plain(Plain<'a>),
    /// It was read to a tree.
    Tree(Json),
}

impl<'a> Value<'a> {
    /// The whole number that the value is.
    pub(crate) fn whole(&self) -> Result<u64, LineError>
        ensures { Gives (λ n. n) result (as_whole (value_data self.now)) }
    {
        match self {
            Value::Plain(plain) => plain.whole().ok_or(LineError::BadLine),
            Value::Tree(tree) => tree.as_u64().ok_or(LineError::BadLine),
        }
    }

    /// Whether the value is true. It has to be true or false.
    pub(crate) fn flag(&self) -> Result<bool, LineError>
        ensures { Gives (λ b. b) result (as_bool (value_data self.now)) }
    {
        match self {
            Value::Plain(plain) => plain.flag().ok_or(LineError::BadLine),
            Value::Tree(tree) => tree.as_bool().ok_or(LineError::BadLine),
        }
    }

    /// The text that the value is, as it stands.
    pub fn word(&self) -> Result<&str, LineError>
        ensures { Gives (λ word. word.now) result (as_str (value_data self.now)) }
    {
        match self {
            Value::Plain(plain) => plain.word().ok_or(LineError::BadLine),
            Value::Tree(tree) => tree.as_str().ok_or(LineError::BadLine),
        }
    }

    /// The text that the value is, to be kept.
    pub(crate) fn into_text(self, alloc: Global) -> Result<Text, LineError>
        ensures { Gives (λ t. t) result (as_str (value_data self.entry)) }
    {
        match self {
            Value::Plain(plain) => match plain.word() {
                Some(words) => Ok(Text::from_str(alloc, words)?),
                None => Err(LineError::BadLine),
            },
            Value::Tree(Json::String(text)) => Ok(Text::from(text)),
            Value::Tree(_) => Err(LineError::BadLine),
        }
    }

    /// The items of the array that the value is.
    #[tactic(auto, using(crate::proofs::readings::ValuesLemmas::nested_array))]
    pub(crate) fn into_array(self, alloc: Global) -> Result<Vec<Value<'a>>, LineError>
        ensures { Gives (λ v. items value_data v.items) result (as_array (value_data self.entry)) }
    {
        match self {
            Value::Plain(Plain::Nested(text)) => array_of_text(alloc, text),
            Value::Plain(_) => Err(LineError::BadLine),
            Value::Tree(Json::Array(trees)) => trees_of(alloc, trees),
            Value::Tree(_) => Err(LineError::BadLine),
        }
    }
}

// The items of a tree's array.
#[tactic(auto, using(crate::proofs::readings::ValuesLemmas::in_front_push, crate::proofs::readings::ValuesLemmas::all_in_front))]
fn trees_of<'a>(alloc: Global, trees: Vec<Json>) -> Result<Vec<Value<'a>>, LineError>
    ensures { Gives (λ v. items value_data v.items) result (Some (items_view trees.items)) }
{
    let mut values = Vec::with_capacity(alloc, trees.len())?;
    for tree in trees {
        values.push(Value::Tree(tree))?;
    }
    Ok(values)
}

// The array that a text is, as a tree.
fn array_by_tree<'a>(alloc: Global, text: &str) -> Result<Vec<Value<'a>>, LineError>
    ensures { Gives (λ v. items value_data v.items) result (option_and_then as_array (line_value text.now)) }
{
    match value_of(alloc, text.as_bytes())? {
        Json::Array(trees) => trees_of(alloc, trees),
        _ => Err(LineError::BadLine),
    }
}

// The items of the array that a nested text is.
fn array_of_text<'a>(alloc: Global, text: &'a str) -> Result<Vec<Value<'a>>, LineError>
    ensures { Gives (λ v. items value_data v.items) result (option_and_then as_array (line_value text.now)) }
{
    match flat::items(alloc, text) {
        Some(values) => Ok(values),
        None => array_by_tree(alloc, text),
    }
}
