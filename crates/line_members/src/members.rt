//! The members of an object, taken one after another.
ghost use Rattle.std.specs.Prelude.{◌≡◌, option_map};
ghost use Rattle.serde_json.specs.Find.{as_array, as_object, as_str, get_member};
ghost use Rattle.serde_json.specs.View.{view, items_view};
ghost use Rattle.trace_lines.specs.forms.Forms.{array, as_whole, member, no_more, text, natural, without_member};
ghost use Rattle.trace_lines.specs.reading.Gives.{Gives};
ghost use Rattle.trace_lines.specs.forms.RequestForm.{fields_form};
ghost use Rattle.line_members.specs.Left.{members_left};

use otel_base::list::Items;
use otel_base::text::Text;
use serde_json::Value as Json;
use serde_json::value::Map;
use std::alloc::Global;
use trace_base::field::Value;
use trace_lines::{LineError, read_fields};

/// The members that an object has left.
#[derive(Drop)]
pub struct Members {
    rest: Map<String, Json>,
}

/// The whole number that a value is.
pub fn whole_number_of(value: &Json) -> Result<u64, LineError>
    ensures { Gives (λ n. n) result (as_whole (view value.now)) }
{
    value.as_u64().ok_or(LineError::BadLine)
}

// The text that a value is.
fn text_of(value: Json) -> Result<Text, LineError>
    ensures { Gives (λ t. t) result (as_str (view value)) }
{
    match value {
        Json::String(text) => Ok(Text::from(text)),
        _ => Err(LineError::BadLine),
    }
}

// The items of the array that a value is.
fn items_of(value: Json) -> Result<Vec<Json>, LineError>
    ensures { Gives (λ v. items_view v.items) result (as_array (view value)) }
{
    match value {
        Json::Array(values) => Ok(values),
        _ => Err(LineError::BadLine),
    }
}

impl Members {
    /// Those of a value, which has to be an object.
    pub fn of(value: Json) -> Result<Members, LineError>
        ensures { Gives members_left result (as_object (view value)) }
    {
        match value {
            Json::Object(rest) => Ok(Members { rest }),
            _ => Err(LineError::BadLine),
        }
    }

    /// Takes a member, if it is there.
    #[tactic(auto, using(trace_lines::proofs::readings::MembersLemmas::found, trace_lines::proofs::readings::MembersLemmas::kept))]
    pub fn optional(&mut self, name: &str) -> Option<Json>
        ensures found { option_map view result ≡ get_member name.now (members_left self.old) }
        ensures left { members_left self.new ≡ without_member name.now (members_left self.old) }
    {
        self.rest.remove(name)
    }

    /// Takes a member.
    pub fn member(&mut self, name: &str) -> Result<Json, LineError>
        ensures { Gives (λ v. (view v, members_left self.new)) result (member name.now (members_left self.old)) }
    {
        match self.optional(name) {
            Some(value) => Ok(value),
            None => Err(LineError::BadLine),
        }
    }

    /// Takes a whole number.
    pub fn whole(&mut self, name: &str) -> Result<u64, LineError>
        ensures { Gives (λ n. (n, members_left self.new)) result (natural name.now (members_left self.old)) }
    {
        let value = self.member(name)?;
        whole_number_of(&value)
    }

    /// Takes a text.
    pub fn text(&mut self, name: &str) -> Result<Text, LineError>
        ensures { Gives (λ t. (t, members_left self.new)) result (text name.now (members_left self.old)) }
    {
        text_of(self.member(name)?)
    }

    /// Takes an array.
    pub fn array(&mut self, name: &str) -> Result<Vec<Json>, LineError>
        ensures { Gives (λ v. (items_view v.items, members_left self.new)) result (array name.now (members_left self.old)) }
    {
        items_of(self.member(name)?)
    }

    /// Takes the fields that are given, which are none where nothing is said. `Memory` freely.
    pub fn given_fields(&mut self, alloc: Global) -> Result<Items<(Text, Value)>, LineError>
        ensures { Gives (λ fields. (fields, members_left self.new)) result (fields_form (members_left self.old)) }
    {
        match self.optional("fields") {
            Some(value) => read_fields(alloc, &value),
            None => Ok(Items::new(alloc)),
        }
    }

    /// Makes sure that no member is left.
    #[tactic(auto, using(trace_lines::proofs::readings::MembersLemmas::nothing_left, trace_lines::proofs::readings::MembersLemmas::something_left))]
    pub fn end(&self) -> Result<(), LineError>
        ensures { Gives (λ u. u) result (no_more (members_left self.now)) }
    {
        if self.rest.is_empty() {
            Ok(())
        } else {
            Err(LineError::BadLine)
        }
    }
}
