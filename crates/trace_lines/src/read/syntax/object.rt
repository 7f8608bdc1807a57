//! Objects that members are taken from, one after another.
ghost use Rattle.std.specs.Prelude.{◌≡◌, ◌-◌, ◌^◌, option_map};
ghost use Rattle.serde_json.specs.Find.{get_member, as_object};
ghost use Rattle.trace_lines.specs.reading.Gives.{Gives};
ghost use Rattle.trace_lines.specs.reading.Spelled.{line_members};
ghost use Rattle.trace_lines.specs.reading.Left.{value_data, members_left};
ghost use Rattle.trace_lines.specs.forms.Forms.{if_at_most};
ghost use Rattle.trace_lines.specs.reading.Object.{items};

use crate::read::LineError;
use crate::read::plain::Plain;
use crate::read::syntax::flat::{self, FlatMembers};
use crate::read::syntax::tree::value_of;
use crate::read::syntax::value::Value;
use otel_base::text::Text;
use serde_json::Value as Json;
use serde_json::value::Map;
use std::alloc::Global;

/// The members that a JSON object has left.
#[derive(Drop)]
pub enum Object<'a> {
    /// They stand plainly in the text.
    Flat(FlatMembers<'a>),
    /// They were read to a tree.
    Tree(Map<String, Json>),
}

/// A whole number up to the greatest.
pub(crate) fn if_at_most(greatest: u64, number: u64) -> Result<u64, LineError>
    ensures { Gives (λ n. n) result (if_at_most greatest number) }
{
    if number <= greatest {
        Ok(number)
    } else {
        Err(LineError::BadLine)
    }
}

// A whole number of 32 bits.
fn u32_of(number: u64) -> Result<u32, LineError>
    ensures { Gives (λ n. n) result (if_at_most (2 ^ 32 - 1) number) }
{
    u32::try_from(number).map_err(|_| LineError::BadLine)
}

/// The object that a line is, as a tree.
pub(crate) fn tree_of(alloc: Global, line: &[u8]) -> Result<Object<'_>, LineError>
    ensures { Gives members_left result (line_members line.now) }
{
    match value_of(alloc, line)? {
        Json::Object(members) => Ok(Object::Tree(members)),
        _ => Err(LineError::BadLine),
    }
}

impl<'a> Object<'a> {
    ghost use Rattle.trace_lines.specs.forms.Forms.{without_member, member, optional, natural, whole_to, text, flag_or, array, optional_text, optional_u32, no_more};

    /// The object that a line is.
    pub fn open(alloc: Global, line: &'a [u8]) -> Result<Object<'a>, LineError>
        ensures { Gives members_left result (line_members line.now) }
    {
        match str::from_utf8(line) {
            Ok(text) => Object::of_text(alloc, text),
            Err(_) => tree_of(alloc, line),
        }
    }

    // The object that a text is. The text isn't tested again where its members are read as they stand.
    fn of_text(alloc: Global, text: &'a str) -> Result<Object<'a>, LineError>
        ensures { Gives members_left result (line_members text.now) }
    {
        match flat::members(alloc, text) {
            Some(members) => Ok(Object::Flat(FlatMembers::new(members))),
            None => tree_of(alloc, text.as_bytes()),
        }
    }

    /// The object that a value is.
    #[tactic(auto, using(crate::proofs::readings::ValuesLemmas::nested_object))]
    pub fn of(alloc: Global, value: Value<'a>) -> Result<Object<'a>, LineError>
        ensures { Gives members_left result (as_object (value_data value.entry)) }
    {
        match value {
            Value::Plain(Plain::Nested(text)) => Object::of_text(alloc, text),
            Value::Tree(Json::Object(members)) => Ok(Object::Tree(members)),
            _ => Err(LineError::BadLine),
        }
    }

    // Takes a member, if it is there.
    #[inline(always)]
    #[tactic(auto, using(crate::proofs::readings::MembersLemmas::found, crate::proofs::readings::MembersLemmas::kept))]
    pub fn optional(&mut self, name: &str) -> Option<Value<'a>>
        ensures found { option_map value_data result ≡ get_member name.now (members_left self.old) }
        ensures left { members_left self.new ≡ without_member name.now (members_left self.old) }
    {
        match self {
            Object::Flat(members) => match members.take(name.as_bytes()) {
                Some(plain) => Some(Value::Plain(plain)),
                None => None,
            },
            Object::Tree(members) => match members.remove(name) {
                Some(tree) => Some(Value::Tree(tree)),
                None => None,
            },
        }
    }

    /// Takes a member.
    #[inline(always)]
    pub fn member(&mut self, name: &str) -> Result<Value<'a>, LineError>
        ensures { Gives (λ v. (value_data v, members_left self.new)) result (member name.now (members_left self.old)) }
    {
        match self.optional(name) {
            Some(value) => Ok(value),
            None => Err(LineError::BadLine),
        }
    }

    /// Takes a whole number.
    #[inline(always)]
    pub fn whole(&mut self, name: &str) -> Result<u64, LineError>
        ensures { Gives (λ n. (n, members_left self.new)) result (natural name.now (members_left self.old)) }
    {
        self.member(name)?.whole()
    }

    /// Takes a whole number up to the greatest.
    pub(crate) fn whole_to(&mut self, greatest: u64, name: &str) -> Result<u64, LineError>
        ensures { Gives (λ n. (n, members_left self.new)) result (whole_to greatest name.now (members_left self.old)) }
    {
        if_at_most(greatest, self.whole(name)?)
    }

    /// Takes a text, to be kept.
    pub fn text(&mut self, alloc: Global, name: &str) -> Result<Text, LineError>
        ensures { Gives (λ t. (t, members_left self.new)) result (text name.now (members_left self.old)) }
    {
        self.member(name)?.into_text(alloc)
    }

    /// Takes a flag, which is otherwise where it isn't there.
    pub(crate) fn flag_or(&mut self, otherwise: bool, name: &str) -> Result<bool, LineError>
        ensures { Gives (λ b. (b, members_left self.new)) result (flag_or otherwise name.now (members_left self.old)) }
    {
        match self.optional(name) {
            Some(value) => value.flag(),
            None => Ok(otherwise),
        }
    }

    /// Takes an array.
    pub fn array(&mut self, alloc: Global, name: &str) -> Result<Vec<Value<'a>>, LineError>
        ensures { Gives (λ v. (items value_data v.items, members_left self.new)) result
            (array name.now (members_left self.old)) }
    {
        self.member(name)?.into_array(alloc)
    }

    /// Takes a text that may be absent, to be kept.
    pub(crate) fn optional_text(
        &mut self,
        alloc: Global,
        name: &str,
    ) -> Result<Option<Text>, LineError>
        ensures { Gives (λ t. (t, members_left self.new)) result (optional_text name.now (members_left self.old)) }
    {
        match self.optional(name) {
            Some(value) => Ok(Some(value.into_text(alloc)?)),
            None => Ok(None),
        }
    }

    /// Takes a whole number of 32 bits that may be absent.
    pub(crate) fn optional_u32(&mut self, name: &str) -> Result<Option<u32>, LineError>
        ensures { Gives (λ n. (n, members_left self.new)) result (optional_u32 name.now (members_left self.old)) }
    {
        match self.optional(name) {
            Some(value) => Ok(Some(u32_of(value.whole()?)?)),
            None => Ok(None),
        }
    }

    /// Makes sure that no member is left.
    #[tactic(auto, using(crate::proofs::readings::MembersLemmas::nothing_left, crate::proofs::readings::MembersLemmas::something_left, crate::proofs::readings::MembersLemmas::no_entry_left, crate::proofs::readings::MembersLemmas::some_entry_left))]
    pub fn end(&self) -> Result<(), LineError>
        ensures { Gives (λ u. u) result (no_more (members_left self.now)) }
    {
        let done = match self {
            Object::Flat(members) => members.is_empty(),
            Object::Tree(members) => members.is_empty(),
        };
        if done {
            Ok(())
        } else {
            Err(LineError::BadLine)
        }
    }
}
