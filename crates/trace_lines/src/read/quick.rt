//! Requests as they are mostly written: compact, with a common word, and of numbers, fields and a parent alone, in any
//! order. None says nothing of what the line spells. The fields are tested for UTF-8; all else of such a line is ASCII.
ghost use Rattle.std.specs.Prelude.{◌≡◌, Some, None, Ok, IfSome, option_map, codes};
ghost use Rattle.serde_json.specs.Data.{Data, no_members};
ghost use Rattle.serde_json.specs.Written.{compact_text};
ghost use Rattle.trace_lines.specs.reading.Object.{whole_number};
ghost use Rattle.trace_lines.specs.text.QuickLines.{AreSpelled, HasMembers, HasValue, kind_value, parent_value};
ghost use Rattle.trace_lines.specs.reading.Spelled.{request_spelled};

use crate::read::plain_fields::leading_fields;
use crate::read::syntax::flat::expect_bracket;
use crate::read::syntax::scan::{behind, behind_word, number};
use otel_base::list::Items;
use otel_base::text::Text;
use span_script::request::{Call, Request, RequestParent};
use std::alloc::Global;
use trace_base::field::Value as FieldValue;

// The most members of a line that is read so.
const MAX_MEMBERS: u32 = 8;

/// The kinds of calls that are read so.
#[derive(Clone, Copy, Drop)]
pub(crate) enum CallKind {
    New,
    Event,
    Enter,
    Exit,
    Drop,
}

/// The members of a request that were read; of a name that came twice the last.
#[derive(Drop)]
pub(crate) struct RequestMembers {
    at: Option<u64>,
    kind: Option<CallKind>,
    fields: Option<Items<(Text, FieldValue)>>,
    guard: Option<u64>,
    handle: Option<u64>,
    lane: Option<u64>,
    parent: RequestParent,
    site: Option<u64>,
}

// Reads a number behind a name, and tells what stands behind it.
#[inline(always)]
fn number_member<'a>(slot: &mut Option<u64>, text: &'a [u8], name: &[u8]) -> Option<&'a [u8]>
    ensures { IfSome result (λ rest. (d : Data) × (option_map whole_number slot.new ≡ Some d)
        × HasValue text.now name.now d rest.now) }
{
    let digits = behind_word(text, name)?;
    let (number, rest) = number(digits)?;
    *slot = Some(number);
    Some(rest)
}

// The word of a kind, in quotes.
#[inline(always)]
#[tactic(auto, unfolding(json::specs::Print::escape_byte))]
fn word_of(kind: CallKind) -> &'static [u8]
    ensures { result.now ≡ compact_text (kind_value kind) }
{
    match kind {
        CallKind::New => b"\"new\"",
        CallKind::Event => b"\"event\"",
        CallKind::Enter => b"\"enter\"",
        CallKind::Exit => b"\"exit\"",
        CallKind::Drop => b"\"drop\"",
    }
}

// The only kind that a word in quotes may be.
#[inline(always)]
fn possible_kind(word: &[u8]) -> Option<CallKind> {
    if word.len() < 3 {
        return None;
    }
    match (word[1], word[2]) {
        (b'n', _) => Some(CallKind::New),
        (b'd', _) => Some(CallKind::Drop),
        (b'e', b'n') => Some(CallKind::Enter),
        (b'e', b'v') => Some(CallKind::Event),
        (b'e', _) => Some(CallKind::Exit),
        _ => None,
    }
}

// Reads the word of `do`.
#[inline(always)]
fn kind_member<'a>(slot: &mut Option<CallKind>, text: &'a [u8]) -> Option<&'a [u8]>
    ensures { IfSome result (λ rest. (d : Data) × (option_map kind_value slot.new ≡ Some d)
        × HasValue text.now (codes "\"do\":") d rest.now) }
{
    let value = behind_word(text, b"\"do\":")?;
    let kind = possible_kind(value)?;
    let rest = behind_word(value, word_of(kind))?;
    *slot = Some(kind);
    Some(rest)
}

// Reads the fields.
#[inline(always)]
fn fields_member<'a>(
    alloc: Global,
    slot: &mut Option<Items<(Text, FieldValue)>>,
    text: &'a [u8],
) -> Option<&'a [u8]>
    ensures { IfSome result (λ rest. (d : Data) × (AreSpelled slot.new (Some d))
        × HasValue text.now (codes "\"fields\":") d rest.now) }
{
    let array = behind_word(text, b"\"fields\":")?;
    let (fields, rest) = leading_fields(alloc, array)?;
    *slot = Some(fields);
    Some(rest)
}

// Reads the parent: a handle's number, or no span.
#[inline(always)]
fn parent_member<'a>(parent: &mut RequestParent, text: &'a [u8]) -> Option<&'a [u8]>
    ensures { IfSome result (λ rest. (d : Data) × (parent_value parent.new ≡ Some d)
        × HasValue text.now (codes "\"parent\":") d rest.now) }
{
    let value = behind_word(text, b"\"parent\":")?;
    match number(value) {
        Some((handle, rest)) => {
            *parent = RequestParent::Under { handle };
            Some(rest)
        }
        None => {
            let rest = behind_word(value, b"\"root\"")?;
            *parent = RequestParent::Root;
            Some(rest)
        }
    }
}

impl RequestMembers {
    ghost use Rattle.trace_lines.specs.text.QuickLines.{present_members, member_values, ReadsMember, AreMembersOf};

    // No member was read.
    #[inline(always)]
    fn none() -> RequestMembers
        ensures fields { result.fields ≡ None }
        ensures all { present_members (member_values result None) ≡ no_members }
    {
        RequestMembers {
            at: None,
            kind: None,
            fields: None,
            guard: None,
            handle: None,
            lane: None,
            parent: RequestParent::Contextual,
            site: None,
        }
    }

    // Reads a member, and tells what stands behind it.
    #[inline(always)]
    fn read<'a>(&mut self, alloc: Global, text: &'a [u8]) -> Option<&'a [u8]>
        ensures { IfSome result (λ rest. ReadsMember self.old self.new text.now rest.now) }
    {
        if text.len() < 2 {
            return None;
        }
        match text[1] {
            b'a' => number_member(&mut self.at, text, b"\"at\":"),
            b'd' => kind_member(&mut self.kind, text),
            b'f' => fields_member(alloc, &mut self.fields, text),
            b'g' => number_member(&mut self.guard, text, b"\"guard\":"),
            b'h' => number_member(&mut self.handle, text, b"\"handle\":"),
            b'l' => number_member(&mut self.lane, text, b"\"lane\":"),
            b'p' => parent_member(&mut self.parent, text),
            b's' => number_member(&mut self.site, text, b"\"site\":"),
            _ => None,
        }
    }

    // The request that has these members and no other.
    #[inline(always)]
    fn request(self, alloc: Global) -> Option<Request>
        ensures { IfSome result (λ request. AreMembersOf self request) }
    {
        let RequestMembers {
            at,
            kind,
            fields,
            guard,
            handle,
            lane,
            parent,
            site,
        } = self;
        let call = match (kind?, fields, guard, handle, parent, site) {
            (CallKind::New, fields, None, None, parent, Some(site)) => Call::New {
                site,
                parent,
                fields: fields.unwrap_or(Items::new(alloc)),
            },
            (CallKind::Event, fields, None, None, parent, Some(site)) => Call::Event {
                site,
                parent,
                fields: fields.unwrap_or(Items::new(alloc)),
            },
            (CallKind::Enter, None, None, Some(handle), RequestParent::Contextual, None) => {
                Call::Enter { handle }
            }
            (CallKind::Exit, None, Some(guard), None, RequestParent::Contextual, None) => {
                Call::Exit { guard }
            }
            (CallKind::Drop, None, None, Some(handle), RequestParent::Contextual, None) => {
                Call::Drop { handle }
            }
            _ => return None,
        };
        Some(Request {
            at: at?,
            lane_place: lane?,
            call,
        })
    }
}

// The members of the object that a line is.
#[inline(always)]
fn members(alloc: Global, line: &[u8]) -> Option<RequestMembers>
    ensures { IfSome result (λ members. HasMembers line.now members) }
{
    let mut members = RequestMembers::none();
    let mut rest = behind(line, b'{')?;
    for _ in 0..MAX_MEMBERS {
        let after = members.read(alloc, rest)?;
        match behind(after, b',') {
            Some(more) => rest = more,
            None => {
                expect_bracket(after, b'}')?;
                return Some(members);
            }
        }
    }
    None
}

/// The request of a line. None says nothing.
pub(crate) fn quick_request(alloc: Global, line: &[u8]) -> Option<Request>
    ensures { IfSome result (λ request. request_spelled line.now ≡ Ok request) }
{
    let members = members(alloc, line)?;
    members.request(alloc)
}
