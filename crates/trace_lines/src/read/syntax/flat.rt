//! The members of a compact object, and the items of a compact array, as lists of plain values. The names are slices
//! of the text. None says nothing of what the text is.
ghost use Rattle.std.specs.Prelude.{◌≡◌, List, ℕ, [], ◌∷◌, ◌++◌, length, true, Some, IfSome, Decides, option_map};
ghost use Rattle.std.specs.Cmp.Lexicographic.{slice_cmp};
ghost use Rattle.std.specs.Ordering.{nat_cmp};
ghost use Rattle.std.specs.Str.{IsUtf8};
ghost use Rattle.json.specs.Print.{quoted};
ghost use Rattle.serde_json.specs.Data.{array, put};
ghost use Rattle.serde_json.specs.Find.{get_member};
ghost use Rattle.trace_lines.specs.forms.Forms.{without_member};
ghost use Rattle.trace_lines.specs.reading.Object.{items};
ghost use Rattle.trace_lines.specs.reading.Spelled.{line_value, line_members};
ghost use Rattle.trace_lines.specs.text.Compact.{plain_data, members_of, BeginsWithValue};
ghost use Rattle.trace_lines.specs.reading.Left.{value_data};
ghost use Rattle.trace_lines.specs.reading.Placed.{FindsMember, FitsIn};

use crate::read::plain::Plain;
use crate::read::syntax::cut::{behind_ascii, value_in};
use crate::read::syntax::scan::{MAX_DEPTH, MAX_ITEMS, behind, text};
use crate::read::syntax::value::Value;
use std::alloc::Global;
use std::cmp::Ordering;

// The room that most objects need.
const USUAL_MEMBERS: usize = 8;

// The most members of an object. One that has more is read as a tree.
const MAX_MEMBERS: u32 = 32;

/// Whether bytes are known to be UTF-8.
pub fn is_utf8(bytes: &[u8]) -> bool
    ensures { result ≡ true → IsUtf8 bytes.now }
{
    bytes.is_ascii() || str::from_utf8(bytes).is_ok()
}

// A member, and what stands behind it.
fn member(left: &str) -> Option<((&[u8], Plain<'_>), &[u8])>
    ensures { IfSome result (λ r. (inner : List ℕ) × (left.now ≡ quoted r.0.0.now ++ 58 ∷ inner)
        × BeginsWithValue MAX_DEPTH inner (plain_data r.0.1) r.1.now) }
{
    let (name, colon) = text(left.as_bytes())?;
    let inner = behind(colon, b':')?;
    let (plain, after) = value_in(left, inner)?;
    Some(((name, plain), after))
}

/// The members of the object that a text is, in the order of their names.
pub(crate) fn members<'a>(alloc: Global, line: &'a str) -> Option<Vec<(&'a [u8], Plain<'a>)>>
    ensures { IfSome result (λ members. line_members line.now ≡ Some (members_of members.items)) }
{
    let mut members = Vec::with_capacity(alloc, USUAL_MEMBERS).ok()?;
    let first = behind(line.as_bytes(), b'{')?;
    let mut rest = behind_ascii(line, first);
    for _ in 0..MAX_MEMBERS {
        let (named, after) = member(rest)?;
        insert_member(&mut members, named)?;
        match behind(after, b',') {
            Some(more) => rest = behind_ascii(rest, more),
            None => {
                expect_bracket(after, b'}')?;
                return Some(members);
            }
        }
    }
    None
}

/// The items of the array that a text is.
pub(crate) fn items<'a>(alloc: Global, text: &'a str) -> Option<Vec<Value<'a>>>
    ensures { IfSome result (λ values. line_value text.now ≡ Some (array (items value_data values.items))) }
{
    let mut values = Vec::with_capacity(alloc, USUAL_MEMBERS).ok()?;
    let first = behind(text.as_bytes(), b'[')?;
    let mut rest = behind_ascii(text, first);
    for _ in 0..MAX_ITEMS {
        let (plain, after) = value_in(rest, rest.as_bytes())?;
        add_item(&mut values, Value::Plain(plain))?;
        match behind(after, b',') {
            Some(more) => rest = behind_ascii(rest, more),
            None => {
                expect_bracket(after, b']')?;
                return Some(values);
            }
        }
    }
    None
}

// Adds an item. None where there is no memory.
fn add_item<'a>(values: &mut Vec<Value<'a>>, value: Value<'a>) -> Option<()>
    ensures { IfSome result (λ _. values.new.items ≡ values.old.items ++ value.entry ∷ []) }
{
    values.push(value).ok()?;
    Some(())
}

/// That nothing stands behind a value.
pub(crate) fn expect_end(rest: &[u8]) -> Option<()>
    ensures { IfSome result (λ _. rest.now ≡ []) }
{
    if rest.is_empty() { Some(()) } else { None }
}

/// That a bracket stands there, and nothing behind it.
pub fn expect_bracket(rest: &[u8], bracket: u8) -> Option<()>
    ensures { IfSome result (λ _. rest.now ≡ bracket ∷ []) }
{
    let end = behind(rest, bracket)?;
    expect_end(end)?;
    Some(())
}

// How two names compare. Mostly their first bytes tell.
#[inline(always)]
#[tactic(auto, using(crate::proofs::readings::OrderLemmas::first_less, crate::proofs::readings::OrderLemmas::first_greater))]
fn compare(one: &[u8], other: &[u8]) -> Ordering
    ensures { result ≡ slice_cmp nat_cmp one.now other.now }
{
    if one.is_empty() || other.is_empty() {
        return one.cmp(other);
    }
    if one[0] < other[0] {
        return Ordering::Less;
    }
    if one[0] > other[0] {
        return Ordering::Greater;
    }
    one.cmp(other)
}

// Where a member of a new name goes. None where the name is there.
fn place_for(members: &[(&[u8], Plain<'_>)], name: &[u8]) -> Option<usize>
    ensures { IfSome result (λ at. FitsIn name.now members.now at) }
{
    let mut at = 0usize;
    while at < members.len() {
        match compare(name, members[at].0) {
            Ordering::Less => return Some(at),
            Ordering::Equal => return None,
            Ordering::Greater => {}
        }
        at += 1;
    }
    Some(at)
}

// Puts a member in its place. None where its name is there, or there is no memory.
fn insert_member<'a>(
    members: &mut Vec<(&'a [u8], Plain<'a>)>,
    named: (&'a [u8], Plain<'a>),
) -> Option<()>
    ensures { IfSome result (λ _.
        members_of members.new.items ≡ put named.entry.0.now (plain_data named.entry.1) (members_of members.old.items)) }
{
    let at = place_for(members.as_slice(), named.0)?;
    members.insert(at, named).ok()?;
    Some(())
}

#[inline(always)]
fn is_same(one: &[u8], other: &[u8]) -> bool
    ensures { Decides result (one.now ≡ other.now) }
{
    one.len() == other.len() && one == other
}

// Where the member of a name stands.
#[inline(always)]
#[tactic(auto, using(crate::proofs::readings::PlacesLemmas::passed_first, crate::proofs::readings::PlacesLemmas::passed_more, crate::proofs::readings::PlacesLemmas::is_found, crate::proofs::readings::PlacesLemmas::not_found))]
fn place_of(members: &[(&[u8], Plain<'_>)], name: &[u8]) -> Option<usize>
    ensures { FindsMember name.now members.now result }
{
    let mut at = 0usize;
    while at < members.len() {
        if is_same(members[at].0, name) {
            return Some(at);
        }
        at += 1;
    }
    None
}

/// The members of an object that are left, in the order of their names.
#[derive(Drop)]
pub struct FlatMembers<'a> {
    members: Vec<(&'a [u8], Plain<'a>)>,
    // How many at the front are taken.
    taken: usize,
}

impl<'a> FlatMembers<'a> {
    ghost use Rattle.std.specs.Prelude.{◌<◌, drop, get_or, remove};
    ghost use Rattle.std.specs.Borrow.{Bor};
    ghost use Rattle.trace_lines.specs.reading.Left.{flat_members_left};
    ghost use Rattle.trace_lines.specs.declared.read.plain.Plain.{Plain as PlainData};

    /// Those of a list, of which none is taken.
    pub(crate) fn new(members: Vec<(&'a [u8], Plain<'a>)>) -> FlatMembers<'a>
        ensures { flat_members_left result ≡ members.entry.items }
    {
        FlatMembers { members, taken: 0 }
    }

    #[tactic(auto, using(std::proofs::lemmas::List::drop_min))]
    fn as_slice(&self) -> &[(&'a [u8], Plain<'a>)]
        ensures { result.now ≡ flat_members_left self.now }
    {
        let taken = self.taken.min(self.members.len());
        &self.members[taken..]
    }

    /// Whether all are taken.
    pub(crate) fn is_empty(&self) -> bool
        ensures { Decides result (length (flat_members_left self.now) ≡ 0) }
    {
        self.as_slice().is_empty()
    }

    // Takes the first member that is left, with no move of the others.
    #[inline(always)]
    #[tactic(auto, using(crate::proofs::readings::PlacesLemmas::first_left))]
    fn take_first(&mut self) -> Plain<'a>
        requires { 0 < length (flat_members_left self.old) }
        ensures plain { (e : Bor (List ℕ) × PlainData) → result ≡ (get_or (flat_members_left self.old) 0 e).1 }
        ensures left { flat_members_left self.new ≡ drop 1 (flat_members_left self.old) }
    {
        let plain = self.members[self.taken].1;
        self.taken += 1;
        plain
    }

    // Takes the member at a place among those that are left.
    #[inline(always)]
    #[tactic(auto, using(crate::proofs::readings::PlacesLemmas::other_left))]
    fn take_at(&mut self, at: usize) -> Plain<'a>
        requires { at < length (flat_members_left self.old) }
        ensures plain { (e : Bor (List ℕ) × PlainData) → result ≡ (get_or (flat_members_left self.old) at e).1 }
        ensures left { flat_members_left self.new ≡ remove (flat_members_left self.old) at }
    {
        if at == 0 {
            return self.take_first();
        }
        self.members.remove(self.taken + at).1
    }

    /// Takes the member of a name, if it is there.
    #[inline(always)]
    pub(crate) fn take(&mut self, name: &[u8]) -> Option<Plain<'a>>
        ensures found { option_map plain_data result ≡ get_member name.now (members_of (flat_members_left self.old)) }
        ensures left { members_of (flat_members_left self.new) ≡ without_member name.now (members_of (flat_members_left self.old)) }
    {
        match place_of(self.as_slice(), name) {
            Some(at) => Some(self.take_at(at)),
            None => None,
        }
    }
}
