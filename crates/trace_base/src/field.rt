//! Fields of callsites, and the values that spans and events have for them.
ghost use Rattle.std.specs.Prelude.{◌≡◌, ℕ, Option, IfSome, IsTrue};
ghost use Rattle.trace_base.specs.declared.callsite.Callsite.{Callsite};
ghost use Rattle.trace_base.specs.declared.field.Field.{Field};
ghost use Rattle.trace_base.specs.Field.{has_field, field_itself, named_field};

use crate::callsite::{Callsite, SiteId};
use otel_base::list::Items;
use otel_base::text::Text;

/// A value of a field: one variant for each way in which `tracing_core::field::Visit` is told of one, without floats
/// and bytes.
#[derive(Clone, Drop)]
pub enum Value {
    /// A `bool`; `record_bool`.
    Bool(bool),
    /// A signed number of 64 bits; `record_i64`.
    I64(i64),
    /// A number of 64 bits; `record_u64`.
    U64(u64),
    /// A signed number of 128 bits; `record_i128`.
    I128(i128),
    /// A number of 128 bits; `record_u128`.
    U128(u128),
    /// A text; `record_str`.
    Str(Text),
    /// What the value's `Debug` prints, which is also how a value with a `Display` comes; `record_debug`.
    Debug(Text),
    /// An error; `record_error`.
    Error {
        /// What it prints.
        message: Text,
        /// What each of its sources prints, the nearest first.
        chain: Items<Text>,
    },
}

/// The values for some fields of one callsite, each with the field's place; `tracing_core::field::ValueSet`.
#[derive(Clone, Drop)]
pub struct ValueSet {
    /// Places and their values, in the order given.
    pub pairs: Items<(usize, Value)>,
}

/// A field of a callsite; `tracing_core::Field`.
#[derive(Clone, Copy, Debug, PartialEq, Eq)]
pub struct Field {
    /// The site of its callsite.
    pub site: SiteId,
    /// Its place among the fields of that callsite, from 0.
    pub place: usize,
}

/// What can name a field of a callsite; `tracing::field::AsField`, which others may implement here too.
pub trait AsField {
    /// The field that it names at the callsite of a site, if it names one there.
    ghost field_of: { Self → ℕ → Callsite → Option Field };

    /// The field that it names at this callsite, and none where it names none there. What is answered is a field of
    /// the callsite.
    fn as_field(&self, site: SiteId, callsite: &Callsite) -> Option<Field>
        ensures named { result ≡ field_of self.now site callsite.now }
        ensures of_callsite { IfSome result (λ field. IsTrue (has_field site callsite.now field)) };
}

/// A field names itself at its own callsite, and nothing anywhere else.
impl AsField for Field {
    ghost field_of = { field_itself };

    fn as_field(&self, site: SiteId, callsite: &Callsite) -> Option<Field> {
        if self.site == site && self.place < callsite.fields.as_slice().len() {
            Some(*self)
        } else {
            None
        }
    }
}

/// A name is the callsite's first field of that name.
impl AsField for &str {
    ghost field_of = { λ name. named_field name.now };

    fn as_field(&self, site: SiteId, callsite: &Callsite) -> Option<Field> {
        callsite.field(*self).map(|place| Field { site, place })
    }
}
