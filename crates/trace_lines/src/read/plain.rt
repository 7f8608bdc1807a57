//! Values as they stand in a compact text, without a copy.
ghost use Rattle.std.specs.Prelude.{◌≡◌, option_map};
ghost use Rattle.serde_json.specs.Find.{as_str, as_bool};
ghost use Rattle.trace_lines.specs.forms.Forms.{as_whole};
ghost use Rattle.trace_lines.specs.text.Compact.{plain_data};

/// A value that stands plainly in a text.
#[derive(Clone, Copy, Drop)]
pub enum Plain<'a> {
    /// A whole number.
    Whole(u64),
    /// A number below zero.
    Negative(i64),
    /// A text with no escape.
    Text(&'a str),
    /// True or false.
    Flag(bool),
    /// An array or an object, as its text.
    Nested(&'a str),
}

impl<'a> Plain<'a> {
    /// The whole number that the value is.
    #[tactic(auto, using(crate::proofs::readings::ValuesLemmas::no_number))]
    pub(crate) fn whole(self) -> Option<u64>
        ensures { result ≡ as_whole (plain_data self.entry) }
    {
        match self {
            Plain::Whole(number) => Some(number),
            Plain::Negative(_) => None,
            Plain::Text(_) => None,
            Plain::Flag(_) => None,
            Plain::Nested(_) => None,
        }
    }

    /// True or false, where the value is one of them.
    #[tactic(auto, using(crate::proofs::readings::ValuesLemmas::no_flag))]
    pub(crate) fn flag(self) -> Option<bool>
        ensures { result ≡ as_bool (plain_data self.entry) }
    {
        match self {
            Plain::Whole(_) => None,
            Plain::Negative(_) => None,
            Plain::Text(_) => None,
            Plain::Flag(flag) => Some(flag),
            Plain::Nested(_) => None,
        }
    }

    /// The text that the value is.
    #[tactic(auto, using(crate::proofs::readings::ValuesLemmas::no_text))]
    pub(crate) fn word(self) -> Option<&'a str>
        ensures { option_map (λ words. words.now) result ≡ as_str (plain_data self.entry) }
    {
        match self {
            Plain::Whole(_) => None,
            Plain::Negative(_) => None,
            Plain::Text(words) => Some(words),
            Plain::Flag(_) => None,
            Plain::Nested(_) => None,
        }
    }
}
