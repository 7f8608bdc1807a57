//! Texts that contracts see as the list of their bytes.
ghost use Rattle.std.specs.Prelude.{◌≡◌, ◌≤◌, List, ℕ, string_bytes, length, IfOk, IsOk};
ghost use Rattle.otel_base.specs.Words.{word_text};
ghost use Rattle.std.proofs.Common.{rules};
ghost use Rattle.std.specs.Cmp.Rules.{comparing};
ghost use Rattle.std.specs.Prelude.{bytes_eq};
ghost use Rattle.std.specs.Ordering.{nat_cmp, as_partial_cmp};
ghost use Rattle.std.specs.Cmp.{partial_order_from_own_ties};
ghost use Rattle.std.specs.Cmp.Lexicographic.{slice_cmp};

use crate::memory::Memory;
use crate::word::Word;
use arrayvec::ArrayString;
use std::alloc::{AllocError, Global};
use std::cmp::Ordering;
use std::marker::Model;

/// A text that contracts see as the list of its bytes, which are UTF-8: a fixed word, at most sixteen bytes, or a
/// `String`; the first two take no memory. It stands for `opentelemetry::StringValue`, `opentelemetry::Key` and the
/// `&str`s of `tracing_core::Metadata`.
pub struct Text {
    content: Content,
}

// Where a text's bytes lie.
#[derive(Drop)]
enum Content {
    Fixed(Word),
    Short(ArrayString<16>),
    Long(String),
}

impl Model for Text {
    ghost use Rattle.std.specs.Prelude.{List, ℕ};
    ghost use Rattle.otel_base.specs.Words.{text_bytes};

    ghost Value = { List ℕ };

    ghost view = { λ t. text_bytes t.content };
}

// By a function of its own: else the three are told apart wherever a text goes out of scope.
impl Drop for Text {
    fn drop(self) {
        let Text { content: _content } = self;
    }
}

impl Clone for Text {
    ghost is_clone = { λ text copy. copy ≡ text };

    fn clone(&self) -> Result<Text, AllocError> {
        let content = match self.content {
            Content::Fixed(word) => Content::Fixed(word),
            Content::Short(short) => Content::Short(short),
            Content::Long(ref string) => Content::Long(string.clone()?),
        };
        Ok(Text { content })
    }
}

impl Text {
    /// A fixed key or word. It takes no memory.
    pub fn from_word(word: Word) -> Text
        ensures { result ≡ word_text word }
    {
        Text {
            content: Content::Fixed(word),
        }
    }

    /// A copy of `text`. `Memory` where there is none for more than sixteen bytes.
    pub fn from_str(alloc: Global, text: &str) -> Result<Text, Memory>
        ensures ok { IfOk result (λ copy. copy ≡ text.now) }
        ensures short { length text.now ≤ 16 → IsOk result }
    {
        let content = match ArrayString::from(text) {
            Ok(short) => Content::Short(short),
            Err(_) => Content::Long(String::from_str(alloc, text)?),
        };
        Ok(Text { content })
    }

    /// The text as a `&str`, without a copy.
    pub fn as_str(&self) -> &str
        ensures { result.now ≡ self.now }
    {
        match self.content {
            Content::Fixed(word) => word.as_str(),
            Content::Short(ref short) => short.as_str(),
            Content::Long(ref string) => string.as_str(),
        }
    }

    /// The `String` that the text was made of, without a copy, or one with its bytes; `Memory` where there is none for
    /// that.
    pub fn into_string(self, alloc: Global) -> Result<String, Memory>
        ensures { IfOk result (λ s. string_bytes s ≡ self) }
    {
        let Text { content } = self;
        match content {
            Content::Fixed(word) => Ok(String::from_str(alloc, word.as_str())?),
            Content::Short(short) => Ok(String::from_str(alloc, short.as_str())?),
            Content::Long(string) => Ok(string),
        }
    }
}

impl From<String> for Text {
    ghost from_gives = { λ s t. t ≡ string_bytes s };

    fn from(string: String) -> Text {
        Text {
            content: Content::Long(string),
        }
    }
}

impl PartialEq for Text {
    ghost eq = { bytes_eq };

    ghost laws = { Prim.search (comparing, rules) };

    fn eq(&self, other: &Text) -> bool {
        self.as_str() == other.as_str()
    }
}

impl Eq for Text {
    ghost laws = { Prim.search (comparing, rules) };
}

/// By bytes.
impl Ord for Text {
    ghost cmp = { slice_cmp nat_cmp };

    ghost total = { Prim.search (comparing, rules) };

    ghost matches_partial_cmp = { Prim.search (comparing, rules) };

    ghost matches_eq = { Prim.search (comparing, rules) };

    fn cmp(&self, other: &Text) -> Ordering {
        self.as_str().cmp(&other.as_str())
    }
}

impl PartialOrd for Text {
    ghost partial_cmp = { as_partial_cmp (slice_cmp nat_cmp) };

    ghost laws = { partial_order_from_own_ties (Prim.search (comparing, rules))
        (Prim.search (comparing, rules)) };

    fn partial_cmp(&self, other: &Text) -> Option<Ordering> {
        Some(self.cmp(other))
    }
}
