//! The texts of a user.
ghost use Rattle.std.specs.Prelude.{◌≡◌, ◌==◌, ◌<◌, length, string_bytes};
ghost use lib.Pointwise.{pointwise};
ghost use Rattle.std.proofs.Common.{rules};
ghost use Rattle.std.specs.Cmp.Rules.{comparing};
ghost use Rattle.std.specs.List.{list_all};
ghost use Rattle.source_csv.specs.Texts.{column_of, is_short, place_of};

use std::alloc::AllocError;
use std::marker::Model;

/// The most bytes of a text of a user.
pub const VALUE_LIMIT: usize = 256;

/// A text that the source gives for a user. An empty text means none.
#[derive(Clone, Copy)]
pub enum TextField {
    Number,
    Given,
    Family,
    Mail,
    Department,
}

/// How many texts a user has.
pub const TEXT_FIELD_COUNT: usize = 5;

/// The column of each text of a user, in the order of `TextField`.
pub const TEXT_FIELDS: [&str; TEXT_FIELD_COUNT] = [
    "number",
    "given",
    "family",
    "mail",
    "department",
];

impl TextField {
    /// Its place among the texts of a user.
    pub(crate) fn place(self) -> usize
        ensures value { result ≡ place_of self }
        ensures within { result < TEXT_FIELD_COUNT }
    {
        self as usize
    }

    /// The name of its column in a file of users.
    pub fn column(self) -> &'static str
        ensures { result.now ≡ column_of self }
    {
        TEXT_FIELDS[self.place()]
    }
}

/// A text of a user. Contracts see its bytes.
#[derive(Drop)]
pub struct FieldValue {
    text: String,
}

impl Model for FieldValue {
    ghost use Rattle.std.specs.Prelude.{List, ℕ, string_bytes};

    ghost Value = { List ℕ };

    ghost view = { λ t. string_bytes t.text };
}

impl FieldValue {
    /// The text of a string.
    pub fn new(text: String) -> FieldValue
        ensures { result ≡ string_bytes text }
    {
        FieldValue { text }
    }

    /// The string of the text.
    pub fn into_string(self) -> String
        ensures { string_bytes result ≡ self }
    {
        let FieldValue { text } = self;
        text
    }

    /// The text as a string.
    pub fn as_str(&self) -> &str
        ensures { result.now ≡ self.now }
    {
        self.text.as_str()
    }

    /// Whether the text has at most `VALUE_LIMIT` bytes.
    pub(crate) fn is_short(&self) -> bool
        ensures { result ≡ is_short self.now }
    {
        self.text.len() <= VALUE_LIMIT
    }
}

/// Whether each of these texts has at most `VALUE_LIMIT` bytes.
pub(crate) fn are_short(texts: &[FieldValue]) -> bool
    ensures { result ≡ list_all is_short texts.now }
{
    texts.iter().all(|text| text.is_short())
}

impl Clone for FieldValue {
    ghost is_clone = { λ a b. b ≡ a };

    fn clone(&self) -> Result<FieldValue, AllocError> {
        Ok(FieldValue {
            text: self.text.clone()?,
        })
    }
}

impl PartialEq for FieldValue {
    ghost eq = { pointwise ◌==◌ };

    ghost laws = { Prim.search (comparing, rules) };

    fn eq(&self, other: &FieldValue) -> bool {
        self.text.as_str() == other.text.as_str()
    }
}
