//! Attributes, operators and tests: the parts that the connectives of a filter join.
ghost use Rattle.std.specs.Prelude.{◌≡◌, IfOk, string_bytes};

use std::alloc::AllocError;
use std::marker::Model;

/// An attribute whose values are texts.
#[derive(Clone, Copy)]
pub enum TextAttribute {
    UserName,
    DisplayName,
    GivenName,
    FamilyName,
    EmailValue,
    EmailType,
    Member,
    Id,
    ExternalId,
    Version,
}

/// An attribute whose values are booleans.
#[derive(Clone, Copy)]
pub enum FlagAttribute {
    Active,
    EmailPrimary,
}

/// An attribute that a filter may name.
#[derive(Clone, Copy)]
pub enum Attribute {
    OfText(TextAttribute),
    OfFlag(FlagAttribute),
}

/// How a text is compared: `eq`, `ne`, `co`, `sw` or `ew`.
#[derive(Clone, Copy)]
pub enum TextOperator {
    Equal,
    NotEqual,
    Contains,
    StartsWith,
    EndsWith,
}

/// How a boolean is compared: `eq` or `ne`.
#[derive(Clone, Copy)]
pub enum FlagOperator {
    Is,
    IsNot,
}

/// A text that a filter compares with. It may be empty.
#[derive(Drop)]
pub struct FilterText {
    text: String,
}

impl Model for FilterText {
    ghost use Rattle.std.specs.Prelude.{List, ℕ, string_bytes};

    ghost Value = { List ℕ };

    ghost view = { λ t. string_bytes t.text };
}

impl FilterText {
    /// The filter text with exactly this text.
    pub fn from_string(text: String) -> FilterText
        ensures { result ≡ string_bytes text }
    {
        FilterText { text }
    }

    pub fn as_str(&self) -> &str
        ensures { result.now ≡ self.now }
    {
        self.text.as_str()
    }
}

impl Clone for FilterText {
    ghost is_clone = { λ a b. b ≡ a };

    fn clone(&self) -> Result<FilterText, AllocError> {
        Ok(FilterText {
            text: self.text.clone()?,
        })
    }
}

/// One test of a filter, on one attribute.
#[derive(Clone, Drop)]
pub enum Test {
    Present(Attribute),
    Text(TextAttribute, TextOperator, FilterText),
    Flag(FlagAttribute, FlagOperator, bool),
}
