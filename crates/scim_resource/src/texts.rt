//! Texts of attributes.
ghost use Rattle.std.specs.Prelude.{◌≡◌, ◌≤◌, None, length, string_bytes};
ghost use Rattle.std.specs.Option.{SomeIff, option_copied};
ghost use Rattle.std.specs.Str.{IsUtf8};
ghost use Rattle.scim_resource.specs.Texts.{IsText, IsTextIf, is_short_text, text_if};

use std::alloc::{AllocError, Global};
use std::marker::Model;

/// The most bytes that a text of an attribute may have.
pub const TEXT_LIMIT: usize = 256;

/// A text of 1 to 256 bytes, in UTF-8.
#[derive(Drop)]
pub struct Text {
    text: String,
}

impl Model for Text {
    ghost use Rattle.std.specs.Prelude.{List, ℕ, string_bytes};
    ghost use Rattle.scim_resource.specs.Texts.{IsUtf8Text};

    ghost Value = { List ℕ };

    ghost view = { λ t. string_bytes t.text };

    ghost invariant = { λ t. IsUtf8Text (string_bytes t.text) };
}

/// Whether the text has 1 to 256 bytes.
#[tactic(auto, unfolding(crate::specs::Texts::is_short_text))]
pub(crate) fn is_short_text(text: &str) -> bool
    ensures { result ≡ is_short_text text.now }
{
    !text.is_empty() && text.len() <= TEXT_LIMIT
}

impl Text {
    /// The text, if it has 1 to 256 bytes.
    pub fn from_string(text: String) -> Option<Text>
        ensures { SomeIff result (IsText (string_bytes text)) (string_bytes text) }
    {
        if is_short_text(text.as_str()) {
            Some(Text { text })
        } else {
            None
        }
    }

    pub fn as_str(&self) -> &str
        ensures value { result.now ≡ self.now }
        ensures lawful { IsText self.now }
        ensures utf8 { IsUtf8 self.now }
    {
        self.text.as_str()
    }
}

impl Clone for Text {
    ghost is_clone = { λ a b. b ≡ a };

    fn clone(&self) -> Result<Text, AllocError> {
        Ok(Text {
            text: self.text.clone()?,
        })
    }
}

/// A text of 1 to 256 bytes, or none. It takes no more room than a text: none is kept as no bytes.
#[derive(Drop)]
pub struct OptionalText {
    text: String,
}

impl Model for OptionalText {
    ghost use Rattle.std.specs.Prelude.{Option, List, ℕ, string_bytes};
    ghost use Rattle.scim_resource.specs.Texts.{IsTextIf, text_if};

    ghost Value = { Option (List ℕ) };

    ghost view = { λ t. text_if (string_bytes t.text) };

    ghost invariant = { λ t. IsTextIf (text_if (string_bytes t.text)) };
}

impl OptionalText {
    /// No text.
    pub fn none(alloc: Global) -> OptionalText
        ensures { result ≡ None }
    {
        OptionalText {
            text: String::new(alloc),
        }
    }

    /// The text with the bytes of a string, or none if it has no bytes.
    pub fn from_string(text: String) -> OptionalText
        requires { length (string_bytes text) ≤ TEXT_LIMIT }
        ensures { result ≡ text_if (string_bytes text) }
    {
        OptionalText { text }
    }

    /// The text, if there is one.
    pub fn as_option(&self) -> Option<&str>
        ensures value { option_copied result ≡ self.now }
        ensures lawful { IsTextIf self.now }
    {
        if self.text.is_empty() {
            None
        } else {
            Some(self.text.as_str())
        }
    }

    /// The text as one of its own, if there is one.
    pub fn into_text(self) -> Option<Text>
        ensures { result ≡ self }
    {
        Text::from_string(self.text)
    }
}

impl Clone for OptionalText {
    ghost is_clone = { λ a b. b ≡ a };

    fn clone(&self) -> Result<OptionalText, AllocError> {
        Ok(OptionalText {
            text: self.text.clone()?,
        })
    }
}
