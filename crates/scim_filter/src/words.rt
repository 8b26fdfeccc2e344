//! The words of a filter, in any case.
ghost use Rattle.std.specs.Prelude.{◌≡◌};
ghost use Rattle.std.specs.Str.{str_eq_ignore_ascii_case};
ghost use Rattle.scim_filter.specs.Words.{joining_word, comparing_word, text_attribute_named, flag_attribute_named, attribute_word, word_named};

use crate::terms::{Attribute, FlagAttribute, TextAttribute, TextOperator};

/// A word of the grammar.
#[derive(Clone, Copy)]
pub enum Word {
    Not,
    And,
    Or,
    Present,
    Compare(TextOperator),
    Truth(bool),
    Name(Attribute),
}

/// Whether a text is this word, in any case.
fn is_word(text: &str, word: &str) -> bool
    ensures { result ≡ str_eq_ignore_ascii_case text.now word.now }
{
    text.eq_ignore_ascii_case(word)
}

#[tactic(auto, unfolding(crate::specs::Words::joining_word))]
fn joining_word(text: &str) -> Option<Word>
    ensures { result ≡ joining_word text.now }
{
    if is_word(text, "not") {
        Some(Word::Not)
    } else if is_word(text, "and") {
        Some(Word::And)
    } else if is_word(text, "or") {
        Some(Word::Or)
    } else if is_word(text, "pr") {
        Some(Word::Present)
    } else if is_word(text, "true") {
        Some(Word::Truth(true))
    } else if is_word(text, "false") {
        Some(Word::Truth(false))
    } else {
        None
    }
}

#[tactic(auto, unfolding(crate::specs::Words::comparing_word))]
fn comparing_word(text: &str) -> Option<Word>
    ensures { result ≡ comparing_word text.now }
{
    if is_word(text, "eq") {
        Some(Word::Compare(TextOperator::Equal))
    } else if is_word(text, "ne") {
        Some(Word::Compare(TextOperator::NotEqual))
    } else if is_word(text, "co") {
        Some(Word::Compare(TextOperator::Contains))
    } else if is_word(text, "sw") {
        Some(Word::Compare(TextOperator::StartsWith))
    } else if is_word(text, "ew") {
        Some(Word::Compare(TextOperator::EndsWith))
    } else {
        None
    }
}

#[tactic(auto, unfolding(crate::specs::Words::text_attribute_named))]
fn text_attribute_named(text: &str) -> Option<TextAttribute>
    ensures { result ≡ text_attribute_named text.now }
{
    if is_word(text, "userName") {
        Some(TextAttribute::UserName)
    } else if is_word(text, "displayName") {
        Some(TextAttribute::DisplayName)
    } else if is_word(text, "name.givenName") {
        Some(TextAttribute::GivenName)
    } else if is_word(text, "name.familyName") {
        Some(TextAttribute::FamilyName)
    } else if is_word(text, "emails") {
        Some(TextAttribute::EmailValue)
    } else if is_word(text, "emails.value") {
        Some(TextAttribute::EmailValue)
    } else if is_word(text, "emails.type") {
        Some(TextAttribute::EmailType)
    } else if is_word(text, "members") {
        Some(TextAttribute::Member)
    } else if is_word(text, "members.value") {
        Some(TextAttribute::Member)
    } else if is_word(text, "id") {
        Some(TextAttribute::Id)
    } else if is_word(text, "externalId") {
        Some(TextAttribute::ExternalId)
    } else if is_word(text, "meta.version") {
        Some(TextAttribute::Version)
    } else {
        None
    }
}

#[tactic(auto, unfolding(crate::specs::Words::flag_attribute_named))]
fn flag_attribute_named(text: &str) -> Option<FlagAttribute>
    ensures { result ≡ flag_attribute_named text.now }
{
    if is_word(text, "active") {
        Some(FlagAttribute::Active)
    } else if is_word(text, "emails.primary") {
        Some(FlagAttribute::EmailPrimary)
    } else {
        None
    }
}

#[tactic(auto, unfolding(crate::specs::Words::attribute_word))]
fn attribute_word(text: &str) -> Option<Word>
    ensures { result ≡ attribute_word text.now }
{
    if let Some(attribute) = text_attribute_named(text) {
        return Some(Word::Name(Attribute::OfText(attribute)));
    }
    match flag_attribute_named(text) {
        Some(attribute) => Some(Word::Name(Attribute::OfFlag(attribute))),
        None => None,
    }
}

/// The word that a text is, in any case.
#[tactic(auto, unfolding(crate::specs::Words::word_named))]
pub(crate) fn word_named(text: &str) -> Option<Word>
    ensures { result ≡ word_named text.now }
{
    if let Some(word) = joining_word(text) {
        return Some(word);
    }
    if let Some(word) = comparing_word(text) {
        return Some(word);
    }
    attribute_word(text)
}
