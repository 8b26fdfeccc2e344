//! The tokens of a filter's text.
ghost use Rattle.std.specs.Prelude.{◌≡◌, ◌<◌, ◌≤◌, ◌+◌, ◌-◌, false, IfOk, IfSome, List, length, take, drop, slice_index};
ghost use Rattle.std.specs.List.{prefix_len};
ghost use Rattle.scim_key.specs.Outcome.{Gives, GivesBy};
ghost use Rattle.scim_filter.specs.Tokens.{Consists, is_space, is_word_byte, quote_at};
ghost use Rattle.scim_filter.specs.Lexing.{token_at, gap_at, word_at, quoted_at, text_of};
ghost use Rattle.scim_filter.specs.declared.filters.FilterFault.TheVariants.{Memory};

use crate::filters::FilterFault;
use crate::terms::FilterText;
use crate::words::{Word, word_named};
use serde_json::Value;
use serde_json::error::Category;
use std::alloc::Global;

/// A token: one space or more, a parenthesis, a word, or a JSON string.
#[derive(Drop)]
pub enum Token {
    Gap,
    Open,
    Close,
    Plain(Word),
    Quoted(FilterText),
}

/// The text after the first `count` bytes, the last of which is an ASCII character.
fn after(text: &str, count: usize) -> &str
    requires some { 0 < count }
    requires within { count ≤ length text.now }
    requires ascii { slice_index text.now (count - 1) < 128 }
    ensures { result.now ≡ drop count text.now }
{
    &text[count..]
}

/// The first `count` bytes, the last of which is an ASCII character.
fn before(text: &str, count: usize) -> &str
    requires some { 0 < count }
    requires within { count ≤ length text.now }
    requires ascii { slice_index text.now (count - 1) < 128 }
    ensures { result.now ≡ take count text.now }
{
    &text[..count]
}

/// How many spaces the text begins with.
fn count_spaces(text: &[u8]) -> usize
    ensures { result ≡ prefix_len is_space text.now }
{
    text.iter().take_while(|b| **b == b' ').count()
}

/// How many letters and points the text begins with.
fn count_word_bytes(text: &[u8]) -> usize
    ensures { result ≡ prefix_len is_word_byte text.now }
{
    text.iter()
        .take_while(|b| b.is_ascii_alphabetic() || **b == b'.')
        .count()
}

/// The place of the first quote that no backslash escapes.
#[tactic(auto, unfolding(crate::specs::Tokens::quote_at))]
fn quote_at(text: &[u8]) -> Option<usize>
    ensures { result ≡ quote_at false text.now }
{
    let mut escaped = false;
    for (place, byte) in text.iter().enumerate() {
        if escaped {
            escaped = false;
        } else if *byte == b'\\' {
            escaped = true;
        } else if *byte == b'"' {
            return Some(place);
        }
    }
    None
}

/// The text that a JSON string spells.
#[tactic(auto, unfolding(crate::specs::Lexing::text_of))]
fn text_of(alloc: Global, spelled: &str) -> Result<FilterText, FilterFault>
    ensures { Gives FilterFault.Memory result (text_of spelled.now) }
{
    match Value::from_str(alloc, spelled) {
        Ok(Value::String(text)) => Ok(FilterText::from_string(text)),
        Ok(_) => Err(FilterFault::Unsupported),
        Err(error) => match error.classify() {
            Category::Memory => Err(FilterFault::Memory),
            _ => Err(FilterFault::Unsupported),
        },
    }
}

/// The word at the front of a text.
#[tactic(auto, unfolding(crate::specs::Lexing::word_at))]
fn word_at(text: &str) -> Result<(Token, &str), FilterFault>
    ensures { GivesBy (λ x. (x.0, x.1.now)) FilterFault.Memory result (word_at text.now) }
{
    let count = count_word_bytes(text.as_bytes());
    if count == 0 {
        return Err(FilterFault::Unsupported);
    }
    match word_named(before(text, count)) {
        Some(word) => Ok((Token::Plain(word), after(text, count))),
        None => Err(FilterFault::Unsupported),
    }
}

/// The spaces at the front of a text.
#[tactic(auto, unfolding(crate::specs::Lexing::gap_at))]
fn gap_at(text: &str) -> (Token, &str)
    requires { slice_index text.now 0 ≡ 32 }
    ensures { (result.0, result.1.now) ≡ gap_at text.now }
{
    let count = count_spaces(text.as_bytes());
    (Token::Gap, after(text, count))
}

/// The place of the quote that ends a JSON string, counted from the byte after its first quote.
fn closing_quote(text: &str) -> Option<usize>
    requires { slice_index text.now 0 ≡ 34 }
    ensures value { result ≡ quote_at false (drop 1 text.now) }
    ensures within { IfSome result (λ n. n + 2 ≤ length text.now) }
    ensures quote { IfSome result (λ n. slice_index text.now (n + 1) ≡ 34) }
{
    quote_at(&text.as_bytes()[1..])
}

/// The JSON string at the front of a text that begins with a quote.
#[tactic(auto, unfolding(crate::specs::Lexing::quoted_at))]
fn quoted_at(alloc: Global, text: &str) -> Result<(Token, &str), FilterFault>
    requires { slice_index text.now 0 ≡ 34 }
    ensures { GivesBy (λ x. (x.0, x.1.now)) FilterFault.Memory result (quoted_at text.now) }
{
    match closing_quote(text) {
        Some(place) => {
            let quoted = text_of(alloc, before(text, place + 2))?;
            Ok((Token::Quoted(quoted), after(text, place + 2)))
        }
        None => Err(FilterFault::Unsupported),
    }
}

/// The token at the front of a text, and the rest of the text.
#[tactic(auto, unfolding(crate::specs::Lexing::token_at))]
fn token_at(alloc: Global, text: &str) -> Result<(Token, &str), FilterFault>
    ensures { GivesBy (λ x. (x.0, x.1.now)) FilterFault.Memory result (token_at text.now) }
{
    match text.as_bytes() {
        [] => Err(FilterFault::Unsupported),
        [b' ', ..] => Ok(gap_at(text)),
        [b'(', ..] => Ok((Token::Open, after(text, 1))),
        [b')', ..] => Ok((Token::Close, after(text, 1))),
        [b'"', ..] => quoted_at(alloc, text),
        _ => word_at(text),
    }
}

/// The tokens that a text consists of.
pub(crate) fn tokens_of(alloc: Global, text: &str) -> Result<Vec<Token>, FilterFault>
    ensures found { IfOk result (λ tokens. Consists text.now tokens.items) }
    ensures only { (tokens : List Token) → Consists text.now tokens
        → GivesBy (λ v. v.items) FilterFault.Memory result (Ok tokens) }
{
    let mut tokens = Vec::new(alloc);
    let mut rest = text;
    while !rest.is_empty() {
        let (token, more) = token_at(alloc, rest)?;
        tokens.push(token)?;
        rest = more;
    }
    Ok(tokens)
}
