//! Comma lists, as in the fields `If-Match` and `If-None-Match`.
ghost use Rattle.std.specs.Prelude.{◌≡◌, ◌++◌, ◌<◌, ◌==◌, IfOk, OnOk, false, length, map, nat_lt, cond, List, ℕ, ◌∷◌, []};
ghost use Rattle.scim_version.specs.Lists.{elements, is_blank, kept, without_leading_blanks, without_trailing_blanks};

use std::alloc::{AllocError, Global};

fn is_blank_byte(byte: u8) -> bool
    ensures { result ≡ is_blank byte }
{
    byte == b' ' || byte == b'\t'
}

/// The text from its first byte that is neither a space nor a tab.
fn without_leading(text: &[u8]) -> &[u8]
    ensures { result.now ≡ without_leading_blanks text.now }
{
    let mut rest = text;
    while let [first, more @ ..] = rest
        && is_blank_byte(*first)
    {
        rest = more;
    }
    rest
}

/// The text to its last byte that is neither a space nor a tab.
fn without_trailing(text: &[u8]) -> &[u8]
    ensures { result.now ≡ without_trailing_blanks text.now }
{
    let mut rest = text;
    while let [more @ .., last] = rest
        && is_blank_byte(*last)
    {
        rest = more;
    }
    rest
}

/// Adds a part of a list without the spaces and tabs around it, unless that leaves it empty.
#[tactic(auto, unfolding(crate::specs::Lists::kept, crate::specs::Lists::trimmed))]
fn push_part<'a>(found: &mut Vec<&'a [u8]>, part: &'a [u8]) -> Result<(), AllocError>
    ensures { OnOk result (map (λ e. e.now) found.new.items ≡ map (λ e. e.now) found.old.items
        ++ kept (part.now ∷ [])) }
{
    let element = without_trailing(without_leading(part));
    if !element.is_empty() {
        found.push(element)?;
    }
    Ok(())
}

/// The elements of a list: its parts between the commas outside double quotes, without the spaces and tabs
/// around them. Empty parts are left out.
pub(crate) fn elements_of<'a>(alloc: Global, text: &'a [u8]) -> Result<Vec<&'a [u8]>, AllocError>
    ensures { IfOk result (λ found. map (λ e. e.now) found.items ≡ elements text.now) }
{
    let mut found = Vec::new(alloc);
    let mut start = 0;
    let mut quoted = false;
    for (i, byte) in text.iter().enumerate() {
        if *byte == b'"' {
            quoted = !quoted;
        } else if *byte == b',' && !quoted {
            push_part(&mut found, &text[start..i])?;
            start = i + 1;
        }
    }
    push_part(&mut found, &text[start..])?;
    Ok(found)
}
