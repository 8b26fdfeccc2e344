//! Compares a text of a resource with the text of a filter. It allocates nothing.
ghost use Rattle.std.specs.Prelude.{◌≡◌};
ghost use Rattle.std.specs.Str.{bytes_eq};
ghost use Rattle.scim_filter.specs.Comparing as spec;

use crate::terms::TextOperator;

/// Whether both texts are the same: byte for byte if `exact`, otherwise in any case.
fn is_same(exact: bool, text: &[u8], given: &[u8]) -> bool
    ensures { result ≡ bytes_eq (spec.folded exact text.now) (spec.folded exact given.now) }
{
    if exact {
        text == given
    } else {
        text.eq_ignore_ascii_case(given)
    }
}

fn begins_with(exact: bool, text: &[u8], given: &[u8]) -> bool
    ensures { result ≡ spec.begins_with (spec.folded exact text.now) (spec.folded exact given.now) }
{
    if given.len() > text.len() {
        return false;
    }
    is_same(exact, &text[..given.len()], given)
}

fn ends_with(exact: bool, text: &[u8], given: &[u8]) -> bool
    ensures { result ≡ spec.ends_with (spec.folded exact text.now) (spec.folded exact given.now) }
{
    if given.len() > text.len() {
        return false;
    }
    is_same(exact, &text[text.len() - given.len()..], given)
}

fn contains(exact: bool, text: &[u8], given: &[u8]) -> bool
    ensures { result ≡ spec.contains (spec.folded exact text.now) (spec.folded exact given.now) }
{
    for start in 0..text.len() {
        if begins_with(exact, &text[start..], given) {
            return true;
        }
    }
    given.is_empty()
}

/// Whether the comparison of the text with the given one holds.
pub(crate) fn compares(exact: bool, operator: TextOperator, text: &str, given: &str) -> bool
    ensures { result
        ≡ spec.compares operator (spec.folded exact text.now) (spec.folded exact given.now) }
{
    let (text, given) = (text.as_bytes(), given.as_bytes());
    match operator {
        TextOperator::Equal | TextOperator::NotEqual => is_same(exact, text, given),
        TextOperator::Contains => contains(exact, text, given),
        TextOperator::StartsWith => begins_with(exact, text, given),
        TextOperator::EndsWith => ends_with(exact, text, given),
    }
}
