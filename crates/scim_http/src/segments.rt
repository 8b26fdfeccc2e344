//! The id that a segment of a path spells (RFC 3986 section 2.1).
ghost use Rattle.std.specs.Prelude.{◌≡◌, ◌==◌, ◌∷◌, ◌<◌, ◌≤◌, None, IfOk, IfSome, MatchOption, Some, length};
ghost use Rattle.std.specs.List.{list_any};
ghost use Rattle.std.specs.Option.{option_map};
ghost use Rattle.scim_http.specs.Segments as spec;

use scim_key::{NameFault, ResourceId};
use std::alloc::{AllocError, Global};
use std::str::from_utf8;

/// The id that a segment without `/` spells: a text of 1 to 256 bytes. A segment without `%` spells itself.
#[tactic(auto, using(crate::proofs::SegmentLemmas::id_of_itself))]
pub(crate) fn id_of(alloc: Global, segment: &[u8]) -> Result<Option<ResourceId>, AllocError>
    ensures { IfOk result (λ id. id ≡ spec.id_of segment.now) }
{
    if has_slash(segment) {
        return Ok(None);
    }
    if !segment.contains(&b'%') {
        return lawful_id(alloc, segment);
    }
    match unescaped(alloc, segment)? {
        Some(bytes) => lawful_id(alloc, &bytes),
        None => Ok(None),
    }
}

fn has_slash(segment: &[u8]) -> bool
    ensures { result ≡ list_any (λ byte. byte == 47) segment.now }
{
    segment.iter().any(|byte| *byte == b'/')
}

/// The id with these bytes, if they are a valid one.
fn lawful_id(alloc: Global, bytes: &[u8]) -> Result<Option<ResourceId>, AllocError>
    ensures { IfOk result (λ id. id ≡ spec.lawful_id (Some bytes.now)) }
{
    let Ok(text) = from_utf8(bytes) else {
        return Ok(None);
    };
    match ResourceId::read(alloc, text) {
        Ok(id) => Ok(Some(id)),
        Err(NameFault::Memory) => Err(AllocError),
        Err(_) => Ok(None),
    }
}

/// The text with each `%` and two hexadecimal digits replaced by the byte with that number; `None` if a `%`
/// is followed by anything else.
fn unescaped(alloc: Global, segment: &[u8]) -> Result<Option<Vec<u8>>, AllocError>
    ensures { IfOk result
        (λ text. option_map (λ t. t.items) text ≡ spec.unescaped segment.now) }
{
    let mut text = Vec::new(alloc);
    let mut rest = segment;
    while let [first, more @ ..] = rest {
        let Some((byte, after)) = next_byte(*first, more) else {
            return Ok(None);
        };
        text.push(byte)?;
        rest = after;
    }
    Ok(Some(text))
}

/// The first byte that a text spells, and the rest of the text.
#[tactic(auto, unfolding(crate::specs::Segments::unescaped))]
fn next_byte(first: u8, more: &[u8]) -> Option<(u8, &[u8])>
    ensures spelled { MatchOption result (spec.unescaped (first ∷ more.now)
        ≡ None) (λ next. spec.unescaped (first ∷ more.now)
        ≡ spec.put_before (Some next.0) (spec.unescaped next.1.now)) }
    ensures shorter { IfSome result (λ next. length next.1.now ≤ length more.now) }
{
    if first != b'%' {
        return Some((first, more));
    }
    let [high, low, rest @ ..] = more else {
        return None;
    };
    Some((escaped_byte(*high, *low)?, rest))
}

/// The byte that `%` and these two digits stand for.
fn escaped_byte(high: u8, low: u8) -> Option<u8>
    ensures { result ≡ spec.escaped_byte high low }
{
    match (hex_value(high), hex_value(low)) {
        (Some(high), Some(low)) => Some(16 * high + low),
        _ => None,
    }
}

/// The value of a hexadecimal digit.
#[tactic(auto, unfolding(crate::specs::Segments::hex_value))]
fn hex_value(byte: u8) -> Option<u8>
    ensures value { result ≡ spec.hex_value byte }
    ensures small { IfSome result (λ value. value < 16) }
{
    match byte {
        b'0'..=b'9' => Some(byte - b'0'),
        b'A'..=b'F' => Some(byte - b'A' + 10),
        b'a'..=b'f' => Some(byte - b'a' + 10),
        _ => None,
    }
}
