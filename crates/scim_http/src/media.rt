//! The media type that a request states for its body.
ghost use Rattle.std.specs.Prelude.{◌≡◌, not, find, codes};
ghost use Rattle.std.specs.Str.{bytes_eq};
ghost use Rattle.http_text.specs.Message.{lowered, values};
ghost use Rattle.scim_http.specs.Media as spec;

use crate::field_lines::MEDIA_TYPE;
use http_text::Incoming;

/// Whether `Content-Type` is absent, or is there once with a supported media type.
pub(crate) fn is_type_served(incoming: &Incoming) -> bool
    ensures { result
        ≡ spec.is_type_served (values (codes "content-type") incoming.now.head.fields) }
{
    let mut types = incoming.fields("content-type");
    match (types.next(), types.next()) {
        (None, _) => true,
        (Some(text), None) => is_json_type(text),
        (Some(_), Some(_)) => false,
    }
}

fn is_json_type(text: &[u8]) -> bool
    ensures { result ≡ spec.is_json_type text.now }
{
    is_media_type(MEDIA_TYPE, text) || is_media_type(b"application/json", text)
}

/// Whether a text is this media type in any case, with or without parameters.
fn is_media_type(name: &[u8], text: &[u8]) -> bool
    ensures { result ≡ spec.is_media_type name.now text.now }
{
    let end = name.len().min(text.len());
    same_letters(&text[..end], name) && ends_type(&text[end..])
}

fn same_letters(one: &[u8], two: &[u8]) -> bool
    ensures { result ≡ bytes_eq (lowered one.now) (lowered two.now) }
{
    one.eq_ignore_ascii_case(two)
}

/// Whether only blanks follow, or blanks and parameters.
fn ends_type(rest: &[u8]) -> bool
    ensures { result ≡ spec.ends_type rest.now }
{
    match first_other(rest) {
        Some(byte) => byte == b';',
        None => true,
    }
}

/// The first byte that isn't a blank.
fn first_other(rest: &[u8]) -> Option<u8>
    ensures { result ≡ find (λ byte. not (spec.is_blank byte)) rest.now }
{
    rest.iter().copied().find(|byte| !is_blank(*byte))
}

fn is_blank(byte: u8) -> bool
    ensures { result ≡ spec.is_blank byte }
{
    byte == b' ' || byte == b'\t'
}
