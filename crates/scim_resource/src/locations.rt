//! The URI of a resource.
ghost use Rattle.std.specs.Prelude.{◌≡◌, ◌<◌, ◌++◌, ◌∷◌, [], IfOk, IsTrue, OnOk, string_bytes};
ghost use Rattle.scim_resource.specs.Locations as spec;

use scim_key::{Base, Kind, ResourceId};
use std::alloc::{AllocError, Global};

/// The initial capacity of a URI, in bytes.
const LOCATION_ROOM: usize = 128;

/// The URI of a resource (RFC 7644 section 3.1).
#[tactic(auto, unfolding(crate::specs::Locations::location_text))]
pub fn location(
    alloc: Global,
    base: &Base,
    kind: Kind,
    id: &ResourceId,
) -> Result<String, AllocError>
    ensures { IfOk result (λ text. string_bytes text ≡ spec.location_text base.now kind id.now) }
{
    let mut text = String::with_capacity(alloc, LOCATION_ROOM)?;
    text.push_str(base.as_str())?;
    text.push_str(collection_path(kind))?;
    push_escaped(&mut text, id.as_str())?;
    Ok(text)
}

/// The word for a type of resource.
pub(crate) fn type_name(kind: Kind) -> &'static str
    ensures { result.now ≡ spec.type_name kind }
{
    match kind {
        Kind::User => "User",
        Kind::Group => "Group",
    }
}

fn collection_path(kind: Kind) -> &'static str
    ensures { result.now ≡ spec.collection_path kind }
{
    match kind {
        Kind::User => "/Users/",
        Kind::Group => "/Groups/",
    }
}

fn push_escaped(out: &mut String, text: &str) -> Result<(), AllocError>
    ensures { OnOk result (string_bytes out.new ≡ string_bytes out.old ++ spec.escaped text.now) }
{
    if is_plain(text) {
        return out.push_str(text);
    }
    for byte in text.as_bytes() {
        push_byte(out, *byte)?;
    }
    Ok(())
}

/// Whether escaping changes nothing.
#[tactic(auto, unfolding(crate::specs::Locations::escaped_byte))]
fn is_plain(text: &str) -> bool
    ensures { IsTrue result → spec.escaped text.now ≡ text.now }
{
    for byte in text.as_bytes() {
        if !is_unreserved(*byte) {
            return false;
        }
    }
    true
}

#[tactic(auto, unfolding(crate::specs::Locations::escaped_byte))]
fn push_byte(out: &mut String, byte: u8) -> Result<(), AllocError>
    ensures { OnOk result (string_bytes out.new ≡ string_bytes out.old ++ spec.escaped_byte byte) }
{
    if is_unreserved(byte) {
        out.push(char::from(byte))?;
    } else {
        out.push('%')?;
        out.push(upper_hex(byte / 16))?;
        out.push(upper_hex(byte % 16))?;
    }
    Ok(())
}

fn is_unreserved(byte: u8) -> bool
    ensures value { result ≡ spec.is_unreserved byte }
{
    (byte >= 48 && byte <= 57)
        || (byte >= 65 && byte <= 90)
        || (byte >= 97 && byte <= 122)
        || byte == b'-'
        || byte == b'.'
        || byte == b'_'
        || byte == b'~'
}

fn upper_hex(digit: u8) -> char
    requires { digit < 16 }
    ensures value { result ≡ spec.upper_hex digit }
    ensures ascii { result < 128 }
{
    char::from(if digit < 10 { 48 + digit } else { 55 + digit })
}
