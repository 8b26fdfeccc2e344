//! The path of a service.
ghost use Rattle.std.specs.Prelude.{◌≡◌};
ghost use Rattle.scim_key.specs.Outcome.{Takes};
ghost use Rattle.scim_client.specs.ServicePaths as spec;
ghost use Rattle.scim_client.specs.ServicePaths.{IsServicePath};

use scim_key::NameFault;
use std::alloc::Global;
use std::marker::Model;

/// The most bytes that the path of a service may have.
pub const SERVICE_PATH_LIMIT: usize = 200;

/// The path of a service, in place of `/v2`: one segment or more, each behind a `/` (RFC 3986 section 3.3).
#[derive(Drop)]
pub struct ServicePath {
    text: String,
}

impl Model for ServicePath {
    ghost use Rattle.std.specs.Prelude.{List, ℕ, string_bytes};
    ghost use Rattle.scim_client.specs.ServicePaths.{IsServicePath};

    ghost Value = { List ℕ };

    ghost view = { λ p. string_bytes p.text };

    ghost invariant = { λ p. IsServicePath (string_bytes p.text) };
}

impl ServicePath {
    /// Reads the path of a service. A text of another form has the fault `Character`.
    pub fn read(alloc: Global, text: &str) -> Result<ServicePath, NameFault>
        ensures { Takes NameFault.Memory (spec.service_path_fault text.now) text.now result }
    {
        match fault_of_path(text) {
            Some(fault) => Err(fault),
            None => Ok(ServicePath {
                text: String::from_str(alloc, text)?,
            }),
        }
    }

    /// The path as it was spelled.
    pub fn as_str(&self) -> &str
        ensures value { result.now ≡ self.now }
        ensures lawful { IsServicePath result.now }
    {
        self.text.as_str()
    }
}

#[tactic(auto, unfolding(crate::specs::ServicePaths::service_path_fault))]
fn fault_of_path(text: &str) -> Option<NameFault>
    ensures { result ≡ spec.service_path_fault text.now }
{
    if text.is_empty() {
        Some(NameFault::Empty)
    } else if text.len() > SERVICE_PATH_LIMIT {
        Some(NameFault::TooLong)
    } else if is_service_path(text.as_bytes()) {
        None
    } else {
        Some(NameFault::Character)
    }
}

fn is_service_path(path: &[u8]) -> bool
    ensures { result ≡ spec.is_service_path path.now }
{
    match path {
        [first, ..] => *first == b'/' && are_placed(path),
        [] => false,
    }
}

/// Whether each byte stands where it may.
#[tactic(auto, unfolding(crate::specs::ServicePaths::are_placed))]
fn are_placed(path: &[u8]) -> bool
    ensures { result ≡ spec.are_placed path.now }
{
    let mut rest = path;
    while let [first, more @ ..] = rest {
        if !is_placed(*first, more) {
            return false;
        }
        rest = more;
    }
    true
}

/// Whether a byte may stand in front of the rest.
fn is_placed(byte: u8, rest: &[u8]) -> bool
    ensures { result ≡ spec.is_placed byte rest.now }
{
    match byte {
        b'/' => begins_segment(rest),
        b'%' => begins_with_digits(rest),
        _ => is_segment_byte(byte),
    }
}

fn begins_segment(text: &[u8]) -> bool
    ensures { result ≡ spec.begins_segment text.now }
{
    match text {
        [first, ..] => *first != b'/',
        [] => false,
    }
}

fn begins_with_digits(text: &[u8]) -> bool
    ensures { result ≡ spec.begins_with_digits text.now }
{
    match text {
        [high, low, ..] => high.is_ascii_hexdigit() && low.is_ascii_hexdigit(),
        _ => false,
    }
}

/// Whether a byte of a segment stands for itself.
fn is_segment_byte(byte: u8) -> bool
    ensures { result ≡ spec.is_segment_byte byte }
{
    byte.is_ascii_alphanumeric()
        || byte == b'-'
        || byte == b'.'
        || byte == b'_'
        || byte == b'~'
        || byte == b'!'
        || byte == b'$'
        || (byte >= b'&' && byte <= b',')
        || byte == b':'
        || byte == b';'
        || byte == b'='
        || byte == b'@'
}
