//! The base of a service.
ghost use Rattle.std.specs.Prelude.{◌≡◌, IfOk, IsTrue, length, ◌<◌};
ghost use Rattle.std.specs.List.{list_all};
ghost use Rattle.scim_key.specs.Outcome.{Takes};
ghost use Rattle.scim_key.specs.Bases.{base_fault, is_base, authority_of, is_authority_byte, BasesAreSpelled, IsAuthority, IsBase};

use crate::names::NameFault;
use std::alloc::Global;
use std::marker::Model;

/// The most bytes that an authority may have.
pub const AUTHORITY_LIMIT: usize = 100;

/// The most bytes that a base may have: `http://`, an authority and `/v2`.
pub const BASE_LIMIT: usize = AUTHORITY_LIMIT + 10;

/// The base of a service: `http://`, an authority of 1 to `AUTHORITY_LIMIT` bytes of ASCII letters, digits
/// and `.-:[]`, and `/v2`.
#[derive(Drop)]
pub struct Base {
    text: String,
}

impl Model for Base {
    ghost use Rattle.std.specs.Prelude.{List, ℕ, string_bytes};
    ghost use Rattle.scim_key.specs.Bases.{IsBase};

    ghost Value = { List ℕ };

    ghost view = { λ b. string_bytes b.text };

    ghost invariant = { λ b. IsBase (string_bytes b.text) };
}

fn are_authority_bytes(bytes: &[u8]) -> bool
    ensures { result ≡ list_all is_authority_byte bytes.now }
{
    bytes.iter().all(|b| {
        (*b >= 48 && *b <= 57)
            || (*b >= 65 && *b <= 90)
            || (*b >= 97 && *b <= 122)
            || *b == 46
            || *b == 45
            || *b == 58
            || *b == 91
            || *b == 93
    })
}

#[tactic(auto, unfolding(crate::specs::Bases::is_base))]
fn is_base_text(bytes: &[u8]) -> bool
    ensures { result ≡ is_base bytes.now }
{
    bytes.len() > 10
        && bytes.starts_with(b"http://")
        && bytes[bytes.len() - 3..].starts_with(b"/v2")
        && are_authority_bytes(authority_in(bytes))
}

/// The bytes between the first seven and the last three.
fn authority_in(bytes: &[u8]) -> &[u8]
    requires { 10 < length bytes.now }
    ensures { result.now ≡ authority_of bytes.now }
{
    &bytes[..bytes.len() - 3][7..]
}

#[tactic(auto, unfolding(crate::specs::Bases::base_fault))]
fn fault_of_base(text: &str) -> Option<NameFault>
    ensures { result ≡ base_fault text.now }
{
    if text.is_empty() {
        Some(NameFault::Empty)
    } else if text.len() > BASE_LIMIT {
        Some(NameFault::TooLong)
    } else if is_base_text(text.as_bytes()) {
        None
    } else {
        Some(NameFault::Character)
    }
}

impl Base {
    /// Reads a base. A text of another form has the fault `Character`.
    pub fn read(alloc: Global, text: &str) -> Result<Base, NameFault>
        ensures { Takes NameFault.Memory (base_fault text.now) text.now result }
    {
        match fault_of_base(text) {
            Some(fault) => Err(fault),
            None => Ok(Base {
                text: String::from_str(alloc, text)?,
            }),
        }
    }

    /// The base as it was spelled.
    pub fn as_str(&self) -> &str
        ensures value { result.now ≡ self.now }
        ensures lawful { IsBase result.now }
    {
        self.text.as_str()
    }

    /// The service's host and port: the bytes between `http://` and `/v2`.
    pub fn authority(&self) -> &[u8]
        ensures value { result.now ≡ authority_of self.now }
        ensures lawful { IsAuthority result.now }
    {
        authority_in(self.text.as_bytes())
    }
}

/// A text is a valid base exactly if it is `http://`, an authority and `/v2`.
pub fn bases_are_spelled()
    ensures { BasesAreSpelled }
{}
