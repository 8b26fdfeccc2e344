//! The ids of resources (RFC 7643 section 3.1).
ghost use Rattle.std.specs.Prelude.{◌≡◌, ◌≢◌, ◌≤◌, ◌↔◌, ℕ, Some, IfOk, IfSome, IfNone, IsTrue, drop};
ghost use Rattle.std.specs.Int.{w32, from_be_bytes};
ghost use Rattle.scim_key.specs.Outcome.{Takes};
ghost use Rattle.scim_key.specs.Identifiers.{id_fault, id_text, id_bytes, last_number, IdsDiffer, IsId};

use crate::names::NameFault;
use std::alloc::{AllocError, Global};
use std::marker::Model;
use uuid::Uuid;

/// The most bytes that an id may have.
pub const ID_LIMIT: usize = 256;

/// The most resources that a provider holds, and so the greatest number of an id.
pub const LAST_NUMBER: u32 = 1_000_000;

/// The length in bytes of an id that is made from a number.
pub const NUMBERED_ID_LENGTH: usize = 36;

/// An id: a text of 1 to `ID_LIMIT` bytes. Ids are compared byte for byte.
#[derive(Drop)]
pub struct ResourceId {
    text: String,
}

impl Model for ResourceId {
    ghost use Rattle.std.specs.Prelude.{List, ℕ, string_bytes};
    ghost use Rattle.scim_key.specs.Identifiers.{IsId};

    ghost Value = { List ℕ };

    ghost view = { λ id. string_bytes id.text };

    ghost invariant = { λ id. IsId (string_bytes id.text) };
}

#[tactic(auto, unfolding(crate::specs::Identifiers::id_fault))]
fn fault_of_id(text: &str) -> Option<NameFault>
    ensures { result ≡ id_fault text.now }
{
    if text.is_empty() {
        Some(NameFault::Empty)
    } else if text.len() > ID_LIMIT {
        Some(NameFault::TooLong)
    } else {
        None
    }
}

/// The UUID of the n-th resource.
fn uuid_of(number: u32) -> Uuid
    ensures { result ≡ id_bytes number }
{
    let [a, b, c, d] = number.to_be_bytes();
    Uuid::from_bytes([0x5c, 0x1a, 0, 0, 0, 0, 0x80, 0, 0x80, 0, 0, 0, a, b, c, d])
}

/// Whether a text is the id of this number, byte for byte. It allocates nothing.
fn is_spelled(text: &str, number: u32) -> bool
    requires { number ≤ last_number }
    ensures { IsTrue result ↔ (text.now ≡ id_text number) }
{
    let mut buffer = [0; NUMBERED_ID_LENGTH];
    text == ResourceId::spell(number, &mut buffer)
}

/// The last four bytes of a UUID as a number.
fn last_word(uuid: Uuid) -> u32
    ensures { result ≡ from_be_bytes w32 (drop 12 uuid) }
{
    let [_, _, _, _, _, _, _, _, _, _, _, _, a, b, c, d] = uuid.into_bytes();
    u32::from_be_bytes([a, b, c, d])
}

/// The only number whose id this text can be.
fn candidate(text: &str) -> Option<u32>
    ensures { (n : ℕ) → n ≤ last_number → text.now ≡ id_text n → result ≡ Some n }
{
    match Uuid::parse_str(text) {
        Ok(uuid) => Some(last_word(uuid)),
        Err(_) => None,
    }
}

impl ResourceId {
    /// Reads an id. Its faults are `Empty` and `TooLong`.
    pub fn read(alloc: Global, text: &str) -> Result<ResourceId, NameFault>
        ensures { Takes NameFault.Memory (id_fault text.now) text.now result }
    {
        match fault_of_id(text) {
            Some(fault) => Err(fault),
            None => Ok(ResourceId {
                text: String::from_str(alloc, text)?,
            }),
        }
    }

    /// The id of the n-th resource ever created.
    pub fn of_number(alloc: Global, number: u32) -> Result<ResourceId, AllocError>
        requires from { 1 ≤ number }
        requires to { number ≤ last_number }
        ensures { IfOk result (λ id. id ≡ id_text number) }
    {
        let mut buffer = [0; NUMBERED_ID_LENGTH];
        Ok(ResourceId {
            text: String::from_str(alloc, ResourceId::spell(number, &mut buffer))?,
        })
    }

    /// Writes the id of the n-th resource into the buffer. It allocates nothing.
    pub fn spell(number: u32, buffer: &mut [u8; NUMBERED_ID_LENGTH]) -> &str
        requires { number ≤ last_number }
        ensures { result.now ≡ id_text number }
    {
        uuid_of(number).hyphenated().encode_lower(buffer)
    }

    /// The number whose id this is, byte for byte, if there is one. It allocates nothing.
    pub fn number(&self) -> Option<u32>
        ensures found { IfSome result (λ n. (1 ≤ n) × (n ≤ last_number) × (self.now ≡ id_text n)) }
        ensures none { IfNone result ((n : ℕ) → 1 ≤ n → n ≤ last_number → self.now ≢ id_text n) }
    {
        let text = self.text.as_str();
        match candidate(text) {
            Some(number) if number >= 1 && number <= LAST_NUMBER && is_spelled(text, number) => {
                Some(number)
            }
            _ => None,
        }
    }

    /// The id as it was spelled.
    pub fn as_str(&self) -> &str
        ensures value { result.now ≡ self.now }
        ensures lawful { IsId result.now }
    {
        self.text.as_str()
    }
}

impl Clone for ResourceId {
    ghost is_clone = { λ a b. b ≡ a };

    fn clone(&self) -> Result<ResourceId, AllocError> {
        Ok(ResourceId {
            text: self.text.clone()?,
        })
    }
}

/// Resources of different numbers have different ids.
pub fn ids_differ()
    ensures { IdsDiffer }
{}
