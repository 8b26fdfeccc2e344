//! The names of users (RFC 7643 section 4.1.1).
ghost use Rattle.std.specs.Prelude.{◌≡◌, ◌↔◌, IfOk, IsTrue};
ghost use Rattle.std.specs.List.{list_all};
ghost use Rattle.scim_key.specs.Outcome.{Takes};
ghost use Rattle.scim_key.specs.Names.{key_of, user_name_fault, IsUserName, is_user_name_byte};

use crate::names::{NAME_LIMIT, NameFault, have_same_key};
use crate::records::Key;
use std::alloc::{AllocError, Global};
use std::marker::Model;

/// A `userName`: 1 to `NAME_LIMIT` bytes from 0x21 to 0x7E except `"` and `\`.
#[derive(Drop)]
pub struct UserName {
    text: String,
}

impl Model for UserName {
    ghost use Rattle.std.specs.Prelude.{List, ℕ, string_bytes};
    ghost use Rattle.scim_key.specs.Names.{IsUserName};

    ghost Value = { List ℕ };

    ghost view = { λ n. string_bytes n.text };

    ghost invariant = { λ n. IsUserName (string_bytes n.text) };
}

/// Whether a `userName` may contain every one of these bytes.
fn are_user_name_bytes(bytes: &[u8]) -> bool
    ensures { result ≡ list_all is_user_name_byte bytes.now }
{
    bytes
        .iter()
        .all(|b| *b >= 33 && *b <= 126 && *b != 34 && *b != 92)
}

#[tactic(auto, unfolding(crate::specs::Names::user_name_fault))]
fn fault_of_user_name(text: &str) -> Option<NameFault>
    ensures { result ≡ user_name_fault text.now }
{
    if text.is_empty() {
        Some(NameFault::Empty)
    } else if text.len() > NAME_LIMIT {
        Some(NameFault::TooLong)
    } else if !are_user_name_bytes(text.as_bytes()) {
        Some(NameFault::Character)
    } else {
        None
    }
}

impl Clone for UserName {
    ghost is_clone = { λ a b. b ≡ a };

    fn clone(&self) -> Result<UserName, AllocError> {
        Ok(UserName {
            text: self.text.clone()?,
        })
    }
}

impl UserName {
    /// Reads a name. If several faults apply, the result is the first of them in the order of `NameFault`.
    pub fn read(alloc: Global, text: &str) -> Result<UserName, NameFault>
        ensures { Takes NameFault.Memory (user_name_fault text.now) text.now result }
    {
        match fault_of_user_name(text) {
            Some(fault) => Err(fault),
            None => Ok(UserName {
                text: String::from_str(alloc, text)?,
            }),
        }
    }

    /// The name as it was spelled.
    pub fn as_str(&self) -> &str
        ensures value { result.now ≡ self.now }
        ensures lawful { IsUserName result.now }
    {
        self.text.as_str()
    }

    /// The key under which the name is unique.
    pub fn key(&self, alloc: Global) -> Result<Key, AllocError>
        ensures { IfOk result (λ key. key ≡ key_of self.now) }
    {
        Key::of(alloc, self.text.as_str())
    }

    /// Whether both names have the same key. It allocates nothing.
    pub fn same_key(&self, other: &UserName) -> bool
        ensures { IsTrue result ↔ (key_of self.now ≡ key_of other.now) }
    {
        have_same_key(self.text.as_str(), other.text.as_str())
    }
}
