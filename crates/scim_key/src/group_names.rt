//! The names of groups (RFC 7643 section 4.2).
ghost use Rattle.std.specs.Prelude.{◌≡◌, ◌↔◌, ◌<◌, IfOk, IsTrue, length};
ghost use Rattle.std.specs.List.{list_all};
ghost use Rattle.scim_key.specs.Outcome.{Takes};
ghost use Rattle.scim_key.specs.Names.{key_of, group_name_fault, IsGroupName, has_space_at_end, is_group_name_byte};

use crate::names::{NAME_LIMIT, NameFault, have_same_key};
use crate::records::Key;
use std::alloc::{AllocError, Global};
use std::marker::Model;

/// A group's `displayName`: 1 to `NAME_LIMIT` bytes from 0x20 to 0x7E except `"` and `\`, without a space
/// at either end.
#[derive(Drop)]
pub struct GroupName {
    text: String,
}

impl Model for GroupName {
    ghost use Rattle.std.specs.Prelude.{List, ℕ, string_bytes};
    ghost use Rattle.scim_key.specs.Names.{IsGroupName};

    ghost Value = { List ℕ };

    ghost view = { λ n. string_bytes n.text };

    ghost invariant = { λ n. IsGroupName (string_bytes n.text) };
}

/// Whether a group's name may contain every one of these bytes.
fn are_group_name_bytes(bytes: &[u8]) -> bool
    ensures { result ≡ list_all is_group_name_byte bytes.now }
{
    bytes
        .iter()
        .all(|b| *b >= 32 && *b <= 126 && *b != 34 && *b != 92)
}

/// Whether a text that isn't empty begins or ends with a space.
fn is_spaced(bytes: &[u8]) -> bool
    requires { 0 < length bytes.now }
    ensures { result ≡ has_space_at_end bytes.now }
{
    bytes[0] == 32 || bytes[bytes.len() - 1] == 32
}

#[tactic(auto, unfolding(crate::specs::Names::group_name_fault))]
fn fault_of_group_name(text: &str) -> Option<NameFault>
    ensures { result ≡ group_name_fault text.now }
{
    if text.is_empty() {
        Some(NameFault::Empty)
    } else if text.len() > NAME_LIMIT {
        Some(NameFault::TooLong)
    } else if !are_group_name_bytes(text.as_bytes()) {
        Some(NameFault::Character)
    } else if is_spaced(text.as_bytes()) {
        Some(NameFault::SpaceAtEnd)
    } else {
        None
    }
}

impl Clone for GroupName {
    ghost is_clone = { λ a b. b ≡ a };

    fn clone(&self) -> Result<GroupName, AllocError> {
        Ok(GroupName {
            text: self.text.clone()?,
        })
    }
}

impl GroupName {
    /// Reads a name. If several faults apply, the result is the first of them in the order of `NameFault`.
    pub fn read(alloc: Global, text: &str) -> Result<GroupName, NameFault>
        ensures { Takes NameFault.Memory (group_name_fault text.now) text.now result }
    {
        match fault_of_group_name(text) {
            Some(fault) => Err(fault),
            None => Ok(GroupName {
                text: String::from_str(alloc, text)?,
            }),
        }
    }

    /// The name as it was spelled.
    pub fn as_str(&self) -> &str
        ensures value { result.now ≡ self.now }
        ensures lawful { IsGroupName result.now }
    {
        self.text.as_str()
    }

    /// The key under which the name is unique.
    pub fn key(&self, alloc: Global) -> Result<Key, AllocError>
        ensures { IfOk result (λ key. key ≡ key_of self.now) }
    {
        Key::of(alloc, self.text.as_str())
    }

    /// Whether both names have the same key. It allocates nothing.
    pub fn same_key(&self, other: &GroupName) -> bool
        ensures { IsTrue result ↔ (key_of self.now ≡ key_of other.now) }
    {
        have_same_key(self.text.as_str(), other.text.as_str())
    }
}
