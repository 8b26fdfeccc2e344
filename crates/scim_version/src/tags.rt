//! Entity tags (RFC 7232 section 2.3).
ghost use Rattle.std.specs.Prelude.{◌≡◌, IfOk, IsErrOf};
ghost use Rattle.std.specs.List.{list_all};
ghost use Rattle.std.specs.Str.{bytes_eq};
ghost use Rattle.scim_key.specs.Outcome.{Takes};
ghost use Rattle.scim_version.specs.Tags.{IsEntityTag, is_tag_byte, is_quoted, is_weak, is_entity_tag, opaque_tag, strong_eq, tag_fault, version_tag, weak_eq};
ghost use Rattle.scim_version.specs.declared.tags.TagFault.TheVariants.{Memory};

use itoa::Buffer;
use std::alloc::{AllocError, AllocFailed, Global};
use std::marker::Model;
use thiserror::Error;

/// Why a text isn't an entity tag, or isn't a list of entity tags.
#[derive(Clone, Copy, Debug, Error)]
pub enum TagFault {
    #[error("V1")]
    Malformed,
    #[error("V2")]
    Memory,
}

impl From<AllocError> for TagFault {
    ghost from_gives = { λ _ fault. fault ≡ Memory };

    fn from(_: AllocError) -> TagFault {
        TagFault::Memory
    }
}

impl<T: Drop> From<AllocFailed<T>> for TagFault {
    ghost from_gives = { λ _ fault. fault ≡ Memory };

    fn from(_: AllocFailed<T>) -> TagFault {
        TagFault::Memory
    }
}

/// An entity tag: an optional `W/`, a double quote, any number of bytes 0x21, 0x23 to 0x7E or
/// 0x80 to 0xFF, and a double quote. It keeps the bytes that it was read or made from.
#[derive(Drop)]
pub struct EntityTag {
    bytes: Vec<u8>,
}

impl Model for EntityTag {
    ghost use Rattle.std.specs.Prelude.{List, ℕ, IsTrue};
    ghost use Rattle.scim_version.specs.Tags.{is_entity_tag};

    ghost Value = { List ℕ };

    ghost view = { λ tag. tag.bytes.items };

    ghost invariant = { λ tag. IsTrue (is_entity_tag tag.bytes.items) };
}

/// Whether a tag may contain every one of these bytes between its quotes.
fn are_tag_bytes(bytes: &[u8]) -> bool
    ensures { result ≡ list_all is_tag_byte bytes.now }
{
    bytes
        .iter()
        .all(|b| *b == 0x21 || (*b >= 0x23 && *b <= 0x7e) || *b >= 0x80)
}

/// Whether the text is tag bytes between two double quotes.
#[tactic(auto, unfolding(crate::specs::Tags::is_quoted))]
fn is_quoted_text(bytes: &[u8]) -> bool
    ensures { result ≡ is_quoted bytes.now }
{
    bytes.len() >= 2
        && bytes[0] == b'"'
        && bytes[bytes.len() - 1] == b'"'
        && are_tag_bytes(&bytes[1..bytes.len() - 1])
}

/// Whether a tag begins with `W/`.
#[tactic(auto, unfolding(crate::specs::Tags::is_weak))]
fn is_weak_tag(tag: &[u8]) -> bool
    ensures { result ≡ is_weak tag.now }
{
    tag.starts_with(b"W/")
}

/// The tag without `W/`.
#[tactic(auto, unfolding(crate::specs::Tags::opaque_tag))]
fn without_weakness(tag: &[u8]) -> &[u8]
    ensures { result.now ≡ opaque_tag tag.now }
{
    if is_weak_tag(tag) { &tag[2..] } else { tag }
}

#[tactic(auto, unfolding(crate::specs::Tags::is_entity_tag))]
fn is_tag(text: &[u8]) -> bool
    ensures { result ≡ is_entity_tag text.now }
{
    is_quoted_text(without_weakness(text))
}

/// The initial capacity of a version's tag, in bytes: 20 digits between two quotes at most.
const VERSION_TAG_ROOM: usize = 22;

/// The strong tag of a version: its number between double quotes.
fn bytes_of_version(alloc: Global, version: u64) -> Result<Vec<u8>, AllocError>
    ensures { IfOk result (λ bytes. bytes.items ≡ version_tag version) }
{
    let mut buffer = Buffer::new();
    let digits = buffer.format(version).as_bytes();
    let mut bytes = Vec::with_capacity(alloc, VERSION_TAG_ROOM)?;
    bytes.push(b'"')?;
    bytes.extend_from_slice(digits)?;
    bytes.push(b'"')?;
    Ok(bytes)
}

/// Whether a text is the tag of a version. It allocates nothing.
fn is_version_tag(text: &[u8], version: u64) -> bool
    ensures { result ≡ bytes_eq text.now (version_tag version) }
{
    let mut buffer = Buffer::new();
    let digits = buffer.format(version).as_bytes();
    is_quoted_text(text) && &text[1..text.len() - 1] == digits
}

impl EntityTag {
    /// Reads an entity tag. A text of another form has the fault `Malformed`.
    #[tactic(auto, unfolding(crate::specs::Tags::tag_fault))]
    pub fn read(alloc: Global, bytes: &[u8]) -> Result<EntityTag, TagFault>
        ensures exact { Takes TagFault.Memory (tag_fault bytes.now) bytes.now result }
        ensures read { IfOk result (λ tag. (tag ≡ bytes.now) × IsEntityTag bytes.now) }
        ensures malformed { IsErrOf result TagFault.Malformed → ¬ (IsEntityTag bytes.now) }
    {
        if !is_tag(bytes) {
            return Err(TagFault::Malformed);
        }
        Ok(EntityTag {
            bytes: Vec::from_slice(alloc, bytes)?,
        })
    }

    /// The strong tag of a version.
    pub fn of_counter(alloc: Global, version: u64) -> Result<EntityTag, AllocError>
        ensures { IfOk result (λ tag. tag ≡ version_tag version) }
    {
        let bytes = bytes_of_version(alloc, version)?;
        Ok(EntityTag { bytes })
    }

    /// The bytes of the tag as it was read or made.
    pub fn text(&self) -> &[u8]
        ensures bytes { result.now ≡ self.now }
        ensures lawful { IsEntityTag self.now }
    {
        self.bytes.as_slice()
    }

    /// Strong comparison (RFC 7232 section 2.3.2): a weak tag equals nothing.
    #[tactic(auto, unfolding(crate::specs::Tags::strong_eq))]
    pub fn strong_eq(&self, other: &EntityTag) -> bool
        ensures { result ≡ strong_eq self.now other.now }
    {
        let (tag, other) = (self.text(), other.text());
        !is_weak_tag(tag) && !is_weak_tag(other) && tag == other
    }

    /// Weak comparison (RFC 7232 section 2.3.2): `W/` is ignored.
    #[tactic(auto, unfolding(crate::specs::Tags::weak_eq))]
    pub fn weak_eq(&self, other: &EntityTag) -> bool
        ensures { result ≡ weak_eq self.now other.now }
    {
        without_weakness(self.text()) == without_weakness(other.text())
    }

    /// Whether the tag is strongly equal to the tag of a version.
    pub(crate) fn is_of_version(&self, version: u64) -> bool
        ensures { result ≡ strong_eq self.now (version_tag version) }
    {
        is_version_tag(self.text(), version)
    }

    /// Whether the tag is weakly equal to the tag of a version.
    pub(crate) fn is_weakly_of_version(&self, version: u64) -> bool
        ensures { result ≡ weak_eq self.now (version_tag version) }
    {
        is_version_tag(without_weakness(self.text()), version)
    }
}

impl Clone for EntityTag {
    ghost is_clone = { λ tag copy. copy ≡ tag };

    fn clone(&self) -> Result<EntityTag, AllocError> {
        let bytes = self.bytes.clone()?;
        Ok(EntityTag { bytes })
    }
}
