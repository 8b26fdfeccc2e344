//! Rows of the provider, and resources as answers show them.
ghost use Rattle.std.specs.Prelude.{◌≡◌, ◌≤◌, IfOk, IfSome, option_map};
ghost use Rattle.std.specs.Option.{option_copied};
ghost use Rattle.std.specs.Str.{IsUtf8};
ghost use Rattle.scim_key.specs.Identifiers.{IsId, id_text, last_number};
ghost use Rattle.scim_version.specs.Tags.{IsEntityTag, version_tag};
ghost use Rattle.scim_resource.specs.Rows.{completed, last_version, row_of, shown, shown_under, untagged, IsShort, IsShown};
ghost use Rattle.scim_resource.specs.Showing.{stated_tag};

use crate::contents::Content;
use crate::showing::stated_tag;
use scim_key::ResourceId;
use scim_version::EntityTag;
use std::alloc::{AllocError, Global};
use std::marker::Model;

/// The greatest version of a resource: the last whole number that every JSON reader reads exactly.
pub const LAST_VERSION: u64 = 9_007_199_254_740_991;

/// The number and the version of a row, without its content.
#[derive(Drop)]
pub struct RowVersion {
    number: u32,
    version: u64,
}

impl Model for RowVersion {
    ghost use Rattle.scim_resource.specs.Rows.{RowVersionRecord, IsRowVersion};

    ghost Value = { RowVersionRecord };

    ghost view = { λ v. record { number = v.number; version = v.version } };

    ghost invariant = { λ v. IsRowVersion (record { number = v.number; version = v.version }) };
}

impl RowVersion {
    pub fn new(number: u32, version: u64) -> RowVersion
        requires numbered { 1 ≤ number }
        requires number_within { number ≤ last_number }
        requires versioned { 1 ≤ version }
        requires version_within { version ≤ last_version }
        ensures { result ≡ record { number = number; version = version } }
    {
        RowVersion { number, version }
    }

    /// The row with this content.
    pub fn with_content(&self, content: Content) -> Stored
        ensures { result ≡ row_of self.now content }
    {
        Stored::new(self.number, self.version, content)
    }
}

/// A row of the provider: the resource's number in order of creation, from 1 to `LAST_NUMBER`, its
/// version, from 1 to `LAST_VERSION`, and its content.
pub struct Stored {
    number: u32,
    version: u64,
    content: Content,
}

impl Model for Stored {
    ghost use Rattle.scim_resource.specs.Rows.{StoredRecord, IsStored};

    ghost Value = { StoredRecord };

    ghost view = { λ s. record { number = s.number; version = s.version; content = s.content } };

    ghost invariant = { λ s. IsStored (record {
      number = s.number;
      version = s.version;
      content = s.content;
    }) };
}

/// Dropping a row is one call, as for a user.
impl Drop for Stored {
    fn drop(self) {
        let Stored {
            number: _,
            version: _,
            content: _,
        } = self;
    }
}

impl Stored {
    pub fn new(number: u32, version: u64, content: Content) -> Stored
        requires numbered { 1 ≤ number }
        requires number_within { number ≤ last_number }
        requires versioned { 1 ≤ version }
        requires version_within { version ≤ last_version }
        ensures { result ≡ record { number = number; version = version; content = content } }
    {
        Stored {
            number,
            version,
            content,
        }
    }

    pub fn number(&self) -> u32
        ensures value { result ≡ self.now.number }
        ensures from { 1 ≤ result }
        ensures to { result ≤ last_number }
    {
        self.number
    }

    /// How many writes of the resource were accepted.
    pub fn version(&self) -> u64
        ensures value { result ≡ self.now.version }
        ensures from { 1 ≤ result }
        ensures to { result ≤ last_version }
    {
        self.version
    }

    pub fn content(&self) -> &Content
        ensures { result.now ≡ self.now.content }
    {
        &self.content
    }

    pub fn id(&self, alloc: Global) -> Result<ResourceId, AllocError>
        ensures { IfOk result (λ id. id ≡ id_text self.now.number) }
    {
        ResourceId::of_number(alloc, self.number)
    }
}

impl Clone for Stored {
    ghost is_clone = { λ a b. b ≡ a };

    fn clone(&self) -> Result<Stored, AllocError> {
        Ok(Stored {
            number: self.number,
            version: self.version,
            content: self.content.clone()?,
        })
    }
}

/// A resource as an answer shows it: its id, its entity tag if it is known, and its content.
#[derive(Drop)]
pub struct Shown {
    id: ResourceId,
    version: Option<EntityTag>,
    content: Content,
}

impl Model for Shown {
    ghost use Rattle.scim_resource.specs.Rows.{ShownRecord, IsShown};

    ghost Value = { ShownRecord };

    ghost view = { λ s. record { id = s.id; version = s.version; content = s.content } };

    ghost invariant = { λ s. IsShown (record {
      id = s.id;
      version = s.version;
      content = s.content;
    }) };
}

/// The most bytes that the entity tag of a shown resource may have.
pub const TAG_LIMIT: usize = 256;

impl Shown {
    /// The shown resource with these parts.
    pub(crate) fn from_parts(id: ResourceId, version: Option<EntityTag>, content: Content) -> Shown
        requires id { IsId id }
        requires id_text { IsUtf8 id }
        requires tag { IfSome version IsEntityTag }
        requires short { IfSome version IsShort }
        requires text { IfSome version IsUtf8 }
        ensures { result ≡ record { id = id; version = version; content = content } }
    {
        Shown {
            id,
            version,
            content,
        }
    }

    /// A row as an answer shows it.
    pub fn of(alloc: Global, stored: &Stored) -> Result<Shown, AllocError>
        ensures { IfOk result (λ s. s ≡ shown stored.now) }
    {
        Ok(Shown {
            id: stored.id(alloc)?,
            version: Some(EntityTag::of_counter(alloc, stored.version())?),
            content: stored.content().clone()?,
        })
    }

    /// The row with this content as an answer shows it. The content is moved, not copied.
    pub fn with_content(
        alloc: Global,
        row: &RowVersion,
        content: Content,
    ) -> Result<Shown, AllocError>
        ensures { IfOk result (λ s. s ≡ shown (row_of row.now content)) }
    {
        Ok(Shown {
            id: ResourceId::of_number(alloc, row.number)?,
            version: Some(EntityTag::of_counter(alloc, row.version)?),
            content,
        })
    }

    /// The same resource under the entity tag of this version, whatever tag it had.
    pub fn under_version(self, alloc: Global, version: u64) -> Result<Shown, AllocError>
        requires { version ≤ last_version }
        ensures { IfOk result (λ s. s ≡ shown_under (version_tag version) self) }
    {
        let Shown { id, content, .. } = self;
        Ok(Shown {
            id,
            version: Some(EntityTag::of_counter(alloc, version)?),
            content,
        })
    }

    /// A resource of this content under this id, without an entity tag.
    pub fn without_tag(
        alloc: Global,
        id: &ResourceId,
        content: Content,
    ) -> Result<Shown, AllocError>
        ensures { IfOk result (λ s. s ≡ untagged id.now content) }
    {
        match ResourceId::read(alloc, id.as_str()) {
            Ok(id) => Ok(Shown {
                id,
                version: None,
                content,
            }),
            Err(_) => Err(AllocError),
        }
    }

    /// The same resource. If it has no entity tag, it gets the one that the field `ETag` of a response states (RFC 7232
    /// section 2.3). A tag that isn't UTF-8, or has more than 256 bytes, doesn't count.
    pub fn tagged(self, alloc: Global, etag: Option<&[u8]>) -> Result<Shown, AllocError>
        ensures { IfOk result
            (λ s. s ≡ completed (stated_tag (option_map (λ tag. tag.now) etag.entry)) self) }
    {
        let Shown {
            id,
            version,
            content,
        } = self;
        let version = match version {
            Some(tag) => Some(tag),
            None => stated_tag(alloc, etag)?,
        };
        Ok(Shown {
            id,
            version,
            content,
        })
    }

    pub fn id(&self) -> &ResourceId
        ensures { result.now ≡ self.now.id }
    {
        &self.id
    }

    /// The entity tag, if it is known.
    pub fn version(&self) -> Option<&EntityTag>
        ensures value { option_copied result ≡ self.now.version }
        ensures lawful { IsShown self.now }
    {
        self.version.as_ref()
    }

    pub fn content(&self) -> &Content
        ensures { result.now ≡ self.now.content }
    {
        &self.content
    }

    /// The content alone.
    pub fn into_content(self) -> Content
        ensures { result ≡ self.content }
    {
        let Shown { content, .. } = self;
        content
    }
}
