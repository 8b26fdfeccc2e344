//! The content of a resource.
ghost use Rattle.std.specs.Prelude.{◌≡◌, ◌↔◌, IfOk, IsTrue};
ghost use Rattle.scim_resource.specs.Contents.{content_active, content_kind, content_members, content_name, content_revision, content_with, spelled_name};
ghost use Rattle.scim_resource.specs.Users.{IsSourceRevision};

use crate::groups::Group;
use crate::texts::Text;
use crate::users::User;
use scim_key::{Kind, RecordName, Revision};
use std::alloc::{AllocError, Global};

/// What a resource contains, except for its id and `meta`.
#[derive(Drop)]
pub enum Content {
    User(User),
    Group(Group),
}

impl Content {
    /// The type of resource.
    pub fn kind(&self) -> Kind
        ensures { result ≡ content_kind self.now }
    {
        match self {
            Content::User(_) => Kind::User,
            Content::Group(_) => Kind::Group,
        }
    }

    /// The name as it is spelled: a user's `userName`, a group's `displayName`.
    pub fn spelled_name(&self) -> &str
        ensures { result.now ≡ spelled_name self.now }
    {
        match self {
            Content::User(user) => user.user_name().as_str(),
            Content::Group(group) => group.display_name().as_str(),
        }
    }

    /// The source revision that this content is the image of, if it has one.
    pub fn revision(&self) -> Option<Revision>
        ensures value { result ≡ content_revision self.now }
        ensures lawful { IsSourceRevision result }
    {
        match self {
            Content::User(user) => user.revision(),
            Content::Group(group) => group.revision(),
        }
    }

    /// The content as the image of this source revision, or of none.
    pub fn with_revision(self, revision: Option<Revision>) -> Content
        requires { IsSourceRevision revision }
        ensures { result ≡ content_with revision self }
    {
        match self {
            Content::User(user) => Content::User(user.with_revision(revision)),
            Content::Group(group) => Content::Group(group.with_revision(revision)),
        }
    }

    /// Whether the user's account is active; `None` for a group.
    pub fn active(&self) -> Option<bool>
        ensures { result ≡ content_active self.now }
    {
        match self {
            Content::User(user) => Some(user.is_active()),
            Content::Group(_) => None,
        }
    }

    /// The values of a group's members, in order; empty for a user.
    pub fn members(&self) -> &[Text]
        ensures { result.now ≡ content_members self.now }
    {
        match self {
            Content::User(_) => &[],
            Content::Group(group) => group.members(),
        }
    }

    /// The name of the record that has this content.
    pub fn name(&self, alloc: Global) -> Result<RecordName, AllocError>
        ensures { IfOk result (λ name. name ≡ content_name self.now) }
    {
        match self {
            Content::User(user) => Ok(RecordName {
                kind: Kind::User,
                key: user.user_name().key(alloc)?,
            }),
            Content::Group(group) => Ok(RecordName {
                kind: Kind::Group,
                key: group.display_name().key(alloc)?,
            }),
        }
    }

    /// Whether both are contents of the same record. It allocates nothing.
    pub fn has_name_of(&self, other: &Content) -> bool
        ensures { IsTrue result ↔ (content_name self.now ≡ content_name other.now) }
    {
        match (self, other) {
            (Content::User(one), Content::User(two)) => one.user_name().same_key(two.user_name()),
            (Content::Group(one), Content::Group(two)) => {
                one.display_name().same_key(two.display_name())
            }
            _ => false,
        }
    }
}

impl Clone for Content {
    ghost is_clone = { λ a b. b ≡ a };

    fn clone(&self) -> Result<Content, AllocError> {
        match self {
            Content::User(user) => Ok(Content::User(user.clone()?)),
            Content::Group(group) => Ok(Content::Group(group.clone()?)),
        }
    }
}
