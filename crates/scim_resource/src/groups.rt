//! Groups (RFC 7643 section 4.2).
ghost use Rattle.std.specs.Prelude.{◌≡◌, [], None, true};
ghost use Rattle.std.specs.Option.{SomeIff, option_copied};
ghost use Rattle.scim_key.specs.Names.{IsGroupName};
ghost use Rattle.scim_resource.specs.Groups.{AreTexts, GroupRecord, IsGroup, IsMemberList, are_distinct, are_few_members, is_among};
ghost use Rattle.scim_resource.specs.Texts.{IsTextIf};
ghost use Rattle.scim_resource.specs.Users.{IsSourceRevision};

use crate::texts::{OptionalText, Text};
use scim_key::{GroupName, Revision};
use std::alloc::{AllocError, Global};
use std::marker::Model;

/// The most members that a group may have.
pub const MEMBER_LIMIT: usize = 400;

/// The values of a group's members: at most 400 texts, none of them twice.
#[derive(Drop)]
pub struct Members {
    items: Vec<Text>,
}

impl Model for Members {
    ghost use Rattle.std.specs.Prelude.{List, ℕ};
    ghost use Rattle.scim_resource.specs.Groups.{IsMemberList};

    ghost Value = { List (List ℕ) };

    ghost view = { λ l. l.items.items };

    ghost invariant = { λ l. IsMemberList l.items.items };
}

impl Members {
    pub fn new(alloc: Global) -> Members
        ensures { result ≡ [] }
    {
        Members {
            items: Vec::new(alloc),
        }
    }

    /// The list, if it has at most 400 values and none of them twice.
    pub fn from_vec(items: Vec<Text>) -> Option<Members>
        requires { AreTexts items.items }
        ensures { SomeIff result ((are_distinct items.items ≡ true)
            × (are_few_members items.items ≡ true)) items.items }
    {
        if items.len() <= MEMBER_LIMIT && are_distinct(items.as_slice()) {
            Some(Members { items })
        } else {
            None
        }
    }

    pub fn as_slice(&self) -> &[Text]
        ensures value { result.now ≡ self.now }
        ensures lawful { IsMemberList self.now }
    {
        self.items.as_slice()
    }
}

impl Clone for Members {
    ghost is_clone = { λ a b. b ≡ a };

    fn clone(&self) -> Result<Members, AllocError> {
        Ok(Members {
            items: self.items.clone()?,
        })
    }
}

#[tactic(auto, unfolding(crate::specs::Groups::are_distinct))]
fn are_distinct(values: &[Text]) -> bool
    ensures { result ≡ are_distinct values.now }
{
    for i in 0..values.len() {
        if is_among(&values[i], &values[i + 1..]) {
            return false;
        }
    }
    true
}

/// Whether the value is among the others, byte for byte.
pub(crate) fn is_among(value: &Text, others: &[Text]) -> bool
    ensures { result ≡ is_among value.now others.now }
{
    others.iter().any(|other| other.as_str() == value.as_str())
}

/// What a group contains.
pub struct Group {
    display_name: GroupName,
    external_id: OptionalText,
    members: Members,
    revision: Option<Revision>,
}

impl Model for Group {
    ghost use Rattle.scim_resource.specs.Groups.{GroupRecord, IsGroup};

    ghost Value = { GroupRecord };

    ghost view = { λ g. record {
      display_name = g.display_name;
      external_id = g.external_id;
      members = g.members;
      revision = g.revision;
    } };

    ghost invariant = { λ g. IsGroup (record {
      display_name = g.display_name;
      external_id = g.external_id;
      members = g.members;
      revision = g.revision;
    }) };
}

/// Dropping a group is one call, as for a user.
impl Drop for Group {
    fn drop(self) {
        let Group {
            display_name: _,
            external_id: _,
            members: _,
            revision: _,
        } = self;
    }
}

impl Group {
    /// A group without an id at the source. Its name is valid because every `GroupName` is.
    pub fn new(
        alloc: Global,
        display_name: GroupName,
        members: Members,
        revision: Option<Revision>,
    ) -> Group
        requires named { IsGroupName display_name }
        requires listed { IsMemberList members }
        requires given { IsSourceRevision revision }
        ensures { result ≡ record {
          display_name = display_name;
          external_id = None;
          members = members;
          revision = revision;
        } }
    {
        Group {
            display_name,
            external_id: OptionalText::none(alloc),
            members,
            revision,
        }
    }

    /// The group with this id at the source, or with none.
    pub fn with_external_id(mut self, external_id: OptionalText) -> Group
        requires { IsTextIf external_id }
        ensures { result ≡ record self { external_id = external_id } }
    {
        self.external_id = external_id;
        self
    }

    /// The group as the image of this source revision, or of none.
    pub fn with_revision(mut self, revision: Option<Revision>) -> Group
        requires { IsSourceRevision revision }
        ensures { result ≡ record self { revision = revision } }
    {
        self.revision = revision;
        self
    }

    /// The name as it was spelled.
    pub fn display_name(&self) -> &GroupName
        ensures { result.now ≡ self.now.display_name }
    {
        &self.display_name
    }

    /// The group's id at the source.
    pub fn external_id(&self) -> Option<&str>
        ensures { option_copied result ≡ self.now.external_id }
    {
        self.external_id.as_option()
    }

    /// The values of its members, in their order.
    pub fn members(&self) -> &[Text]
        ensures { result.now ≡ self.now.members }
    {
        self.members.as_slice()
    }

    /// The source revision that this group is the image of, if it has one.
    pub fn revision(&self) -> Option<Revision>
        ensures value { result ≡ self.now.revision }
        ensures lawful { IsGroup self.now }
    {
        self.revision
    }
}

impl Clone for Group {
    ghost is_clone = { λ a b. b ≡ a };

    fn clone(&self) -> Result<Group, AllocError> {
        Ok(Group {
            display_name: self.display_name.clone()?,
            external_id: self.external_id.clone()?,
            members: self.members.clone()?,
            revision: self.revision,
        })
    }
}
