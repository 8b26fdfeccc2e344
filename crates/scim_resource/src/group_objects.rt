//! A group's object in JSON, with the attributes that were found in it.
ghost use Rattle.std.specs.Prelude.{◌≡◌};
ghost use Rattle.serde_json.specs.View.{members_view};
ghost use Rattle.scim_resource.specs.GroupObjects.{IsGroupObject, members_of};

use crate::schemas::source_extension;
use scim_json::attribute;
use serde_json::{Map, Value};

/// The members of a group's JSON, and the values of attributes among them.
#[derive(Clone, Copy)]
pub(crate) struct GroupObject<'v> {
    pub(crate) members: &'v Map<String, Value>,
    pub(crate) schemas: Option<&'v Value>,
    pub(crate) display_name: Option<&'v Value>,
    pub(crate) external_id: Option<&'v Value>,
    pub(crate) group_members: Option<&'v Value>,
    pub(crate) source: Option<&'v Value>,
}

impl<'v> GroupObject<'v> {
    /// Looks up each attribute once.
    pub(crate) fn of(members: &'v Map<String, Value>) -> GroupObject<'v>
        ensures members { members_of result ≡ members_view members.now.entries }
        ensures found { IsGroupObject result }
    {
        GroupObject {
            members,
            schemas: attribute(members, "schemas"),
            display_name: attribute(members, "displayName"),
            external_id: attribute(members, "externalId"),
            group_members: attribute(members, "members"),
            source: attribute(members, source_extension()),
        }
    }
}
