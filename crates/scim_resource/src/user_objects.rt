//! A user's object in JSON, with the attributes that were found in it.
ghost use Rattle.std.specs.Prelude.{◌≡◌};
ghost use Rattle.serde_json.specs.View.{members_view};
ghost use Rattle.scim_resource.specs.UserObjects.{IsUserObject, members_of};

use crate::schemas::{enterprise_extension, source_extension};
use scim_json::attribute;
use serde_json::{Map, Value};

/// The members of a user, and the values of attributes among them.
#[derive(Clone, Copy)]
pub(crate) struct UserObject<'v> {
    pub(crate) members: &'v Map<String, Value>,
    pub(crate) schemas: Option<&'v Value>,
    pub(crate) user_name: Option<&'v Value>,
    pub(crate) name: Option<&'v Value>,
    pub(crate) emails: Option<&'v Value>,
    pub(crate) active: Option<&'v Value>,
    pub(crate) source: Option<&'v Value>,
    pub(crate) enterprise: Option<&'v Value>,
}

impl<'v> UserObject<'v> {
    /// Looks up each attribute once.
    pub(crate) fn of(members: &'v Map<String, Value>) -> UserObject<'v>
        ensures members { members_of result ≡ members_view members.now.entries }
        ensures found { IsUserObject result }
    {
        UserObject {
            members,
            schemas: attribute(members, "schemas"),
            user_name: attribute(members, "userName"),
            name: attribute(members, "name"),
            emails: attribute(members, "emails"),
            active: attribute(members, "active"),
            source: attribute(members, source_extension()),
            enterprise: attribute(members, enterprise_extension()),
        }
    }
}
