//! The words for what of a content may differ.
ghost use Rattle.std.specs.Prelude.{◌≡◌};
ghost use Rattle.provisioning.specs.Lines.{name_label, text_label};

use comparing::Aspect;
use scim_key::Kind;
use scim_resource::UserText;

/// The word for an aspect of a user or a group.
pub(crate) fn aspect_label(kind: Kind, aspect: Aspect) -> &'static str {
    match aspect {
        Aspect::Active => "active",
        Aspect::Name => name_label(kind),
        Aspect::Text(which) => text_label(which),
        Aspect::Emails => "emails",
        Aspect::Members => "members",
        Aspect::Revision => "revision",
    }
}

/// The word for the name of a user or a group.
pub fn name_label(kind: Kind) -> &'static str
    ensures { result.now ≡ name_label kind }
{
    match kind {
        Kind::User => "userName",
        Kind::Group => "displayName",
    }
}

/// The word for a text of a user.
pub fn text_label(which: UserText) -> &'static str
    ensures { result.now ≡ text_label which }
{
    match which {
        UserText::Department => "department",
        UserText::ExternalId => "externalId",
        UserText::FamilyName => "familyName",
        UserText::GivenName => "givenName",
    }
}
