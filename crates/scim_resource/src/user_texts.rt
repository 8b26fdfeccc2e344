//! The texts that a user may have: which there are, and where each is in JSON.
ghost use Rattle.std.specs.Prelude.{◌≡◌, ◌<◌};
ghost use Rattle.scim_resource.specs.UserTexts.{holder_of, name_of, place_of};

/// A text of a user.
#[derive(Clone, Copy)]
pub enum UserText {
    Department,
    ExternalId,
    FamilyName,
    GivenName,
}

/// The object in a user's JSON that has a text as a member.
#[derive(Clone, Copy)]
pub(crate) enum Holder {
    User,
    Name,
    Enterprise,
}

/// How many texts a user may have.
pub const TEXT_COUNT: usize = 4;

/// The texts in their order in a `User`.
pub const USER_TEXTS: [UserText; TEXT_COUNT] = [
    UserText::Department,
    UserText::ExternalId,
    UserText::FamilyName,
    UserText::GivenName,
];

/// The texts among the members of a user, in byte order of their names.
pub(crate) const TOP_TEXTS: [UserText; 1] = [UserText::ExternalId];

/// The texts among the members of a user's name, in byte order.
pub(crate) const NAME_TEXTS: [UserText; 2] = [UserText::FamilyName, UserText::GivenName];

/// The texts among the members of a user's enterprise extension, in byte order.
pub(crate) const ENTERPRISE_TEXTS: [UserText; 1] = [UserText::Department];

impl UserText {
    /// The place among the texts of a user.
    pub(crate) fn place(self) -> usize
        ensures value { result ≡ place_of self }
        ensures within { result < TEXT_COUNT }
    {
        self as usize
    }

    /// The object that has the text as a member, and the name of the member.
    pub(crate) fn member(self) -> (Holder, &'static str)
        ensures holder { result.0 ≡ holder_of self }
        ensures name { result.1.now ≡ name_of self }
    {
        match self {
            UserText::Department => (Holder::Enterprise, "department"),
            UserText::ExternalId => (Holder::User, "externalId"),
            UserText::FamilyName => (Holder::Name, "familyName"),
            UserText::GivenName => (Holder::Name, "givenName"),
        }
    }
}
