//! In which aspects the content of a resource differs from what is wanted of it.
ghost use Rattle.std.specs.Prelude.{◌≡◌};
ghost use Rattle.std.specs.List.{list_all, zip};
ghost use Rattle.std.specs.Option.{option_copied};
ghost use Rattle.comparing.specs.Aspects.{absent_from, agree, content_emails, content_text, is_active, is_in, is_same, missing, same_email, same_emails, same_revision_if, same_spelling, same_text, surplus};

use scim_key::Revision;
use scim_resource::{Content, Email, Text, UserText};

/// What of a content may differ from what is wanted of it.
#[derive(Clone, Copy)]
pub enum Aspect {
    Active,
    /// A user's `userName`, a group's `displayName`.
    Name,
    Text(UserText),
    Emails,
    Members,
    /// The source revision.
    Revision,
}

/// The aspects, in the order of printing.
pub const ASPECTS: [Aspect; 9] = [
    Aspect::Active,
    Aspect::Name,
    Aspect::Text(UserText::GivenName),
    Aspect::Text(UserText::FamilyName),
    Aspect::Text(UserText::ExternalId),
    Aspect::Text(UserText::Department),
    Aspect::Emails,
    Aspect::Members,
    Aspect::Revision,
];

/// Whether what is wanted and what was found agree in this aspect.
pub fn agree(wanted: &Content, found: &Content, aspect: Aspect) -> bool
    ensures { result ≡ agree wanted.now found.now aspect }
{
    match aspect {
        Aspect::Active => is_active(wanted) == is_active(found),
        Aspect::Name => same_spelling(wanted, found),
        Aspect::Text(which) => same_text(content_text(wanted, which), content_text(found, which)),
        Aspect::Emails => same_emails(content_emails(wanted), content_emails(found)),
        Aspect::Members => missing(wanted, found) == 0 && surplus(wanted, found) == 0,
        Aspect::Revision => same_revision(wanted.revision(), found.revision()),
    }
}

/// Whether they agree in every aspect.
pub fn is_as_wanted(wanted: &Content, found: &Content) -> bool
    ensures { result ≡ is_same wanted.now found.now }
{
    ASPECTS.iter().all(|aspect| agree(wanted, found, *aspect))
}

/// How many wanted members the resource doesn't have.
pub fn missing(wanted: &Content, found: &Content) -> usize
    ensures { result ≡ missing wanted.now found.now }
{
    absent_from(wanted.members(), found.members())
}

/// How many members it has that aren't wanted.
pub fn surplus(wanted: &Content, found: &Content) -> usize
    ensures { result ≡ surplus wanted.now found.now }
{
    absent_from(found.members(), wanted.members())
}

/// Whether a user's account is active.
pub fn is_active(content: &Content) -> bool
    ensures { result ≡ is_active content.now }
{
    match content {
        Content::User(user) => user.is_active(),
        Content::Group(_) => false,
    }
}

/// This text of a user; of a group, its id at the source.
pub fn content_text(content: &Content, which: UserText) -> Option<&str>
    ensures { option_copied result ≡ content_text which content.now }
{
    match (content, which) {
        (Content::User(user), _) => user.text(which),
        (Content::Group(group), UserText::ExternalId) => group.external_id(),
        (Content::Group(_), _) => None,
    }
}

/// A user's email addresses; none for a group.
pub fn content_emails(content: &Content) -> &[Email]
    ensures { result.now ≡ content_emails content.now }
{
    match content {
        Content::User(user) => user.emails(),
        Content::Group(_) => &[],
    }
}

/// Whether both have the same kind, and the same name byte for byte.
fn same_spelling(one: &Content, other: &Content) -> bool
    ensures { result ≡ same_spelling one.now other.now }
{
    match (one, other) {
        (Content::User(_), Content::User(_)) | (Content::Group(_), Content::Group(_)) => {
            one.spelled_name() == other.spelled_name()
        }
        _ => false,
    }
}

fn same_text(one: Option<&str>, other: Option<&str>) -> bool
    ensures { result ≡ same_text (option_copied one.entry) (option_copied other.entry) }
{
    match (one, other) {
        (None, None) => true,
        (Some(one), Some(other)) => one == other,
        _ => false,
    }
}

fn same_revision(one: Option<Revision>, other: Option<Revision>) -> bool
    ensures { result ≡ same_revision_if one other }
{
    match (one, other) {
        (None, None) => true,
        (Some(one), Some(other)) => one == other,
        _ => false,
    }
}

fn same_email(one: &Email, other: &Email) -> bool
    ensures { result ≡ same_email one.now other.now }
{
    one.value.as_str() == other.value.as_str()
        && same_text(one.type_text.as_option(), other.type_text.as_option())
        && one.primary == other.primary
}

fn same_emails(some: &[Email], others: &[Email]) -> bool
    ensures { result ≡ same_emails some.now others.now }
{
    some.len() == others.len() && are_same(some, others)
}

fn are_same(some: &[Email], others: &[Email]) -> bool
    ensures { result ≡ list_all (λ p. same_email p.0 p.1) (zip some.now others.now) }
{
    some.iter()
        .zip(others.iter())
        .all(|(one, other)| same_email(one, other))
}

/// How many of the first aren't in the second.
fn absent_from(members: &[Text], others: &[Text]) -> usize
    ensures { result ≡ absent_from members.now others.now }
{
    members.iter().filter(|id| !is_in(others, id)).count()
}

fn is_in(members: &[Text], id: &Text) -> bool
    ensures { result ≡ is_in members.now id.now }
{
    members.iter().any(|other| other.as_str() == id.as_str())
}
