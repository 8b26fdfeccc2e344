//! What a filter means for a row. It allocates nothing: an id and a version are written into buffers of
//! fixed size.
ghost use Rattle.std.specs.Prelude.{◌≡◌, ◌≤◌, [], ◌∷◌, map};
ghost use Rattle.std.specs.List.{list_any};
ghost use Rattle.std.specs.Option.{option_to_list, option_copied};
ghost use Rattle.scim_key.specs.Identifiers.{id_text, last_number};
ghost use Rattle.scim_version.specs.Tags.{version_tag};
ghost use Rattle.scim_filter.specs.Comparing.{compares, folded};
ghost use Rattle.scim_filter.specs.Expressions.{expression_of};
ghost use Rattle.scim_filter.specs.Matching as spec;

use crate::comparing::compares;
use crate::filters::Node;
use crate::terms::{Attribute, FlagAttribute, FlagOperator, Test, TextAttribute, TextOperator};
use arrayvec::ArrayString;
use itoa::Buffer;
use scim_key::{NUMBERED_ID_LENGTH, ResourceId};
use scim_resource::{Content, Email, Group, Stored, Text, User, UserText};

/// A text that is compared with all values of an attribute.
#[derive(Clone, Copy)]
struct Question<'a> {
    exact: bool,
    operator: TextOperator,
    given: &'a str,
}

impl Question<'_> {
    /// Whether the comparison holds for a text.
    fn compares(&self, text: &str) -> bool
        ensures { result
            ≡ compares self.now.operator (folded self.now.exact text.now)
            (folded self.now.exact self.now.given.now) }
    {
        compares(self.exact, self.operator, text, self.given)
    }

    #[tactic(auto, unfolding(crate::specs::Matching::some_compares))]
    fn of_one(&self, text: &str) -> bool
        ensures { result
            ≡ spec.some_compares self.now.exact self.now.operator self.now.given.now
            (text.now ∷ []) }
    {
        self.compares(text)
    }

    #[tactic(auto, unfolding(crate::specs::Matching::some_compares))]
    fn of_none(&self) -> bool
        ensures { result
            ≡ spec.some_compares self.now.exact self.now.operator self.now.given.now [] }
    {
        false
    }

    fn of_option(&self, text: Option<&str>) -> bool
        ensures { result ≡ spec.some_compares self.now.exact self.now.operator self.now.given.now
            (option_to_list (option_copied text.entry)) }
    {
        match text {
            Some(text) => self.of_one(text),
            None => self.of_none(),
        }
    }

    #[tactic(auto, unfolding(crate::specs::Matching::some_compares))]
    fn of_texts(&self, texts: &[Text]) -> bool
        ensures { result
            ≡ spec.some_compares self.now.exact self.now.operator self.now.given.now texts.now }
    {
        texts.iter().any(|text| self.compares(text.as_str()))
    }

    fn of_emails(&self, emails: &[Email]) -> bool
        ensures { result
            ≡ list_any
            (λ e. compares self.now.operator (folded self.now.exact e.value)
            (folded self.now.exact self.now.given.now)) emails.now }
    {
        emails
            .iter()
            .any(|email| self.compares(email.value.as_str()))
    }

    fn of_email_types(&self, emails: &[Email]) -> bool
        ensures { result
            ≡ list_any
            (λ e. spec.some_compares self.now.exact self.now.operator self.now.given.now
            (option_to_list e.type_text)) emails.now }
    {
        emails
            .iter()
            .any(|email| self.of_option(email.type_text.as_option()))
    }
}

/// Whether the comparison holds for the id of the n-th resource.
fn asks_id(question: &Question, number: u32) -> bool
    requires { number ≤ last_number }
    ensures { result
        ≡ spec.some_compares question.now.exact question.now.operator question.now.given.now
        (id_text number ∷ []) }
{
    let mut buffer = [0; NUMBERED_ID_LENGTH];
    question.of_one(ResourceId::spell(number, &mut buffer))
}

/// Whether the comparison holds for the entity tag of a version.
fn asks_version(question: &Question, version: u64) -> bool
    ensures { result
        ≡ spec.some_compares question.now.exact question.now.operator question.now.given.now
        (version_tag version ∷ []) }
{
    let mut digits = Buffer::new();
    let mut tag = ArrayString::<42>::new();
    tag.push_str("\"");
    tag.push_str(digits.format(version));
    tag.push_str("\"");
    question.of_one(tag.as_str())
}

fn asks_user(question: &Question, attribute: TextAttribute, user: &User) -> bool
    ensures { result
        ≡ spec.some_compares question.now.exact question.now.operator question.now.given.now
        (spec.user_texts attribute user.now) }
{
    match attribute {
        TextAttribute::UserName => question.of_one(user.user_name().as_str()),
        TextAttribute::GivenName => question.of_option(user.text(UserText::GivenName)),
        TextAttribute::FamilyName => question.of_option(user.text(UserText::FamilyName)),
        TextAttribute::EmailValue => question.of_emails(user.emails()),
        TextAttribute::EmailType => question.of_email_types(user.emails()),
        TextAttribute::ExternalId => question.of_option(user.text(UserText::ExternalId)),
        _ => question.of_none(),
    }
}

fn asks_group(question: &Question, attribute: TextAttribute, group: &Group) -> bool
    ensures { result
        ≡ spec.some_compares question.now.exact question.now.operator question.now.given.now
        (spec.group_texts attribute group.now) }
{
    match attribute {
        TextAttribute::DisplayName => question.of_one(group.display_name().as_str()),
        TextAttribute::Member => question.of_texts(group.members()),
        TextAttribute::ExternalId => question.of_option(group.external_id()),
        _ => question.of_none(),
    }
}

fn asks_content(question: &Question, attribute: TextAttribute, content: &Content) -> bool
    ensures { result
        ≡ spec.some_compares question.now.exact question.now.operator question.now.given.now
        (spec.content_texts attribute content.now) }
{
    match content {
        Content::User(user) => asks_user(question, attribute, user),
        Content::Group(group) => asks_group(question, attribute, group),
    }
}

/// Whether the comparison holds for some value of the attribute.
fn asks_row(question: &Question, attribute: TextAttribute, row: &Stored) -> bool
    ensures { result
        ≡ spec.some_compares question.now.exact question.now.operator question.now.given.now
        (spec.texts_of attribute row.now) }
{
    match attribute {
        TextAttribute::Id => asks_id(question, row.number()),
        TextAttribute::Version => asks_version(question, row.version()),
        _ => asks_content(question, attribute, row.content()),
    }
}

fn is_exact(attribute: TextAttribute) -> bool
    ensures { result ≡ spec.is_exact attribute }
{
    match attribute {
        TextAttribute::Id | TextAttribute::ExternalId | TextAttribute::Version => true,
        _ => false,
    }
}

fn some_compares(
    attribute: TextAttribute,
    operator: TextOperator,
    given: &str,
    row: &Stored,
) -> bool
    ensures { result
        ≡ spec.some_compares (spec.is_exact attribute) operator given.now
        (spec.texts_of attribute row.now) }
{
    let question = Question {
        exact: is_exact(attribute),
        operator,
        given,
    };
    asks_row(&question, attribute, row)
}

fn text_holds(attribute: TextAttribute, operator: TextOperator, given: &str, row: &Stored) -> bool
    ensures { result
        ≡ spec.text_holds operator (spec.is_exact attribute) given.now
        (spec.texts_of attribute row.now) }
{
    match operator {
        TextOperator::NotEqual => !some_compares(attribute, TextOperator::Equal, given, row),
        _ => some_compares(attribute, operator, given, row),
    }
}

#[tactic(auto, unfolding(crate::specs::Matching::some_is))]
fn is_flag(value: bool, flag: bool) -> bool
    ensures { result ≡ spec.some_is value (flag ∷ []) }
{
    value == flag
}

#[tactic(auto, unfolding(crate::specs::Matching::some_is))]
fn is_some_primary(value: bool, emails: &[Email]) -> bool
    ensures { result ≡ spec.some_is value (map (λ e. e.primary) emails.now) }
{
    emails
        .iter()
        .map(|email| email.primary)
        .any(|primary| value == primary)
}

#[tactic(auto, unfolding(crate::specs::Matching::some_is))]
fn some_is(attribute: FlagAttribute, value: bool, content: &Content) -> bool
    ensures { result ≡ spec.some_is value (spec.content_flags attribute content.now) }
{
    match (attribute, content) {
        (FlagAttribute::Active, Content::User(user)) => is_flag(value, user.is_active()),
        (FlagAttribute::EmailPrimary, Content::User(user)) => is_some_primary(value, user.emails()),
        _ => false,
    }
}

fn flag_holds(attribute: FlagAttribute, operator: FlagOperator, value: bool, row: &Stored) -> bool
    ensures { result
        ≡ spec.flag_holds operator value (spec.content_flags attribute row.now.content) }
{
    let is = some_is(attribute, value, row.content());
    match operator {
        FlagOperator::Is => is,
        FlagOperator::IsNot => !is,
    }
}

/// Whether the attribute has a value: a text begins with the empty text, and a boolean is true or false.
fn is_present(attribute: Attribute, row: &Stored) -> bool
    ensures { result ≡ spec.is_present attribute row.now }
{
    match attribute {
        Attribute::OfText(attribute) => some_compares(attribute, TextOperator::StartsWith, "", row),
        Attribute::OfFlag(attribute) => {
            some_is(attribute, true, row.content()) || some_is(attribute, false, row.content())
        }
    }
}

fn test_holds(test: &Test, row: &Stored) -> bool
    ensures { result ≡ spec.test_holds test.now row.now }
{
    match test {
        Test::Present(attribute) => is_present(*attribute, row),
        Test::Text(attribute, operator, given) => {
            text_holds(*attribute, *operator, given.as_str(), row)
        }
        Test::Flag(attribute, operator, value) => flag_holds(*attribute, *operator, *value, row),
    }
}

/// Whether the row satisfies the filter of this tree.
pub(crate) fn satisfies(node: &Node, row: &Stored) -> bool
    ensures { result ≡ spec.satisfies (expression_of node.now) row.now }
{
    match node {
        Node::Test(test) => test_holds(test, row),
        Node::And(left, right) => satisfies(left, row) && satisfies(right, row),
        Node::Or(left, right) => satisfies(left, row) || satisfies(right, row),
        Node::Not(inner) => !satisfies(inner, row),
    }
}
