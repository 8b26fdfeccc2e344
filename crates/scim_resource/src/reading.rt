//! Reading a resource from JSON (RFC 7643 section 2).
ghost use Rattle.std.specs.Prelude.{◌≡◌, IfOk, IfSome, Some, map, option_map};
ghost use Rattle.std.specs.Result.{result_map_both};
ghost use Rattle.scim_key.specs.Names.{IsUserName};
ghost use Rattle.scim_key.specs.Outcome.{Gives, GivesBy};
ghost use Rattle.serde_json.specs.Data.{string};
ghost use Rattle.serde_json.specs.View.{view, items_view, members_view};
ghost use Rattle.scim_resource.specs.Emails.{AreEmails, IsEmail, IsEmailList};
ghost use Rattle.scim_resource.specs.Texts.{IsTextIf};
ghost use Rattle.scim_resource.specs.UserObjects.{IsUserObject, members_of};
ghost use Rattle.scim_resource.specs.UserTexts.{AreUserTexts, attribute_of};
ghost use Rattle.scim_resource.specs.Users.{IsSourceRevision};
ghost use Rattle.scim_resource.specs.Reading as spec;

use crate::contents::Content;
use crate::emails::{EMAIL_LIMIT, Email, Emails};
use crate::faults::ContentFault;
use crate::group_reading::read_group;
use crate::schemas::core_user;
use crate::texts::{OptionalText, is_short_text};
use crate::user_objects::UserObject;
use crate::user_texts::{Holder, TEXT_COUNT, USER_TEXTS, UserText};
use crate::users::User;
use scim_json::{
    ValueFault, attribute, flag_or, items_in, json_of, list_repeats, lists_text, members_in,
    repeats, value_repeats, whole_in,
};
use scim_key::{Kind, Revision, UserName};
use serde_json::{Map, Value};
use std::alloc::{AllocError, Global};

impl Content {
    /// Reads what a resource of this type contains. Unknown attributes, `id` and `meta` are ignored.
    #[tactic(auto, unfolding(crate::specs::Reading::read_content))]
    pub fn read(alloc: Global, value: &Value, kind: Kind) -> Result<Content, ContentFault>
        ensures { Gives ContentFault.Memory result (spec.read_content kind (view value.now)) }
    {
        match kind {
            Kind::User => Ok(Content::User(read_user(alloc, value)?)),
            Kind::Group => Ok(Content::Group(read_group(alloc, value)?)),
        }
    }

    /// Reads a body as the content of a resource of this type. Bytes that aren't JSON in UTF-8 are
    /// `InvalidSyntax`.
    pub fn from_slice(alloc: Global, bytes: &[u8], kind: Kind) -> Result<Content, ContentFault>
        ensures { Gives ContentFault.Memory result (spec.content_in kind bytes.now) }
    {
        Content::read(alloc, &json_of(alloc, bytes)?, kind)
    }
}

fn read_user(alloc: Global, value: &Value) -> Result<User, ContentFault>
    ensures { Gives ContentFault.Memory result (spec.read_user (view value.now)) }
{
    let Value::Object(members) = value else {
        return Err(ContentFault::InvalidSyntax);
    };
    let object = UserObject::of(members);
    if user_repeats(alloc, &object)? {
        return Err(ContentFault::InvalidSyntax);
    }
    user_fields(alloc, &object)
}

/// Whether one of the objects that reading looks into repeats a name.
#[tactic(auto, unfolding(crate::specs::Reading::user_repeats))]
fn user_repeats(alloc: Global, object: &UserObject) -> Result<bool, AllocError>
    requires { IsUserObject object.now }
    ensures { IfOk result (λ b. b ≡ spec.user_repeats (members_of object.now)) }
{
    Ok(
        repeats(alloc, object.members)?
            || value_repeats(alloc, object.source)?
            || parts_repeat(alloc, object)?,
    )
}

/// Whether an object with texts, or an email, repeats a name.
fn parts_repeat(alloc: Global, object: &UserObject) -> Result<bool, AllocError>
    requires { IsUserObject object.now }
    ensures { IfOk result (λ b. b ≡ spec.parts_repeat (members_of object.now)) }
{
    Ok(
        value_repeats(alloc, object.enterprise)?
            || value_repeats(alloc, object.name)?
            || list_repeats(alloc, object.emails)?,
    )
}

#[tactic(auto, unfolding(crate::specs::Reading::user_fields))]
fn user_fields(alloc: Global, object: &UserObject) -> Result<User, ContentFault>
    requires { IsUserObject object.now }
    ensures { Gives ContentFault.Memory result (spec.user_fields (members_of object.now)) }
{
    if !lists_schema(object.schemas, core_user()) {
        return Err(ContentFault::InvalidValue);
    }
    let user_name = user_name_in(alloc, object.user_name)?;
    let texts = texts_in(alloc, object)?;
    user_with(alloc, object, user_name, texts)
}

/// The user with this name, these texts, and what else its object has.
fn user_with(
    alloc: Global,
    object: &UserObject,
    user_name: UserName,
    texts: [OptionalText; TEXT_COUNT],
) -> Result<User, ContentFault>
    requires object { IsUserObject object.now }
    requires named { IsUserName user_name }
    requires lawful { AreUserTexts texts }
    ensures { Gives ContentFault.Memory result
        (spec.user_with user_name texts (members_of object.now)) }
{
    let emails = emails_in(alloc, object.emails)?;
    let active = flag_or(object.active, true)?;
    let revision = revision_in(object.source)?;
    Ok(
        User::new(alloc, user_name, active, revision)
            .with_texts(texts)
            .with_emails(emails),
    )
}

/// The members of the object that has a text, if the user has the object.
fn object_at<'v>(
    object: &UserObject<'v>,
    holder: Holder,
) -> Result<Option<&'v Map<String, Value>>, ValueFault>
    requires { IsUserObject object.now }
    ensures { result_map_both (option_map (λ m. members_view m.now.entries)) (λ e. e) result
        ≡ spec.object_at (attribute_of holder) (members_of object.now) }
{
    match holder {
        Holder::User => Ok(Some(object.members)),
        Holder::Name => members_in(object.name),
        Holder::Enterprise => members_in(object.enterprise),
    }
}

/// The value of a text of a user.
fn value_of<'v>(object: &UserObject<'v>, which: UserText) -> Result<Option<&'v Value>, ValueFault>
    requires { IsUserObject object.now }
    ensures { result_map_both (option_map (λ v. view v.now)) (λ e. e) result
        ≡ spec.value_of (members_of object.now) which }
{
    let (holder, name) = which.member();
    match object_at(object, holder)? {
        Some(members) => Ok(attribute(members, name)),
        None => Ok(None),
    }
}

/// The values of a user's texts, in the order of `USER_TEXTS`.
fn values_of<'v>(object: &UserObject<'v>) -> [Result<Option<&'v Value>, ValueFault>; TEXT_COUNT]
    requires { IsUserObject object.now }
    ensures { map (result_map_both (option_map (λ v. view v.now)) (λ e. e)) result
        ≡ map (spec.value_of (members_of object.now)) USER_TEXTS }
{
    USER_TEXTS.map(|which| value_of(object, which))
}

fn text_of(
    alloc: Global,
    value: Result<Option<&Value>, ValueFault>,
) -> Result<OptionalText, ContentFault>
    ensures given { Gives ContentFault.Memory result
        (spec.text_of (result_map_both (option_map (λ v. view v.now)) (λ e. e) value.entry)) }
    ensures lawful { IfOk result IsTextIf }
{
    text_in(alloc, value?)
}

/// The texts of a user, in the order of `USER_TEXTS`.
fn texts_in(alloc: Global, object: &UserObject) -> Result<[OptionalText; TEXT_COUNT], ContentFault>
    requires { IsUserObject object.now }
    ensures given { Gives ContentFault.Memory result (spec.user_texts_in (members_of object.now)) }
    ensures lawful { IfOk result AreUserTexts }
{
    values_of(object).try_map(|value| text_of(alloc, value))
}

/// A text of 1 to 256 bytes.
pub(crate) fn text_in(alloc: Global, value: Option<&Value>) -> Result<OptionalText, ContentFault>
    ensures given { Gives ContentFault.Memory result
        (spec.text_in (option_map (λ v. view v.now) value.entry)) }
    ensures lawful { IfOk result IsTextIf }
{
    match value {
        None => Ok(OptionalText::none(alloc)),
        Some(Value::String(text)) => short_text(alloc, text.as_str()),
        Some(_) => Err(ContentFault::InvalidValue),
    }
}

/// The text, if it is short.
#[tactic(auto, using(crate::proofs::Presence::text_is_within, crate::proofs::Presence::text_read))]
fn short_text(alloc: Global, text: &str) -> Result<OptionalText, ContentFault>
    ensures { Gives ContentFault.Memory result (spec.text_in (Some (string text.now))) }
{
    if is_short_text(text) {
        Ok(OptionalText::from_string(String::from_str(alloc, text)?))
    } else {
        Err(ContentFault::InvalidValue)
    }
}

/// The emails that have a value, in their order.
fn emails_in(alloc: Global, value: Option<&Value>) -> Result<Emails, ContentFault>
    ensures given { Gives ContentFault.Memory result
        (spec.emails_in (option_map (λ v. view v.now) value.entry)) }
    ensures lawful { IfOk result IsEmailList }
{
    let emails = emails_of(alloc, items_in(value)?)?;
    match Emails::from_vec(emails) {
        Some(emails) => Ok(emails),
        None => Err(ContentFault::InvalidValue),
    }
}

#[tactic(auto, unfolding(crate::specs::Reading::emails_of))]
fn emails_of(alloc: Global, items: &[Value]) -> Result<Vec<Email>, ContentFault>
    ensures given { GivesBy (λ emails. emails.items) ContentFault.Memory result
        (spec.emails_of (items_view items.now)) }
    ensures lawful { IfOk result (λ emails. AreEmails emails.items) }
{
    let mut emails = Vec::with_capacity(alloc, items.len().min(EMAIL_LIMIT))?;
    for item in items {
        if let Some(email) = email_in(alloc, item)? {
            emails.push(email)?;
        }
    }
    Ok(emails)
}

fn email_in(alloc: Global, item: &Value) -> Result<Option<Email>, ContentFault>
    ensures given { Gives ContentFault.Memory result (spec.email_in (view item.now)) }
    ensures lawful { IfOk result (λ email. IfSome email IsEmail) }
{
    match item {
        Value::Null => Ok(None),
        Value::Object(members) => email_of(alloc, members),
        _ => Err(ContentFault::InvalidValue),
    }
}

/// An email, or none if it has no value.
#[tactic(auto, unfolding(crate::specs::Reading::email_of))]
fn email_of(alloc: Global, members: &Map<String, Value>) -> Result<Option<Email>, ContentFault>
    ensures given { Gives ContentFault.Memory result
        (spec.email_of (members_view members.now.entries)) }
    ensures lawful { IfOk result (λ email. IfSome email IsEmail) }
{
    let Some(value) = text_in(alloc, attribute(members, "value"))?.into_text() else {
        return Ok(None);
    };
    let type_text = text_in(alloc, attribute(members, "type"))?;
    let primary = flag_or(attribute(members, "primary"), false)?;
    Ok(Some(Email {
        value,
        type_text,
        primary,
    }))
}

/// Whether the value is a list of texts that contains this URN, in any case.
pub(crate) fn lists_schema(value: Option<&Value>, urn: &str) -> bool
    ensures { result ≡ spec.lists_schema urn.now (option_map (λ v. view v.now) value.entry) }
{
    match value {
        Some(Value::Array(items)) => { all_texts(items.as_slice()) && lists_text(value, urn) }
        _ => false,
    }
}

fn all_texts(items: &[Value]) -> bool
    ensures { result ≡ spec.all_texts (items_view items.now) }
{
    items.iter().all(|item| is_text_or_null(item))
}

fn is_text_or_null(value: &Value) -> bool
    ensures { result ≡ spec.is_text_or_null (view value.now) }
{
    matches!(value, Value::Null | Value::String(_))
}

fn user_name_in(alloc: Global, value: Option<&Value>) -> Result<UserName, ContentFault>
    ensures given { Gives ContentFault.Memory result
        (spec.user_name_in (option_map (λ v. view v.now) value.entry)) }
    ensures lawful { IfOk result IsUserName }
{
    match value {
        Some(Value::String(text)) => Ok(UserName::read(alloc, text.as_str())?),
        _ => Err(ContentFault::InvalidValue),
    }
}

/// The revision in the source extension, if there is one.
pub(crate) fn revision_in(extension: Option<&Value>) -> Result<Option<Revision>, ContentFault>
    ensures given { result
        ≡ spec.revision_in (option_map (λ v. view v.now) extension.entry) }
    ensures lawful { IfOk result IsSourceRevision }
{
    match members_in(extension)? {
        Some(members) => source_revision(members),
        None => Ok(None),
    }
}

/// The revision with the number and the epoch of the source extension. Without a number the epoch isn't checked.
fn source_revision(members: &Map<String, Value>) -> Result<Option<Revision>, ContentFault>
    ensures given { result
        ≡ spec.source_revision (Some (members_view members.now.entries)) }
    ensures lawful { IfOk result IsSourceRevision }
{
    match whole_in(attribute(members, "revision"))? {
        Some(number) => revision_with(number, whole_in(attribute(members, "epoch"))?),
        None => Ok(None),
    }
}

/// The revision with this number and this epoch, which is 0 if it is absent.
fn revision_with(number: u64, epoch: Option<u64>) -> Result<Option<Revision>, ContentFault>
    ensures given { result ≡ spec.revision_with number epoch }
    ensures lawful { IfOk result IsSourceRevision }
{
    match Revision::of_parts(epoch.unwrap_or(0), number) {
        Some(revision) => Ok(Some(revision)),
        None => Err(ContentFault::InvalidValue),
    }
}
