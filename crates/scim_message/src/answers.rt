//! Reads answers (RFC 7644 section 3).
ghost use Rattle.std.specs.Prelude.{◌≡◌, [], Ok, IfOk, option_map};
ghost use Rattle.scim_key.specs.Outcome.{Gives, GivesBy};
ghost use Rattle.serde_json.specs.View.{view, items_view, members_view};
ghost use Rattle.scim_message.specs.Answers as spec;
ghost use Rattle.scim_message.specs.Faults.{fault_of_json, fault_of_reading};
ghost use Rattle.scim_message.specs.Refusals.{IsErrorStatus};
ghost use Rattle.scim_message.specs.declared.answers.BodyFault.TheVariants.{Memory, WrongShape};

use crate::bodies::error_schema;
use crate::lists::{ListResponse, Resources};
use crate::messages::{Answer, Request};
use crate::refusals::ErrorResponse;
use scim_json::{
    JsonFault, ValueFault, attribute, items_in, json_of, lists_text, repeats, text_of, whole_in,
};
use scim_key::{Kind, ResourceId};
use scim_resource::{ContentFault, Shown};
use scim_version::{EntityTag, TagFault};
use serde_json::{Map, Value};
use std::alloc::{AllocError, AllocFailed, Global};
use thiserror::Error;

/// Why an answer can't be read. `NotJson` comes before `WrongShape`.
#[derive(Clone, Copy, Debug, Error)]
pub enum BodyFault {
    /// The body isn't JSON in UTF-8.
    #[error("A1")]
    NotJson,
    /// The body isn't an answer to the request, or the status doesn't fit the request.
    #[error("A2")]
    WrongShape,
    #[error("memory")]
    Memory,
}

impl From<AllocError> for BodyFault {
    ghost from_gives = { λ _ fault. fault ≡ Memory };

    fn from(_: AllocError) -> BodyFault {
        BodyFault::Memory
    }
}

impl<T: Drop> From<AllocFailed<T>> for BodyFault {
    ghost from_gives = { λ _ fault. fault ≡ Memory };

    fn from(_: AllocFailed<T>) -> BodyFault {
        BodyFault::Memory
    }
}

impl From<ValueFault> for BodyFault {
    ghost from_gives = { λ _ fault. fault ≡ WrongShape };

    fn from(_: ValueFault) -> BodyFault {
        BodyFault::WrongShape
    }
}

impl From<JsonFault> for BodyFault {
    ghost from_gives = { λ json fault. fault ≡ fault_of_json json };

    fn from(fault: JsonFault) -> BodyFault {
        match fault {
            JsonFault::NotJson => BodyFault::NotJson,
            JsonFault::Memory => BodyFault::Memory,
        }
    }
}

impl From<ContentFault> for BodyFault {
    ghost from_gives = { λ read fault. fault ≡ fault_of_reading read };

    fn from(fault: ContentFault) -> BodyFault {
        match fault {
            ContentFault::Memory => BodyFault::Memory,
            _ => BodyFault::WrongShape,
        }
    }
}

/// Reads the answer to a request from its status, its field `ETag` and its body. A status from 400 to 599
/// is an error, whatever the body says. `etag` is used only for `NotModified`, which has no body.
pub fn read_body(
    alloc: Global,
    request: &Request,
    status: u16,
    etag: Option<&[u8]>,
    body: &[u8],
) -> Result<Answer, BodyFault>
    ensures { Gives BodyFault.Memory result
        (spec.read_body request.now status (option_map (λ e. e.now) etag.entry) body.now) }
{
    if is_error(status) {
        return Ok(Answer::Error(error_in(alloc, status, body)?));
    }
    match request {
        Request::Retrieve { kind, id, .. } if status == 304 => not_modified(alloc, *kind, id, etag),
        _ => said_in(alloc, request, status, body),
    }
}

fn is_error(status: u16) -> bool
    ensures { result ≡ spec.is_error_status status }
{
    status >= 400 && status <= 599
}

/// Reads a 304: the resource still has this tag.
fn not_modified(
    alloc: Global,
    kind: Kind,
    id: &ResourceId,
    etag: Option<&[u8]>,
) -> Result<Answer, BodyFault>
    ensures { Gives BodyFault.Memory result
        (spec.not_modified kind id.now (option_map (λ e. e.now) etag.entry)) }
{
    let Some(tag) = etag else {
        return Err(BodyFault::WrongShape);
    };
    let version = tag_of(alloc, tag)?;
    Ok(Answer::NotModified {
        kind,
        id: id.clone()?,
        version,
    })
}

fn tag_of(alloc: Global, tag: &[u8]) -> Result<EntityTag, BodyFault>
    ensures { Gives BodyFault.Memory result (spec.tag_of tag.now) }
{
    match EntityTag::read(alloc, tag) {
        Ok(tag) => Ok(tag),
        Err(TagFault::Malformed) => Err(BodyFault::WrongShape),
        Err(TagFault::Memory) => Err(BodyFault::Memory),
    }
}

/// What the body says. It is parsed as JSON before the status is checked.
fn said_in(alloc: Global, request: &Request, status: u16, body: &[u8]) -> Result<Answer, BodyFault>
    ensures { Gives BodyFault.Memory result (spec.said_in request.now status body.now) }
{
    let value = json_of(alloc, body)?;
    if !fits(request, status) {
        return Err(BodyFault::WrongShape);
    }
    said(alloc, request, &value)
}

/// Whether the status is the success status for the request.
fn fits(request: &Request, status: u16) -> bool
    ensures { result ≡ spec.fits_status request.now status }
{
    match request {
        Request::Create { .. } => status == 201,
        _ => status == 200,
    }
}

fn said(alloc: Global, request: &Request, value: &Value) -> Result<Answer, BodyFault>
    ensures { Gives BodyFault.Memory result (spec.said request.now (view value.now)) }
{
    match request {
        Request::Create { content } => {
            Ok(Answer::Created(Shown::read(alloc, value, content.kind())?))
        }
        Request::Retrieve { kind, .. } => Ok(Answer::Found(Shown::read(alloc, value, *kind)?)),
        Request::Search { kind, .. } => Ok(Answer::List(read_list(alloc, value, *kind)?)),
        Request::Replace { content, .. } => {
            Ok(Answer::Replaced(Shown::read(alloc, value, content.kind())?))
        }
    }
}

/// Reads an error. A body that isn't an error message adds nothing to the status.
fn error_in(alloc: Global, status: u16, body: &[u8]) -> Result<ErrorResponse, BodyFault>
    requires { IsErrorStatus status }
    ensures { Gives BodyFault.Memory result (Ok (spec.error_in status body.now)) }
{
    match json_of(alloc, body) {
        Ok(value) => Ok(error_from(alloc, status, &value)?),
        Err(JsonFault::NotJson) => Ok(ErrorResponse::bare(status)),
        Err(JsonFault::Memory) => Err(BodyFault::Memory),
    }
}

fn error_from(alloc: Global, status: u16, value: &Value) -> Result<ErrorResponse, AllocError>
    requires { IsErrorStatus status }
    ensures { IfOk result (λ error. error ≡ spec.error_from status (Some (view value.now))) }
{
    match value {
        Value::Object(members) => error_of_members(alloc, status, members),
        _ => Ok(ErrorResponse::bare(status)),
    }
}

fn error_of_members(
    alloc: Global,
    status: u16,
    members: &Map<String, Value>,
) -> Result<ErrorResponse, AllocError>
    requires { IsErrorStatus status }
    ensures { IfOk result (λ error. error
        ≡ spec.error_of_members status (members_view members.now.entries)) }
{
    if repeats(alloc, members)? || !lists_text(attribute(members, "schemas"), error_schema()) {
        return Ok(ErrorResponse::bare(status));
    }
    let scim_type = text_of(attribute(members, "scimType"));
    let detail = text_of(attribute(members, "detail"));
    ErrorResponse::with_texts(alloc, status, scim_type, detail)
}

fn read_list(alloc: Global, value: &Value, kind: Kind) -> Result<ListResponse, BodyFault>
    ensures { Gives BodyFault.Memory result (spec.read_list kind (view value.now)) }
{
    let Value::Object(members) = value else {
        return Err(BodyFault::WrongShape);
    };
    if repeats(alloc, members)? {
        return Err(BodyFault::WrongShape);
    }
    list_fields(alloc, members, kind)
}

#[tactic(auto, unfolding(crate::specs::Answers::list_fields))]
fn list_fields(
    alloc: Global,
    members: &Map<String, Value>,
    kind: Kind,
) -> Result<ListResponse, BodyFault>
    ensures { Gives BodyFault.Memory result
        (spec.list_fields kind (members_view members.now.entries)) }
{
    let total = total_in(attribute(members, "totalResults"))?;
    let start = start_in(attribute(members, "startIndex"));
    let resources = resources_in(alloc, attribute(members, "Resources"), kind)?;
    Ok(ListResponse {
        total,
        start,
        resources,
    })
}

fn total_in(value: Option<&Value>) -> Result<u64, BodyFault>
    ensures { result ≡ spec.total_in (option_map (λ v. view v.now) value.entry) }
{
    match whole_in(value) {
        Ok(Some(total)) => Ok(total),
        _ => Err(BodyFault::WrongShape),
    }
}

/// The place of the first resource; 1 if the list doesn't say it.
fn start_in(value: Option<&Value>) -> u64
    ensures { result ≡ spec.start_in (option_map (λ v. view v.now) value.entry) }
{
    match whole_in(value) {
        Ok(Some(start)) => if start >= 1 { start } else { 1 },
        _ => 1,
    }
}

fn resources_in(alloc: Global, value: Option<&Value>, kind: Kind) -> Result<Resources, BodyFault>
    ensures { Gives BodyFault.Memory result
        (spec.resources_in kind (option_map (λ v. view v.now) value.entry)) }
{
    let page = page_of(alloc, items_in(value)?, kind)?;
    Ok(Resources::from_vec(page))
}

/// All resources of a list, in their order.
#[tactic(auto, unfolding(crate::specs::Answers::page_of))]
fn page_of(alloc: Global, items: &[Value], kind: Kind) -> Result<Vec<Shown>, BodyFault>
    ensures { GivesBy (λ page. page.items) BodyFault.Memory result
        (spec.page_of kind (items_view items.now)) }
{
    let mut page = Vec::new(alloc);
    for item in items {
        if let Some(shown) = shown_in(alloc, item, kind)? {
            page.push(shown)?;
        }
    }
    Ok(page)
}

/// A resource of a list; a `null` is ignored.
fn shown_in(alloc: Global, item: &Value, kind: Kind) -> Result<Option<Shown>, BodyFault>
    ensures { Gives BodyFault.Memory result (spec.shown_in kind (view item.now)) }
{
    match item {
        Value::Null => Ok(None),
        _ => Ok(Some(Shown::read(alloc, item, kind)?)),
    }
}
