//! The bytes of a request (RFC 7644 sections 3.3 to 3.5, RFC 9112 section 3).
ghost use Rattle.std.specs.Prelude.{◌≡◌, ◌++◌, ℕ, List, [], codes, decimal, length, map, IfOk, IfSome, OnOk, option_map, string_bytes};
ghost use Rattle.std.specs.Fmt.{signed_decimal};
ghost use Rattle.std.specs.List.{AllByRecursion, flat_map, join_by};
ghost use Rattle.std.specs.Option.{option_map_or};
ghost use Rattle.http_text.specs.Response.{line_of};
ghost use Rattle.scim_version.specs.declared.conditions.Condition.TheVariants.{Always};
ghost use Rattle.scim_version.specs.Tags.{IsEntityTag};
ghost use Rattle.scim_key.specs.Bases.{authority_of};
ghost use Rattle.scim_resource.specs.Locations.{location_text};
ghost use Rattle.scim_filter.specs.Texts.{filter_text};
ghost use Rattle.scim_client.specs.Requests as spec;
ghost use Rattle.scim_client.specs.Spelling.{HasEntityTags, HasLawfulTarget, IsFilterText, IsIdText, IsSentContent, IsWritable, KeepsLimitsAt, SpellsRequest};

use form_urlencoded::Serializer;
use http_text::{FieldLine, write_request};
use itoa::Buffer;
use scim_filter::Filter;
use scim_http::{MEDIA_TYPE, stated_type};
use scim_key::{Base, Kind, ResourceId};
use scim_message::Request;
use scim_resource::{Content, location};
use scim_version::{Condition, EntityTag};
use std::alloc::{AllocError, Global};

/// How many bytes are reserved for the target of a search; most targets need fewer.
const TARGET_ROOM: usize = 512;

/// How many bytes a path has in front of an id, if the service has no path of its own.
const PATH_ROOM: usize = 16;

/// How many bytes a collection's name has behind the path of its service, at most.
const COLLECTION_ROOM: usize = 8;

/// How many field lines a request may have.
const FIELD_LINES: usize = 7;

/// The bytes of a request to the service at the host of this base, with this path.
pub(crate) fn bytes_of(
    alloc: Global,
    base: &Base,
    path: &str,
    request: &Request,
) -> Result<Vec<u8>, AllocError>
    ensures text { IfOk result
        (λ text. text.items ≡ spec.text_at (authority_of base.now) path.now request.now) }
    ensures spelled { IfOk result (λ text. IsWritable request.now
        → KeepsLimitsAt (authority_of base.now) path.now request.now
        → SpellsRequest text.items request.now) }
{
    let target = target_of(alloc, base, path, request)?;
    let body = body_of(alloc, request)?;
    let if_match = condition_value(alloc, if_match_of(request))?;
    let if_none_match = condition_value(alloc, if_none_match_of(request))?;
    let mut buffer = Buffer::new();
    let fields = fields_of(
        base.authority(),
        length_of(lent(&body), &mut buffer),
        lent(&if_match),
        lent(&if_none_match),
    );
    write_request(
        alloc,
        method_of(request),
        target.as_str(),
        &fields,
        sent(lent(&body)),
    )
}

fn method_of(request: &Request) -> &'static str
    ensures { result.now ≡ spec.method_text request.now }
{
    match request {
        Request::Create { .. } => "POST",
        Request::Retrieve { .. } | Request::Search { .. } => "GET",
        Request::Replace { .. } => "PUT",
    }
}

fn lent(bytes: &Option<Vec<u8>>) -> Option<&[u8]>
    ensures { option_map (λ t. t.now) result ≡ option_map (λ t. t.items) bytes.now }
{
    match bytes {
        Some(bytes) => Some(bytes.as_slice()),
        None => None,
    }
}

/// The field lines of a request; each is there if it has a value.
fn fields_of<'a>(
    host: &'a [u8],
    length: Option<&'a [u8]>,
    if_match: Option<&'a [u8]>,
    if_none_match: Option<&'a [u8]>,
) -> [FieldLine<'a>; FIELD_LINES]
    ensures { map line_of result
        ≡ spec.lines_of host.now (option_map (λ t. t.now) length.entry)
        (option_map (λ t. t.now) if_match.entry)
        (option_map (λ t. t.now) if_none_match.entry) }
{
    [
        FieldLine::new("Host", Some(host)),
        FieldLine::new("Accept", Some(MEDIA_TYPE)),
        FieldLine::new("Connection", Some(b"close")),
        FieldLine::new("Content-Length", length),
        FieldLine::new("Content-Type", stated_type(length)),
        FieldLine::new("If-Match", if_match),
        FieldLine::new("If-None-Match", if_none_match),
    ]
}

fn length_of<'a>(body: Option<&[u8]>, buffer: &'a mut Buffer) -> Option<&'a [u8]>
    ensures { option_map (λ t. t.now) result
        ≡ option_map (λ t. decimal (length t)) (option_map (λ t. t.now) body.entry) }
{
    match body {
        Some(body) => Some(buffer.format(body.len()).as_bytes()),
        None => None,
    }
}

fn if_match_of(request: &Request) -> Option<&Condition>
    ensures { option_map_or (λ t. t.now) result Always ≡ spec.if_match_of request.now }
{
    match request {
        Request::Retrieve { if_match, .. } | Request::Replace { if_match, .. } => Some(if_match),
        Request::Create { .. } | Request::Search { .. } => None,
    }
}

fn if_none_match_of(request: &Request) -> Option<&Condition>
    ensures { option_map_or (λ t. t.now) result Always ≡ spec.if_none_match_of request.now }
{
    match request {
        Request::Retrieve { if_none_match, .. } | Request::Replace { if_none_match, .. } => {
            Some(if_none_match)
        }
        Request::Create { .. } | Request::Search { .. } => None,
    }
}

/// The value of the field for a condition, if there is one.
fn condition_value(
    alloc: Global,
    condition: Option<&Condition>,
) -> Result<Option<Vec<u8>>, AllocError>
    ensures value { IfOk result (λ value. option_map (λ t. t.items) value
        ≡ spec.condition_value (option_map_or (λ t. t.now) condition.entry Always)) }
    ensures lawful { OnOk result
        (HasEntityTags (option_map_or (λ t. t.now) condition.entry Always)) }
{
    match condition {
        None | Some(Condition::Always) => Ok(None),
        Some(Condition::AnyTag) => Ok(Some(Vec::from_slice(alloc, b"*")?)),
        Some(Condition::Tags(tags)) => Ok(Some(tags_text(alloc, tags.as_slice())?)),
    }
}

/// The tags, separated by a comma and a space.
fn tags_text(alloc: Global, tags: &[EntityTag]) -> Result<Vec<u8>, AllocError>
    ensures text { IfOk result (λ text. text.items ≡ join_by (λ tag. tag) (codes ", ") tags.now) }
    ensures lawful { OnOk result (AllByRecursion IsEntityTag tags.now) }
{
    match tags {
        [] => Ok(Vec::new(alloc)),
        [first, others @ ..] => {
            let mut text = Vec::from_slice(alloc, first.text())?;
            push_tags(&mut text, others)?;
            Ok(text)
        }
    }
}

fn push_tags(text: &mut Vec<u8>, tags: &[EntityTag]) -> Result<(), AllocError>
    ensures text { OnOk result (text.new.items
        ≡ text.old.items ++ flat_map (λ tag. codes ", " ++ tag) tags.now) }
    ensures lawful { OnOk result (AllByRecursion IsEntityTag tags.now) }
{
    for tag in tags {
        push_tag(text, tag)?;
    }
    Ok(())
}

fn push_tag(text: &mut Vec<u8>, tag: &EntityTag) -> Result<(), AllocError>
    ensures text { OnOk result (text.new.items ≡ text.old.items ++ (codes ", " ++ tag.now)) }
    ensures lawful { OnOk result (IsEntityTag tag.now) }
{
    text.extend_from_slice(b", ")?;
    text.extend_from_slice(tag.text())
}

/// The compact text of the content that a request sends, if it sends one.
fn body_of(alloc: Global, request: &Request) -> Result<Option<Vec<u8>>, AllocError>
    ensures text { IfOk result (λ body. option_map (λ t. t.items) body
        ≡ spec.body_sent request.now) }
    ensures lawful { OnOk result (IfSome (spec.content_sent request.now) IsSentContent) }
{
    match request {
        Request::Create { content } | Request::Replace { content, .. } => {
            Ok(Some(content_text(alloc, content)?))
        }
        Request::Retrieve { .. } | Request::Search { .. } => Ok(None),
    }
}

fn content_text(alloc: Global, content: &Content) -> Result<Vec<u8>, AllocError>
    ensures text { IfOk result (λ text. text.items ≡ spec.content_text content.now) }
    ensures lawful { OnOk result (IsSentContent content.now) }
{
    content.text(alloc)
}

fn sent(body: Option<&[u8]>) -> &[u8]
    ensures { result.now ≡ option_map_or (λ t. t) (option_map (λ t. t.now) body.entry) [] }
{
    body.unwrap_or_default()
}

fn target_of(
    alloc: Global,
    base: &Base,
    path: &str,
    request: &Request,
) -> Result<String, AllocError>
    ensures text { IfOk result
        (λ text. string_bytes text ≡ spec.target_text path.now request.now) }
    ensures lawful { OnOk result (HasLawfulTarget request.now) }
{
    match request {
        Request::Create { content } => collection_in(alloc, path, content.kind()),
        Request::Retrieve { kind, id, .. } => resource_in(alloc, base, path, *kind, id),
        Request::Search {
            kind,
            filter,
            start,
            count,
        } => search_target(alloc, path, *kind, filter.as_ref(), *start, *count),
        Request::Replace { id, content, .. } => resource_in(alloc, base, path, content.kind(), id),
    }
}

/// The collection of a type below the path of a service.
fn collection_in(alloc: Global, path: &str, kind: Kind) -> Result<String, AllocError>
    ensures { IfOk result (λ text. string_bytes text ≡ spec.collection_in path.now kind) }
{
    let mut text = String::with_capacity(alloc, path.len().saturating_add(COLLECTION_ROOM))?;
    text.push_str(path)?;
    text.push_str(match kind {
        Kind::User => "/Users",
        Kind::Group => "/Groups",
    })?;
    Ok(text)
}

/// A resource below the path of a service: its location, with that in place of the base.
fn resource_in(
    alloc: Global,
    base: &Base,
    path: &str,
    kind: Kind,
    id: &ResourceId,
) -> Result<String, AllocError>
    ensures path { IfOk result (λ text. string_bytes text ≡ location_text path.now kind id.now) }
    ensures lawful { OnOk result (IsIdText id.now) }
{
    let uri = location(alloc, base, kind, id)?;
    let mut text = String::with_capacity(alloc, id.as_str().len().saturating_add(PATH_ROOM))?;
    text.push_str(path)?;
    text.push_str(&uri.as_str()[base.as_str().len()..])?;
    Ok(text)
}

/// The path of a collection, and the query if it isn't empty: the parameters that have a value, as a form
/// writes them.
fn search_target(
    alloc: Global,
    path: &str,
    kind: Kind,
    filter: Option<&Filter>,
    start: i64,
    count: Option<i64>,
) -> Result<String, AllocError>
    ensures text { IfOk result (λ text. string_bytes text
        ≡ spec.with_query (spec.collection_in path.now kind)
        (spec.query_text (option_map (λ t. t.now) filter.entry) start count)) }
    ensures lawful { OnOk result (IfSome (option_map (λ t. t.now) filter.entry) IsFilterText) }
{
    let filter = filter_text_of(alloc, filter)?;
    let collection = collection_in(alloc, path, kind)?;
    let mut form = form_after(alloc, collection.as_str())?;
    push_parameter(&mut form, "filter", lent_text(&filter))?;
    push_parameter(
        &mut form,
        "startIndex",
        start_value(start, &mut Buffer::new()),
    )?;
    push_parameter(&mut form, "count", count_value(count, &mut Buffer::new()))?;
    Ok(without_mark(collection, form.finish()))
}

/// An empty form behind a path and a `?`.
fn form_after(alloc: Global, path: &str) -> Result<Serializer, AllocError>
    ensures { IfOk result
        (λ form. form ≡ record { prefix = path.now ++ codes "?"; form = [] }) }
{
    let mut target = String::with_capacity(alloc, TARGET_ROOM)?;
    target.push_str(path)?;
    target.push_str("?")?;
    let start = target.len();
    Ok(Serializer::for_suffix(target, start))
}

/// The path alone if no query follows the `?` of this target.
fn without_mark(path: String, target: String) -> String
    ensures { (query : List ℕ) → string_bytes target ≡ (string_bytes path ++ codes "?") ++ query
        → string_bytes result ≡ spec.with_query (string_bytes path) query }
{
    if target.len().saturating_sub(path.len()) == 1 {
        path
    } else {
        target
    }
}

/// Adds a parameter, if it has a value.
fn push_parameter(form: &mut Serializer, name: &str, value: Option<&str>) -> Result<(), AllocError>
    ensures { OnOk result (form.new ≡ record {
      prefix = form.old.prefix;
      form = spec.with_parameter form.old.form name.now (option_map (λ t. t.now) value.entry);
    }) }
{
    match value {
        Some(value) => form.append_pair(name, value),
        None => Ok(()),
    }
}

fn filter_text_of(alloc: Global, filter: Option<&Filter>) -> Result<Option<String>, AllocError>
    ensures text { IfOk result (λ text. option_map string_bytes text
        ≡ option_map filter_text (option_map (λ t. t.now) filter.entry)) }
    ensures lawful { OnOk result (IfSome (option_map (λ t. t.now) filter.entry) IsFilterText) }
{
    match filter {
        Some(filter) => Ok(Some(filter.to_text(alloc)?)),
        None => Ok(None),
    }
}

fn lent_text(text: &Option<String>) -> Option<&str>
    ensures { option_map (λ t. t.now) result ≡ option_map string_bytes text.now }
{
    match text {
        Some(text) => Some(text.as_str()),
        None => None,
    }
}

/// The start, unless it is the first place.
fn start_value(start: i64, buffer: &mut Buffer) -> Option<&str>
    ensures { option_map (λ t. t.now) result ≡ spec.start_value start }
{
    if start == 1 {
        None
    } else {
        Some(buffer.format(start))
    }
}

fn count_value(count: Option<i64>, buffer: &mut Buffer) -> Option<&str>
    ensures { option_map (λ t. t.now) result ≡ option_map signed_decimal count }
{
    match count {
        Some(count) => Some(buffer.format(count)),
        None => None,
    }
}
