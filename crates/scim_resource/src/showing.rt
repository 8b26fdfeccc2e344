//! Reading a resource as an answer shows it (RFC 7643 section 3.1).
ghost use Rattle.std.specs.Prelude.{◌≡◌, Ok, IfOk, IfSome, option_map};
ghost use Rattle.std.specs.Str.{IsUtf8};
ghost use Rattle.scim_key.specs.Identifiers.{IsId};
ghost use Rattle.scim_key.specs.Outcome.{Gives};
ghost use Rattle.scim_version.specs.Tags.{IsEntityTag};
ghost use Rattle.serde_json.specs.View.{view, members_view};
ghost use Rattle.scim_resource.specs.Rows.{IsShort};
ghost use Rattle.scim_resource.specs.Showing as spec;

use crate::contents::Content;
use crate::faults::ContentFault;
use crate::rows::{Shown, TAG_LIMIT};
use scim_json::{attribute, value_repeats};
use scim_key::{Kind, ResourceId};
use scim_version::{EntityTag, TagFault};
use serde_json::{Map, Value};
use std::alloc::{AllocError, Global};
use std::str;

impl Shown {
    /// Reads a resource of this type as an answer shows it. The content is read as by `Content::read`; an
    /// `id` is required. If `meta.version` isn't an entity tag of at most 256 bytes, the version is `None`.
    pub fn read(alloc: Global, value: &Value, kind: Kind) -> Result<Shown, ContentFault>
        ensures { Gives ContentFault.Memory result (spec.read_shown kind (view value.now)) }
    {
        let Value::Object(members) = value else {
            return Err(ContentFault::InvalidSyntax);
        };
        if value_repeats(alloc, attribute(members, "meta"))? {
            return Err(ContentFault::InvalidSyntax);
        }
        let content = Content::read(alloc, value, kind)?;
        shown_with(alloc, content, members)
    }
}

/// The resource with this content, and with the id and the version of this object.
fn shown_with(
    alloc: Global,
    content: Content,
    members: &Map<String, Value>,
) -> Result<Shown, ContentFault>
    ensures { Gives ContentFault.Memory result
        (spec.shown_with content (members_view members.now.entries)) }
{
    let id = id_in(alloc, attribute(members, "id"))?;
    let version = version_in(alloc, attribute(members, "meta"))?;
    Ok(Shown::from_parts(id, version, content))
}

fn id_in(alloc: Global, value: Option<&Value>) -> Result<ResourceId, ContentFault>
    ensures given { Gives ContentFault.Memory result
        (spec.id_in (option_map (λ v. view v.now) value.entry)) }
    ensures lawful { IfOk result IsId }
    ensures utf8 { IfOk result IsUtf8 }
{
    match value {
        Some(Value::String(text)) => Ok(ResourceId::read(alloc, text.as_str())?),
        _ => Err(ContentFault::InvalidValue),
    }
}

/// The version in `meta`, if it is an entity tag of at most 256 bytes.
fn version_in(alloc: Global, meta: Option<&Value>) -> Result<Option<EntityTag>, ContentFault>
    ensures given { Gives ContentFault.Memory result
        (Ok (spec.version_in (option_map (λ v. view v.now) meta.entry))) }
    ensures tag { IfOk result (λ version. IfSome version IsEntityTag) }
    ensures short { IfOk result (λ version. IfSome version IsShort) }
    ensures utf8 { IfOk result (λ version. IfSome version IsUtf8) }
{
    match meta {
        Some(Value::Object(members)) => tag_in(alloc, attribute(members, "version")),
        _ => Ok(None),
    }
}

fn tag_in(alloc: Global, value: Option<&Value>) -> Result<Option<EntityTag>, ContentFault>
    ensures given { Gives ContentFault.Memory result
        (Ok (spec.tag_in (option_map (λ v. view v.now) value.entry))) }
    ensures tag { IfOk result (λ version. IfSome version IsEntityTag) }
    ensures short { IfOk result (λ version. IfSome version IsShort) }
    ensures utf8 { IfOk result (λ version. IfSome version IsUtf8) }
{
    match value {
        Some(Value::String(text)) => Ok(tag_of(alloc, text.as_str())?),
        _ => Ok(None),
    }
}

/// The entity tag that the field `ETag` of a response states.
pub(crate) fn stated_tag(
    alloc: Global,
    etag: Option<&[u8]>,
) -> Result<Option<EntityTag>, AllocError>
    ensures given { IfOk result
        (λ tag. tag ≡ spec.stated_tag (option_map (λ e. e.now) etag.entry)) }
    ensures tag { IfOk result (λ version. IfSome version IsEntityTag) }
    ensures short { IfOk result (λ version. IfSome version IsShort) }
    ensures utf8 { IfOk result (λ version. IfSome version IsUtf8) }
{
    let Some(bytes) = etag else {
        return Ok(None);
    };
    match str::from_utf8(bytes) {
        Ok(text) => tag_of(alloc, text),
        Err(_) => Ok(None),
    }
}

fn tag_of(alloc: Global, text: &str) -> Result<Option<EntityTag>, AllocError>
    ensures given { IfOk result (λ tag. tag ≡ spec.tag_of text.now) }
    ensures tag { IfOk result (λ version. IfSome version IsEntityTag) }
    ensures short { IfOk result (λ version. IfSome version IsShort) }
    ensures utf8 { IfOk result (λ version. IfSome version IsUtf8) }
{
    if text.len() > TAG_LIMIT {
        return Ok(None);
    }
    match EntityTag::read(alloc, text.as_bytes()) {
        Ok(tag) => Ok(Some(tag)),
        Err(TagFault::Malformed) => Ok(None),
        Err(TagFault::Memory) => Err(AllocError),
    }
}
