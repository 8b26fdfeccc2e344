//! The bodies of answers.
ghost use Rattle.std.specs.Prelude.{◌≡◌, Some, IfOk, OnOk, codes, option_map, string_bytes};
ghost use Rattle.std.specs.Fmt.{decimal};
ghost use Rattle.std.specs.Str.{IsUtf8};
ghost use Rattle.serde_json.specs.Data.{array, item, no_items, string};
ghost use Rattle.serde_json.specs.Written.{compact_text};
ghost use Rattle.scim_json.specs.Writing.{Writes, WritesPart};
ghost use Rattle.scim_resource.specs.Writing.{data_at};
ghost use Rattle.scim_message.specs.Fitting.{AreLawful, IsLawful, ShowsLawfully};
ghost use Rattle.scim_message.specs.Bodies.{answer_location, body_text, error_data, error_message, list_data, list_message, page_data};

use crate::lists::ListResponse;
use crate::messages::Answer;
use crate::refusals::ErrorResponse;
use json::Writer;
use scim_json::{TEXT_ROOM, write_text_if, write_whole};
use scim_key::Base;
use scim_resource::{Shown, location};
use std::alloc::{AllocError, Global};

/// The body of an answer by a service at this base, in UTF-8. It is empty for `NotModified`.
pub fn body_of(alloc: Global, answer: &Answer, base: &Base) -> Result<Vec<u8>, AllocError>
    ensures text { IfOk result (λ body. body.items ≡ body_text base.now answer.now) }
    ensures utf8 { IfOk result (λ body. IsUtf8 body.items) }
    ensures lawful { OnOk result (ShowsLawfully answer.now) }
{
    let location = location_of(alloc, answer, base)?;
    body_at(alloc, answer, base, location.as_deref())
}

/// The body of an answer, as `body_of` gives it, if the location of the answer is there already.
pub fn body_at(
    alloc: Global,
    answer: &Answer,
    base: &Base,
    location: Option<&str>,
) -> Result<Vec<u8>, AllocError>
    requires { option_map (λ t. t.now) location ≡ answer_location base.now answer.now }
    ensures text { IfOk result (λ body. body.items ≡ body_text base.now answer.now) }
    ensures utf8 { IfOk result (λ body. IsUtf8 body.items) }
    ensures lawful { OnOk result (ShowsLawfully answer.now) }
{
    match answer {
        Answer::Created(shown) | Answer::Found(shown) | Answer::Replaced(shown) => {
            shown_text(alloc, shown, location.unwrap())
        }
        Answer::List(list) => list_text(alloc, list, base),
        Answer::NotModified { .. } => Ok(Vec::new(alloc)),
        Answer::Error(error) => error_text(alloc, error),
    }
}

/// The URI of the resource that an answer shows or is about, if it is about one.
pub fn location_of(
    alloc: Global,
    answer: &Answer,
    base: &Base,
) -> Result<Option<String>, AllocError>
    ensures { IfOk result
        (λ text. option_map string_bytes text ≡ answer_location base.now answer.now) }
{
    match answer {
        Answer::Created(shown) | Answer::Found(shown) | Answer::Replaced(shown) => {
            Ok(Some(shown.location(alloc, base)?))
        }
        Answer::NotModified { kind, id, .. } => Ok(Some(location(alloc, base, *kind, id)?)),
        Answer::List(_) | Answer::Error(_) => Ok(None),
    }
}

#[tactic(auto, using(scim_json::proofs::Written::written_text))]
fn shown_text(alloc: Global, shown: &Shown, location: &str) -> Result<Vec<u8>, AllocError>
    ensures text { IfOk result
        (λ text. text.items ≡ compact_text (data_at location.now shown.now)) }
    ensures utf8 { IfOk result (λ text. IsUtf8 text.items) }
    ensures lawful { OnOk result (IsLawful shown.now) }
{
    let mut out = Writer::new(Vec::with_capacity(alloc, TEXT_ROOM)?);
    shown.write_at(location, &mut out)?;
    Ok(out.into_inner())
}

#[tactic(auto, using(scim_json::proofs::Written::written_text))]
fn list_text(alloc: Global, list: &ListResponse, base: &Base) -> Result<Vec<u8>, AllocError>
    ensures text { IfOk result (λ text. text.items ≡ compact_text (list_data base.now list.now)) }
    ensures utf8 { IfOk result (λ text. IsUtf8 text.items) }
    ensures lawful { OnOk result (AreLawful list.now.resources) }
{
    let mut out = Writer::new(Vec::with_capacity(alloc, TEXT_ROOM)?);
    write_list(alloc, list, base, &mut out)?;
    Ok(out.into_inner())
}

#[tactic(auto, using(scim_json::proofs::Written::written_text))]
fn error_text(alloc: Global, error: &ErrorResponse) -> Result<Vec<u8>, AllocError>
    ensures text { IfOk result (λ text. text.items ≡ compact_text (error_data error.now)) }
    ensures utf8 { IfOk result (λ text. IsUtf8 text.items) }
{
    let mut out = Writer::new(Vec::with_capacity(alloc, TEXT_ROOM)?);
    write_error(error, &mut out)?;
    Ok(out.into_inner())
}

/// The URN of an error message.
#[tactic(auto, unfolding(crate::specs::Bodies::error_message))]
pub(crate) fn error_schema() -> &'static str
    ensures { result.now ≡ error_message }
{
    "urn:ietf:params:scim:api:messages:2.0:Error"
}

#[tactic(auto, unfolding(crate::specs::Bodies::list_message))]
fn list_schema() -> &'static str
    ensures { result.now ≡ list_message }
{
    "urn:ietf:params:scim:api:messages:2.0:ListResponse"
}

/// Writes `schemas`, a list with this one URN.
fn write_schema(out: &mut Writer, schema: &str) -> Result<(), AllocError>
    ensures { OnOk result
        (WritesPart (codes "schemas")
        (Some (array (item (string schema.now) no_items))) out.old out.new) }
{
    out.key("schemas")?;
    out.begin_array()?;
    out.string(schema)?;
    out.end_array()
}

fn write_list(
    alloc: Global,
    list: &ListResponse,
    base: &Base,
    out: &mut Writer,
) -> Result<(), AllocError>
    ensures written { OnOk result (Writes (list_data base.now list.now) out.old out.new) }
    ensures lawful { OnOk result (AreLawful list.now.resources) }
{
    let page = list.resources.as_slice();
    out.begin_object()?;
    out.key("Resources")?;
    write_page(alloc, page, base, out)?;
    write_whole(out, "itemsPerPage", page.len() as u64)?;
    write_schema(out, list_schema())?;
    write_whole(out, "startIndex", list.start)?;
    write_whole(out, "totalResults", list.total)?;
    out.end_object()
}

/// Writes the resources of a page as they are shown.
fn write_page(
    alloc: Global,
    page: &[Shown],
    base: &Base,
    out: &mut Writer,
) -> Result<(), AllocError>
    ensures written { OnOk result (Writes (array (page_data base.now page.now)) out.old out.new) }
    ensures lawful { OnOk result (AreLawful page.now) }
{
    out.begin_array()?;
    for resource in page {
        resource.write(alloc, base, out)?;
    }
    out.end_array()
}

fn write_error(error: &ErrorResponse, out: &mut Writer) -> Result<(), AllocError>
    ensures { OnOk result (Writes (error_data error.now) out.old out.new) }
{
    out.begin_object()?;
    write_text_if(out, "detail", error.detail())?;
    write_schema(out, error_schema())?;
    write_text_if(out, "scimType", error.scim_type())?;
    write_status(out, error.status())?;
    out.end_object()
}

/// Writes the status, which is a text.
fn write_status(out: &mut Writer, status: u16) -> Result<(), AllocError>
    ensures { OnOk result
        (WritesPart (codes "status") (Some (string (decimal status))) out.old out.new) }
{
    out.key("status")?;
    out.quoted_u64(u64::from(status))
}
