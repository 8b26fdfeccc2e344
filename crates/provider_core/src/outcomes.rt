//! What a request would answer and change, given the row that it is about.
ghost use Rattle.std.specs.Prelude.{◌≡◌, ◌<◌, None, Some, false, IfOk};
ghost use Rattle.scim_resource.specs.Contents.{content_kind, content_name};
ghost use Rattle.provider_core.specs.Rows.{same_kind, same_name};
ghost use Rattle.provider_core.specs.Outcomes.{refused, creating, retrieving, replacing, not_modified};

use crate::pending::Pending;
use scim_key::{Kind, LAST_NUMBER};
use scim_message::{Answer, ErrorResponse, Refusal};
use scim_resource::{Content, LAST_VERSION, RowVersion, Shown, Stored};
use scim_version::{Condition, EntityTag};
use std::alloc::{AllocError, Global};

/// The most resources that a provider holds: one for each number.
pub const MOST_RESOURCES: u32 = LAST_NUMBER;

/// The pending outcome of a refusal.
pub(crate) fn refusal(alloc: Global, refusal: Refusal) -> Result<Pending, AllocError>
    ensures { IfOk result (λ pending. pending ≡ refused refusal) }
{
    Ok(Pending {
        row: None,
        answer: Answer::Error(ErrorResponse::of(alloc, refusal)?),
    })
}

/// The pending outcome if a content becomes a new row after `count` others.
pub(crate) fn insertion(alloc: Global, count: u32, content: Content) -> Result<Pending, AllocError>
    requires { count < MOST_RESOURCES }
    ensures { IfOk result (λ pending. pending ≡ creating None false count content) }
{
    let row = RowVersion::new(count + 1, 1);
    let shown = Shown::with_content(alloc, &row, content)?;
    Ok(Pending {
        row: Some(row),
        answer: Answer::Created(shown),
    })
}

/// Whether the row is of this type of resource.
pub(crate) fn is_of_kind(row: &Stored, kind: Kind) -> bool
    ensures { result ≡ same_kind kind (content_kind row.now.content) }
{
    row.content().kind() == kind
}

/// Whether the content is of the same record as the row.
fn keeps_name(row: &Stored, content: &Content) -> bool
    ensures { result ≡ same_name (content_name row.now.content) (content_name content.now) }
{
    row.content().has_name_of(content)
}

/// The pending outcome of replacing a row's content, by whether both conditions hold.
pub(crate) fn replacement(
    alloc: Global,
    row: &Stored,
    content: Content,
    if_match: &Condition,
    if_none_match: &Condition,
) -> Result<Pending, AllocError>
    ensures { IfOk result
        (λ pending. pending ≡ replacing (Some row.now) content if_match.now if_none_match.now) }
{
    let version = row.version();
    if !keeps_name(row, &content) {
        return refusal(alloc, Refusal::NameFixed);
    }
    if version >= LAST_VERSION {
        return refusal(alloc, Refusal::LimitReached);
    }
    if !(if_match.holds_match(Some(version)) && if_none_match.holds_none_match(Some(version))) {
        return refusal(alloc, Refusal::OtherVersion);
    }
    let next = RowVersion::new(row.number(), version + 1);
    let shown = Shown::with_content(alloc, &next, content)?;
    Ok(Pending {
        row: Some(next),
        answer: Answer::Replaced(shown),
    })
}

fn unmodified(alloc: Global, row: &Stored) -> Result<Answer, AllocError>
    ensures { IfOk result (λ answer. answer ≡ not_modified row.now) }
{
    Ok(Answer::NotModified {
        kind: row.content().kind(),
        id: row.id(alloc)?,
        version: EntityTag::of_counter(alloc, row.version())?,
    })
}

/// The pending outcome of retrieving a row, by whether `If-Match` and `If-None-Match` hold.
pub(crate) fn retrieval(
    alloc: Global,
    row: &Stored,
    if_match: &Condition,
    if_none_match: &Condition,
) -> Result<Pending, AllocError>
    ensures { IfOk result
        (λ pending. pending ≡ retrieving (Some row.now) if_match.now if_none_match.now) }
{
    let version = Some(row.version());
    if !if_match.holds_match(version) {
        return refusal(alloc, Refusal::OtherVersion);
    }
    let answer = if if_none_match.holds_none_match(version) {
        Answer::Found(Shown::of(alloc, row)?)
    } else {
        unmodified(alloc, row)?
    };
    Ok(Pending { row: None, answer })
}
