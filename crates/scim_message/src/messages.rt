//! Requests and answers (RFC 7644 section 3).
ghost use Rattle.std.specs.Prelude.{◌≡◌, ◌≤◌, IfOk, map};
ghost use Rattle.scim_version.specs.Tags.{version_tag};
ghost use Rattle.scim_resource.specs.Rows.{last_version, shown_under};
ghost use Rattle.scim_resource.specs.Users.{IsSourceRevision};
ghost use Rattle.scim_message.specs.Messages.{answer_status, answer_under, request_revision, request_under, request_with};

use crate::lists::{ListResponse, Resources};
use crate::refusals::ErrorResponse;
use scim_filter::Filter;
use scim_key::{Kind, ResourceId, Revision};
use scim_resource::{Content, Shown};
use scim_version::{Condition, EntityTag};
use std::alloc::{AllocError, Global};

/// What a client asks of the provider.
#[derive(Drop)]
pub enum Request {
    /// A new resource (section 3.3).
    Create {
        content: Content,
    },
    /// The resource of this type with this id (section 3.4.1).
    Retrieve {
        kind: Kind,
        id: ResourceId,
        if_match: Condition,
        if_none_match: Condition,
    },
    /// The resources of this type that a filter finds, or all of them (section 3.4.2): at most `count` of
    /// them, from the place `start`, counted from 1.
    Search {
        kind: Kind,
        filter: Option<Filter>,
        start: i64,
        count: Option<i64>,
    },
    /// A new content for the resource with this id (section 3.5.1).
    Replace {
        id: ResourceId,
        content: Content,
        if_match: Condition,
        if_none_match: Condition,
    },
}

impl Request {
    /// The source revision of the content, if there is one.
    pub fn revision(&self) -> Option<Revision>
        ensures value { result ≡ request_revision self.now }
        ensures lawful { IsSourceRevision result }
    {
        match self {
            Request::Create { content } | Request::Replace { content, .. } => content.revision(),
            Request::Retrieve { .. } | Request::Search { .. } => None,
        }
    }

    /// The request with a content of this source revision, or of none.
    pub fn with_revision(self, revision: Option<Revision>) -> Request
        requires { IsSourceRevision revision }
        ensures { result ≡ request_with revision self }
    {
        match self {
            Request::Create { content } => Request::Create {
                content: content.with_revision(revision),
            },
            Request::Replace {
                id,
                content,
                if_match,
                if_none_match,
            } => Request::Replace {
                id,
                content: content.with_revision(revision),
                if_match,
                if_none_match,
            },
            other => other,
        }
    }

    /// The request under these conditions in place of its own, and its own. A request that can have none stays as it is,
    /// and these come back.
    pub fn with_conditions(
        self,
        if_match: Condition,
        if_none_match: Condition,
    ) -> (Request, Condition, Condition)
        ensures under { result.0 ≡ request_under if_match if_none_match self }
        ensures own { request_under result.1 result.2 self ≡ self }
    {
        match self {
            Request::Retrieve {
                kind,
                id,
                if_match: own_match,
                if_none_match: own_none_match,
            } => (
                Request::Retrieve {
                    kind,
                    id,
                    if_match,
                    if_none_match,
                },
                own_match,
                own_none_match,
            ),
            Request::Replace {
                id,
                content,
                if_match: own_match,
                if_none_match: own_none_match,
            } => (
                Request::Replace {
                    id,
                    content,
                    if_match,
                    if_none_match,
                },
                own_match,
                own_none_match,
            ),
            other => (other, if_match, if_none_match),
        }
    }
}

/// What the provider answers.
#[derive(Drop)]
pub enum Answer {
    /// The new resource.
    Created(Shown),
    /// The requested resource.
    Found(Shown),
    /// The resource with its new content.
    Replaced(Shown),
    /// A page of the resources that were found.
    List(ListResponse),
    /// The resource still has a version that the client knows (RFC 7232 section 4.1).
    NotModified {
        kind: Kind,
        id: ResourceId,
        version: EntityTag,
    },
    /// Why the request was refused.
    Error(ErrorResponse),
}

impl Answer {
    pub fn status(&self) -> u16
        ensures code { result ≡ answer_status self.now }
        ensures lawful { (200 ≤ result) × (result ≤ 599) }
    {
        match self {
            Answer::Created(_) => 201,
            Answer::Found(_) | Answer::Replaced(_) | Answer::List(_) => 200,
            Answer::NotModified { .. } => 304,
            Answer::Error(error) => error.status(),
        }
    }

    /// The answer, each of whose resources is under the entity tag of this version, whatever tag it had.
    pub fn under_version(self, alloc: Global, version: u64) -> Result<Answer, AllocError>
        requires { version ≤ last_version }
        ensures { IfOk result (λ answer. answer ≡ answer_under (version_tag version) self) }
    {
        Ok(match self {
            Answer::Created(shown) => Answer::Created(shown.under_version(alloc, version)?),
            Answer::Found(shown) => Answer::Found(shown.under_version(alloc, version)?),
            Answer::Replaced(shown) => Answer::Replaced(shown.under_version(alloc, version)?),
            Answer::List(list) => Answer::List(list_under(alloc, list, version)?),
            other => other,
        })
    }
}

/// The page, each of whose resources is under the entity tag of this version.
fn list_under(alloc: Global, list: ListResponse, version: u64) -> Result<ListResponse, AllocError>
    requires { version ≤ last_version }
    ensures { IfOk result (λ page. page ≡ record list {
      resources = map (shown_under (version_tag version)) list.resources;
    }) }
{
    let ListResponse {
        total,
        start,
        resources,
    } = list;
    Ok(ListResponse {
        total,
        start,
        resources: Resources::from_vec(all_under(alloc, resources.into_vec(), version)?),
    })
}

/// Each of these resources under the entity tag of this version.
fn all_under(alloc: Global, resources: Vec<Shown>, version: u64) -> Result<Vec<Shown>, AllocError>
    requires { version ≤ last_version }
    ensures { IfOk result (λ all. all.items
        ≡ map (shown_under (version_tag version)) resources.items) }
{
    let mut all = Vec::with_capacity(alloc, resources.len())?;
    for resource in resources {
        all.push(resource.under_version(alloc, version)?)?;
    }
    Ok(all)
}
