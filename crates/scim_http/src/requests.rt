//! What an accepted message asks for (RFC 7644 section 3).
ghost use Rattle.std.specs.Prelude.{◌≡◌};
ghost use Rattle.scim_http.specs.declared.requests.MeaningFault.TheVariants.{Refused, OutOfMemory};
ghost use Rattle.scim_http.specs.Meaning as spec;
ghost use Rattle.scim_http.specs.Meaning.{Tells, TellsOf};

use crate::conditions::conditions_of;
use crate::media::is_type_served;
use crate::routes::{Route, query_of, route_of};
use crate::searches::search;
use http_text::Incoming;
use scim_key::{Kind, ResourceId};
use scim_message::{Refusal, Request};
use scim_resource::{Content, ContentFault};
use std::alloc::{AllocError, Global};
use thiserror::Error;

/// Why the provider can't serve a message. The path is checked first, then the method, the media type, the
/// body, and the conditions or the query.
#[derive(Clone, Copy, Debug, Error)]
pub enum MeaningFault {
    /// The first refusal that applies.
    #[error("{0}")]
    Refused(Refusal),
    #[error("H13")]
    OutOfMemory,
}

impl From<Refusal> for MeaningFault {
    ghost from_gives = { λ refusal fault. fault ≡ Refused refusal };

    fn from(refusal: Refusal) -> MeaningFault {
        MeaningFault::Refused(refusal)
    }
}

impl From<AllocError> for MeaningFault {
    ghost from_gives = { λ _ fault. fault ≡ OutOfMemory };

    fn from(_: AllocError) -> MeaningFault {
        MeaningFault::OutOfMemory
    }
}

/// What an accepted message asks for.
pub fn meaning(alloc: Global, incoming: &Incoming) -> Result<Request, MeaningFault>
    ensures { TellsOf (spec.Asks incoming.now) result }
{
    match route_of(alloc, incoming.target())? {
        Some(Route::Collection(kind)) => on_collection(alloc, kind, incoming),
        Some(Route::Resource(kind, id)) => on_resource(alloc, kind, id, incoming),
        None => Err(MeaningFault::Refused(Refusal::NoSuchPath)),
    }
}

/// What a message to a collection asks for.
fn on_collection(alloc: Global, kind: Kind, incoming: &Incoming) -> Result<Request, MeaningFault>
    ensures { TellsOf (spec.IsAsked (spec.collection_asked kind incoming.now)) result }
{
    match incoming.method() {
        b"POST" => create(alloc, kind, incoming),
        b"GET" => search(alloc, kind, query_of(incoming.target())),
        _ => Err(MeaningFault::Refused(Refusal::MethodNotSupported)),
    }
}

fn create(alloc: Global, kind: Kind, incoming: &Incoming) -> Result<Request, MeaningFault>
    ensures { Tells result (spec.create_request kind incoming.now) }
{
    Ok(Request::Create {
        content: content_sent(alloc, kind, incoming)?,
    })
}

/// What a message to one resource asks for.
fn on_resource(
    alloc: Global,
    kind: Kind,
    id: ResourceId,
    incoming: &Incoming,
) -> Result<Request, MeaningFault>
    ensures { Tells result (spec.resource_request kind id incoming.now) }
{
    match incoming.method() {
        b"GET" => retrieve(alloc, kind, id, incoming),
        b"PUT" => replace(alloc, kind, id, incoming),
        _ => Err(MeaningFault::Refused(Refusal::MethodNotSupported)),
    }
}

fn retrieve(
    alloc: Global,
    kind: Kind,
    id: ResourceId,
    incoming: &Incoming,
) -> Result<Request, MeaningFault>
    ensures { Tells result (spec.retrieve_request kind id incoming.now) }
{
    let (if_match, if_none_match) = conditions_of(alloc, incoming)?;
    Ok(Request::Retrieve {
        kind,
        id,
        if_match,
        if_none_match,
    })
}

fn replace(
    alloc: Global,
    kind: Kind,
    id: ResourceId,
    incoming: &Incoming,
) -> Result<Request, MeaningFault>
    ensures { Tells result (spec.replace_request kind id incoming.now) }
{
    let content = content_sent(alloc, kind, incoming)?;
    let (if_match, if_none_match) = conditions_of(alloc, incoming)?;
    Ok(Request::Replace {
        id,
        content,
        if_match,
        if_none_match,
    })
}

/// The content that a message sends.
fn content_sent(alloc: Global, kind: Kind, incoming: &Incoming) -> Result<Content, MeaningFault>
    ensures { Tells result (spec.content_sent kind incoming.now) }
{
    accept_type(incoming)?;
    content_of(alloc, kind, incoming.body())
}

/// Refuses a media type that isn't supported.
fn accept_type(incoming: &Incoming) -> Result<(), MeaningFault>
    ensures { Tells result (spec.type_accepted incoming.now) }
{
    if is_type_served(incoming) {
        Ok(())
    } else {
        Err(MeaningFault::Refused(Refusal::MediaType))
    }
}

/// Reads a body as a content.
fn content_of(alloc: Global, kind: Kind, body: &[u8]) -> Result<Content, MeaningFault>
    ensures { Tells result (spec.content_of kind body.now) }
{
    match Content::from_slice(alloc, body, kind) {
        Ok(content) => Ok(content),
        Err(ContentFault::InvalidSyntax) => Err(MeaningFault::Refused(Refusal::UnreadableBody)),
        Err(ContentFault::InvalidValue) => Err(MeaningFault::Refused(Refusal::ValueNotAllowed)),
        Err(ContentFault::Memory) => Err(MeaningFault::OutOfMemory),
    }
}
