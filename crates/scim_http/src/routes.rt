//! What the target of a request names.
ghost use Rattle.std.specs.Prelude.{◌≡◌, ◌==◌, IfOk, Some, position};
ghost use Rattle.std.specs.Option.{option_map};
ghost use Rattle.scim_http.specs.Routes as spec;
ghost use Rattle.scim_http.specs.Segments.{id_of};

use crate::segments::id_of;
use scim_key::{Kind, ResourceId};
use std::alloc::{AllocError, Global};

/// What a path names.
#[derive(Drop)]
pub(crate) enum Route {
    /// All resources of a type.
    Collection(Kind),
    /// The resource of a type with an id.
    Resource(Kind, ResourceId),
}

/// The place of the first `?` in a target.
fn query_mark(target: &[u8]) -> Option<usize>
    ensures { result ≡ position (λ byte. byte == 63) target.now }
{
    target.iter().position(|byte| *byte == b'?')
}

/// The part of a target before its first `?`.
fn path_of(target: &[u8]) -> &[u8]
    ensures { result.now ≡ spec.path_of target.now }
{
    match query_mark(target) {
        Some(end) => &target[..end],
        None => target,
    }
}

/// The part of a target after its first `?`.
pub(crate) fn query_of(target: &[u8]) -> &[u8]
    ensures { result.now ≡ spec.query_of target.now }
{
    match query_mark(target) {
        Some(mark) => &target[mark + 1..],
        None => &[],
    }
}

/// What a target names, if it names something that exists here.
pub(crate) fn route_of(alloc: Global, target: &[u8]) -> Result<Option<Route>, AllocError>
    ensures { IfOk result (λ route. route ≡ spec.route_of (spec.path_of target.now)) }
{
    let path = path_of(target);
    match route_in(alloc, Kind::User, path)? {
        Some(route) => Ok(Some(route)),
        None => route_in(alloc, Kind::Group, path),
    }
}

/// A collection, or one resource in it.
fn route_in(alloc: Global, kind: Kind, path: &[u8]) -> Result<Option<Route>, AllocError>
    ensures { IfOk result (λ route. route ≡ spec.route_in kind path.now) }
{
    match after(collection_path(kind).as_bytes(), path) {
        Some(rest) => route_from(alloc, kind, rest),
        None => Ok(None),
    }
}

/// The path of a collection.
pub fn collection_path(kind: Kind) -> &'static str
    ensures { result.now ≡ spec.collection_path kind }
{
    match kind {
        Kind::User => "/v2/Users",
        Kind::Group => "/v2/Groups",
    }
}

/// The part of a text after this prefix, if it begins with the prefix.
fn after<'a>(prefix: &[u8], text: &'a [u8]) -> Option<&'a [u8]>
    ensures { option_map (λ t. t.now) result ≡ spec.after prefix.now text.now }
{
    text.strip_prefix(prefix)
}

/// The collection if nothing is left of the path, one of its resources if a `/` and one segment are left.
fn route_from(alloc: Global, kind: Kind, rest: &[u8]) -> Result<Option<Route>, AllocError>
    ensures { IfOk result (λ route. route ≡ spec.route_from kind (Some rest.now)) }
{
    match rest {
        [] => Ok(Some(Route::Collection(kind))),
        [b'/', segment @ ..] => resource_route(alloc, kind, segment),
        _ => Ok(None),
    }
}

/// The resource whose id a segment spells.
fn resource_route(alloc: Global, kind: Kind, segment: &[u8]) -> Result<Option<Route>, AllocError>
    ensures { IfOk result (λ route. route ≡ spec.resource_route kind (id_of segment.now)) }
{
    match id_of(alloc, segment)? {
        Some(id) => Ok(Some(Route::Resource(kind, id))),
        None => Ok(None),
    }
}
