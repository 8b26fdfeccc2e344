//! Whether each member of a group has an id.
ghost use Rattle.std.specs.Prelude.{◌≡◌, IfOk};
ghost use Rattle.mapping.specs.Ready.{ready};
ghost use Rattle.mapping.specs.Readiness.{ReadyMeans};

use crate::ids::{Ids, Ready, ResourceIds};
use source_csv::GroupRow;
use std::alloc::{AllocError, Global};

/// The ids of a group's members, or its first member without one.
pub fn ready<I: Ids>(alloc: Global, row: &GroupRow, ids: &I) -> Result<Ready, AllocError>
    ensures { IfOk result (λ found. found ≡ ready (I.id_of ids.now) row.now.members) }
{
    let members = row.members();
    let mut items = Vec::with_capacity(alloc, members.len())?;
    for (place, key) in members.iter().enumerate() {
        match ids.id(key) {
            Some(id) => items.push(id.clone()?)?,
            None => return Ok(Ready::Waits(place)),
        }
    }
    Ok(Ready::Ids(ResourceIds { items }))
}

/// If a group is ready, each member has an id and no member is left out. A member that is waited for has
/// none. Ids that become known later change no list that was ready.
pub fn ready_means()
    ensures { ReadyMeans }
{}
