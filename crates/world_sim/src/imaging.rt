//! What others ask for by a row: that its image is written.
ghost use Rattle.std.specs.Prelude.{◌≡◌, IfErr, IfOk, OnOk, Some};
ghost use Rattle.std.specs.BTreeMap.{Updates};
ghost use Rattle.std.specs.Option.{option_copied};
ghost use Rattle.mapping.specs.Images.{imaged};
ghost use Rattle.provider_core.specs.Calls.{Reads};
ghost use Rattle.connector_core.specs.Changing.{member_at};
ghost use Rattle.connector_core.specs.Trees.{key_cmp};
ghost use Rattle.source_csv.specs.Records.{members_of, user};
ghost use Rattle.world_sim.specs.Acts.{write_request};
ghost use Rattle.world_sim.specs.Imaging.{HasIdsOf, LooksUp, id_found, id_in, looked_up, request_told, row_request};
ghost use Rattle.world_sim.specs.Sides.{CountsWorldFault};
ghost use Rattle.world_sim.specs.declared.imaging.RowRequest.TheVariants as requests;
ghost use Rattle.world_sim.specs.declared.reports.WorldFault.TheVariants.{Memory};

use crate::others::write_request;
use crate::reports::WorldFault;
use mapping::{Ids, ImageFault, row_content};
use provider_core::{Provider, Registry};
use scim_key::{Key, Kind, RecordName, ResourceId};
use scim_message::Request;
use scim_resource::{Content, Stored};
use source_csv::Row;
use std::alloc::{AllocError, Global};
use std::collections::BTreeMap;

/// What others ask for by a row.
#[derive(Drop)]
pub(crate) enum RowRequest {
    Asks(Request),
    /// Nothing: this member of the row, the first by key, has no resource.
    Waits(Key),
}

/// The ids of users that were looked up; none if a user has no resource.
#[derive(Drop)]
struct UserIds {
    ids: BTreeMap<Key, Option<ResourceId>>,
}

impl Ids for UserIds {
    ghost id_of = { λ found name. looked_up found.ids name.key };

    fn id(&self, key: &Key) -> Option<&ResourceId> {
        match self.ids.get(key) {
            Some(id) => id.as_ref(),
            None => None,
        }
    }
}

/// The id of a row, if there is a row.
fn id_in(alloc: Global, row: Option<&Stored>) -> Result<Option<ResourceId>, AllocError>
    ensures { IfOk result (λ id. id ≡ id_found (option_copied row.entry)) }
{
    match row {
        Some(row) => Ok(Some(row.id(alloc)?)),
        None => Ok(None),
    }
}

/// Looks up the id of a user at the provider.
fn look_up<R: Registry>(
    alloc: Global,
    provider: &mut Provider<R>,
    key: &Key,
    ids: &mut BTreeMap<Key, Option<ResourceId>>,
) -> Result<(), WorldFault>
    ensures put { R.is_faithful provider.new → OnOk result (Updates key_cmp ids.old ids.new key.now
        (Some (id_in (R.rows provider.old) (user key.now)))) }
    ensures reads { Reads R.Registry CountsWorldFault provider.old provider.new result }
{
    let name = RecordName {
        kind: Kind::User,
        key: key.clone()?,
    };
    let row = provider.row_of(&name)?;
    let id = id_in(alloc, row.as_ref())?;
    ids.insert(name.key, id)?;
    Ok(())
}

/// The ids that users have at the provider.
fn ids_of<R: Registry>(
    alloc: Global,
    provider: &mut Provider<R>,
    members: &[Key],
) -> Result<UserIds, WorldFault>
    ensures ids { R.is_faithful provider.new
        → IfOk result (λ found. HasIdsOf found.ids (R.rows provider.old) members.now) }
    ensures looks { LooksUp R.Registry provider.old provider.new result }
{
    let mut ids = BTreeMap::new(alloc);
    for member in members {
        look_up(alloc, provider, member, &mut ids)?;
    }
    Ok(UserIds { ids })
}

/// The member of a row at a place.
fn member_at(alloc: Global, row: &Row, place: usize) -> Result<Key, AllocError>
    ensures { IfOk result (λ key. key ≡ member_at row.now place) }
{
    match row {
        Row::Group(row) if place < row.members().len() => row.members()[place].clone(),
        _ => Key::of(alloc, ""),
    }
}

/// What others ask for by a row of whose name the provider has this row, and whose members have these ids.
fn request_with(
    alloc: Global,
    row: &Row,
    held: Option<&Stored>,
    ids: &UserIds,
) -> Result<RowRequest, WorldFault>
    ensures request { IfOk result (λ asks. asks ≡ request_told row.now (option_copied held.entry)
        (imaged (λ name. looked_up ids.now.ids name.key) row.now)) }
    ensures memory { IfErr result (λ fault. fault ≡ Memory) }
{
    match row_content(alloc, row, ids) {
        Ok(content) => asked(alloc, held, content),
        Err(ImageFault::MemberWithoutId { place }) => waits(alloc, row, place),
        Err(ImageFault::Memory) => Err(WorldFault::Memory),
    }
}

/// Others ask for the write of this content.
fn asked(alloc: Global, held: Option<&Stored>, content: Content) -> Result<RowRequest, WorldFault>
    ensures request { IfOk result (λ asks. asks
        ≡ requests.Asks (write_request (option_copied held.entry) content)) }
    ensures memory { IfErr result (λ fault. fault ≡ Memory) }
{
    let request = write_request(alloc, held, content)?;
    Ok(RowRequest::Asks(request))
}

/// A row waits for its member at this place.
fn waits(alloc: Global, row: &Row, place: usize) -> Result<RowRequest, WorldFault>
    ensures request { IfOk result (λ asks. asks ≡ requests.Waits (member_at row.now place)) }
    ensures memory { IfErr result (λ fault. fault ≡ Memory) }
{
    let member = member_at(alloc, row, place)?;
    Ok(RowRequest::Waits(member))
}

/// The keys of a row's members.
fn members_of(row: &Row) -> &[Key]
    ensures { result.now ≡ members_of row.now }
{
    match row {
        Row::User(_) => &[],
        Row::Group(group) => group.members(),
    }
}

/// What others ask for by a row: that its image is written. Its members have the ids that the provider's rows
/// give now.
pub(crate) fn row_request<R: Registry>(
    alloc: Global,
    provider: &mut Provider<R>,
    row: &Row,
) -> Result<RowRequest, WorldFault>
    ensures request { R.is_faithful provider.new
        → IfOk result (λ asks. asks ≡ row_request (R.rows provider.old) row.now) }
    ensures reads { Reads R.Registry CountsWorldFault provider.old provider.new result }
{
    let name = row.record_name(alloc)?;
    let held = provider.row_of(&name)?;
    let ids = ids_of(alloc, provider, members_of(row))?;
    request_with(alloc, row, held.as_ref(), &ids)
}
