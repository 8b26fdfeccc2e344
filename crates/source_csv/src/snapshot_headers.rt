//! Headers of snapshots.
ghost use Rattle.std.specs.Prelude.{◌≡◌, IfOk, filter, map, not, option_map};
ghost use Rattle.std.specs.List.{count_by, list_all, list_any, position};
ghost use Rattle.std.specs.Option.{ok_or};
ghost use Rattle.csv.specs.Records.{fields_of};
ghost use Rattle.scim_key.specs.Outcome.{GivesBy};
ghost use Rattle.source_csv.specs.Columns.{named};
ghost use Rattle.source_csv.specs.Layouts.{column_name, ignored_in, is_in_header, is_once_at_most, is_ours, is_snapshot_header, is_taken_for, snapshot_columns, snapshot_columns_of, snapshot_places};

use crate::columns::{Columns, bytes_at, name_column};
use crate::faults::SourceFault;
use crate::layouts::{Alias, is_ours, is_taken_for, snapshot_columns};
use crate::texts::TEXT_FIELDS;
use csv::ByteRecord;
use scim_key::Kind;
use std::alloc::{AllocError, Global};

/// The names of the columns of a header, as it spells them.
fn names_of<'a>(alloc: Global, header: &'a ByteRecord) -> Result<Vec<&'a [u8]>, AllocError>
    ensures { IfOk result (λ names. named names.items ≡ fields_of header.now) }
{
    let mut names = Vec::new(alloc);
    for place in 0..header.len() {
        names.push(bytes_at(header, place))?;
    }
    Ok(names)
}

/// The place of our column of this name.
fn place_of(aliases: &[Alias], names: &[&[u8]], ours: &str) -> Option<usize>
    ensures { result ≡ position (is_taken_for aliases.now ours.now) (named names.now) }
{
    names
        .iter()
        .position(|theirs| is_taken_for(aliases, ours, theirs))
}

/// Whether our column of this name is there at most once.
fn is_once_at_most(aliases: &[Alias], names: &[&[u8]], ours: &str) -> bool
    ensures { result ≡ is_once_at_most aliases.now (named names.now) ours.now }
{
    names
        .iter()
        .filter(|theirs| is_taken_for(aliases, ours, theirs))
        .count()
        <= 1
}

/// Whether the name in an alias is one of these.
fn is_in_header(names: &[&[u8]], alias: &Alias) -> bool
    ensures { result ≡ is_in_header (named names.now) alias.now }
{
    names.iter().any(|theirs| alias.is_of(theirs))
}

/// Whether the name in each alias is one of these.
fn are_in_header(aliases: &[Alias], names: &[&[u8]]) -> bool
    ensures { result ≡ list_all (is_in_header (named names.now)) aliases.now }
{
    aliases.iter().all(|alias| is_in_header(names, alias))
}

/// Whether each of our columns is there at most once.
fn are_once_at_most(kind: Kind, aliases: &[Alias], names: &[&[u8]]) -> bool
    ensures { result
        ≡ list_all (λ column. is_once_at_most aliases.now (named names.now) (column_name column))
        (snapshot_columns kind) }
{
    snapshot_columns(kind)
        .iter()
        .all(|column| is_once_at_most(aliases, names, column.name()))
}

/// Whether our column of this name is there.
fn is_there(aliases: &[Alias], names: &[&[u8]], ours: &str) -> bool
    ensures { result ≡ list_any (is_taken_for aliases.now ours.now) (named names.now) }
{
    names
        .iter()
        .any(|theirs| is_taken_for(aliases, ours, theirs))
}

/// Whether the names are the header of a snapshot of this kind.
fn is_header(kind: Kind, aliases: &[Alias], names: &[&[u8]]) -> bool
    ensures { result ≡ is_snapshot_header kind aliases.now (named names.now) }
{
    are_in_header(aliases, names)
        && are_once_at_most(kind, aliases, names)
        && is_there(aliases, names, name_column(kind))
}

/// Our columns in the header of a snapshot of this kind with these names.
fn places_of(kind: Kind, aliases: &[Alias], names: &[&[u8]]) -> Columns
    ensures { result ≡ snapshot_places kind aliases.now (named names.now) }
{
    Columns {
        count: names.len(),
        name: place_of(aliases, names, name_column(kind)),
        revision: None,
        texts: TEXT_FIELDS.map(|ours| place_of(aliases, names, ours)),
        status: place_of(aliases, names, "status"),
        members: place_of(aliases, names, "members"),
    }
}

/// The same. `None` if the names aren't the header of a snapshot of this kind.
fn snapshot_columns_of(kind: Kind, aliases: &[Alias], names: &[&[u8]]) -> Option<Columns>
    ensures { result ≡ snapshot_columns_of kind aliases.now (named names.now) }
{
    if is_header(kind, aliases, names) {
        Some(places_of(kind, aliases, names))
    } else {
        None
    }
}

/// The names that aren't of our columns.
fn ignored_in(
    alloc: Global,
    kind: Kind,
    aliases: &[Alias],
    names: &[&[u8]],
) -> Result<Vec<Vec<u8>>, AllocError>
    ensures { IfOk result (λ ignored. map (λ name. name.items) ignored.items
        ≡ ignored_in kind aliases.now (named names.now)) }
{
    let mut ignored = Vec::new(alloc);
    for theirs in names {
        if !is_ours(kind, aliases, theirs) {
            ignored.push(Vec::from_slice(alloc, theirs)?)?;
        }
    }
    Ok(ignored)
}

/// What the header of a snapshot says: where our columns are, and the names of the others.
#[derive(Drop)]
pub(crate) struct SnapshotHeader {
    pub(crate) columns: Columns,
    pub(crate) ignored: Vec<Vec<u8>>,
}

/// Reads the header of a snapshot of this kind.
pub(crate) fn read_snapshot_header(
    alloc: Global,
    kind: Kind,
    aliases: &[Alias],
    header: &ByteRecord,
) -> Result<SnapshotHeader, SourceFault>
    ensures columns { GivesBy (λ said. said.columns) SourceFault.Memory result
        (ok_or (snapshot_columns_of kind aliases.now (fields_of header.now)) SourceFault.Header) }
    ensures ignored { IfOk result (λ said. map (λ name. name.items) said.ignored.items
        ≡ ignored_in kind aliases.now (fields_of header.now)) }
{
    let names = names_of(alloc, header)?;
    match snapshot_columns_of(kind, aliases, &names) {
        Some(columns) => Ok(SnapshotHeader {
            columns,
            ignored: ignored_in(alloc, kind, aliases, &names)?,
        }),
        None => Err(SourceFault::Header),
    }
}
