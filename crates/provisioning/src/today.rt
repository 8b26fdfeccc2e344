//! Snapshots among the files of a run: files of what holds today, without revisions.
ghost use Rattle.std.specs.Prelude.{◌≡◌, IfOk};
ghost use Rattle.provisioning.specs.Today.{IsNumbered, SaysToday, layout_of, view_of};

use crate::sources::{Source, without_rows};
use connector_core::Connector;
use journal_core::Journal;
use scim_key::Kind;
use snapshots::{Numbered, number};
use source_csv::{Layout, SnapshotFile, SourceFault, SourceRows, read_snapshot};
use std::alloc::{AllocError, Global};

/// How the snapshots of a run are laid out.
#[derive(Drop)]
pub struct Layouts {
    pub users: Layout,
    pub groups: Layout,
}

impl Layouts {
    /// How the one of this type is laid out.
    fn of(&self, kind: Kind) -> &Layout
        ensures { result.now ≡ layout_of self.now kind }
    {
        match kind {
            Kind::User => &self.users,
            Kind::Group => &self.groups,
        }
    }
}

/// What numbers the snapshots of a run.
#[derive_where(Clone, Copy)]
pub struct Today<'a, J: Journal> {
    pub layouts: &'a Layouts,
    /// A connector over the journal's entries: its wanted rows say which revision comes next, and who is absent.
    pub connector: &'a Connector<J>,
}

/// Reads a snapshot of this type from these bytes, and numbers its records.
pub(crate) fn read_today<J: Journal>(
    alloc: Global,
    kind: Kind,
    bytes: &[u8],
    today: Today<'_, J>,
) -> Result<Source, AllocError>
    ensures { IfOk result (SaysToday (view_of today.entry) kind bytes.now) }
{
    match read_snapshot(alloc, kind, today.layouts.of(kind), bytes) {
        Ok(file) => numbered(alloc, kind, file, today.connector),
        Err(SourceFault::Header) => Ok(without_rows(alloc, kind)),
        Err(SourceFault::Memory) => Err(AllocError),
    }
}

/// What a snapshot offers. A field over several lines may have swallowed records, for want of a quote.
fn numbered<J: Journal>(
    alloc: Global,
    kind: Kind,
    file: SnapshotFile,
    connector: &Connector<J>,
) -> Result<Source, AllocError>
    ensures { IfOk result (IsNumbered kind file connector.now.book) }
{
    let SnapshotFile {
        records,
        multiline,
        ignored,
        is_closed,
    } = file;
    let are_quotes_whole = is_closed && multiline.is_empty();
    let present = records.len();
    let offered = number(alloc, connector, kind, records, are_quotes_whole)?;
    let Numbered { rows, unsure } = offered;
    Ok(Source {
        kind,
        rows: Some(SourceRows::of(rows)),
        present,
        multiline,
        ignored,
        unsure,
    })
}
