//! Snapshots: files of what holds today, without revisions.
ghost use Rattle.std.specs.Prelude.{◌≡◌, ◌⊎◌, Err, IfErr, IfOk, List, map};
ghost use Rattle.scim_key.specs.Outcome.{GivesBy};
ghost use Rattle.source_csv.specs.Columns.{Record};
ghost use Rattle.source_csv.specs.Files.{AreRecordsOf};
ghost use Rattle.source_csv.specs.Lines.{multiline_of};
ghost use Rattle.source_csv.specs.Quotes.{is_closed};
ghost use Rattle.source_csv.specs.Snapshots.{SnapshotOpened, ignored_of, snapshot_of};

use crate::faults::{Rejected, SourceFault};
use crate::files::{Said, rest_of};
use crate::layouts::Layout;
use crate::missing_quotes::Multiline;
use crate::quotes::is_closed;
use crate::rows::Row;
use crate::snapshot_headers::{SnapshotHeader, read_snapshot_header};
use crate::streams::{RowReader, read_into, reader_over};
use csv::ByteRecord;
use scim_key::Kind;
use std::alloc::Global;

/// What a snapshot says.
#[derive(Drop)]
pub struct SnapshotFile {
    /// Its records, in order: each is a row at the first revision, or is rejected.
    pub records: Vec<Result<Row, Rejected>>,
    /// Those of them that have a field over several lines, in order.
    pub multiline: Vec<Multiline>,
    /// The names of the columns that are ignored, as the header spells them.
    pub ignored: Vec<Vec<u8>>,
    /// Whether no quote is open at its end.
    pub is_closed: bool,
}

/// A snapshot whose header was read.
#[derive(Drop)]
struct Opened<'a> {
    file: RowReader<&'a [u8]>,
    ignored: Vec<Vec<u8>>,
}

/// Reads the header of a snapshot of this kind.
fn open_snapshot<'a>(
    alloc: Global,
    kind: Kind,
    layout: &Layout,
    bytes: &'a [u8],
) -> Result<Opened<'a>, SourceFault>
    ensures file { IfOk result
        (λ opened. (opened.file.kind ≡ kind) × (opened.file.place ≡ 0)) }
    ensures ok { (records : List Record) → AreRecordsOf layout.now.separator bytes.now records
        → IfOk result (λ opened. SnapshotOpened kind layout.now.aliases.items records opened.file
        (map (λ name. name.items) opened.ignored.items)) }
    ensures err { (records : List Record) → AreRecordsOf layout.now.separator bytes.now records
        → IfErr result
        (λ fault. (fault ≡ SourceFault.Memory)
        ⊎ (snapshot_of kind layout.now.aliases.items records ≡ Err fault)) }
{
    let mut reader = reader_over(alloc, layout.separator, bytes);
    let mut raw = ByteRecord::new(alloc);
    if !read_into(&mut reader, &mut raw)? {
        return Err(SourceFault::Header);
    }
    let header = read_snapshot_header(alloc, kind, &layout.aliases, &raw)?;
    let SnapshotHeader { columns, ignored } = header;
    Ok(Opened {
        file: RowReader {
            alloc,
            kind,
            columns,
            place: 0,
            raw,
            reader,
        },
        ignored,
    })
}

/// Reads a snapshot of this kind. Its records are counted from 1 after the header.
pub fn read_snapshot(
    alloc: Global,
    kind: Kind,
    layout: &Layout,
    bytes: &[u8],
) -> Result<SnapshotFile, SourceFault>
    ensures records { (records : List Record)
        → AreRecordsOf layout.now.separator bytes.now records
        → GivesBy (λ said. said.records.items) SourceFault.Memory result
        (snapshot_of kind layout.now.aliases.items records) }
    ensures multiline { (records : List Record)
        → AreRecordsOf layout.now.separator bytes.now records
        → IfOk result (λ said. said.multiline.items ≡ multiline_of records) }
    ensures ignored { (records : List Record)
        → AreRecordsOf layout.now.separator bytes.now records
        → IfOk result (λ said. map (λ name. name.items) said.ignored.items
        ≡ ignored_of kind layout.now.aliases.items records) }
    ensures closed { IfOk result
        (λ said. said.is_closed ≡ is_closed layout.now.separator bytes.now) }
{
    let opened = open_snapshot(alloc, kind, layout, bytes)?;
    let Opened { mut file, ignored } = opened;
    let said = rest_of(alloc, &mut file)?;
    let Said { records, multiline } = said;
    Ok(SnapshotFile {
        records,
        multiline,
        ignored,
        is_closed: is_closed(layout.separator, bytes),
    })
}
