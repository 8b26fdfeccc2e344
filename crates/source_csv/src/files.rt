//! Files of the source that are in memory.
ghost use Rattle.std.specs.Prelude.{◌≡◌, ◌++◌, IfErr, IfOk, List, Ok, OnOk, map, option_to_list};
ghost use Rattle.scim_key.specs.Outcome.{Gives, GivesBy};
ghost use Rattle.source_csv.specs.Columns.{Record};
ghost use Rattle.source_csv.specs.Files.{AreRecordsOf, FilesHaveRecords, rows_of};
ghost use Rattle.source_csv.specs.Lines.{multiline_at, multiline_of};
ghost use Rattle.source_csv.specs.Streams.{Adds, HasLeft, multiline_next, records_next};
ghost use Rattle.source_csv.specs.Rejections.{without_name};
ghost use Rattle.source_csv.specs.declared.layouts.Separator.TheVariants.{Comma};

use crate::faults::{Rejected, RowFault, SourceFault};
use crate::missing_quotes::{Multiline, multiline_at};
use crate::rows::Row;
use crate::streams::RowReader;
use scim_key::Kind;
use std::alloc::{AllocError, Global};
use std::marker::Model;

/// The records of a file, in order: each is a row or is rejected.
#[derive(Drop)]
pub struct SourceRows {
    rows: Vec<Result<Row, RowFault>>,
}

impl Model for SourceRows {
    ghost use Rattle.std.specs.Prelude.{List, Result};
    ghost use Rattle.source_csv.specs.declared.rows.Row.{Row};
    ghost use Rattle.source_csv.specs.declared.faults.RowFault.{RowFault};

    ghost Value = { List (Result Row RowFault) };

    ghost view = { λ s. s.rows.items };
}

impl SourceRows {
    /// These records.
    pub fn of(rows: Vec<Result<Row, RowFault>>) -> SourceRows
        ensures { result ≡ rows.items }
    {
        SourceRows { rows }
    }

    /// The records; the one at place 1 comes first.
    pub fn as_slice(&self) -> &[Result<Row, RowFault>]
        ensures { result.now ≡ self.now }
    {
        self.rows.as_slice()
    }

    /// The records; the one at place 1 comes first.
    pub fn into_vec(self) -> Vec<Result<Row, RowFault>>
        ensures { result.items ≡ self }
    {
        let SourceRows { rows } = self;
        rows
    }
}

/// What a file says: its records, and which of them have a field over several lines, in order.
#[derive(Drop)]
pub struct SourceFile {
    pub rows: SourceRows,
    pub multiline: Vec<Multiline>,
}

/// Marks the last record if it has a field over several lines.
fn mark(file: &RowReader<&[u8]>, multiline: &mut Vec<Multiline>) -> Result<(), SourceFault>
    ensures marks { OnOk result (multiline.new.items ≡ multiline.old.items
        ++ option_to_list (multiline_at file.now.place file.now.fields)) }
    ensures err { IfErr result (λ fault. fault ≡ SourceFault.Memory) }
{
    if let Some(found) = multiline_at(file.place(), file.record()) {
        multiline.push(found)?;
    }
    Ok(())
}

/// Reads the next record, adds what it says, marks it if it has a field over several lines, and returns
/// whether there was one.
fn add_next(
    file: &mut RowReader<&[u8]>,
    records: &mut Vec<Result<Row, Rejected>>,
    multiline: &mut Vec<Multiline>,
) -> Result<bool, SourceFault>
    ensures adds { (left : List Record) → HasLeft file.old left
        → IfOk result (λ found. Adds found file.old file.new records.old.items records.new.items
        multiline.old.items multiline.new.items left) }
    ensures err { IfErr result (λ fault. fault ≡ SourceFault.Memory) }
{
    if !file.read_next()? {
        return Ok(false);
    }
    mark(file, multiline)?;
    records.push(file.record_said()?)?;
    Ok(true)
}

/// What the records of a file say, and which of them have a field over several lines, in order.
#[derive(Drop)]
pub(crate) struct Said {
    pub(crate) records: Vec<Result<Row, Rejected>>,
    pub(crate) multiline: Vec<Multiline>,
}

/// What the records say that weren't read yet. More than `u64` counts are out of memory.
pub(crate) fn rest_of(alloc: Global, file: &mut RowReader<&[u8]>) -> Result<Said, SourceFault>
    ensures records { (left : List Record) → HasLeft file.old left
        → GivesBy (λ said. said.records.items) SourceFault.Memory result
        (Ok (records_next file.old left)) }
    ensures multiline { (left : List Record) → HasLeft file.old left
        → IfOk result (λ said. said.multiline.items ≡ multiline_next file.old left) }
    ensures err { IfErr result (λ fault. fault ≡ SourceFault.Memory) }
{
    let mut records = Vec::new(alloc);
    let mut multiline = Vec::new(alloc);
    for _ in 0..u64::MAX {
        if !add_next(file, &mut records, &mut multiline)? {
            return Ok(Said { records, multiline });
        }
    }
    Err(SourceFault::Memory)
}

/// The same records without the names of those that are rejected.
fn rows_of(
    alloc: Global,
    records: Vec<Result<Row, Rejected>>,
) -> Result<Vec<Result<Row, RowFault>>, AllocError>
    ensures { IfOk result (λ rows. rows.items ≡ map without_name records.items) }
{
    let mut rows = Vec::with_capacity(alloc, records.len())?;
    for record in records {
        rows.push(record.map_err(|rejected| rejected.fault))?;
    }
    Ok(rows)
}

/// Reads a file of this kind. Its records are counted from 1 after the header.
pub fn read_file(alloc: Global, kind: Kind, bytes: &[u8]) -> Result<SourceFile, SourceFault>
    ensures rows { (records : List Record) → AreRecordsOf Comma bytes.now records
        → GivesBy (λ said. said.rows) SourceFault.Memory result (rows_of kind records) }
    ensures multiline { (records : List Record) → AreRecordsOf Comma bytes.now records
        → IfOk result (λ said. said.multiline.items ≡ multiline_of records) }
{
    let mut file = RowReader::open(alloc, kind, bytes)?;
    let said = rest_of(alloc, &mut file)?;
    let Said { records, multiline } = said;
    let rows = rows_of(alloc, records)?;
    Ok(SourceFile {
        rows: SourceRows { rows },
        multiline,
    })
}

/// The rows of a file of this kind. Its records are counted from 1 after the header.
pub fn read_rows(alloc: Global, kind: Kind, bytes: &[u8]) -> Result<SourceRows, SourceFault>
    ensures { (records : List Record) → AreRecordsOf Comma bytes.now records
        → Gives SourceFault.Memory result (rows_of kind records) }
{
    match read_file(alloc, kind, bytes) {
        Ok(SourceFile { rows, multiline: _ }) => Ok(rows),
        Err(fault) => Err(fault),
    }
}

/// Each file has exactly one list of records, which the contracts of `read_rows` and `read_snapshot` are
/// about.
pub fn files_have_records()
    ensures { FilesHaveRecords }
{}
