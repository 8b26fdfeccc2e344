//! Files of the source, read one record at a time.
ghost use Rattle.std.specs.Prelude.{◌≡◌, ℕ, Bool, List, IfErr, IfOk, MatchResult, Some, false, true};
ghost use Rattle.csv.specs.Reading.{error_kind, has_failed, reader_config, reader_state, source_of, stops_reader, strip_bom};
ghost use Rattle.csv.specs.Records.{fields_of};
ghost use Rattle.csv.specs.declared.parser.State.TheVariants.{StartRecord};
ghost use Rattle.std.specs.Option.{option_map};
ghost use Rattle.source_csv.specs.Columns.{Record};
ghost use Rattle.source_csv.specs.Fields.{Reads, name_of};
ghost use Rattle.source_csv.specs.Files.{AreRecordsOf, columns_of, config_of, read_row};
ghost use Rattle.source_csv.specs.Opening.{HeaderRead, HeaderUnread, IsReadFault, Opens, read_fault, source_fault};
ghost use Rattle.source_csv.specs.Streams.{HasLeft, IsPlain, Leaves, Takes, last_record, last_row, place_after};
ghost use Rattle.source_csv.specs.declared.layouts.Separator.TheVariants.{Comma};

use crate::columns::Columns;
use crate::faults::{Refusal, Rejected, RowFault, SourceFault};
use crate::fields::{key_of_name, text_of};
use crate::groups::read_group;
use crate::headers::columns_of;
use crate::layouts::Separator;
use crate::rows::Row;
use crate::users::read_user;
use csv::{ByteRecord, ErrorKind, Reader, ReaderBuilder};
use scim_key::{Kind, RecordName};
use std::alloc::Global;
use std::io;
use std::io::Read;
use std::marker::Model;

/// Why a file wasn't read to its end.
#[derive(Clone, Copy)]
pub enum ReadFault {
    Source(SourceFault),
    /// A read failed; the error is the system's.
    Input(io::Error),
}

impl From<ReadFault> for SourceFault {
    ghost from_gives = { λ fault made. made ≡ source_fault fault };

    /// No read of bytes in memory fails.
    fn from(fault: ReadFault) -> SourceFault {
        match fault {
            ReadFault::Source(fault) => fault,
            ReadFault::Input(_) => SourceFault::Memory,
        }
    }
}

/// A file of the source, read one record at a time. It holds one record, and reads ahead by 8 KiB.
#[derive(Drop)]
pub struct RowReader<R: Read + Drop> {
    pub(crate) alloc: Global,
    pub(crate) kind: Kind,
    pub(crate) columns: Columns,
    pub(crate) place: usize,
    pub(crate) raw: ByteRecord,
    pub(crate) reader: Reader<R>,
}

impl<R: Read + Drop> Model for RowReader<R> {
    ghost use Rattle.std.specs.Prelude.{◌≡◌, false};
    ghost use Rattle.csv.specs.Reading.{has_failed, reader_config, reader_state, source_of};
    ghost use Rattle.csv.specs.Records.{fields_of};
    ghost use Rattle.source_csv.specs.Streams.{IsPlain, Standing};

    ghost Value = { Standing };

    ghost view = { λ s. record {
      kind = s.kind;
      columns = s.columns;
      place = s.place;
      fields = fields_of s.raw;
      config = reader_config s.reader;
      state = reader_state s.reader;
      remaining = source_of R.remaining s.reader;
    } };

    ghost invariant = { λ s. has_failed s.reader ≡ false → IsPlain s.reader };
}

/// The fault of an error that stops a reader. Records of any number of fields, which needn't be text, give
/// no other error.
fn fault_of(error: csv::Error) -> ReadFault
    requires { stops_reader (error_kind error) ≡ true }
    ensures { result ≡ read_fault (error_kind error) }
{
    match error.into_kind() {
        ErrorKind::Io(error) => ReadFault::Input(error),
        _ => ReadFault::Source(SourceFault::Memory),
    }
}

/// A reader of all records of a file with this separator, the header among them.
pub(crate) fn reader_over<R: Read>(alloc: Global, separator: Separator, source: R) -> Reader<R>
    ensures plain { IsPlain result }
    ensures config { reader_config result ≡ config_of separator }
    ensures state { reader_state result ≡ StartRecord }
    ensures source { source_of R.remaining result ≡ option_map strip_bom (R.remaining source) }
{
    ReaderBuilder::new()
        .has_headers(false)
        .flexible(true)
        .delimiter(separator.byte())
        .from_reader(alloc, source)
}

/// Reads the next record into `raw`, and returns whether there was one.
pub(crate) fn read_into<R: Read>(
    reader: &mut Reader<R>,
    raw: &mut ByteRecord,
) -> Result<bool, ReadFault>
    requires { has_failed reader.old ≡ false → IsPlain reader.old }
    ensures plain { has_failed reader.new ≡ false → IsPlain reader.new }
    ensures records { (records : List Record)
        → Leaves (reader_config reader.old) (source_of R.remaining reader.old)
        (reader_state reader.old) records
        → IfOk result
        (λ found. Takes found (fields_of raw.new) (reader_config reader.new)
        (source_of R.remaining reader.new) (reader_state reader.new) records) }
    ensures fault { IfErr result IsReadFault }
{
    match reader.read_byte_record(raw) {
        Ok(found) => Ok(found),
        Err(error) => Err(fault_of(error)),
    }
}

/// Reads the header of a file of this kind into `raw`, and returns its columns.
pub(crate) fn read_header<R: Read>(
    kind: Kind,
    reader: &mut Reader<R>,
    raw: &mut ByteRecord,
) -> Result<Columns, ReadFault>
    requires { has_failed reader.old ≡ false → IsPlain reader.old }
    ensures plain { has_failed reader.new ≡ false → IsPlain reader.new }
    ensures ok { (records : List Record)
        → Leaves (reader_config reader.old) (source_of R.remaining reader.old)
        (reader_state reader.old) records
        → IfOk result
        (λ columns. HeaderRead (columns_of kind) records columns (reader_config reader.new)
        (source_of R.remaining reader.new) (reader_state reader.new)) }
    ensures err { (records : List Record)
        → Leaves (reader_config reader.old) (source_of R.remaining reader.old)
        (reader_state reader.old) records
        → IfErr result (HeaderUnread kind records) }
{
    if !read_into(reader, raw)? {
        return Err(ReadFault::Source(SourceFault::Header));
    }
    match columns_of(kind, raw) {
        Some(columns) => Ok(columns),
        None => Err(ReadFault::Source(SourceFault::Header)),
    }
}

/// Reads a record of a file of this kind with these columns.
#[tactic(auto, unfolding(crate::specs::Files::read_row))]
fn read_row(
    alloc: Global,
    kind: Kind,
    columns: &Columns,
    raw: &mut ByteRecord,
) -> Result<Row, Refusal>
    ensures read { Reads result (read_row kind columns.now (fields_of raw.old)) }
    ensures kept { fields_of raw.new ≡ fields_of raw.old }
{
    match kind {
        Kind::User => Ok(Row::User(read_user(alloc, columns, raw)?)),
        Kind::Group => Ok(Row::Group(read_group(alloc, columns, raw)?)),
    }
}

/// The name of a record of a file of this kind with these columns, if it can be read.
#[tactic(auto, unfolding(crate::specs::Fields::name_of))]
fn record_name(
    alloc: Global,
    kind: Kind,
    columns: &Columns,
    raw: &ByteRecord,
) -> Result<Option<RecordName>, SourceFault>
    ensures { MatchResult result (λ name. name ≡ name_of kind columns.now (fields_of raw.now))
        (λ fault. fault ≡ SourceFault.Memory) }
{
    if raw.len() != columns.count {
        return Ok(None);
    }
    let Some(text) = text_of(columns.name_bytes(raw)) else {
        return Ok(None);
    };
    match key_of_name(alloc, kind, text) {
        Ok(key) => Ok(Some(RecordName { kind, key })),
        Err(Refusal::Refused(_)) => Ok(None),
        Err(Refusal::Memory) => Err(SourceFault::Memory),
    }
}

impl<R: Read + Drop> RowReader<R> {
    /// Reads the header of a file of this kind.
    pub fn open(alloc: Global, kind: Kind, source: R) -> Result<RowReader<R>, ReadFault>
        ensures rows { IfOk result (λ rows. (rows.kind ≡ kind) × (rows.place ≡ 0)) }
        ensures records { (bytes : List ℕ) → R.remaining source ≡ Some bytes
            → (records : List Record) → AreRecordsOf Comma bytes records
            → Opens kind records result }
    {
        let mut reader = reader_over(alloc, Separator::Comma, source);
        let mut raw = ByteRecord::new(alloc);
        let columns = read_header(kind, &mut reader, &mut raw)?;
        Ok(RowReader {
            alloc,
            kind,
            columns,
            place: 0,
            raw,
            reader,
        })
    }

    /// Reads the next record, and returns whether there was one. More records than `usize` counts are out of
    /// memory.
    pub fn read_next(&mut self) -> Result<bool, ReadFault>
        ensures kind { self.new.kind ≡ self.old.kind }
        ensures columns { self.new.columns ≡ self.old.columns }
        ensures place { IfOk result (λ found. self.new.place ≡ place_after found self.old.place) }
        ensures records { (records : List Record) → HasLeft self.old records
            → IfOk result
            (λ found. Takes found self.new.fields self.new.config self.new.remaining
            self.new.state records) }
        ensures fault { IfErr result IsReadFault }
    {
        let found = read_into(&mut self.reader, &mut self.raw)?;
        if found {
            self.place = match self.place.checked_add(1) {
                Some(place) => place,
                None => return Err(ReadFault::Source(SourceFault::Memory)),
            };
        }
        Ok(found)
    }

    /// The place of the last record, from 1 after the header.
    pub fn place(&self) -> usize
        ensures { result ≡ self.now.place }
    {
        self.place
    }

    /// The last record, or the header if none was read.
    pub fn record(&self) -> &ByteRecord
        ensures { fields_of result.now ≡ self.now.fields }
    {
        &self.raw
    }

    /// The row or the fault of the last record.
    pub fn row(&mut self) -> Result<Result<Row, RowFault>, SourceFault>
        ensures row { MatchResult result (λ row. row ≡ last_row self.old) (λ fault. fault
            ≡ SourceFault.Memory) }
        ensures rest { self.new ≡ record self.old { fields = self.new.fields } }
        ensures fields { self.new.fields ≡ self.old.fields }
    {
        let place = self.place;
        match read_row(self.alloc, self.kind, &self.columns, &mut self.raw) {
            Ok(row) => Ok(Ok(row)),
            Err(Refusal::Refused(code)) => Ok(Err(RowFault { place, code })),
            Err(Refusal::Memory) => Err(SourceFault::Memory),
        }
    }

    /// The row of the last record, or why it is rejected, and its name.
    pub(crate) fn record_said(&mut self) -> Result<Result<Row, Rejected>, SourceFault>
        ensures said { MatchResult result (λ said. said ≡ last_record self.old) (λ fault. fault
            ≡ SourceFault.Memory) }
        ensures rest { self.new ≡ record self.old { fields = self.new.fields } }
    {
        match self.row()? {
            Ok(row) => Ok(Ok(row)),
            Err(fault) => Ok(Err(Rejected {
                fault,
                name: record_name(self.alloc, self.kind, &self.columns, &self.raw)?,
            })),
        }
    }
}
