//! The files of a run.
ghost use Rattle.std.specs.Prelude.{◌≡◌, IfOk, MatchResult, is_ok};
ghost use Rattle.std.specs.List.{list_all};
ghost use Rattle.scim_key.specs.declared.records.Kind.TheVariants.{Group};
ghost use Rattle.provisioning.specs.Reading.{FailsAt, FailsBy, FailsIfNamed, IsReadFrom, IsReadIfNamed, ReadsSources, SaysAs};
ghost use Rattle.provisioning.specs.Sources.{IsWithoutRows, Says, absent_in, are_whole, is_whole, label, path_in, records_of};
ghost use Rattle.provisioning.specs.Today.{numbering_in};

use crate::doubts::{tell_header, tell_ignored, tell_unsure};
use crate::files::ReadFiles;
use crate::today::{Today, read_today};
use journal_core::Journal;
use scim_key::Kind;
use snapshots::Unsure;
use source_csv::{Multiline, Row, RowFault, SourceFault, SourceFile, SourceRows, read_file};
use std::alloc::{AllocError, Global};
use std::io;
use std::io::Eprint;

/// What a file says about the records of a type.
#[derive(Drop)]
pub struct Source {
    pub kind: Kind,
    /// Its records; none if its header isn't that of such a file (S1).
    pub rows: Option<SourceRows>,
    /// How many of these are in the file. The others are absent from a snapshot, and come after them.
    pub present: usize,
    /// Those with a field over several lines, in order.
    pub multiline: Vec<Multiline>,
    /// The names of the columns of a snapshot that are ignored, as its header spells them.
    pub ignored: Vec<Vec<u8>>,
    /// Why it isn't certain who is absent from a snapshot, so that nobody who is absent is switched off.
    pub unsure: Option<Unsure>,
}

/// The files of a run.
#[derive(Drop)]
pub struct Sources {
    pub users: Source,
    pub groups: Option<Source>,
}

/// A file that can't be read, and the system's error.
#[derive(Clone, Copy)]
pub struct UnreadFile {
    pub kind: Kind,
    pub error: io::Error,
}

/// Whether each record is a row.
fn all_rows(records: &[Result<Row, RowFault>]) -> bool
    ensures { result ≡ list_all is_ok records.now }
{
    records.iter().all(|record| record.is_ok())
}

impl Source {
    /// The records of the file; the one at place 1 comes first.
    pub fn records(&self) -> &[Result<Row, RowFault>]
        ensures { result.now ≡ records_of self.now }
    {
        match &self.rows {
            Some(rows) => rows.as_slice(),
            None => &[],
        }
    }

    /// The records that are absent from the file, which is a snapshot then.
    pub(crate) fn absent(&self) -> &[Result<Row, RowFault>]
        ensures { result.now ≡ absent_in self.now }
    {
        self.records().get(self.present..).unwrap_or(&[])
    }

    /// Whether the file has its header, each of its records is a row, and it is certain who is absent.
    pub fn is_whole(&self) -> bool
        ensures { result ≡ is_whole self.now }
    {
        match &self.rows {
            Some(rows) => all_rows(rows.as_slice()) && self.unsure.is_none(),
            None => false,
        }
    }
}

impl Sources {
    /// Whether each file is whole.
    pub fn are_whole(&self) -> bool
        ensures { result ≡ are_whole self.now }
    {
        match &self.groups {
            Some(groups) => self.users.is_whole() && groups.is_whole(),
            None => self.users.is_whole(),
        }
    }
}

/// A file of this type whose header is wrong.
pub(crate) fn without_rows(alloc: Global, kind: Kind) -> Source
    ensures { IsWithoutRows kind result }
{
    Source {
        kind,
        rows: None,
        present: 0,
        multiline: Vec::new(alloc),
        ignored: Vec::new(alloc),
        unsure: None,
    }
}

/// Reads a file of revisions of this type from these bytes.
fn read_revisions(alloc: Global, kind: Kind, bytes: &[u8]) -> Result<Source, AllocError>
    ensures { IfOk result (Says kind bytes.now) }
{
    match read_file(alloc, kind, bytes) {
        Ok(SourceFile { rows, multiline }) => Ok(Source {
            kind,
            present: rows.as_slice().len(),
            rows: Some(rows),
            multiline,
            ignored: Vec::new(alloc),
            unsure: None,
        }),
        Err(SourceFault::Header) => Ok(without_rows(alloc, kind)),
        Err(SourceFault::Memory) => Err(AllocError),
    }
}

/// Reads a file of this type from these bytes: a snapshot, if something numbers it.
pub fn read_source<J: Journal>(
    alloc: Global,
    kind: Kind,
    bytes: &[u8],
    today: Option<Today<'_, J>>,
) -> Result<Source, AllocError>
    ensures { IfOk result (SaysAs (numbering_in today.entry) kind bytes.now) }
{
    match today {
        Some(today) => read_today(alloc, kind, bytes, today),
        None => read_revisions(alloc, kind, bytes),
    }
}

/// Reads the files, the one of users first: snapshots, if something numbers them. It reports on standard error which
/// records are rejected, and which have a field over several lines; and of a snapshot which columns are ignored, what
/// its first line is if that isn't a header, and why nobody who is absent is switched off, if so.
pub fn read_sources<R: ReadFiles + Eprint + AllocGlobal, J: Journal>(
    rt: &R,
    users: &str,
    groups: Option<&str>,
    today: Option<Today<'_, J>>,
) -> Result<Sources, UnreadFile>
    ensures { ReadsSources R.gives rt.now (numbering_in today.entry) users.now (path_in groups.entry)
        result }
{
    let users = source_in(rt, Kind::User, users, today)?;
    let groups = groups_in(rt, groups, today)?;
    Ok(Sources { users, groups })
}

/// Reads the file of groups, if there is one.
fn groups_in<R: ReadFiles + Eprint + AllocGlobal, J: Journal>(
    rt: &R,
    groups: Option<&str>,
    today: Option<Today<'_, J>>,
) -> Result<Option<Source>, UnreadFile>
    ensures { MatchResult result
        (IsReadIfNamed R.gives rt.now (numbering_in today.entry) Group (path_in groups.entry))
        (FailsIfNamed R.gives rt.now Group (path_in groups.entry)) }
{
    let Some(path) = groups else {
        return Ok(None);
    };
    match source_in(rt, Kind::Group, path, today) {
        Ok(source) => Ok(Some(source)),
        Err(unread) => Err(unread),
    }
}

/// Reads a file.
fn source_in<R: ReadFiles + Eprint + AllocGlobal, J: Journal>(
    rt: &R,
    kind: Kind,
    path: &str,
    today: Option<Today<'_, J>>,
) -> Result<Source, UnreadFile>
    ensures { MatchResult result (IsReadFrom R.gives rt.now (numbering_in today.entry) kind path.now)
        (FailsAt R.gives rt.now kind path.now) }
{
    match told_source(rt, kind, path, today) {
        Ok(source) => Ok(source),
        Err(error) => Err(UnreadFile { kind, error }),
    }
}

/// Reads a file, and reports what it rejects.
fn told_source<R: ReadFiles + Eprint + AllocGlobal, J: Journal>(
    rt: &R,
    kind: Kind,
    path: &str,
    today: Option<Today<'_, J>>,
) -> io::Result<Source>
    ensures { MatchResult result (IsReadFrom R.gives rt.now (numbering_in today.entry) kind path.now)
        (FailsBy R.gives rt.now path.now) }
{
    let bytes = rt.bytes_at(path)?;
    let source = read_source(rt.alloc(), kind, bytes.as_slice(), today)?;
    tell_refused(rt, &source);
    tell_multiline(rt, &source);
    if today.is_some() {
        tell_header(rt, &source, bytes.as_slice());
        tell_ignored(rt, &source);
        tell_unsure(rt, &source);
    }
    Ok(source)
}

/// The word for files of this type in printed lines.
pub fn label(kind: Kind) -> &'static str
    ensures { result.now ≡ label kind }
{
    match kind {
        Kind::User => "users",
        Kind::Group => "groups",
    }
}

/// Reports the rejected records of a file.
fn tell_refused(rt: &impl Eprint, source: &Source) {
    let label = label(source.kind);
    if source.rows.is_none() {
        let fault = SourceFault::Header;
        let _ = eprintln!(rt; "{label}: {fault}");
    }
    for record in source.records() {
        if let Err(fault) = record {
            let _ = eprintln!(rt; "{label} {fault}");
        }
    }
}

/// Reports the records of a file that have a field over several lines: a quote may be missing there.
fn tell_multiline(rt: &impl Eprint, source: &Source) {
    let label = label(source.kind);
    for found in source.multiline.as_slice() {
        let _ = eprintln!(rt; "{label} {found}");
    }
}
