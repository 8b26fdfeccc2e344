//! What the lines of a plan compare the wanted rows with.
ghost use Rattle.std.specs.Prelude.{◌≡◌, ◌++◌, IfOk, OnOk, map};
ghost use Rattle.std.specs.BTreeSet.{contains};
ghost use Rattle.std.specs.Option.{option_copied};
ghost use Rattle.scim_key.specs.Records.{name_cmp};
ghost use Rattle.scim_key.specs.declared.records.RecordName.{RecordName as Name};
ghost use Rattle.source_csv.specs.Records.{row_name};
ghost use Rattle.connector_core.specs.Maps.{book_of};
ghost use Rattle.provisioning.specs.Bases.{IsBasis, absent_names, absent_names_if, all_absent, confirmed_row, is_absent, is_among, kept_more, kept_row, row_in};

use crate::offering::rows_in;
use crate::sources::{Source, Sources};
use connector_core::Connector;
use journal_core::Journal;
use scim_key::RecordName;
use source_csv::Row;
use std::alloc::{AllocError, Global};
use std::collections::{BTreeMap, BTreeSet};

/// What a plan compares the wanted rows with. It takes memory in proportion to all records.
#[derive(Drop)]
pub(crate) struct Basis {
    /// For each record its confirmed row, if the wanted row is confirmed.
    rows: BTreeMap<RecordName, Option<Row>>,
    /// Who is absent from a snapshot.
    absent: BTreeSet<RecordName>,
}

/// The row of a record that is confirmed.
fn confirmed_row<'a, J: Journal>(connector: &'a Connector<J>, name: &RecordName) -> Option<&'a Row>
    ensures { option_copied result ≡ confirmed_row (book_of connector.now.book) name.now }
{
    if connector.wanted(name) == connector.confirmed(name) {
        connector.row(name)
    } else {
        None
    }
}

/// A copy of a row.
fn copied(row: Option<&Row>) -> Result<Option<Row>, AllocError>
    ensures { IfOk result (λ copy. copy ≡ option_copied row.entry) }
{
    match row {
        Some(row) => Ok(Some(row.clone()?)),
        None => Ok(None),
    }
}

/// Keeps a row, or none, of one more record.
fn keep_row(
    rows: &mut BTreeMap<RecordName, Option<Row>>,
    name: RecordName,
    row: Option<&Row>,
) -> Result<(), AllocError>
    ensures { OnOk result ((other : Name) → kept_row rows.new other
        ≡ kept_more (kept_row rows.old) name (option_copied row.entry) other) }
{
    let copy = copied(row)?;
    rows.insert(name, copy)?;
    Ok(())
}

/// The confirmed rows of all records.
fn confirmed_rows<J: Journal>(
    alloc: Global,
    connector: &Connector<J>,
) -> Result<BTreeMap<RecordName, Option<Row>>, AllocError>
    ensures { IfOk result (λ rows. (name : Name) → kept_row rows name
        ≡ confirmed_row (book_of connector.now.book) name) }
{
    let mut rows = BTreeMap::new(alloc);
    for name in connector.names()? {
        let row = confirmed_row(connector, &name);
        keep_row(&mut rows, name, row)?;
    }
    Ok(rows)
}

/// The names of the records that these rows are of.
fn names_of(alloc: Global, rows: &[Row]) -> Result<Vec<RecordName>, AllocError>
    ensures { IfOk result (λ names. names.items ≡ map row_name rows.now) }
{
    let mut names = Vec::new(alloc);
    for row in rows {
        names.push(row.record_name(alloc)?)?;
    }
    Ok(names)
}

/// The names of the records that are absent from a file.
fn absent_names(alloc: Global, source: &Source) -> Result<Vec<RecordName>, AllocError>
    ensures { IfOk result (λ names. names.items ≡ absent_names source.now) }
{
    let rows = rows_in(alloc, source.absent())?;
    names_of(alloc, rows.as_slice())
}

/// The same of a file that there may be.
fn absent_names_if(alloc: Global, source: &Option<Source>) -> Result<Vec<RecordName>, AllocError>
    ensures { IfOk result (λ names. names.items ≡ absent_names_if source.now) }
{
    match source {
        Some(source) => absent_names(alloc, source),
        None => Ok(Vec::new(alloc)),
    }
}

/// The names of the records that are absent from these files.
fn all_absent(alloc: Global, sources: &Sources) -> Result<Vec<RecordName>, AllocError>
    ensures { IfOk result (λ names. names.items ≡ all_absent sources.now) }
{
    let mut names = absent_names(alloc, &sources.users)?;
    let mut groups = absent_names_if(alloc, &sources.groups)?;
    names.append(&mut groups)?;
    Ok(names)
}

/// Who is absent from these files.
fn absent_from(alloc: Global, sources: &Sources) -> Result<BTreeSet<RecordName>, AllocError>
    ensures { IfOk result (λ names. (name : Name) → contains name_cmp names name
        ≡ is_absent sources.now name) }
{
    all_absent(alloc, sources)?.into_iter().collect(alloc)
}

impl Basis {
    /// The confirmed rows of a connector, and who is absent from these files.
    pub(crate) fn of<J: Journal>(
        alloc: Global,
        connector: &Connector<J>,
        sources: &Sources,
    ) -> Result<Basis, AllocError>
        ensures { IfOk result (IsBasis sources.now connector.now.book) }
    {
        Ok(Basis {
            rows: confirmed_rows(alloc, connector)?,
            absent: absent_from(alloc, sources)?,
        })
    }

    /// The row of a record that was confirmed.
    pub(crate) fn row(&self, name: &RecordName) -> Option<&Row>
        ensures { option_copied result ≡ row_in self.now name.now }
    {
        match self.rows.get(name) {
            Some(Some(row)) => Some(row),
            Some(None) | None => None,
        }
    }

    /// Whether the record is absent from a snapshot.
    pub(crate) fn is_absent(&self, name: &RecordName) -> bool
        ensures { result ≡ is_among self.now name.now }
    {
        self.absent.contains(name)
    }
}
