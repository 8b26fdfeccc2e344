//! How many users a run would switch off.
ghost use Rattle.std.specs.Prelude.{◌≡◌, ◌∷◌, [], IfOk, OnOk};
ghost use Rattle.std.specs.List.{count_by};
ghost use Rattle.std.specs.Option.{option_copied};
ghost use Rattle.connector_core.specs.Maps.{BookMap, book_of};
ghost use Rattle.provisioning.specs.Leavers.{GoesAhead, IsAhead, TakesSources, group_rows, has_left, is_in_use, is_later, is_leaver, is_switched_off, last_in, last_of, leavers_by, names_in_use};
ghost use Rattle.provisioning.specs.Offering.{rows_in};

use crate::sources::{Source, Sources};
use connector_core::Connector;
use journal_core::Journal;
use scim_key::{Kind, RecordName, Revision};
use source_csv::{Row, RowFault};
use std::alloc::{AllocError, Global};
use std::collections::BTreeMap;

/// What the wanted row of a record says of it.
#[derive(Clone, Copy)]
pub(crate) struct Last {
    revision: Revision,
    /// Whether the row is of a user who left.
    has_left: bool,
}

impl Last {
    /// What this row says.
    fn of(row: &Row) -> Last
        ensures { result ≡ last_of row.now }
    {
        Last {
            revision: row.revision(),
            has_left: has_left(Some(row)),
        }
    }
}

/// What rows of files say of the records that a connector has, if the rows are later than the connector's.
#[derive(Drop)]
pub(crate) struct Ahead {
    later: BTreeMap<RecordName, Last>,
}

impl Ahead {
    /// No rows.
    fn new(alloc: Global) -> Ahead
        ensures { (book : BookMap) → IsAhead book result book }
    {
        Ahead {
            later: BTreeMap::new(alloc),
        }
    }

    /// What the wanted row of a record says after these rows, if the connector has the record.
    fn last<J: Journal>(&self, connector: &Connector<J>, name: &RecordName) -> Option<Last>
        ensures { result ≡ last_in self.now connector.now.book name.now }
    {
        match self.later.get(name) {
            Some(last) => Some(*last),
            None => match connector.row(name) {
                Some(row) => Some(Last::of(row)),
                None => None,
            },
        }
    }

    /// Whether this row is later than the wanted row of its record, and the connector has the record.
    fn is_later<J: Journal>(&self, connector: &Connector<J>, name: &RecordName, row: &Row) -> bool
        ensures { result ≡ is_later (last_in self.now connector.now.book name.now) row.now }
    {
        match self.last(connector, name) {
            Some(last) => last.revision.is_before(row.revision()),
            None => false,
        }
    }

    /// Takes one more row.
    fn take<J: Journal>(
        &mut self,
        alloc: Global,
        connector: &Connector<J>,
        row: &Row,
    ) -> Result<(), AllocError>
        ensures { OnOk result (GoesAhead connector.now.book self.old self.new (row.now ∷ [])) }
    {
        let name = row.record_name(alloc)?;
        if self.is_later(connector, &name, row) {
            self.later.insert(name, Last::of(row))?;
            return Ok(());
        }
        Ok(())
    }

    /// Takes the row of a record, if the record is one.
    fn take_record<J: Journal>(
        &mut self,
        alloc: Global,
        connector: &Connector<J>,
        said: &Result<Row, RowFault>,
    ) -> Result<(), AllocError>
        ensures { OnOk result
            (GoesAhead connector.now.book self.old self.new (rows_in (said.now ∷ []))) }
    {
        match said {
            Ok(row) => self.take(alloc, connector, row),
            Err(_) => Ok(()),
        }
    }

    /// Takes the rows among these records.
    fn take_all<J: Journal>(
        &mut self,
        alloc: Global,
        connector: &Connector<J>,
        records: &[Result<Row, RowFault>],
    ) -> Result<(), AllocError>
        ensures { OnOk result (GoesAhead connector.now.book self.old self.new (rows_in records.now)) }
    {
        for record in records {
            self.take_record(alloc, connector, record)?;
        }
        Ok(())
    }

    /// Takes the rows of a file of groups, if there is one.
    fn take_groups<J: Journal>(
        &mut self,
        alloc: Global,
        connector: &Connector<J>,
        groups: &Option<Source>,
    ) -> Result<(), AllocError>
        ensures { OnOk result
            (GoesAhead connector.now.book self.old self.new (group_rows groups.now)) }
    {
        match groups {
            Some(groups) => self.take_all(alloc, connector, groups.records()),
            None => Ok(()),
        }
    }

    /// Whether these rows switch off a record: a revision of it is confirmed, it isn't known to be off, and its wanted
    /// row says that the user left, at a revision that isn't confirmed.
    fn is_leaver<J: Journal>(&self, connector: &Connector<J>, name: &RecordName) -> bool
        ensures { result ≡ is_leaver self.now connector.now.book name.now }
    {
        match self.last(connector, name) {
            Some(last) => {
                last.has_left
                    && last.revision != connector.confirmed(name)
                    && is_in_use(connector, name)
            }
            None => false,
        }
    }
}

/// How many of these records the rows switch off.
fn leavers_among<J: Journal>(ahead: &Ahead, connector: &Connector<J>, names: &[RecordName]) -> usize
    ensures { result ≡ count_by (is_leaver ahead.now connector.now.book) names.now }
{
    names
        .iter()
        .filter(|name| ahead.is_leaver(connector, name))
        .count()
}

/// How many users a run over these files would switch off. A revision is confirmed of each of these users, they aren't
/// known to be off, and the row that is wanted after the files says that they left and isn't confirmed.
pub fn count_leavers<J: Journal>(
    alloc: Global,
    connector: &Connector<J>,
    sources: &Sources,
) -> Result<usize, AllocError>
    ensures { IfOk result (λ count. count ≡ leavers_by connector.now.book sources.now) }
{
    let mut ahead = Ahead::new(alloc);
    ahead.take_all(alloc, connector, sources.users.records())?;
    ahead.take_groups(alloc, connector, &sources.groups)?;
    let names = connector.names()?;
    Ok(leavers_among(&ahead, connector, names.as_slice()))
}

/// The users of whom a revision is confirmed, and who aren't known to be off.
pub(crate) fn names_in_use<J: Journal>(
    connector: &Connector<J>,
) -> Result<Vec<RecordName>, AllocError>
    ensures { IfOk result (λ names. names.items ≡ names_in_use connector.now.book) }
{
    let mut names = connector.names()?;
    names.retain(|name| is_in_use(connector, name));
    Ok(names)
}

/// Whether it is a user of whom a revision is confirmed, and who isn't known to be off.
fn is_in_use<J: Journal>(connector: &Connector<J>, name: &RecordName) -> bool
    ensures { result ≡ is_in_use (book_of connector.now.book) name.now }
{
    let confirmed = connector.confirmed(name);
    name.kind == Kind::User
        && confirmed != Revision::none()
        && !(has_left(connector.row(name)) && connector.wanted(name) == confirmed)
}

/// How many of these records have left at a revision that isn't confirmed.
pub(crate) fn switched_off<J: Journal>(connector: &Connector<J>, names: &[RecordName]) -> usize
    ensures { result ≡ count_by (is_switched_off (book_of connector.now.book)) names.now }
{
    names
        .iter()
        .filter(|name| is_switched_off(connector, name))
        .count()
}

/// Whether the wanted row says that the user left, at a revision that isn't confirmed.
pub(crate) fn is_switched_off<J: Journal>(connector: &Connector<J>, name: &RecordName) -> bool
    ensures { result ≡ is_switched_off (book_of connector.now.book) name.now }
{
    has_left(connector.row(name)) && connector.wanted(name) != connector.confirmed(name)
}

/// Whether this is the row of a user who left.
fn has_left(row: Option<&Row>) -> bool
    ensures { result ≡ has_left (option_copied row.entry) }
{
    match row {
        Some(Row::User(user)) => !user.is_active(),
        Some(Row::Group(_)) | None => false,
    }
}

/// A run that has offered the rows of its files has the book by which `count_leavers` counts.
pub fn sources_are_taken<J: Journal>()
    ensures { TakesSources J.Journal }
{}
