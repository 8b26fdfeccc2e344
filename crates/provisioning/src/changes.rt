//! What a row changes: the columns of its file whose fields aren't those of the row before.
ghost use Rattle.std.specs.Prelude.{◌≡◌, IfOk};
ghost use Rattle.std.specs.Option.{option_copied};
ghost use Rattle.provisioning.specs.Changes.{changes_from, changes_of, changes_text, columns_of, is_changed, is_changed_group, is_changed_user, more_text};

use source_csv::{Column, GROUP_SNAPSHOT, GroupRow, Row, USER_SNAPSHOT, UserRow};
use std::alloc::{AllocError, Global};
use std::fmt;

/// The columns of the file that the row is in, in their order.
fn columns_of(row: &Row) -> &'static [Column]
    ensures { result.now ≡ columns_of row.now }
{
    match row {
        Row::User(_) => &USER_SNAPSHOT,
        Row::Group(_) => &GROUP_SNAPSHOT,
    }
}

/// Whether a user's field in this column is another one, but for the status.
fn is_changed_user(before: &UserRow, after: &UserRow, column: Column) -> bool
    ensures { result ≡ is_changed_user before.now after.now column }
{
    match column {
        Column::Login => before.login().as_str() != after.login().as_str(),
        Column::Text(text) => before.text(text) != after.text(text),
        Column::Status | Column::Name | Column::Members => false,
    }
}

/// Whether a group's field in this column is another one, but for the members.
fn is_changed_group(before: &GroupRow, after: &GroupRow, column: Column) -> bool
    ensures { result ≡ is_changed_group before.now after.now column }
{
    match column {
        Column::Name => before.name().as_str() != after.name().as_str(),
        Column::Login | Column::Text(_) | Column::Status | Column::Members => false,
    }
}

/// Whether the field in this column is another one, but for the status and the members.
fn is_changed(before: &Row, after: &Row, column: Column) -> bool
    ensures { result ≡ is_changed before.now after.now column }
{
    match (before, after) {
        (Row::User(before), Row::User(after)) => is_changed_user(before, after, column),
        (Row::Group(before), Row::Group(after)) => is_changed_group(before, after, column),
        (Row::User(_), Row::Group(_)) | (Row::Group(_), Row::User(_)) => false,
    }
}

/// The columns in which the row says something else than the row before, but the status and the members.
fn changes_of(alloc: Global, before: &Row, after: &Row) -> Result<Vec<Column>, AllocError>
    ensures { IfOk result (λ columns. columns.items ≡ changes_of before.now after.now) }
{
    let mut columns = Vec::from_slice(alloc, columns_of(after))?;
    columns.retain(|column| is_changed(before, after, *column));
    Ok(columns)
}

/// The same; none if no row before is known.
pub(crate) fn changes_from(
    alloc: Global,
    before: Option<&Row>,
    after: &Row,
) -> Result<Vec<Column>, AllocError>
    ensures { IfOk result (λ columns. columns.items
        ≡ changes_from (option_copied before.entry) after.now) }
{
    match before {
        Some(before) => changes_of(alloc, before, after),
        None => Ok(Vec::new(alloc)),
    }
}

/// The names of further columns: `, mail, department`.
#[derive(Clone, Copy)]
struct More<'a>(&'a [Column]);

impl<'a> fmt::Display for More<'a> {
    ghost use Rattle.std.specs.Prelude.{Some};

    ghost output = { λ more. Some (more_text more.0.now) };

    fn fmt<W: fmt::Write>(&self, f: &mut fmt::Formatter<W>) -> fmt::Result {
        for column in self.0 {
            write!(f, ", {}", column.name())?;
        }
        Ok(())
    }
}

/// The names of changed columns: `: given, mail, department`; nothing if there is none.
#[derive(Clone, Copy)]
pub(crate) struct Changes<'a>(pub(crate) &'a [Column]);

impl<'a> fmt::Display for Changes<'a> {
    ghost use Rattle.std.specs.Prelude.{Some};

    ghost output = { λ changes. Some (changes_text changes.0.now) };

    fn fmt<W: fmt::Write>(&self, f: &mut fmt::Formatter<W>) -> fmt::Result {
        match self.0.split_first() {
            Some((first, more)) => write!(f, ": {}{}", first.name(), More(more)),
            None => Ok(()),
        }
    }
}
