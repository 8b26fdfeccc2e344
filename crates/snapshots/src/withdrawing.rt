//! Rows that withdraw a record: a user is switched off, and a group is emptied.
ghost use Rattle.std.specs.Prelude.{◌≡◌, IfOk, [], false};
ghost use Rattle.snapshots.specs.Snapshots.{is_in_force as in_force, numbered_withdrawn, withdrawn as row_withdrawn};

use crate::rows::{at_place, row_after};
use source_csv::{GroupRow, Row, RowFault, UserRow};
use std::alloc::{AllocError, Global};

/// Whether somebody may lose something by the row: an active user, or a group that has members.
pub(crate) fn is_in_force(row: &Row) -> bool
    ensures { result ≡ in_force row.now }
{
    match row {
        Row::User(row) => row.is_active(),
        Row::Group(row) => row.members().len() > 0,
    }
}

/// The user's row with status `left`.
fn withdrawn_user(row: &UserRow) -> Result<UserRow, AllocError>
    ensures { IfOk result (λ left. left ≡ record row.now { active = false }) }
{
    let (login, revision, texts, _) = row.clone()?.into_parts();
    match UserRow::new(login, revision, texts, false) {
        Some(left) => Ok(left),
        None => unreachable!(),
    }
}

/// The group's row without members.
fn withdrawn_group(alloc: Global, row: &GroupRow) -> Result<GroupRow, AllocError>
    ensures { IfOk result (λ left. left ≡ record row.now { members = [] }) }
{
    let name = row.name().clone()?;
    match GroupRow::new(name, row.revision(), Vec::new(alloc)) {
        Some(left) => Ok(left),
        None => unreachable!(),
    }
}

/// The row with status `left`, or without members.
fn withdrawn(alloc: Global, row: &Row) -> Result<Row, AllocError>
    ensures { IfOk result (λ left. left ≡ row_withdrawn row.now) }
{
    match row {
        Row::User(row) => Ok(Row::User(withdrawn_user(row)?)),
        Row::Group(row) => Ok(Row::Group(withdrawn_group(alloc, row)?)),
    }
}

/// The row that withdraws an absent record.
pub(crate) fn number_withdrawn(
    alloc: Global,
    place: usize,
    wanted: &Row,
) -> Result<Result<Row, RowFault>, AllocError>
    ensures { IfOk result (λ numbered. numbered ≡ numbered_withdrawn place wanted.now) }
{
    let row = withdrawn(alloc, wanted)?;
    Ok(at_place(place, row_after(wanted.revision(), row)))
}
