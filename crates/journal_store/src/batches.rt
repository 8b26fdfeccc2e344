//! Puts rows by one transaction, all of them or none.
ghost use Rattle.std.specs.Prelude.{◌≡◌, true, IfOk, OnOk};
ghost use Rattle.sqlite.specs.Held.{state};
ghost use Rattle.sqlite.specs.State.{HasCleanDisk, IsUnchanged, Survives};
ghost use Rattle.sqlite.specs.Values.{bound};
ghost use Rattle.source_csv.specs.Records.{row_name};
ghost use Rattle.source_csv.specs.Rows.{IsGroupRow, IsUserRow};
ghost use Rattle.source_csv.specs.declared.rows.Row.TheVariants.{User, Group};
ghost use Rattle.journal_core.specs.Entries.{CanPutRows};
ghost use Rattle.journal_store.specs.Rows.{entries_in, row_by};
ghost use Rattle.sql_tables.specs.Statements.{GoesOn, LeavesStore, Ran, WhileOpen};
ghost use Rattle.journal_store.specs.Batches.{IsUnderWay, PutsRow, PutsRows, settled};
ghost use Rattle.journal_store.specs.Connections.{ChangesOnce, Finds, HasNumbers, IsEditText, IsLaid, IsThere, Makes};

use crate::statements::TableFault;
use crate::tables::{
    find_statement, group_params, kind_of, learnt_of, members_text, only, put_statement,
    text_param, user_params,
};
use journal_core::Entry;
use scim_key::{Kind, RecordName, ResourceId, Revision};
use source_csv::{GroupRow, Row as SourceRow, UserRow};
use sqlite::{Alter, Connection, Transaction};
use sqlite_value::value::ValueRef;
use std::alloc::Global;

// ---- inside a transaction

/// Checks that the store is open: the end of an empty transaction doesn't show it.
pub(crate) fn check_open<S: Alter>(tables: &mut Transaction<'_, S>) -> Result<(), TableFault>
    ensures same_reference { tables.new.conn.ghost_name ≡ tables.old.conn.ghost_name }
    ensures same { HasCleanDisk (state S.Store tables.new.conn.now)
        → OnOk result
        (IsUnchanged (state S.Store tables.old.conn.now) (state S.Store tables.new.conn.now)) }
    ensures left { HasCleanDisk (state S.Store tables.new.conn.now)
        → LeavesStore (state S.Store tables.old.conn.now) (state S.Store tables.new.conn.now) }
    ensures quiet { Survives (state S.Store tables.old.conn.now) (state S.Store tables.new.conn.now)
        (λ _. ⊥) }
{
    match tables.prepare(find_statement(Kind::User)) {
        Ok(_) => Ok(()),
        Err(error) => Err(TableFault::from(error)),
    }
}

/// The entry with this name.
pub(crate) fn find_in<S: Alter>(
    alloc: Global,
    tables: &mut Transaction<'_, S>,
    name: &RecordName,
) -> Result<Option<Entry>, TableFault>
    requires under_way { IsUnderWay (state S.Store tables.old.conn.now) }
    ensures same_reference { tables.new.conn.ghost_name ≡ tables.old.conn.ghost_name }
    ensures found { HasCleanDisk (state S.Store tables.new.conn.now)
        → IfOk result (Finds (state S.Store tables.old.conn.now).now.trees name.now) }
    ensures same { HasCleanDisk (state S.Store tables.new.conn.now)
        → OnOk result
        (IsUnchanged (state S.Store tables.old.conn.now) (state S.Store tables.new.conn.now)) }
    ensures left { HasCleanDisk (state S.Store tables.new.conn.now)
        → LeavesStore (state S.Store tables.old.conn.now) (state S.Store tables.new.conn.now) }
    ensures quiet { Survives (state S.Store tables.old.conn.now) (state S.Store tables.new.conn.now)
        (λ _. ⊥) }
{
    match tables.query_all(find_statement(name.kind), &[text_param(name.key.as_str())]) {
        Ok(rows) => only(alloc, name.kind, rows.as_slice()),
        Err(error) => Err(TableFault::from(error)),
    }
}

/// Runs one write.
pub(crate) fn write_in<S: Alter>(
    tables: &mut Transaction<'_, S>,
    sql: &str,
    params: &[ValueRef<'_>],
) -> Result<(), TableFault>
    requires edit { IsEditText sql.now }
    requires under_way { IsUnderWay (state S.Store tables.old.conn.now) }
    ensures same_reference { tables.new.conn.ghost_name ≡ tables.old.conn.ghost_name }
    ensures ran { HasCleanDisk (state S.Store tables.new.conn.now)
        → OnOk result
        (Ran sql.now (bound params.now) (settled (state S.Store tables.old.conn.now))
        (settled (state S.Store tables.new.conn.now))) }
    ensures goes_on { GoesOn (state S.Store tables.old.conn.now) (state S.Store tables.new.conn.now)
        result }
{
    match tables.execute(sql, params) {
        Ok(_) => Ok(()),
        Err(error) => Err(TableFault::from(error)),
    }
}

/// Runs a write with the columns of a user's entry.
fn write_user_in<S: Alter>(
    alloc: Global,
    tables: &mut Transaction<'_, S>,
    sql: &str,
    user: &UserRow,
    confirmed: Revision,
    id: &Option<ResourceId>,
) -> Result<(), TableFault>
    requires edit { IsEditText sql.now }
    requires under_way { IsUnderWay (state S.Store tables.old.conn.now) }
    ensures lawful { IsUserRow user.now }
    ensures same_reference { tables.new.conn.ghost_name ≡ tables.old.conn.ghost_name }
    ensures ran { HasCleanDisk (state S.Store tables.new.conn.now)
        → OnOk result
        (Ran sql.now (row_by (User user.now) confirmed id.now)
        (settled (state S.Store tables.old.conn.now))
        (settled (state S.Store tables.new.conn.now))) }
    ensures goes_on { GoesOn (state S.Store tables.old.conn.now) (state S.Store tables.new.conn.now)
        result }
{
    let revision = user.revision();
    let key = user.login().key(alloc)?;
    let params = user_params(alloc, &key, user, revision, confirmed, id)?;
    write_in(tables, sql, params.as_slice())
}

/// Runs a write with the columns of a group's entry.
fn write_group_in<S: Alter>(
    alloc: Global,
    tables: &mut Transaction<'_, S>,
    sql: &str,
    group: &GroupRow,
    confirmed: Revision,
    id: &Option<ResourceId>,
) -> Result<(), TableFault>
    requires edit { IsEditText sql.now }
    requires under_way { IsUnderWay (state S.Store tables.old.conn.now) }
    ensures lawful { IsGroupRow group.now }
    ensures same_reference { tables.new.conn.ghost_name ≡ tables.old.conn.ghost_name }
    ensures ran { HasCleanDisk (state S.Store tables.new.conn.now)
        → OnOk result
        (Ran sql.now (row_by (Group group.now) confirmed id.now)
        (settled (state S.Store tables.old.conn.now))
        (settled (state S.Store tables.new.conn.now))) }
    ensures goes_on { GoesOn (state S.Store tables.old.conn.now) (state S.Store tables.new.conn.now)
        result }
{
    let revision = group.revision();
    let key = group.name().key(alloc)?;
    let members = members_text(alloc, group.members())?;
    write_in(
        tables,
        sql,
        &group_params(&key, members.as_str(), group, revision, confirmed, id),
    )
}

/// Puts an entry, by one statement: replaces the row with its key if there is one, otherwise adds a row.
pub(crate) fn put_entry_in<S: Alter>(
    alloc: Global,
    tables: &mut Transaction<'_, S>,
    is_there: bool,
    row: &SourceRow,
    confirmed: Revision,
    id: &Option<ResourceId>,
) -> Result<(), TableFault>
    requires under_way { IsUnderWay (state S.Store tables.old.conn.now) }
    requires there { WhileOpen (λ s. is_there ≡ true → IsThere s.now.trees (row_name row.now))
        (state S.Store tables.old.conn.now) }
    ensures same_reference { tables.new.conn.ghost_name ≡ tables.old.conn.ghost_name }
    ensures made { HasCleanDisk (state S.Store tables.new.conn.now)
        → OnOk result
        (Makes is_there (record { row = row.now; confirmed = confirmed; id = id.now })
        (settled (state S.Store tables.old.conn.now))
        (settled (state S.Store tables.new.conn.now))) }
    ensures goes_on { GoesOn (state S.Store tables.old.conn.now) (state S.Store tables.new.conn.now)
        result }
{
    let sql = put_statement(kind_of(row), is_there);
    match row {
        SourceRow::User(user) => write_user_in(alloc, tables, sql, user, confirmed, id),
        SourceRow::Group(group) => write_group_in(alloc, tables, sql, group, confirmed, id),
    }
}

/// Puts a row. The entry of its record keeps everything else.
fn put_in<S: Alter>(
    alloc: Global,
    tables: &mut Transaction<'_, S>,
    row: &SourceRow,
) -> Result<(), TableFault>
    requires under_way { IsUnderWay (state S.Store tables.old.conn.now) }
    requires numbers { WhileOpen (λ s. HasNumbers s.now.trees) (state S.Store tables.old.conn.now) }
    ensures same_reference { tables.new.conn.ghost_name ≡ tables.old.conn.ghost_name }
    ensures put { HasCleanDisk (state S.Store tables.new.conn.now)
        → OnOk result
        (PutsRow row.now (state S.Store tables.old.conn.now).now.trees
        (state S.Store tables.new.conn.now).now.trees) }
    ensures under_way { OnOk result (IsUnderWay (state S.Store tables.new.conn.now)) }
    ensures goes_on { GoesOn (state S.Store tables.old.conn.now) (state S.Store tables.new.conn.now)
        result }
{
    let name = row.record_name(alloc)?;
    let held = find_in(alloc, tables, &name)?;
    let is_there = held.is_some();
    let (confirmed, id) = learnt_of(held);
    put_entry_in(alloc, tables, is_there, row, confirmed, &id)
}

/// Puts the rows, one after another.
fn put_each<S: Alter>(
    alloc: Global,
    tables: &mut Transaction<'_, S>,
    rows: &[SourceRow],
) -> Result<(), TableFault>
    requires under_way { IsUnderWay (state S.Store tables.old.conn.now) }
    requires numbers { WhileOpen (λ s. HasNumbers s.now.trees) (state S.Store tables.old.conn.now) }
    requires lawful { WhileOpen (λ s. CanPutRows (entries_in s.now.trees) rows.now)
        (state S.Store tables.old.conn.now) }
    ensures same_reference { tables.new.conn.ghost_name ≡ tables.old.conn.ghost_name }
    ensures put { HasCleanDisk (state S.Store tables.new.conn.now)
        → OnOk result
        (PutsRows rows.now (state S.Store tables.old.conn.now).now.trees
        (state S.Store tables.new.conn.now).now.trees) }
    ensures under_way { OnOk result (IsUnderWay (state S.Store tables.new.conn.now)) }
    ensures goes_on { GoesOn (state S.Store tables.old.conn.now) (state S.Store tables.new.conn.now)
        result }
{
    check_open(tables)?;
    for row in rows {
        put_in(alloc, tables, row)?;
    }
    Ok(())
}

// ---- the transaction

/// Puts the rows by one transaction.
pub(crate) fn put_all<S: Alter>(
    alloc: Global,
    conn: &mut Connection<S>,
    rows: &[SourceRow],
) -> Result<(), TableFault>
    requires laid { WhileOpen IsLaid (state S.Store conn.old) }
    requires numbers { WhileOpen (λ s. HasNumbers s.now.trees) (state S.Store conn.old) }
    requires lawful { WhileOpen (λ s. CanPutRows (entries_in s.now.trees) rows.now)
        (state S.Store conn.old) }
    ensures changes { ChangesOnce (PutsRows rows.now) (state S.Store conn.old)
        (state S.Store conn.new) result }
{
    if !conn.is_autocommit() {
        return Err(TableFault::Store);
    }
    let mut tables = conn.transaction();
    put_each(alloc, &mut tables, rows)?;
    match tables.commit() {
        Ok(()) => Ok(()),
        Err(error) => Err(TableFault::from(error)),
    }
}
