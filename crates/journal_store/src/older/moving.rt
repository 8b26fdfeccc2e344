//! Moves the rows of a table of an older format to the table of the next one.
ghost use Rattle.std.specs.Prelude.{◌≡◌, [], IsTrue, OnOk};
ghost use Rattle.sqlite.specs.Held.{state};
ghost use Rattle.sqlite.specs.State.{HasCleanDisk, Survives};
ghost use Rattle.sql_tables.specs.Statements.{GoesOn, IsInside, LeavesStore, WhileOpen};
ghost use Rattle.journal_store.specs.Older.Carrying.{CanMove, Moves, MovesAll};
ghost use Rattle.journal_store.specs.Older.Format.{copy_part_text, copy_text, empty_part_text, empty_text};

use sqlite::{Alter, Error, Transaction};
use sqlite_value::value::ValueRef;

/// A table of an older format, whose rows are moved to the table of the next format.
#[derive(Clone, Copy)]
pub(crate) enum Moved {
    FirstUsers,
    SecondUsers,
    SecondGroups,
}

/// The rows of a part have at most so many numbers.
const PART_ROWS: u32 = 1_000;

/// At most so many parts are moved before the rest.
const MOST_PARTS: u32 = 100_000;

/// Copies the rows up to a number.
fn copy_part_statement(table: Moved) -> &'static str
    ensures { result.now ≡ copy_part_text table }
{
    match table {
        Moved::FirstUsers => {
            "INSERT INTO user_entry_2 (name_key, login, revision, number, given, family, mail, department, active, confirmed, id) SELECT name_key, login, revision, number, given, family, mail, '', active, confirmed, id FROM user_entry WHERE rowid <= ?1"
        }
        Moved::SecondUsers => {
            "INSERT INTO user_entry_3 (name_key, login, revision, number, given, family, mail, department, active, confirmed, id, epoch, confirmed_epoch) SELECT name_key, login, revision, number, given, family, mail, department, active, confirmed, id, 0, 0 FROM user_entry_2 WHERE rowid <= ?1"
        }
        Moved::SecondGroups => {
            "INSERT INTO group_entry_3 (name_key, name, revision, members, confirmed, id, epoch, confirmed_epoch) SELECT name_key, name, revision, members, confirmed, id, 0, 0 FROM group_entry WHERE rowid <= ?1"
        }
    }
}

/// Deletes the rows up to a number.
fn empty_part_statement(table: Moved) -> &'static str
    ensures { result.now ≡ empty_part_text table }
{
    match table {
        Moved::FirstUsers => "DELETE FROM user_entry WHERE rowid <= ?1",
        Moved::SecondUsers => "DELETE FROM user_entry_2 WHERE rowid <= ?1",
        Moved::SecondGroups => "DELETE FROM group_entry WHERE rowid <= ?1",
    }
}

/// Copies all rows. A user of the first format gets an empty department, and each revision of the second one the
/// epoch 0.
fn copy_statement(table: Moved) -> &'static str
    ensures { result.now ≡ copy_text table }
{
    match table {
        Moved::FirstUsers => {
            "INSERT INTO user_entry_2 (name_key, login, revision, number, given, family, mail, department, active, confirmed, id) SELECT name_key, login, revision, number, given, family, mail, '', active, confirmed, id FROM user_entry"
        }
        Moved::SecondUsers => {
            "INSERT INTO user_entry_3 (name_key, login, revision, number, given, family, mail, department, active, confirmed, id, epoch, confirmed_epoch) SELECT name_key, login, revision, number, given, family, mail, department, active, confirmed, id, 0, 0 FROM user_entry_2"
        }
        Moved::SecondGroups => {
            "INSERT INTO group_entry_3 (name_key, name, revision, members, confirmed, id, epoch, confirmed_epoch) SELECT name_key, name, revision, members, confirmed, id, 0, 0 FROM group_entry"
        }
    }
}

/// Deletes all rows.
fn empty_statement(table: Moved) -> &'static str
    ensures { result.now ≡ empty_text table }
{
    match table {
        Moved::FirstUsers => "DELETE FROM user_entry",
        Moved::SecondUsers => "DELETE FROM user_entry_2",
        Moved::SecondGroups => "DELETE FROM group_entry",
    }
}

/// Moves the rows up to this number, and tells how many there were.
fn move_part<S: Alter>(
    tables: &mut Transaction<'_, S>,
    table: Moved,
    last: u32,
) -> Result<usize, Error>
    requires inside { IsInside (state S.Store tables.old.conn.now) }
    requires movable { WhileOpen (CanMove table) (state S.Store tables.old.conn.now) }
    ensures same_reference { tables.new.conn.ghost_name ≡ tables.old.conn.ghost_name }
    ensures moved { HasCleanDisk (state S.Store tables.new.conn.now)
        → OnOk result
        (Moves table (state S.Store tables.old.conn.now) (state S.Store tables.new.conn.now)) }
    ensures goes_on { GoesOn (state S.Store tables.old.conn.now) (state S.Store tables.new.conn.now)
        result }
{
    let last = [ValueRef::Int(i64::from(last))];
    let count = tables.execute(copy_part_statement(table), &last)?;
    tables.execute(empty_part_statement(table), &last)?;
    Ok(count)
}

/// Moves the rows part by part, as long as a part has any. So it never holds more rows than a part has.
/// Rows whose numbers lie further on may stay.
fn move_parts<S: Alter>(tables: &mut Transaction<'_, S>, table: Moved) -> Result<(), Error>
    requires inside { IsInside (state S.Store tables.old.conn.now) }
    requires movable { WhileOpen (CanMove table) (state S.Store tables.old.conn.now) }
    ensures same_reference { tables.new.conn.ghost_name ≡ tables.old.conn.ghost_name }
    ensures moved { HasCleanDisk (state S.Store tables.new.conn.now)
        → OnOk result (IsTrue (state S.Store tables.new.conn.now).is_open
        → Moves table (state S.Store tables.old.conn.now) (state S.Store tables.new.conn.now)) }
    ensures inside { HasCleanDisk (state S.Store tables.new.conn.now)
        → OnOk result (IsTrue (state S.Store tables.new.conn.now).in_transaction) }
    ensures left { HasCleanDisk (state S.Store tables.new.conn.now)
        → LeavesStore (state S.Store tables.old.conn.now) (state S.Store tables.new.conn.now) }
    ensures quiet { Survives (state S.Store tables.old.conn.now) (state S.Store tables.new.conn.now)
        (λ _. ⊥) }
{
    for part in 1..MOST_PARTS {
        let count = move_part(tables, table, part * PART_ROWS)?;
        if count == 0 {
            break;
        }
    }
    Ok(())
}

/// Moves the rows that are left.
fn move_rest<S: Alter>(tables: &mut Transaction<'_, S>, table: Moved) -> Result<(), Error>
    requires inside { IsInside (state S.Store tables.old.conn.now) }
    requires movable { WhileOpen (CanMove table) (state S.Store tables.old.conn.now) }
    ensures same_reference { tables.new.conn.ghost_name ≡ tables.old.conn.ghost_name }
    ensures moved { HasCleanDisk (state S.Store tables.new.conn.now)
        → OnOk result
        (MovesAll table (state S.Store tables.old.conn.now) (state S.Store tables.new.conn.now)) }
    ensures goes_on { GoesOn (state S.Store tables.old.conn.now) (state S.Store tables.new.conn.now)
        result }
{
    tables.execute(copy_statement(table), &[])?;
    tables.execute(empty_statement(table), &[])?;
    Ok(())
}

/// Moves all rows.
pub(crate) fn move_all<S: Alter>(tables: &mut Transaction<'_, S>, table: Moved) -> Result<(), Error>
    requires inside { IsInside (state S.Store tables.old.conn.now) }
    requires movable { WhileOpen (CanMove table) (state S.Store tables.old.conn.now) }
    ensures same_reference { tables.new.conn.ghost_name ≡ tables.old.conn.ghost_name }
    ensures moved { HasCleanDisk (state S.Store tables.new.conn.now)
        → OnOk result
        (MovesAll table (state S.Store tables.old.conn.now) (state S.Store tables.new.conn.now)) }
    ensures goes_on { GoesOn (state S.Store tables.old.conn.now) (state S.Store tables.new.conn.now)
        result }
{
    move_parts(tables, table)?;
    move_rest(tables, table)
}
