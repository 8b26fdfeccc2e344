//! Carries a journal over from an older format.
ghost use Rattle.std.specs.Prelude.{◌≡◌, [], false, IsTrue, OnErr, OnOk};
ghost use Rattle.std.specs.FinMap.{empty};
ghost use Rattle.sqlite.specs.Held.{state};
ghost use Rattle.sqlite.specs.State.{HasCleanDisk, Survives};
ghost use Rattle.scim_key.specs.declared.records.Kind.{Kind as KindData};
ghost use Rattle.scim_key.specs.declared.records.Kind.TheVariants.{User};
ghost use Rattle.journal_core.specs.Entries.{EntryMap};
ghost use Rattle.sql_tables.specs.Layouts.{IsBlank};
ghost use Rattle.sql_tables.specs.Statements.{GoesOn, IsInside, LeavesStore, WhileOpen};
ghost use Rattle.journal_store.specs.Batches.{settled};
ghost use Rattle.journal_store.specs.Older.Format.{first_tree, second_tree};
ghost use Rattle.journal_store.specs.Opening.{AreEmptied, IsFirstStore, IsSecondStore, IsStore, IsStoreBy, LeavesCarriedBy};

use crate::format::FORMAT;
use crate::formats::Format;
use crate::making::make_entries;
use crate::older::format::{FIRST_FORMAT, First, SECOND_FORMAT, Second};
use crate::older::moving::{Moved, move_all};
use sqlite::{Alter, Connection, Error, Transaction};
use sqlite_value::value::ValueRef;

// ---- the tables of the first format

/// Makes the tables of the first format, with the row of its number.
pub(crate) fn make_first<S: Alter>(tables: &mut Transaction<'_, S>) -> Result<(), Error>
    requires inside { IsInside (state S.Store tables.old.conn.now) }
    requires blank { WhileOpen (λ s. IsBlank (settled s)) (state S.Store tables.old.conn.now) }
    ensures same_reference { tables.new.conn.ghost_name ≡ tables.old.conn.ghost_name }
    ensures made { HasCleanDisk (state S.Store tables.new.conn.now)
        → OnOk result (IsFirstStore (settled (state S.Store tables.new.conn.now)) empty) }
    ensures goes_on { GoesOn (state S.Store tables.old.conn.now) (state S.Store tables.new.conn.now)
        result }
{
    tables.execute(
        "CREATE TABLE IF NOT EXISTS journal_format (one INTEGER PRIMARY KEY CHECK (one = 1), number INTEGER NOT NULL)",
        &[],
    )?;
    tables.execute(
        "INSERT INTO journal_format (one, number) VALUES (1, ?1)",
        &[ValueRef::Int(FIRST_FORMAT as i64)],
    )?;
    tables.execute(
        "CREATE TABLE user_entry (name_key TEXT PRIMARY KEY NOT NULL, login TEXT NOT NULL, revision INTEGER NOT NULL, number TEXT NOT NULL, given TEXT NOT NULL, family TEXT NOT NULL, mail TEXT NOT NULL, active INTEGER NOT NULL, confirmed INTEGER NOT NULL, id TEXT)",
        &[],
    )?;
    tables.execute(
        "CREATE TABLE group_entry (name_key TEXT PRIMARY KEY NOT NULL, name TEXT NOT NULL, revision INTEGER NOT NULL, members TEXT NOT NULL, confirmed INTEGER NOT NULL, id TEXT)",
        &[],
    )?;
    Ok(())
}

/// An error if the row of the format wasn't numbered.
fn one_changed(count: usize) -> Result<(), Error>
    ensures one { OnOk result (count ≡ 1) }
{
    if count == 1 {
        Ok(())
    } else {
        Err(Error::QueryReturnedNoRows)
    }
}

// ---- from the first format to the second one

/// Carries the tables of the first format over to the second one. `QueryReturnedNoRows` says that the row of the
/// format isn't numbered 1.
fn carry_first<S: Alter>(tables: &mut Transaction<'_, S>) -> Result<(), Error>
    requires inside { IsInside (state S.Store tables.old.conn.now) }
    requires first { WhileOpen (λ s. (entries : EntryMap) × IsFirstStore (settled s) entries)
        (state S.Store tables.old.conn.now) }
    ensures same_reference { tables.new.conn.ghost_name ≡ tables.old.conn.ghost_name }
    ensures carried { HasCleanDisk (state S.Store tables.new.conn.now)
        → OnOk result ((entries : EntryMap)
        → IsFirstStore (settled (state S.Store tables.old.conn.now)) entries
        → IsSecondStore (settled (state S.Store tables.new.conn.now)) entries) }
    ensures emptied { HasCleanDisk (state S.Store tables.new.conn.now)
        → OnOk result ((state S.Store tables.new.conn.now).now.trees (first_tree User) ≡ []) }
    ensures goes_on { GoesOn (state S.Store tables.old.conn.now) (state S.Store tables.new.conn.now)
        result }
{
    tables.execute(
        "CREATE TABLE user_entry_2 (name_key TEXT PRIMARY KEY NOT NULL, login TEXT NOT NULL, revision INTEGER NOT NULL, number TEXT NOT NULL, given TEXT NOT NULL, family TEXT NOT NULL, mail TEXT NOT NULL, department TEXT NOT NULL, active INTEGER NOT NULL, confirmed INTEGER NOT NULL, id TEXT)",
        &[],
    )?;
    move_all(tables, Moved::FirstUsers)?;
    let changed = tables.execute(
        "UPDATE journal_format SET number = ?1 WHERE one = 1",
        &[ValueRef::Int(SECOND_FORMAT as i64)],
    )?;
    one_changed(changed)?;
    Ok(())
}

// ---- from the second format to the current one

/// Carries the tables of the second format over to the current one, as `carry_first` does.
fn carry_second<S: Alter>(tables: &mut Transaction<'_, S>) -> Result<(), Error>
    requires inside { IsInside (state S.Store tables.old.conn.now) }
    requires second { WhileOpen (λ s. (entries : EntryMap) × IsSecondStore (settled s) entries)
        (state S.Store tables.old.conn.now) }
    ensures same_reference { tables.new.conn.ghost_name ≡ tables.old.conn.ghost_name }
    ensures carried { HasCleanDisk (state S.Store tables.new.conn.now)
        → OnOk result ((entries : EntryMap)
        → IsSecondStore (settled (state S.Store tables.old.conn.now)) entries
        → IsStore (settled (state S.Store tables.new.conn.now)) entries) }
    ensures emptied { HasCleanDisk (state S.Store tables.new.conn.now)
        → OnOk result ((kind : KindData)
        → (state S.Store tables.new.conn.now).now.trees (second_tree kind) ≡ []) }
    ensures firsts { HasCleanDisk (state S.Store tables.new.conn.now)
        → OnOk result ((state S.Store tables.new.conn.now).now.trees (first_tree User)
        ≡ (state S.Store tables.old.conn.now).now.trees (first_tree User)) }
    ensures goes_on { GoesOn (state S.Store tables.old.conn.now) (state S.Store tables.new.conn.now)
        result }
{
    make_entries(tables)?;
    move_all(tables, Moved::SecondUsers)?;
    move_all(tables, Moved::SecondGroups)?;
    let changed = tables.execute(
        "UPDATE journal_format SET number = ?1 WHERE one = 1",
        &[ValueRef::Int(FORMAT as i64)],
    )?;
    one_changed(changed)?;
    Ok(())
}

// ---- the older formats

/// A format from which a journal is carried over to the current one.
pub(crate) trait Older: Format {
    /// Carries the tables over, and leaves those of the format and of the second one empty.
    fn carry_over<S: Alter>(tables: &mut Transaction<'_, S>) -> Result<(), Error>
        requires inside { IsInside (state S.Store tables.old.conn.now) }
        requires older { WhileOpen (λ s. (entries : EntryMap)
            × IsStoreBy Self.Format (settled s) entries) (state S.Store tables.old.conn.now) }
        ensures same_reference { tables.new.conn.ghost_name ≡ tables.old.conn.ghost_name }
        ensures carried { HasCleanDisk (state S.Store tables.new.conn.now)
            → OnOk result ((entries : EntryMap)
            → IsStoreBy Self.Format (settled (state S.Store tables.old.conn.now)) entries
            → IsStore (settled (state S.Store tables.new.conn.now)) entries) }
        ensures emptied { HasCleanDisk (state S.Store tables.new.conn.now)
            → OnOk result
            (AreEmptied Self.Format (state S.Store tables.new.conn.now).now.trees) }
        ensures goes_on { GoesOn (state S.Store tables.old.conn.now)
            (state S.Store tables.new.conn.now) result };
}

impl Older for Second {
    fn carry_over<S: Alter>(tables: &mut Transaction<'_, S>) -> Result<(), Error> {
        carry_second(tables)
    }
}

impl Older for First {
    fn carry_over<S: Alter>(tables: &mut Transaction<'_, S>) -> Result<(), Error> {
        carry_first(tables)?;
        carry_second(tables)
    }
}

// ---- the transaction

/// Carries a journal of an older format over by one transaction: all of it or none.
pub(crate) fn carry<S: Alter, F: Older>(conn: &mut Connection<S>) -> Result<(), Error>
    requires outside { (state S.Store conn.old).in_transaction ≡ false }
    requires older { WhileOpen (λ s. (entries : EntryMap) × IsStoreBy F.Format s entries)
        (state S.Store conn.old) }
    ensures made { HasCleanDisk (state S.Store conn.new)
        → OnOk result (IsTrue (state S.Store conn.new).is_open
        × ((entries : EntryMap) → IsStoreBy F.Format (state S.Store conn.old) entries
        → IsStore (state S.Store conn.new) entries)
        × AreEmptied F.Format (state S.Store conn.new).now.trees) }
    ensures left { HasCleanDisk (state S.Store conn.new)
        → OnErr result (LeavesStore (state S.Store conn.old) (state S.Store conn.new)) }
    ensures stop { Survives (state S.Store conn.old) (state S.Store conn.new)
        (LeavesCarriedBy F.Format (state S.Store conn.old)) }
{
    let mut journal = conn.transaction();
    F::carry_over(&mut journal)?;
    journal.commit()
}
