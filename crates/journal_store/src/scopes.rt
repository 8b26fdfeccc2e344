//! Resets the entries of some records by one transaction, all of them or none.
ghost use Rattle.std.specs.Prelude.{◌≡◌, IfOk, IsTrue, OnOk, true};
ghost use Rattle.sqlite.specs.Held.{state};
ghost use Rattle.sqlite.specs.State.{HasCleanDisk, IsUnchanged, Survives};
ghost use Rattle.source_csv.specs.Records.{row_name};
ghost use Rattle.sql_tables.specs.Statements.{GoesOn, LeavesStore, WhileOpen};
ghost use Rattle.journal_core.specs.Forgetting.{is_learnt, unlearnt};
ghost use Rattle.journal_store.specs.Batches.{IsUnderWay, settled};
ghost use Rattle.journal_store.specs.Connections.{ChangesOnce, HasNumbers, IsLaid, IsThere, Makes};
ghost use Rattle.journal_store.specs.Rows.{entries_in};
ghost use Rattle.journal_store.specs.Scopes.{ResetsEach, ResetsRecord, ResetsThese, answer_of, first_absent};

use crate::batches::{check_open, find_in, put_entry_in};
use crate::resets::is_learnt;
use crate::statements::TableFault;
use journal_core::Entry;
use scim_key::{RecordName, Revision};
use sqlite::{Alter, Connection, Transaction};
use std::alloc::Global;

/// The records that a reset is of.
#[derive(Drop)]
pub enum Scope {
    /// All records of the journal.
    All,
    These(Vec<RecordName>),
}

/// What a reset did.
#[derive(Drop)]
pub enum ResetResult {
    /// It changed this many entries.
    Changed(usize),
    /// It changed nothing, because this record isn't in the journal.
    Absent(RecordName),
}

// ---- inside a transaction

/// The first of these records that has no entry.
fn absent_in<S: Alter>(
    alloc: Global,
    tables: &mut Transaction<'_, S>,
    names: &[RecordName],
) -> Result<Option<RecordName>, TableFault>
    requires under_way { IsUnderWay (state S.Store tables.old.conn.now) }
    ensures same_reference { tables.new.conn.ghost_name ≡ tables.old.conn.ghost_name }
    ensures absent { HasCleanDisk (state S.Store tables.new.conn.now)
        → IfOk result (λ absent. absent
        ≡ first_absent (entries_in (state S.Store tables.old.conn.now).now.trees) names.now) }
    ensures same { HasCleanDisk (state S.Store tables.new.conn.now)
        → OnOk result
        (IsUnchanged (state S.Store tables.old.conn.now) (state S.Store tables.new.conn.now)) }
    ensures under_way { OnOk result (IsUnderWay (state S.Store tables.new.conn.now)) }
    ensures left { HasCleanDisk (state S.Store tables.new.conn.now)
        → LeavesStore (state S.Store tables.old.conn.now) (state S.Store tables.new.conn.now) }
    ensures quiet { Survives (state S.Store tables.old.conn.now) (state S.Store tables.new.conn.now)
        (λ _. ⊥) }
{
    check_open(tables)?;
    for name in names {
        let held = find_in(alloc, tables, name)?;
        if held.is_none() {
            return Ok(Some(name.clone()?));
        }
    }
    Ok(None)
}

/// Puts an entry again, without what was learnt. Returns whether that changes it.
fn unlearn_in<S: Alter>(
    alloc: Global,
    tables: &mut Transaction<'_, S>,
    entry: &Entry,
) -> Result<bool, TableFault>
    requires under_way { IsUnderWay (state S.Store tables.old.conn.now) }
    requires there { WhileOpen (λ s. IsThere s.now.trees (row_name entry.now.row))
        (state S.Store tables.old.conn.now) }
    ensures same_reference { tables.new.conn.ghost_name ≡ tables.old.conn.ghost_name }
    ensures changes { IfOk result (λ changes. changes ≡ is_learnt entry.now) }
    ensures made { HasCleanDisk (state S.Store tables.new.conn.now)
        → OnOk result
        (Makes true (unlearnt entry.now) (settled (state S.Store tables.old.conn.now))
        (settled (state S.Store tables.new.conn.now))) }
    ensures goes_on { GoesOn (state S.Store tables.old.conn.now) (state S.Store tables.new.conn.now)
        result }
{
    put_entry_in(alloc, tables, true, &entry.row, Revision::none(), &None)?;
    Ok(is_learnt(entry))
}

/// Resets the entry of a record. Returns whether that changes it. Fails if there is none.
fn reset_record_in<S: Alter>(
    alloc: Global,
    tables: &mut Transaction<'_, S>,
    name: &RecordName,
) -> Result<bool, TableFault>
    requires under_way { IsUnderWay (state S.Store tables.old.conn.now) }
    requires numbers { WhileOpen (λ s. HasNumbers s.now.trees) (state S.Store tables.old.conn.now) }
    ensures same_reference { tables.new.conn.ghost_name ≡ tables.old.conn.ghost_name }
    ensures reset { HasCleanDisk (state S.Store tables.new.conn.now)
        → IfOk result
        (λ changes. ResetsRecord name.now changes (state S.Store tables.old.conn.now).now.trees
        (state S.Store tables.new.conn.now).now.trees) }
    ensures under_way { OnOk result (IsUnderWay (state S.Store tables.new.conn.now)) }
    ensures goes_on { GoesOn (state S.Store tables.old.conn.now) (state S.Store tables.new.conn.now)
        result }
{
    let held = find_in(alloc, tables, name)?;
    match held {
        Some(entry) => unlearn_in(alloc, tables, &entry),
        None => Err(TableFault::Store),
    }
}

/// Resets the entries of these records, one after another. Returns how many of them that changes.
fn reset_each<S: Alter>(
    alloc: Global,
    tables: &mut Transaction<'_, S>,
    names: &[RecordName],
) -> Result<usize, TableFault>
    requires under_way { IsUnderWay (state S.Store tables.old.conn.now) }
    requires numbers { WhileOpen (λ s. HasNumbers s.now.trees) (state S.Store tables.old.conn.now) }
    requires open { HasCleanDisk (state S.Store tables.old.conn.now)
        → IsTrue (state S.Store tables.old.conn.now).is_open }
    ensures same_reference { tables.new.conn.ghost_name ≡ tables.old.conn.ghost_name }
    ensures reset { HasCleanDisk (state S.Store tables.new.conn.now)
        → IfOk result
        (λ count. ResetsEach names.now count (state S.Store tables.old.conn.now).now.trees
        (state S.Store tables.new.conn.now).now.trees) }
    ensures under_way { OnOk result (IsUnderWay (state S.Store tables.new.conn.now)) }
    ensures goes_on { GoesOn (state S.Store tables.old.conn.now) (state S.Store tables.new.conn.now)
        result }
{
    let mut count = 0;
    for name in names {
        let changes = reset_record_in(alloc, tables, name)?;
        if changes {
            count += 1;
        }
    }
    Ok(count)
}

/// Resets the entries of these records, unless one of them has none.
fn reset_these_in<S: Alter>(
    alloc: Global,
    tables: &mut Transaction<'_, S>,
    names: &[RecordName],
) -> Result<ResetResult, TableFault>
    requires under_way { IsUnderWay (state S.Store tables.old.conn.now) }
    requires numbers { WhileOpen (λ s. HasNumbers s.now.trees) (state S.Store tables.old.conn.now) }
    ensures same_reference { tables.new.conn.ghost_name ≡ tables.old.conn.ghost_name }
    ensures reset { HasCleanDisk (state S.Store tables.new.conn.now)
        → OnOk result
        (ResetsThese names.now (state S.Store tables.old.conn.now).now.trees
        (state S.Store tables.new.conn.now).now.trees) }
    ensures answer { HasCleanDisk (state S.Store tables.new.conn.now)
        → IfOk result (λ done. done
        ≡ answer_of (entries_in (state S.Store tables.old.conn.now).now.trees) names.now) }
    ensures under_way { OnOk result (IsUnderWay (state S.Store tables.new.conn.now)) }
    ensures goes_on { GoesOn (state S.Store tables.old.conn.now) (state S.Store tables.new.conn.now)
        result }
{
    let absent = absent_in(alloc, tables, names)?;
    if let Some(name) = absent {
        return Ok(ResetResult::Absent(name));
    }
    let count = reset_each(alloc, tables, names)?;
    Ok(ResetResult::Changed(count))
}

// ---- the transaction

/// Resets the entries of these records by one transaction, unless one of them has none.
pub(crate) fn reset_these<S: Alter>(
    alloc: Global,
    conn: &mut Connection<S>,
    names: &[RecordName],
) -> Result<ResetResult, TableFault>
    requires laid { WhileOpen IsLaid (state S.Store conn.old) }
    requires numbers { WhileOpen (λ s. HasNumbers s.now.trees) (state S.Store conn.old) }
    ensures changes { ChangesOnce (ResetsThese names.now) (state S.Store conn.old)
        (state S.Store conn.new) result }
    ensures answer { HasCleanDisk (state S.Store conn.new)
        → IfOk result (λ done. done
        ≡ answer_of (entries_in (state S.Store conn.old).now.trees) names.now) }
{
    if !conn.is_autocommit() {
        return Err(TableFault::Store);
    }
    let mut tables = conn.transaction();
    let done = reset_these_in(alloc, &mut tables, names)?;
    match tables.commit() {
        Ok(()) => Ok(done),
        Err(error) => Err(TableFault::from(error)),
    }
}
