//! Resets the entries by one transaction: what was learnt of the provider is forgotten.
ghost use Rattle.std.specs.Prelude.{◌≡◌, OnOk};
ghost use Rattle.std.specs.List.{count_by};
ghost use Rattle.sqlite.specs.Held.{state};
ghost use Rattle.sqlite.specs.State.{HasCleanDisk};
ghost use Rattle.sqlite.specs.Values.{bound};
ghost use Rattle.scim_key.specs.declared.records.Kind.TheVariants.{Group, User};
ghost use Rattle.sql_tables.specs.Statements.{GoesOn, WhileOpen};
ghost use Rattle.journal_core.specs.Forgetting.{is_learnt};
ghost use Rattle.journal_store.specs.Batches.{IsUnderWay, settled};
ghost use Rattle.journal_store.specs.Connections.{ChangesOnce, Commits, IsLaid};
ghost use Rattle.journal_store.specs.Resets.{AreListed, ForgetsOnly, IsListed, ResetsAll, ResetsOne, none_values, reset_text};

use crate::batches::write_in;
use crate::statements::TableFault;
use crate::tables::{epoch_param, revision_param};
use journal_core::Entry;
use scim_key::{Kind, Revision};
use sqlite::{Alter, Connection, Transaction};
use sqlite_value::value::ValueRef;

// ---- what a reset changes

/// Whether a revision of the record is confirmed, or its id is known.
pub(crate) fn is_learnt(entry: &Entry) -> bool
    ensures { result ≡ is_learnt entry.now }
{
    entry.confirmed != Revision::none() || entry.id.is_some()
}

/// How many of the entries a reset changes.
pub(crate) fn learnt_count(entries: &[Entry]) -> usize
    ensures { result ≡ count_by is_learnt entries.now }
{
    entries.iter().filter(|entry| is_learnt(entry)).count()
}

// ---- inside a transaction

fn reset_statement(kind: Kind) -> &'static str
    ensures { result.now ≡ reset_text kind }
{
    match kind {
        Kind::User => "UPDATE user_entry_3 SET confirmed = ?1, id = NULL, confirmed_epoch = ?2",
        Kind::Group => "UPDATE group_entry_3 SET confirmed = ?1, id = NULL, confirmed_epoch = ?2",
    }
}

/// The number and the epoch of no revision.
fn none_params() -> [ValueRef<'static>; 2]
    ensures { bound result ≡ none_values }
{
    let none = Revision::none();
    [revision_param(none), epoch_param(none)]
}

/// Resets the entries of one type.
fn reset_in<S: Alter>(tables: &mut Transaction<'_, S>, kind: Kind) -> Result<(), TableFault>
    requires under_way { IsUnderWay (state S.Store tables.old.conn.now) }
    requires listed { WhileOpen (λ s. IsListed kind s.now.trees)
        (state S.Store tables.old.conn.now) }
    ensures same_reference { tables.new.conn.ghost_name ≡ tables.old.conn.ghost_name }
    ensures made { HasCleanDisk (state S.Store tables.new.conn.now)
        → OnOk result
        (Commits (ResetsOne kind) (settled (state S.Store tables.old.conn.now))
        (settled (state S.Store tables.new.conn.now))) }
    ensures goes_on { GoesOn (state S.Store tables.old.conn.now) (state S.Store tables.new.conn.now)
        result }
{
    write_in(tables, reset_statement(kind), &none_params())
}

/// Resets the entries of both types.
fn reset_both<S: Alter>(tables: &mut Transaction<'_, S>) -> Result<(), TableFault>
    requires under_way { IsUnderWay (state S.Store tables.old.conn.now) }
    requires listed { WhileOpen (λ s. AreListed s.now.trees) (state S.Store tables.old.conn.now) }
    ensures same_reference { tables.new.conn.ghost_name ≡ tables.old.conn.ghost_name }
    ensures reset { HasCleanDisk (state S.Store tables.new.conn.now)
        → OnOk result
        (ResetsAll (state S.Store tables.old.conn.now).now.trees
        (state S.Store tables.new.conn.now).now.trees) }
    ensures under_way { OnOk result (IsUnderWay (state S.Store tables.new.conn.now)) }
    ensures goes_on { GoesOn (state S.Store tables.old.conn.now) (state S.Store tables.new.conn.now)
        result }
{
    reset_in(tables, Kind::User)?;
    reset_in(tables, Kind::Group)
}

// ---- the transaction

/// Resets the entries by one transaction: all or none.
pub(crate) fn reset_all<S: Alter>(conn: &mut Connection<S>) -> Result<(), TableFault>
    requires laid { WhileOpen IsLaid (state S.Store conn.old) }
    requires listed { WhileOpen (λ s. AreListed s.now.trees) (state S.Store conn.old) }
    ensures changes { ChangesOnce ResetsAll (state S.Store conn.old)
        (state S.Store conn.new) result }
{
    if !conn.is_autocommit() {
        return Err(TableFault::Store);
    }
    let mut tables = conn.transaction();
    reset_both(&mut tables)?;
    match tables.commit() {
        Ok(()) => Ok(()),
        Err(error) => Err(TableFault::from(error)),
    }
}

// ---- laws

/// A reset keeps the row of each record, and nothing else of its entry. An opening accepts the entries.
pub fn resets_keep_rows()
    ensures { ForgetsOnly }
{}
