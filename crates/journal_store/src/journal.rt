//! A journal in SQLite.
ghost use Rattle.std.specs.Prelude.{◌≡◌, ◌≤◌, ◌+◌, ◌⊎◌, IfErr, IfOk, IsTrue, OnErr, OnOk};
ghost use Rattle.std.specs.Result.{is_ok};
ghost use Rattle.sqlite.specs.Held.{state};
ghost use Rattle.sqlite.specs.State.{HasCleanDisk, Survives};
ghost use Rattle.journal_core.specs.Entries.{CanPutLearnt, CanPutRow, CanPutRows, IsListOf, with_learnt, with_row, with_rows};
ghost use Rattle.journal_core.specs.Forgetting.{forgotten, learnt_count};
ghost use Rattle.journal_core.specs.Stores.{CountsFault, CountsFaults, HasRisen};
ghost use Rattle.journal_store.specs.Calls.{Reads, Writes, OpensAgain, call_result};
ghost use Rattle.journal_store.specs.Connections.{ListsAll, ListsNone};
ghost use Rattle.sql_tables.specs.Faults.{FailsFor as CallFailsFor, HasFailed};
ghost use Rattle.sql_tables.specs.Statements.{LeavesStore};
ghost use Rattle.journal_store.specs.Kept.{IsFaithful, IsHonest, IsRefused, MayHold, kept_entries};
ghost use Rattle.journal_store.specs.Opening.{Becomes, IsCause, IsUnfit, LeavesStanding, OpenFailsFor, OpeningFails, Stands, journal_fault, table_fault};
ghost use Rattle.journal_store.specs.Resets.{AreListed};
ghost use Rattle.journal_store.specs.Scopes.{after_reset, answer_of, reset_answer, reset_of};
ghost use Rattle.journal_store.specs.declared.scopes.ResetResult.TheVariants.{Changed};

use crate::batches::put_all;
use crate::format::Journal as Tables;
use crate::learning::learn;
use crate::opening::{JournalOpenFault, check_tables, open_tables};
use crate::resets::{learnt_count, reset_all};
use crate::scopes::{ResetResult, Scope, reset_these};
use crate::statements::TableFault;
use crate::tables::list_entries;
use journal_core::{Entry, Journal, ReopenJournal};
use scim_key::{Kind, RecordName, ResourceId, Revision, StoreFault};
use source_csv::Row;
use sql_tables::{concluded, counted, refusal};
use sqlite::{Alter, Connection};
use std::alloc::Global;
use std::marker::Model;
use std::slice;

/// A journal with its entries in the tables of a connection.
#[derive(Drop)]
pub struct SqlJournal<S: Alter> {
    conn: Connection<S>,
    alloc: Global,
    is_usable: bool,
    faults: u64,
    writes: u64,
}

impl<S: Alter> Model for SqlJournal<S> {
    ghost use Rattle.journal_store.specs.Kept.{Kept, kept_code, IsSound};

    ghost Value = { Kept S };

    ghost coded = { kept_code S.code };

    ghost view = { λ r. record {
      conn = r.conn;
      is_usable = r.is_usable;
      faults = r.faults;
      writes = r.writes;
    } };

    ghost invariant = { λ r. IsSound S.Store (record {
      conn = r.conn;
      is_usable = r.is_usable;
      faults = r.faults;
      writes = r.writes;
    }) };
}

/// The journal's fault for a fault of a statement: an invalid row is a fault of the store.
fn fault_of(fault: TableFault) -> StoreFault
    ensures { result ≡ table_fault fault }
{
    match fault {
        TableFault::Memory => StoreFault::Memory,
        TableFault::Store => StoreFault::Store,
        TableFault::Damaged => StoreFault::Store,
    }
}

/// The result of a call that writes, for that of its statements.
fn call_result(made: Result<(), TableFault>) -> Result<(), StoreFault>
    ensures { result ≡ call_result made }
{
    match made {
        Ok(()) => Ok(()),
        Err(fault) => Err(fault_of(fault)),
    }
}

/// The result of a reset, for that of its statements. Counts the write, or the fault of the store.
fn reset_concluded(
    writes: &mut u64,
    faults: &mut u64,
    made: Result<ResetResult, TableFault>,
) -> Result<ResetResult, StoreFault>
    ensures is { result ≡ call_result made }
    ensures faults { CountsFaults CountsFault faults.old faults.new result }
    ensures risen { OnOk result (HasRisen writes.old writes.new) }
    ensures written { writes.new ≤ writes.old + 1 }
    ensures unwritten { OnErr result (writes.new ≡ writes.old) }
{
    match made {
        Ok(answer) => {
            *writes = writes.saturating_add(1);
            Ok(answer)
        }
        Err(fault) => Err(counted(faults, fault_of(fault))),
    }
}

impl<S: Alter> SqlJournal<S> {
    /// The entries of one type, in order of their names.
    fn list(&mut self, kind: Kind) -> Result<Vec<Entry>, StoreFault>
        ensures tables { IsFaithful S.Store self.new
            → (state S.Store self.new.conn).now.trees ≡ (state S.Store self.old.conn).now.trees }
        ensures all { IsFaithful S.Store self.new
            → IfOk result
            (λ list. ListsAll kind (state S.Store self.new.conn).now.trees list.items) }
        ensures reads { Reads S.Store self.old self.new result }
        ensures shut { IsRefused self.old result }
        ensures quiet { Survives (state S.Store self.old.conn) (state S.Store self.new.conn)
            (λ _. ⊥) }
        ensures usable { self.new.is_usable ≡ self.old.is_usable }
        ensures failed { IsTrue self.old.is_usable → IsHonest S.Store self.new
            → IfErr result
            (CallFailsFor (HasFailed (state S.Store self.old.conn) (state S.Store self.new.conn)
            ⊎ (IsFaithful S.Store self.new
            × ListsNone kind (state S.Store self.new.conn).now.trees))) }
    {
        if !self.is_usable {
            return Err(refusal(&mut self.faults));
        }
        match list_entries::<S, Tables>(self.alloc, &mut self.conn, kind) {
            Ok(list) => Ok(list),
            Err(fault) => Err(counted(&mut self.faults, fault_of(fault))),
        }
    }

    /// Puts these rows, one after another, by one transaction.
    fn put(&mut self, rows: &[Row]) -> Result<(), StoreFault>
        requires lawful { IsFaithful S.Store self.old
            → CanPutRows (kept_entries S.Store self.old) rows.now }
        ensures puts { Writes S.Store self.old self.new
            (with_rows (kept_entries S.Store self.old) rows.now) result }
        ensures open { IsHonest S.Store self.new → OnOk result (IsFaithful S.Store self.new) }
        ensures counted { OnOk result (HasRisen self.old.writes self.new.writes) }
        ensures shut { IsRefused self.old result }
    {
        if !self.is_usable {
            return Err(refusal(&mut self.faults));
        }
        let made = put_all(self.alloc, &mut self.conn, rows);
        concluded(&mut self.writes, &mut self.faults, call_result(made))
    }
}

impl<S: Alter> Journal for SqlJournal<S> {
    ghost use Rattle.journal_store.specs.KeptLaws.{kept_settled, kept_stays};

    ghost entries = { kept_entries S.Store };

    ghost is_faithful = { IsFaithful S.Store };

    ghost is_honest = { IsHonest S.Store };

    ghost may_hold = { MayHold S.Store };

    ghost faults = { λ k. k.faults };

    ghost writes = { λ k. k.writes };

    fn load(&mut self) -> Result<Vec<Entry>, StoreFault>
        ensures ok { IsFaithful S.Store self.new
            → IfOk result (λ list. IsListOf (kept_entries S.Store self.old) list.items) }
        ensures reads { Reads S.Store self.old self.new result }
        ensures shut { IsRefused self.old result }
        ensures failed { IsTrue self.old.is_usable → IsHonest S.Store self.new
            → IfErr result
            (CallFailsFor (HasFailed (state S.Store self.old.conn) (state S.Store self.new.conn)
            ⊎ ((kind : _) × ListsNone kind (state S.Store self.old.conn).now.trees))) }
    {
        let mut all = self.list(Kind::User)?;
        let mut groups = self.list(Kind::Group)?;
        all.append(&mut groups)?;
        Ok(all)
    }

    fn put_row(&mut self, row: &Row) -> Result<(), StoreFault>
        requires lawful { IsFaithful S.Store self.old
            → CanPutRow (kept_entries S.Store self.old) row.now }
        ensures puts { Writes S.Store self.old self.new
            (with_row (kept_entries S.Store self.old) row.now) result }
        ensures open { IsHonest S.Store self.new → OnOk result (IsFaithful S.Store self.new) }
        ensures counted { OnOk result (HasRisen self.old.writes self.new.writes) }
        ensures shut { IsRefused self.old result }
    {
        self.put(slice::from_ref(row))
    }

    fn put_rows(&mut self, rows: Vec<Row>) -> Result<(), StoreFault>
        requires lawful { IsFaithful S.Store self.old
            → CanPutRows (kept_entries S.Store self.old) rows.items }
        ensures puts { Writes S.Store self.old self.new
            (with_rows (kept_entries S.Store self.old) rows.items) result }
        ensures open { IsHonest S.Store self.new → OnOk result (IsFaithful S.Store self.new) }
        ensures counted { OnOk result (HasRisen self.old.writes self.new.writes) }
        ensures shut { IsRefused self.old result }
    {
        self.put(rows.as_slice())
    }

    fn put_learnt(
        &mut self,
        name: &RecordName,
        confirmed: Revision,
        id: &ResourceId,
    ) -> Result<(), StoreFault>
        requires lawful { IsFaithful S.Store self.old
            → CanPutLearnt (kept_entries S.Store self.old) name.now confirmed }
        ensures puts { Writes S.Store self.old self.new
            (with_learnt (kept_entries S.Store self.old) name.now confirmed id.now) result }
        ensures open { IsHonest S.Store self.new → OnOk result (IsFaithful S.Store self.new) }
        ensures counted { OnOk result (HasRisen self.old.writes self.new.writes) }
        ensures shut { IsRefused self.old result }
    {
        if !self.is_usable {
            return Err(refusal(&mut self.faults));
        }
        let made = learn(&mut self.conn, name, confirmed, id);
        concluded(&mut self.writes, &mut self.faults, call_result(made))
    }

    ghost is_so = { λ _ faithful. faithful.clean };

    ghost settled = { kept_settled _ S.Store.settled };

    ghost stays = { kept_stays _ S.Store.stays };
}

// ---- a reset

impl<S: Alter> SqlJournal<S> {
    /// Of how many records a revision is confirmed or the id is known.
    fn count_learnt(&mut self) -> Result<usize, StoreFault>
        ensures listed { IsFaithful S.Store self.new
            → OnOk result (AreListed (state S.Store self.new.conn).now.trees) }
        ensures count { IsFaithful S.Store self.new
            → IfOk result (λ count. count ≡ learnt_count (kept_entries S.Store self.old)) }
        ensures reads { Reads S.Store self.old self.new result }
        ensures shut { IsRefused self.old result }
    {
        let mut entries = self.list(Kind::User)?;
        let mut others = self.list(Kind::Group)?;
        entries.append(&mut others)?;
        Ok(learnt_count(entries.as_slice()))
    }

    /// Forgets what was learnt of each record.
    fn forget(&mut self) -> Result<(), StoreFault>
        requires listed { IsFaithful S.Store self.old
            → AreListed (state S.Store self.old.conn).now.trees }
        ensures puts { Writes S.Store self.old self.new
            (forgotten (kept_entries S.Store self.old)) result }
        ensures open { IsHonest S.Store self.new → OnOk result (IsFaithful S.Store self.new) }
        ensures counted { OnOk result (HasRisen self.old.writes self.new.writes) }
        ensures shut { IsRefused self.old result }
    {
        if !self.is_usable {
            return Err(refusal(&mut self.faults));
        }
        let made = reset_all(&mut self.conn);
        concluded(&mut self.writes, &mut self.faults, call_result(made))
    }

    /// Resets all records.
    fn reset_every(&mut self) -> Result<ResetResult, StoreFault>
        ensures puts { Writes S.Store self.old self.new
            (forgotten (kept_entries S.Store self.old)) result }
        ensures answer { IsFaithful S.Store self.new
            → IfOk result
            (λ answer. answer ≡ Changed (learnt_count (kept_entries S.Store self.old))) }
        ensures open { IsHonest S.Store self.new → OnOk result (IsFaithful S.Store self.new) }
        ensures counted { OnOk result (HasRisen self.old.writes self.new.writes) }
        ensures shut { IsRefused self.old result }
    {
        let count = self.count_learnt()?;
        self.forget()?;
        Ok(ResetResult::Changed(count))
    }

    /// Resets these records, unless one of them isn't there.
    fn reset_named(&mut self, names: &[RecordName]) -> Result<ResetResult, StoreFault>
        ensures puts { Writes S.Store self.old self.new
            (reset_of (kept_entries S.Store self.old) names.now) result }
        ensures answer { IsFaithful S.Store self.new
            → IfOk result
            (λ answer. answer ≡ answer_of (kept_entries S.Store self.old) names.now) }
        ensures open { IsHonest S.Store self.new → OnOk result (IsFaithful S.Store self.new) }
        ensures counted { OnOk result (HasRisen self.old.writes self.new.writes) }
        ensures shut { IsRefused self.old result }
    {
        if !self.is_usable {
            return Err(refusal(&mut self.faults));
        }
        let made = reset_these(self.alloc, &mut self.conn, names);
        reset_concluded(&mut self.writes, &mut self.faults, made)
    }

    /// Forgets the confirmed revision and the id of each of these records, by one write: of all of them or of
    /// none. The rows stay. If one of them isn't in the journal, nothing changes.
    pub fn reset(&mut self, scope: &Scope) -> Result<ResetResult, StoreFault>
        ensures puts { Writes S.Store self.old self.new
            (after_reset scope.now (kept_entries S.Store self.old)) result }
        ensures answer { IsFaithful S.Store self.new
            → IfOk result
            (λ answer. answer ≡ reset_answer scope.now (kept_entries S.Store self.old)) }
        ensures open { IsHonest S.Store self.new → OnOk result (IsFaithful S.Store self.new) }
        ensures counted { OnOk result (HasRisen self.old.writes self.new.writes) }
        ensures shut { IsRefused self.old result }
    {
        match scope {
            Scope::All => self.reset_every(),
            Scope::These(names) => self.reset_named(names.as_slice()),
        }
    }
}

// ---- opening and closing

/// The journal's fault for a fault of an opening.
fn journal_fault(fault: JournalOpenFault) -> StoreFault
    ensures { result ≡ journal_fault fault }
{
    match fault {
        JournalOpenFault::Memory => StoreFault::Memory,
        JournalOpenFault::Store | JournalOpenFault::Damaged | JournalOpenFault::Newer =>
            StoreFault::Store,
    }
}

impl<S: Alter> SqlJournal<S> {
    /// Opens the journal of a connection. If there are no tables, it makes them; otherwise it checks them,
    /// their format and each row. It carries a journal of an older format over to the current one, all of
    /// it or none. If it refuses the tables, it hands the connection back.
    pub fn open(
        alloc: Global,
        mut conn: Connection<S>,
    ) -> Result<SqlJournal<S>, (JournalOpenFault, Connection<S>)>
        ensures faithful { IfOk result (λ j. IsHonest S.Store j → IsFaithful S.Store j) }
        ensures entries { IfOk result (λ j. IsHonest S.Store j
            → Stands (state S.Store conn) (kept_entries S.Store j)) }
        ensures becomes { IfOk result (λ j. IsHonest S.Store j
            → Becomes (state S.Store conn) (state S.Store j.conn) (kept_entries S.Store j)) }
        ensures counts { IfOk result (λ j. (j.faults ≡ 0) × (j.writes ≡ 0)) }
        ensures stop { IfOk result
            (λ j. Survives (state S.Store conn) (state S.Store j.conn)
            (LeavesStanding (state S.Store conn))) }
        ensures cause { IfErr result (λ e. HasCleanDisk (state S.Store e.1)
            → IsCause (state S.Store conn) e.0) }
        ensures failed { IfErr result (λ e. HasCleanDisk (state S.Store e.1)
            → OpenFailsFor (OpeningFails (state S.Store conn) (state S.Store e.1)) e.0) }
        ensures left { IfErr result (λ e. HasCleanDisk (state S.Store e.1)
            → LeavesStore (state S.Store conn) (state S.Store e.1)) }
        ensures refused { IfErr result
            (λ e. Survives (state S.Store conn) (state S.Store e.1)
            (LeavesStanding (state S.Store conn))) }
    {
        match open_tables(alloc, &mut conn) {
            Ok(()) => Ok(SqlJournal {
                conn,
                alloc,
                is_usable: true,
                faults: 0,
                writes: 0,
            }),
            Err(fault) => Err((fault, conn)),
        }
    }

    /// Gives the connection back.
    pub fn close(self) -> Connection<S>
        ensures { result ≡ self.conn }
    {
        let SqlJournal { conn, .. } = self;
        conn
    }
}

impl<S: Alter> ReopenJournal for SqlJournal<S> {
    /// Checks the tables, their format and each row again, on the same connection. If that fails, every
    /// call except this one and `close` returns a store fault.
    fn reopen(&mut self) -> Result<(), StoreFault>
        ensures reopens { OpensAgain S.Store self.old self.new result }
        ensures failed { IsHonest S.Store self.new
            → IfErr result
            (CallFailsFor (HasFailed (state S.Store self.old.conn) (state S.Store self.new.conn)
            ⊎ IsUnfit (state S.Store self.old.conn))) }
        ensures usable { self.new.is_usable ≡ is_ok result }
    {
        match check_tables::<S, Tables>(self.alloc, &mut self.conn) {
            Ok(()) => {
                self.is_usable = true;
                Ok(())
            }
            Err(fault) => {
                self.is_usable = false;
                Err(counted(&mut self.faults, journal_fault(fault)))
            }
        }
    }
}
