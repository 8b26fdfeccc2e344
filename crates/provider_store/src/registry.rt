//! A registry in SQLite.
ghost use Rattle.std.specs.Prelude.{◌≡◌, ◌⊎◌, ℕ, ◌<◌, ◌≤◌, ◌+◌, ◌-◌, ◌↔◌, ◌++◌, ◌∷◌, [], length, min, None, Some, Ok, IfErr, IfOk, OnOk, IsTrue, slice_get};
ghost use Rattle.std.specs.Result.{is_ok};
ghost use Rattle.scim_resource.specs.Contents.{content_name};
ghost use Rattle.provider_core.specs.Rows.{AreNamedApart, IsNumberedFrom, count_if_free, page_after, row_named, row_with_id, with_row};
ghost use Rattle.provider_core.specs.Stores.{CountsFault, CountsFaults, HasRisen, HoldsNumber};
ghost use Rattle.provider_core.specs.declared.registry.TheConstants.{ROWS_AT_ONCE};
ghost use Rattle.provider_store.specs.Calls.{Reads, Writes, OpensAgain};
ghost use Rattle.provider_store.specs.Kept.{IsFaithful, IsHonest, IsRefused, MayHold, kept_rows};
ghost use Rattle.provider_store.specs.Connections.{FindsName, FindsNumber, resources};
ghost use Rattle.provider_store.specs.declared.tables.Found.TheVariants.{Damaged};
ghost use Rattle.provider_store.specs.Lookups.{IsFaultOf, IsPageFault, found_of};
ghost use Rattle.provider_store.specs.Opening.{IsCause, IsDamaged, IsUnfit, LeavesNone, OpenFailsFor, OpeningFails, Stands, registry_fault};
ghost use Rattle.sqlite.specs.Held.{state};
ghost use Rattle.sqlite.specs.State.{HasCleanDisk, Survives};
ghost use Rattle.sql_tables.specs.Faults.{FailsFor, HasFailed};
ghost use Rattle.sql_tables.specs.Statements.{LeavesStore};

use crate::opening::{RegistryOpenFault, check_tables, open_tables};
use crate::tables::{Found, find_named, find_numbered, find_page, insert_row, update_row};
use provider_core::{Registry, Reopen};
use scim_key::{RecordName, ResourceId, StoreFault};
use scim_resource::Stored;
use sql_tables::{counted, refusal};
use sqlite::{Alter, Connection};
use std::alloc::Global;
use std::marker::Model;

/// A registry with its rows in the tables of a connection.
#[derive(Drop)]
pub struct SqlRegistry<S: Alter> {
    conn: Connection<S>,
    alloc: Global,
    is_usable: bool,
    count: u32,
    faults: u64,
    writes: u64,
}

impl<S: Alter> Model for SqlRegistry<S> {
    ghost use Rattle.provider_store.specs.Kept.{Kept, kept_code, IsSound};

    ghost Value = { Kept S };

    ghost coded = { kept_code S.code };

    ghost view = { λ r. record {
      conn = r.conn;
      is_usable = r.is_usable;
      count = r.count;
      faults = r.faults;
      writes = r.writes;
    } };

    ghost invariant = { λ r. IsSound S.Store (record {
      conn = r.conn;
      is_usable = r.is_usable;
      count = r.count;
      faults = r.faults;
      writes = r.writes;
    }) };
}

/// The registry's fault for a fault of an opening.
fn registry_fault(fault: RegistryOpenFault) -> StoreFault
    ensures { result ≡ registry_fault fault }
{
    match fault {
        RegistryOpenFault::Memory => StoreFault::Memory,
        RegistryOpenFault::Store | RegistryOpenFault::Damaged(_) | RegistryOpenFault::Newer =>
            StoreFault::Store,
    }
}

/// The row that a look-up found; an invalid row is a fault of the store.
fn one_of(faults: &mut u64, found: Result<Found, StoreFault>) -> Result<Option<Stored>, StoreFault>
    ensures found { IfOk result (λ row. found ≡ Ok (found_of row)) }
    ensures fault { IfErr result (IsFaultOf found) }
    ensures counts { CountsFaults CountsFault faults.old faults.new result }
{
    match found {
        Ok(Found::There(row)) => Ok(Some(row)),
        Ok(Found::Nothing) => Ok(None),
        Ok(Found::Damaged) => Err(counted(faults, StoreFault::Store)),
        Err(fault) => Err(counted(faults, fault)),
    }
}

/// The page of this many rows that a look-up found; any other result is a fault of the store.
fn page_of(
    faults: &mut u64,
    found: Result<Option<Vec<Stored>>, StoreFault>,
    count: u32,
) -> Result<Vec<Stored>, StoreFault>
    ensures found { IfOk result (λ page. (found ≡ Ok (Some page)) × (length page.items ≡ count)) }
    ensures fault { IfErr result (IsPageFault (λ page. length page.items ≡ count) found) }
    ensures counts { CountsFaults CountsFault faults.old faults.new result }
{
    let fault = match found {
        Ok(Some(page)) if page.len() == count as usize => return Ok(page),
        Ok(_) => StoreFault::Store,
        Err(fault) => fault,
    };
    Err(counted(faults, fault))
}

impl<S: Alter> SqlRegistry<S> {
    /// Opens the store of a connection. If there are no tables, it makes them; otherwise it checks them,
    /// their format and each row. If it refuses them, it hands the connection back.
    pub fn open(
        alloc: Global,
        mut conn: Connection<S>,
    ) -> Result<SqlRegistry<S>, (RegistryOpenFault, Connection<S>)>
        ensures faithful { IfOk result (λ r. IsHonest S.Store r → IsFaithful S.Store r) }
        ensures rows { IfOk result (λ r. IsHonest S.Store r
            → Stands (state S.Store conn) (kept_rows S.Store r)) }
        ensures counts { IfOk result (λ r. (r.faults ≡ 0) × (r.writes ≡ 0)) }
        ensures stop { IfOk result
            (λ r. Survives (state S.Store conn) (state S.Store r.conn) LeavesNone) }
        ensures sound { IfOk result (λ r. IsHonest S.Store r → (number : ℕ)
            → IsDamaged (state S.Store conn) number → ⊥) }
        ensures cause { IfErr result (λ e. HasCleanDisk (state S.Store e.1)
            → IsCause (state S.Store conn) e.0) }
        ensures failed { IfErr result (λ e. HasCleanDisk (state S.Store e.1)
            → OpenFailsFor (OpeningFails (state S.Store conn) (state S.Store e.1)) e.0) }
        ensures left { IfErr result (λ e. HasCleanDisk (state S.Store e.1)
            → LeavesStore (state S.Store conn) (state S.Store e.1)) }
        ensures refused { IfErr result
            (λ e. Survives (state S.Store conn) (state S.Store e.1) LeavesNone) }
    {
        match open_tables(alloc, &mut conn) {
            Ok(count) => Ok(SqlRegistry {
                conn,
                alloc,
                is_usable: true,
                count,
                faults: 0,
                writes: 0,
            }),
            Err(fault) => Err((fault, conn)),
        }
    }

    /// Gives the connection back.
    pub fn close(self) -> Connection<S>
        ensures { result ≡ self.conn }
    {
        let SqlRegistry { conn, .. } = self;
        conn
    }

    /// Whether a fault of the store was counted.
    pub fn has_failed(&self) -> bool
        ensures { IsTrue result ↔ (0 < self.now.faults) }
    {
        self.faults > 0
    }

    /// The row with this number, if there is one.
    fn row_at(&mut self, number: u32) -> Result<Option<Stored>, StoreFault>
        requires { 1 ≤ number }
        ensures ok { IsFaithful S.Store self.new
            → IfOk result (λ row. row ≡ slice_get (kept_rows S.Store self.old) (number - 1)) }
        ensures reads { Reads S.Store self.old self.new result }
        ensures shut { IsRefused self.old result }
        ensures counted { self.new.count ≡ self.old.count }
        ensures failed { IsTrue self.old.is_usable → IsHonest S.Store self.new
            → IfErr result
            (FailsFor (HasFailed (state S.Store self.old.conn) (state S.Store self.new.conn)
            ⊎ FindsNumber (resources (state S.Store self.old.conn)) number Damaged)) }
    {
        if !self.is_usable {
            return Err(refusal(&mut self.faults));
        }
        let found = find_numbered(self.alloc, &mut self.conn, number);
        one_of(&mut self.faults, found)
    }

    /// The row of a record, if there is one.
    fn row_of(&mut self, name: &RecordName) -> Result<Option<Stored>, StoreFault>
        ensures ok { IsFaithful S.Store self.new
            → IfOk result (λ row. row ≡ row_named name.now (kept_rows S.Store self.old)) }
        ensures reads { Reads S.Store self.old self.new result }
        ensures shut { IsRefused self.old result }
        ensures counted { self.new.count ≡ self.old.count }
        ensures failed { IsTrue self.old.is_usable → IsHonest S.Store self.new
            → IfErr result
            (FailsFor (HasFailed (state S.Store self.old.conn) (state S.Store self.new.conn)
            ⊎ FindsName (resources (state S.Store self.old.conn)) name.now Damaged)) }
    {
        if !self.is_usable {
            return Err(refusal(&mut self.faults));
        }
        let found = find_named(self.alloc, &mut self.conn, name);
        one_of(&mut self.faults, found)
    }

    /// The number of the last row of a page.
    fn last_of(&self, after: u32, limit: usize) -> u32
        ensures { result ≡ min (after + limit) self.now.count }
    {
        let last = (after as usize).saturating_add(limit);
        last.min(self.count as usize) as u32
    }
}

impl<S: Alter> Registry for SqlRegistry<S> {
    ghost use Rattle.provider_store.specs.KeptLaws.{kept_settled, kept_stays};

    ghost rows = { kept_rows S.Store };

    ghost is_faithful = { IsFaithful S.Store };

    ghost is_honest = { IsHonest S.Store };

    ghost may_hold = { MayHold S.Store };

    ghost faults = { λ k. k.faults };

    ghost writes = { λ k. k.writes };

    fn count(&mut self) -> Result<u32, StoreFault>
        ensures ok { IsFaithful S.Store self.new
            → IfOk result (λ n. n ≡ length (kept_rows S.Store self.old)) }
        ensures reads { Reads S.Store self.old self.new result }
        ensures shut { IsRefused self.old result }
        ensures failed { IsTrue self.old.is_usable → IsHonest S.Store self.new
            → IfErr result
            (FailsFor (HasFailed (state S.Store self.old.conn) (state S.Store self.new.conn)
            ⊎ FindsNumber (resources (state S.Store self.old.conn)) 1 Damaged)) }
    {
        self.row_at(1)?;
        Ok(self.count)
    }

    fn by_key(&mut self, name: &RecordName) -> Result<Option<Stored>, StoreFault>
        ensures ok { IsFaithful S.Store self.new
            → IfOk result (λ row. row ≡ row_named name.now (kept_rows S.Store self.old)) }
        ensures apart { IsFaithful S.Store self.new → AreNamedApart (kept_rows S.Store self.old) }
        ensures reads { Reads S.Store self.old self.new result }
        ensures shut { IsRefused self.old result }
        ensures failed { IsTrue self.old.is_usable → IsHonest S.Store self.new
            → IfErr result
            (FailsFor (HasFailed (state S.Store self.old.conn) (state S.Store self.new.conn)
            ⊎ FindsName (resources (state S.Store self.old.conn)) name.now Damaged)) }
    {
        self.row_of(name)
    }

    fn count_if_free(&mut self, name: &RecordName) -> Result<Option<u32>, StoreFault>
        ensures ok { IsFaithful S.Store self.new
            → IfOk result (λ count. count ≡ count_if_free name.now (kept_rows S.Store self.old)) }
        ensures reads { Reads S.Store self.old self.new result }
        ensures shut { IsRefused self.old result }
        ensures failed { IsTrue self.old.is_usable → IsHonest S.Store self.new
            → IfErr result
            (FailsFor (HasFailed (state S.Store self.old.conn) (state S.Store self.new.conn)
            ⊎ FindsName (resources (state S.Store self.old.conn)) name.now Damaged)) }
    {
        match self.row_of(name)? {
            Some(_) => Ok(None),
            None => Ok(Some(self.count)),
        }
    }

    fn by_id(&mut self, id: &ResourceId) -> Result<Option<Stored>, StoreFault>
        ensures ok { IsFaithful S.Store self.new
            → IfOk result (λ row. row ≡ row_with_id id.now (kept_rows S.Store self.old)) }
        ensures reads { Reads S.Store self.old self.new result }
        ensures shut { IsRefused self.old result }
        ensures failed { IsTrue self.old.is_usable → IsHonest S.Store self.new
            → IfErr result
            (FailsFor (HasFailed (state S.Store self.old.conn) (state S.Store self.new.conn)
            ⊎ ((number : ℕ)
            × FindsNumber (resources (state S.Store self.old.conn)) number Damaged))) }
    {
        match id.number() {
            Some(number) => self.row_at(number),
            None => {
                self.row_at(1)?;
                Ok(None)
            }
        }
    }

    fn scan(&mut self, after: u32, limit: usize) -> Result<Vec<Stored>, StoreFault>
        requires few { limit ≤ ROWS_AT_ONCE }
        ensures ok { IsFaithful S.Store self.new
            → IfOk result (λ page. page.items
            ≡ page_after after limit (kept_rows S.Store self.old)) }
        ensures numbered { IsFaithful S.Store self.new
            → IsNumberedFrom 1 (kept_rows S.Store self.old) }
        ensures apart { IsFaithful S.Store self.new → AreNamedApart (kept_rows S.Store self.old) }
        ensures reads { Reads S.Store self.old self.new result }
        ensures shut { IsRefused self.old result }
    {
        if !self.is_usable {
            return Err(refusal(&mut self.faults));
        }
        let last = self.last_of(after, limit);
        let found = find_page(self.alloc, &mut self.conn, after, last);
        page_of(&mut self.faults, found, last.saturating_sub(after))
    }

    fn insert(&mut self, row: Stored) -> Result<(), StoreFault>
        requires next { IsFaithful S.Store self.old
            → row.number ≡ length (kept_rows S.Store self.old) + 1 }
        requires free { IsFaithful S.Store self.old
            → row_named (content_name row.content) (kept_rows S.Store self.old) ≡ None }
        ensures adds { Writes S.Store self.old self.new
            (kept_rows S.Store self.old ++ row ∷ []) result }
        ensures open { IsHonest S.Store self.new → OnOk result (IsFaithful S.Store self.new) }
        ensures counted { OnOk result (HasRisen self.old.writes self.new.writes) }
        ensures shut { IsRefused self.old result }
    {
        if !self.is_usable {
            return Err(refusal(&mut self.faults));
        }
        match insert_row(self.alloc, &mut self.conn, &row) {
            Ok(()) => {
                self.count = row.number();
                self.writes = self.writes.saturating_add(1);
                Ok(())
            }
            Err(fault) => Err(counted(&mut self.faults, fault)),
        }
    }

    fn update(&mut self, row: &Stored) -> Result<(), StoreFault>
        requires there { IsFaithful S.Store self.old
            → HoldsNumber (kept_rows S.Store self.old) row.now }
        ensures replaces { Writes S.Store self.old self.new
            (with_row row.now (kept_rows S.Store self.old)) result }
        ensures open { IsHonest S.Store self.new → OnOk result (IsFaithful S.Store self.new) }
        ensures counted { OnOk result (HasRisen self.old.writes self.new.writes) }
        ensures shut { IsRefused self.old result }
    {
        if !self.is_usable {
            return Err(refusal(&mut self.faults));
        }
        match update_row(self.alloc, &mut self.conn, row) {
            Ok(()) => {
                self.writes = self.writes.saturating_add(1);
                Ok(())
            }
            Err(fault) => Err(counted(&mut self.faults, fault)),
        }
    }

    ghost is_so = { λ _ faithful. faithful.clean };

    ghost settled = { kept_settled _ S.Store.settled };

    ghost stays = { kept_stays _ S.Store.stays };
}

impl<S: Alter> Reopen for SqlRegistry<S> {
    /// Checks the tables, their format and each row again, on the same connection. If that fails, every
    /// call except this one and `close` returns a store fault.
    fn reopen(&mut self) -> Result<(), StoreFault>
        ensures reopens { OpensAgain S.Store self.old self.new result }
        ensures failed { IsHonest S.Store self.new
            → IfErr result
            (FailsFor (HasFailed (state S.Store self.old.conn) (state S.Store self.new.conn)
            ⊎ IsUnfit (state S.Store self.old.conn))) }
        ensures usable { self.new.is_usable ≡ is_ok result }
    {
        match check_tables(self.alloc, &mut self.conn) {
            Ok(count) => {
                self.is_usable = true;
                self.count = count;
                Ok(())
            }
            Err(fault) => {
                self.is_usable = false;
                Err(counted(&mut self.faults, registry_fault(fault)))
            }
        }
    }
}
