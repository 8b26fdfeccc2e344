//! A file that keeps the entries.
ghost use Rattle.std.specs.Prelude.{◌≡◌, IfErr, IfOk, IsTrue, MatchOption};
ghost use Rattle.sqlite.specs.Files.{file_state};
ghost use Rattle.sqlite.specs.Held.{state};
ghost use Rattle.sqlite.specs.State.{IsLive};
ghost use Rattle.storage.specs.JournalOpened.{FindsEntries, IsCarried, IsOpenedAgain, IsOpenedAt, KeepsTables, LeavesEntries, Opens, OpensFiles};
ghost use Rattle.storage.specs.Looking.{FindsNoTables};
ghost use Rattle.storage.specs.Places.{IsMissingAt};

use crate::closing::Close;
use crate::database::{DatabaseFile, Remains, closed, connected};
use crate::entry_storage::{EntryStorage, StoredEntries};
use crate::host::DatabaseHost;
use crate::looking::{LookFault, seen_in};
use crate::places::IfMissing;
use crate::reason::DatabaseReason;
use journal_core::Journal;
use journal_store::{JournalOpenFault, ResetResult, Scope, SqlJournal, is_older};
use scim_key::StoreFault;
use sqlite::{Alter, Connection, FileStore};
use sqlite_disk::{Disk, Files};
use std::alloc::{AllocGlobal, Global};
use std::random::RandomSource;

/// A file that keeps the journal of a connector. The first `open` makes it if there is none.
#[derive(Drop)]
pub struct JournalFile<'a, H> {
    pub file: DatabaseFile<'a, H>,
}

impl<'a, H: DatabaseHost> EntryStorage for JournalFile<'a, H> {
    type Entries = SqlJournal<FileStore<H::Disk>>;

    /// Files that the host gives have these entries.
    ghost finds = { λ _ entries. (files : _) × H.DatabaseHost.gives files
        × FindsEntries H.Disk.Disk files entries };

    ghost is_missing = { λ s. IsMissingAt (H.DatabaseHost.says s.file.rt.now) s.file.place.now.path.now };

    ghost has_no_tables = { λ _. (files : _) × H.DatabaseHost.gives files
        × FindsNoTables H.Disk.Disk files };

    /// If the file is refused, it is closed unchanged.
    fn open(&self) -> Result<Self::Entries, JournalOpenFault> {
        self.entries_of(self.file.open(IfMissing::Make)?)
    }

    fn find(&self) -> Result<Option<Self::Entries>, JournalOpenFault> {
        match self.file.open(IfMissing::Refuse) {
            Ok(files) => Ok(Some(self.entries_of(files)?)),
            Err(DatabaseReason::Missing(_)) => Ok(None),
            Err(reason) => Err(JournalOpenFault::from(reason)),
        }
    }

    /// If the file is refused, it is closed unchanged.
    fn look(&self) -> Result<Option<Self::Entries>, LookFault> {
        match self.file.open(IfMissing::Refuse) {
            Ok(files) => self.seen_of(files),
            Err(DatabaseReason::Missing(_)) => Ok(None),
            Err(reason) => Err(LookFault::from(JournalOpenFault::from(reason))),
        }
    }

    fn reason(&self) -> Option<DatabaseReason> {
        self.file.reason()
    }

    fn name(&self) -> &str {
        self.file.place.path
    }
}

impl<'a, H: DatabaseHost> JournalFile<'a, H> {
    /// The journal of the files at the place. If they are refused, they are closed, and why is kept.
    fn entries_of(
        &self,
        files: Files<H::Disk>,
    ) -> Result<SqlJournal<FileStore<H::Disk>>, JournalOpenFault>
        requires log { IsTrue (H.Disk.Disk.is_usable files.log) }
        requires db { IsTrue (H.Disk.Disk.is_usable files.db) }
        requires given { H.DatabaseHost.gives files }
        ensures { IfOk result (IsOpenedAt ⟦<SqlJournal<FileStore<H::Disk>> as Journal>⟧
            (λ entries. (files : _) × H.DatabaseHost.gives files
            × FindsEntries H.Disk.Disk files entries)) }
    {
        match opened_in(self.file.rt, files) {
            Ok(Opened::Entries(entries)) => {
                self.file.place.forget();
                Ok(entries)
            }
            Ok(Opened::Carried(conn)) => opened_again(&self.file, conn),
            Err((fault, left)) => Err(refused(&self.file, fault, left)),
        }
    }

    /// The journal of the files at the place, if they have tables.
    fn seen_of(
        &self,
        files: Files<H::Disk>,
    ) -> Result<Option<SqlJournal<FileStore<H::Disk>>>, LookFault>
        requires log { IsTrue (H.Disk.Disk.is_usable files.log) }
        requires db { IsTrue (H.Disk.Disk.is_usable files.db) }
        requires given { H.DatabaseHost.gives files }
        ensures { IfOk result (λ seen. MatchOption seen
            ((files : _) × H.DatabaseHost.gives files
            × FindsNoTables H.Disk.Disk files)
            (IsOpenedAt ⟦<SqlJournal<FileStore<H::Disk>> as Journal>⟧
            (λ entries. (files : _) × H.DatabaseHost.gives files
            × FindsEntries H.Disk.Disk files entries))) }
    {
        match seen_in(self.file.rt, files) {
            Ok(seen) => {
                self.file.place.forget();
                Ok(seen)
            }
            Err((fault, left)) => {
                let has_failed = matches!(fault, LookFault::Refused(JournalOpenFault::Store));
                self.file.keep_cause(left, has_failed);
                Err(fault)
            }
        }
    }
}

impl<S: Alter + Drop> StoredEntries for SqlJournal<S>
where
    Connection<S>: Close,
{
    type Left = <Connection<S> as Close>::Left;

    ghost is_closed = { λ s left. ⟦<Connection<S> as Close>⟧.is_closed s.conn left };

    fn reset(&mut self, scope: &Scope) -> Result<ResetResult, StoreFault> {
        SqlJournal::reset(self, scope)
    }

    fn close(self) -> Self::Left {
        SqlJournal::close(self).close_all()
    }
}

/// What an opening of tables leaves if it doesn't refuse them.
enum Opened<S: Alter> {
    Entries(SqlJournal<S>),
    /// An older format was carried over. The connection keeps the memory that this transaction took.
    Carried(Connection<S>),
}

/// The journal of files, or a connection to them if an older format was carried over. If they are refused, what is
/// left of them is handed back: they have what they held.
fn opened_in<D: Disk + Drop>(
    rt: &(impl RandomSource + AllocGlobal),
    files: Files<D>,
) -> Result<Opened<FileStore<D>>, (JournalOpenFault, Remains<D>)>
    requires log { IsTrue (D.Disk.is_usable files.log) }
    requires db { IsTrue (D.Disk.is_usable files.db) }
    ensures opened { IfOk result (OpensFiles files) }
    ensures refused { IfErr result (λ e. LeavesEntries files e.1) }
{
    let conn = match connected(rt, files) {
        Ok(conn) => conn,
        Err(refused) => return Err((JournalOpenFault::from(refused.0), Err(refused))),
    };
    match opened_from(rt.alloc(), conn) {
        Ok(opened) => Ok(opened),
        Err((fault, conn)) => Err((fault, Ok(conn))),
    }
}

/// The journal of a connection, or that connection if an older format was carried over. If its tables are refused, it
/// is handed back.
fn opened_from<S: Alter>(
    alloc: Global,
    conn: Connection<S>,
) -> Result<Opened<S>, (JournalOpenFault, Connection<S>)>
    ensures opened { IfOk result (Opens S.Store (state S.Store conn)) }
    ensures refused { IfErr result (λ e. KeepsTables (state S.Store conn) (state S.Store e.1)) }
{
    let is_older = is_older(&conn);
    match SqlJournal::open(alloc, conn) {
        Ok(entries) if is_older => Ok(Opened::Carried(connection_of(entries))),
        Ok(entries) => Ok(Opened::Entries(entries)),
        Err(refused) => Err(refused),
    }
}

/// The connection of a journal.
fn connection_of<S: Alter>(entries: SqlJournal<S>) -> Connection<S>
    ensures same { result ≡ entries.conn }
    ensures live { IsLive (state S.Store result) }
{
    let conn = SqlJournal::close(entries);
    let _schema = conn.schema();
    conn
}

/// Closes a connection that carried an older format over, and opens the journal of its files, which stay locked
/// meanwhile. If this fails, the files are closed. A journal that is of an older format again wasn't kept by its disk.
fn opened_again<H: DatabaseHost, D: Disk + Drop>(
    file: &DatabaseFile<'_, H>,
    conn: Connection<FileStore<D>>,
) -> Result<SqlJournal<FileStore<D>>, JournalOpenFault>
    requires { IsCarried (file_state conn) }
    ensures { IfOk result (IsOpenedAgain ⟦<SqlJournal<FileStore<D>> as Journal>⟧ conn) }
{
    match opened_in(file.rt, closed(conn)?) {
        Ok(Opened::Entries(entries)) => {
            file.place.forget();
            Ok(entries)
        }
        Ok(Opened::Carried(conn)) => Err(refused(file, JournalOpenFault::Store, Ok(conn))),
        Err((fault, left)) => Err(refused(file, fault, left)),
    }
}

/// The fault of files that were refused. If a call failed, why is kept.
fn refused<H: DatabaseHost, D: Disk + Drop>(
    file: &DatabaseFile<'_, H>,
    fault: JournalOpenFault,
    left: Remains<D>,
) -> JournalOpenFault
    ensures { result ≡ fault }
{
    let has_failed = matches!(fault, JournalOpenFault::Store);
    file.keep_cause(left, has_failed);
    fault
}
