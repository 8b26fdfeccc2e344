//! A file that keeps the rows.
ghost use Rattle.std.specs.Prelude.{IfErr, IfOk, IsTrue};
ghost use Rattle.storage.specs.Places.{IsMissingAt};
ghost use Rattle.storage.specs.StoreOpened.{FindsRows, IsOpenedAt, LeavesRows};

use crate::closing::Close;
use crate::database::{DatabaseFile, Remains, connected};
use crate::host::DatabaseHost;
use crate::places::IfMissing;
use crate::reason::DatabaseReason;
use crate::row_storage::{RowStorage, StoredRows};
use provider_core::Registry;
use provider_store::{RegistryOpenFault, SqlRegistry};
use sqlite::{Alter, Connection, FileStore};
use sqlite_disk::{Disk, Files};
use std::alloc::AllocGlobal;
use std::random::RandomSource;

/// A file that keeps the rows of a provider. The first `open` makes it if there is none.
#[derive(Drop)]
pub struct StoreFile<'a, H> {
    pub file: DatabaseFile<'a, H>,
}

impl<'a, H: DatabaseHost> RowStorage for StoreFile<'a, H> {
    type Rows = SqlRegistry<FileStore<H::Disk>>;

    /// It isn't known what an existing file contains.
    ghost refuses = { λ _ _. Unit {0} };

    /// Files that the host gives have these rows.
    ghost finds = { λ _ rows. (files : _) × H.DatabaseHost.gives files
        × FindsRows H.Disk.Disk files rows };

    ghost is_missing = { λ s. IsMissingAt (H.DatabaseHost.says s.file.rt.now) s.file.place.now.path.now };

    /// If the file is refused, it is closed unchanged.
    fn open(&self) -> Result<Self::Rows, RegistryOpenFault> {
        self.rows_of(self.file.open(IfMissing::Make)?)
    }

    fn find(&self) -> Result<Option<Self::Rows>, RegistryOpenFault> {
        match self.file.open(IfMissing::Refuse) {
            Ok(files) => Ok(Some(self.rows_of(files)?)),
            Err(DatabaseReason::Missing(_)) => Ok(None),
            Err(reason) => Err(RegistryOpenFault::from(reason)),
        }
    }

    fn reason(&self) -> Option<DatabaseReason> {
        self.file.reason()
    }

    fn name(&self) -> &str {
        self.file.place.path
    }
}

impl<'a, H: DatabaseHost> StoreFile<'a, H> {
    /// The registry of the files at the place. If they are refused, they are closed, and why is kept.
    fn rows_of(
        &self,
        files: Files<H::Disk>,
    ) -> Result<SqlRegistry<FileStore<H::Disk>>, RegistryOpenFault>
        requires log { IsTrue (H.Disk.Disk.is_usable files.log) }
        requires db { IsTrue (H.Disk.Disk.is_usable files.db) }
        requires given { H.DatabaseHost.gives files }
        ensures { IfOk result (IsOpenedAt ⟦<SqlRegistry<FileStore<H::Disk>> as Registry>⟧
            (λ rows. (files : _) × H.DatabaseHost.gives files
            × FindsRows H.Disk.Disk files rows)) }
    {
        match rows_in(self.file.rt, files) {
            Ok(rows) => {
                self.file.place.forget();
                Ok(rows)
            }
            Err((fault, left)) => {
                let has_failed = matches!(fault, RegistryOpenFault::Store);
                self.file.keep_cause(left, has_failed);
                Err(fault)
            }
        }
    }
}

impl<S: Alter + Drop> StoredRows for SqlRegistry<S>
where
    Connection<S>: Close,
{
    type Left = <Connection<S> as Close>::Left;

    ghost is_closed = { λ s left. ⟦<Connection<S> as Close>⟧.is_closed s.conn left };

    fn has_failed(&self) -> bool {
        SqlRegistry::has_failed(self)
    }

    fn close(self) -> Self::Left {
        SqlRegistry::close(self).close_all()
    }
}

/// The registry of files. If they are refused, what is left of them is handed back: they have what they held.
fn rows_in<D: Disk + Drop>(
    rt: &(impl RandomSource + AllocGlobal),
    files: Files<D>,
) -> Result<SqlRegistry<FileStore<D>>, (RegistryOpenFault, Remains<D>)>
    requires log { IsTrue (D.Disk.is_usable files.log) }
    requires db { IsTrue (D.Disk.is_usable files.db) }
    ensures opened { IfOk result
        (IsOpenedAt ⟦<SqlRegistry<FileStore<D>> as Registry>⟧ (FindsRows D.Disk files)) }
    ensures refused { IfErr result (λ e. LeavesRows files e.1) }
{
    let conn = match connected(rt, files) {
        Ok(conn) => conn,
        Err(refused) => return Err((RegistryOpenFault::from(refused.0), Err(refused))),
    };
    match SqlRegistry::open(rt.alloc(), conn) {
        Ok(rows) => Ok(rows),
        Err((fault, conn)) => Err((fault, Ok(conn))),
    }
}
