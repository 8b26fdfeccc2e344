//! A database file of the host.
ghost use Rattle.std.specs.Prelude.{◌≡◌, true, false, IfErr, IfOk, IsTrue};
ghost use Rattle.sqlite.specs.Closing.{IsCopied};
ghost use Rattle.sqlite.specs.Files.{Finds, IsCleanLeft, IsOpened as IsConnected, LeavesFiles, file_state};
ghost use Rattle.sqlite.specs.State.{HasCleanDisk};
ghost use Rattle.sqlite_wal.specs.Reads.{AreClean};
ghost use Rattle.storage.specs.Places.{IsMissing, IsMissingAt, IsVacant, MayBeOpened};

use crate::host::DatabaseHost;
use crate::notes::Notes;
use crate::places::{Found, IfMissing, Place, Standing, Step, judged, same_file};
use crate::reason::{DatabaseReason, failure_of};
use sqlite::{Connection, Error, ErrorCode, FileStore, Files, Leftover, Options};
use sqlite_disk::Disk;
use sqlite_std_file::OpenError;
use std::alloc::{AllocError, AllocGlobal};
use std::fs::OpenOptions;
use std::hash::{BuildHasher, RandomState};
use std::io::{self, ErrorKind};
use std::os::unix::fs::OpenOptionsExt;
use std::random::RandomSource;

/// How many pages of a file a connection keeps in memory: 2 MB of pages of 4,096 bytes.
const CACHE_PAGES: usize = 512;

/// The mode of a new file: only its owner reads and writes it. Its log gets the same mode.
const PRIVATE: u32 = 0o600;

/// A database file of SQLite. Its log is the path with `-wal` at its end.
#[derive(Drop)]
pub struct DatabaseFile<'a, H> {
    pub(crate) rt: &'a H,
    pub(crate) place: &'a Place<'a>,
}

impl<'a, H: DatabaseHost> DatabaseFile<'a, H> {
    /// The file at this place, which isn't opened yet.
    pub fn new(rt: &'a H, place: &'a Place<'a>) -> DatabaseFile<'a, H> {
        DatabaseFile { rt, place }
    }

    /// Opens the file with its log. The first opening of a place makes the file if there is none, unless it must be
    /// there; each later one takes the same file. Why files can't be used is kept at the place, from now on. That these
    /// are the files at the path, and that no other call touches them, is no clause: this call is trusted for it.
    pub(crate) fn open(&self, missing: IfMissing) -> Result<Files<H::Disk>, DatabaseReason>
        ensures log { IfOk result (λ files. IsTrue (H.Disk.Disk.is_usable files.log)) }
        ensures db { IfOk result (λ files. IsTrue (H.Disk.Disk.is_usable files.db)) }
        ensures given { IfOk result H.DatabaseHost.gives }
        ensures missing { IfErr result (λ why. IsMissing why
            → IsMissingAt (H.DatabaseHost.says self.now.rt.now) self.now.place.now.path.now) }
    {
        self.place.forget();
        match self.files(missing) {
            Ok(files) => Ok(files),
            Err(reason) => {
                self.place.keep(reason);
                Err(reason)
            }
        }
    }

    /// The notes of the place, for the log and for the file.
    fn notes(&self) -> Result<(Notes, Notes), DatabaseReason>
        ensures { IfErr result (λ why. IsMissing why → ⊥) }
    {
        match (self.place.notes.share(), self.place.notes.share()) {
            (Ok(log), Ok(db)) => Ok((log, db)),
            _ => Err(DatabaseReason::System(io::Error::from(AllocError))),
        }
    }

    /// The file and its log. The names that SQLite has for a database without a file, and for a URI, are refused.
    fn files(&self, missing: IfMissing) -> Result<Files<H::Disk>, DatabaseReason>
        ensures log { IfOk result (λ files. IsTrue (H.Disk.Disk.is_usable files.log)) }
        ensures db { IfOk result (λ files. IsTrue (H.Disk.Disk.is_usable files.db)) }
        ensures given { IfOk result H.DatabaseHost.gives }
        ensures missing { IfErr result (λ why. IsMissing why
            → IsMissingAt (H.DatabaseHost.says self.now.rt.now) self.now.place.now.path.now) }
    {
        let path = self.place.path;
        if path == ":memory:" || path.starts_with("file:") {
            return Err(DatabaseReason::Failed(ErrorCode::CannotOpen));
        }
        let standing = self.standing()?;
        match judged(self.place.opened(), missing, standing)? {
            Step::Open => self.files_of(standing),
            Step::Make => self.files_made(standing),
        }
    }

    /// Makes the file, and opens it.
    fn files_made(&self, standing: Standing) -> Result<Files<H::Disk>, DatabaseReason>
        requires said { H.DatabaseHost.says self.now.rt.now self.now.place.now.path.now standing }
        requires vacant { IsVacant standing }
        ensures log { IfOk result (λ files. IsTrue (H.Disk.Disk.is_usable files.log)) }
        ensures db { IfOk result (λ files. IsTrue (H.Disk.Disk.is_usable files.db)) }
        ensures given { IfOk result H.DatabaseHost.gives }
        ensures missing { IfErr result (λ why. IsMissing why
            → IsMissingAt (H.DatabaseHost.says self.now.rt.now) self.now.place.now.path.now) }
    {
        self.make(standing)?;
        let made = self.standing()?;
        match judged(None, IfMissing::Refuse, made)? {
            Step::Open => self.files_of(made),
            Step::Make => Err(DatabaseReason::Moved),
        }
    }

    /// Makes an empty file. Its path was looked at before: there was none, and no log of one with changes.
    fn make(&self, _standing: Standing) -> Result<(), DatabaseReason>
        requires said { H.DatabaseHost.says self.now.rt.now self.now.place.now.path.now _standing }
        requires vacant { IsVacant _standing }
        ensures { IfErr result (λ why. IsMissing why → ⊥) }
    {
        match OpenOptions::new()
            .write(true)
            .create_new(true)
            .mode(PRIVATE)
            .open(self.rt, self.place.path)
        {
            Ok(_file) => Ok(()),
            Err(error) => Err(DatabaseReason::System(error)),
        }
    }

    /// Opens what is at the path. If the file isn't the one that was looked at, it is closed again.
    fn files_of(&self, standing: Standing) -> Result<Files<H::Disk>, DatabaseReason>
        requires said { H.DatabaseHost.says self.now.rt.now self.now.place.now.path.now standing }
        requires there { MayBeOpened standing.found standing.log }
        ensures log { IfOk result (λ files. IsTrue (H.Disk.Disk.is_usable files.log)) }
        ensures db { IfOk result (λ files. IsTrue (H.Disk.Disk.is_usable files.db)) }
        ensures given { IfOk result H.DatabaseHost.gives }
        ensures fault { IfErr result (λ why. IsMissing why → ⊥) }
    {
        let (log, db) = self.notes()?;
        match self.rt.open_database(self.place.path, standing, log, db) {
            Ok(files) => {
                self.keep_opened(standing)?;
                Ok(files)
            }
            Err(error) => Err(self.refusal(error)),
        }
    }

    /// Keeps which file was opened, if it is the one that was looked at.
    fn keep_opened(&self, looked: Standing) -> Result<(), DatabaseReason>
        ensures { IfErr result (λ why. IsMissing why → ⊥) }
    {
        match (looked.found, self.standing()?.found) {
            (Found::File(looked, _), Found::File(file, _)) if same_file(looked, file) => {
                self.place.keep_opened(file);
                Ok(())
            }
            _ => Err(DatabaseReason::Moved),
        }
    }

    /// Why files weren't opened: what the system says if the file can't be opened for writing, or else this.
    fn refusal(&self, error: OpenError) -> DatabaseReason
        ensures { IsMissing result → ⊥ }
    {
        match OpenOptions::new()
            .read(true)
            .write(true)
            .open(self.rt, self.place.path)
        {
            Err(error) if error.kind() != ErrorKind::NotFound => DatabaseReason::System(error),
            _ => DatabaseReason::Unopened(error),
        }
    }

    /// What is at the path now.
    fn standing(&self) -> Result<Standing, DatabaseReason>
        ensures said { IfOk result (H.DatabaseHost.says self.now.rt.now self.now.place.now.path.now) }
        ensures fault { IfErr result (λ why. IsMissing why → ⊥) }
    {
        match self.rt.look_at(self.place.path) {
            Ok(standing) => Ok(standing),
            Err(error) => Err(DatabaseReason::System(error)),
        }
    }

    /// Keeps why files were refused, if a call failed. What is left of them is dropped.
    pub(crate) fn keep_cause<D: Disk + Drop>(&self, left: Remains<D>, has_failed: bool) {
        match left {
            Err((error, _left)) => {
                if let Some(reason) = failure_of(error) {
                    self.place.keep(reason);
                }
            }
            Ok(_conn) => {}
        }
        if !has_failed {
            self.place.forget();
        }
    }

    /// Why the file can't be used: it isn't the one that was opened, or else what its last opening or call met. Nothing
    /// is opened.
    pub(crate) fn reason(&self) -> Option<DatabaseReason> {
        if let Ok(standing) = self.standing()
            && let Err(DatabaseReason::Moved) = judged(
                self.place.opened(),
                IfMissing::Refuse,
                standing,
            )
        {
            return Some(DatabaseReason::Moved);
        }
        self.place.met()
    }
}

/// What is left of files that were refused: a connection to them, or why there is none, and what became of them.
pub(crate) type Remains<D> = Result<Connection<FileStore<D>>, (Error, Leftover<D>)>;

/// The fault of a refusal. What it leaves is dropped.
pub(crate) fn fault_of<F, L: Drop>(refused: (F, L)) -> F
    ensures { result ≡ refused.0 }
{
    let (fault, _left) = refused;
    fault
}

/// Closes a connection. If this fails, its files are closed.
pub(crate) fn closed<D: Disk + Drop>(conn: Connection<FileStore<D>>) -> Result<Files<D>, Error>
    ensures log { IfOk result (λ files. IsTrue (D.Disk.is_usable files.log)) }
    ensures db { IfOk result (λ files. IsTrue (D.Disk.is_usable files.db)) }
    ensures copied { IfOk result
        (λ files. AreClean D.Disk files.log files.db → IsCopied conn files) }
{
    match conn.close_files() {
        Ok(files) => Ok(files),
        Err(refused) => Err(fault_of(refused)),
    }
}

/// Connects to files. The connection keeps as much of them in memory as SQLite does. If the files are refused, what is
/// left of them is handed back.
pub(crate) fn connected<D: Disk + Drop>(
    rt: &(impl RandomSource + AllocGlobal),
    files: Files<D>,
) -> Result<Connection<FileStore<D>>, (Error, Leftover<D>)>
    requires log { IsTrue (D.Disk.is_usable files.log) }
    requires db { IsTrue (D.Disk.is_usable files.db) }
    ensures connected { IfOk result (λ conn. HasCleanDisk (file_state conn) → IsConnected conn) }
    ensures found { IfOk result (λ conn. HasCleanDisk (file_state conn) → Finds files conn) }
    ensures unharmed { IfErr result (λ e. IsCleanLeft e.1 → LeavesFiles files e.1) }
{
    let Ok(hasher) = RandomState::new(rt) else {
        let error = Error::SqliteFailure(ErrorCode::CannotOpen);
        return Err((error, Leftover::Files(files)));
    };
    match Connection::open_files(rt.alloc(), files, options(hasher.hash_one(&0u8))) {
        Ok(conn) => Ok(conn),
        Err(refused) => Err(refused),
    }
}

/// How a connection uses its files: as SQLite does, but for its memory. No clause says that a log is cut off at this
/// length; a test does.
fn options(seed: u64) -> Options
    ensures seed { result.seed ≡ seed }
    ensures memory { (result.cache_pages ≡ CACHE_PAGES) × (result.spill_pages ≡ 2000) }
    ensures log { result.checkpoint_frames ≡ 1000 }
{
    Options {
        cache_pages: CACHE_PAGES,
        ..Options::new(seed)
    }
}
