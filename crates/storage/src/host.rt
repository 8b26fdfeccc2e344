//! A host whose files keep databases.
ghost use Rattle.std.specs.Prelude.{true, false, List, ℕ, IfOk, IsTrue};
ghost use Rattle.sqlite_disk.specs.declared.Files.{Files as FilesOf};
ghost use Rattle.storage.specs.Places.{MayBeOpened};
ghost use Rattle.storage.specs.declared.places.Standing.{Standing as StandingAt};

use crate::noted_disk::{NotedDisk, noted_files};
use crate::notes::Notes;
use crate::places::{FileId, Found, Standing};
use sqlite::{File, Files, Unknown};
use sqlite_disk::Disk;
use sqlite_std_file::OpenError;
use std::alloc::AllocGlobal;
use std::fs;
use std::io::{self, ErrorKind};
use std::os::unix::fs::MetadataExt;
use std::random::RandomSource;
use std::rt::{HostRuntime, Runtime};

/// A host that opens database files.
pub trait DatabaseHost: Runtime + RandomSource + AllocGlobal {
    /// What keeps the bytes of a file.
    type Disk: Disk + Drop;

    /// What is known of files that it gives.
    ghost gives: { FilesOf Self.Disk → Type 0 };

    /// What it says of a path, if it is asked.
    ghost says: { Self → List ℕ → StandingAt → Type 0 };

    /// What is at this path. It opens and makes nothing. Only if memory runs out, it fails.
    fn look_at(&self, path: &str) -> io::Result<Standing>
        ensures { IfOk result (says self.now path.now) };

    /// Opens the file at this path, which was looked at before, with its log, and makes the log if it isn't there. How
    /// their last call fails is kept in these notes. That no other call touches the files is no clause: this call is
    /// trusted for it.
    fn open_database(
        &self,
        path: &str,
        standing: Standing,
        log: Notes,
        db: Notes,
    ) -> Result<Files<Self::Disk>, OpenError>
        requires said { says self.now path.now standing }
        requires there { MayBeOpened standing.found standing.log }
        ensures log { IfOk result (λ files. IsTrue (Self.Disk.Disk.is_usable files.log)) }
        ensures db { IfOk result (λ files. IsTrue (Self.Disk.Disk.is_usable files.db)) }
        ensures given { IfOk result gives };
}

impl DatabaseHost for HostRuntime {
    ghost use Rattle.sqlite_std_file.specs.File.{IsFresh};

    type Disk = NotedDisk<File>;

    /// No call was made on them since their bytes were settled.
    ghost gives = { λ files. IsFresh true files.log.inner × IsFresh false files.db.inner };

    /// What a file system answers is trusted.
    ghost says = { λ _ _ _. Unit {0} };

    fn look_at(&self, path: &str) -> io::Result<Standing> {
        standing_at(self, path)
    }

    fn open_database(
        &self,
        path: &str,
        _standing: Standing,
        log: Notes,
        db: Notes,
    ) -> Result<Files<NotedDisk<File>>, OpenError> {
        match sqlite_std_file::open(self, path, Unknown) {
            Ok(files) => Ok(noted_files(files, log, db)),
            Err(error) => Err(error),
        }
    }
}

/// What is at a path, and how long its log is. The log is beside the file, also if the path is a symbolic link.
fn standing_at<R: Runtime + AllocGlobal>(rt: &R, path: &str) -> io::Result<Standing> {
    let found = found_at(rt, path)?;
    let log = match found {
        Found::File(_, _) => log_length(rt, fs::canonicalize(rt, path)?.as_str())?,
        _ => log_length(rt, path)?,
    };
    Ok(Standing { found, log })
}

/// What is at a path.
fn found_at(rt: &impl Runtime, path: &str) -> io::Result<Found> {
    match fs::metadata(rt, path) {
        Ok(found) if found.is_file() => {
            let file = FileId {
                device: found.dev(),
                inode: found.ino(),
            };
            Ok(Found::File(file, found.len()))
        }
        Ok(_) => Ok(Found::Other),
        Err(error) if error.kind() == ErrorKind::OutOfMemory => Err(error),
        Err(error) => match fs::symlink_metadata(rt, path) {
            Ok(_) => Ok(Found::Dangling),
            Err(_) => Ok(Found::Nothing(error)),
        },
    }
}

/// The length of the log of the file at a path, which is 0 if there is none.
fn log_length<R: Runtime + AllocGlobal>(rt: &R, path: &str) -> io::Result<u64> {
    let log = format!(in rt.alloc(); "{path}-wal")?;
    match fs::metadata(rt, log.as_str()) {
        Ok(found) => Ok(found.len()),
        Err(error) if error.kind() == ErrorKind::OutOfMemory => Err(error),
        Err(_) => Ok(0),
    }
}
