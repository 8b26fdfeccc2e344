//! Places of database files: what is at a path, and what an opening there does.
ghost use Rattle.std.specs.Prelude.{◌≡◌, IfOk};
ghost use Rattle.storage.specs.Places.{Permits, is_there, judgement, judgement_first, same_file};

use crate::notes::Notes;
use crate::reason::DatabaseReason;
use std::alloc::{AllocError, Global};
use std::cell::Cell;
use std::io;

/// Which file of the host it is. A file that is renamed keeps this.
#[derive(Clone, Copy)]
pub struct FileId {
    pub device: u64,
    pub inode: u64,
}

/// What is at a path.
#[derive(Clone, Copy)]
pub enum Found {
    /// No file can be found there, with the system's error.
    Nothing(io::Error),
    /// A symbolic link that leads to no file.
    Dangling,
    /// A file of this length.
    File(FileId, u64),
    /// A folder or the like, which no opening takes.
    Other,
}

/// What is at a path, and the length of the log beside it, which is 0 if there is none.
#[derive(Clone, Copy)]
pub struct Standing {
    pub found: Found,
    pub log: u64,
}

/// What an opening does if there is no file.
#[derive(Clone, Copy)]
pub enum IfMissing {
    Make,
    Refuse,
}

/// What an opening does.
#[derive(Clone, Copy)]
pub(crate) enum Step {
    /// It opens what is there.
    Open,
    /// It makes the file first.
    Make,
}

/// The length of a log without changes: its head of 32 bytes, and the first 9 of a frame, which don't count.
const EMPTY_LOG: u64 = 41;

/// What an opening does about what is at its path, or why it is refused. `opened` is the file that the first opening of
/// this path took: each later one takes it too, and makes nothing.
pub(crate) fn judged(
    opened: Option<FileId>,
    missing: IfMissing,
    standing: Standing,
) -> Result<Step, DatabaseReason>
    ensures is { result ≡ judgement opened missing standing }
    ensures permits { IfOk result (λ step. Permits step standing) }
{
    match opened {
        Some(opened) if !is_there(opened, standing.found) => Err(DatabaseReason::Moved),
        _ => judged_first(missing, standing),
    }
}

/// The same of the first opening.
fn judged_first(missing: IfMissing, standing: Standing) -> Result<Step, DatabaseReason>
    ensures is { result ≡ judgement_first missing standing.found standing.log }
    ensures permits { IfOk result (λ step. Permits step standing) }
{
    let has_changes = standing.log > EMPTY_LOG;
    match standing.found {
        Found::File(_, length) if length == 0 && has_changes => Err(DatabaseReason::Parted),
        Found::File(_, _) | Found::Other => Ok(Step::Open),
        Found::Dangling => Err(DatabaseReason::Dangling),
        Found::Nothing(_) if has_changes => Err(DatabaseReason::Parted),
        Found::Nothing(error) => match missing {
            IfMissing::Make => Ok(Step::Make),
            IfMissing::Refuse => Err(DatabaseReason::Missing(error)),
        },
    }
}

/// Whether this file is found. What isn't a file is refused as it is opened.
fn is_there(opened: FileId, found: Found) -> bool
    ensures { result ≡ is_there opened found }
{
    match found {
        Found::File(file, _) => same_file(opened, file),
        Found::Other => true,
        Found::Dangling | Found::Nothing(_) => false,
    }
}

pub(crate) fn same_file(first: FileId, second: FileId) -> bool
    ensures { result ≡ same_file first second }
{
    first.device == second.device && first.inode == second.inode
}

/// The path of a database file, which file was opened there, and what was met there last.
#[derive(Drop)]
pub struct Place<'a> {
    pub(crate) path: &'a str,
    opened: Cell<Option<FileId>>,
    pub(crate) notes: Notes,
}

impl<'a> Place<'a> {
    /// The place at this path, where nothing was opened yet.
    pub fn new(alloc: Global, path: &'a str) -> Result<Place<'a>, AllocError>
        ensures { IfOk result (λ place. place.path.now ≡ path.now) }
    {
        Ok(Place {
            path,
            opened: Cell::new(None),
            notes: Notes::new(alloc)?,
        })
    }

    /// The file that was opened here.
    pub(crate) fn opened(&self) -> Option<FileId> {
        self.opened.get()
    }

    pub(crate) fn keep_opened(&self, file: FileId) {
        self.opened.set(Some(file));
    }

    /// Why the last call here failed.
    pub(crate) fn met(&self) -> Option<DatabaseReason> {
        self.notes.met()
    }

    pub(crate) fn keep(&self, reason: DatabaseReason) {
        self.notes.keep(reason);
    }

    /// Forgets what was met, before an opening and after one that succeeded.
    pub(crate) fn forget(&self) {
        self.notes.forget();
    }
}
