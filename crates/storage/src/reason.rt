//! Why a database file can't be used.
ghost use Rattle.std.specs.Prelude.{◌≡◌};
ghost use Rattle.storage.specs.Reasons.{is_out_of_memory, journal_fault, registry_fault};

use journal_store::JournalOpenFault;
use provider_store::RegistryOpenFault;
use sqlite::{Error, ErrorCode};
use sqlite_disk::is_no_room;
use sqlite_std_file::OpenError;
use std::io::{self, ErrorKind};
use thiserror::Error as Fault;

/// The number that Linux gives for a disk without room.
const NO_ROOM: i32 = 28;

/// Why a database file can't be used. Its text is what the system or the library says, or what is wrong at its path.
#[derive(Clone, Copy, Debug, Fault)]
pub enum DatabaseReason {
    /// There is no file, and none is made.
    #[error("{0}")]
    Missing(io::Error),
    #[error("a symbolic link is there, and no file where it leads")]
    Dangling,
    /// The changes of the log would be lost.
    #[error("the file is missing or empty, but its log (-wal) has changes: put the file back beside its log")]
    Parted,
    #[error("the file that was open isn't there any more: it was moved, removed or replaced")]
    Moved,
    /// The file can't be opened for writing, or a call on it failed.
    #[error("{0}")]
    System(io::Error),
    /// The file or its log is in use, or can't be opened.
    #[error("{0}")]
    Unopened(OpenError),
    /// The database can't be read or written.
    #[error("{0}")]
    Failed(ErrorCode),
}

/// A store whose file is missing beside its changes is damaged.
impl From<DatabaseReason> for RegistryOpenFault {
    ghost from_gives = { λ reason fault. fault ≡ registry_fault reason };

    fn from(reason: DatabaseReason) -> RegistryOpenFault {
        match reason {
            DatabaseReason::Parted => RegistryOpenFault::Damaged(0),
            _ if is_out_of_memory(reason) => RegistryOpenFault::Memory,
            _ => RegistryOpenFault::Store,
        }
    }
}

/// The same of a journal.
impl From<DatabaseReason> for JournalOpenFault {
    ghost from_gives = { λ reason fault. fault ≡ journal_fault reason };

    fn from(reason: DatabaseReason) -> JournalOpenFault {
        match reason {
            DatabaseReason::Parted => JournalOpenFault::Damaged,
            _ if is_out_of_memory(reason) => JournalOpenFault::Memory,
            _ => JournalOpenFault::Store,
        }
    }
}

fn is_out_of_memory(reason: DatabaseReason) -> bool
    ensures { result ≡ is_out_of_memory reason }
{
    match reason {
        DatabaseReason::Failed(ErrorCode::OutOfMemory) => true,
        DatabaseReason::Unopened(OpenError::OutOfMemory) => true,
        DatabaseReason::Unopened(OpenError::Io(error)) | DatabaseReason::System(error) => {
            error.kind() == ErrorKind::OutOfMemory
        }
        _ => false,
    }
}

/// Why a call on a file failed: in the words of the system, if there is no room, and otherwise of the library.
pub(crate) fn reason_of_call(error: io::Error) -> DatabaseReason {
    if is_no_room(&error) {
        DatabaseReason::System(error)
    } else if error.kind() == ErrorKind::InvalidData {
        DatabaseReason::Failed(ErrorCode::DatabaseCorrupt)
    } else {
        DatabaseReason::Failed(ErrorCode::SystemIoFailure)
    }
}

/// The failure that an error names. Of a disk without room, the text is the system's. A statement that doesn't suit the
/// tables is none.
pub(crate) fn failure_of(error: Error) -> Option<DatabaseReason> {
    match error {
        Error::SqliteFailure(ErrorCode::DiskFull) => {
            Some(DatabaseReason::System(io::Error::from_raw_os_error(NO_ROOM)))
        }
        Error::SqliteFailure(code) => Some(DatabaseReason::Failed(code)),
        _ => None,
    }
}
