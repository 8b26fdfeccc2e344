//! What is left of a connection that is closed.
use sqlite::{Connection, Error, FileStore};
use sqlite_disk::{Disk, Files};

/// A connection that is closed with its store.
pub trait Close {
    /// What remains after it is closed.
    type Left: Drop;

    ghost is_closed: { Self → Self.Left → Type 0 };

    /// Closes the connection and its store. What was committed stays, even if closing fails.
    fn close_all(self) -> Self::Left
        ensures { is_closed self result };
}

impl<D: Disk + Drop> Close for Connection<FileStore<D>> {
    ghost use Rattle.storage.specs.Closed.{ClosesFiles};

    type Left = Result<Files<D>, (Error, FileStore<D>)>;

    ghost is_closed = { λ conn left. ClosesFiles D.Disk conn left };

    /// Copies the log into the main file.
    fn close_all(self) -> Self::Left {
        self.close_files()
    }
}
