//! Journals that can be opened again.
ghost use Rattle.std.specs.Prelude.{◌≡◌, IsOk};
ghost use Rattle.journal_core.specs.Calls.{OpensAgain};
ghost use Rattle.journal_core.specs.Stores.{CountsFault};

use crate::journals::Journal;
use crate::memory::MemoryJournal;
use scim_key::StoreFault;

/// A journal that can be opened again, for example after a stop of its program.
pub trait ReopenJournal: Journal {
    /// Opens the store again. After a stop, it holds what the stop left.
    fn reopen(&mut self) -> Result<(), StoreFault>
        ensures reopens { OpensAgain Self.Journal CountsFault self.old self.new result };
}

impl ReopenJournal for MemoryJournal {
    /// The entries are in memory, and stay.
    fn reopen(&mut self) -> Result<(), StoreFault>
        ensures kept { self.new ≡ self.old }
        ensures done { IsOk result }
    {
        Ok(())
    }
}
