//! Where the entries of a connector are kept.
ghost use Rattle.std.specs.Prelude.{◌≡◌, ◌⊎◌, IfOk, MatchOption, OnOk};
ghost use Rattle.journal_core.specs.Calls.{Writes};
ghost use Rattle.journal_core.specs.Entries.{EntryMap};
ghost use Rattle.journal_core.specs.Stores.{CountsFault};
ghost use Rattle.journal_store.specs.Scopes.{after_reset, reset_answer};
ghost use Rattle.storage.specs.JournalOpened.{IsOpenedAt};

use crate::looking::LookFault;
use crate::reason::DatabaseReason;
use journal_core::Journal;
use journal_store::{JournalOpenFault, ResetResult, Scope};
use scim_key::StoreFault;

/// The entries of a connector, opened where they are kept.
pub trait StoredEntries: Journal {
    /// What remains after the entries are closed.
    type Left: Drop;

    ghost is_closed: { Self → Self.Left → Type 0 };

    /// Forgets the confirmed revision and the id of each of these records, by one write: of all of them or of none. The
    /// rows stay. If one of them isn't in the journal, nothing changes.
    fn reset(&mut self, scope: &Scope) -> Result<ResetResult, StoreFault>
        ensures puts { Writes Self.Journal CountsFault self.old self.new
            (after_reset scope.now (Self.entries self.old)) result }
        ensures answer { Self.is_faithful self.new
            → IfOk result (λ answer. answer ≡ reset_answer scope.now (Self.entries self.old)) }
        ensures open { Self.is_honest self.new → OnOk result (Self.is_faithful self.new) };

    /// Closes the entries. What was committed stays, even if closing fails.
    fn close(self) -> Self::Left
        ensures { is_closed self result };
}

/// Where the entries of a connector are kept, open or not.
pub trait EntryStorage {
    type Entries: StoredEntries;

    /// The entries that an opening finds. A file of the host has no name in a contract: its entries are those of
    /// the files that the host gave.
    ghost finds: { Self → EntryMap → Type 0 };

    /// It is known that there are none, and no place for any.
    ghost is_missing: { Self → Type 0 };

    /// A place is there, and has never kept any.
    ghost has_no_tables: { Self → Type 0 };

    /// Opens the entries. The first opening makes a place for them if there is none.
    fn open(&self) -> Result<Self::Entries, JournalOpenFault>
        ensures { IfOk result (IsOpenedAt Self.Entries.Journal (finds self.now)) };

    /// Opens the entries, if they are there. It makes no place for any.
    fn find(&self) -> Result<Option<Self::Entries>, JournalOpenFault>
        ensures { IfOk result (λ found. MatchOption found (is_missing self.now)
            (IsOpenedAt Self.Entries.Journal (finds self.now))) };

    /// Opens the entries as they are, if they are there. It makes and changes nothing: entries of an older format are
    /// refused.
    fn look(&self) -> Result<Option<Self::Entries>, LookFault>
        ensures { IfOk result (λ seen. MatchOption seen (is_missing self.now ⊎ has_no_tables self.now)
            (IsOpenedAt Self.Entries.Journal (finds self.now))) };

    /// Why they can't be used, if the system or the database said it, or there is another file. It opens nothing.
    fn reason(&self) -> Option<DatabaseReason>;

    /// The name of the place in the arguments.
    fn name(&self) -> &str;
}
