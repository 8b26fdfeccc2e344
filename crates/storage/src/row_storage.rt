//! Where the rows of a provider are kept.
ghost use Rattle.std.specs.Prelude.{◌<◌, ◌↔◌, IfErr, IfOk, IsTrue, List, MatchOption};
ghost use Rattle.scim_resource.specs.Rows.{StoredRecord};
ghost use Rattle.provider_store.specs.declared.opening.RegistryOpenFault.{RegistryOpenFault as Refusal};
ghost use Rattle.storage.specs.StoreOpened.{IsOpenedAt};

use crate::reason::DatabaseReason;
use provider_core::Registry;
use provider_store::RegistryOpenFault;

/// The rows of a provider, opened where they are kept.
pub trait StoredRows: Registry {
    /// Whether a fault of the store was counted since the rows were opened.
    fn has_failed(&self) -> bool
        ensures { IsTrue result ↔ (0 < Self.faults self.now) };

    /// What remains after the rows are closed.
    type Left: Drop;

    ghost is_closed: { Self → Self.Left → Type 0 };

    /// Closes the rows. What was committed stays, even if closing fails.
    fn close(self) -> Self::Left
        ensures { is_closed self result };
}

/// Where the rows of a provider are kept, open or not.
pub trait RowStorage {
    type Rows: StoredRows;

    /// The refusals with which opening may fail.
    ghost refuses: { Self → Refusal → Type 0 };

    /// The rows that an opening finds. A file of the host has no name in a contract: its rows are those of the
    /// files that the host gave.
    ghost finds: { Self → List StoredRecord → Type 0 };

    /// It is known that there are none, and no place for any.
    ghost is_missing: { Self → Type 0 };

    /// Opens the rows. The first opening makes a place for them if there is none.
    fn open(&self) -> Result<Self::Rows, RegistryOpenFault>
        ensures opened { IfOk result (IsOpenedAt Self.Rows.Registry (finds self.now)) }
        ensures refused { IfErr result (refuses self.now) };

    /// Opens the rows, if they are there. It makes no place for any.
    fn find(&self) -> Result<Option<Self::Rows>, RegistryOpenFault>
        ensures found { IfOk result (λ found. MatchOption found (is_missing self.now)
            (IsOpenedAt Self.Rows.Registry (finds self.now))) }
        ensures refused { IfErr result (refuses self.now) };

    /// Why they can't be used, if the system or the database said it, or there is another file. It opens nothing.
    fn reason(&self) -> Option<DatabaseReason>;

    /// The name of the place in the arguments.
    fn name(&self) -> &str;
}
