//! Memory that keeps the rows.
ghost use Rattle.std.specs.Prelude.{◌≡◌, []};

use crate::reason::DatabaseReason;
use crate::row_storage::{RowStorage, StoredRows};
use provider_core::MemoryRegistry;
use provider_store::RegistryOpenFault;
use std::alloc::Global;

/// Rows in memory, which are gone once they are closed.
#[derive(Clone, Copy)]
pub struct InMemory {
    pub alloc: Global,
}

impl RowStorage for InMemory {
    type Rows = MemoryRegistry;

    /// It refuses nothing.
    ghost refuses = { λ _ _. ⊥ };

    ghost finds = { λ _ rows. rows ≡ [] };

    /// There is always room.
    ghost is_missing = { λ _. ⊥ };

    fn open(&self) -> Result<MemoryRegistry, RegistryOpenFault> {
        Ok(MemoryRegistry::new(self.alloc))
    }

    fn find(&self) -> Result<Option<MemoryRegistry>, RegistryOpenFault> {
        Ok(Some(MemoryRegistry::new(self.alloc)))
    }

    fn reason(&self) -> Option<DatabaseReason> {
        None
    }

    fn name(&self) -> &str {
        "memory"
    }
}

impl StoredRows for MemoryRegistry {
    type Left = ();

    ghost is_closed = { λ _ _. Unit {0} };

    fn has_failed(&self) -> bool {
        false
    }

    fn close(self) {}
}
