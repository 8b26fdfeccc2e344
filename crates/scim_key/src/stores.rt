//! The faults of stores.
ghost use Rattle.std.specs.Prelude.{◌≡◌};
ghost use Rattle.scim_key.specs.declared.stores.StoreFault.TheVariants.{Memory};

use std::alloc::{AllocError, AllocFailed};
use thiserror::Error;

/// Why a call of a store failed. Its contents are unchanged.
#[derive(Clone, Copy, Debug, Error)]
pub enum StoreFault {
    #[error("store")]
    Store,
    #[error("memory")]
    Memory,
}

impl From<AllocError> for StoreFault {
    ghost from_gives = { λ _ fault. fault ≡ Memory };

    fn from(_: AllocError) -> StoreFault {
        StoreFault::Memory
    }
}

impl<T: Drop> From<AllocFailed<T>> for StoreFault {
    ghost from_gives = { λ _ fault. fault ≡ Memory };

    fn from(_: AllocFailed<T>) -> StoreFault {
        StoreFault::Memory
    }
}
