//! Why what is kept wasn't shown whole.
ghost use Rattle.std.specs.Prelude.{◌≡◌, ◌≢◌};
ghost use Rattle.storage.specs.ShowFaults.{IsOfStore, journal_fault, registry_fault};
ghost use Rattle.storage.specs.declared.show_fault.ShowFault.TheVariants.{Memory, Output};

use journal_store::JournalOpenFault;
use provider_store::RegistryOpenFault;
use scim_key::StoreFault;
use std::alloc::AllocError;
use std::io;
use std::io::ErrorKind;
use thiserror::Error;

/// Why the lines of a store or a journal weren't written whole.
#[derive(Clone, Copy, Debug, Error)]
pub enum ShowFault {
    /// The store couldn't be opened, or it failed.
    #[error("store {0}")]
    Store(RegistryOpenFault),
    /// The journal couldn't be opened, or it failed.
    #[error("journal {0}")]
    Journal(JournalOpenFault),
    /// There is no store, and none is made.
    #[error("no store")]
    NoStore,
    /// There is no journal, and none is made.
    #[error("no journal")]
    NoJournal,
    #[error("memory")]
    Memory,
    /// A write or the flush failed.
    #[error("output")]
    Output,
}

impl From<RegistryOpenFault> for ShowFault {
    ghost use Rattle.storage.specs.declared.show_fault.ShowFault.TheVariants.{Store};

    ghost from_gives = { λ opening fault. fault ≡ Store opening };

    fn from(fault: RegistryOpenFault) -> ShowFault {
        ShowFault::Store(fault)
    }
}

impl From<JournalOpenFault> for ShowFault {
    ghost use Rattle.storage.specs.declared.show_fault.ShowFault.TheVariants.{Journal};

    ghost from_gives = { λ opening fault. fault ≡ Journal opening };

    fn from(fault: JournalOpenFault) -> ShowFault {
        ShowFault::Journal(fault)
    }
}

impl From<AllocError> for ShowFault {
    ghost from_gives = { λ _ fault. fault ≡ Memory };

    fn from(_: AllocError) -> ShowFault {
        ShowFault::Memory
    }
}

impl From<io::Error> for ShowFault {
    ghost from_gives = { λ _ fault. IsOfStore fault };

    fn from(error: io::Error) -> ShowFault {
        output_fault(error.kind())
    }
}

/// The fault for a failed call of the store.
pub(crate) fn registry_fault(fault: StoreFault) -> ShowFault
    ensures is { result ≡ registry_fault fault }
    ensures there { IsOfStore result }
{
    match fault {
        StoreFault::Store => ShowFault::Store(RegistryOpenFault::Store),
        StoreFault::Memory => ShowFault::Memory,
    }
}

/// The fault for a failed call of the journal.
pub(crate) fn journal_fault(fault: StoreFault) -> ShowFault
    ensures { result ≡ journal_fault fault }
{
    match fault {
        StoreFault::Store => ShowFault::Journal(JournalOpenFault::Store),
        StoreFault::Memory => ShowFault::Memory,
    }
}

/// The fault for a failed write.
fn output_fault(kind: ErrorKind) -> ShowFault
    ensures memory { kind ≡ ErrorKind.OutOfMemory → result ≡ Memory }
    ensures output { kind ≢ ErrorKind.OutOfMemory → result ≡ Output }
    ensures there { IsOfStore result }
{
    match kind {
        ErrorKind::OutOfMemory => ShowFault::Memory,
        _ => ShowFault::Output,
    }
}
