//! Why a statement on the tables gave no result.
ghost use Rattle.std.specs.Prelude.{◌≡◌};

use scim_key::{NameFault, StoreFault};
use sql_tables::statement_fault;
use sqlite::Error;
use std::alloc::{AllocError, AllocFailed};

/// Why a statement gave no result.
#[derive(Clone, Copy)]
pub enum TableFault {
    Store,
    /// A row is invalid.
    Damaged,
    Memory,
}

impl From<AllocError> for TableFault {
    ghost use Rattle.journal_store.specs.declared.statements.TableFault.TheVariants.{Memory};

    ghost from_gives = { λ _ fault. fault ≡ Memory };

    fn from(_: AllocError) -> TableFault {
        TableFault::Memory
    }
}

impl<T: Drop> From<AllocFailed<T>> for TableFault {
    ghost use Rattle.journal_store.specs.declared.statements.TableFault.TheVariants.{Memory};

    ghost from_gives = { λ _ fault. fault ≡ Memory };

    fn from(_: AllocFailed<T>) -> TableFault {
        TableFault::Memory
    }
}

/// A text that isn't a valid name or id is damage.
impl From<NameFault> for TableFault {
    ghost use Rattle.journal_store.specs.Faults.{IsOfRow, name_damage};

    ghost from_gives = { λ fault given. (given ≡ name_damage fault) × IsOfRow given };

    fn from(fault: NameFault) -> TableFault {
        match fault {
            NameFault::Memory => TableFault::Memory,
            _ => TableFault::Damaged,
        }
    }
}

impl From<Error> for TableFault {
    ghost use Rattle.journal_store.specs.Faults.{IsOfStatement, statement_fault};

    ghost from_gives = { λ error fault. (fault ≡ statement_fault error) × IsOfStatement fault };

    fn from(error: Error) -> TableFault {
        match statement_fault(error) {
            StoreFault::Memory => TableFault::Memory,
            StoreFault::Store => TableFault::Store,
        }
    }
}
