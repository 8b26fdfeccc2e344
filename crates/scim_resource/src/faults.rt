//! Why a value can't be read as a resource.
ghost use Rattle.std.specs.Prelude.{◌≡◌};
ghost use Rattle.scim_resource.specs.declared.faults.ContentFault.TheVariants.{InvalidValue, Memory};
ghost use Rattle.scim_resource.specs.Faults.{fault_of_json, fault_of_name};

use scim_json::{JsonFault, ValueFault};
use scim_key::NameFault;
use std::alloc::{AllocError, AllocFailed};
use thiserror::Error;

/// Why a value can't be read as a resource. `InvalidSyntax` comes before `InvalidValue`.
#[derive(Clone, Copy, Debug, Error)]
pub enum ContentFault {
    /// The value isn't an object, or an object that reading looks into repeats a name.
    #[error("P1")]
    InvalidSyntax,
    /// An attribute is missing or not allowed.
    #[error("P2")]
    InvalidValue,
    #[error("memory")]
    Memory,
}

impl From<AllocError> for ContentFault {
    ghost from_gives = { λ _ fault. fault ≡ Memory };

    fn from(_: AllocError) -> ContentFault {
        ContentFault::Memory
    }
}

impl<T: Drop> From<AllocFailed<T>> for ContentFault {
    ghost from_gives = { λ _ fault. fault ≡ Memory };

    fn from(_: AllocFailed<T>) -> ContentFault {
        ContentFault::Memory
    }
}

impl From<ValueFault> for ContentFault {
    ghost from_gives = { λ _ fault. fault ≡ InvalidValue };

    fn from(_: ValueFault) -> ContentFault {
        ContentFault::InvalidValue
    }
}

impl From<JsonFault> for ContentFault {
    ghost from_gives = { λ json fault. fault ≡ fault_of_json json };

    fn from(fault: JsonFault) -> ContentFault {
        match fault {
            JsonFault::NotJson => ContentFault::InvalidSyntax,
            JsonFault::Memory => ContentFault::Memory,
        }
    }
}

impl From<NameFault> for ContentFault {
    ghost from_gives = { λ name fault. fault ≡ fault_of_name name };

    fn from(fault: NameFault) -> ContentFault {
        match fault {
            NameFault::Memory => ContentFault::Memory,
            _ => ContentFault::InvalidValue,
        }
    }
}
