//! What ends a run of `loop`.
ghost use Rattle.std.specs.Prelude.{◌≡◌};
ghost use Rattle.std.specs.IoError.{error_kind};
ghost use Rattle.provisioning.specs.Faults.{failed, open_fault};
ghost use Rattle.provisioning.specs.Runs.{IsUntold};
ghost use Rattle.provisioning.specs.declared.faults.RunFault.TheVariants.{Untold};

use provider_core::ProviderFault;
use provisioning::{RunFault, open_fault, unwritten};
use std::alloc::AllocError;
use std::io;
use thiserror::Error;

/// What ends a run with its own provider. Its text is printed on standard error.
#[derive(Clone, Copy, Debug, Error)]
pub enum LoopFault {
    /// A fault of the connector's side.
    #[error("{0}")]
    Ended(RunFault),
    /// The provider's store failed.
    #[error("store fault")]
    Store,
}

impl From<RunFault> for LoopFault {
    ghost use Rattle.commands.specs.declared.looping.faults.LoopFault.TheVariants.{Ended};

    ghost from_gives = { λ push fault. fault ≡ Ended push };

    fn from(fault: RunFault) -> LoopFault {
        LoopFault::Ended(fault)
    }
}

impl From<AllocError> for LoopFault {
    ghost use Rattle.provisioning.specs.declared.faults.RunFault.TheVariants.{Memory};
    ghost use Rattle.commands.specs.declared.looping.faults.LoopFault.TheVariants.{Ended};

    ghost from_gives = { λ _ fault. fault ≡ Ended Memory };

    fn from(_: AllocError) -> LoopFault {
        LoopFault::Ended(RunFault::Memory)
    }
}

impl From<ProviderFault> for LoopFault {
    ghost use Rattle.commands.specs.Loops.{provider_fault};

    ghost from_gives = { λ provider fault. fault ≡ provider_fault provider };

    fn from(fault: ProviderFault) -> LoopFault {
        match fault {
            ProviderFault::Store => LoopFault::Store,
            ProviderFault::Memory => LoopFault::Ended(RunFault::Memory),
        }
    }
}

/// The fault of a port that can't be listened on. The prover takes no function of another crate for `map_err`.
pub(crate) fn unheard(error: io::Error) -> RunFault
    ensures { result ≡ open_fault error }
{
    open_fault(error)
}

/// The fault of a run whose records can't be printed; its own function, as for a port.
pub(crate) fn unprinted(error: io::Error) -> RunFault
    ensures fault { result ≡ failed (error_kind error) Untold }
    ensures untold { IsUntold result }
{
    unwritten(error)
}
