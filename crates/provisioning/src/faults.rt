//! Why a record isn't confirmed, and what ends a run.
ghost use Rattle.std.specs.Prelude.{◌≡◌};
ghost use Rattle.std.specs.IoError.{error_kind};
ghost use Rattle.provisioning.specs.Faults.{failed, open_fault, unanswered, unlearnt};
ghost use Rattle.provisioning.specs.Runs.{IsUntold};
ghost use Rattle.provisioning.specs.declared.faults.RunFault.TheVariants.{Untold};

use crate::streaks::Streak;
use connector_core::{ConnectorOpenFault, LearnFault};
use scim_client::{AnswerFault, ExchangeFault};
use std::alloc::AllocError;
use std::io::ErrorKind;
use std::{fmt, io};
use thiserror::Error;

/// Why nothing was learnt from an exchange. The run goes on. Its text is its code.
#[derive(Clone, Copy)]
pub enum RecordFault {
    /// No answer came (H10, H11, H12, H14, K1 to K3).
    Unanswered(ExchangeFault),
    /// The connector can't use the answer.
    Unfit,
    /// The resource is shown without an entity tag.
    Unversioned,
    /// The provider refuses, with this status.
    Refused(u16),
    /// The source gave no row of this record.
    NoSuchRecord,
}

impl fmt::Display for RecordFault {
    ghost use Rattle.std.specs.Prelude.{Some};
    ghost use Rattle.provisioning.specs.Lines.{record_fault_text};

    ghost output = { λ fault. Some (record_fault_text fault) };

    fn fmt<W: fmt::Write>(&self, f: &mut fmt::Formatter<W>) -> fmt::Result {
        match self {
            RecordFault::Unanswered(fault) => write!(f, "{fault}"),
            RecordFault::Unfit => f.write_str("C1"),
            RecordFault::Unversioned => f.write_str("C2"),
            RecordFault::Refused(_) => f.write_str("C4"),
            RecordFault::NoSuchRecord => f.write_str("C7"),
        }
    }
}

/// What ends a run early. Its text is printed on standard error.
#[derive(Clone, Copy, Debug, Error)]
pub enum RunFault {
    /// A stream couldn't be opened, or the provider couldn't listen; with the system's error.
    #[error("connection fault")]
    Connection(io::Error),
    /// The journal's store failed.
    #[error("journal fault J1")]
    Journal,
    /// The line of a row or of a record couldn't be written.
    #[error("file fault")]
    Untold,
    /// So many records in a row met the same obstacle.
    #[error("given up after {0}")]
    GivenUp(Streak),
    #[error("memory fault")]
    Memory,
}

impl From<AllocError> for RunFault {
    ghost use Rattle.provisioning.specs.declared.faults.RunFault.TheVariants.{Memory};

    ghost from_gives = { λ _ fault. fault ≡ Memory };

    fn from(_: AllocError) -> RunFault {
        RunFault::Memory
    }
}

impl From<ConnectorOpenFault> for RunFault {
    ghost use Rattle.provisioning.specs.Faults.{unopened};

    ghost from_gives = { λ opening fault. fault ≡ unopened opening };

    fn from(fault: ConnectorOpenFault) -> RunFault {
        match fault {
            ConnectorOpenFault::Store => RunFault::Journal,
            ConnectorOpenFault::Memory => RunFault::Memory,
        }
    }
}

/// The fault of a stream that couldn't be opened, or of a port that couldn't be listened on.
pub fn open_fault(error: io::Error) -> RunFault
    ensures { result ≡ open_fault error }
{
    match error.kind() {
        ErrorKind::OutOfMemory => RunFault::Memory,
        _ => RunFault::Connection(error),
    }
}

/// The fault of an exchange without an answer: the record's, or out of memory, which ends the run.
pub(crate) fn unanswered(fault: ExchangeFault) -> Result<Option<RecordFault>, RunFault>
    ensures { result ≡ unanswered fault }
{
    match fault {
        ExchangeFault::OutOfMemory | ExchangeFault::NoAnswer(AnswerFault::OutOfMemory) => {
            Err(RunFault::Memory)
        }
        ExchangeFault::Unsent(_)
        | ExchangeFault::EndedEarly
        | ExchangeFault::ReadFailed
        | ExchangeFault::TurnsExhausted
        | ExchangeFault::NoAnswer(_) => Ok(Some(RecordFault::Unanswered(fault))),
    }
}

/// The fault of an answer that teaches nothing: the record's, or one that ends the run.
pub(crate) fn unlearnt(fault: LearnFault) -> Result<Option<RecordFault>, RunFault>
    ensures { result ≡ unlearnt fault }
{
    match fault {
        LearnFault::Unfit => Ok(Some(RecordFault::Unfit)),
        LearnFault::Unversioned => Ok(Some(RecordFault::Unversioned)),
        LearnFault::Refused { status } => Ok(Some(RecordFault::Refused(status))),
        LearnFault::NoSuchRecord => Ok(Some(RecordFault::NoSuchRecord)),
        LearnFault::Store => Err(RunFault::Journal),
        LearnFault::Memory => Err(RunFault::Memory),
    }
}

/// The fault of a run if a line can't be written.
pub fn unwritten(error: io::Error) -> RunFault
    ensures fault { result ≡ failed (error_kind error) Untold }
    ensures untold { IsUntold result }
{
    match error.kind() {
        ErrorKind::OutOfMemory => RunFault::Memory,
        _ => RunFault::Untold,
    }
}
