//! What an event reports.
ghost use Rattle.std.specs.Prelude.{◌≡◌};

use connector_core::{ChangeFault, ConnectorOpenFault, LearnFault, Learnt, Verdict};
use provider_core::ProviderFault;
use scim_key::{Key, StoreFault};
use std::alloc::{AllocError, AllocFailed};
use std::fmt;
use thiserror::Error;

/// What an event reports.
#[derive(Drop)]
pub enum Report {
    /// What the connector says about a row.
    Judged(Result<Verdict, ChangeFault>),
    /// The source gave no row of the record.
    UnknownRecord,
    /// There is nothing to ask for: the wanted revision is confirmed.
    Idle,
    /// There is nothing to ask for yet: this member has no id.
    Waiting(Key),
    /// A Search was sent, as the message with this number.
    Finding(usize),
    /// A Create was sent.
    Creating(usize),
    /// A Replace was sent.
    Replacing(usize),
    /// A request was answered, by the message with this number.
    Answering { number: usize, status: u16 },
    /// What the connector learnt from a reply.
    Taught(Result<Learnt, LearnFault>),
    /// There is no message with this number, or it has no more bytes than should arrive.
    NoMessage,
    /// Too few bytes arrived; nothing changed.
    CutShort,
    Restarted,
    /// The connector doubts the record.
    Doubted,
}

impl fmt::Display for Report {
    ghost use Rattle.std.specs.Prelude.{Some};
    ghost use Rattle.world_sim.specs.Lines.{report_text};

    ghost output = { λ report. Some (report_text report) };

    /// The report in a word or two, with its numbers: `new`, `find 3`, `answer 4 201`, `confirmed 2`.
    fn fmt<W: fmt::Write>(&self, f: &mut fmt::Formatter<W>) -> fmt::Result {
        match self {
            Report::Judged(Ok(Verdict::New)) => f.write_str("new"),
            Report::Judged(Ok(Verdict::Known)) => f.write_str("known"),
            Report::Judged(Ok(Verdict::Older)) => f.write_str("older"),
            Report::Judged(Err(fault)) => write!(f, "{fault}"),
            Report::UnknownRecord => f.write_str("C7"),
            Report::Idle => f.write_str("nothing"),
            Report::Waiting(member) => write!(f, "waits {}", member.as_str()),
            Report::Finding(number) => write!(f, "find {number}"),
            Report::Creating(number) => write!(f, "create {number}"),
            Report::Replacing(number) => write!(f, "replace {number}"),
            Report::Answering { number, status } => write!(f, "answer {number} {status}"),
            Report::Taught(Ok(Learnt::Confirmed(revision))) => write!(f, "confirmed {revision}"),
            Report::Taught(Ok(Learnt::Seen)) => f.write_str("seen"),
            Report::Taught(Ok(Learnt::Absent)) => f.write_str("absent"),
            Report::Taught(Ok(Learnt::Forgotten)) => f.write_str("forgotten"),
            Report::Taught(Ok(Learnt::Nothing)) => f.write_str("nothing"),
            Report::Taught(Err(fault)) => write!(f, "{fault}"),
            Report::NoMessage => f.write_str("none"),
            Report::CutShort => f.write_str("cut"),
            Report::Restarted => f.write_str("restarted"),
            Report::Doubted => f.write_str("doubted"),
        }
    }
}

/// Why an event didn't happen.
#[derive(Clone, Copy, Debug, Error)]
pub enum WorldFault {
    #[error("Z1")]
    Memory,
    /// A store failed, or the event needs a side that couldn't be opened again.
    #[error("Z2")]
    Store,
}

impl From<AllocError> for WorldFault {
    ghost use Rattle.world_sim.specs.declared.reports.WorldFault.TheVariants.{Memory};

    ghost from_gives = { λ _ fault. fault ≡ Memory };

    fn from(_: AllocError) -> WorldFault {
        WorldFault::Memory
    }
}

impl<T: Drop> From<AllocFailed<T>> for WorldFault {
    ghost use Rattle.world_sim.specs.declared.reports.WorldFault.TheVariants.{Memory};

    ghost from_gives = { λ _ fault. fault ≡ Memory };

    fn from(_: AllocFailed<T>) -> WorldFault {
        WorldFault::Memory
    }
}

impl From<ProviderFault> for WorldFault {
    ghost use Rattle.world_sim.specs.Events.{world_fault};

    ghost from_gives = { λ from fault. fault ≡ world_fault from };

    fn from(fault: ProviderFault) -> WorldFault {
        match fault {
            ProviderFault::Store => WorldFault::Store,
            ProviderFault::Memory => WorldFault::Memory,
        }
    }
}

impl From<StoreFault> for WorldFault {
    ghost use Rattle.world_sim.specs.Events.{store_fault};

    ghost from_gives = { λ from fault. fault ≡ store_fault from };

    fn from(fault: StoreFault) -> WorldFault {
        match fault {
            StoreFault::Store => WorldFault::Store,
            StoreFault::Memory => WorldFault::Memory,
        }
    }
}

impl From<ConnectorOpenFault> for WorldFault {
    ghost use Rattle.world_sim.specs.Events.{opening_fault};

    ghost from_gives = { λ from fault. fault ≡ opening_fault from };

    fn from(fault: ConnectorOpenFault) -> WorldFault {
        match fault {
            ConnectorOpenFault::Store => WorldFault::Store,
            ConnectorOpenFault::Memory => WorldFault::Memory,
        }
    }
}
