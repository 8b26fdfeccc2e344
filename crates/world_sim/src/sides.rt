//! The connector's side of a world.
ghost use Rattle.std.specs.Prelude.{◌≡◌, is_ok};
ghost use Rattle.world_sim.specs.Sides.{CountsWorldFault, IsOpenedIn, OpensThenReads};
ghost use Rattle.world_sim.specs.Running.{is_open, journal_in};
ghost use Rattle.journal_core.specs.Calls.{OpensAgain, Reads};

use crate::reports::WorldFault;
use connector_core::Connector;
use journal_core::{Journal, ReopenJournal};
use std::alloc::Global;

/// The connector, or only its journal if the connector couldn't be opened again.
#[derive(Drop)]
pub enum Side<J: Journal> {
    Open(Connector<J>),
    Shut(J),
}

/// Opens the connector over a journal, if it can.
fn opened<J: Journal + Drop>(alloc: Global, journal: J) -> (Side<J>, Result<(), WorldFault>)
    ensures opened { IsOpenedIn J.Journal result.0 }
    ensures open { is_open result.0 ≡ is_ok result.1 }
    ensures reads { Reads J.Journal CountsWorldFault journal (journal_in result.0) result.1 }
{
    match Connector::open(alloc, journal) {
        Ok(connector) => (Side::Open(connector), Ok(())),
        Err((fault, journal)) => (Side::Shut(journal), Err(WorldFault::from(fault))),
    }
}

/// The journal of a side. What was seen is forgotten.
fn journal_of<J: Journal + Drop>(side: Side<J>) -> J
    ensures { result ≡ journal_in side }
{
    match side {
        Side::Open(connector) => connector.close(),
        Side::Shut(journal) => journal,
    }
}

/// Opens the journal again, then the connector over it. If either fails, the side is the journal alone.
pub(crate) fn reopened<J: ReopenJournal + Drop>(
    side: Side<J>,
    alloc: Global,
) -> (Side<J>, Result<(), WorldFault>)
    ensures opened { IsOpenedIn J.Journal result.0 }
    ensures open { is_open result.0 ≡ is_ok result.1 }
    ensures steps { OpensThenReads J.Journal (journal_in side) (journal_in result.0) result.1 }
    ensures reopens { OpensAgain J.Journal CountsWorldFault (journal_in side)
        (journal_in result.0) result.1 }
{
    let mut journal = journal_of(side);
    match journal.reopen() {
        Ok(()) => opened(alloc, journal),
        Err(fault) => (Side::Shut(journal), Err(WorldFault::from(fault))),
    }
}
