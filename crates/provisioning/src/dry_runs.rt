//! A run over a copy of a journal's entries.
ghost use Rattle.std.specs.Prelude.{◌≡◌, IfOk};
ghost use Rattle.connector_core.specs.State.{IsOpened};
ghost use Rattle.provisioning.specs.DryRuns.{IsOver, fault_of};

use crate::faults::RunFault;
use connector_core::Connector;
use journal_core::{Entry, MemoryJournal};
use scim_key::StoreFault;
use std::alloc::Global;

/// A connector over a copy of these entries, as a journal lists them. What it puts stays in memory.
pub fn open_copy(alloc: Global, entries: Vec<Entry>) -> Result<Connector<MemoryJournal>, RunFault>
    ensures { IfOk result (λ connector. IsOver entries.items connector.book) }
{
    match MemoryJournal::from_entries(alloc, entries) {
        Ok(copy) => open_over(alloc, copy),
        Err(fault) => Err(fault_of(fault)),
    }
}

/// A connector over a journal in memory.
fn open_over(alloc: Global, copy: MemoryJournal) -> Result<Connector<MemoryJournal>, RunFault>
    ensures { IfOk result (λ connector. IsOpened copy.entries connector.book) }
{
    match Connector::open(alloc, copy) {
        Ok(connector) => Ok(connector),
        Err((fault, _copy)) => Err(RunFault::from(fault)),
    }
}

/// What ends a run if its journal can't be read.
pub(crate) fn fault_of(fault: StoreFault) -> RunFault
    ensures { result ≡ fault_of fault }
{
    match fault {
        StoreFault::Store => RunFault::Journal,
        StoreFault::Memory => RunFault::Memory,
    }
}
