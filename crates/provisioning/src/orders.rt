//! In which order records are pushed.
ghost use Rattle.std.specs.Prelude.{◌≡◌, IfErr, IfOk};
ghost use Rattle.std.specs.FinMap.{keys};
ghost use Rattle.connector_core.specs.Maps.{book_of};
ghost use Rattle.mapping.specs.Settling.{IsSettleOrder};
ghost use Rattle.provisioning.specs.Orders.{IsPushOrder, leavers_first};
ghost use Rattle.provisioning.specs.declared.faults.RunFault.TheVariants.{Memory};

use crate::faults::RunFault;
use crate::leavers::is_switched_off;
use connector_core::Connector;
use journal_core::Journal;
use mapping::settle_order;
use scim_key::RecordName;
use std::alloc::{AllocError, Global};

/// The names of all records: users by key, then groups by key. Users who left may come before the other users.
pub(crate) fn push_order<J: Journal>(
    alloc: Global,
    connector: &Connector<J>,
    leavers_first: bool,
) -> Result<Vec<RecordName>, RunFault>
    ensures order { IfOk result (λ names.
        IsPushOrder leavers_first connector.now.book names.items) }
    ensures fault { IfErr result (λ fault. fault ≡ Memory) }
{
    let names = names_in_order(connector)?;
    if leavers_first {
        Ok(with_leavers_first(alloc, connector, names)?)
    } else {
        Ok(names)
    }
}

/// The names of all records, in the order in which they settle.
pub fn names_in_order<J: Journal>(connector: &Connector<J>) -> Result<Vec<RecordName>, RunFault>
    ensures order { IfOk result (λ names. IsSettleOrder (keys connector.now.book) names.items) }
    ensures fault { IfErr result (λ fault. fault ≡ Memory) }
{
    let mut names = connector.names()?;
    settle_order(&mut names);
    Ok(names)
}

/// These names, but first those of users whose wanted rows say that they left, and aren't confirmed.
fn with_leavers_first<J: Journal>(
    alloc: Global,
    connector: &Connector<J>,
    names: Vec<RecordName>,
) -> Result<Vec<RecordName>, AllocError>
    ensures { IfOk result (λ ordered. ordered.items
        ≡ leavers_first (book_of connector.now.book) names.items) }
{
    let (mut ordered, mut others): (Vec<_>, Vec<_>) = names
        .into_iter()
        .partition(alloc, |name| is_switched_off(connector, name))?;
    ordered.append(&mut others)?;
    Ok(ordered)
}
