//! The state of the records at the end of a run of `loop`.
ghost use Rattle.std.specs.Prelude.{◌≡◌, IfErr, IfOk};
ghost use Rattle.provider_core.specs.Rows.{row_named};
ghost use Rattle.connector_core.specs.Book.{confirmed_of, wanted_of};
ghost use Rattle.connector_core.specs.Maps.{book_of};
ghost use Rattle.commands.specs.Loops.{CountsLook, IsUnprinted};
ghost use Rattle.scim_key.specs.Stores.{CountsFaults};
ghost use Rattle.world_sim.specs.Views.{viewed};

use crate::looping::faults::{LoopFault, unprinted};
use connector_core::Connector;
use journal_core::Journal;
use provider_core::{Provider, Registry};
use scim_key::RecordName;
use std::io::Write;
use world_sim::View;

/// What is wanted, confirmed and held for a record.
fn view<R: Registry, J: Journal>(
    connector: &Connector<J>,
    provider: &mut Provider<R>,
    name: RecordName,
) -> Result<View, LoopFault>
    ensures row { R.is_faithful provider.new
        → IfOk result (λ view. view
        ≡ viewed name (wanted_of (book_of connector.now.book) name)
        (confirmed_of (book_of connector.now.book) name)
        (row_named name (R.rows provider.old))) }
    ensures fault { IfErr result IsUnprinted }
    ensures counted { CountsFaults CountsLook (R.faults provider.old) (R.faults provider.new) result }
{
    let wanted = connector.wanted(&name);
    let confirmed = connector.confirmed(&name);
    let row = provider.row_of(&name)?;
    Ok(View::of(name, wanted, confirmed, row.as_ref()))
}

/// Prints a line for each record of the connector: users by key, then groups by key.
pub(crate) fn print_views<R: Registry, J: Journal, W: Write>(
    connector: &Connector<J>,
    provider: &mut Provider<R>,
    out: &mut W,
) -> Result<(), LoopFault>
    ensures fault { IfErr result IsUnprinted }
    ensures counted { CountsFaults CountsLook (R.faults provider.old) (R.faults provider.new) result }
{
    for name in connector.names()? {
        let view = view(connector, provider, name)?;
        writeln!(out, "{view}").map_err(unprinted)?;
    }
    Ok(())
}
