//! `push --most-leavers`: nothing is done if too many users would be switched off.
ghost use Rattle.std.specs.Prelude.{◌≡◌, IfOk};
ghost use Rattle.commands.specs.Limits.{Approves, IsWithin, in_all, is_excess};

use crate::jobs::Job;
use crate::status::CommandFault;
use connector_core::Connector;
use journal_core::Journal;
use provisioning::{Sources, count_leavers};
use std::io::Eprint;
use std::rt::Runtime;

/// Reads the files; none if these would switch off more than `most` users, together with the `rechecked` ones that a
/// recheck would switch off. It reports that.
pub(crate) fn approved<R: Runtime + AllocGlobal, J: Journal>(
    rt: &R,
    connector: &Connector<J>,
    job: &Job<'_>,
    most: Option<u32>,
    rechecked: usize,
) -> Result<Option<Sources>, CommandFault>
    ensures { IfOk result (Approves job.now most rechecked connector.now.book) }
{
    match most {
        Some(most) => within(rt, connector, job, most, rechecked),
        None => {
            let sources = job.read_files(rt)?;
            Ok(Some(sources))
        }
    }
}

/// The same with a limit. If the files are snapshots, the connector numbers them.
fn within<R: Runtime + AllocGlobal, J: Journal>(
    rt: &R,
    connector: &Connector<J>,
    job: &Job<'_>,
    most: u32,
    rechecked: usize,
) -> Result<Option<Sources>, CommandFault>
    ensures { IfOk result (IsWithin job.now most rechecked connector.now.book) }
{
    let sources = job.read_over(rt, connector)?;
    let leavers = count_leavers(rt.alloc(), connector, &sources)?;
    let count = in_all(leavers, rechecked);
    if tell_excess(rt, count, Some(most)) {
        Ok(None)
    } else {
        Ok(Some(sources))
    }
}

/// How many users these are together, up to the greatest `usize`.
fn in_all(leavers: usize, rechecked: usize) -> usize
    ensures { result ≡ in_all leavers rechecked }
{
    leavers.saturating_add(rechecked)
}

/// Whether these are more users than a run may switch off. If so, it reports that.
pub(crate) fn tell_excess<R: Eprint>(rt: &R, count: usize, most: Option<u32>) -> bool
    ensures { result ≡ is_excess count most }
{
    match most {
        Some(most) if count > most as usize => {
            let users = if count == 1 { "user" } else { "users" };
            let _ = eprintln!(rt;
                "{count} {users} would be switched off, more than {most}: nothing was done"
            );
            true
        }
        _ => false,
    }
}
