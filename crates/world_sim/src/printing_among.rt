//! Runs among others whose reports and records are printed.
ghost use Rattle.std.specs.Prelude.{◌≡◌, IfErr, IfOk, OnOk, true};
ghost use Rattle.std.specs.Io.KnownBytes.{Appends};
ghost use Rattle.mapping.specs.Settling.{IsSettleOrder};
ghost use Rattle.world_sim.specs.Printing.{others_lines};
ghost use Rattle.world_sim.specs.PrintingAmong.{EndsAmong, EndsPrintingAmong, PrintsAmong, ShowsOthers};
ghost use Rattle.world_sim.specs.Running.{is_open, names_in};
ghost use Rattle.world_sim.specs.Strangers.{strangers};

use crate::acting::{Act, ActReport};
use crate::among::run_telling_among;
use crate::following::TellingFault;
use crate::printing::{ReportLines, Whose, flush, print_each, print_settling, print_views};
use crate::reports::WorldFault;
use crate::strangers::strangers;
use crate::views::View;
use crate::worlds::World;
use journal_core::{Journal, ReopenJournal};
use provider_core::{Registry, Reopen};
use scim_key::{Base, RecordName};
use std::alloc::Global;
use std::io;
use std::io::Write;

/// The world and the views of its records, after a run among others whose lines were printed.
#[derive(Drop)]
pub struct PrintedAmong<R: Registry + Drop, J: Journal + Drop> {
    pub world: World<R, J>,
    /// Of our records.
    pub views: Vec<View>,
    /// Of the records that others wrote by rows and that aren't ours.
    pub others: Vec<View>,
}

/// Runs acts as `run_telling_among` does, and prints the line of each report as it comes. Then it settles every
/// record of ours if that is asked for, and prints how many exchanges that took. Then it prints a line for each
/// record of ours, and for each other record that others wrote by a row: users by key, then groups by key.
pub fn print_run_among<R: Reopen + Drop, J: ReopenJournal + Drop, W: Write + Drop>(
    alloc: Global,
    registry: R,
    journal: J,
    base: Base,
    acts: &[Act],
    settles: bool,
    lines: &mut ReportLines<ActReport, W>,
) -> Result<PrintedAmong<R, J>, TellingFault<io::Error>>
    ensures prints { IfOk result (PrintsAmong R.Registry J.Journal W.contents registry journal base
        acts.now settles lines.old lines.new) }
    ensures fault { IfErr result
        (EndsPrintingAmong R.Registry J.Journal W.contents registry journal base
        acts.now lines.old lines.new) }
{
    let mut world = run_telling_among(alloc, registry, journal, base, acts, lines)?;
    let (views, others) = print_end_among(alloc, &mut world, acts, settles, &mut lines.out)?;
    Ok(PrintedAmong {
        world,
        views,
        others,
    })
}

/// Settles every record of a world if that is asked for, and then prints our records and those of others. Returns the
/// views of both.
fn print_end_among<R: Registry + Drop, J: Journal + Drop, W: Write>(
    alloc: Global,
    world: &mut World<R, J>,
    acts: &[Act],
    settles: bool,
    out: &mut W,
) -> Result<(Vec<View>, Vec<View>), TellingFault<io::Error>>
    ensures { IfOk result (λ shown. EndsAmong R.Registry J.Journal acts.now settles world.old
        (W.contents out.old) (W.contents out.new)
        (record { world = world.new; views = shown.0; others = shown.1 })) }
{
    print_settling(world, settles, out)?;
    let views = print_views(alloc, world, out)?;
    let others = print_others(alloc, world, acts, out)?;
    flush(out)?;
    Ok((views, others))
}

/// The names of the records that others wrote by rows and that aren't ours.
fn others_of<R: Registry + Drop, J: Journal + Drop>(
    alloc: Global,
    world: &World<R, J>,
    acts: &[Act],
) -> Result<Vec<RecordName>, WorldFault>
    ensures names { IfOk result (λ names. IsSettleOrder
        (strangers (names_in J.Journal world.now.connector) acts.now) names.items) }
    ensures open { OnOk result (is_open world.now.connector ≡ true) }
{
    let names = world.names()?;
    Ok(strangers(alloc, names.as_slice(), acts)?)
}

/// Prints a line for each record that others wrote by a row and that isn't ours.
fn print_others<R: Registry + Drop, J: Journal + Drop, W: Write>(
    alloc: Global,
    world: &mut World<R, J>,
    acts: &[Act],
    out: &mut W,
) -> Result<Vec<View>, TellingFault<io::Error>>
    ensures shows { IfOk result
        (λ views. ShowsOthers R.Registry J.Journal world.old world.new acts.now views.items) }
    ensures lines { IfOk result (λ views. Appends (W.contents out.old) (W.contents out.new)
        (others_lines views.items)) }
{
    let names = others_of(alloc, world, acts)?;
    print_each(alloc, world, names.as_slice(), Whose::Others, out)
}
