//! Runs whose reports and records are printed.
ghost use Rattle.std.specs.Prelude.{◌≡◌, ◌+◌, ◌++◌, ◌∷◌, [], IfErr, IfOk, IfSome, OnOk, Some, length};
ghost use Rattle.std.specs.Io.KnownBytes.{Appends, Keeps};
ghost use Rattle.world_sim.specs.Events.{events_of};
ghost use Rattle.world_sim.specs.Printing.{Ends, EndsPrinting, Prints, PrintsNext, SettlesIf, ShowsAll, ShowsEach, line_of, lines_of, printed_reports, report_line, settled_lines, view_lines};
ghost use Rattle.world_sim.specs.Views.{Looks, Shows};

use crate::events::Event;
use crate::following::{Follow, TellingFault};
use crate::reports::{Report, WorldFault};
use crate::runs::run_telling;
use crate::settling::{Count, settle};
use crate::views::View;
use crate::worlds::World;
use journal_core::{Journal, ReopenJournal};
use provider_core::{Registry, Reopen};
use scim_key::{Base, RecordName};
use std::alloc::Global;
use std::fmt::Display;
use std::io;
use std::io::Write;

/// Prints a line for each report of an event or an act as soon as it is told: its number, and what it says:
/// `2 find 1`.
#[derive(Drop)]
pub struct ReportLines<T: Drop, W: Write + Drop> {
    pub out: W,
    /// The reports so far.
    pub reports: Vec<T>,
}

impl<T: Drop, W: Write + Drop> ReportLines<T, W> {
    /// No line is printed yet.
    pub fn new(alloc: Global, out: W) -> ReportLines<T, W>
        ensures out { result.out ≡ out }
        ensures none { result.reports.items ≡ [] }
    {
        ReportLines {
            out,
            reports: Vec::new(alloc),
        }
    }
}

/// Prints the line of the report with this number.
fn print_report<T: Display, W: Write>(out: &mut W, number: usize, report: &T) -> io::Result<()>
    ensures { OnOk result (IfSome (T.output report.now) (λ text.
        Appends (W.contents out.old) (W.contents out.new) (report_line number text))) }
{
    writeln!(out, "{number} {report}")
}

impl<T: Display + Drop, W: Write + Drop> Follow<T> for ReportLines<T, W> {
    type Fault = io::Error;

    ghost told = { printed_reports };

    ghost does = { PrintsNext T.output W.contents };

    fn tell(&mut self, report: T) -> io::Result<()> {
        let number = self.reports.len() + 1;
        print_report(&mut self.out, number, &report)?;
        self.reports.push(report)?;
        Ok(())
    }
}

/// The world and the views of its records, after a run whose lines were printed.
#[derive(Drop)]
pub struct Printed<R: Registry + Drop, J: Journal + Drop> {
    pub world: World<R, J>,
    pub views: Vec<View>,
}

/// Runs events as `run_telling` does, and prints the line of each report as it comes. Then it settles every
/// record if that is asked for, and prints how many exchanges that took. Then it prints a line for each record:
/// users by key, then groups by key.
pub fn print_run<R: Reopen + Drop, J: ReopenJournal + Drop, W: Write + Drop>(
    alloc: Global,
    registry: R,
    journal: J,
    base: Base,
    events: &[Event],
    settles: bool,
    lines: &mut ReportLines<Report, W>,
) -> Result<Printed<R, J>, TellingFault<io::Error>>
    ensures prints { IfOk result (Prints R.Registry J.Journal W.contents registry journal base
        (events_of events.now) settles lines.old lines.new) }
    ensures fault { IfErr result
        (EndsPrinting R.Registry J.Journal W.contents registry journal base
        (events_of events.now) lines.old lines.new) }
{
    let mut world = run_telling(alloc, registry, journal, base, events, lines)?;
    let views = print_end(alloc, &mut world, settles, &mut lines.out)?;
    Ok(Printed { world, views })
}

/// Settles every record of a world if that is asked for, and then prints the records.
fn print_end<R: Registry + Drop, J: Journal + Drop, W: Write>(
    alloc: Global,
    world: &mut World<R, J>,
    settles: bool,
    out: &mut W,
) -> Result<Vec<View>, TellingFault<io::Error>>
    ensures { IfOk result (λ views. Ends R.Registry J.Journal settles world.old
        (W.contents out.old) (W.contents out.new) (record { world = world.new; views = views })) }
{
    print_settling(world, settles, out)?;
    let views = print_views(alloc, world, out)?;
    flush(out)?;
    Ok(views)
}

/// Settles every record if that is asked for, and prints how many exchanges that took.
pub(crate) fn print_settling<R: Registry + Drop, J: Journal + Drop, W: Write>(
    world: &mut World<R, J>,
    settles: bool,
    out: &mut W,
) -> Result<Option<Count>, TellingFault<io::Error>>
    ensures settles { IfOk result
        (SettlesIf R.Registry J.Journal settles world.old world.new) }
    ensures line { IfOk result (λ count. Appends (W.contents out.old) (W.contents out.new)
        (settled_lines count)) }
{
    if !settles {
        return Ok(None);
    }
    let count = settle(world)?;
    print_count(out, count)?;
    Ok(Some(count))
}

/// Prints how many exchanges a run to convergence took.
pub(crate) fn print_count<W: Write>(out: &mut W, count: Count) -> io::Result<()>
    ensures { OnOk result (Appends (W.contents out.old) (W.contents out.new)
        (settled_lines (Some count))) }
{
    writeln!(out, "{count}")
}

/// Prints a line for each record: users by key, then groups by key.
pub(crate) fn print_views<R: Registry + Drop, J: Journal + Drop, W: Write>(
    alloc: Global,
    world: &mut World<R, J>,
    out: &mut W,
) -> Result<Vec<View>, TellingFault<io::Error>>
    ensures shows { IfOk result
        (λ views. ShowsAll R.Registry J.Journal world.old world.new views.items) }
    ensures lines { IfOk result (λ views. Appends (W.contents out.old) (W.contents out.new)
        (view_lines views.items)) }
{
    let names = world.names()?;
    print_each(alloc, world, names.as_slice(), Whose::Ours, out)
}

/// Whose record a line is about.
#[derive(Clone, Copy)]
pub(crate) enum Whose {
    Ours,
    Others,
}

/// Prints a line for each of these records.
pub(crate) fn print_each<R: Registry + Drop, J: Journal + Drop, W: Write>(
    alloc: Global,
    world: &mut World<R, J>,
    names: &[RecordName],
    whose: Whose,
    out: &mut W,
) -> Result<Vec<View>, TellingFault<io::Error>>
    ensures shows { IfOk result
        (λ views. ShowsEach R.Registry J.Journal world.old world.new names.now views.items) }
    ensures lines { IfOk result (λ views. Appends (W.contents out.old) (W.contents out.new)
        (lines_of whose views.items)) }
{
    let mut views = Vec::new(alloc);
    for name in names {
        let view = print_view(world, name, whose, out)?;
        keep(&mut views, view)?;
    }
    Ok(views)
}

/// Adds a view at the end.
fn keep(views: &mut Vec<View>, view: View) -> Result<(), WorldFault>
    ensures { OnOk result (views.new.items ≡ views.old.items ++ view ∷ []) }
{
    views.push(view)?;
    Ok(())
}

/// Prints the state of a record.
fn print_view<R: Registry + Drop, J: Journal + Drop, W: Write>(
    world: &mut World<R, J>,
    name: &RecordName,
    whose: Whose,
    out: &mut W,
) -> Result<View, TellingFault<io::Error>>
    ensures shows { IfOk result (Shows R.Registry J.Journal world.old world.new name.now) }
    ensures looks { Looks R.Registry J.Journal world.old world.new }
    ensures line { IfOk result (λ view. Appends (W.contents out.old) (W.contents out.new)
        (line_of whose view)) }
{
    let view = world.view(name)?;
    print_line(out, whose, &view)?;
    Ok(view)
}

/// Prints the line of a view.
fn print_line<W: Write>(out: &mut W, whose: Whose, view: &View) -> io::Result<()>
    ensures { OnOk result (Appends (W.contents out.old) (W.contents out.new)
        (line_of whose view.now)) }
{
    match whose {
        Whose::Ours => writeln!(out, "{view}"),
        Whose::Others => writeln!(out, "{}", view.of_others()),
    }
}

/// Flushes what was printed.
pub(crate) fn flush<W: Write>(out: &mut W) -> io::Result<()>
    ensures { Keeps (W.contents out.old) (W.contents out.new) }
{
    out.flush()
}
