//! Runs of several connectors whose reports and records are printed.
ghost use Rattle.std.specs.Prelude.{◌≡◌, ◌<◌, ◌++◌, ◌∷◌, ◌+◌, [], IfErr, IfOk, OnOk, length, map};
ghost use Rattle.std.specs.Io.KnownBytes.{Appends};
ghost use Rattle.std.specs.List.{AllByRecursion};
ghost use Rattle.world_sim.specs.Printing.{settled_lines, view_lines};
ghost use Rattle.world_sim.specs.Events.{event_of};
ghost use Rattle.world_sim.specs.Several.{FailsTurn, HappensAt, IsBelow, RunsSeveral, seats_of};
ghost use Rattle.world_sim.specs.SeveralPrinting.{EndsPrintingSeveral, EndsSeveral, PrintsSeveral, SettlesEachIf, ShowsAt, ShowsEachSide, views_lines};

use crate::following::{TellingFault, Transition, make_all};
use crate::printing::{ReportLines, flush, print_count, print_views};
use crate::reports::WorldFault;
use crate::settling::Count;
use crate::several::{SharedWorld, Turn, TurnReport};
use crate::views::View;
use journal_core::{Journal, ReopenJournal};
use provider_core::{Registry, Reopen};
use scim_key::Base;
use std::alloc::Global;
use std::io;
use std::io::Write;

/// What several connectors came to, after a run whose lines were printed.
#[derive(Drop)]
pub struct PrintedSeveral<R: Registry + Drop, J: Journal + Drop> {
    pub world: SharedWorld<R, J>,
    /// The views of the records of each connector.
    pub views: Vec<Vec<View>>,
}

impl<R: Reopen + Drop, J: ReopenJournal + Drop> Transition<SharedWorld<R, J>> for Turn {
    type Report = TurnReport;

    ghost makes = { λ old new turn. HappensAt R.Registry J.Journal old new turn.place
        (event_of turn.event) };

    ghost fails = { FailsTurn R.Registry J.Journal };

    ghost runs = { RunsSeveral R.Registry J.Journal };

    ghost fits = { λ world turn. IsBelow (length (seats_of world)) turn };

    fn make(&self, world: &mut SharedWorld<R, J>) -> Result<TurnReport, WorldFault> {
        world.step(self.place, &self.event)
    }
}

/// Settles the records of each connector if that is asked for, and prints how many exchanges that took.
fn print_settling<R: Registry + Drop, J: Journal + Drop, W: Write>(
    world: &mut SharedWorld<R, J>,
    settles: bool,
    out: &mut W,
) -> Result<Option<Count>, TellingFault<io::Error>>
    ensures settles { IfOk result
        (SettlesEachIf R.Registry J.Journal settles world.old world.new) }
    ensures line { IfOk result (λ count. Appends (W.contents out.old) (W.contents out.new)
        (settled_lines count)) }
{
    if !settles {
        return Ok(None);
    }
    let count = world.settle()?;
    print_count(out, count)?;
    Ok(Some(count))
}

impl<R: Registry + Drop, J: Journal + Drop> SharedWorld<R, J> {
    /// Prints a line for each record of the connector at this place.
    fn print_views_at<W: Write>(
        &mut self,
        alloc: Global,
        place: usize,
        out: &mut W,
    ) -> Result<Vec<View>, TellingFault<io::Error>>
        requires { place < length (seats_of self.old) }
        ensures shows { IfOk result (λ views. ShowsAt R.Registry J.Journal self.old self.new place
            views.items) }
        ensures lines { IfOk result (λ views. Appends (W.contents out.old) (W.contents out.new)
            (view_lines views.items)) }
    {
        self.sit(place);
        let result = print_views(alloc, &mut self.first, out);
        self.sit(place);
        result
    }
}

/// Adds the views of a connector's records at the end.
fn keep_views(all: &mut Vec<Vec<View>>, views: Vec<View>) -> Result<(), WorldFault>
    ensures { OnOk result (all.new.items ≡ all.old.items ++ views ∷ []) }
{
    all.push(views)?;
    Ok(())
}

/// Prints a line for each record of each connector: connectors by number, and of each users by key, then groups
/// by key.
fn print_all_views<R: Registry + Drop, J: Journal + Drop, W: Write>(
    alloc: Global,
    world: &mut SharedWorld<R, J>,
    out: &mut W,
) -> Result<Vec<Vec<View>>, TellingFault<io::Error>>
    ensures shows { IfOk result (λ all. ShowsEachSide R.Registry J.Journal world.old world.new
        (length (seats_of world.old)) (map (λ views. views.items) all.items)) }
    ensures lines { IfOk result (λ all. Appends (W.contents out.old) (W.contents out.new)
        (views_lines (map (λ views. views.items) all.items))) }
{
    let mut all = Vec::new(alloc);
    for place in 0..world.count() {
        let views = world.print_views_at(alloc, place, out)?;
        keep_views(&mut all, views)?;
    }
    Ok(all)
}

/// Makes turns of several connectors over a registry without rows and journals without entries, and prints a line
/// for each as it comes. Then it settles the records of each connector if that is asked for, and prints how many
/// exchanges that took in all, and a line for each record of each connector. For each of them the promise holds,
/// if no two have a record in common.
pub fn print_several<R: Reopen + Drop, J: ReopenJournal + Drop, W: Write + Drop>(
    alloc: Global,
    registry: R,
    first: J,
    others: Vec<J>,
    base: Base,
    turns: &[Turn],
    settles: bool,
    lines: &mut ReportLines<TurnReport, W>,
) -> Result<PrintedSeveral<R, J>, TellingFault<io::Error>>
    requires { AllByRecursion (IsBelow (length others.items + 1)) turns.now }
    ensures prints { IfOk result (PrintsSeveral R.Registry J.Journal W.contents registry
        (first ∷ others.items) base turns.now settles lines.old lines.new) }
    ensures fault { IfErr result (EndsPrintingSeveral R.Registry J.Journal W.contents registry
        (first ∷ others.items) base turns.now lines.old lines.new) }
{
    let mut world = SharedWorld::start(alloc, registry, first, others, base)?;
    make_all(&mut world, turns, lines)?;
    let views = print_end_several(alloc, &mut world, settles, &mut lines.out)?;
    Ok(PrintedSeveral { world, views })
}

/// Settles the records of each connector if that is asked for, and then prints the records.
fn print_end_several<R: Registry + Drop, J: Journal + Drop, W: Write>(
    alloc: Global,
    world: &mut SharedWorld<R, J>,
    settles: bool,
    out: &mut W,
) -> Result<Vec<Vec<View>>, TellingFault<io::Error>>
    ensures { IfOk result (λ views. EndsSeveral R.Registry J.Journal settles world.old
        (W.contents out.old) (W.contents out.new) (record { world = world.new; views = views })) }
{
    print_settling(world, settles, out)?;
    let views = print_all_views(alloc, world, out)?;
    flush(out)?;
    Ok(views)
}
