//! Runs whose reports somebody is told as they come.
ghost use Rattle.std.specs.Prelude.{◌≡◌, ◌++◌, ◌∷◌, [], List, IfErr, IfOk, OnErr, OnOk};
ghost use Rattle.std.specs.List.{AllByRecursion};
ghost use Rattle.world_sim.specs.Following.{EndsAt, EndsTold, Follows, IsUntold, RunsTold};
ghost use Rattle.world_sim.specs.Transitions.{AreRuns};
ghost use Rattle.world_sim.specs.declared.reports.WorldFault.{WorldFault as Fault};

use crate::reports::WorldFault;
use std::io;

/// What leads from one state of a world to the next: an event, an act, or a turn of several connectors.
pub(crate) trait Transition<W> {
    type Report: Drop;

    /// It leads from one world to another, with a report.
    ghost makes: { W → W → Self → Self.Report → Type 0 };

    /// It failed in one world, which left another.
    ghost fails: { W → W → Self → Fault → Type 0 };

    /// Some of them, one after the other, lead from one world to another, with their reports.
    ghost runs: { W → W → List Self → List Self.Report → Type 0 };

    /// It can be made in this world.
    ghost fits: { W → Self → Type 0 };

    fn make(&self, world: &mut W) -> Result<Self::Report, WorldFault>
        requires { fits world.old self.now }
        ensures makes { IfOk result (makes world.old world.new self.now) }
        ensures fails { IfErr result (fails world.old world.new self.now) }
        ensures fits { OnOk result ((later : Self) → fits world.old later → fits world.new later) };
}

/// Who follows a run: he is told each report as soon as the event or the act is made.
pub trait Follow<T: Drop> {
    /// Why a report couldn't be told.
    type Fault: Drop;

    /// The reports that were told so far, in order. One that couldn't be told isn't among them.
    ghost told: { Self → List T };

    /// What the telling of a report does beside that, such as the line that it prints.
    ghost does: { Self → T → Self → Type 0 };

    fn tell(&mut self, report: T) -> Result<(), Self::Fault>
        ensures told { OnOk result (told self.new ≡ told self.old ++ report ∷ []) }
        ensures does { OnOk result (does self.old report self.new) }
        ensures untold { OnErr result (told self.new ≡ told self.old) };
}

/// Why a run ended early.
#[derive(Drop)]
pub enum TellingFault<E> {
    /// The world didn't start, or an event failed.
    World(WorldFault),
    /// A report couldn't be told.
    Untold(E),
}

impl<E> From<WorldFault> for TellingFault<E> {
    ghost use Rattle.world_sim.specs.declared.following.TellingFault.TheVariants as fault;

    ghost from_gives = { λ from made. made ≡ fault.World from };

    fn from(fault: WorldFault) -> TellingFault<E> {
        TellingFault::World(fault)
    }
}

/// A line couldn't be printed.
impl From<io::Error> for TellingFault<io::Error> {
    ghost use Rattle.world_sim.specs.declared.following.TellingFault.TheVariants as fault;

    ghost from_gives = { λ error made. made ≡ fault.Untold error };

    fn from(error: io::Error) -> TellingFault<io::Error> {
        TellingFault::Untold(error)
    }
}

/// Tells a report.
pub(crate) fn tell<T: Drop, F: Follow<T>>(
    follower: &mut F,
    report: T,
) -> Result<(), TellingFault<F::Fault>>
    ensures told { OnOk result (F.told follower.new ≡ F.told follower.old ++ report ∷ []) }
    ensures does { OnOk result (F.does follower.old report follower.new) }
    ensures fault { IfErr result (IsUntold F.told follower.old follower.new) }
{
    match follower.tell(report) {
        Ok(()) => Ok(()),
        Err(fault) => Err(TellingFault::Untold(fault)),
    }
}

/// Makes a transition, and tells its report.
fn make_telling<W, D: Transition<W>, F: Follow<D::Report>>(
    world: &mut W,
    next: &D,
    follower: &mut F,
) -> Result<(), TellingFault<F::Fault>>
    requires { D.fits world.old next.now }
    ensures done { OnOk result (Follows D.makes F.told F.does world.old world.new next.now
        follower.old follower.new) }
    ensures fits { OnOk result ((later : D) → D.fits world.old later → D.fits world.new later) }
    ensures fault { IfErr result (EndsAt D.makes D.fails F.told world.old world.new next.now
        follower.old follower.new) }
{
    match next.make(world) {
        Ok(report) => tell(follower, report),
        Err(fault) => Err(TellingFault::World(fault)),
    }
}

/// Makes these transitions, one after the other. The follower is told the report of each before the next one is made.
/// If one fails, or a report can't be told, the run ends there.
pub(crate) fn make_all<W, D: Transition<W>, F: Follow<D::Report>>(
    world: &mut W,
    all: &[D],
    follower: &mut F,
) -> Result<(), TellingFault<F::Fault>>
    requires runs { AreRuns D.makes D.runs }
    requires fits { AllByRecursion (D.fits world.old) all.now }
    ensures runs { OnOk result (RunsTold D.runs F.told F.does world.old world.new all.now
        follower.old follower.new) }
    ensures fault { IfErr result (EndsTold D.runs D.fails F.told F.does world.old all.now
        follower.old follower.new) }
{
    for next in all {
        make_telling(world, next, follower)?;
    }
    Ok(())
}
