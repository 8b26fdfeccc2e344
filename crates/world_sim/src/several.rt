//! Several connectors that share one provider, each with a journal, a book and messages of its own.
ghost use Rattle.std.specs.Prelude.{◌≡◌, ◌<◌, ◌++◌, ◌∷◌, [], IfErr, IfOk, OnOk, length};
ghost use Rattle.world_sim.specs.Events.{event_of};
ghost use Rattle.world_sim.specs.Several.{Adds, FailsAtPlace, FailsToStart, HappensAt, IsSeatAt, SettlesAt, SettlesEach, StartsSeveral, StopsAt, StopsEach, others_with, seat_of, seated, seats_of};
ghost use Rattle.world_sim.specs.declared.reports.WorldFault.TheVariants.{Memory};

use crate::events::Event;
use crate::messages::Sent;
use crate::reports::{Report, WorldFault};
use crate::services::keeps_form;
use crate::settling::{Count, settle};
use crate::sides::Side;
use crate::worlds::{World, start};
use connector_core::Connector;
use core::mem::swap;
use journal_core::{Journal, ReopenJournal};
use provider_core::{Registry, Reopen};
use scim_key::Base;
use std::alloc::Global;
use std::fmt;

/// What is of one connector: its side, and every message between it and the provider.
#[derive(Drop)]
pub(crate) struct Seat<J: Journal> {
    pub(crate) connector: Side<J>,
    pub(crate) sent: Vec<Sent>,
}

/// Several connectors over one provider. Each knows its own messages alone, which are numbered from 1 for each.
#[derive(Drop)]
pub struct SharedWorld<R: Registry + Drop, J: Journal + Drop> {
    /// The provider, with the side of the connector that has the number 1.
    pub(crate) first: World<R, J>,
    /// The sides of the others, in the order of their numbers.
    pub(crate) others: Vec<Seat<J>>,
}

/// An event on the side of one connector.
#[derive(Drop)]
pub struct Turn {
    /// The connector's place, which is counted from 0.
    pub place: usize,
    pub event: Event,
}

/// What a turn reports.
#[derive(Drop)]
pub struct TurnReport {
    /// The connector's number, which is counted from 1.
    pub connector: usize,
    pub report: Report,
}

impl fmt::Display for TurnReport {
    ghost use Rattle.std.specs.Prelude.{Some};
    ghost use Rattle.world_sim.specs.SeveralPrinting.{turn_text};

    ghost output = { λ said. Some (turn_text said) };

    /// The connector's number, and the report: `2 find 3`.
    fn fmt<W: fmt::Write>(&self, f: &mut fmt::Formatter<W>) -> fmt::Result {
        write!(f, "{} {}", self.connector, self.report)
    }
}

/// Puts another side into a world, and takes out the one that was there.
fn trade<R: Registry + Drop, J: Journal + Drop>(world: &mut World<R, J>, seat: &mut Seat<J>)
    ensures world { world.new ≡ seated world.old seat.old }
    ensures seat { seat.new ≡ seat_of world.old }
{
    swap(&mut world.connector, &mut seat.connector);
    swap(&mut world.sent, &mut seat.sent);
}

impl<R: Registry + Drop, J: Journal + Drop> SharedWorld<R, J> {
    /// How many connectors there are.
    pub fn count(&self) -> usize
        ensures { result ≡ length (seats_of self.now) }
    {
        self.others.len() + 1
    }

    /// Puts the side at this place into the world, and the world's side at that place. The same once more puts
    /// both back.
    pub(crate) fn sit(&mut self, place: usize)
        requires { place < length (seats_of self.old) }
        ensures seat { IsSeatAt self.old place (seat_of self.new.first) }
        ensures first { self.new.first ≡ seated self.old.first (seat_of self.new.first) }
        ensures others { self.new.others.items
            ≡ others_with place (seat_of self.old.first) self.old.others.items }
    {
        if place > 0 {
            trade(&mut self.first, &mut self.others[place - 1]);
        }
    }
}

/// Adds a side at the end.
fn keep<J: Journal + Drop>(others: &mut Vec<Seat<J>>, seat: Seat<J>) -> Result<(), WorldFault>
    ensures kept { OnOk result (others.new.items ≡ others.old.items ++ seat ∷ []) }
    ensures memory { IfErr result (λ fault. fault ≡ Memory) }
{
    others.push(seat)?;
    Ok(())
}

impl<R: Registry + Drop, J: Journal + Drop> SharedWorld<R, J> {
    /// A provider over a registry and one connector over a journal, with no message sent yet.
    fn new(
        alloc: Global,
        registry: R,
        journal: J,
        base: Base,
    ) -> Result<SharedWorld<R, J>, WorldFault>
        ensures starts { IfOk result
            (StartsSeveral R.Registry J.Journal registry (journal ∷ []) base) }
        ensures fault { IfErr result (FailsToStart J.Journal (journal ∷ [])) }
    {
        let first = start(alloc, registry, journal, base)?;
        Ok(SharedWorld {
            first,
            others: Vec::new(alloc),
        })
    }

    /// One connector more, over this journal. It has the next number.
    fn add(&mut self, journal: J) -> Result<(), WorldFault>
        ensures adds { OnOk result (Adds R.Registry J.Journal self.old self.new journal) }
        ensures fault { IfErr result (FailsToStart J.Journal (journal ∷ [])) }
    {
        keeps_form(self.first.service.base());
        match Connector::open(self.first.alloc, journal) {
            Ok(connector) => keep(
                &mut self.others,
                Seat {
                    connector: Side::Open(connector),
                    sent: Vec::new(self.first.alloc),
                },
            ),
            Err((fault, _journal)) => Err(WorldFault::from(fault)),
        }
    }

    /// A provider over a registry and connectors over these journals, with no message sent yet. If it fails,
    /// all stores are dropped.
    pub fn start(
        alloc: Global,
        registry: R,
        first: J,
        others: Vec<J>,
        base: Base,
    ) -> Result<SharedWorld<R, J>, WorldFault>
        ensures starts { IfOk result
            (StartsSeveral R.Registry J.Journal registry (first ∷ others.items) base) }
        ensures fault { IfErr result (FailsToStart J.Journal (first ∷ others.items)) }
    {
        let mut world = SharedWorld::new(alloc, registry, first, base)?;
        for journal in others {
            world.add(journal)?;
        }
        Ok(world)
    }

    /// Settles the records of the connector at this place, as `settle` does in a world of its own.
    fn settle_at(&mut self, place: usize) -> Result<Count, WorldFault>
        requires { place < length (seats_of self.old) }
        ensures settles { IfOk result (SettlesAt R.Registry J.Journal self.old self.new place) }
        ensures stops { IfErr result (StopsAt R.Registry J.Journal self.old self.new place) }
    {
        self.sit(place);
        let result = settle(&mut self.first);
        self.sit(place);
        result
    }

    /// Settles the records of each connector, one connector after the other, by their numbers. The count is the
    /// sum.
    pub fn settle(&mut self) -> Result<Count, WorldFault>
        ensures settles { IfOk result (λ count. SettlesEach R.Registry J.Journal self.old self.new
            (length (seats_of self.old)) count.exchanges) }
        ensures stops { IfErr result (StopsEach R.Registry J.Journal self.old self.new) }
    {
        let mut exchanges: u32 = 0;
        for place in 0..self.count() {
            let count = self.settle_at(place)?;
            exchanges = exchanges.saturating_add(count.exchanges);
        }
        Ok(Count { exchanges })
    }
}

impl<R: Reopen + Drop, J: ReopenJournal + Drop> SharedWorld<R, J> {
    /// Makes one event on the side of the connector at this place, as `World::step` does in a world of its own.
    pub fn step(&mut self, place: usize, event: &Event) -> Result<TurnReport, WorldFault>
        requires { place < length (seats_of self.old) }
        ensures done { IfOk result
            (HappensAt R.Registry J.Journal self.old self.new place (event_of event.now)) }
        ensures fails { IfErr result
            (FailsAtPlace R.Registry J.Journal self.old self.new place (event_of event.now)) }
    {
        self.sit(place);
        let result = self.first.step(event);
        self.sit(place);
        match result {
            Ok(report) => Ok(TurnReport {
                connector: place + 1,
                report,
            }),
            Err(fault) => Err(fault),
        }
    }
}
