//! Acts among others: our events, and what others write at the same provider.
ghost use Rattle.std.specs.Prelude.{◌≡◌, IfErr, IfOk, OnOk};
ghost use Rattle.world_sim.specs.Amid.{Does, FailsToDo, after_act};
ghost use Rattle.world_sim.specs.Acts.{Leads};
ghost use Rattle.world_sim.specs.declared.acting.Act.TheVariants as acts;

use crate::events::Event;
use crate::imaging::{RowRequest, row_request};
use crate::reports::{Report, WorldFault};
use crate::worlds::{World, keeps_limits};
use journal_core::{Journal, ReopenJournal};
use provider_core::{Registry, Reopen};
use scim_key::Key;
use scim_message::Request;
use scim_resource::Content;
use source_csv::Row;
use std::fmt;

/// What may happen in a world among others.
#[derive(Drop)]
pub enum Act {
    /// An event of our world.
    Ours(Event),
    /// A request of somebody else comes to the provider, and its answer goes elsewhere.
    Asks(Request),
    /// Others write this content: they create it, or replace what has its name, whatever that is.
    Writes(Content),
    /// Others write the image of this row. Its members have the ids that the provider's rows give now. If a
    /// member has none, nothing is written.
    WritesRow(Row),
    /// The provider holds the image of this row before our first event: somebody wrote it before, whosever record
    /// it is.
    Holds(Row),
}

/// What an act reports.
#[derive(Drop)]
pub enum ActReport {
    Ours(Report),
    /// The status of the answer to somebody else.
    Others(u16),
    /// Others wrote nothing: this member of their row, the first by key, has no resource.
    Waits(Key),
}

impl fmt::Display for ActReport {
    ghost use Rattle.std.specs.Prelude.{Some};
    ghost use Rattle.world_sim.specs.Amid.{act_text};

    ghost output = { λ report. Some (act_text report) };

    /// The report of an event, `other 201` or `waits bob`.
    fn fmt<W: fmt::Write>(&self, f: &mut fmt::Formatter<W>) -> fmt::Result {
        match self {
            ActReport::Ours(report) => write!(f, "{report}"),
            ActReport::Others(status) => write!(f, "other {status}"),
            ActReport::Waits(member) => write!(f, "waits {}", member.as_str()),
        }
    }
}

impl<R: Registry + Drop, J: Journal + Drop> World<R, J> {
    /// Somebody else's request arrives.
    fn arrive_theirs(&mut self, request: &Request) -> Result<ActReport, WorldFault>
        ensures done { IfOk result
            (Does R.Registry J.Journal self.old self.new (acts.Asks request.now)) }
        ensures fails { IfErr result
            (FailsToDo R.Registry J.Journal self.old self.new (acts.Asks request.now)) }
        ensures mirrors { OnOk result (Leads R.Registry J.Journal self.old self.new
            (λ w. after_act w (acts.Asks request.now))) }
    {
        match self.arrive(request) {
            Ok(status) => Ok(ActReport::Others(status)),
            Err(fault) => Err(fault),
        }
    }

    /// Others write a copy of this content.
    fn write_theirs(&mut self, content: &Content) -> Result<ActReport, WorldFault>
        ensures done { IfOk result
            (Does R.Registry J.Journal self.old self.new (acts.Writes content.now)) }
        ensures fails { IfErr result
            (FailsToDo R.Registry J.Journal self.old self.new (acts.Writes content.now)) }
    {
        let copy = content.clone()?;
        match self.write(copy) {
            Ok(status) => Ok(ActReport::Others(status)),
            Err(fault) => Err(fault),
        }
    }

    /// Others write the image of this row.
    fn write_row(&mut self, row: &Row) -> Result<ActReport, WorldFault>
        ensures done { IfOk result
            (Does R.Registry J.Journal self.old self.new (acts.WritesRow row.now)) }
        ensures fails { IfErr result
            (FailsToDo R.Registry J.Journal self.old self.new (acts.WritesRow row.now)) }
        ensures mirrors { OnOk result (Leads R.Registry J.Journal self.old self.new
            (λ w. after_act w (acts.WritesRow row.now))) }
    {
        if !self.is_provider_open {
            return Err(WorldFault::Store);
        }
        match row_request(self.alloc, &mut self.provider, row)? {
            RowRequest::Waits(member) => Ok(ActReport::Waits(member)),
            RowRequest::Asks(request) => self.arrive_theirs(&request),
        }
    }

    /// The provider holds the image of this row at the start.
    fn hold(&mut self, row: &Row) -> Result<ActReport, WorldFault>
        ensures done { IfOk result
            (Does R.Registry J.Journal self.old self.new (acts.Holds row.now)) }
        ensures fails { IfErr result
            (FailsToDo R.Registry J.Journal self.old self.new (acts.Holds row.now)) }
    {
        keeps_limits(row);
        self.write_row(row)
    }
}

impl<R: Reopen + Drop, J: ReopenJournal + Drop> World<R, J> {
    /// An event of ours.
    fn step_ours(&mut self, event: &Event) -> Result<ActReport, WorldFault>
        ensures done { IfOk result
            (Does R.Registry J.Journal self.old self.new (acts.Ours event.now)) }
        ensures fails { IfErr result
            (FailsToDo R.Registry J.Journal self.old self.new (acts.Ours event.now)) }
    {
        match self.step(event) {
            Ok(report) => Ok(ActReport::Ours(report)),
            Err(fault) => Err(fault),
        }
    }

    /// Makes one act: an event of ours, as `step` does, or what others do at the provider, as `arrive` and
    /// `write` do. Of a row they write its image.
    pub fn act(&mut self, act: &Act) -> Result<ActReport, WorldFault>
        ensures done { IfOk result (Does R.Registry J.Journal self.old self.new act.now) }
        ensures fails { IfErr result (FailsToDo R.Registry J.Journal self.old self.new act.now) }
    {
        match act {
            Act::Ours(event) => self.step_ours(event),
            Act::Asks(request) => self.arrive_theirs(request),
            Act::Writes(content) => self.write_theirs(content),
            Act::WritesRow(row) => self.write_row(row),
            Act::Holds(row) => self.hold(row),
        }
    }
}
