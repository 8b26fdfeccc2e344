//! The world that runs.
ghost use Rattle.std.specs.Prelude.{◌≡◌, IfErr, IfOk, OnErr, OnOk, Err, false, true, is_ok};
ghost use Rattle.journal_core.specs.Calls as journals;
ghost use Rattle.provider_core.specs.Calls as registries;
ghost use Rattle.provider_core.specs.Outcomes.{outcome};
ghost use Rattle.scim_http.specs.Replies.{answer_text};
ghost use Rattle.source_csv.specs.Records.{IsRow};
ghost use Rattle.world_model.specs.Reports.{sending_report};
ghost use Rattle.world_model.specs.World.{Answered, Asked, Changes, Cuts, Delivers, Doubts, Restarts_connector, Restarts_provider, Sends};
ghost use Rattle.world_sim.specs.Events.{event_of, report_of};
ghost use Rattle.world_sim.specs.Fitting.{IsFormed};
ghost use Rattle.world_sim.specs.GoingOn.{FailsOn, GoesOn, unknown_entries};
ghost use Rattle.world_sim.specs.Running.{Apart, Arrives, Fails, FailsToArrive, Happens, IsOpenedBy, IsShutOff, Keeps, Posts, Starts, StartsAt, Stays, journal_after, journal_in, opens_after, opens_of};
ghost use Rattle.world_sim.specs.Sides.{CountsStart, CountsWorldFault};
ghost use Rattle.world_sim.specs.declared.reports.Report.TheVariants.{CutShort};
ghost use Rattle.world_sim.specs.declared.reports.WorldFault.TheVariants.{Memory, Store};

use crate::events::Event;
use crate::learning::{hear, judge};
use crate::messages::{Said, Sent, SentRequest, asked, sent_at};
use crate::reading::{ReadingFault, read_asked, read_cut};
use crate::reports::{Report, WorldFault};
use crate::services::{OwnService, keeps_form};
use crate::sides::{Side, reopened};
use connector_core::{Ask, AskFault, Connector};
use core::mem::replace_with;
use journal_core::{Journal, ReopenJournal};
use provider_core::{Pending, Provider, Registry, Reopen};
use scim_http::response_of;
use scim_key::{Base, RecordName};
use scim_message::Request;
use source_csv::Row;
use std::alloc::Global;

/// A provider over a registry, a connector over a journal, and all messages that they ever sent.
pub struct World<R: Registry + Drop, J: Journal + Drop> {
    pub(crate) alloc: Global,
    pub(crate) service: OwnService,
    pub(crate) provider: Provider<R>,
    /// Whether the provider's registry is open: false after a reopening that failed.
    pub(crate) is_provider_open: bool,
    pub(crate) connector: Side<J>,
    pub(crate) sent: Vec<Sent>,
}

/// By hand, so that whoever drops a world has one call to prove, and not one for each field.
impl<R: Registry + Drop, J: Journal + Drop> Drop for World<R, J> {
    fn drop(self) {
        let World {
            alloc: _,
            service: _,
            provider: _,
            is_provider_open: _,
            connector: _,
            sent: _,
        } = self;
    }
}

/// The report of a request that was sent, with the number of its message.
fn sending(number: usize, request: &Request) -> Report
    ensures { report_of result ≡ sending_report number request.now }
{
    match request {
        Request::Create { .. } => Report::Creating(number),
        Request::Replace { .. } => Report::Replacing(number),
        Request::Search { .. } | Request::Retrieve { .. } => Report::Finding(number),
    }
}

/// The report of the first bytes of a message, by whether they were read as one.
fn cut_short(is_read: bool) -> Report
    ensures { is_read ≡ false → result ≡ CutShort }
{
    if is_read {
        Report::NoMessage
    } else {
        Report::CutShort
    }
}

/// The type of a row guarantees the limits of the source.
pub(crate) fn keeps_limits(row: &Row)
    ensures { IsRow row.now }
{
    let _ = row.revision();
}

/// The answer to a request, the change of the rows, and the bytes of the reply.
pub(crate) fn prepared<R: Registry>(
    alloc: Global,
    provider: &mut Provider<R>,
    base: &Base,
    request: &Request,
) -> Result<(Pending, Vec<u8>), WorldFault>
    ensures ok { R.is_faithful provider.new
        → IfOk result (λ formed. formed.0 ≡ outcome (R.rows provider.old) request.now) }
    ensures text { IfOk result (λ formed. formed.1.items
        ≡ answer_text base.now false formed.0.answer) }
    ensures formed { IfOk result
        (λ formed. IsFormed base.now (Answered request.now formed.0.answer)) }
    ensures reads { registries.Reads R.Registry CountsWorldFault provider.old provider.new result }
{
    let pending = provider.prepare(alloc, request)?;
    let text = response_of(alloc, pending.answer(), base)?;
    Ok((pending, text))
}

/// A world as `World::new` makes it. If it fails, both stores are dropped.
pub(crate) fn start<R: Registry + Drop, J: Journal + Drop>(
    alloc: Global,
    registry: R,
    journal: J,
    base: Base,
) -> Result<World<R, J>, WorldFault>
    ensures starts { IfOk result (StartsAt R.Registry J.Journal registry journal base) }
    ensures fault { IfErr result (λ fault. ((left : J)
        × CountsWorldFault (J.faults journal) (J.faults left) fault)) }
{
    match World::new(alloc, registry, journal, base) {
        Ok(world) => Ok(world),
        Err((fault, _registry, _journal)) => Err(fault),
    }
}

impl<R: Registry + Drop, J: Journal + Drop> World<R, J> {
    /// A provider over a registry and a connector over a journal, with no message sent yet. If it fails, it
    /// hands both stores back.
    pub fn new(
        alloc: Global,
        registry: R,
        journal: J,
        base: Base,
    ) -> Result<World<R, J>, (WorldFault, R, J)>
        ensures base { IfOk result (λ world. world.service ≡ base) }
        ensures starts { IfOk result (Starts R.Registry J.Journal registry journal) }
        ensures open { IfOk result (λ world. opens_of world ≡ (true, true)) }
        ensures refused { IfErr result (λ refused. refused.1 ≡ registry) }
        ensures journal { journals.Reads J.Journal CountsStart journal
            (journal_after result) result }
    {
        keeps_form(&base);
        match Connector::open(alloc, journal) {
            Ok(connector) => Ok(World {
                alloc,
                service: OwnService::new(base),
                provider: Provider::new(registry),
                is_provider_open: true,
                connector: Side::Open(connector),
                sent: Vec::new(alloc),
            }),
            Err((fault, journal)) => Err((WorldFault::from(fault), registry, journal)),
        }
    }

    /// The source offers a row.
    fn change(&mut self, row: &Row) -> Result<Report, WorldFault>
        ensures done { IfOk result
            (Happens R.Registry J.Journal self.old self.new (Changes row.now)) }
        ensures fails { IfErr result
            (Fails R.Registry J.Journal self.old self.new (Changes row.now)) }
        ensures goes_on { IfOk result
            (GoesOn R.Registry J.Journal self.old self.new (Changes row.now)) }
        ensures fails_on { IfErr result
            (FailsOn R.Registry J.Journal self.old self.new (Changes row.now)) }
        ensures keeps { OnErr result (Keeps self.old self.new (Changes row.now)) }
        ensures apart { Apart self.old self.new (Changes row.now) }
        ensures shut { IsShutOff self.old (Changes row.now) → result ≡ Err Store }
        ensures opens { opens_of self.new ≡ opens_of self.old }
    {
        let Side::Open(connector) = &mut self.connector else {
            return Err(WorldFault::Store);
        };
        keeps_limits(row);
        let copy = row.clone()?;
        judge(connector, copy)
    }

    /// The connector sends its next request for a record.
    pub(crate) fn send(&mut self, name: &RecordName) -> Result<Report, WorldFault>
        ensures done { IfOk result
            (Happens R.Registry J.Journal self.old self.new (Sends name.now)) }
        ensures fails { IfErr result
            (Fails R.Registry J.Journal self.old self.new (Sends name.now)) }
        ensures goes_on { IfOk result
            (GoesOn R.Registry J.Journal self.old self.new (Sends name.now)) }
        ensures fails_on { IfErr result
            (FailsOn R.Registry J.Journal self.old self.new (Sends name.now)) }
        ensures keeps { OnErr result (Keeps self.old self.new (Sends name.now)) }
        ensures apart { Apart self.old self.new (Sends name.now) }
        ensures shut { IsShutOff self.old (Sends name.now) → result ≡ Err Store }
        ensures opens { opens_of self.new ≡ opens_of self.old }
    {
        let Side::Open(connector) = &self.connector else {
            return Err(WorldFault::Store);
        };
        match connector.ask(name) {
            Ok(Ask::Nothing) => Ok(Report::Idle),
            Ok(Ask::Waits(member)) => Ok(Report::Waiting(member)),
            Ok(Ask::Send(request)) => self.post(request),
            Err(AskFault::NoSuchRecord) => Ok(Report::UnknownRecord),
            Err(AskFault::Memory) => Err(WorldFault::Memory),
        }
    }

    /// The connector doubts a record.
    fn doubt(&mut self, name: &RecordName) -> Result<Report, WorldFault>
        ensures done { IfOk result
            (Happens R.Registry J.Journal self.old self.new (Doubts name.now)) }
        ensures fails { IfErr result
            (Fails R.Registry J.Journal self.old self.new (Doubts name.now)) }
        ensures goes_on { IfOk result
            (GoesOn R.Registry J.Journal self.old self.new (Doubts name.now)) }
        ensures fails_on { IfErr result
            (FailsOn R.Registry J.Journal self.old self.new (Doubts name.now)) }
        ensures keeps { OnErr result (Keeps self.old self.new (Doubts name.now)) }
        ensures apart { Apart self.old self.new (Doubts name.now) }
        ensures shut { IsShutOff self.old (Doubts name.now) → result ≡ Err Store }
        ensures opens { opens_of self.new ≡ opens_of self.old }
    {
        let Side::Open(connector) = &mut self.connector else {
            return Err(WorldFault::Store);
        };
        if connector.row(name).is_none() {
            return Ok(Report::UnknownRecord);
        }
        connector.doubt(name);
        Ok(Report::Doubted)
    }

    /// Sends a request.
    fn post(&mut self, request: Request) -> Result<Report, WorldFault>
        ensures sent { IfOk result (Posts self.old self.new request) }
        ensures memory { IfErr result (λ fault. fault ≡ Memory) }
        ensures stays { OnErr result (Stays self.old self.new) }
        ensures apart { self.new.provider ≡ self.old.provider }
        ensures opens { opens_of self.new ≡ opens_of self.old }
    {
        let report = sending(self.sent.len() + 1, &request);
        let message = asked(self.alloc, &self.service, request)?;
        self.sent.push(message)?;
        Ok(report)
    }

    /// The message with a number arrives.
    pub(crate) fn deliver(&mut self, number: usize) -> Result<Report, WorldFault>
        ensures done { IfOk result
            (Happens R.Registry J.Journal self.old self.new (Delivers number)) }
        ensures fails { IfErr result
            (Fails R.Registry J.Journal self.old self.new (Delivers number)) }
        ensures goes_on { IfOk result
            (GoesOn R.Registry J.Journal self.old self.new (Delivers number)) }
        ensures fails_on { IfErr result
            (FailsOn R.Registry J.Journal self.old self.new (Delivers number)) }
        ensures keeps { OnErr result (Keeps self.old self.new (Delivers number)) }
        ensures apart { Apart self.old self.new (Delivers number) }
        ensures shut { IsShutOff self.old (Delivers number) → result ≡ Err Store }
        ensures opens { opens_of self.new ≡ opens_of self.old }
    {
        let Some(message) = sent_at(&self.sent, number) else {
            return Ok(Report::NoMessage);
        };
        match &message.said {
            Said::Asked(_) if !self.is_provider_open => Err(WorldFault::Store),
            Said::Asked(_) => match read_asked(self.alloc, &message.bytes) {
                Ok(request) => self.answer(request),
                Err(ReadingFault::Unread) => Ok(Report::NoMessage),
                Err(ReadingFault::Memory) => Err(WorldFault::Memory),
            },
            Said::Answered(asked, _) => match &mut self.connector {
                Side::Open(connector) => {
                    hear(self.alloc, connector, &asked.request, &message.bytes)
                }
                Side::Shut(_) => Err(WorldFault::Store),
            },
        }
    }

    /// A request arrives, and its reply is sent. Everything that needs memory is done before the rows change.
    fn answer(&mut self, request: Request) -> Result<Report, WorldFault>
        ensures done { IfOk result
            (Arrives R.Registry (unknown_entries J.Journal) self.old self.new (Asked request)) }
        ensures fails { IfErr result
            (FailsToArrive R.Registry (unknown_entries J.Journal) self.old self.new
            (Asked request)) }
        ensures apart { self.new.connector ≡ self.old.connector }
        ensures opens { opens_of self.new ≡ opens_of self.old }
    {
        let asked = SentRequest { request };
        self.sent.reserve(1)?;
        let base = self.service.base();
        let (pending, bytes) = prepared(self.alloc, &mut self.provider, base, &asked.request)?;
        let status = pending.answer().status();
        let answer = self.provider.commit(pending)?;
        let said = Said::Answered(asked, answer);
        self.sent.push(Sent { said, bytes })?;
        let number = self.sent.len();
        Ok(Report::Answering { number, status })
    }

    /// Only the first bytes of a message arrive. They aren't read as a message, and nothing happens.
    fn cut(&self, number: usize, length: usize) -> Result<Report, WorldFault>
        ensures done { IfOk result
            (Happens R.Registry J.Journal self.now self.now (Cuts number length)) }
        ensures fails { IfErr result
            (Fails R.Registry J.Journal self.now self.now (Cuts number length)) }
        ensures goes_on { IfOk result
            (GoesOn R.Registry J.Journal self.now self.now (Cuts number length)) }
        ensures fails_on { IfErr result
            (FailsOn R.Registry J.Journal self.now self.now (Cuts number length)) }
    {
        match sent_at(&self.sent, number) {
            Some(sent) if length < sent.bytes.len() => {
                let is_read = read_cut(self.alloc, &sent.said, &sent.bytes[..length])?;
                Ok(cut_short(is_read))
            }
            _ => Ok(Report::NoMessage),
        }
    }
}

impl<R: Reopen + Drop, J: Journal + Drop> World<R, J> {
    /// Opens the provider again on its rows.
    fn restart_provider(&mut self) -> Result<Report, WorldFault>
        ensures done { IfOk result
            (Happens R.Registry J.Journal self.old self.new Restarts_provider) }
        ensures fails { IfErr result
            (Fails R.Registry J.Journal self.old self.new Restarts_provider) }
        ensures goes_on { IfOk result
            (GoesOn R.Registry J.Journal self.old self.new Restarts_provider) }
        ensures fails_on { IfErr result
            (FailsOn R.Registry J.Journal self.old self.new Restarts_provider) }
        ensures apart { Apart self.old self.new Restarts_provider }
        ensures opened { OnOk result (R.is_honest self.new.provider
            → R.is_faithful self.new.provider) }
        ensures opens { opens_of self.new
            ≡ opens_after Restarts_provider (is_ok result) (opens_of self.old) }
    {
        self.is_provider_open = false;
        self.provider.reopen()?;
        self.is_provider_open = true;
        Ok(Report::Restarted)
    }
}

impl<R: Registry + Drop, J: ReopenJournal + Drop> World<R, J> {
    /// Opens the connector again on its journal.
    fn restart_connector(&mut self) -> Result<Report, WorldFault>
        ensures done { IfOk result
            (Happens R.Registry J.Journal self.old self.new Restarts_connector) }
        ensures fails { IfErr result
            (Fails R.Registry J.Journal self.old self.new Restarts_connector) }
        ensures goes_on { IfOk result
            (GoesOn R.Registry J.Journal self.old self.new Restarts_connector) }
        ensures fails_on { IfErr result
            (FailsOn R.Registry J.Journal self.old self.new Restarts_connector) }
        ensures apart { Apart self.old self.new Restarts_connector }
        ensures opened { OnOk result (J.is_honest (journal_in self.new.connector)
            → J.is_faithful (journal_in self.new.connector)) }
        ensures opens { opens_of self.new
            ≡ opens_after Restarts_connector (is_ok result) (opens_of self.old) }
    {
        match replace_with(&mut self.connector, self.alloc, reopened) {
            Ok(()) => Ok(Report::Restarted),
            Err(fault) => Err(fault),
        }
    }
}

impl<R: Reopen + Drop, J: ReopenJournal + Drop> World<R, J> {
    /// Makes one event. After a fault, the connector knows and has seen what it had, unless a restart
    /// failed: events that need that side return `WorldFault::Store` until a restart of it succeeds.
    /// Events that need the other side alone go on as before.
    pub fn step(&mut self, event: &Event) -> Result<Report, WorldFault>
        ensures done { IfOk result
            (Happens R.Registry J.Journal self.old self.new (event_of event.now)) }
        ensures fails { IfErr result
            (Fails R.Registry J.Journal self.old self.new (event_of event.now)) }
        ensures goes_on { IfOk result
            (GoesOn R.Registry J.Journal self.old self.new (event_of event.now)) }
        ensures fails_on { IfErr result
            (FailsOn R.Registry J.Journal self.old self.new (event_of event.now)) }
        ensures keeps { OnErr result (Keeps self.old self.new (event_of event.now)) }
        ensures apart { Apart self.old self.new (event_of event.now) }
        ensures shut { IsShutOff self.old (event_of event.now) → result ≡ Err Store }
        ensures opened { OnOk result
            (IsOpenedBy R.Registry J.Journal self.new (event_of event.now)) }
        ensures opens { opens_of self.new
            ≡ opens_after (event_of event.now) (is_ok result) (opens_of self.old) }
    {
        match event {
            Event::Change(row) => self.change(row),
            Event::Send(name) => self.send(name),
            Event::Doubt(name) => self.doubt(name),
            Event::Deliver(number) => self.deliver(*number),
            Event::Cut { number, length } => self.cut(*number, *length),
            Event::RestartProvider => self.restart_provider(),
            Event::RestartConnector => self.restart_connector(),
        }
    }
}
