//! A record while several are under way.
ghost use Rattle.std.specs.Prelude.{◌≡◌, ◌∷◌, ◌<◌, ◌≤◌, [], false, IsFalse, IsTrue};
ghost use Rattle.connector_core.specs.Maps.{book_of};
ghost use Rattle.provisioning.specs.Lists.{Adds};
ghost use Rattle.provisioning.specs.Openings.{Opening, Opens};
ghost use Rattle.provisioning.specs.Records.{most_exchanges};
ghost use Rattle.connector_core.specs.declared.keeps.Keeps.TheVariants.{Versions};
ghost use Rattle.provisioning.specs.Services.{is_held_back, kept_for};
ghost use Rattle.provisioning.specs.Tracks.{Advances, Closes, ComesOfOpening, GoesOn, IsAtEnd, IsHeard, IsLearnt, IsSetOut, StandsAt, Steps, counted, faulted, fresh, may_wait, put_off, says_busy};

use crate::dialing::Dial;
use crate::exchanging::{explain, take};
use crate::faults::{RecordFault, RunFault, open_fault};
use crate::recording::{Heard, Recording};
use crate::records::{Standing, standing_after};
use crate::services::{ServiceProvider, is_held_back, send_to};
use connector_core::{Ask, AskFault, Connector, Keeps, MOST_EXCHANGES};
use http_text::{Input, Output};
use journal_core::Journal;
use scim_client::{ExchangeFault, read_reply};
use scim_key::RecordName;
use scim_message::{Answer, Request};
use std::alloc::Global;
use std::io::{Read, Write};

/// A record, how many exchanges were begun for it, and their last fault.
#[derive(Drop)]
pub struct Account {
    pub name: RecordName,
    pub exchanges: u32,
    pub last: Option<RecordFault>,
    /// It waited once, as the provider asked.
    pub has_waited: bool,
}

/// A request on its stream, and whether it was sent whole.
#[derive(Drop)]
pub struct Flight<R: Drop, W: Drop> {
    pub request: Request,
    pub reader: R,
    pub writer: W,
    pub sent: Result<(), ExchangeFault>,
}

/// A record that was begun.
#[derive(Drop)]
pub enum Track<R: Drop, W: Drop> {
    /// An exchange for it is under way.
    UnderWay(Account, Flight<R, W>),
    /// Its next exchange waits, as the provider asked.
    Delayed(Account),
    /// It has this state.
    Done(Account, Standing),
}

impl Account {
    /// A record for which nothing was sent.
    pub(crate) fn new(name: RecordName) -> Account
        ensures { result ≡ fresh name }
    {
        Account {
            name,
            exchanges: 0,
            last: None,
            has_waited: false,
        }
    }
}

/// Sends the connector's next request for a record on a new stream, if there is one and the record has
/// exchanges left.
pub(crate) fn go_on<J: Journal, D: Dial>(
    alloc: Global,
    service: &ServiceProvider<'_>,
    connector: &Connector<J>,
    dial: &mut D,
    account: Account,
) -> Result<Track<D::Reader, D::Writer>, RunFault>
    ensures { Opens (D.opened dial.old) (D.opened dial.new) (λ opened. GoesOn
        D.Writer.contents service.now account opened (book_of connector.now.book) result) }
{
    if is_at_end(service, &account) {
        let standing = spent(service, connector, &account);
        Ok(Track::Done(account, standing))
    } else {
        ask(alloc, service, connector, dial, account)
    }
}

/// Whether all exchanges of a record were made, or it is held back.
fn is_at_end(service: &ServiceProvider<'_>, account: &Account) -> bool
    ensures end { IsTrue result → IsAtEnd service.now account.now }
    ensures left { IsFalse result → account.now.exchanges < most_exchanges }
    ensures free { IsFalse result
        → is_held_back service.now.is_versioned account.now.last ≡ false }
{
    account.exchanges >= MOST_EXCHANGES || is_held_back(service, account.last)
}

/// The state of a record for which nothing more is sent.
fn spent<J: Journal>(
    service: &ServiceProvider<'_>,
    connector: &Connector<J>,
    account: &Account,
) -> Standing
    requires { IsAtEnd service.now account.now }
    ensures { StandsAt service.now (book_of connector.now.book) account.now result }
{
    standing_after(connector, &account.name, account.last)
}

/// Sends the connector's next request for a record on a new stream, if there is one.
fn ask<J: Journal, D: Dial>(
    alloc: Global,
    service: &ServiceProvider<'_>,
    connector: &Connector<J>,
    dial: &mut D,
    account: Account,
) -> Result<Track<D::Reader, D::Writer>, RunFault>
    requires left { account.exchanges < most_exchanges }
    requires free { is_held_back service.now.is_versioned account.last ≡ false }
    ensures { Opens (D.opened dial.old) (D.opened dial.new) (λ opened. GoesOn
        D.Writer.contents service.now account opened (book_of connector.now.book) result) }
{
    match connector.ask(&account.name) {
        Ok(Ask::Send(request)) => set_out(alloc, service, dial, account, request),
        Ok(Ask::Nothing) => {
            let standing = Standing::Confirmed(connector.confirmed(&account.name));
            Ok(Track::Done(account, standing))
        }
        Ok(Ask::Waits(member)) => Ok(Track::Done(account, Standing::Waits(member))),
        Err(AskFault::NoSuchRecord) => Ok(Track::Done(
            account,
            Standing::Unconfirmed(Some(RecordFault::NoSuchRecord)),
        )),
        Err(AskFault::Memory) => Err(RunFault::Memory),
    }
}

/// Opens a stream and sends a request for a record on it.
fn set_out<D: Dial>(
    alloc: Global,
    service: &ServiceProvider<'_>,
    dial: &mut D,
    account: Account,
    request: Request,
) -> Result<Track<D::Reader, D::Writer>, RunFault>
    requires { account.exchanges < most_exchanges }
    ensures { (opening : Opening D.Reader D.Writer)
        × Adds (D.opened dial.old) (D.opened dial.new) (opening ∷ [])
        × ComesOfOpening D.Writer.contents service.now account request opening result }
{
    let (reader, writer) = match dial.dial() {
        Ok(stream) => stream,
        Err(error) => return Err(open_fault(error)),
    };
    let flight = send_on(alloc, service, request, reader, writer);
    Ok(Track::UnderWay(counted(account), flight))
}

/// A record with one exchange more.
fn counted(account: Account) -> Account
    requires { account.exchanges < most_exchanges }
    ensures { result ≡ counted account }
{
    let Account {
        name,
        exchanges,
        last,
        has_waited,
    } = account;
    Account {
        name,
        exchanges: exchanges + 1,
        last,
        has_waited,
    }
}

/// Sends a request on a stream.
pub fn send_on<R: Read + Drop, W: Write + Drop>(
    alloc: Global,
    service: &ServiceProvider<'_>,
    request: Request,
    reader: R,
    writer: W,
) -> Flight<R, W>
    ensures { IsSetOut W.contents service.now request (reader, writer) result }
{
    let mut output = Output::new(writer);
    let (request, sent) = send_to(alloc, service, request, &mut output);
    Flight {
        request,
        reader,
        writer: output.into_inner(),
        sent,
    }
}

/// Reads the answer to a request on its stream, ends the stream, and learns from the answer. It returns the
/// fault of the record, if there is one, and what came on the stream.
fn learn_from<J: Journal, D: Dial>(
    alloc: Global,
    service: &ServiceProvider<'_>,
    connector: &mut Connector<J>,
    dial: &D,
    name: &RecordName,
    flight: Flight<D::Reader, D::Writer>,
) -> (Result<Option<RecordFault>, RunFault>, Heard)
    ensures { IsLearnt D.Reader.remaining J.Journal service.now flight
        connector.old connector.new result.0 }
{
    let Flight {
        request,
        reader,
        writer,
        sent,
    } = flight;
    let (request, came, recording) = hear_kept(alloc, service.keeps, request, reader, sent);
    let Recording { reader, heard } = recording;
    dial.end(reader, writer);
    let (came, taken) = take(alloc, service, connector, &request, came);
    let keeps = service.keeps;
    explain(
        alloc, keeps, connector, dial, name, &request, &heard, &came, taken,
    );
    (taken, heard)
}

/// Reads the answer to what a service keeps of a request, if it was sent whole. It gives the request back as it was, and
/// the reader, with what came on it.
fn hear_kept<R: Read + Drop>(
    alloc: Global,
    keeps: Keeps,
    request: Request,
    reader: R,
    sent: Result<(), ExchangeFault>,
) -> (Request, Result<Answer, ExchangeFault>, Recording<R>)
    ensures same { result.0 ≡ request }
    ensures heard { IsHeard R.remaining (kept_for keeps request) reader sent result.1 }
{
    match keeps {
        Keeps::Revisions => {
            let (came, recording) = hear(alloc, &request, reader, sent);
            (request, came, recording)
        }
        Keeps::Versions => hear_without(alloc, request, reader, sent),
    }
}

/// Reads the answer to a request without its revision. It gives the request back with it.
#[tactic(auto, using(crate::proofs::ServiceLemmas::request_again))]
fn hear_without<R: Read + Drop>(
    alloc: Global,
    request: Request,
    reader: R,
    sent: Result<(), ExchangeFault>,
) -> (Request, Result<Answer, ExchangeFault>, Recording<R>)
    ensures same { result.0 ≡ request }
    ensures heard { IsHeard R.remaining (kept_for Versions request) reader sent result.1 }
{
    let revision = request.revision();
    let written = request.with_revision(None);
    let (came, recording) = hear(alloc, &written, reader, sent);
    (written.with_revision(revision), came, recording)
}

/// Reads the answer to a request, if it was sent whole. It returns the reader too, with what came on it.
pub fn hear<R: Read + Drop>(
    alloc: Global,
    request: &Request,
    reader: R,
    sent: Result<(), ExchangeFault>,
) -> (Result<Answer, ExchangeFault>, Recording<R>)
    ensures { IsHeard R.remaining request.now reader sent result.0 }
{
    match sent {
        Ok(()) => {
            let mut input = Input::new(Recording::new(reader));
            let came = read_reply(alloc, request, &mut input);
            (came, input.into_inner())
        }
        Err(fault) => (Err(fault), Recording::new(reader)),
    }
}

/// Reads the answer of a record that is under way, learns from it, and sends the next request, if there is
/// one and it needn't wait. For a record that waited, it sends the next request.
pub(crate) fn advance<J: Journal, D: Dial>(
    alloc: Global,
    service: &ServiceProvider<'_>,
    connector: &mut Connector<J>,
    dial: &mut D,
    track: Track<D::Reader, D::Writer>,
) -> Result<Track<D::Reader, D::Writer>, RunFault>
    ensures { Opens (D.opened dial.old) (D.opened dial.new) (λ opened. Advances
        D.Reader.remaining D.Writer.contents J.Journal service.now track opened
        connector.old connector.new result) }
{
    match track {
        Track::UnderWay(account, flight) => {
            let name = &account.name;
            let (learnt, heard) = learn_from(alloc, service, connector, dial, name, flight);
            let fault = learnt?;
            if may_wait(&account, fault) && dial.puts_off(&account.name, &heard) {
                return Ok(Track::Delayed(put_off(faulted(account, fault))));
            }
            go_on(alloc, service, connector, dial, faulted(account, fault))
        }
        Track::Delayed(account) => go_on(alloc, service, connector, dial, account),
        Track::Done(account, standing) => Ok(Track::Done(account, standing)),
    }
}

/// The same, but a record that waits and isn't due stays as it is.
pub(crate) fn advance_if_due<J: Journal, D: Dial>(
    alloc: Global,
    service: &ServiceProvider<'_>,
    connector: &mut Connector<J>,
    dial: &mut D,
    track: Track<D::Reader, D::Writer>,
) -> Result<Track<D::Reader, D::Writer>, RunFault>
    ensures { Opens (D.opened dial.old) (D.opened dial.new) (λ opened. Steps
        D.Reader.remaining D.Writer.contents J.Journal service.now track opened
        connector.old connector.new result) }
{
    if waits(dial, &track) {
        Ok(track)
    } else {
        advance(alloc, service, connector, dial, track)
    }
}

/// Whether a record waits and isn't due.
pub(crate) fn waits<D: Dial>(dial: &D, track: &Track<D::Reader, D::Writer>) -> bool {
    match track {
        Track::Delayed(account) => !dial.is_due(&account.name),
        Track::UnderWay(..) | Track::Done(..) => false,
    }
}

/// Whether the next exchange of a record may wait after an exchange with this fault, or none.
fn may_wait(account: &Account, fault: Option<RecordFault>) -> bool
    ensures { result ≡ may_wait fault account.now }
{
    says_busy(fault) && !account.has_waited && account.exchanges < MOST_EXCHANGES
}

/// Whether the provider has too many requests (429), or isn't available (503).
fn says_busy(fault: Option<RecordFault>) -> bool
    ensures { result ≡ says_busy fault }
{
    matches!(fault, Some(RecordFault::Refused(429 | 503)))
}

/// A record whose next exchange waits.
fn put_off(account: Account) -> Account
    ensures { result ≡ put_off account }
{
    let Account {
        name,
        exchanges,
        last,
        ..
    } = account;
    Account {
        name,
        exchanges,
        last,
        has_waited: true,
    }
}

/// A record after an exchange with this fault, or none.
fn faulted(account: Account, fault: Option<RecordFault>) -> Account
    ensures { result ≡ faulted fault account }
{
    let Account {
        name,
        exchanges,
        last,
        has_waited,
    } = account;
    Account {
        name,
        exchanges,
        last: fault.or(last),
        has_waited,
    }
}

/// Learns from the answer of a record that is under way, and sends nothing more.
pub(crate) fn close<J: Journal, D: Dial>(
    alloc: Global,
    service: &ServiceProvider<'_>,
    connector: &mut Connector<J>,
    dial: &D,
    track: Track<D::Reader, D::Writer>,
) -> Result<(), RunFault>
    ensures { Closes D.Reader.remaining J.Journal service.now track
        connector.old connector.new result }
{
    match track {
        Track::UnderWay(begun, flight) => {
            let (learnt, _) = learn_from(alloc, service, connector, dial, &begun.name, flight);
            match learnt {
                Ok(_) => Ok(()),
                Err(fault) => Err(fault),
            }
        }
        Track::Delayed(_) | Track::Done(..) => Ok(()),
    }
}
