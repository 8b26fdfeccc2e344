//! Many records at once, on a stream each.
ghost use Rattle.std.specs.Prelude.{◌≡◌, ◌<◌, ℕ, IsTrue};
ghost use Rattle.std.specs.VecDeque.{deque_capacity, deque_len};
ghost use Rattle.connector_core.specs.Maps.{book_of};
ghost use Rattle.provisioning.specs.Openings.{Opens};
ghost use Rattle.provisioning.specs.Tracks.{StepsWithin};
ghost use Rattle.provisioning.specs.Windows.{BeginsNext, Finishes, Goes, KeepsTrack, LooksThrough, PushesAbreast, PushesThrough, TakesFirst, beside, done_of, scene_of, window_of};

use crate::dialing::Dial;
use crate::faults::RunFault;
use crate::pushing::{Tally, tell};
use crate::records::{Pushed, Standing};
use crate::services::ServiceProvider;
use crate::streaks::{go_on_after, streak_with};
use crate::telling::Tell;
use crate::tracks::{Account, Track, advance, advance_if_due, close, go_on, waits};
use connector_core::Connector;
use journal_core::Journal;
use scim_key::RecordName;
use std::alloc::Global;
use std::collections::VecDeque;
use std::io::{Read, Write};

/// How many records may be begun beside the first that isn't reported, if there are several streams.
const MOST_BESIDE: usize = 1024;

/// For how many turns of the others the first record may wait. They take fewer: each of `MOST_BESIDE` has at most
/// three exchanges, and waits once.
const TURNS_WHILE_WAITING: u32 = 16_384;

/// The records that wait, and those that were begun and aren't reported, both in their order.
#[derive(Drop)]
pub(crate) struct Window<R: Drop, W: Drop> {
    pub waiting: VecDeque<RecordName>,
    pub tracks: VecDeque<Track<R, W>>,
}

/// Makes exchanges for these records, for up to `streams` of them at once, and reports each in their order.
/// With one stream, a record begins when the one before it is reported. It gives up after so many records in a
/// row that met the same obstacle. After a fault it learns from the answers that are under way.
pub(crate) fn push_abreast<J: Journal, D: Dial, T: Tell>(
    alloc: Global,
    service: &ServiceProvider<'_>,
    connector: &mut Connector<J>,
    dial: &mut D,
    teller: &mut T,
    names: VecDeque<RecordName>,
    streams: usize,
    limit: u32,
) -> Result<Tally, RunFault>
    ensures { Opens (D.opened dial.old) (D.opened dial.new) (λ opened. PushesAbreast
        D.Reader.remaining D.Writer.contents J.Journal service.now (window_of streams) limit
        names.items opened connector.old connector.new (T.told teller.old) (T.told teller.new) result) }
{
    let mut window = Window {
        waiting: names,
        tracks: VecDeque::with_capacity(alloc, beside(streams))?,
    };
    let pushed = push_through(
        alloc,
        service,
        connector,
        dial,
        teller,
        &mut window,
        streams,
        limit,
    );
    look_through(alloc, service, connector, dial, &mut window.tracks);
    pushed
}

/// Makes exchanges for the records that were begun or wait, and reports each. After a fault, other records
/// that were begun are left.
fn push_through<J: Journal, D: Dial, T: Tell>(
    alloc: Global,
    service: &ServiceProvider<'_>,
    connector: &mut Connector<J>,
    dial: &mut D,
    teller: &mut T,
    window: &mut Window<D::Reader, D::Writer>,
    streams: usize,
    limit: u32,
) -> Result<Tally, RunFault>
    ensures { Opens (D.opened dial.old) (D.opened dial.new) (λ opened. PushesThrough
        D.Reader.remaining D.Writer.contents J.Journal service.now (window_of streams) limit opened
        (scene_of window.old connector.old) (scene_of window.new connector.new)
        (T.told teller.old) (T.told teller.new) result) }
{
    let mut tally = Tally {
        exchanges: 0,
        is_settled: true,
    };
    let mut streak = None;
    while let Some(first) = first_track(alloc, service, connector, dial, window)? {
        let (name, pushed) = finish(alloc, service, connector, dial, window, streams, first)?;
        tally = tally.with(&pushed);
        tell(teller, &name, &pushed)?;
        streak = streak_with(streak, &pushed);
        go_on_after(limit, streak)?;
    }
    Ok(tally)
}

/// The first record that isn't reported, if there is one.
fn first_track<J: Journal, D: Dial>(
    alloc: Global,
    service: &ServiceProvider<'_>,
    connector: &Connector<J>,
    dial: &mut D,
    window: &mut Window<D::Reader, D::Writer>,
) -> Result<Option<Track<D::Reader, D::Writer>>, RunFault>
    ensures { Opens (D.opened dial.old) (D.opened dial.new) (λ opened. (most : ℕ) → 0 < most → TakesFirst
        D.Reader.remaining D.Writer.contents J.Journal service.now most opened
        (scene_of window.old connector.now) (scene_of window.new connector.now) result) }
{
    match window.tracks.pop_front() {
        Some(track) => Ok(Some(track)),
        None => begin(alloc, service, connector, dial, &mut window.waiting),
    }
}

/// Begins the first record that waits, if there is one.
fn begin<J: Journal, D: Dial>(
    alloc: Global,
    service: &ServiceProvider<'_>,
    connector: &Connector<J>,
    dial: &mut D,
    waiting: &mut VecDeque<RecordName>,
) -> Result<Option<Track<D::Reader, D::Writer>>, RunFault>
    ensures { Opens (D.opened dial.old) (D.opened dial.new) (λ opened. BeginsNext
        D.Writer.contents service.now opened waiting.old.items waiting.new.items
        (book_of connector.now.book) result) }
{
    let Some(name) = waiting.pop_front() else {
        return Ok(None);
    };
    match go_on(alloc, service, connector, dial, Account::new(name)) {
        Ok(track) => Ok(Some(track)),
        Err(fault) => Err(fault),
    }
}

/// Advances the first record until it is done, and the others beside it. If all that are under way wait, it rests
/// until one is due.
fn finish<J: Journal, D: Dial>(
    alloc: Global,
    service: &ServiceProvider<'_>,
    connector: &mut Connector<J>,
    dial: &mut D,
    window: &mut Window<D::Reader, D::Writer>,
    streams: usize,
    first: Track<D::Reader, D::Writer>,
) -> Result<(RecordName, Pushed), RunFault>
    ensures { Opens (D.opened dial.old) (D.opened dial.new) (λ opened. Finishes
        D.Reader.remaining D.Writer.contents J.Journal service.now (window_of streams) opened first
        (scene_of window.old connector.old) (scene_of window.new connector.new) result) }
{
    let mut first = first;
    let mut turns = TURNS_WHILE_WAITING;
    loop {
        let filled = fill(alloc, service, connector, dial, window, streams);
        first = keep(alloc, service, connector, dial, first, filled)?;
        rest(dial, &first, &window.tracks);
        let (track, left) = advance_first(alloc, service, connector, dial, first, turns)?;
        first = match track {
            Track::Done(account, standing) => return Ok(done(account, standing)),
            track => track,
        };
        turns = left;
        let advanced = advance_others(alloc, service, connector, dial, window);
        first = keep(alloc, service, connector, dial, first, advanced)?;
    }
}

/// Rests until a record is due, if the first one waits and no exchange is under way beside it.
fn rest<D: Dial>(
    dial: &D,
    first: &Track<D::Reader, D::Writer>,
    others: &VecDeque<Track<D::Reader, D::Writer>>,
) {
    if waits(dial, first) && !is_under_way(others) {
        dial.rest();
    }
}

/// Advances the first record. If it waits, it stays as it is, but only for so many turns. It returns how many turns
/// are left.
fn advance_first<J: Journal, D: Dial>(
    alloc: Global,
    service: &ServiceProvider<'_>,
    connector: &mut Connector<J>,
    dial: &mut D,
    first: Track<D::Reader, D::Writer>,
    turns: u32,
) -> Result<(Track<D::Reader, D::Writer>, u32), RunFault>
    ensures { Opens (D.opened dial.old) (D.opened dial.new) (λ opened. StepsWithin
        D.Reader.remaining D.Writer.contents J.Journal service.now turns first opened
        connector.old connector.new result) }
{
    if turns > 0 && waits(dial, &first) {
        return Ok((first, turns - 1));
    }
    let track = advance(alloc, service, connector, dial, first)?;
    Ok((track, turns))
}

/// The result for a record that is done.
fn done(account: Account, standing: Standing) -> (RecordName, Pushed)
    ensures { result ≡ done_of account standing }
{
    let Account {
        name,
        exchanges,
        ..
    } = account;
    (
        name,
        Pushed {
            exchanges,
            standing,
        },
    )
}

/// Gives the first record back. After a fault beside it, its answer is learnt from instead.
fn keep<J: Journal, D: Dial>(
    alloc: Global,
    service: &ServiceProvider<'_>,
    connector: &mut Connector<J>,
    dial: &D,
    first: Track<D::Reader, D::Writer>,
    beside: Result<(), RunFault>,
) -> Result<Track<D::Reader, D::Writer>, RunFault>
    ensures { KeepsTrack D.Reader.remaining J.Journal service.now first beside
        connector.old connector.new result }
{
    match beside {
        Ok(()) => Ok(first),
        Err(fault) => {
            let _ = close(alloc, service, connector, dial, first);
            Err(fault)
        }
    }
}

/// Advances each record that was begun, unless it waits, and begins none.
fn advance_others<J: Journal, D: Dial>(
    alloc: Global,
    service: &ServiceProvider<'_>,
    connector: &mut Connector<J>,
    dial: &mut D,
    window: &mut Window<D::Reader, D::Writer>,
) -> Result<(), RunFault>
    ensures { Opens (D.opened dial.old) (D.opened dial.new) (λ opened. Goes
        D.Reader.remaining D.Writer.contents J.Journal service.now 0 opened
        (scene_of window.old connector.old) (scene_of window.new connector.new) result) }
{
    for _turned in 0..window.tracks.len() {
        let Some(track) = window.tracks.pop_front() else {
            return Ok(());
        };
        let track = advance_if_due(alloc, service, connector, dial, track)?;
        window.tracks.push_back_reserved(track);
    }
    Ok(())
}

/// Begins records, until with one more `streams` are under way, or the window is full.
fn fill<J: Journal, D: Dial>(
    alloc: Global,
    service: &ServiceProvider<'_>,
    connector: &Connector<J>,
    dial: &mut D,
    window: &mut Window<D::Reader, D::Writer>,
    streams: usize,
) -> Result<(), RunFault>
    ensures { Opens (D.opened dial.old) (D.opened dial.new) (λ opened. Goes
        D.Reader.remaining D.Writer.contents J.Journal service.now (beside streams) opened
        (scene_of window.old connector.now) (scene_of window.new connector.now) result) }
{
    while has_room(&window.tracks, streams) {
        let Some(track) = begin(alloc, service, connector, dial, &mut window.waiting)? else {
            return Ok(());
        };
        window.tracks.push_back_reserved(track);
    }
    Ok(())
}

/// Whether one more record may be begun: with it and one more, at most `streams` are under way.
fn has_room<R: Read + Drop, W: Write + Drop>(tracks: &VecDeque<Track<R, W>>, streams: usize) -> bool
    ensures reserved { IsTrue result → deque_len tracks.now < deque_capacity tracks.now }
    ensures window { IsTrue result → deque_len tracks.now < beside streams }
{
    tracks.len() < tracks.capacity()
        && tracks.len() < beside(streams)
        && with_a_stream(tracks).saturating_add(1) < streams
}

/// How many records may be begun beside the first that isn't reported.
fn beside(streams: usize) -> usize
    ensures { result ≡ beside streams }
{
    if streams > 1 { MOST_BESIDE } else { 0 }
}

/// How many records have a stream: an exchange is under way, or the next one waits.
fn with_a_stream<R: Read + Drop, W: Write + Drop>(tracks: &VecDeque<Track<R, W>>) -> usize {
    let mut count: usize = 0;
    for track in tracks {
        if !matches!(track, Track::Done(..)) {
            count = count.saturating_add(1);
        }
    }
    count
}

/// Whether an exchange is under way.
fn is_under_way<R: Read + Drop, W: Write + Drop>(tracks: &VecDeque<Track<R, W>>) -> bool {
    for track in tracks {
        if matches!(track, Track::UnderWay(..)) {
            return true;
        }
    }
    false
}

/// Learns from each answer that is under way. A fault is passed over.
fn look_through<J: Journal, D: Dial>(
    alloc: Global,
    service: &ServiceProvider<'_>,
    connector: &mut Connector<J>,
    dial: &D,
    tracks: &mut VecDeque<Track<D::Reader, D::Writer>>,
)
    ensures { LooksThrough D.Reader.remaining J.Journal service.now tracks.old.items
        connector.old connector.new }
{
    while let Some(track) = tracks.pop_front() {
        let _ = close(alloc, service, connector, dial, track);
    }
}
