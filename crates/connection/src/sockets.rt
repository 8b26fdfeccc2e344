//! The connections of a listening socket.
ghost use Rattle.std.specs.Prelude.{◌≡◌, ◌-◌, [], IfOk, IsNone, false, refl, true};
ghost use Rattle.connection.specs.Reporting.{with_more};

mod turns;

use crate::accepting::Backlog;
use crate::descriptors::Descriptors;
use crate::ending::Ending;
use crate::endings::Endings;
use crate::faults::FaultCount;
use crate::held::{Answering, Asked, Held};
use crate::limits::{MOST_HELD, longest_turn};
use crate::listening::Listen;
use crate::search_times::SearchTimes;
use crate::searches::Searches;
use crate::serving::{ConnectionFault, tell};
use crate::sockets::turns::Sort;
use crate::waiting::Waiting;
use crate::watch::{Sign, Watch, sign_of};
use provider_core::Meanwhile;
use std::alloc::Global;
use std::collections::VecDeque;
use std::io;
use std::io::{Eprint, ErrorKind, Read, Write};
use std::net::{Net, OpenListener, OpenStream};
use std::os::fd::AsRawFd;
use std::time::{Clock, Duration, Instant};
use timed_streams::SharedStream;

/// The connections of a listening socket. Each has this time in all, from when it is accepted. A connection
/// is given out when its request is whole, is refused by its form, or ends in its midst. One on which none comes is
/// closed, which is a fault. Meanwhile other connections are accepted and read, answers are sent as their peers take
/// them, and streams that were served are drained. Each of these has its turn, with a bound on its work. During long
/// searches all but the reading goes on. The system tells which sockets something came on, and others aren't looked at.
pub struct Sockets<'a, L: OpenListener + AsRawFd + Drop, C: Clock + Eprint>
where
    L::Stream: Read + Write + OpenStream + AsRawFd,
{
    alloc: Global,
    clock: &'a C,
    limit: Duration,
    /// Whether the thread that serves is the only client.
    is_own: bool,
    watch: Watch,
    backlog: Backlog<L>,
    /// How many connections were accepted so far.
    accepted: usize,
    descriptors: Descriptors,
    faults: FaultCount,
    waiting: Waiting<L::Stream>,
    /// One that can be served, and had to make room: it is the next.
    found: Option<Held<L::Stream>>,
    /// The numbers of those of which the system told something. If little has come on them so far, they are looked at
    /// outside of the rounds.
    told: VecDeque<usize>,
    /// Which sort of connections comes first in the next turn: not the one of which somebody was served last.
    first: Sort,
    /// Whether a connection failed that wasn't given out.
    has_failed: bool,
    searches: Searches<L::Stream>,
    search_times: SearchTimes,
    /// Whether the search that is under way had its time, so that it was stopped.
    is_stopped: bool,
    /// When others had their turn last during the search that is under way.
    attended: Option<Instant>,
    endings: Endings<'a, SharedStream<L::Stream>, C>,
}

/// Dropping them sends what isn't sent yet of answers, and drains their streams.
impl<'a, L: OpenListener + AsRawFd + Drop, C: Clock + Eprint> Drop for Sockets<'a, L, C>
where
    L::Stream: Read + Write + OpenStream + AsRawFd,
{
    fn drop(mut self) {
        self.end_all();
        let Sockets {
            alloc: _,
            clock: _,
            limit: _,
            is_own: _,
            watch: _,
            backlog: _,
            accepted: _,
            descriptors: _,
            faults: _,
            waiting: _,
            found: _,
            told: _,
            first: _,
            has_failed: _,
            searches: _,
            search_times: _,
            is_stopped: _,
            attended: _,
            endings: _,
        } = self;
    }
}

impl<'a, L: OpenListener + AsRawFd + Drop, C: Clock + Eprint> Sockets<'a, L, C>
where
    L::Stream: Read + Write + OpenStream + AsRawFd,
{
    /// The connections of this socket. Each has the time `limit` in all, and each search `longest_search`. It fails if
    /// the system can't watch it.
    pub fn new(
        alloc: Global,
        net: &impl Net,
        listener: L,
        clock: &'a C,
        limit: Duration,
        longest_search: Duration,
    ) -> io::Result<Self>
        ensures { IfOk result (λ sockets. (sockets.limit ≡ limit)
            × (sockets.search_times.longest ≡ longest_search)) }
    {
        listener.set_nonblocking(true)?;
        let watch = Watch::new(net, alloc)?;
        watch.add_listener(&listener)?;
        Ok(Sockets {
            alloc,
            clock,
            limit,
            is_own: false,
            watch,
            backlog: Backlog::new(listener),
            accepted: 0,
            descriptors: Descriptors::new(),
            faults: FaultCount::new(),
            waiting: Waiting::new(alloc),
            found: None,
            told: VecDeque::new(alloc),
            first: Sort::New,
            has_failed: false,
            searches: Searches::new(alloc),
            search_times: SearchTimes::new(longest_search),
            is_stopped: false,
            attended: None,
            endings: Endings::new(alloc, clock),
        })
    }

    /// Asks the system what came on which sockets, and returns when. If nothing did, it waits until something comes, or
    /// this time is over, if there is one.
    fn gather(&mut self, timeout: Option<Duration>) -> io::Result<Instant> {
        self.watch.wait(timeout)?;
        let now = Instant::now(self.clock)?;
        for event in self.watch.events() {
            match sign_of(event) {
                Sign::Newcomer => self.backlog.note(),
                Sign::Connection(number) => {
                    if !self.waiting.note(number, now) {
                        self.endings.note(number, now);
                    } else if self.told.len() < MOST_HELD {
                        let _is_told = self.told.push_back(number);
                    }
                }
            }
        }
        Ok(now)
    }

    /// The same, but if there is something to do, the system isn't asked in each turn. It is before a search, and if a
    /// connection waits for its request, or the thread that serves is the only client.
    fn begin_turn(&mut self, timeout: Option<Duration>) -> io::Result<Instant> {
        let has_others = self.searches.len() > 0 || self.waiting.len() > 0;
        let may_go_on = timeout == Some(Duration::ZERO) && !self.is_own && !has_others;
        if may_go_on && self.watch.is_spared() {
            return Instant::now(self.clock);
        }
        self.gather(timeout)
    }

    /// How long there is nothing to do if nothing comes. There is no such time if nobody has a deadline. It fails if
    /// nothing can ever come.
    fn next_pause(&self) -> io::Result<Option<Duration>>
        ensures { IfOk result (λ pause. IsNone pause → self.now.is_own ≡ false) }
    {
        let now = Instant::now(self.clock)?;
        let has_some = self.found.is_some() || !self.told.is_empty();
        if has_some || self.may_accept(now) || !self.waiting.is_round_over() {
            return Ok(Some(Duration::ZERO));
        }
        let room = self.waiting.room_time().unwrap_or(now);
        let times = [
            self.backlog.next_time(room),
            self.waiting.next_time(),
            self.endings.next_time(),
        ];
        match times.into_iter().flatten().min() {
            Some(next) => Ok(Some(next.duration_since(now))),
            None if self.is_own => Err(io::Error::from(ErrorKind::NotConnected)),
            None => Ok(None),
        }
    }

    /// Waits for a connection that can be served.
    fn wait(&mut self) -> io::Result<Held<L::Stream>> {
        let mut pause = Some(Duration::ZERO);
        for _ in 0..u64::MAX {
            let now = self.begin_turn(pause)?;
            let found = match self.found.take() {
                Some(held) => Some(held),
                None => self.turn(now),
            };
            self.report(now);
            pause = match found {
                Some(held) => {
                    if let Some(held) = self.unless_search(held, now) {
                        return Ok(held);
                    }
                    Some(Duration::ZERO)
                }
                None => self.next_pause()?,
            };
            if let Some(held) = self.next_search(pause, now) {
                return Ok(held);
            }
        }
        Err(io::Error::from(ErrorKind::TimedOut))
    }

    /// A connection that can be served, unless no request comes any more, or all rows are read for its request. Then it
    /// waits behind all others.
    fn unless_search(&mut self, held: Held<L::Stream>, now: Instant) -> Option<Held<L::Stream>> {
        if !held.is_gone() && !held.is_search(self.alloc) {
            return Some(held);
        }
        if self.searches.len() == 0 {
            self.search_times.put_off(now);
        }
        if held.is_gone() || !self.searches.add(held) {
            self.fail();
        }
        None
    }

    /// The next connection for whose request all rows are read, if there is one, and nobody else is to be served, or
    /// others were served for as long as the last of these took.
    fn next_search(&mut self, pause: Option<Duration>, now: Instant) -> Option<Held<L::Stream>> {
        if pause == Some(Duration::ZERO) && !self.search_times.had_their_share(now) {
            return None;
        }
        for _ in 0..self.searches.len() {
            match self.searches.take() {
                Some(held) if !held.is_over(now) => {
                    self.search_times.begin(now);
                    return Some(held);
                }
                _ => self.fail(),
            }
        }
        None
    }

    /// Counts the fault of a connection that isn't given out.
    fn fail(&mut self)
        ensures { self.new.found ≡ self.old.found }
    {
        self.has_failed = true;
        self.faults.add(1);
    }

    /// From now on the thread that serves is the only client, as in `loop`: nobody is told of faults, and if no
    /// connection is open, none is waited for, since none can come.
    pub fn serve_own_thread(&mut self)
        ensures { self.new ≡ record self.old { is_own = true } }
    {
        self.is_own = true;
    }

    /// Reports faults on standard error, once a second at most.
    fn report(&mut self, now: Instant) {
        let faults = self.faults.take_due(now);
        if !self.is_own {
            tell(self.clock, faults);
        }
    }

    /// Goes on with others during a search: their answers are sent, and new ones are accepted, and held unread.
    fn attend(&mut self) -> io::Result<()> {
        let now = self.gather(Some(Duration::ZERO))?;
        self.endings.go_on(&self.watch, now);
        if self.accept_some(0, now).is_some() {
            self.fail();
        }
        Ok(())
    }

    /// Counts faults of connections, and with them the answers that were lost since the last call.
    fn count(&mut self, faults: u32)
        ensures { self.new.faults.unreported
            ≡ with_more (with_more self.old.faults.unreported faults)
            (self.old.endings.lost - self.old.endings.told) }
    {
        self.faults.add(faults);
        self.faults.add(self.endings.take_lost());
    }

    /// Goes on until every answer is sent and every stream is drained, or its time is over.
    fn end_all(&mut self) {
        for _ in 0..u64::MAX {
            let Ok(now) = Instant::now(self.clock) else {
                return;
            };
            self.endings.go_on(&self.watch, now);
            let Some(time) = self.endings.next_time() else {
                return;
            };
            if self.gather(Some(time.duration_since(now))).is_err() {
                return;
            }
        }
    }

    /// Waits until every answer is sent and every stream is drained, or its time is over. It reports on
    /// standard error the faults that aren't reported yet. The result is a fault if an answer was ever lost, or a
    /// connection failed that wasn't given out.
    pub fn finish(&mut self, rt: &impl Eprint) -> Result<(), ConnectionFault> {
        self.end_all();
        self.count(0);
        tell(rt, self.faults.take_all());
        if self.has_failed || self.endings.has_lost() {
            Err(ConnectionFault)
        } else {
            Ok(())
        }
    }
}

impl<'a, L: OpenListener + AsRawFd + Drop, C: Clock + Eprint> Meanwhile for Sockets<'a, L, C>
where
    L::Stream: Read + Write + OpenStream + AsRawFd,
{
    ghost keeps = { λ _ _. Unit {0} };

    ghost stops = { λ sockets. sockets.is_stopped };

    ghost keeps_itself = { λ _. tt };

    ghost keeps_on = { λ _ _ _ _ _. tt };

    /// A search goes on, unless it has had its time. If the last turn of the others was a while ago, they have another.
    fn after_rows(&mut self) -> bool {
        self.is_stopped = false;
        let Ok(now) = Instant::now(self.clock) else {
            return true;
        };
        match self.attended {
            Some(attended) if now.duration_since(attended) < longest_turn() => {}
            Some(_) => {
                self.attended = Some(now);
                if self.attend().is_err() {
                    self.fail();
                }
            }
            None => self.attended = Some(now),
        }
        self.is_stopped = self.search_times.is_over(now);
        !self.is_stopped
    }
}

impl<'a, L: OpenListener + AsRawFd + Drop, C: Clock + Eprint> Listen for Sockets<'a, L, C>
where
    L::Stream: Read + Write + OpenStream + AsRawFd,
{
    type Reader = Asked<'a, L::Stream, C>;

    type Writer = Answering<'a, L::Stream, C>;

    ghost are_one = { λ reader writer. reader.stream.number ≡ writer.number };

    fn accept(&mut self) -> io::Result<(Self::Reader, Self::Writer)> {
        if self.search_times.end(Instant::now(self.clock)?) {
            self.attended = None;
        }
        let held = self.wait()?;
        held.open(self.alloc, self.clock)
    }

    fn end(&mut self, _: Self::Reader, writer: Self::Writer) {
        if let Ok(now) = Instant::now(self.clock) {
            self.endings.keep(Ending::new(writer, now), now);
        }
    }

    fn due_faults(&mut self, faults: u32) -> u32 {
        self.count(faults);
        match Instant::now(self.clock) {
            Ok(now) => self.faults.take_due(now),
            Err(_) => self.faults.take_all(),
        }
    }

    ghost keeps_waiting = { λ _ _ _. refl };
}
