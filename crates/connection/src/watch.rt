//! Which sockets something came on, or take more.
ghost use Rattle.std.specs.Prelude.{◌≤◌};

use crate::limits::{EVENTS_AT_ONCE, MOST_SPARED};
use mio::event::Event;
use mio::unix::SourceFd;
use mio::{Events, Interest, Poll, Token};
use std::alloc::{AllocError, Global};
use std::io;
use std::io::ErrorKind;
use std::net::Net;
use std::os::fd::{AsRawFd, RawFd};
use std::time::Duration;

/// The token of the listening socket. That of a connection is its number.
const LISTENER: Token = Token(usize::MAX);

/// Sockets that the system watches. It is asked about a socket when nothing comes on it, or it takes nothing more, and
/// then tells once. Nothing is promised of what it tells, nor when.
#[derive(Drop)]
pub(crate) struct Watch {
    poll: Poll,
    events: Events,
    /// In how many turns in a row the system wasn't asked.
    spared: u32,
}

/// What the system tells of.
#[derive(Clone, Copy)]
pub(crate) enum Sign {
    /// Somebody may want to connect.
    Newcomer,
    /// Something may have come on the connection with this number, or it may take more.
    Connection(usize),
}

impl Watch {
    pub(crate) fn new(net: &impl Net, alloc: Global) -> io::Result<Watch> {
        let poll = Poll::new(net)?;
        let events = Events::with_capacity(alloc, EVENTS_AT_ONCE).map_err(out_of_memory)?;
        Ok(Watch {
            poll,
            events,
            spared: MOST_SPARED,
        })
    }

    /// Watches a listening socket.
    pub(crate) fn add_listener(&self, listener: &impl AsRawFd) -> io::Result<()> {
        let descriptor = listener.as_raw_fd();
        self.poll
            .registry()
            .register(&mut SourceFd(&descriptor), LISTENER, Interest::READABLE)
    }

    /// Asks the system to tell when something comes on the stream of the connection with this number.
    pub(crate) fn ask_for_bytes(
        &self,
        stream: RawFd,
        number: usize,
        is_known: bool,
    ) -> io::Result<()> {
        self.ask(stream, number, is_known, Interest::READABLE)
    }

    /// Asks the system to tell when the stream of the connection with this number takes more.
    pub(crate) fn ask_for_room(
        &self,
        stream: RawFd,
        number: usize,
        is_known: bool,
    ) -> io::Result<()> {
        self.ask(stream, number, is_known, Interest::WRITABLE)
    }

    /// Asks it about a stream, which it knows if it was asked about it before.
    fn ask(
        &self,
        stream: RawFd,
        number: usize,
        is_known: bool,
        interest: Interest,
    ) -> io::Result<()> {
        let registry = self.poll.registry();
        let mut source = SourceFd(&stream);
        if is_known {
            registry.reregister(&mut source, Token(number), interest)
        } else {
            registry.register(&mut source, Token(number), interest)
        }
    }

    /// How many more descriptors the system gives for now, of so many at most.
    pub(crate) fn free_descriptors(&self, alloc: Global, most: usize) -> usize
        ensures { result ≤ most }
    {
        let mut taken = Vec::new(alloc);
        for count in 0..most {
            let Ok(registry) = self.poll.registry().try_clone() else {
                return count;
            };
            if taken.push(registry).is_err() {
                return count;
            }
        }
        most
    }

    /// Whether the system needn't be asked in this turn, since it was in one of the last ones.
    pub(crate) fn is_spared(&mut self) -> bool {
        let is_spared = self.spared < MOST_SPARED;
        if is_spared {
            self.spared += 1;
        }
        is_spared
    }

    /// Waits until there is something to tell, or this time is over. Without a time it waits as long as it takes.
    pub(crate) fn wait(&mut self, timeout: Option<Duration>) -> io::Result<()> {
        self.spared = 0;
        self.poll.poll(&mut self.events, timeout)
    }

    /// What the last wait told.
    pub(crate) fn events(&self) -> &Events {
        &self.events
    }
}

fn out_of_memory(_: AllocError) -> io::Error {
    io::Error::from(ErrorKind::OutOfMemory)
}

/// What an event says.
pub(crate) fn sign_of(event: &Event) -> Sign {
    match event.token() {
        LISTENER => Sign::Newcomer,
        Token(number) => Sign::Connection(number),
    }
}
