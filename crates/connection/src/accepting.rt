//! Connections that the system has accepted.
ghost use Rattle.std.specs.Prelude.{◌↔◌, IsTrue};
ghost use Rattle.connection.specs.Accepting.{IsShortage};

use crate::faults::may_report;
use crate::limits::accept_pause;
use std::io;
use std::io::ErrorKind;
use std::net::{IpAddr, OpenListener};
use std::time::Instant;

/// Linux's numbers: no memory; too many files are open in the system, or in this process; no memory for a socket.
const ENOMEM: i32 = 12;

const ENFILE: i32 = 23;

pub(crate) const EMFILE: i32 = 24;

const ENOBUFS: i32 = 105;

/// Whether a connection makes room if the system gives no other, for the error with this number: whether memory or
/// descriptors are short. After any other error that would help nobody.
pub(crate) fn makes_room(code: Option<i32>) -> bool
    ensures { IsTrue result ↔ IsShortage code }
{
    matches!(code, Some(ENOMEM | ENFILE | EMFILE | ENOBUFS))
}

/// The connections of a listening socket that the system has accepted and that aren't taken yet.
#[derive(Drop)]
pub(crate) struct Backlog<L: OpenListener + Drop> {
    listener: L,
    /// Whether there may be one.
    has_some: bool,
    /// When another is asked for, after the system gave none for want of something.
    asks_again: Option<Instant>,
    /// When it was last reported that the system gave none.
    reported: Option<Instant>,
}

impl<L: OpenListener + Drop> Backlog<L> {
    /// Those of a socket that was set not to block.
    pub(crate) fn new(listener: L) -> Self {
        Backlog {
            listener,
            has_some: true,
            asks_again: None,
            reported: None,
        }
    }

    /// Notes that there may be one.
    pub(crate) fn note(&mut self) {
        self.has_some = true;
    }

    /// Whether there may be one, and it is time to ask for it.
    pub(crate) fn is_due(&self, now: Instant) -> bool {
        self.has_some && self.asks_again.is_none_or(|time| time <= now)
    }

    /// When it is time to ask for one, if there may be one: not before this moment, when there is room for it.
    pub(crate) fn next_time(&self, room: Instant) -> Option<Instant> {
        if !self.has_some {
            return None;
        }
        Some(self.asks_again.unwrap_or(room).max(room))
    }

    /// The stream of the next one, and the address of its client, if there is one.
    pub(crate) fn next(&mut self) -> io::Result<Option<(L::Stream, IpAddr)>> {
        match self.listener.accept() {
            Ok((stream, address)) => Ok(Some((stream, address.ip()))),
            Err(error) => match error.kind() {
                ErrorKind::WouldBlock => {
                    self.has_some = false;
                    Ok(None)
                }
                ErrorKind::Interrupted => Ok(None),
                _ => Err(error),
            },
        }
    }

    /// Puts off the next one for a moment, since the system gave none for want of something. It returns whether that
    /// is to be reported: once a second at most.
    pub(crate) fn put_off(&mut self, now: Instant) -> bool {
        self.asks_again = now.checked_add(accept_pause());
        let is_reported = may_report(self.reported, now);
        if is_reported {
            self.reported = Some(now);
        }
        is_reported
    }
}
