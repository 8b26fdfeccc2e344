//! Streams to a provider in the same program: one thread asks and answers.
use connection::{Listen, serve_next};
use provider_core::Provider;
use provisioning::{Dial, Ended, Heard, Remote};
use scim_key::{Base, RecordName};
use std::alloc::Global;
use std::cell::RefCell;
use std::io;
use std::io::{ErrorKind, Read};
use std::net::Net;
use std::time::Clock;
use storage::StoredRows;
use timed_streams::TimedHandle;

/// A provider, and the connections to it.
#[derive(Drop)]
pub struct OwnProvider<'b, L: Listen + Drop, R: StoredRows> {
    pub(crate) alloc: Global,
    pub(crate) base: &'b Base,
    pub(crate) listener: L,
    pub(crate) provider: &'b mut Provider<R>,
}

/// Streams to a provider in the same program, which answers when a stream is read from.
#[derive(Drop)]
pub(crate) struct OwnStreams<'r, 'p, 'b, N: Net + Clock, L: Listen + Drop, R: StoredRows> {
    pub remote: Remote<'r, N>,
    pub own: &'p RefCell<OwnProvider<'b, L, R>>,
}

/// The answer of a provider in the same program.
#[derive(Drop)]
pub struct OwnReader<'r, 'p, 'b, N: Net + Clock, L: Listen + Drop, R: StoredRows> {
    stream: TimedHandle<'r, N::Stream, N>,
    own: &'p RefCell<OwnProvider<'b, L, R>>,
    is_served: bool,
}

/// Whether the provider can be asked: its store hasn't failed, and it isn't serving.
fn can_serve<L: Listen + Drop, R: StoredRows>(own: &RefCell<OwnProvider<'_, L, R>>) -> bool {
    match own.try_borrow() {
        Ok(own) => !own.provider.registry().has_failed(),
        Err(_) => false,
    }
}

impl<'r, 'p, 'b, N: Net + Clock, L: Listen + Drop, R: StoredRows> OwnReader<'r, 'p, 'b, N, L, R> {
    /// Ends the request, and lets the provider serve it.
    fn be_served(&mut self) {
        if self.is_served {
            return;
        }
        self.is_served = true;
        self.stream.shut_down();
        if let Ok(mut guard) = self.own.try_borrow_mut() {
            let own = &mut *guard;
            let _ = serve_next(own.alloc, &mut own.listener, own.base, own.provider);
        }
    }
}

impl<'r, 'p, 'b, N: Net + Clock, L: Listen + Drop, R: StoredRows> Read
    for OwnReader<'r, 'p, 'b, N, L, R> {
    /// Lets the provider serve the connection, and reads its answer. If nothing came, the provider served
    /// another connection that was first: it serves the next one before the next read.
    fn read(&mut self, buffer: &mut [u8]) -> io::Result<usize> {
        self.be_served();
        let came = self.stream.read(buffer);
        if let Err(error) = came {
            self.is_served = !matches!(error.kind(), ErrorKind::Interrupted);
        }
        came
    }

    /// Written out, because the default isn't proved by itself.
    fn read_exact(&mut self, buffer: &mut [u8]) -> io::Result<()> {
        self.be_served();
        self.stream.read_exact(buffer)
    }
}

impl<'r, 'p, 'b, N: Net + Clock, L: Listen + Drop, R: StoredRows> Dial
    for OwnStreams<'r, 'p, 'b, N, L, R> {
    type Reader = OwnReader<'r, 'p, 'b, N, L, R>;

    type Writer = TimedHandle<'r, N::Stream, N>;

    /// Opens a stream. A provider whose store has failed isn't asked any more.
    fn dial(&mut self) -> io::Result<(Self::Reader, Self::Writer)> {
        if !can_serve(self.own) {
            return Err(io::Error::from(ErrorKind::NotConnected));
        }
        let (stream, writer) = self.remote.dial()?;
        let reader = OwnReader {
            stream,
            own: self.own,
            is_served: false,
        };
        Ok((reader, writer))
    }

    /// Ends a stream. A connection that was never read from is served too, so that it doesn't wait in front
    /// of the next. If another connection was served in its place, it waits, and is served before the next.
    fn end(&self, mut reader: Self::Reader, _: Self::Writer) {
        reader.be_served();
    }

    /// Exchanges with a provider in this program aren't explained.
    fn explain(&self, _: &Ended<'_>) {}

    /// A provider in this program asks for no wait.
    fn puts_off(&self, _: &RecordName, _: &Heard) -> bool {
        false
    }

    fn is_due(&self, _: &RecordName) -> bool {
        true
    }

    fn rest(&self) {}
}
