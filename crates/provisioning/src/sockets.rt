//! Streams to a provider over TCP.
use crate::dialing::Dial;
use std::alloc::Global;
use std::io;
use std::io::ErrorKind;
use std::net::{Net, SocketAddr, TcpStream, ToSocketAddrs};
use std::time::{Clock, Duration};
use timed_streams::{Deadline, TimedHandle, timed_handles};

/// How many seconds a connection may take in all, for connector and provider.
pub const CONNECTION_SECONDS: u64 = 30;

/// The most seconds that the connector waits for one address of a host.
const ADDRESS_SECONDS: u64 = 10;

/// A provider at an address, HOST:PORT. Each stream has `CONNECTION_SECONDS`, counted from before it is
/// opened. The host is looked up for the first stream, and again if its address doesn't answer any more.
#[derive(Drop)]
pub struct Remote<'a, R> {
    alloc: Global,
    runtime: &'a R,
    address: &'a str,
    /// The address of the host that answered last.
    last: Option<SocketAddr>,
}

impl<'a, R: Net + Clock> Remote<'a, R> {
    pub fn new(alloc: Global, runtime: &'a R, address: &'a str) -> Self {
        Remote {
            alloc,
            runtime,
            address,
            last: None,
        }
    }

    /// Opens a stream to the address that answered last, or else to the first one of the host that answers in time.
    fn connect(&mut self, deadline: Deadline) -> io::Result<R::Stream> {
        if let Some(address) = self.last {
            if let Ok(stream) = connect_to(self.runtime, &address, deadline) {
                return Ok(stream);
            }
        }
        self.look_up(deadline)
    }

    /// Looks up the host, and opens a stream to its first address that answers in time.
    fn look_up(&mut self, deadline: Deadline) -> io::Result<R::Stream> {
        let mut fault = io::Error::from(ErrorKind::InvalidInput);
        for address in self.address.to_socket_addrs(self.runtime)? {
            match connect_to(self.runtime, &address, deadline) {
                Ok(stream) => {
                    self.last = Some(address);
                    return Ok(stream);
                }
                Err(error) => fault = error,
            }
        }
        Err(fault)
    }
}

/// Opens a stream to an address, if it answers in time.
fn connect_to<R: Net + Clock>(
    runtime: &R,
    address: &SocketAddr,
    deadline: Deadline,
) -> io::Result<R::Stream> {
    let limit = deadline
        .left(runtime)?
        .min(Duration::from_secs(ADDRESS_SECONDS));
    TcpStream::connect_timeout(runtime, address, limit)
}

impl<'a, R: Net + Clock> Dial for Remote<'a, R> {
    type Reader = TimedHandle<'a, R::Stream, R>;

    type Writer = TimedHandle<'a, R::Stream, R>;

    fn dial(&mut self) -> io::Result<(Self::Reader, Self::Writer)> {
        let limit = Duration::from_secs(CONNECTION_SECONDS);
        let deadline = Deadline::after(self.runtime, limit)?;
        let stream = self.connect(deadline)?;
        timed_handles(self.alloc, stream, self.runtime, deadline)
    }

    fn end(&self, _: Self::Reader, _: Self::Writer) {}
}
