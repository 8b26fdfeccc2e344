//! Sockets that listen.
ghost use Rattle.std.specs.Prelude.{◌≡◌, IfOk};

use crate::sockets::Sockets;
use std::alloc::Global;
use std::io;
use std::io::{Eprint, ErrorKind};
use std::net::{Net, SocketAddr, TcpListener, ToSocketAddrs};
use std::time::{Clock, Duration};

/// The connections of an address, HOST:PORT, and the address with its port. Each connection has the time `limit` in all,
/// and each search `longest_search`.
pub fn listen_at<'a, C: Clock + Eprint>(
    net: &impl Net,
    alloc: Global,
    address: &str,
    clock: &'a C,
    limit: Duration,
    longest_search: Duration,
) -> io::Result<(Sockets<'a, TcpListener, C>, SocketAddr)>
    ensures { IfOk result (λ opened. (opened.0.limit ≡ limit)
        × (opened.0.search_times.longest ≡ longest_search)) }
{
    let listener = listener_at(net, address)?;
    let taken = listener.local_addr()?;
    let sockets = Sockets::new(alloc, net, listener, clock, limit, longest_search)?;
    Ok((sockets, taken))
}

/// A socket that listens at the first of the host's addresses at which it can. As many connections may wait in its queue
/// as the system allows: a client that finds the queue full tries again only after a second.
fn listener_at(net: &impl Net, address: &str) -> io::Result<TcpListener> {
    let mut fault = io::Error::from(ErrorKind::InvalidInput);
    for address in address.to_socket_addrs(net)? {
        match mio::net::TcpListener::bind(net, address) {
            Ok(listener) => return Ok(TcpListener::from(listener)),
            Err(error) => fault = error,
        }
    }
    Err(fault)
}
