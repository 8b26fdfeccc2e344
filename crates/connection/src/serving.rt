//! The connections of a provider, one after another.
ghost use Rattle.std.specs.Prelude.{◌≡◌, []};
ghost use Rattle.provider_core.specs.Memory.{MemoryRecord};
ghost use Rattle.connection.specs.Requests.{FollowRequests};
ghost use Rattle.connection.specs.Turns.{IsServed, TakesTurn, ServesTurns, answered};

use crate::answering::{Served, serve_meanwhile};
use crate::listening::Listen;
use http_text::{Input, Output};
use provider_core::{Meanwhile, MemoryRegistry, Provider, Registry};
use scim_key::Base;
use std::alloc::Global;
use std::io::{Eprint, Read, Write};
use thiserror::Error;

/// A connection that couldn't be opened, on which no request came, or whose answer couldn't be written
/// whole.
#[derive(Clone, Copy, Debug, Error)]
#[error("connection fault")]
pub struct ConnectionFault;

/// Accepts `count` connections. It serves each with one request to the provider, and ends it before it
/// accepts the next. It reports faults on standard error when the listener says so, and goes on. The result
/// is a fault if any connection had one.
pub fn serve_connections<R: Registry, L: Listen>(
    rt: &impl Eprint,
    alloc: Global,
    listener: &mut L,
    count: u64,
    base: &Base,
    provider: &mut Provider<R>,
) -> Result<(), ConnectionFault>
    ensures served { ServesTurns L.waiting L.Reader.remaining L.Writer.contents R.Registry
        base.now listener.old listener.new provider.old provider.new count result }
    ensures follows { R.is_faithful provider.new →
        FollowRequests (R.rows provider.old) (R.rows provider.new) count }
{
    let mut outcome = Ok(());
    for _turn in 0..count {
        let served = serve_next(alloc, listener, base, provider);
        tell(rt, listener.due_faults(u32::from(served.is_err())));
        outcome = outcome.and(served);
    }
    outcome
}

/// Serves `count` connections as `serve_connections` does, with a provider in memory that starts empty.
pub fn serve_from_memory<L: Listen>(
    rt: &impl Eprint,
    alloc: Global,
    listener: &mut L,
    count: u64,
    base: &Base,
) -> Result<(), ConnectionFault>
    ensures { (held : MemoryRecord) × FollowRequests [] held.rows count
        × ServesTurns L.waiting L.Reader.remaining L.Writer.contents
        ⟦<MemoryRegistry as Registry>⟧ base.now listener.old listener.new
        (record { rows = []; writes = 0 }) held count result }
{
    let mut provider = Provider::new(MemoryRegistry::new(alloc));
    serve_connections(rt, alloc, listener, count, base, &mut provider)
}

/// Reports this many faults on standard error, in one line.
pub(crate) fn tell(rt: &impl Eprint, faults: u32) {
    let fault = ConnectionFault;
    let _ = match faults {
        0 => Ok(()),
        1 => eprintln!(rt; "{fault}"),
        _ => eprintln!(rt; "{fault} ({faults})"),
    };
}

/// Accepts the next connection, serves it with one request to the provider, and ends it. During a search of all rows,
/// the listener goes on with its other connections.
pub fn serve_next<R: Registry, L: Listen>(
    alloc: Global,
    listener: &mut L,
    base: &Base,
    provider: &mut Provider<R>,
) -> Result<(), ConnectionFault>
    ensures { TakesTurn L.waiting L.Reader.remaining L.Writer.contents R.Registry base.now
        listener.old listener.new provider.old provider.new result }
{
    let Ok((mut reader, mut writer)) = listener.accept() else {
        return Err(ConnectionFault);
    };
    let served = serve_opened(alloc, base, provider, &mut reader, &mut writer, listener);
    listener.end(reader, writer);
    answered(served)
}

/// Serves a connection. During a search of all rows, the listener goes on.
fn serve_opened<R: Registry, I: Read, O: Write, L: Meanwhile>(
    alloc: Global,
    base: &Base,
    provider: &mut Provider<R>,
    reader: &mut I,
    writer: &mut O,
    listener: &mut L,
) -> Served
    ensures served { IsServed I.remaining O.contents R.Registry base.now provider.old provider.new
        reader.old writer.old result }
    ensures keeps { L.keeps listener.old listener.new }
{
    let mut input = Input::new(reader);
    let mut output = Output::new(writer);
    serve_meanwhile(alloc, provider, base, &mut input, &mut output, listener)
}

/// A connection has no fault if a response was written whole.
pub fn answered(served: Served) -> Result<(), ConnectionFault>
    ensures { result ≡ answered served }
{
    match served {
        Served::Answered { .. } => Ok(()),
        Served::NoRequest(_) | Served::Lost { .. } => Err(ConnectionFault),
    }
}
