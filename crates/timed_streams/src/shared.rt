//! Shared handles on one stream.
ghost use Rattle.std.specs.Prelude.{◌≡◌, IfOk};

use crate::deadline::Deadline;
use crate::timed::TimedStream;
use std::alloc::Global;
use std::cell::{BorrowMutError, RefCell, RefMut};
use std::io;
use std::io::{ErrorKind, Read, Write};
use std::net::{OpenStream, Shutdown};
use std::rc::Rc;
use std::time::{Clock, Duration};

/// A handle on a stream; the last handle closes it. `try_clone` makes no call of the system, unlike that of
/// a socket.
#[derive(Drop)]
pub struct SharedStream<S: Drop> {
    stream: Rc<RefCell<S>>,
}

fn busy(_: BorrowMutError) -> io::Error {
    io::Error::from(ErrorKind::ResourceBusy)
}

fn out_of_memory<E: Drop>(_: E) -> io::Error {
    io::Error::from(ErrorKind::OutOfMemory)
}

impl<S: Drop> SharedStream<S> {
    /// The first handle on a stream.
    pub fn new(alloc: Global, stream: S) -> io::Result<Self> {
        let stream = Rc::new(alloc, RefCell::new(stream)).map_err(out_of_memory)?;
        Ok(SharedStream { stream })
    }

    /// The stream, for one call.
    fn lock(&self) -> io::Result<RefMut<'_, S>> {
        self.stream.try_borrow_mut().map_err(busy)
    }
}

impl<S: Read + Drop> Read for SharedStream<S> {
    fn read(&mut self, buffer: &mut [u8]) -> io::Result<usize> {
        self.lock()?.read(buffer)
    }
}

impl<S: Write + Drop> Write for SharedStream<S> {
    fn write(&mut self, bytes: &[u8]) -> io::Result<usize> {
        self.lock()?.write(bytes)
    }

    fn flush(&mut self) -> io::Result<()> {
        self.lock()?.flush()
    }
}

impl<S: OpenStream + Drop> OpenStream for SharedStream<S> {
    fn shutdown(&self, how: Shutdown) -> io::Result<()> {
        self.lock()?.shutdown(how)
    }

    fn set_read_timeout(&self, limit: Option<Duration>) -> io::Result<()> {
        self.lock()?.set_read_timeout(limit)
    }

    fn set_write_timeout(&self, limit: Option<Duration>) -> io::Result<()> {
        self.lock()?.set_write_timeout(limit)
    }

    fn try_clone(&self) -> io::Result<Self> {
        let stream = self.stream.clone().map_err(out_of_memory)?;
        Ok(SharedStream { stream })
    }
}

/// A handle on a stream with a deadline.
pub type TimedHandle<'a, S, C> = TimedStream<'a, SharedStream<S>, C>;

/// A reader and a writer of one stream with this deadline.
pub fn timed_handles<'a, S: OpenStream + Drop, C: Clock>(
    alloc: Global,
    stream: S,
    clock: &'a C,
    deadline: Deadline,
) -> io::Result<(TimedHandle<'a, S, C>, TimedHandle<'a, S, C>)>
    ensures { IfOk result
        (λ handles. (handles.0.deadline ≡ deadline) × (handles.1.deadline ≡ deadline)) }
{
    let stream = SharedStream::new(alloc, stream)?;
    let reader = TimedStream::new(stream.try_clone()?, clock, deadline);
    let writer = TimedStream::new(stream, clock, deadline);
    Ok((reader, writer))
}
