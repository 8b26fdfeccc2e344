//! Standard output, and a writer that keeps the system's error if a write failed.
ghost use Rattle.std.specs.Prelude.{◌≡◌, None};
ghost use Rattle.std.specs.Io.{WritesAtMost};
ghost use Rattle.std.specs.Io.KnownBytes.{Keeps, WriteAppends};
ghost use Rattle.commands.specs.Causes.{concluded, explained, last_error};

use crate::status::{CommandFault, Status};
use provisioning::RunFault;
use std::io;
use std::io::{BufWriter, Printer, Write};
use std::rt::Runtime;

/// Standard output, which is written in blocks. It keeps the system's error if a write failed.
pub type StandardOutput<'a, R> = NotedWriter<BufWriter<Printer<'a, R>>>;

/// Standard output. Nothing is in its block yet.
pub fn standard_output<R: Runtime + AllocGlobal>(
    rt: &R,
) -> Result<StandardOutput<'_, R>, CommandFault> {
    Ok(NotedWriter::new(BufWriter::new(rt.alloc(), io::writer(rt))?))
}

/// A writer, and the system's error of its last call that failed.
#[derive(Drop)]
pub struct NotedWriter<W: Write + Drop> {
    inner: W,
    last: Option<io::Error>,
}

impl<W: Write + Drop> NotedWriter<W> {
    /// No call has failed.
    pub fn new(inner: W) -> NotedWriter<W>
        ensures inner { result.inner ≡ inner }
        ensures last { result.last ≡ None }
    {
        NotedWriter { inner, last: None }
    }

    /// How a run that wrote here ended; if a line couldn't be written, with the system's error.
    pub fn concluded(&self, ended: Result<Status, CommandFault>) -> Result<Status, CommandFault>
        ensures { result ≡ concluded self.now.last ended }
    {
        match ended {
            Ok(status) => Ok(status),
            Err(fault) => Err(self.explained(fault)),
        }
    }

    /// The fault of a line that couldn't be written, with the system's error; any other as it is.
    fn explained(&self, fault: CommandFault) -> CommandFault
        ensures { result ≡ explained self.now.last fault }
    {
        match (fault, self.last) {
            (CommandFault::File, Some(error)) => CommandFault::Output(error),
            (CommandFault::Run(RunFault::Untold), Some(error)) => CommandFault::Output(error),
            _ => fault,
        }
    }
}

/// Keeps the error of a call that failed, and returns the call's result.
fn noted<T>(last: &mut Option<io::Error>, outcome: io::Result<T>) -> io::Result<T>
    ensures same { result ≡ outcome }
    ensures last { last.new ≡ last_error outcome last.old }
{
    match outcome {
        Ok(given) => Ok(given),
        Err(error) => {
            *last = Some(error);
            Err(error)
        }
    }
}

impl<W: Write + Drop> Write for NotedWriter<W> {
    ghost contents = { λ w. W.contents w.inner };

    fn write(&mut self, bytes: &[u8]) -> io::Result<usize>
        ensures bound { WritesAtMost result bytes.now }
        ensures bytes { WriteAppends (W.contents self.old.inner)
            (W.contents self.new.inner) result bytes.now }
        ensures last { self.new.last ≡ last_error result self.old.last }
    {
        let written = self.inner.write(bytes);
        noted(&mut self.last, written)
    }

    fn flush(&mut self) -> io::Result<()>
        ensures bytes { Keeps (W.contents self.old.inner) (W.contents self.new.inner) }
        ensures last { self.new.last ≡ last_error result self.old.last }
    {
        let flushed = self.inner.flush();
        noted(&mut self.last, flushed)
    }
}
