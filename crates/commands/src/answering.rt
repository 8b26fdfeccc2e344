//! `answer`: one connection, and the exit status after it.
ghost use Rattle.std.specs.Prelude.{◌≡◌};
ghost use Rattle.clap.specs.Matches.{found_of};
ghost use Rattle.commands.specs.Connections.{Answers, AnswersNamed, AnswersOne, AnswersStored};
ghost use Rattle.commands.specs.Statuses.{served_status};

use crate::status::{CommandFault, Status};
use crate::stored::serve_one;
use crate::words::base;
use clap::ArgMatches;
use connection::{Served, answered, serve};
use http_text::{Input, Output};
use provider_core::{MemoryRegistry, Provider};
use scim_key::Base;
use std::alloc::Global;
use std::io;
use std::io::{Read, Write};
use std::rt::Runtime;
use storage::RowStorage;

/// Answers one request from standard input, over the rows of a file, or over an empty provider in memory.
pub fn answer<R: Runtime + AllocGlobal, K: RowStorage>(
    rt: &R,
    words: &ArgMatches<'_>,
    store: Option<&K>,
) -> Result<Status, CommandFault>
    ensures { Answers K.Rows.Registry (found_of words.now) store.entry result }
{
    let base = base(rt.alloc(), words)?;
    let mut reader = Input::new(rt.reader());
    let mut writer = Output::new(io::writer(rt));
    answer_named(rt.alloc(), store, &base, &mut reader, &mut writer)
}

/// Answers one request over the rows of a place, if it is named, or else over an empty provider in memory.
fn answer_named<K: RowStorage, I: Read, O: Write>(
    alloc: Global,
    store: Option<&K>,
    base: &Base,
    reader: &mut Input<I>,
    writer: &mut Output<O>,
) -> Result<Status, CommandFault>
    ensures { AnswersNamed K.Rows.Registry store.entry base.now reader.old reader.new writer.old
        writer.new result }
{
    match store {
        Some(storage) => answer_stored(alloc, storage, base, reader, writer),
        None => answer_one(alloc, base, reader, writer),
    }
}

/// Opens the rows, then reads one request and answers it.
pub fn answer_stored<K: RowStorage, I: Read, O: Write>(
    alloc: Global,
    storage: &K,
    base: &Base,
    reader: &mut Input<I>,
    writer: &mut Output<O>,
) -> Result<Status, CommandFault>
    ensures { AnswersStored K.Rows.Registry base.now reader.old reader.new writer.old writer.new
        result }
{
    let served = serve_one(alloc, storage, base, reader, writer)?;
    served_status(served)
}

/// Answers one request over an empty provider in memory.
pub fn answer_one<I: Read, O: Write>(
    alloc: Global,
    base: &Base,
    reader: &mut Input<I>,
    writer: &mut Output<O>,
) -> Result<Status, CommandFault>
    ensures { AnswersOne base.now reader.old reader.new writer.old writer.new result }
{
    let mut provider = Provider::new(MemoryRegistry::new(alloc));
    let served = serve(alloc, &mut provider, base, reader, writer);
    served_status(served)
}

/// The exit status after a connection.
fn served_status(served: Served) -> Result<Status, CommandFault>
    ensures { result ≡ served_status served }
{
    match answered(served) {
        Ok(()) => Ok(Status::Done),
        Err(fault) => Err(CommandFault::Connection(fault)),
    }
}
