//! The arguments, and what is printed in place of a run.
use clap::Error;
use clap::error::ErrorKind;
use commands::words::words_status;
use commands::{CommandFault, Status, words_fault};
use std::env;
use std::rt::Runtime;

/// The arguments. An argument that isn't UTF-8 is invalid.
pub fn arguments<R: Runtime + AllocGlobal>(rt: &R) -> Result<Vec<String>, CommandFault> {
    let words = env::args(rt).map_err(|error| words_fault(error))?;
    words.collect(rt.alloc()).map_err(|_| CommandFault::Memory)
}

/// Prints what clap reports: help, the version, or what is wrong with the arguments.
pub fn tell(rt: &impl Runtime, error: Error) -> Result<Status, CommandFault> {
    let kind = error.kind();
    if kind == ErrorKind::OutOfMemory {
        return Err(CommandFault::Memory);
    }
    let is_printed = error.print(rt).is_ok();
    Ok(words_status(kind, is_printed))
}
