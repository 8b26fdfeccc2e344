//! `scimlink`: a SCIM 2.0 provider, and a connector from files of personnel records.
#![tactic(auto)]

mod arguments;
mod causes;
mod command_line;
mod options;
mod simulating;

use arguments::{arguments, tell};
use causes::report;
use clap::ArgMatches;
use command_line::{events_help, program};
use commands::words::{journal, store};
use commands::{CommandFault, Status, told};
use std::alloc::Global;
use std::net::Net;
use std::process::ExitCode;
use std::rt::{HostRuntime, Runtime};
use storage::{
    DatabaseFile, DatabaseHost, EntryStorage, JournalFile, Place, RowStorage, StoreFile,
};

fn main(rt: HostRuntime) -> ExitCode {
    ExitCode::from(run(&rt).code())
}

/// Does what the arguments say. It reports what is wrong with them on standard error.
fn run(rt: &HostRuntime) -> Status {
    match done(rt) {
        Ok(status) => status,
        Err(fault) => told(rt, fault, None),
    }
}

/// Reads the arguments and does what they say.
fn done(rt: &HostRuntime) -> Result<Status, CommandFault> {
    let words = arguments(rt)?;
    let events_help = events_help(rt.alloc())?;
    let program = program(rt.alloc(), events_help.as_str())?;
    match program.try_get_matches_from(words.as_slice()) {
        Ok(matches) => over_files(rt, &matches),
        Err(error) => tell(rt, error),
    }
}

/// Carries out the command that was given. This is the only place that names the files of a host:
/// everything below takes any storage.
fn over_files<H: DatabaseHost + Net>(
    rt: &H,
    matches: &ArgMatches<'_>,
) -> Result<Status, CommandFault> {
    let (command, words) = matches.subcommand().ok_or(CommandFault::Subcommand)?;
    let store = place(rt.alloc(), store(words))?;
    let journal = place(rt.alloc(), journal(words))?;
    Ok(over_places(rt, command, words, &store, &journal))
}

/// The place at a path, if one is named.
fn place(alloc: Global, path: Option<&str>) -> Result<Option<Place<'_>>, CommandFault> {
    match path {
        Some(path) => Ok(Some(Place::new(alloc, path)?)),
        None => Ok(None),
    }
}

/// Carries out a command over the files at these places.
fn over_places<'a, H: DatabaseHost + Net>(
    rt: &'a H,
    command: &str,
    words: &ArgMatches<'_>,
    store: &'a Option<Place<'a>>,
    journal: &'a Option<Place<'a>>,
) -> Status {
    let store = match store {
        Some(place) => Some(StoreFile {
            file: DatabaseFile::new(rt, place),
        }),
        None => None,
    };
    let journal = match journal {
        Some(place) => Some(JournalFile {
            file: DatabaseFile::new(rt, place),
        }),
        None => None,
    };
    ended(rt, command, words, store.as_ref(), journal.as_ref())
}

/// Carries out a command. It reports a fault on standard error with its cause.
fn ended<R: Runtime + Net + AllocGlobal, K: RowStorage, J: EntryStorage>(
    rt: &R,
    command: &str,
    words: &ArgMatches<'_>,
    store: Option<&K>,
    journal: Option<&J>,
) -> Status {
    match carry_out(rt, command, words, store, journal) {
        Ok(status) => status,
        Err(fault) => report(rt, fault, words, store, journal),
    }
}

/// Carries out a command.
fn carry_out<R: Runtime + Net + AllocGlobal, K: RowStorage, J: EntryStorage>(
    rt: &R,
    command: &str,
    words: &ArgMatches<'_>,
    store: Option<&K>,
    journal: Option<&J>,
) -> Result<Status, CommandFault> {
    match command {
        "answer" => commands::answer(rt, words, store),
        "check" => commands::check(rt, words, journal),
        "loop" => commands::carry(rt, words, store, journal),
        "map" => commands::map(rt, words),
        "serve" => commands::serve(rt, words, store),
        "push" => commands::push(rt, words, journal),
        "reset" => commands::reset(rt, words, journal),
        "show" => commands::show(rt, store, journal),
        "simulate" => simulating::simulate(rt, words),
        _ => Err(CommandFault::Subcommand),
    }
}
