//! Why a run ended early: the part that failed, by its name in the arguments.
use clap::ArgMatches;
use commands::words::{address, file, groups, journal as journal_in, to, users};
use commands::{Cause, CommandFault, OWN_ADDRESS, Part, Reason, Status, told};
use std::rt::Runtime;
use storage::{EntryStorage, RowStorage};

/// Reports a fault on standard error, with the part that failed and why, if a part did. Returns the exit status.
pub fn report<R: Runtime + AllocGlobal, K: RowStorage, J: EntryStorage>(
    rt: &R,
    fault: CommandFault,
    words: &ArgMatches<'_>,
    store: Option<&K>,
    journal: Option<&J>,
) -> Status {
    match fault.part() {
        Some(Part::Store) => told(rt, fault, cause_of_store(store)),
        Some(Part::Journal) => told(rt, fault, cause_of_journal(journal)),
        Some(part) => told(rt, fault, cause_in(words, part, fault)),
        None => told(rt, fault, None),
    }
}

/// Why a part failed that the arguments name.
fn cause_in<'a>(words: &ArgMatches<'a>, part: Part, fault: CommandFault) -> Option<Cause<'a>> {
    match part {
        Part::Users => cause_by_system(users(words).ok(), fault),
        Part::Groups => cause_by_system(groups(words), fault),
        Part::File => cause_by_system(read_file(words), fault),
        Part::Output => cause_by_system(Some("standard output"), fault),
        Part::Listening => cause_by_system(address(words).ok(), fault),
        Part::Provider => cause_by_system(Some(to(words).unwrap_or(OWN_ADDRESS)), fault),
        Part::Store | Part::Journal => None,
    }
}

/// The part with this name failed, for the reason that the system says.
fn cause_by_system(name: Option<&str>, fault: CommandFault) -> Option<Cause<'_>> {
    let error = fault.error()?;
    Some(Cause {
        name: name?,
        reason: Reason::System(error),
    })
}

/// The file that `map`, `simulate` or `reset` reads.
fn read_file<'a>(words: &ArgMatches<'a>) -> Option<&'a str> {
    match file(words) {
        Ok(name) => Some(name),
        Err(_) => journal_in(words),
    }
}

fn cause_of_store<K: RowStorage>(store: Option<&K>) -> Option<Cause<'_>> {
    let store = store?;
    let reason = store.reason()?;
    Some(Cause {
        name: store.name(),
        reason: Reason::Database(reason),
    })
}

fn cause_of_journal<J: EntryStorage>(journal: Option<&J>) -> Option<Cause<'_>> {
    let journal = journal?;
    let reason = journal.reason()?;
    Some(Cause {
        name: journal.name(),
        reason: Reason::Database(reason),
    })
}
