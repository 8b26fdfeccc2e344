//! `simulate`: runs events over connector and provider in memory.
use crate::options::DEFAULT_BASE;
use clap::ArgMatches;
use commands::simulating::{
    Events, any_start, connectors, count, schedule, seed, settles, wanted_connectors,
    wanted_events, wanted_start,
};
use commands::words::base_fault;
use commands::{
    CommandFault, Part, Schedule, Status, refuse_late, schedule_of, simulate as run_events,
    simulate_among, simulate_several, tell_contested, unread_fault,
};
use journal_core::MemoryJournal;
use provider_core::MemoryRegistry;
use scim_key::Base;
use std::alloc::Global;
use std::io::BufWriter;
use std::rt::Runtime;
use std::{fs, io};
use world_sim::{Act, Event, ReportLines, random_from_any_start, random_schedule};

/// Runs the events of a file, or random ones, and prints a report for each, then settles every record if asked
/// to, and prints, for each record, what is wanted, confirmed and held.
pub fn simulate<R: Runtime + AllocGlobal>(
    rt: &R,
    words: &ArgMatches<'_>,
) -> Result<Status, CommandFault> {
    let events = wanted_events(schedule(words), seed(words), count(words))?;
    let connectors = wanted_connectors(events, connectors(words))?;
    let any_start = wanted_start(events, connectors, any_start(words))?;
    match (events, connectors) {
        (Events::Random { seed, count }, Some(connectors)) => {
            run_several(rt, seed, count, connectors, settles(words))
        }
        (Events::Random { seed, count }, None) if any_start => {
            run_from_any_start(rt, seed, count, settles(words))
        }
        (Events::Random { seed, count }, None) => run_random(rt, seed, count, settles(words)),
        (Events::Scheduled(file), _) => scheduled(rt, file, settles(words)),
    }
}

/// The base of the service that is simulated.
fn own_base(alloc: Global) -> Result<Base, CommandFault> {
    Base::read(alloc, DEFAULT_BASE).map_err(base_fault)
}

/// Runs random events.
fn run_random<R: Runtime + AllocGlobal>(
    rt: &R,
    seed: u64,
    count: u32,
    settles: bool,
) -> Result<Status, CommandFault> {
    let events = random_schedule(rt.alloc(), seed, count)?;
    run(rt, events.as_slice(), settles)
}

/// Runs random events from a random start.
fn run_from_any_start<R: Runtime + AllocGlobal>(
    rt: &R,
    seed: u64,
    count: u32,
    settles: bool,
) -> Result<Status, CommandFault> {
    let acts = random_from_any_start(rt.alloc(), seed, count)?;
    run_among(rt, acts.as_slice(), settles)
}

/// Runs the schedule in a file.
fn scheduled<R: Runtime + AllocGlobal>(
    rt: &R,
    file: &str,
    settles: bool,
) -> Result<Status, CommandFault> {
    let text = fs::read_to_string(rt, file).map_err(|error| unread_fault(Part::File, error))?;
    match schedule_of(rt.alloc(), text.as_str())? {
        Schedule::Alone(events) => run(rt, events.as_slice(), settles),
        Schedule::Among(acts) => {
            refuse_late(rt.alloc(), text.as_str(), acts.as_slice())?;
            tell_contested(rt, rt.alloc(), text.as_str(), acts.as_slice())?;
            run_among(rt, acts.as_slice(), settles)
        }
    }
}

/// Runs these events over stores in memory.
fn run<R: Runtime + AllocGlobal>(
    rt: &R,
    events: &[Event],
    settles: bool,
) -> Result<Status, CommandFault> {
    let base = own_base(rt.alloc())?;
    let out = BufWriter::new(rt.alloc(), io::writer(rt))?;
    let registry = MemoryRegistry::new(rt.alloc());
    let journal = MemoryJournal::new(rt.alloc());
    let mut lines = ReportLines::new(rt.alloc(), out);
    run_events(
        rt.alloc(),
        registry,
        journal,
        base,
        events,
        settles,
        &mut lines,
    )
}

/// Runs these acts over stores in memory.
fn run_among<R: Runtime + AllocGlobal>(
    rt: &R,
    acts: &[Act],
    settles: bool,
) -> Result<Status, CommandFault> {
    let base = own_base(rt.alloc())?;
    let out = BufWriter::new(rt.alloc(), io::writer(rt))?;
    let registry = MemoryRegistry::new(rt.alloc());
    let journal = MemoryJournal::new(rt.alloc());
    let mut lines = ReportLines::new(rt.alloc(), out);
    simulate_among(
        rt.alloc(),
        registry,
        journal,
        base,
        acts,
        settles,
        &mut lines,
    )
}

/// The journals of the connectors behind the first one.
fn journals(alloc: Global, connectors: u32) -> Result<Vec<MemoryJournal>, CommandFault> {
    let mut journals = Vec::new(alloc);
    for _ in 1..connectors {
        journals.push(MemoryJournal::new(alloc))?;
    }
    Ok(journals)
}

/// Runs random turns of this many connectors over stores in memory.
fn run_several<R: Runtime + AllocGlobal>(
    rt: &R,
    seed: u64,
    count: u32,
    connectors: u32,
    settles: bool,
) -> Result<Status, CommandFault> {
    let base = own_base(rt.alloc())?;
    let out = BufWriter::new(rt.alloc(), io::writer(rt))?;
    let others = journals(rt.alloc(), connectors)?;
    let registry = MemoryRegistry::new(rt.alloc());
    let first = MemoryJournal::new(rt.alloc());
    let alloc = rt.alloc();
    let mut lines = ReportLines::new(alloc, out);
    simulate_several(
        alloc, registry, first, others, base, seed, count, settles, &mut lines,
    )
}
