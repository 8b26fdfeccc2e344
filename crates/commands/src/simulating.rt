//! The events that the arguments of `simulate` ask for.
ghost use Rattle.std.specs.Prelude.{◌≡◌, codes};
ghost use Rattle.clap.specs.Matches.{first_value, found_of, one_text};
ghost use Rattle.commands.specs.Addresses.{text_in};
ghost use Rattle.commands.specs.Simulating.{is_set, wanted_connectors, wanted_events, wanted_start};
ghost use Rattle.commands.specs.Words.{GivesNumber};

use crate::status::CommandFault;
use clap::ArgMatches;
use thiserror::Error;

/// The most random events of a run.
pub const MOST_EVENTS: u32 = 100_000;

/// How many random events there are if the arguments don't say.
pub const DEFAULT_EVENTS: u32 = 1_000;

/// The most connectors of a run.
pub const MOST_CONNECTORS: u32 = 100;

/// Where the events of a simulation come from.
#[derive(Clone, Copy)]
pub enum Events<'a> {
    /// The schedule in this file.
    Scheduled(&'a str),
    /// `count` random events of this seed.
    Random { seed: u64, count: u32 },
}

/// Why the arguments of `simulate` ask for no events.
#[derive(Clone, Copy, Debug, Error)]
pub enum EventsFault {
    #[error("simulate takes one of FILE and --seed S")]
    Source,
    #[error("--events is 1 to {most}, with --seed", most = MOST_EVENTS)]
    Count,
    #[error("--connectors is 1 to {most}, with --seed", most = MOST_CONNECTORS)]
    Connectors,
    #[error("--any-start goes with --seed, and not with --connectors")]
    Start,
}

/// The events of a schedule, or random ones, but not both.
pub fn wanted_events(
    file: Option<&str>,
    seed: Option<u64>,
    count: Option<u32>,
) -> Result<Events<'_>, CommandFault>
    ensures { result ≡ wanted_events file.entry seed count }
{
    match (file, seed, count) {
        (Some(file), None, None) => Ok(Events::Scheduled(file)),
        (None, Some(seed), None) => Ok(Events::Random {
            seed,
            count: DEFAULT_EVENTS,
        }),
        (None, Some(seed), Some(count)) if (1..=MOST_EVENTS).contains(&count) => {
            Ok(Events::Random { seed, count })
        }
        (None, Some(_), Some(_)) => Err(CommandFault::Events(EventsFault::Count)),
        (Some(_), None, Some(_)) => Err(CommandFault::Events(EventsFault::Count)),
        (Some(_), Some(_), _) | (None, None, _) => Err(CommandFault::Events(EventsFault::Source)),
    }
}

/// How many connectors share the provider, if the arguments say it. Only random events are of several.
pub fn wanted_connectors(
    events: Events<'_>,
    connectors: Option<u32>,
) -> Result<Option<u32>, CommandFault>
    ensures { result ≡ wanted_connectors events.entry connectors }
{
    match (events, connectors) {
        (_, None) => Ok(None),
        (Events::Random { .. }, Some(number)) if (1..=MOST_CONNECTORS).contains(&number) => {
            Ok(Some(number))
        }
        (_, Some(_)) => Err(CommandFault::Events(EventsFault::Connectors)),
    }
}

/// Whether the events begin at a random start, if the arguments say it. Only random events of one connector do.
pub fn wanted_start(
    events: Events<'_>,
    connectors: Option<u32>,
    is_any: bool,
) -> Result<bool, CommandFault>
    ensures { result ≡ wanted_start events.entry connectors is_any }
{
    match (events, connectors, is_any) {
        (_, _, false) => Ok(false),
        (Events::Random { .. }, None, true) => Ok(true),
        (_, _, true) => Err(CommandFault::Events(EventsFault::Start)),
    }
}

/// The file of a schedule in the arguments, if there is one.
pub fn schedule<'a>(matches: &ArgMatches<'a>) -> Option<&'a str>
    ensures { text_in result ≡ first_value (found_of matches.now) (codes "FILE") }
{
    matches.get_str("FILE")
}

/// The seed in the arguments, if there is one and its text spells a number of 64 bits.
pub fn seed(matches: &ArgMatches<'_>) -> Option<u64>
    ensures { GivesNumber 64 (one_text (found_of matches.now) (codes "seed")) result }
{
    matches.get_one("seed")
}

/// The number of events in the arguments, if there is one and its text spells a number of 32 bits.
pub fn count(matches: &ArgMatches<'_>) -> Option<u32>
    ensures { GivesNumber 32 (one_text (found_of matches.now) (codes "events")) result }
{
    matches.get_one("events")
}

/// The number of connectors in the arguments, if there is one and its text spells a number of 32 bits.
pub fn connectors(matches: &ArgMatches<'_>) -> Option<u32>
    ensures { GivesNumber 32 (one_text (found_of matches.now) (codes "connectors")) result }
{
    matches.get_one("connectors")
}

/// Whether the arguments ask for every record to be settled after the events.
pub fn settles(matches: &ArgMatches<'_>) -> bool
    ensures { result ≡ is_set (one_text (found_of matches.now) (codes "settle")) }
{
    matches.get_one("settle").unwrap_or(false)
}

/// Whether the arguments ask for a random start.
pub fn any_start(matches: &ArgMatches<'_>) -> bool
    ensures { result ≡ is_set (one_text (found_of matches.now) (codes "any-start")) }
{
    matches.get_one("any-start").unwrap_or(false)
}
