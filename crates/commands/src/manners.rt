//! How a push is carried out.
ghost use Rattle.std.specs.Prelude.{◌≡◌, codes};
ghost use Rattle.clap.specs.Matches.{first_value, found_of, one_text};
ghost use Rattle.commands.specs.Layouts.{is_snapshot};
ghost use Rattle.commands.specs.Manners.{GivesGiveUp, GivesManner, GivesMost, GivesSettleTime, GivesStreams, GivesUpTo, named_keeps, wanted_keeps};
ghost use Rattle.commands.specs.Simulating.{is_set};

use crate::layouts::is_snapshot;
use crate::status::CommandFault;
use crate::words::counted;
use clap::ArgMatches;
use provisioning::{MOST_STREAMS, Pace, ProviderKeeps};

/// The most users that `--most-leavers` may allow.
pub const MOST_LEAVERS: u32 = 1_000_000;

/// The most records in a row that `--give-up-after` may name.
pub const LONGEST_STREAK: u32 = 1_000_000;

/// After how many records in a row that met the same obstacle a push gives up, unless the arguments say otherwise.
const GIVE_UP_AFTER: u32 = 10;

/// The most seconds that `--settle-time` may name: an hour.
pub const MOST_SETTLE_SECONDS: u32 = 3_600;

/// For how many seconds a request may be under way, unless the arguments say otherwise.
const SETTLE_SECONDS: u32 = 60;

/// How a push is carried out.
#[derive(Clone, Copy)]
pub struct Manner {
    /// It prints what it would ask for, and asks for nothing.
    pub is_planned: bool,
    /// The most users that it may switch off.
    pub most_leavers: Option<u32>,
    /// How it carries records.
    pub delivery: Delivery,
}

/// How records are carried to a provider.
#[derive(Clone, Copy)]
pub struct Delivery {
    /// Only the records that aren't confirmed are printed, and counts.
    pub is_quiet: bool,
    /// What is confirmed is compared first, and what differs is doubted.
    pub is_rechecked: bool,
    /// How many records are pushed at once, in which order, and when the run gives up.
    pub pace: Pace,
    /// What the provider keeps of what it is sent.
    pub keeps: ProviderKeeps,
    /// For how many seconds a request may be under way that an earlier run sent.
    pub settle_seconds: u32,
}

impl Manner {
    /// How the arguments want it.
    pub fn of(words: &ArgMatches<'_>) -> Result<Manner, CommandFault>
        ensures { GivesManner (found_of words.now) result }
    {
        Ok(Manner {
            is_planned: is_planned(words),
            most_leavers: most_leavers(words)?,
            delivery: Delivery {
                is_quiet: is_quiet(words),
                is_rechecked: is_rechecked(words),
                pace: Pace {
                    streams: streams(words)?,
                    leavers_first: leavers_first(words),
                    give_up_after: give_up_after(words)?,
                },
                keeps: keeps(words)?,
                settle_seconds: settle_seconds(words)?,
            },
        })
    }
}

/// Whether the arguments ask for a plan.
pub fn is_planned(words: &ArgMatches<'_>) -> bool
    ensures { result ≡ is_set (one_text (found_of words.now) (codes "plan")) }
{
    words.get_one("plan").unwrap_or(false)
}

/// Whether the arguments ask for a quiet run.
pub(crate) fn is_quiet(words: &ArgMatches<'_>) -> bool
    ensures { result ≡ is_set (one_text (found_of words.now) (codes "quiet")) }
{
    words.get_one("quiet").unwrap_or(false)
}

/// Whether the arguments ask for a recheck.
fn is_rechecked(words: &ArgMatches<'_>) -> bool
    ensures { result ≡ is_set (one_text (found_of words.now) (codes "recheck")) }
{
    words.get_one("recheck").unwrap_or(false)
}

/// The most users that a run may switch off, if the arguments say so, as they must if the files are snapshots.
fn most_leavers(words: &ArgMatches<'_>) -> Result<Option<u32>, CommandFault>
    ensures { GivesMost (one_text (found_of words.now) (codes "most-leavers"))
        (first_value (found_of words.now) (codes "most-leavers")) (is_snapshot (found_of words.now))
        result }
{
    match (words.get_one("most-leavers"), words.get_str("most-leavers")) {
        (Some(most), _) if most <= MOST_LEAVERS => Ok(Some(most)),
        (None, None) if !is_snapshot(words) => Ok(None),
        _ => Err(CommandFault::MostLeavers),
    }
}

/// For how many records exchanges may be under way at once: one, unless the arguments say otherwise.
pub(crate) fn streams(words: &ArgMatches<'_>) -> Result<u32, CommandFault>
    ensures { GivesStreams (first_value (found_of words.now) (codes "streams"))
        (one_text (found_of words.now) (codes "streams")) result }
{
    match words.get_str("streams") {
        Some(_) => counted(words, "streams", MOST_STREAMS, CommandFault::Streams),
        None => Ok(1),
    }
}

/// Whether the arguments ask for users who left to come first.
fn leavers_first(words: &ArgMatches<'_>) -> bool
    ensures { result ≡ is_set (one_text (found_of words.now) (codes "leavers-first")) }
{
    words.get_one("leavers-first").unwrap_or(false)
}

/// After how many records in a row that met the same obstacle a push gives up. With 0 it doesn't.
fn give_up_after(words: &ArgMatches<'_>) -> Result<u32, CommandFault>
    ensures { GivesGiveUp (first_value (found_of words.now) (codes "give-up-after"))
        (one_text (found_of words.now) (codes "give-up-after")) result }
{
    let (number, limit) = (GIVE_UP_AFTER, LONGEST_STREAK);
    up_to(
        words,
        "give-up-after",
        number,
        limit,
        CommandFault::GiveUpAfter,
    )
}

/// For how many seconds a request may be under way that an earlier run sent.
fn settle_seconds(words: &ArgMatches<'_>) -> Result<u32, CommandFault>
    ensures { GivesSettleTime (first_value (found_of words.now) (codes "settle-time"))
        (one_text (found_of words.now) (codes "settle-time")) result }
{
    let (number, limit) = (SETTLE_SECONDS, MOST_SETTLE_SECONDS);
    up_to(
        words,
        "settle-time",
        number,
        limit,
        CommandFault::SettleTime,
    )
}

/// This number, or the one of this argument, which is at most the limit; or what is wrong with the arguments.
fn up_to(
    words: &ArgMatches<'_>,
    name: &str,
    number: u32,
    limit: u32,
    wrong: CommandFault,
) -> Result<u32, CommandFault>
    ensures { GivesUpTo number limit wrong (first_value (found_of words.now) name.now)
        (one_text (found_of words.now) name.now) result }
{
    match (words.get_str(name), words.get_one(name)) {
        (None, _) => Ok(number),
        (Some(_), Some(given)) if given <= limit => Ok(given),
        _ => Err(wrong),
    }
}

/// What the provider keeps of what it is sent: revisions, unless the arguments say otherwise.
pub(crate) fn keeps(words: &ArgMatches<'_>) -> Result<ProviderKeeps, CommandFault>
    ensures { result ≡ wanted_keeps (first_value (found_of words.now) (codes "provider-keeps")) }
{
    match words.get_str("provider-keeps") {
        None => Ok(ProviderKeeps::Revisions),
        Some(text) => named_keeps(text),
    }
}

/// What a provider keeps, by its name.
fn named_keeps(text: &str) -> Result<ProviderKeeps, CommandFault>
    ensures { result ≡ named_keeps text.now }
{
    match text {
        "revisions" => Ok(ProviderKeeps::Revisions),
        "versions" => Ok(ProviderKeeps::Versions),
        "nothing" => Ok(ProviderKeeps::Nothing),
        _ => Err(CommandFault::ProviderKeeps),
    }
}
