//! The values of the arguments.
ghost use Rattle.std.specs.Prelude.{◌≡◌, codes};
ghost use Rattle.clap.specs.Matches.{first_value, found_of, one_text};
ghost use Rattle.scim_key.specs.Outcome.{Gives};
ghost use Rattle.commands.specs.Addresses.{GivesAddress, text_in};
ghost use Rattle.commands.specs.Statuses.{base_fault, text_fault, words_status};
ghost use Rattle.commands.specs.Words.{GivesCount, GivesLongestSearch, GivesRequests, given_text, wanted, wanted_base, wanted_path, wanted_service};
ghost use Rattle.commands.specs.declared.status.CommandFault.TheVariants.{File, Listen, Memory, To};

use crate::addresses::is_address;
use crate::status::{CommandFault, Status};
use clap::ArgMatches;
use clap::error::ErrorKind;
use connection::SEARCH_SECONDS;
use scim_client::{ScimService, ServicePath};
use scim_key::{Base, NameFault};
use std::alloc::Global;

/// The most requests that one run answers if it is told how many.
pub const MOST_REQUESTS: u32 = 1_000_000;

/// The most seconds that a search may be given.
pub const MOST_SEARCH_SECONDS: u32 = 3_600;

/// The base in the arguments, or the default.
pub fn base(alloc: Global, matches: &ArgMatches<'_>) -> Result<Base, CommandFault>
    ensures { Gives Memory result
        (wanted_base (first_value (found_of matches.now) (codes "base"))) }
{
    match matches.get_str("base") {
        Some(text) => Base::read(alloc, text).map_err(base_fault),
        None => Err(CommandFault::Base),
    }
}

/// The service that records are carried to: at the host of the base in the arguments, with the path that they name.
pub(crate) fn service(alloc: Global, matches: &ArgMatches<'_>) -> Result<ScimService, CommandFault>
    ensures { Gives Memory result
        (wanted_service (first_value (found_of matches.now) (codes "base"))
        (first_value (found_of matches.now) (codes "path"))) }
{
    let base = base(alloc, matches)?;
    let path = service_path(alloc, matches)?;
    Ok(ScimService::with_path(base, path))
}

/// The path in the arguments, if there is one.
fn service_path(
    alloc: Global,
    matches: &ArgMatches<'_>,
) -> Result<Option<ServicePath>, CommandFault>
    ensures { Gives Memory result
        (wanted_path (first_value (found_of matches.now) (codes "path"))) }
{
    match matches.get_str("path") {
        Some(text) => match ServicePath::read(alloc, text) {
            Ok(path) => Ok(Some(path)),
            Err(fault) => Err(text_fault(fault, CommandFault::Path)),
        },
        None => Ok(None),
    }
}

/// The fault of a base that can't be read.
pub fn base_fault(fault: NameFault) -> CommandFault
    ensures { result ≡ base_fault fault }
{
    text_fault(fault, CommandFault::Base)
}

/// The fault of a text that can't be read: out of memory, or this one.
fn text_fault(fault: NameFault, wrong: CommandFault) -> CommandFault
    ensures { result ≡ text_fault fault wrong }
{
    match fault {
        NameFault::Memory => CommandFault::Memory,
        _ => wrong,
    }
}

/// The file in the arguments.
pub fn file<'a>(matches: &ArgMatches<'a>) -> Result<&'a str, CommandFault>
    ensures { given_text result
        ≡ wanted File (first_value (found_of matches.now) (codes "FILE")) }
{
    matches.get_str("FILE").ok_or(CommandFault::File)
}

/// The file of users in the arguments.
pub fn users<'a>(matches: &ArgMatches<'a>) -> Result<&'a str, CommandFault>
    ensures { given_text result
        ≡ wanted File (first_value (found_of matches.now) (codes "users")) }
{
    matches.get_str("users").ok_or(CommandFault::File)
}

/// The file of users in the arguments, if there is one.
pub fn users_if_named<'a>(matches: &ArgMatches<'a>) -> Option<&'a str>
    ensures { text_in result ≡ first_value (found_of matches.now) (codes "users") }
{
    matches.get_str("users")
}

/// The file of groups in the arguments, if there is one.
pub fn groups<'a>(matches: &ArgMatches<'a>) -> Option<&'a str>
    ensures { text_in result ≡ first_value (found_of matches.now) (codes "groups") }
{
    matches.get_str("groups")
}

/// The file of rows in the arguments, if there is one.
pub fn store<'a>(matches: &ArgMatches<'a>) -> Option<&'a str>
    ensures { text_in result ≡ first_value (found_of matches.now) (codes "store") }
{
    matches.get_str("store")
}

/// The file of the journal in the arguments, if there is one.
pub fn journal<'a>(matches: &ArgMatches<'a>) -> Option<&'a str>
    ensures { text_in result ≡ first_value (found_of matches.now) (codes "journal") }
{
    matches.get_str("journal")
}

/// The address to listen on, from the arguments. Port 0 takes a free port.
pub fn address<'a>(matches: &ArgMatches<'a>) -> Result<&'a str, CommandFault>
    ensures { GivesAddress 0 Listen (first_value (found_of matches.now) (codes "listen")) result }
{
    address_in(matches.get_str("listen"), 0, CommandFault::Listen)
}

/// The provider's address in the arguments.
pub fn to<'a>(matches: &ArgMatches<'a>) -> Result<&'a str, CommandFault>
    ensures { GivesAddress 1 To (first_value (found_of matches.now) (codes "to")) result }
{
    address_in(matches.get_str("to"), 1, CommandFault::To)
}

/// An address with a port that is at least this one, or what is wrong with the arguments.
fn address_in(given: Option<&str>, least: u16, wrong: CommandFault) -> Result<&str, CommandFault>
    ensures { GivesAddress least wrong (text_in given.entry) result }
{
    match given {
        Some(text) if is_address(least, text) => Ok(text),
        _ => Err(wrong),
    }
}

/// How many requests are served, from the arguments. Without that, none is the last.
pub fn requests(matches: &ArgMatches<'_>) -> Result<u64, CommandFault>
    ensures { GivesRequests (first_value (found_of matches.now) (codes "requests"))
        (one_text (found_of matches.now) (codes "requests")) result }
{
    match matches.get_str("requests") {
        Some(_) => {
            let count = counted(matches, "requests", MOST_REQUESTS, CommandFault::Requests)?;
            Ok(u64::from(count))
        }
        None => Ok(u64::MAX),
    }
}

/// How many seconds a search may take, from the arguments, or the default.
pub fn longest_search(matches: &ArgMatches<'_>) -> Result<u32, CommandFault>
    ensures { GivesLongestSearch (first_value (found_of matches.now) (codes "longest-search"))
        (one_text (found_of matches.now) (codes "longest-search")) result }
{
    match matches.get_str("longest-search") {
        Some(_) => counted(
            matches,
            "longest-search",
            MOST_SEARCH_SECONDS,
            CommandFault::LongestSearch,
        ),
        None => Ok(SEARCH_SECONDS),
    }
}

/// The number of this argument, from 1 to the most, or what is wrong with the arguments.
pub(crate) fn counted(
    matches: &ArgMatches<'_>,
    name: &str,
    most: u32,
    wrong: CommandFault,
) -> Result<u32, CommandFault>
    ensures { GivesCount most wrong (one_text (found_of matches.now) name.now) result }
{
    match matches.get_one(name) {
        Some(count) if (1..=most).contains(&count) => Ok(count),
        _ => Err(wrong),
    }
}

/// The exit status of a run that only printed help, the version, or what is wrong with the arguments.
pub fn words_status(kind: ErrorKind, is_printed: bool) -> Status
    ensures { result ≡ words_status kind is_printed }
{
    match kind {
        ErrorKind::OutOfMemory => Status::Fault,
        ErrorKind::DisplayHelp | ErrorKind::DisplayVersion if is_printed => Status::Done,
        ErrorKind::DisplayHelp | ErrorKind::DisplayVersion => Status::Fault,
        _ => Status::Usage,
    }
}
