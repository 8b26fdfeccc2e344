//! The exit status of a run.
ghost use Rattle.std.specs.Prelude.{◌≡◌};
ghost use Rattle.std.specs.IoError.{error_kind};
ghost use Rattle.commands.specs.Causes.{error_of, part_of, source_part};
ghost use Rattle.commands.specs.Statuses.{fault_status, file_fault, journal_fault, lines_fault, look_fault, loop_fault, schedule_fault, show_fault, status_code, store_fault, telling_fault, unless_memory, unread_fault, users_fault, words_fault, world_fault};
ghost use Rattle.commands.specs.declared.status.CommandFault.TheVariants.{Memory, Output, Unopened};

use crate::looping::LoopFault;
use crate::manners::{LONGEST_STREAK, MOST_LEAVERS, MOST_SETTLE_SECONDS};
use crate::simulating::EventsFault;
use crate::words::{MOST_REQUESTS, MOST_SEARCH_SECONDS};
use connection::ConnectionFault;
use mapping::WriteFault;
use provider_store::RegistryOpenFault;
use provisioning::{MOST_STREAMS, RunFault, UnreadFile};
use scim_client::SERVICE_PATH_LIMIT;
use scim_key::Kind;
use source_csv::{ReadFault, SourceFault};
use std::alloc::{AllocError, AllocFailed};
use std::io;
use std::io::ErrorKind;
use std::rt::Runtime;
use storage::{DatabaseReason, LookFault, ShowFault};
use thiserror::Error;
use world_sim::{ScheduleFault, TellingFault, WorldFault};

/// The exit status of the program.
#[derive(Clone, Copy)]
pub enum Status {
    /// Everything is done.
    Done,
    /// A row, the header of a file or a schedule was rejected, or a record is unconfirmed at the end.
    Refused,
    /// The arguments aren't valid.
    Usage,
    /// A store, a file, a connection or memory failed.
    Fault,
}

impl Status {
    /// The number that the program exits with.
    pub fn code(self) -> u8
        ensures { result ≡ status_code self }
    {
        match self {
            Status::Done => 0,
            Status::Refused => 1,
            Status::Usage => 2,
            Status::Fault => 3,
        }
    }
}

/// The parts that a run uses.
#[derive(Clone, Copy, Debug)]
pub enum Part {
    /// The files of users and of groups.
    Users,
    Groups,
    /// The file that `map` or `simulate` reads.
    File,
    /// Standard output.
    Output,
    /// The address that `serve` listens on.
    Listening,
    /// The address of the provider that records are carried to.
    Provider,
    /// The file of the provider's rows.
    Store,
    /// The file of the connector's journal.
    Journal,
}

/// What ends a run early. Its text is printed on standard error.
#[derive(Clone, Copy, Debug, Error)]
pub enum CommandFault {
    #[error("error: the command line isn't UTF-8")]
    Words,
    #[error("error: there is no such subcommand")]
    Subcommand,
    #[error("error: --base is http://HOST/v2")]
    Base,
    #[error("error: --path is one segment or more, such as /scim/v2, and at most {most} bytes", most = SERVICE_PATH_LIMIT)]
    Path,
    #[error("error: --listen is HOST:PORT, such as 127.0.0.1:8080")]
    Listen,
    #[error("error: --to is HOST:PORT, such as localhost:8080")]
    To,
    #[error("error: --requests is 1 to {most}", most = MOST_REQUESTS)]
    Requests,
    #[error("error: --longest-search is 1 to {most} seconds", most = MOST_SEARCH_SECONDS)]
    LongestSearch,
    #[error("error: --most-leavers is 0 to {most}", most = MOST_LEAVERS)]
    MostLeavers,
    #[error("error: --streams is 1 to {most}", most = MOST_STREAMS)]
    Streams,
    #[error("error: --give-up-after is 0 to {most}", most = LONGEST_STREAK)]
    GiveUpAfter,
    #[error("error: --column is OURS=THEIRS, with each column of ours at most once")]
    Column,
    #[error("error: --separator is comma, semicolon or tab")]
    Separator,
    #[error("error: --settle-time is 0 to {most} seconds", most = MOST_SETTLE_SECONDS)]
    SettleTime,
    #[error("error: --provider-keeps is revisions, versions or nothing")]
    ProviderKeeps,
    #[error("error: show takes one of --store FILE and --journal FILE")]
    Show,
    #[error("error: {0}")]
    Events(EventsFault),
    /// The users file as a whole is wrong.
    #[error("users: {0}")]
    Users(SourceFault),
    /// The schedule as a whole is wrong.
    #[error("schedule {0}")]
    Schedule(ScheduleFault),
    /// A store of a world failed.
    #[error("store fault")]
    Store,
    /// A file of rows couldn't be opened, or failed.
    #[error("store fault {0}")]
    StoreFile(RegistryOpenFault),
    /// The file of a journal couldn't be opened, or failed.
    #[error("journal fault {0}")]
    JournalFile(journal_store::JournalOpenFault),
    /// The journal is of an older format, which a plan doesn't carry over.
    #[error("journal fault: it is of an older format, and this command changes nothing")]
    OlderJournal,
    /// No file is named, or a line couldn't be written.
    #[error("file fault")]
    File,
    /// This file couldn't be read; with the system's error.
    #[error("file fault")]
    Unread(Part, io::Error),
    /// This store or journal isn't there, and the command makes none.
    #[error("file fault")]
    Missing(Part),
    /// A line couldn't be written; with the system's error.
    #[error("file fault")]
    Output(io::Error),
    /// No request came, or its answer couldn't be written whole.
    #[error("{0}")]
    Connection(ConnectionFault),
    /// The address can't be listened on; with the system's error.
    #[error("connection fault")]
    Unopened(io::Error),
    /// A run of the connector ended early.
    #[error("{0}")]
    Run(RunFault),
    #[error("memory fault")]
    Memory,
}

impl CommandFault {
    /// The exit status.
    pub fn status(self) -> Status
        ensures { result ≡ fault_status self }
    {
        match self {
            CommandFault::Words | CommandFault::Subcommand => Status::Usage,
            CommandFault::Base | CommandFault::Path => Status::Usage,
            CommandFault::Listen | CommandFault::To => Status::Usage,
            CommandFault::Requests | CommandFault::LongestSearch => Status::Usage,
            CommandFault::MostLeavers | CommandFault::GiveUpAfter => Status::Usage,
            CommandFault::Column | CommandFault::Separator => Status::Usage,
            CommandFault::Streams | CommandFault::Show => Status::Usage,
            CommandFault::ProviderKeeps | CommandFault::SettleTime => Status::Usage,
            CommandFault::Events(_) => Status::Usage,
            CommandFault::Users(SourceFault::Header) => Status::Refused,
            CommandFault::Users(SourceFault::Memory) => Status::Fault,
            CommandFault::Schedule(ScheduleFault::Line(_)) => Status::Refused,
            CommandFault::Schedule(ScheduleFault::Memory) | CommandFault::Store => Status::Fault,
            CommandFault::StoreFile(_) | CommandFault::JournalFile(_) => Status::Fault,
            CommandFault::OlderJournal => Status::Fault,
            CommandFault::File | CommandFault::Unread(_, _) => Status::Fault,
            CommandFault::Missing(_) => Status::Fault,
            CommandFault::Output(_) | CommandFault::Connection(_) => Status::Fault,
            CommandFault::Unopened(_) | CommandFault::Run(_) => Status::Fault,
            CommandFault::Memory => Status::Fault,
        }
    }

    /// The part of a run that failed, if a part did.
    pub fn part(self) -> Option<Part>
        ensures { result ≡ part_of self }
    {
        match self {
            CommandFault::Unread(part, _) | CommandFault::Missing(part) => Some(part),
            CommandFault::Output(_) => Some(Part::Output),
            CommandFault::Unopened(_) => Some(Part::Listening),
            CommandFault::StoreFile(_) => Some(Part::Store),
            CommandFault::JournalFile(_) => Some(Part::Journal),
            CommandFault::Run(RunFault::Connection(_)) => Some(Part::Provider),
            CommandFault::Run(RunFault::Journal) => Some(Part::Journal),
            _ => None,
        }
    }

    /// The system's error, if the fault has it.
    pub fn error(self) -> Option<io::Error>
        ensures { result ≡ error_of self }
    {
        match self {
            CommandFault::Unread(_, error) | CommandFault::Output(error) => Some(error),
            CommandFault::Unopened(error) => Some(error),
            CommandFault::Run(RunFault::Connection(error)) => Some(error),
            _ => None,
        }
    }
}

impl From<AllocError> for CommandFault {
    ghost from_gives = { λ _ fault. fault ≡ Memory };

    fn from(_: AllocError) -> CommandFault {
        CommandFault::Memory
    }
}

impl<T: Drop> From<AllocFailed<T>> for CommandFault {
    ghost from_gives = { λ _ fault. fault ≡ Memory };

    fn from(_: AllocFailed<T>) -> CommandFault {
        CommandFault::Memory
    }
}

/// The fault of a line that couldn't be written.
impl From<io::Error> for CommandFault {
    ghost from_gives = { λ error fault. fault ≡ unless_memory (error_kind error) (Output error) };

    fn from(error: io::Error) -> CommandFault {
        unless_memory(error.kind(), CommandFault::Output(error))
    }
}

impl From<UnreadFile> for CommandFault {
    ghost from_gives = { λ unread fault. fault
        ≡ unread_fault (source_part unread.kind) unread.error };

    fn from(unread: UnreadFile) -> CommandFault {
        unread_fault(source_part(unread.kind), unread.error)
    }
}

/// The file of records of this type.
fn source_part(kind: Kind) -> Part
    ensures { result ≡ source_part kind }
{
    match kind {
        Kind::User => Part::Users,
        Kind::Group => Part::Groups,
    }
}

/// The fault of a file that couldn't be read.
pub fn unread_fault(part: Part, error: io::Error) -> CommandFault
    ensures { result ≡ unread_fault part error }
{
    unless_memory(error.kind(), CommandFault::Unread(part, error))
}

/// The fault of an address that can't be listened on.
pub fn listen_fault(error: io::Error) -> CommandFault
    ensures { result ≡ unless_memory (error_kind error) (Unopened error) }
{
    unless_memory(error.kind(), CommandFault::Unopened(error))
}

/// The fault of arguments that can't be read.
pub fn words_fault(error: io::Error) -> CommandFault
    ensures { result ≡ words_fault (error_kind error) }
{
    unless_memory(error.kind(), CommandFault::Words)
}

/// What ends a run after a failed call of the system: out of memory, or this fault.
fn unless_memory(kind: ErrorKind, otherwise: CommandFault) -> CommandFault
    ensures { result ≡ unless_memory kind otherwise }
{
    match kind {
        ErrorKind::OutOfMemory => CommandFault::Memory,
        _ => otherwise,
    }
}

impl From<SourceFault> for CommandFault {
    ghost from_gives = { λ users fault. fault ≡ users_fault users };

    fn from(fault: SourceFault) -> CommandFault {
        match fault {
            SourceFault::Header => CommandFault::Users(fault),
            SourceFault::Memory => CommandFault::Memory,
        }
    }
}

/// The fault of a file of users that isn't read to its end.
impl From<ReadFault> for CommandFault {
    ghost from_gives = { λ file fault. fault ≡ file_fault file };

    fn from(fault: ReadFault) -> CommandFault {
        match fault {
            ReadFault::Source(fault) => CommandFault::from(fault),
            ReadFault::Input(error) => unread_fault(Part::File, error),
        }
    }
}

impl From<WriteFault> for CommandFault {
    ghost from_gives = { λ lines fault. fault ≡ lines_fault lines };

    fn from(fault: WriteFault) -> CommandFault {
        match fault {
            WriteFault::Memory => CommandFault::Memory,
            WriteFault::Output => CommandFault::File,
        }
    }
}

impl From<ScheduleFault> for CommandFault {
    ghost from_gives = { λ schedule fault. fault ≡ schedule_fault schedule };

    fn from(fault: ScheduleFault) -> CommandFault {
        match fault {
            ScheduleFault::Line(_) => CommandFault::Schedule(fault),
            ScheduleFault::Memory => CommandFault::Memory,
        }
    }
}

impl From<WorldFault> for CommandFault {
    ghost from_gives = { λ world fault. fault ≡ world_fault world };

    fn from(fault: WorldFault) -> CommandFault {
        match fault {
            WorldFault::Memory => CommandFault::Memory,
            WorldFault::Store => CommandFault::Store,
        }
    }
}

impl From<TellingFault<io::Error>> for CommandFault {
    ghost from_gives = { λ told fault. fault ≡ telling_fault told };

    fn from(fault: TellingFault<io::Error>) -> CommandFault {
        match fault {
            TellingFault::World(fault) => CommandFault::from(fault),
            TellingFault::Untold(error) => CommandFault::from(error),
        }
    }
}

impl From<RegistryOpenFault> for CommandFault {
    ghost from_gives = { λ opening fault. fault ≡ store_fault opening };

    fn from(fault: RegistryOpenFault) -> CommandFault {
        match fault {
            RegistryOpenFault::Memory => CommandFault::Memory,
            RegistryOpenFault::Store | RegistryOpenFault::Damaged(_) | RegistryOpenFault::Newer => {
                CommandFault::StoreFile(fault)
            }
        }
    }
}

impl From<journal_store::JournalOpenFault> for CommandFault {
    ghost from_gives = { λ opening fault. fault ≡ journal_fault opening };

    fn from(fault: journal_store::JournalOpenFault) -> CommandFault {
        match fault {
            journal_store::JournalOpenFault::Memory => CommandFault::Memory,
            journal_store::JournalOpenFault::Store
            | journal_store::JournalOpenFault::Damaged
            | journal_store::JournalOpenFault::Newer => CommandFault::JournalFile(fault),
        }
    }
}

impl From<LookFault> for CommandFault {
    ghost from_gives = { λ look fault. fault ≡ look_fault look };

    fn from(fault: LookFault) -> CommandFault {
        match fault {
            LookFault::Older => CommandFault::OlderJournal,
            LookFault::Refused(fault) => CommandFault::from(fault),
        }
    }
}

impl From<RunFault> for CommandFault {
    ghost use Rattle.commands.specs.declared.status.CommandFault.TheVariants.{Run};

    ghost from_gives = { λ run fault. fault ≡ Run run };

    fn from(fault: RunFault) -> CommandFault {
        CommandFault::Run(fault)
    }
}

impl From<LoopFault> for CommandFault {
    ghost from_gives = { λ ended fault. fault ≡ loop_fault ended };

    fn from(fault: LoopFault) -> CommandFault {
        match fault {
            LoopFault::Ended(fault) => CommandFault::Run(fault),
            LoopFault::Store => CommandFault::StoreFile(RegistryOpenFault::Store),
        }
    }
}

impl From<ShowFault> for CommandFault {
    ghost from_gives = { λ show fault. fault ≡ show_fault show };

    fn from(fault: ShowFault) -> CommandFault {
        match fault {
            ShowFault::Store(fault) => CommandFault::from(fault),
            ShowFault::Journal(fault) => CommandFault::from(fault),
            ShowFault::NoStore => CommandFault::Missing(Part::Store),
            ShowFault::NoJournal => CommandFault::Missing(Part::Journal),
            ShowFault::Memory => CommandFault::Memory,
            ShowFault::Output => CommandFault::File,
        }
    }
}

/// Why a part of a run failed. Its text is what the system says, or the library of the stores.
#[derive(Clone, Copy, Debug, Error)]
pub enum Reason {
    #[error("{0}")]
    System(io::Error),
    #[error("{0}")]
    Database(DatabaseReason),
}

/// What a run used when a fault ended it, by its name in the arguments, and why it failed.
#[derive(Clone, Copy)]
pub struct Cause<'a> {
    pub name: &'a str,
    pub reason: Reason,
}

/// Reports a fault on standard error, with its cause in a second line, and returns the exit status.
pub fn told<R: Eprint + AllocGlobal>(
    rt: &R,
    fault: CommandFault,
    cause: Option<Cause<'_>>,
) -> Status
    ensures { result ≡ fault_status fault }
{
    let _ = eprintln!(rt; "{fault}");
    if let Some(cause) = cause {
        tell_cause(rt, cause);
    }
    fault.status()
}

/// Prints the reason. The number of a system's error is left out, unless memory has run out.
fn tell_cause<R: Eprint + AllocGlobal>(rt: &R, cause: Cause<'_>) {
    let Cause { name, reason } = cause;
    match format!(in rt.alloc(); "{reason}") {
        Ok(text) => {
            let words = without_number(text.as_str());
            let _ = eprintln!(rt; " {name}: {words}");
        }
        Err(_) => {
            let _ = eprintln!(rt; " {name}: {reason}");
        }
    }
}

fn without_number(text: &str) -> &str {
    match text.split_once(" (os error ") {
        Some((words, _number)) => words,
        None => text,
    }
}
