//! Schedules: texts that say, line by line, what happens in a world.
ghost use Rattle.std.specs.Prelude.{◌≡◌, IfOk, List, ℕ, Option, map, string_bytes};
ghost use Rattle.std.specs.Char.{is_ascii_digit};
ghost use Rattle.std.specs.List.{join_with_byte, list_all};
ghost use Rattle.std.specs.Str.Lines.{lines};
ghost use Rattle.scim_key.specs.Outcome.{Gives, GivesBy};
ghost use Rattle.scim_filter.specs.Names.{is_lawful, record_named};
ghost use Rattle.source_csv.specs.Fields.{Record, named};
ghost use Rattle.source_csv.specs.Files.{AreRecordsOf, rows_of};
ghost use Rattle.source_csv.specs.declared.layouts.Separator.TheVariants.{Comma};
ghost use Rattle.world_sim.specs.Schedules.{ReadsFiles, act_in, acts_in, behind, event_in, events_in, file_of, first_word, is_silent, only_row, row_under, said_from, said_lines};
ghost use Rattle.world_sim.specs.Schedules as spec;
ghost use Rattle.world_sim.specs.declared.schedules.ScheduleFault.TheVariants as fault;
ghost use Rattle.world_sim.specs.declared.events.Event.TheVariants as events;

use crate::acting::Act;
use crate::events::Event;
use scim_key::{GroupName, Key, Kind, NameFault, RecordName, UserName};
use source_csv::{GROUP_HEADERS, Row, RowFault, SourceFault, USER_HEADERS, read_rows};
use std::alloc::{AllocError, AllocFailed, Global};
use thiserror::Error;

/// The most digits of a number in a schedule.
pub const NUMBER_DIGITS: usize = 18;

/// Why a schedule gives no events, or no acts.
#[derive(Clone, Copy, Debug, Error)]
pub enum ScheduleFault {
    /// The line with this number, counted from 1, is the first that isn't one.
    #[error("line {0}: L1")]
    Line(usize),
    #[error("memory")]
    Memory,
}

impl From<AllocError> for ScheduleFault {
    ghost from_gives = { λ _ made. made ≡ fault.Memory };

    fn from(_: AllocError) -> ScheduleFault {
        ScheduleFault::Memory
    }
}

impl<T: Drop> From<AllocFailed<T>> for ScheduleFault {
    ghost from_gives = { λ _ made. made ≡ fault.Memory };

    fn from(_: AllocFailed<T>) -> ScheduleFault {
        ScheduleFault::Memory
    }
}

/// The names of columns, with commas between them.
fn header(alloc: Global, columns: &[&str]) -> Result<String, AllocError>
    ensures { IfOk result (λ header. string_bytes header ≡ join_with_byte 44 (named columns.now)) }
{
    columns.join(alloc, ",")
}

/// The file with this header and only this record.
fn file_of(alloc: Global, columns: &[&str], text: &str) -> Result<String, AllocError>
    ensures { IfOk result (λ file. string_bytes file ≡ file_of (named columns.now) text.now) }
{
    let mut file = header(alloc, columns)?;
    file.push('\n')?;
    file.push_str(text)?;
    Ok(file)
}

/// The row, if there is exactly one record and it is a row.
fn only_row(mut rows: Vec<Result<Row, RowFault>>) -> Option<Row>
    ensures { result ≡ only_row (Ok rows.items) }
{
    if rows.len() != 1 {
        return None;
    }
    match rows.pop() {
        Some(Ok(row)) => Some(row),
        Some(Err(_)) | None => None,
    }
}

/// The row of a file of this kind, if it has exactly one record and that is a row.
fn only_row_in(alloc: Global, kind: Kind, bytes: &[u8]) -> Result<Option<Row>, AllocError>
    ensures { (records : List Record) → AreRecordsOf Comma bytes.now records
        → IfOk result (λ row. row ≡ only_row (rows_of kind records)) }
{
    match read_rows(alloc, kind, bytes) {
        Ok(rows) => Ok(only_row(rows.into_vec())),
        Err(SourceFault::Header) => Ok(None),
        Err(SourceFault::Memory) => Err(AllocError),
    }
}

/// The row that a record of this kind is under the first of these headers that makes it one row.
fn row_under(
    alloc: Global,
    kind: Kind,
    headers: &[&[&str]],
    text: &str,
) -> Result<Option<Row>, AllocError>
    ensures { (records_in : List ℕ → List Record) → ReadsFiles records_in
        → IfOk result (λ row. row
        ≡ row_under records_in kind text.now (map (λ columns. named columns.now) headers.now)) }
{
    for columns in headers {
        let file = file_of(alloc, columns, text)?;
        if let Some(row) = only_row_in(alloc, kind, file.as_bytes())? {
            return Ok(Some(row));
        }
    }
    Ok(None)
}

/// The row that a record of this kind is.
#[tactic(auto, unfolding(crate::specs::Schedules::row_in))]
pub(crate) fn row_in(alloc: Global, kind: Kind, text: &str) -> Result<Option<Row>, AllocError>
    ensures { (records_in : List ℕ → List Record) → ReadsFiles records_in
        → IfOk result (λ row. row ≡ spec.row_in records_in kind text.now) }
{
    Ok(match kind {
        Kind::User => row_under(alloc, kind, &USER_HEADERS, text)?,
        Kind::Group => row_under(alloc, kind, &GROUP_HEADERS, text)?,
    })
}

/// The event that offers this record of a file of this kind.
#[tactic(auto, unfolding(crate::specs::Schedules::change_in))]
pub(crate) fn change_in(alloc: Global, kind: Kind, text: &str) -> Result<Option<Event>, AllocError>
    ensures { (records_in : List ℕ → List Record) → ReadsFiles records_in
        → IfOk result (λ event. event ≡ spec.change_in records_in kind text.now) }
{
    Ok(row_in(alloc, kind, text)?.map(Event::Change))
}

/// The first word of a text, and the rest after the first space.
fn words_of(text: &str) -> (&str, &str)
    ensures { (result.0.now ≡ first_word text.now) × (result.1.now ≡ behind text.now) }
{
    text.split_once(' ').unwrap_or((text, ""))
}

/// Whether a text is a valid name for this kind.
fn is_lawful(alloc: Global, kind: Kind, name: &str) -> Result<bool, AllocError>
    ensures { IfOk result (λ lawful. lawful ≡ is_lawful kind name.now) }
{
    let fault = match kind {
        Kind::User => UserName::read(alloc, name).err(),
        Kind::Group => GroupName::read(alloc, name).err(),
    };
    match fault {
        Some(NameFault::Memory) => Err(AllocError),
        Some(_) => Ok(false),
        None => Ok(true),
    }
}

/// The record with this name.
pub(crate) fn record_named(
    alloc: Global,
    kind: Kind,
    name: &str,
) -> Result<Option<RecordName>, AllocError>
    ensures { IfOk result (λ found. found ≡ record_named name.now kind) }
{
    if !is_lawful(alloc, kind, name)? {
        return Ok(None);
    }
    let key = Key::of(alloc, name)?;
    Ok(Some(RecordName { kind, key }))
}

/// The record that a type of resource and a name spell.
#[tactic(auto, unfolding(crate::specs::Schedules::record_in))]
fn record_in(alloc: Global, text: &str) -> Result<Option<RecordName>, AllocError>
    ensures { IfOk result (λ name. name ≡ spec.record_in text.now) }
{
    let (word, name) = words_of(text);
    match word {
        "user" => record_named(alloc, Kind::User, name),
        "group" => record_named(alloc, Kind::Group, name),
        _ => Ok(None),
    }
}

/// Whether every byte is a digit.
fn are_digits(bytes: &[u8]) -> bool
    ensures { result ≡ list_all is_ascii_digit bytes.now }
{
    bytes.iter().all(|byte| byte.is_ascii_digit())
}

/// Whether a text is 1 to `NUMBER_DIGITS` digits.
fn is_number(text: &str) -> bool
    ensures { result ≡ spec.is_number text.now }
{
    !text.is_empty() && text.len() <= NUMBER_DIGITS && are_digits(text.as_bytes())
}

/// The number that a text writes.
#[tactic(auto, unfolding(crate::specs::Schedules::number_in))]
fn number_in(text: &str) -> Option<usize>
    ensures { result ≡ spec.number_in text.now }
{
    if is_number(text) {
        text.parse().ok()
    } else {
        None
    }
}

/// The number of a message and how many bytes of it arrive.
#[tactic(auto, unfolding(crate::specs::Schedules::cut_in))]
fn cut_in(text: &str) -> Option<Event>
    ensures { result ≡ spec.cut_in text.now }
{
    let (number, length) = words_of(text);
    Some(Event::Cut {
        number: number_in(number)?,
        length: number_in(length)?,
    })
}

/// The restart of a side.
#[tactic(auto, unfolding(crate::specs::Schedules::restart_in))]
fn restart_in(text: &str) -> Option<Event>
    ensures { result ≡ spec.restart_in text.now }
{
    match text {
        "provider" => Some(Event::RestartProvider),
        "connector" => Some(Event::RestartConnector),
        _ => None,
    }
}

/// The event in a line.
#[tactic(auto, unfolding(crate::specs::Schedules::event_of_words))]
fn event_in(alloc: Global, line: &str) -> Result<Option<Event>, AllocError>
    ensures { (records_in : List ℕ → List Record) → ReadsFiles records_in
        → IfOk result (λ event. event ≡ event_in records_in line.now) }
{
    let (word, rest) = words_of(line);
    match word {
        "user" => change_in(alloc, Kind::User, rest),
        "group" => change_in(alloc, Kind::Group, rest),
        "send" => Ok(record_in(alloc, rest)?.map(Event::Send)),
        "doubt" => Ok(record_in(alloc, rest)?.map(Event::Doubt)),
        "deliver" => Ok(number_in(rest).map(Event::Deliver)),
        "cut" => Ok(cut_in(rest)),
        "restart" => Ok(restart_in(rest)),
        _ => Ok(None),
    }
}

/// Whether a line is empty or a comment.
fn is_silent(line: &str) -> bool
    ensures { result ≡ is_silent line.now }
{
    match line.as_bytes() {
        [] => true,
        [first, ..] => *first == b'#',
    }
}

/// The lines of a text.
fn lines_of(alloc: Global, text: &str) -> Result<Vec<&str>, AllocError>
    ensures { IfOk result (λ all. map (λ line. line.now) all.items ≡ lines text.now) }
{
    text.lines().collect(alloc)
}

/// The row of a type of resource and a record of a file of that type.
#[tactic(auto, unfolding(crate::specs::Schedules::typed_row_in))]
fn typed_row_in(alloc: Global, text: &str) -> Result<Option<Row>, AllocError>
    ensures { (records_in : List ℕ → List Record) → ReadsFiles records_in
        → IfOk result (λ row. row ≡ spec.typed_row_in records_in text.now) }
{
    let (word, rest) = words_of(text);
    match word {
        "user" => row_in(alloc, Kind::User, rest),
        "group" => row_in(alloc, Kind::Group, rest),
        _ => Ok(None),
    }
}

/// The act in a line.
#[tactic(auto, unfolding(crate::specs::Schedules::act_of_words))]
fn act_in(alloc: Global, line: &str) -> Result<Option<Act>, AllocError>
    ensures { (records_in : List ℕ → List Record) → ReadsFiles records_in
        → IfOk result (λ act. act ≡ act_in records_in line.now) }
{
    let (word, rest) = words_of(line);
    match word {
        "other" => Ok(typed_row_in(alloc, rest)?.map(Act::WritesRow)),
        "held" => Ok(typed_row_in(alloc, rest)?.map(Act::Holds)),
        _ => Ok(event_in(alloc, line)?.map(Act::Ours)),
    }
}

/// What a line of a schedule may say.
trait Line: Drop + Sized {
    /// What a line says, if it says anything.
    ghost said: { (List ℕ → List Record) → List ℕ → Option Self };

    fn read(alloc: Global, line: &str) -> Result<Option<Self>, AllocError>
        ensures { (records_in : List ℕ → List Record) → ReadsFiles records_in
            → IfOk result (λ found. found ≡ said records_in line.now) };
}

impl Line for Event {
    ghost said = { event_in };

    fn read(alloc: Global, line: &str) -> Result<Option<Event>, AllocError> {
        event_in(alloc, line)
    }
}

impl Line for Act {
    ghost said = { act_in };

    fn read(alloc: Global, line: &str) -> Result<Option<Act>, AllocError> {
        act_in(alloc, line)
    }
}

/// What the line with this number says; nothing if the line is empty or a comment.
#[tactic(auto, unfolding(crate::specs::Schedules::said_at))]
fn said_at<T: Line>(alloc: Global, number: usize, line: &str) -> Result<Option<T>, ScheduleFault>
    ensures { (records_in : List ℕ → List Record) → ReadsFiles records_in
        → Gives ScheduleFault.Memory result (spec.said_at (T.said records_in) number line.now) }
{
    if is_silent(line) {
        return Ok(None);
    }
    match T::read(alloc, line)? {
        Some(said) => Ok(Some(said)),
        None => Err(ScheduleFault::Line(number)),
    }
}

/// What these lines say, which are numbered from 1.
fn said_of<T: Line>(alloc: Global, lines: &[&str]) -> Result<Vec<T>, ScheduleFault>
    ensures { (records_in : List ℕ → List Record) → ReadsFiles records_in
        → GivesBy (λ all. all.items) ScheduleFault.Memory result
        (said_from (T.said records_in) 1 (map (λ line. line.now) lines.now)) }
{
    let mut all = Vec::new(alloc);
    let mut number = 0;
    for line in lines {
        number += 1;
        if let Some(said) = said_at(alloc, number, line)? {
            all.push(said)?;
        }
    }
    Ok(all)
}

/// Reads a schedule. Its lines end with LF or CR LF; empty lines and lines that begin with `#` are skipped.
/// Each other line is an event: `user` or `group` and a record of a file of that kind, `send user` or `send
/// group` and a name, `deliver` and a number, `cut` and two numbers, `restart provider` or `restart
/// connector`.
pub fn read_schedule(alloc: Global, text: &str) -> Result<Vec<Event>, ScheduleFault>
    ensures { (records_in : List ℕ → List Record) → ReadsFiles records_in
        → GivesBy (λ events. events.items) ScheduleFault.Memory result
        (events_in records_in text.now) }
{
    let lines = lines_of(alloc, text)?;
    said_of(alloc, lines.as_slice())
}

/// Reads a schedule among others. Its lines are those that `read_schedule` reads, and `other user` or `other
/// group` with a record of a file of that kind, whose image others write, and `held user` or `held group` with
/// one, whose image the provider holds at the start.
pub fn read_acts(alloc: Global, text: &str) -> Result<Vec<Act>, ScheduleFault>
    ensures { (records_in : List ℕ → List Record) → ReadsFiles records_in
        → GivesBy (λ acts. acts.items) ScheduleFault.Memory result
        (acts_in records_in text.now) }
{
    let lines = lines_of(alloc, text)?;
    said_of(alloc, lines.as_slice())
}

/// The numbers of the lines that aren't empty and no comments. The first line has the number 1.
fn numbers_of(alloc: Global, lines: &[&str]) -> Result<Vec<usize>, AllocError>
    ensures { IfOk result (λ numbers. numbers.items
        ≡ said_lines 1 (map (λ line. line.now) lines.now)) }
{
    let mut numbers = Vec::new(alloc);
    let mut number: usize = 0;
    for line in lines {
        number += 1;
        if !is_silent(line) {
            numbers.push(number)?;
        }
    }
    Ok(numbers)
}

/// The numbers of the lines of a schedule that aren't empty and no comments. Each is an event or an act.
pub fn said_lines(alloc: Global, text: &str) -> Result<Vec<usize>, AllocError>
    ensures { IfOk result (λ numbers. numbers.items ≡ said_lines 1 (lines text.now)) }
{
    let lines = lines_of(alloc, text)?;
    numbers_of(alloc, lines.as_slice())
}
